// A count of 128 bits as one number to round.
ghost use Rattle.std.specs.Prelude.{◌≡◌, ◌+◌, ◌^◌, ◌<◌, pos, neg_ℤ, ◌<ℤ◌, ⊤, unsigned_abs};
ghost use Rattle.rounding.specs.Beside.{beside_below};
ghost use Rattle.std.proofs.Common.{rules};

use crate::WideRoundable;

impl WideRoundable for i128 {
    ghost value = { λ x. x };

    ghost room = { λ x n. unsigned_abs x + unsigned_abs n < 2 ^ 127 };

    ghost held = { λ z. unsigned_abs z < 2 ^ 127 };

    ghost formed = { λ _. ⊤ };

    ghost reached = { λ x n z _. beside_below (unsigned_abs x) (unsigned_abs n) (unsigned_abs z) (2 ^ 127) };

    ghost may_turn = { Prim.search rules };

    ghost turned = { Prim.search rules };

    ghost narrow = { Prim.search rules };

    fn wide_worth(self) -> i128 {
        self
    }

    fn of_wide_worth(worth: i128) -> i128 {
        worth
    }
}
