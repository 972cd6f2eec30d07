// What a number type gives so that its numbers can be rounded, where it says itself which worths it holds.
ghost use Rattle.std.specs.Prelude.{◌≡◌, ◌+◌, ◌^◌, ◌<◌, ℤ, pos, neg_ℤ, ◌<ℤ◌, ⊤, unsigned_abs};
ghost use Rattle.std.proofs.Common.{rules};
ghost use Rattle.rounding.specs.Beside.{Beside, beside_below};

pub trait WideRoundable: Copy {
    // what a number is worth
    ghost value: { Self → ℤ };

    // a dividend and a divisor that leave room to round up
    ghost room: { Self → Self → Type 0 };

    // a number can be made of this worth
    ghost held: { ℤ → Type 0 };

    // a number is in the normal form of its worth
    ghost formed: { Self → Type 0 };

    fn wide_worth(self) -> i128
        ensures { result ≡ value self };

    fn of_wide_worth(worth: i128) -> Self
        requires { held worth }
        ensures value { value result ≡ worth }
        ensures formed { formed result };

    // where there is room, a multiple next to the dividend is held, with either sign
    ghost reached: { (x n : Self) (z : ℤ) → pos 0 <ℤ value n → room x n → Beside (unsigned_abs (value x)) (unsigned_abs (value n)) (unsigned_abs z) → held z };

    // where there is room, the dividend can be turned
    ghost may_turn: { (x n : Self) → room x n → held (neg_ℤ (value x)) };

    // and the turned one has the same room
    ghost turned: { (x y n : Self) → value y ≡ neg_ℤ (value x) → room x n → room y n };

    // what is held fits 128 bits, with either sign
    ghost narrow: { (z : ℤ) → held z → unsigned_abs z < 2 ^ 127 };
}

impl WideRoundable for i64 {
    ghost value = { λ x. x };

    ghost room = { λ x n. unsigned_abs x + unsigned_abs n < 2 ^ 63 };

    ghost held = { λ z. unsigned_abs z < 2 ^ 63 };

    ghost formed = { λ _. ⊤ };

    ghost reached = { λ x n z _. beside_below (unsigned_abs x) (unsigned_abs n) (unsigned_abs z) (2 ^ 63) };

    ghost may_turn = { Prim.search rules };

    ghost turned = { Prim.search rules };

    ghost narrow = { Prim.search rules };

    fn wide_worth(self) -> i128 {
        i128::from(self)
    }

    fn of_wide_worth(worth: i128) -> i64 {
        // The cast loses nothing, which is proved; `try_from` would add a branch that never comes.
        worth as i64
    }
}
