// The pair of seconds and nanoseconds as one number to round.
ghost use Rattle.std.specs.Prelude.{◌≡◌, ◌+◌, ◌*◌, ◌^◌, ◌<◌, pos, ◌<ℤ◌, unsigned_abs};
ghost use Rattle.clock.specs.Instants.{worth};
ghost use Rattle.rounding.specs.Beside.{beside_below};
ghost use Rattle.rounding.specs.Rounding.{rounded_to};
ghost use Rattle.std.proofs.Common.{rules};

use crate::{RoundingMode, WideRoundable, WideRounder};
use clock::Timespec;

impl WideRoundable for Timespec {
    ghost value = { λ pair. worth pair };

    ghost room = { λ pair step. unsigned_abs (worth pair) + unsigned_abs (worth step) < 2 ^ 63 * 1000000000 };

    ghost held = { λ z. unsigned_abs z < 2 ^ 63 * 1000000000 };

    ghost formed = { λ pair. pair.nanos < 1000000000 };

    ghost reached = { λ pair step z _. beside_below (unsigned_abs (worth pair)) (unsigned_abs (worth step)) (unsigned_abs z) (2 ^ 63 * 1000000000) };

    ghost may_turn = { Prim.search rules };

    ghost turned = { Prim.search rules };

    ghost narrow = { Prim.search rules };

    fn wide_worth(self) -> i128 {
        i128::from(self)
    }

    fn of_wide_worth(worth: i128) -> Timespec {
        // The casts lose nothing, which is proved; `try_from` would add branches that never come.
        Timespec {
            seconds: worth.div_euclid(1_000_000_000) as i64,
            nanos: worth.rem_euclid(1_000_000_000) as u32,
        }
    }
}

/// A pair rounded to a multiple of an increment, its nanoseconds below 10^9.
pub fn round_timespec(number: Timespec, increment: Timespec, mode: RoundingMode) -> Timespec
    requires positive { pos 0 <ℤ worth increment }
    requires room { unsigned_abs (worth number) + unsigned_abs (worth increment) < 2 ^ 63 * 1000000000 }
    ensures value { worth result ≡ rounded_to mode (worth number) (unsigned_abs (worth increment)) }
    ensures formed { result.nanos < 1000000000 }
{
    WideRounder::from_signed_num(number, increment).round(mode)
}
