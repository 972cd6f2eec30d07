// The pair of seconds and nanoseconds as a number with a limit.
ghost use Rattle.std.specs.Prelude.{◌≡◌, ◌*◌, ◌^◌, ◌<◌, unsigned_abs};
ghost use Rattle.clock.specs.Instants.{worth};

use crate::{Roundable, WideRoundable};
use clock::Timespec;

impl Roundable for Timespec {
    ghost value = { λ pair. worth pair };

    ghost limit = { 2 ^ 63 * 1000000000 };

    ghost formed = { λ pair. pair.nanos < 1000000000 };

    fn worth(self) -> i128 {
        self.wide_worth()
    }

    fn of_worth(worth: i128) -> Timespec {
        Timespec::of_wide_worth(worth)
    }
}
