// A local time counted as if in UTC, near enough for any provider to be asked about it.
ghost use Rattle.std.specs.Prelude.{◌≡◌, ◌≤◌, ◌+ℤ◌, unsigned_abs};

use crate::Timespec;

#[derive(Clone, Copy, Debug, PartialEq, Eq, PartialOrd, Ord)]
pub struct LocalTimespec {
    pub as_utc: Timespec,
    ghost near: { unsigned_abs as_utc.seconds ≤ 8640000259200 },
}

impl LocalTimespec {
    /// So many seconds later, or earlier where they are negative.
    pub fn moved_by(self, seconds: i64) -> Timespec
        requires { unsigned_abs seconds ≤ 4294967296 }
        ensures { result ≡ record { seconds = self.as_utc.seconds +ℤ seconds; nanos = self.as_utc.nanos } }
    {
        Timespec {
            seconds: self.as_utc.seconds + seconds,
            nanos: self.as_utc.nanos,
        }
    }
}
