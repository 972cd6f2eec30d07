// The time of day, the pair of seconds and nanoseconds, and a local date-time counted as if in UTC.
#![tactic(auto)]

ghost use Rattle.std.specs.Prelude.{◌≡◌, true, ◌≤◌, ◌<◌, unsigned_abs};
ghost use Rattle.calendar.specs.Gregorian.{Real};
ghost use Rattle.clock.specs.Clock.{shown, since_midnight};
ghost use Rattle.clock.specs.Instants.{valid_epoch, within_limits, as_utc, worth, ReadsAs};

use calendar::{IsoDate, civil, epoch_days};

mod local;

pub use local::LocalTimespec;

/// A time of day; `nanosecond` counts from 0 to 999,999,999 within its second.
/// No ghost field: any numbers come in from outside, and `is_valid_time` tells a clock's times.
#[derive(Clone, Copy, Debug, PartialEq, Eq, PartialOrd, Ord)]
pub struct IsoTime {
    pub hour: u8,
    pub minute: u8,
    pub second: u8,
    pub nanosecond: u32,
}

impl IsoTime {
    pub const MIDNIGHT: IsoTime = IsoTime {
        hour: 0,
        minute: 0,
        second: 0,
        nanosecond: 0,
    };

    /// The time of day that many seconds after midnight.
    pub fn at_second(second: u32, nanosecond: u32) -> IsoTime
        requires { (second < 86400) × (nanosecond < 1000000000) }
        ensures shows { shown result ≡ true }
        ensures second { since_midnight result ≡ second }
        ensures nanosecond { result.nanosecond ≡ nanosecond }
    {
        // The casts lose nothing, which is proved; `try_from` would add branches that never come.
        IsoTime {
            hour: (second / 3600) as u8,
            minute: (second / 60 % 60) as u8,
            second: (second % 60) as u8,
            nanosecond,
        }
    }

    /// The whole seconds since midnight.
    pub fn second_of_day(self) -> u32
        ensures value { result ≡ since_midnight self }
        ensures bound { result < 1000000 }
    {
        (u32::from(self.hour) * 60 + u32::from(self.minute)) * 60 + u32::from(self.second)
    }
}

#[derive(Clone, Copy, Debug, PartialEq, Eq, PartialOrd, Ord)]
pub struct IsoDateTime {
    pub date: IsoDate,
    pub time: IsoTime,
}

/// Seconds and the nanoseconds past them, 0 to 999,999,999: worth seconds × 10^9 + nanos.
/// No ghost field: any numbers come in from outside, and `is_valid_epoch` tests them.
#[derive(Clone, Copy, Debug, PartialEq, Eq, PartialOrd, Ord)]
pub struct Timespec {
    pub seconds: i64,
    pub nanos: u32,
}

impl From<Timespec> for i128 {
    ghost from_gives = { λ pair r. r ≡ worth pair };

    fn from(pair: Timespec) -> i128 {
        i128::from(pair.seconds) * 1_000_000_000 + i128::from(pair.nanos)
    }
}

const FIRST_INSTANT: Timespec = Timespec {
    seconds: -8_640_000_000_000,
    nanos: 0,
};

const LAST_INSTANT: Timespec = Timespec {
    seconds: 8_640_000_000_000,
    nanos: 0,
};

// The midnights just outside the limits.
const MIDNIGHT_BEFORE: Timespec = Timespec {
    seconds: -8_640_000_086_400,
    nanos: 0,
};

const MIDNIGHT_AFTER: Timespec = Timespec {
    seconds: 8_640_000_086_400,
    nanos: 0,
};

/// Whether a clock shows the time.
pub fn is_valid_time(time: IsoTime) -> bool
    ensures { result ≡ shown time }
{
    time.hour < 24 && time.minute < 60 && time.second < 60 && time.nanosecond < 1_000_000_000
}

/// Whether an instant is in range.
pub fn is_valid_epoch(instant: Timespec) -> bool
    ensures { result ≡ valid_epoch instant }
{
    instant.nanos < 1_000_000_000 && (FIRST_INSTANT..=LAST_INSTANT).contains(&instant)
}

/// Whether a local time, counted as if in UTC, is within its limits.
pub fn is_within_limits(local: Timespec) -> bool
    ensures { result ≡ within_limits local }
{
    local.nanos < 1_000_000_000 && MIDNIGHT_BEFORE < local && local < MIDNIGHT_AFTER
}

/// A local date-time, counted as if in UTC.
pub fn utc_timespec(date: IsoDate, time: IsoTime) -> Timespec
    requires { Real date }
    ensures { result ≡ as_utc date time }
{
    let days = epoch_days(date);
    Timespec {
        seconds: days * 86_400 + i64::from(time.second_of_day()),
        nanos: time.nanosecond,
    }
}

/// The local date-time that is counted so, as if in UTC.
pub fn iso_date_time(local: Timespec) -> IsoDateTime
    requires { (unsigned_abs local.seconds ≤ 8648640000000) × (local.nanos < 1000000000) }
    ensures { ReadsAs result local }
{
    let days = local.seconds.div_euclid(86_400);
    // The cast loses nothing, which is proved; `try_from` would add a branch that never comes.
    let second = local.seconds.rem_euclid(86_400) as u32;
    IsoDateTime {
        date: civil(days),
        time: IsoTime::at_second(second, local.nanos),
    }
}
