// Rounding a time of day to an increment of a unit.
#![tactic(auto)]

ghost use Rattle.std.specs.Prelude.{◌≡◌, ◌+◌, ◌*◌, ◌<◌, ◌≤◌, true, pos, unsigned_abs};
ghost use Rattle.clock.specs.Clock.{shown};
ghost use Rattle.rounding.specs.Rounding.{rounded_to};
ghost use Rattle.time_rounding.specs.Times.{unit_length, in_larger, allowed_increment, nanos_of_day, rounded_nanos, RoundsWithinOne, RoundsTheWhole, OneReading};

use clock::IsoTime;
use rounding::{RoundingMode, WideRounder};

#[derive(Clone, Copy, Debug, PartialEq, Eq)]
pub enum TimeUnit {
    Hour,
    Minute,
    Second,
    Millisecond,
    Microsecond,
    Nanosecond,
}

const DAY: u64 = 86_400_000_000_000;

const SECOND: u64 = 1_000_000_000;

impl TimeUnit {
    /// The nanoseconds of a unit.
    pub fn length(self) -> u64
        ensures value { result ≡ unit_length self }
        ensures some { 0 < result }
    {
        match self {
            TimeUnit::Hour => 3_600_000_000_000,
            TimeUnit::Minute => 60_000_000_000,
            TimeUnit::Second => 1_000_000_000,
            TimeUnit::Millisecond => 1_000_000,
            TimeUnit::Microsecond => 1000,
            TimeUnit::Nanosecond => 1,
        }
    }

    /// How many of a unit make the next larger one.
    pub fn in_larger(self) -> u16
        ensures { result ≡ in_larger self }
    {
        match self {
            TimeUnit::Hour => 24,
            TimeUnit::Minute | TimeUnit::Second => 60,
            TimeUnit::Millisecond | TimeUnit::Microsecond | TimeUnit::Nanosecond => 1000,
        }
    }

    // So many of a unit, in nanoseconds; no more than a day.
    fn span(self, count: u16) -> u64
        requires { (0 < count) × (count ≤ in_larger self) }
        ensures value { result ≡ count * unit_length self }
        ensures some { 0 < result }
        ensures bound { result ≤ 86400000000000 }
    {
        u64::from(count) * self.length()
    }
}

/// Whether an increment may be asked for.
pub fn is_allowed_increment(unit: TimeUnit, increment: u16) -> bool
    ensures { result ≡ allowed_increment unit increment }
{
    let larger = unit.in_larger();
    (1..larger).contains(&increment) && larger % increment == 0
}

// The nanoseconds since midnight.
fn nanosecond_of_day(time: IsoTime) -> u64
    ensures value { result ≡ nanos_of_day time }
    ensures bound { shown time ≡ true → result < 86400000000000 }
{
    u64::from(time.second_of_day()) * SECOND + u64::from(time.nanosecond)
}

// The time of day that many nanoseconds after midnight.
fn time_of_day(count: u64) -> IsoTime
    requires { count < 86400000000000 }
    ensures counted { nanos_of_day result ≡ count }
    ensures shows { shown result ≡ true }
{
    // The casts lose nothing, which is proved; `try_from` would add branches that never come.
    IsoTime::at_second((count / SECOND) as u32, (count % SECOND) as u32)
}

// A count of nanoseconds, rounded to an increment.
fn rounded(count: u64, increment: u64, mode: RoundingMode) -> u64
    requires { (count < 86400000000000) × ((0 < increment) × (increment ≤ 86400000000000)) }
    ensures value { result ≡ unsigned_abs (rounded_to mode (pos count) increment) }
    ensures bound { result < count + increment }
{
    // The casts lose nothing, which is proved; `try_from` would add branches that never come.
    WideRounder::from_signed_num(count as i64, increment as i64).round(mode) as u64
}

/// A time of day rounded, and the days that it carries.
pub fn round_time(
    time: IsoTime,
    unit: TimeUnit,
    increment: u16,
    mode: RoundingMode,
) -> (u8, IsoTime)
    requires { (shown time ≡ true) × ((0 < increment) × (increment ≤ in_larger unit)) }
    ensures counted { result.0 * 86400000000000 + nanos_of_day result.1 ≡ rounded_nanos mode unit increment time }
    ensures shows { shown result.1 ≡ true }
{
    let since = nanosecond_of_day(time);
    let past = since % unit.span(unit.in_larger());
    let step = unit.span(increment);
    let count = since - past + rounded(past, step, mode);
    // The cast loses nothing, which is proved; `try_from` would add a branch that never comes.
    ((count / DAY) as u8, time_of_day(count % DAY))
}

/// The laws of rounding a time of day, each proved.
pub fn laws_hold()
    ensures { (RoundsWithinOne) × ((RoundsTheWhole) × (OneReading)) }
{}
