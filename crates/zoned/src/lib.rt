// Zoned operations: the instant that a request stands for, by its time, exact mark, offset and policy, over any provider.
#![tactic(auto)]

ghost use Rattle.std.specs.Prelude.{◌≡◌};
ghost use Rattle.zoned.specs.Faults.{zoned_number};
ghost use Rattle.calendar.specs.Gregorian.{Real};
ghost use Rattle.zoned.specs.declared.ZonedFault.TheVariants.{Zone as Raised};

use calendar::IsoDate;
use clock::{IsoTime, Timespec, utc_timespec};
use time_zone::{Disambiguation, TimeZone, ZoneFault};

pub mod interpret;

/// What becomes of an offset that is given beside a local time.
#[derive(Clone, Copy, Debug, PartialEq, Eq)]
pub enum OffsetDisambiguation {
    Use,
    Prefer,
    Ignore,
    Reject,
}

/// A local time in a zone, with what tells which instant it stands for.
#[derive(Clone, Copy, Debug, PartialEq, Eq)]
pub struct Request {
    pub zone: TimeZone,
    pub date: IsoDate,
    // None is the start of the day.
    pub time: Option<IsoTime>,
    // The time is UTC's, unless an offset says otherwise.
    pub exact: bool,
    // The offset that was given, in seconds.
    pub offset: Option<i32>,
    pub policy: OffsetDisambiguation,
    pub disambiguation: Disambiguation,
    // A candidate's offset may also match by rounding to whole minutes.
    pub match_minutes: bool,
}

impl Request {
    ghost use Rattle.zoned.specs.Interpret.{local_at};

    /// The local time, counted as if in UTC; midnight where no time is given.
    pub fn local_time(self) -> Timespec
        requires { Real self.date }
        ensures { result ≡ local_at self.date self.time }
    {
        utc_timespec(self.date, self.time.unwrap_or(IsoTime::MIDNIGHT))
    }
}

/// An instant, and the zone's offset there.
#[derive(Clone, Copy, Debug, PartialEq, Eq)]
pub struct EpochNanosecondsAndOffset {
    pub ns: Timespec,
    pub offset: i32,
}

/// Why a zoned operation was refused.
#[derive(Clone, Copy, Debug, PartialEq, Eq)]
pub enum ZonedFault {
    // What was refused while possible instants were found or resolved.
    Zone(ZoneFault),
    // A part is no calendar or clock value, or an offset is a day or more.
    Value,
    // A unit or an increment that is not allowed, or an offset without a time.
    Unit,
    // The duration is not valid.
    Duration,
    // A date, local time or instant is outside its limits.
    Range,
    // No possible instant has the offset that was given.
    NoMatch,
    // The date part and the time part have opposite signs.
    OppositeSigns,
    // The instant lies before the start of its own day.
    BeforeDay,
}

impl ZonedFault {
    /// The number of the refusal; faults share numbers, so it is a property and no conversion.
    pub fn number(self) -> u8
        ensures { result ≡ zoned_number self }
    {
        match self {
            ZonedFault::Zone(fault) => fault.number(),
            ZonedFault::Value => 4,
            ZonedFault::Unit => 5,
            ZonedFault::Duration => 6,
            ZonedFault::Range => 7,
            ZonedFault::NoMatch => 9,
            ZonedFault::OppositeSigns => 10,
            ZonedFault::BeforeDay => 11,
        }
    }
}

// By hand, as a derived `From` has no contract.
impl From<ZoneFault> for ZonedFault {
    ghost from_gives = { λ fault r. r ≡ Raised fault };

    fn from(raised: ZoneFault) -> ZonedFault {
        ZonedFault::Zone(raised)
    }
}
