// The arrivals sheet: 99 berths over any provider, each empty or holding an arrival.
#![tactic(auto)]

ghost use Rattle.std.specs.Prelude.{◌≡◌, Some};
ghost use Rattle.sheet.specs.Refusals.{refusal_number, refusal_layer, refusal_source, layer_word};
ghost use Rattle.sheet.specs.declared.SheetFault.TheVariants.{Zoned as Raised};

use clock::{IsoDateTime, Timespec};
use provider::Source;
use std::fmt;
use time_zone::{TimeZone, ZoneFault};
use zoned::ZonedFault;

mod arrive;
mod berths;
pub mod book;

/// A zone, an instant, and the zone's offset at that instant, in seconds.
#[derive(Clone, Copy, Debug, PartialEq, Eq)]
pub struct Arrival {
    pub zone: TimeZone,
    pub instant: Timespec,
    pub offset: i32,
}

/// An arrival, and the local date-time that its instant reads in its zone.
#[derive(Clone, Copy, Debug, PartialEq, Eq)]
pub struct Reading {
    pub arrival: Arrival,
    pub local: IsoDateTime,
}

/// Why a call on the sheet was refused.
#[derive(Clone, Copy, Debug, PartialEq, Eq)]
pub enum SheetFault {
    // The berth number is not 1 to 99.
    BerthNumber,
    // The berth is empty.
    Empty,
    // The zoned operation's refusal, carried whole.
    Zoned(ZonedFault),
}

// By hand, as a derived `From` has no contract.
impl From<ZonedFault> for SheetFault {
    ghost from_gives = { λ fault r. r ≡ Raised fault };

    fn from(lifted: ZonedFault) -> SheetFault {
        SheetFault::Zoned(lifted)
    }
}

/// The layer that a refusal comes from.
#[derive(Clone, Copy, Debug, PartialEq, Eq)]
pub enum Layer {
    Provider,
    Zone,
    Zoned,
    Sheet,
}

impl fmt::Display for Layer {
    ghost output = { λ layer. Some (layer_word layer) };

    fn fmt<W: fmt::Write>(&self, f: &mut fmt::Formatter<W>) -> fmt::Result {
        f.write_str(match self {
            Layer::Provider => "provider",
            Layer::Zone => "zone",
            Layer::Zoned => "zoned",
            Layer::Sheet => "sheet",
        })
    }
}

/// A refusal, and the berth that it names.
#[derive(Clone, Copy, Debug, PartialEq, Eq)]
pub struct Refusal {
    pub berth: u8,
    pub fault: SheetFault,
}

impl Refusal {
    /// The number of the refusal; faults share numbers, so it is a property and no conversion.
    pub fn number(self) -> u8
        ensures { result ≡ refusal_number self }
    {
        match self.fault {
            SheetFault::BerthNumber => 1,
            SheetFault::Empty => 2,
            SheetFault::Zoned(fault) => fault.number(),
        }
    }

    pub fn layer(self) -> Layer
        ensures { result ≡ refusal_layer self }
    {
        match self.fault {
            SheetFault::Zoned(ZonedFault::Zone(ZoneFault::Provider(_))) => Layer::Provider,
            SheetFault::Zoned(ZonedFault::Zone(_)) => Layer::Zone,
            SheetFault::Zoned(_) => Layer::Zoned,
            _ => Layer::Sheet,
        }
    }

    /// The end that refused and the zone number as asked there, where the provider did.
    pub fn source(self) -> Option<Source>
        ensures { result ≡ refusal_source self }
    {
        match self.fault {
            SheetFault::Zoned(ZonedFault::Zone(ZoneFault::Provider(fault))) => Some(fault.source()),
            _ => None,
        }
    }
}
