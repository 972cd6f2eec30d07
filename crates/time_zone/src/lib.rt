// Time zones: the instants that a local time may stand for in a zone, and the one that is chosen, over any provider.
#![tactic(auto)]

ghost use Rattle.std.specs.Prelude.{◌≡◌};
ghost use Rattle.time_zone.specs.Faults.{zone_number};
ghost use Rattle.time_zone.specs.declared.ZoneFault.TheVariants.{Provider as Carried};

use provider::ProviderFault;

pub mod lookup;
pub mod possible;
pub mod resolve;

/// A named zone, by its number at the provider, or a fixed offset in minutes.
#[derive(Clone, Copy, Debug, PartialEq, Eq)]
pub enum TimeZone {
    Named(u16),
    Fixed(i16),
}

/// Which instant a local time stands for where two read it, or none.
#[derive(Clone, Copy, Debug, PartialEq, Eq)]
pub enum Disambiguation {
    Compatible,
    Earlier,
    Later,
    Reject,
}

/// Why possible instants were not found or not resolved.
#[derive(Clone, Copy, Debug, PartialEq, Eq)]
pub enum ZoneFault {
    // The provider's own fault, carried whole.
    Provider(ProviderFault),
    // The minutes of a fixed zone are a day or more.
    FixedMinutes,
    // A date or an instant is outside its limits.
    Range,
    // None or two instants, and none may be chosen.
    Ambiguous,
}

impl ZoneFault {
    /// The number of the refusal; faults share numbers, so it is a property and no conversion.
    pub fn number(self) -> u8
        ensures { result ≡ zone_number self }
    {
        match self {
            ZoneFault::Provider(fault) => fault.number(),
            ZoneFault::FixedMinutes => 3,
            ZoneFault::Range => 7,
            ZoneFault::Ambiguous => 8,
        }
    }
}

// By hand, as a derived `From` has no contract.
impl From<ProviderFault> for ZoneFault {
    ghost from_gives = { λ fault r. r ≡ Carried fault };

    fn from(carried: ProviderFault) -> ZoneFault {
        ZoneFault::Provider(carried)
    }
}
