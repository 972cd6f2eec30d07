// A zone together with the provider that is asked about it.
ghost use Rattle.std.specs.Prelude.{◌≡◌, pos, ◌*ℤ◌};
ghost use Rattle.time_zone.specs.Instants.{offset_in};

use crate::{TimeZone, ZoneFault};
use clock::Timespec;
use provider::Provider;

#[derive_where(Clone, Copy)]
pub struct ZoneLookup<'a, P> {
    pub provider: &'a P,
    pub zone: TimeZone,
}

// The offset of a fixed zone, in seconds.
pub(crate) fn fixed_offset(minutes: i16) -> i32
    ensures { result ≡ minutes *ℤ pos 60 }
{
    i32::from(minutes) * 60
}

impl<'a, P: Provider> ZoneLookup<'a, P> {
    /// The zone's offset at an instant, in seconds.
    pub fn get_offset_for(self, instant: Timespec) -> Result<i32, ZoneFault>
        ensures { result ≡ offset_in (P.means self.entry.provider.now) self.entry.zone instant.seconds }
    {
        match self.zone {
            TimeZone::Fixed(minutes) => Ok(fixed_offset(minutes)),
            TimeZone::Named(number) => Ok(self.provider.offset(number, instant.seconds)?),
        }
    }
}
