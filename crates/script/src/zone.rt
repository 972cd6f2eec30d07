// Zones, as `named:0` and `fixed:-60`.
ghost use Rattle.std.specs.Prelude.{◌≡◌};
ghost use Rattle.script.specs.Forms.{zone_of};

use crate::bytes::after;
use crate::number::read;
use time_zone::TimeZone;

pub(crate) fn zone(text: &[u8]) -> Option<TimeZone>
    ensures { result ≡ zone_of text.now }
{
    match after(text, b"named:") {
        Some(number) => read(number).map(TimeZone::Named),
        None => read(after(text, b"fixed:")?).map(TimeZone::Fixed),
    }
}
