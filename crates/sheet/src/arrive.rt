// From a request to an arrival: the entry checks in their order, then the instant.
ghost use Rattle.std.specs.Prelude.{◌≡◌, true, OnOk};
ghost use Rattle.zoned.specs.Interpret.{time_shown, Sound};
ghost use Rattle.calendar.specs.Gregorian.{Real};
ghost use Rattle.sheet.specs.Refusals.{at_berth, lifted};
ghost use Rattle.sheet.specs.Calls.{zone_known, offset_small, values_checked, offset_timed, entry, made_at, arrived};

use crate::{Arrival, Refusal, SheetFault};
use calendar::is_valid_date;
use clock::{IsoTime, Timespec, is_valid_epoch, is_valid_time, is_within_limits};
use provider::Provider;
use time_zone::lookup::ZoneLookup;
use time_zone::{TimeZone, ZoneFault};
use zoned::interpret::interpret_isodatetime_offset;
use zoned::{EpochNanosecondsAndOffset, Request, ZonedFault};

fn is_offset_small(offset: Option<i32>) -> bool
    ensures { result ≡ offset_small offset }
{
    offset.is_none_or(|seconds| (-86_399..=86_399).contains(&seconds))
}

fn is_time_shown(time: Option<IsoTime>) -> bool
    ensures { result ≡ time_shown time }
{
    time.is_none_or(is_valid_time)
}

// Date and time are the calendar's and the clock's, and a given offset is less than a day.
fn are_values(request: Request) -> bool
    ensures test { result ≡ values_checked request }
    ensures date { result ≡ true → Real request.date }
    ensures time { result ≡ true → time_shown request.time ≡ true }
{
    is_valid_date(request.date) && is_time_shown(request.time) && is_offset_small(request.offset)
}

fn is_offset_timed(request: Request) -> bool
    ensures { result ≡ offset_timed request.offset request.time }
{
    request.offset.is_none() || request.time.is_some()
}

// The arrival at an instant, refused where that is out of range.
fn try_new_with_cached_offset(
    zone: TimeZone,
    found: EpochNanosecondsAndOffset,
) -> Result<Arrival, ZonedFault>
    ensures { result ≡ made_at zone found }
{
    if !is_valid_epoch(found.ns) {
        return Err(ZonedFault::Range);
    }
    Ok(Arrival {
        zone,
        instant: found.ns,
        offset: found.offset,
    })
}

// A request over the provider that is asked.
#[derive_where(Clone, Copy)]
pub(crate) struct SetCall<'a, P> {
    pub(crate) provider: &'a P,
    pub(crate) request: Request,
}

impl<'a, P: Provider> SetCall<'a, P> {
    // The zone is known to the provider, or its fixed minutes are less than a day.
    fn check_zone(self) -> Result<(), ZonedFault>
        ensures { result ≡ zone_known (P.means self.entry.provider.now) self.entry.request.zone }
    {
        let zone = self.request.zone;
        if let TimeZone::Fixed(minutes) = zone {
            if !(-1439..=1439).contains(&minutes) {
                return Err(ZonedFault::Zone(ZoneFault::FixedMinutes));
            }
            return Ok(());
        }
        let provider = self.provider;
        let epoch = Timespec {
            seconds: 0,
            nanos: 0,
        };
        ZoneLookup { provider, zone }.get_offset_for(epoch)?;
        Ok(())
    }

    // The entry checks, in their order.
    fn check_entry(self) -> Result<(), ZonedFault>
        ensures answer { result ≡ entry (P.means self.entry.provider.now) self.entry.request }
        ensures sound { OnOk result (Sound self.entry.request) }
    {
        self.check_zone()?;
        if !are_values(self.request) {
            return Err(ZonedFault::Value);
        }
        if !is_offset_timed(self.request) {
            return Err(ZonedFault::Unit);
        }
        if !is_within_limits(self.request.local_time()) {
            return Err(ZonedFault::Range);
        }
        Ok(())
    }

    // The arrival that the request brings about, once the entry checks pass.
    fn arrival(self) -> Result<Arrival, ZonedFault>
        ensures { result ≡ arrived (P.means self.entry.provider.now) self.entry.request }
    {
        self.check_entry()?;
        let found = interpret_isodatetime_offset(self.provider, self.request)?;
        try_new_with_cached_offset(self.request.zone, found)
    }

    // The same, where a refusal names the berth that it was asked for.
    pub(crate) fn arrival_at(self, berth: u8) -> Result<Arrival, Refusal>
        ensures { result ≡ at_berth berth (lifted (arrived (P.means self.entry.provider.now) self.entry.request)) }
    {
        self.arrival().map_err(|fault| Refusal {
            berth,
            fault: SheetFault::from(fault),
        })
    }
}
