// The instant that a request stands for.
ghost use Rattle.std.specs.Prelude.{◌≡◌, ◌<◌, ◌≤◌, true, pos, None, Ok, unsigned_abs};
ghost use Rattle.calendar.specs.Gregorian.{Real};
ghost use Rattle.rounding.specs.Rounding.{rounded_to};
ghost use Rattle.rounding.specs.declared.RoundingMode.TheVariants.{HalfExpand};
ghost use Rattle.zoned.specs.Interpret.{offset_matches, first_match, at_instant, exactly, unmatched as unmatched_of, matched, by_offset, local_at, interpreted, Sound, with_nanos};
ghost use Rattle.zoned.specs.Faults.{raised};
ghost use Rattle.time_zone.specs.Instants.{disambiguated, resolved};

use crate::{EpochNanosecondsAndOffset, OffsetDisambiguation, Request, ZonedFault};
use clock::{LocalTimespec, Timespec, is_valid_epoch};
use offsets::{Candidate, Candidates};
use provider::Provider;
use rounding::{RoundingMode, WideRounder};
use time_zone::lookup::ZoneLookup;
use time_zone::possible::is_valid_day_range;

// An offset rounded to whole minutes, a half away from zero; both in seconds.
fn rounded_to_minutes(offset: i32) -> i64
    ensures { result ≡ rounded_to HalfExpand offset 60 }
{
    WideRounder::from_signed_num(i64::from(offset), 60).round(RoundingMode::HalfExpand)
}

// Whether a candidate's offset is the given one, or rounds to it in whole minutes where minutes are matched.
fn offset_matches(offset: i32, given: i32, match_minutes: bool) -> bool
    ensures { result ≡ offset_matches match_minutes given offset }
{
    offset == given || (match_minutes && rounded_to_minutes(offset) == i64::from(given))
}

// The first possible instant whose offset matches; both tests are made of each before the next is tried.
fn first_match(found: Candidates, given: i32, match_minutes: bool) -> Option<Candidate>
    ensures { result ≡ first_match match_minutes given found }
{
    match found {
        Candidates::Gap { .. } => None,
        Candidates::One { only } => {
            offset_matches(only.offset, given, match_minutes).then_some(only)
        }
        Candidates::Two { first, second } => {
            if offset_matches(first.offset, given, match_minutes) {
                Some(first)
            } else if offset_matches(second.offset, given, match_minutes) {
                Some(second)
            } else {
                None
            }
        }
    }
}

// A request at its local time, over the provider that knows its zone.
#[derive_where(Clone, Copy)]
struct TimedRequest<'a, P> {
    provider: &'a P,
    request: Request,
    local: LocalTimespec,
}

impl<'a, P: Provider> TimedRequest<'a, P> {
    fn lookup(self) -> ZoneLookup<'a, P>
        ensures provider { result.provider ≡ self.entry.provider }
        ensures zone { result.zone ≡ self.entry.request.zone }
    {
        ZoneLookup {
            provider: self.provider,
            zone: self.request.zone,
        }
    }

    // An instant in range, with the zone's own offset there.
    fn at_instant(self, instant: Timespec) -> Result<Candidate, ZonedFault>
        ensures { result ≡ at_instant (P.means self.entry.provider.now) self.entry.request.zone instant.nanos instant.seconds }
    {
        if !is_valid_epoch(instant) {
            return Err(ZonedFault::Range);
        }
        Ok(Candidate {
            second: instant.seconds,
            offset: self.lookup().get_offset_for(instant)?,
        })
    }

    // The local time less an offset, with the zone's own offset there.
    fn at_offset(self, offset: i32) -> Result<Candidate, ZonedFault>
        ensures { result ≡ exactly (P.means self.entry.provider.now) self.entry.request.zone self.entry.local.as_utc.seconds self.entry.local.as_utc.nanos offset }
    {
        self.at_instant(self.local.moved_by(-i64::from(offset)))
    }

    // The local time resolved.
    fn by_wall_clock(self) -> Result<Candidate, ZonedFault>
        ensures { result ≡ raised (resolved (P.means self.entry.provider.now) self.entry.request.zone self.entry.local.as_utc.seconds self.entry.local.as_utc.nanos self.entry.request.disambiguation) }
    {
        let disambiguation = self.request.disambiguation;
        Ok(
            self.lookup()
                .get_epoch_nanoseconds_for(self.local, disambiguation)?,
        )
    }

    // Where no offset matches: Reject refuses, and Prefer resolves.
    fn unmatched(self, possible: Candidates) -> Result<Candidate, ZonedFault>
        ensures { result ≡ unmatched_of self.entry.request.policy (raised (disambiguated (P.means self.entry.provider.now) self.entry.request.zone self.entry.local.as_utc.seconds self.entry.local.as_utc.nanos self.entry.request.disambiguation possible)) }
    {
        if self.request.policy == OffsetDisambiguation::Reject {
            return Err(ZonedFault::NoMatch);
        }
        let disambiguation = self.request.disambiguation;
        Ok(
            self.lookup()
                .disambiguate_possible_epoch_nanos(self.local, disambiguation, possible)?,
        )
    }

    // The possible instant whose offset matches the given one.
    fn by_offset(self, given: i32) -> Result<Candidate, ZonedFault>
        ensures { result ≡ matched (P.means self.entry.provider.now) self.entry.request self.entry.local.as_utc.seconds self.entry.local.as_utc.nanos given }
    {
        if !is_valid_day_range(self.local.as_utc) {
            return Err(ZonedFault::Range);
        }
        let possible = self.lookup().get_possible_epoch_ns_for(self.local)?;
        match first_match(possible, given, self.request.match_minutes) {
            Some(candidate) => Ok(candidate),
            None => self.unmatched(possible),
        }
    }

    // The instant: an offset is taken by its policy, the exact mark alone means offset 0, and else the local time is resolved.
    fn instant(self) -> Result<Candidate, ZonedFault>
        ensures { result ≡ by_offset self.entry.request.exact self.entry.request.offset (P.means self.entry.provider.now) self.entry.request self.entry.local.as_utc.seconds self.entry.local.as_utc.nanos }
    {
        match self.request.offset {
            None if self.request.exact => self.at_offset(0),
            None => self.by_wall_clock(),
            Some(given) => match self.request.policy {
                OffsetDisambiguation::Use => self.at_offset(given),
                OffsetDisambiguation::Ignore => self.by_wall_clock(),
                OffsetDisambiguation::Prefer | OffsetDisambiguation::Reject => {
                    self.by_offset(given)
                }
            },
        }
    }
}

fn with_nanos(chosen: Candidate, nanos: u32) -> EpochNanosecondsAndOffset
    ensures { Ok result ≡ with_nanos nanos (Ok chosen) }
{
    EpochNanosecondsAndOffset {
        ns: Timespec {
            seconds: chosen.second,
            nanos,
        },
        offset: chosen.offset,
    }
}

/// The instant that a request stands for.
pub fn interpret_isodatetime_offset<P: Provider>(
    provider: &P,
    request: Request,
) -> Result<EpochNanosecondsAndOffset, ZonedFault>
    requires { Sound request }
    ensures { result ≡ interpreted (P.means provider.now) request }
{
    let local = LocalTimespec {
        as_utc: request.local_time(),
    };
    let timed = TimedRequest {
        provider,
        request,
        local,
    };
    let chosen = match request.time {
        None => timed.lookup().get_start_of_day(local.as_utc.seconds)?,
        Some(_) => timed.instant()?,
    };
    Ok(with_nanos(chosen, local.as_utc.nanos))
}
