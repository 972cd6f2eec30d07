// The instants that a local time may stand for in a zone.
ghost use Rattle.std.specs.Prelude.{◌≡◌, ◌≤◌, unsigned_abs};
ghost use Rattle.time_zone.specs.Faults.{carried};
ghost use Rattle.time_zone.specs.Instants.{day_within, day_ranged, valid_at, candidates_in, all_valid, possible};
ghost use Rattle.provider.specs.Answer.{candidates_answer};

use crate::lookup::{ZoneLookup, fixed_offset};
use crate::{TimeZone, ZoneFault};
use clock::{LocalTimespec, Timespec, is_valid_epoch};
use offsets::{Candidate, Candidates, SpanSecond};
use provider::Provider;

const SECONDS_PER_DAY: i64 = 86_400;

// Whether the date of a local time is at most so many days from 1970-01-01.
pub(crate) fn day_within(days: i64, local: Timespec) -> bool
    requires { unsigned_abs days ≤ 100000001 }
    ensures { result ≡ day_within days local.seconds }
{
    let day = local.seconds.div_euclid(SECONDS_PER_DAY);
    // By hand: with `contains` the search comes to its limit.
    -days <= day && day <= days
}

/// Whether the date of a local time is at most 100,000,000 days from 1970-01-01.
pub fn is_valid_day_range(local: Timespec) -> bool
    ensures { result ≡ day_ranged local.seconds }
{
    day_within(100_000_000, local)
}

// Whether the instant with these nanoseconds is in range.
fn valid_at(candidate: Candidate, nanos: u32) -> bool
    ensures { result ≡ valid_at nanos candidate.second }
{
    is_valid_epoch(Timespec {
        seconds: candidate.second,
        nanos,
    })
}

fn all_valid(found: Candidates, nanos: u32) -> bool
    ensures { result ≡ all_valid nanos found }
{
    match found {
        Candidates::Gap { .. } => true,
        Candidates::One { only } => valid_at(only, nanos),
        Candidates::Two { first, second } => { valid_at(first, nanos) && valid_at(second, nanos) }
    }
}

impl<'a, P: Provider> ZoneLookup<'a, P> {
    // What the provider tells of a named zone.
    fn named_candidates(self, number: u16, local: LocalTimespec) -> Result<Candidates, ZoneFault>
        ensures { result ≡ carried (candidates_answer (P.means self.entry.provider.now number) local.as_utc.seconds) }
    {
        Ok(self.provider.candidates(number, local.as_utc.seconds)?)
    }

    // What reads the local time.
    fn candidates(self, local: LocalTimespec) -> Result<Candidates, ZoneFault>
        ensures { result ≡ candidates_in (P.means self.entry.provider.now) self.entry.zone local.as_utc.seconds }
    {
        let second = SpanSecond {
            second: local.as_utc.seconds,
        };
        match self.zone {
            TimeZone::Fixed(minutes) => Ok(Candidates::One {
                only: Candidate::reading(second, fixed_offset(minutes)),
            }),
            TimeZone::Named(_) if !is_valid_day_range(local.as_utc) => Err(ZoneFault::Range),
            TimeZone::Named(number) => self.named_candidates(number, local),
        }
    }

    /// Every instant that reads the local time, refused where one is out of range.
    pub fn get_possible_epoch_ns_for(self, local: LocalTimespec) -> Result<Candidates, ZoneFault>
        ensures { result ≡ possible (P.means self.entry.provider.now) self.entry.zone local.as_utc.seconds local.as_utc.nanos }
    {
        let found = self.candidates(local)?;
        if !all_valid(found, local.as_utc.nanos) {
            return Err(ZoneFault::Range);
        }
        Ok(found)
    }
}
