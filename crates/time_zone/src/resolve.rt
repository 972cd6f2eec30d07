// The one of the possible instants that a local time stands for, and the start of a day.
ghost use Rattle.std.specs.Prelude.{◌≡◌, ◌≤◌, ◌-ℤ◌, unsigned_abs};
ghost use Rattle.time_zone.specs.Instants.{of_none, disambiguated, resolved, start_of_day, first_of as first_possible, last_of as last_possible, moved as moved_possible};

use crate::lookup::ZoneLookup;
use crate::possible::day_within;
use crate::{Disambiguation, ZoneFault};
use clock::{LocalTimespec, Timespec};
use offsets::{Candidate, Candidates};
use provider::Provider;

// The jump of a gap.
fn jump(before: i32, after: i32) -> i64
    ensures value { result ≡ after -ℤ before }
    ensures bound { unsigned_abs result ≤ 4294967295 }
{
    i64::from(after) - i64::from(before)
}

impl<'a, P: Provider> ZoneLookup<'a, P> {
    // The possible instants of a local time that was moved out of a gap.
    fn moved_possible(self, local: Timespec) -> Result<Candidates, ZoneFault>
        ensures { result ≡ moved_possible (P.means self.entry.provider.now) self.entry.zone local.seconds local.nanos }
    {
        if !day_within(100_000_001, local) {
            return Err(ZoneFault::Range);
        }
        self.get_possible_epoch_ns_for(LocalTimespec { as_utc: local })
    }

    // The first of them; a local time that was moved out of a gap has one. With `last_moved` it is a line for each end: a parameter
    // that tells which end is meant would be no plainer.
    fn first_moved(self, local: Timespec) -> Result<Candidate, ZoneFault>
        ensures { result ≡ first_possible (moved_possible (P.means self.entry.provider.now) self.entry.zone local.seconds local.nanos) }
    {
        self.moved_possible(local)?.first().ok_or(ZoneFault::Range)
    }

    fn last_moved(self, local: Timespec) -> Result<Candidate, ZoneFault>
        ensures { result ≡ last_possible (moved_possible (P.means self.entry.provider.now) self.entry.zone local.seconds local.nanos) }
    {
        self.moved_possible(local)?.last().ok_or(ZoneFault::Range)
    }

    // The instant of a local time that falls into a gap, which leaps by so many seconds.
    #[tactic(auto, using(crate::proofs::Negated::plus_negated))]
    fn resolve_gap(
        self,
        local: LocalTimespec,
        disambiguation: Disambiguation,
        jump: i64,
    ) -> Result<Candidate, ZoneFault>
        requires { unsigned_abs jump ≤ 4294967295 }
        ensures { result ≡ of_none (P.means self.entry.provider.now) self.entry.zone local.as_utc.seconds local.as_utc.nanos disambiguation jump }
    {
        match disambiguation {
            Disambiguation::Reject => Err(ZoneFault::Ambiguous),
            Disambiguation::Earlier => self.first_moved(local.moved_by(-jump)),
            Disambiguation::Compatible | Disambiguation::Later => {
                self.last_moved(local.moved_by(jump))
            }
        }
    }

    /// The one of the possible instants that the local time stands for. A local time and how it is read stay two arguments, as each is
    /// also given alone.
    pub fn disambiguate_possible_epoch_nanos(
        self,
        local: LocalTimespec,
        disambiguation: Disambiguation,
        possible: Candidates,
    ) -> Result<Candidate, ZoneFault>
        ensures { result ≡ disambiguated (P.means self.entry.provider.now) self.entry.zone local.as_utc.seconds local.as_utc.nanos disambiguation possible }
    {
        match possible {
            Candidates::One { only } => Ok(only),
            Candidates::Two { first, second } => match disambiguation {
                Disambiguation::Compatible | Disambiguation::Earlier => Ok(first),
                Disambiguation::Later => Ok(second),
                Disambiguation::Reject => Err(ZoneFault::Ambiguous),
            },
            Candidates::Gap { before, after, .. } => {
                self.resolve_gap(local, disambiguation, jump(before, after))
            }
        }
    }

    /// The instant that a local time stands for.
    pub fn get_epoch_nanoseconds_for(
        self,
        local: LocalTimespec,
        disambiguation: Disambiguation,
    ) -> Result<Candidate, ZoneFault>
        ensures { result ≡ resolved (P.means self.entry.provider.now) self.entry.zone local.as_utc.seconds local.as_utc.nanos disambiguation }
    {
        let possible = self.get_possible_epoch_ns_for(local)?;
        self.disambiguate_possible_epoch_nanos(local, disambiguation, possible)
    }

    /// The start of the day whose midnight is given.
    pub fn get_start_of_day(self, midnight: i64) -> Result<Candidate, ZoneFault>
        requires { unsigned_abs midnight ≤ 8640000259200 }
        ensures { result ≡ start_of_day (P.means self.entry.provider.now) self.entry.zone midnight }
    {
        let local = LocalTimespec {
            as_utc: Timespec {
                seconds: midnight,
                nanos: 0,
            },
        };
        match self.get_possible_epoch_ns_for(local)? {
            Candidates::Gap { change, after, .. } => Ok(Candidate {
                second: change,
                offset: after,
            }),
            Candidates::One { only: start } | Candidates::Two { first: start, .. } => Ok(start),
        }
    }
}
