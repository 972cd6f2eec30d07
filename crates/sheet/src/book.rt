// The sheet and its calls.
ghost use Rattle.std.specs.Prelude.{◌≡◌, ◌<◌, ◌≤◌, true, IfOk, unsigned_abs};
ghost use Rattle.clock.specs.Instants.{valid_epoch};
ghost use Rattle.time_zone.specs.Right.{OffsetIs};
ghost use Rattle.sheet.specs.Calls.{blank, set_answer, stored, clear_answer, cleared, ReadAnswer, all_in_range, local_of};

use crate::arrive::SetCall;
use crate::berths::{Berth, Berths};
use crate::{Arrival, Reading, Refusal, SheetFault};
use clock::{Timespec, iso_date_time};
use provider::Provider;
use zoned::Request;

pub struct Sheet<P> {
    pub(crate) provider: P,
    pub(crate) berths: Berths,
    ghost ranged: { all_in_range berths.rows ≡ true },
}

// The local time that an arrival's instant reads, counted as if in UTC. No `LocalTimespec::moved_by`: what is moved is an instant.
fn local_of(arrival: Arrival) -> Timespec
    requires { valid_epoch arrival.instant ≡ true }
    ensures value { result ≡ local_of arrival }
    ensures bound { unsigned_abs result.seconds ≤ 8648640000000 }
    ensures nanos { result.nanos < 1000000000 }
{
    Timespec {
        seconds: arrival.instant.seconds + i64::from(arrival.offset),
        nanos: arrival.instant.nanos,
    }
}

impl<P: Provider> Sheet<P> {
    /// An empty sheet over a provider, which it keeps for its life.
    pub fn open(provider: P) -> Sheet<P>
        ensures keeps { result.provider ≡ provider }
        ensures empty { result.berths.rows ≡ blank }
    {
        Sheet {
            provider,
            berths: Berths::empty(),
        }
    }

    /// Ends the sheet and hands its provider back.
    pub fn close(self) -> P
        ensures { result ≡ self.provider }
    {
        let Sheet {
            provider,
            berths: _,
        } = self;
        provider
    }

    /// Puts the arrival that a request brings about into the berth.
    #[tactic(auto, using(crate::proofs::Ranges::put_ranged, crate::proofs::Rights::answer_ranged, crate::proofs::Rights::answer_right))]
    pub fn set(&mut self, berth: u8, request: Request) -> Result<Arrival, Refusal>
        ensures answer { result ≡ set_answer (P.means self.old.provider) berth request }
        ensures after { self.new.berths.rows ≡ stored self.old.berths.rows berth result }
        ensures right { IfOk result (λ a. OffsetIs (P.means self.old.provider) a.zone a.instant.seconds a.offset) }
        ensures keeps { self.new.provider ≡ self.old.provider }
    {
        let slot = Berth::try_from(berth)?;
        let provider = &self.provider;
        let arrival = SetCall { provider, request }.arrival_at(berth)?;
        self.berths.put(slot, Some(arrival));
        Ok(arrival)
    }

    /// Empties the berth, and tells whether it was filled.
    #[tactic(auto, using(crate::proofs::Ranges::put_ranged))]
    pub fn clear(&mut self, berth: u8) -> Result<bool, Refusal>
        ensures answer { result ≡ clear_answer self.old.berths.rows berth }
        ensures after { self.new.berths.rows ≡ cleared self.old.berths.rows berth }
        ensures keeps { self.new.provider ≡ self.old.provider }
    {
        let place = Berth::try_from(berth)?;
        let filled = self.berths.at(place).is_some();
        self.berths.put(place, None);
        Ok(filled)
    }

    /// The arrival in the berth, and the local date-time that it reads.
    #[tactic(auto, using(crate::proofs::Ranges::held_ranged))]
    pub fn read(&self, berth: u8) -> Result<Reading, Refusal>
        ensures { ReadAnswer self.now.berths.rows berth result }
    {
        let place = Berth::try_from(berth)?;
        let arrival = self.berths.at(place).ok_or(Refusal {
            berth,
            fault: SheetFault::Empty,
        })?;
        Ok(Reading {
            arrival,
            local: iso_date_time(local_of(arrival)),
        })
    }
}
