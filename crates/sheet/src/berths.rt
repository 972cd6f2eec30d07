// The berths, 1 to 99: a plain array, read and written at one place.
ghost use Rattle.std.specs.Prelude.{◌≡◌, ◌-◌, true, false, MatchResult, slice_set};
ghost use Rattle.sheet.specs.Calls.{is_berth, berth_at, blank};
ghost use Rattle.sheet.specs.declared.SheetFault.TheVariants.{BerthNumber};

use crate::{Arrival, Refusal, SheetFault};

// The number of a berth.
#[derive(Clone, Copy)]
pub(crate) struct Berth {
    pub(crate) number: u8,
    ghost known: { is_berth number ≡ true },
}

impl TryFrom<u8> for Berth {
    type Error = Refusal;

    ghost try_from_gives = { λ n r. MatchResult r (λ b. (b.number ≡ n) × (is_berth n ≡ true)) (λ e. (e ≡ record { berth = n; fault = BerthNumber }) × (is_berth n ≡ false)) };

    fn try_from(berth: u8) -> Result<Berth, Refusal> {
        if !(1..=99).contains(&berth) {
            return Err(Refusal {
                berth,
                fault: SheetFault::BerthNumber,
            });
        }
        Ok(Berth { number: berth })
    }
}

#[derive(Clone, Copy)]
pub(crate) struct Berths {
    // A fixed number of berths, and no heap.
    pub(crate) rows: [Option<Arrival>; 99],
}

impl Berths {
    pub(crate) fn empty() -> Berths
        ensures { result.rows ≡ blank }
    {
        Berths { rows: [None; 99] }
    }

    pub(crate) fn at(&self, berth: Berth) -> Option<Arrival>
        ensures { result ≡ berth_at self.now.rows berth.number }
    {
        self.rows[usize::from(berth.number) - 1]
    }

    pub(crate) fn put(&mut self, berth: Berth, held: Option<Arrival>)
        ensures { self.new.rows ≡ slice_set self.old.rows (berth.number - 1) held }
    {
        self.rows[usize::from(berth.number) - 1] = held;
    }
}
