// The table end: a loaded table is raw until it is proofed, and a proofed table is a provider.
// Neither type is `Drop`, so its bytes are always taken back.
#![tactic(auto)]

ghost use Rattle.std.specs.Prelude.{◌≡◌, ◌<◌, ◌≤◌, IfOk, IfErr, unsigned_abs};
ghost use Rattle.provider.specs.Answer.{offset_answer, CandidatesAnswer};
ghost use Rattle.zone_table.specs.Layout.{zones as zone_count, zone_offset, check_answer, Sound, Weighed};
ghost use Rattle.row_search.specs.Held.{held_in};
ghost use Rattle.table_end.specs.Table.{told};
ghost use Rattle.table_end.specs.Counts.{weigh_answer};
ghost use Rattle.table_end.specs.Lawful.{Lawful, told_bounded, told_spaced};

use offsets::{Candidates, SpanSecond};
use provider::{End, Provider, ProviderFault, SPAN, Source};
use row_search::ZoneRows;
use zone_table::{Table, TableFault, check};

pub struct RawTable<'a> {
    bytes: &'a [u8],
}

pub struct ProofedTable<'a> {
    bytes: &'a [u8],
    ghost ok: { Sound bytes.now },
}

impl<'a> RawTable<'a> {
    pub fn load(bytes: &'a [u8]) -> RawTable<'a>
        ensures { result.bytes ≡ bytes.entry }
    {
        RawTable { bytes }
    }

    /// Refuses a table whose sizes break the layout, or with a row that breaks a rule, and leaves it raw either way.
    pub fn check(&self) -> Result<(), TableFault>
        ensures answer { result ≡ check_answer self.now.bytes.now }
        ensures weighed { Weighed self.now.bytes.now result }
    {
        check(self.bytes)
    }

    /// Moves a table that the check takes on; it cannot refuse.
    pub fn proof(self) -> ProofedTable<'a>
        requires { Sound self.bytes.now }
        ensures bytes { result.bytes ≡ self.entry.bytes }
        ensures lawful { Lawful self.entry.bytes.now }
    {
        let RawTable { bytes: checked } = self;
        ProofedTable { bytes: checked }
    }

    pub fn take_back(self) -> &'a [u8]
        ensures { result ≡ self.entry.bytes }
    {
        let RawTable { bytes } = self;
        bytes
    }
}

impl<'a> ProofedTable<'a> {
    fn table(&self) -> Table<'a>
        ensures bytes { result.bytes ≡ self.now.bytes }
        ensures sound { Sound result.bytes.now }
    {
        Table { bytes: self.bytes }
    }

    // The rows of the zone, or the refusal of both questions: an unknown zone first, then a second outside the span.
    #[tactic(auto, using(crate::specs::Lawful::some_row, crate::specs::Lawful::rows_inside, zone_table::proofs::Steps::sound_kept))]
    fn rows_of(&self, zone: u16, second: i64) -> Result<ZoneRows<'a>, ProviderFault>
        ensures known { IfOk result (λ _. zone < zone_count self.now.bytes.now) }
        ensures asked { IfOk result (λ _. unsigned_abs second ≤ 8640000259200) }
        ensures rows { IfOk result (λ rows. held_in rows ≡ zone_offset self.now.bytes.now zone) }
        ensures offset { IfErr result (λ fault. offset_answer (told self.now.bytes.now zone) second ≡ Err fault) }
        ensures candidates { IfErr result (λ fault. CandidatesAnswer (told self.now.bytes.now zone) second (Err fault)) }
    {
        let source = Source {
            end: End::Table,
            zone,
        };
        let table = self.table();
        let zone = usize::from(zone);
        if zone >= table.zones() {
            return Err(ProviderFault::UnknownZone(source));
        }
        if !(-SPAN..=SPAN).contains(&second) {
            return Err(ProviderFault::OutsideSpan(source));
        }
        Ok(ZoneRows::of_zone(table, zone))
    }

    /// One for each type: a trait for both would be longer than the two.
    pub fn take_back(self) -> &'a [u8]
        ensures { result ≡ self.entry.bytes }
    {
        let ProofedTable { bytes } = self;
        bytes
    }
}

/// How much a table holds.
#[derive(Clone, Copy, Debug, PartialEq, Eq)]
pub struct Counts {
    pub zones: usize,
    pub rows: usize,
}

/// What a table holds, once the check takes it.
pub fn weigh(bytes: &[u8]) -> Result<Counts, TableFault>
    ensures { result ≡ weigh_answer bytes.now }
{
    let raw = RawTable::load(bytes);
    if let Err(fault) = raw.check() {
        let _bytes = raw.take_back();
        return Err(fault);
    }
    let proofed = raw.proof();
    let table = proofed.table();
    let counts = Counts {
        zones: table.zones(),
        rows: table.rows(),
    };
    let _bytes = proofed.take_back();
    Ok(counts)
}

impl<'a> Provider for ProofedTable<'a> {
    ghost means = { λ p. told p.bytes.now };

    ghost bounded = { λ p. told_bounded p.bytes.now p.ok };

    ghost spaced = { λ p. told_spaced p.bytes.now p.ok };

    fn offset(&self, zone: u16, second: i64) -> Result<i32, ProviderFault> {
        Ok(self.rows_of(zone, second)?.offset_held(second))
    }

    fn candidates(&self, zone: u16, local: i64) -> Result<Candidates, ProviderFault> {
        let rows = self.rows_of(zone, local)?;
        Ok(rows.candidates_held(SpanSecond { second: local }))
    }
}
