// Row search in lent bytes: the offset that a zone's rows hold at a second, and what reads a local time by them.
#![tactic(auto)]

ghost use Rattle.std.specs.Prelude.{◌≡◌, ℕ, ◌+◌, ◌-◌, ◌<◌, ◌≤◌, [], length, slice_index_or, pos, negsuc, ◌-ℤ◌, ◌≤ℤ◌, ◌<ℤ◌, int_le, IfSome, IfNone};
ghost use Rattle.offsets.specs.Readers.{Found};
ghost use Rattle.zone_rows.specs.Rows.{Kept};
ghost use Rattle.zone_table.specs.Bytes.{le64};
ghost use Rattle.zone_table.specs.Layout.{zones as zone_count, rows as row_count, count as count_of, start as start_of, seconds, offsets, rows_offset};

use offsets::{Candidate, Candidates, SpanSecond};
use zone_rows::Row;
use zone_table::{Table, count, start};

/// The rows of a zone: those of the table from base on, as far as the last place.
#[derive(Clone, Copy, Debug, PartialEq, Eq)]
pub struct ZoneRows<'a> {
    pub table: Table<'a>,
    // Places among all rows, by which the check's answer and the contracts tell a row, and not a slice of their own.
    pub base: usize,
    pub last: usize,
    ghost inside: { base + last < row_count table.bytes.now },
    ghost kept: { Kept (seconds table.bytes.now base) (offsets table.bytes.now base) (last + 1) },
}

// The row with this second has begun by the other second.
#[tactic(auto, using(crate::proofs::Places::begun_rules))]
fn has_begun(row: &[u8; 8], second: i64) -> bool
    ensures { result ≡ int_le (le64 row.now 0) second }
{
    i64::from_le_bytes(*row) <= second
}

impl<'a> ZoneRows<'a> {
    ghost use Rattle.row_search.specs.Held.{held_in};

    /// The rows of a zone of the table, which has a row and keeps the rules.
    pub fn of_zone(table: Table<'a>, zone: usize) -> ZoneRows<'a>
        requires few { zone ≤ 64 }
        requires known { zone < zone_count table.bytes.now }
        requires some { 0 < count_of table.bytes.now zone }
        requires inside { start_of table.bytes.now zone + count_of table.bytes.now zone ≤ row_count table.bytes.now }
        requires kept { Kept (seconds table.bytes.now (start_of table.bytes.now zone)) (offsets table.bytes.now (start_of table.bytes.now zone)) (count_of table.bytes.now zone) }
        ensures table { result.table ≡ table.entry }
        ensures base { result.base ≡ start_of table.entry.bytes.now zone }
        ensures last { result.last ≡ count_of table.entry.bytes.now zone - 1 }
    {
        ZoneRows {
            table,
            base: start(table.bytes, zone),
            last: count(table.bytes, zone) - 1,
        }
    }

    fn row(self, place: usize) -> Row
        requires { place ≤ self.last }
        ensures { (result.second ≡ seconds self.entry.table.bytes.now self.entry.base place) × (result.offset ≡ offsets self.entry.table.bytes.now self.entry.base place) }
    {
        self.table.row(self.base + place)
    }

    // The seconds of the rows after the first.
    fn changes(self) -> &'a [[u8; 8]]
        ensures len { length result.now ≡ self.entry.last }
        ensures each { (i : ℕ) → i < self.entry.last → le64 (slice_index_or result.now i []) 0 ≡ seconds self.entry.table.bytes.now self.entry.base (i + 1) }
    {
        &self.table.seconds()[self.base + 1..self.base + 1 + self.last]
    }

    // The last row that has begun by the second, or else the first: the one whose offset is held there.
    fn place_of(self, second: i64) -> usize
        ensures within { result ≤ self.entry.last }
        ensures holds { offsets self.entry.table.bytes.now self.entry.base result ≡ held_in self.entry second }
    {
        self.changes().partition_point(|row| has_begun(row, second))
    }

    /// The offset that the rows hold at the second.
    pub fn offset_held(self, second: i64) -> i32
        ensures { result ≡ held_in self.entry second }
    {
        let place = self.place_of(second);
        self.row(place).offset
    }

    // What reads the local time by the rows up to this place, if the change there decides: none where every reader lies before it.
    fn decided_at(self, place: usize, local: SpanSecond) -> Option<Candidates>
        requires later { 0 < place }
        requires within { place ≤ self.last }
        ensures found { IfSome result (Found (rows_offset self.entry.table.bytes.now self.entry.base place) local.second) }
        ensures early { IfNone result ((local.second -ℤ offsets self.entry.table.bytes.now self.entry.base (place - 1)) <ℤ seconds self.entry.table.bytes.now self.entry.base place) }
        ensures late { IfNone result ((local.second -ℤ offsets self.entry.table.bytes.now self.entry.base place) <ℤ seconds self.entry.table.bytes.now self.entry.base place) }
    {
        let after = self.row(place);
        let before = self.row(place - 1);
        let early = Candidate::reading(local, before.offset);
        let late = Candidate::reading(local, after.offset);
        match (early.second < after.second, late.second < after.second) {
            (true, true) => None,
            (true, false) => Some(Candidates::Two {
                first: early,
                second: late,
            }),
            (false, true) => Some(Candidates::Gap {
                change: after.second,
                before: before.offset,
                after: after.offset,
            }),
            (false, false) => Some(Candidates::One { only: late }),
        }
    }

    /// All the instants that read the local time by the rows, or its gap: the last change that a reader can reach decides.
    pub fn candidates_held(self, local: SpanSecond) -> Candidates
        ensures { Found (held_in self.entry) local.second result }
    {
        for place in (1..=self.last).rev() {
            if let Some(found) = self.decided_at(place, local) {
                return found;
            }
        }
        Candidates::One {
            only: Candidate::reading(local, self.row(0).offset),
        }
    }
}
