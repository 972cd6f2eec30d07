// The check of a table's bytes: the layout first, then each row.
#![tactic(auto)]

ghost use Rattle.std.specs.Prelude.{◌≡◌, ℕ, ◌+◌, ◌*◌, ◌<◌, ◌≤◌, true, ◌&&◌, ◌==◌, List, [], length, slice_index_or, nat_le, sum_by, IfSome, MatchOption};
ghost use Rattle.std.specs.List.{list_all};
ghost use Rattle.zone_table.specs.Bytes.{le16, le32, le64};
ghost use Rattle.zone_table.specs.Layout.{zones as zone_count, rows as row_count, count as count_of, start as start_of, second_at, offset_at, Sized, filled, laid, failing, keeps_at, breach, breach_answer, check_answer, Weighed, number as number_of};

mod bytes;

use crate::bytes::{arrays_at, u16_at, u16_of};
use zone_rows::Row;

#[derive(Clone, Copy, Debug, PartialEq, Eq)]
pub enum TableFault {
    // The sizes break the layout.
    Sizes,
    // The first row that breaks a rule, counted over all rows.
    BrokenRow(usize),
}

impl TableFault {
    /// The number of the refusal; it leaves the row out, so it is a property and no conversion.
    pub fn number(self) -> u16
        ensures { result ≡ number_of self }
    {
        match self {
            TableFault::Sizes => 12,
            TableFault::BrokenRow(_) => 13,
        }
    }
}

/// The numbers of zones, of all rows, and of a zone's rows stand at places of their own; that each is below 65,536 is what sums of them
/// need, and a result `u16` would be converted at each call.
pub fn zones(bytes: &[u8]) -> usize
    requires { 4 ≤ length bytes.now }
    ensures { (result ≡ zone_count bytes.now) × (result < 65536) }
{
    usize::from(u16_at(bytes, 0))
}

pub fn rows(bytes: &[u8]) -> usize
    requires { 4 ≤ length bytes.now }
    ensures { (result ≡ row_count bytes.now) × (result < 65536) }
{
    usize::from(u16_at(bytes, 2))
}

pub fn count(bytes: &[u8], zone: usize) -> usize
    requires { 6 + zone * 2 ≤ length bytes.now }
    ensures { (result ≡ count_of bytes.now zone) × (result < 65536) }
{
    usize::from(u16_at(bytes, 4 + zone * 2))
}

// The row counts of the first so many zones.
#[tactic(auto, using(crate::proofs::Arrays::le16_array))]
fn counts(bytes: &[u8], zones: usize) -> &[[u8; 2]]
    requires { 4 + zones * 2 ≤ length bytes.now }
    ensures len { length result.now ≡ zones }
    ensures each { (zone : ℕ) → zone < zones → le16 (slice_index_or result.now zone []) 0 ≡ count_of bytes.now zone }
{
    arrays_at(bytes, 4, zones)
}

// The sum of these counts.
fn total(counts: &[[u8; 2]]) -> usize
    requires { length counts.now ≤ 64 }
    ensures { result ≡ sum_by (λ (count : List ℕ). le16 count 0) counts.now }
{
    counts.iter().map(|count| usize::from(u16_of(*count))).sum()
}

// None of these counts is zero.
fn all_nonzero(counts: &[[u8; 2]]) -> bool
    ensures { result ≡ list_all (λ (count : List ℕ). nat_le 1 (le16 count 0)) counts.now }
{
    counts.iter().all(|count| u16_of(*count) >= 1)
}

/// How many rows stand before those of the zone.
#[tactic(auto, using(crate::proofs::Sums::sum_all))]
pub fn start(bytes: &[u8], zone: usize) -> usize
    requires size { 4 + zone * 2 ≤ length bytes.now }
    requires few { zone ≤ 64 }
    ensures { result ≡ start_of bytes.now zone }
{
    total(counts(bytes, zone))
}

/// A table's bytes, as many as its numbers of zones and rows tell.
#[derive(Clone, Copy, Debug, PartialEq, Eq)]
pub struct Table<'a> {
    pub bytes: &'a [u8],
    ghost sized: { Sized bytes.now },
}

impl<'a> Table<'a> {
    /// The table in these bytes, if there are so many.
    pub fn new(bytes: &'a [u8]) -> Option<Table<'a>>
        ensures { MatchOption result (¬ Sized bytes.now) (λ table. table.bytes ≡ bytes.entry) }
    {
        if bytes.len() < 4 || bytes.len() != 4 + zones(bytes) * 2 + rows(bytes) * 12 {
            return None;
        }
        Some(Table { bytes })
    }

    /// As `zones` of bytes, and `rows` below, of which no size has to be asked.
    pub fn zones(self) -> usize
        ensures { result ≡ zone_count self.entry.bytes.now }
    {
        zones(self.bytes)
    }

    pub fn rows(self) -> usize
        ensures { result ≡ row_count self.entry.bytes.now }
    {
        rows(self.bytes)
    }

    /// The seconds of all rows; these and the offsets are two slices, as the lent bytes have them.
    #[tactic(auto, using(crate::proofs::Arrays::le64_array))]
    pub fn seconds(self) -> &'a [[u8; 8]]
        ensures len { length result.now ≡ row_count self.entry.bytes.now }
        ensures each { (g : ℕ) → g < row_count self.entry.bytes.now → le64 (slice_index_or result.now g []) 0 ≡ second_at self.entry.bytes.now g }
    {
        arrays_at(self.bytes, 4 + self.zones() * 2, self.rows())
    }

    /// The offsets of all rows.
    #[tactic(auto, using(crate::proofs::Arrays::le32_array))]
    pub fn offsets(self) -> &'a [[u8; 4]]
        ensures len { length result.now ≡ row_count self.entry.bytes.now }
        ensures each { (g : ℕ) → g < row_count self.entry.bytes.now → le32 (slice_index_or result.now g []) 0 ≡ offset_at self.entry.bytes.now g }
    {
        arrays_at(
            self.bytes,
            4 + self.zones() * 2 + self.rows() * 8,
            self.rows(),
        )
    }

    /// Row g over all rows.
    #[tactic(auto, using(crate::proofs::Arrays::le32_first, crate::proofs::Arrays::le64_first))]
    pub fn row(self, g: usize) -> Row
        requires { g < row_count self.bytes.now }
        ensures { (result.second ≡ second_at self.entry.bytes.now g) × (result.offset ≡ offset_at self.entry.bytes.now g) }
    {
        Row {
            second: i64::from_le_bytes(self.seconds()[g]),
            offset: i32::from_le_bytes(self.offsets()[g]),
        }
    }

    // Each zone has a row, and all rows are told of.
    #[tactic(auto, using(crate::proofs::Sums::sum_all, crate::proofs::Sums::all_filled))]
    fn is_filled(self) -> bool
        requires { zone_count self.bytes.now ≤ 64 }
        ensures { result ≡ (filled self.entry.bytes.now (zone_count self.entry.bytes.now) && start_of self.entry.bytes.now (zone_count self.entry.bytes.now) == row_count self.entry.bytes.now) }
    {
        let counts = counts(self.bytes, self.zones());
        all_nonzero(counts) && total(counts) == self.rows()
    }

    // The bytes keep the layout.
    fn is_laid(self) -> bool
        ensures { result ≡ laid self.entry.bytes.now }
    {
        (1..=64).contains(&self.zones()) && self.rows() <= 4096 && self.is_filled()
    }

    // The row at this place of a zone whose rows begin at base keeps the rules.
    #[tactic(auto, using(crate::proofs::Steps::row_rules))]
    fn keeps_row(self, base: usize, place: usize) -> bool
        requires { base + place < row_count self.bytes.now }
        ensures { result ≡ keeps_at self.entry.bytes.now base place }
    {
        let this = self.row(base + place);
        if place == 0 {
            return this.begins();
        }
        let last = self.row(base + (place - 1));
        this.follows(last) && (place == 1 || this.stands_apart(self.row(base + (place - 2)), last))
    }

    // The first place of a zone whose row breaks a rule.
    fn zone_breach(self, base: usize, rows: usize) -> Option<usize>
        requires { base + rows ≤ row_count self.bytes.now }
        ensures first { result ≡ failing (keeps_at self.entry.bytes.now base) rows }
        ensures inside { IfSome result (λ place. place < rows) }
    {
        (0..rows).find(|place| !self.keeps_row(base, *place))
    }

    // The first row that breaks a rule.
    #[tactic(auto, using(crate::proofs::Steps::breach_steps))]
    fn first_breach(self) -> Option<usize>
        requires { laid self.bytes.now ≡ true }
        ensures { result ≡ breach self.entry.bytes.now (zone_count self.entry.bytes.now) }
    {
        // Carried on from zone to zone: with `start` at each, the counts would be summed anew as often as there are zones.
        let mut base = 0;
        for zone in 0..self.zones() {
            let rows = count(self.bytes, zone);
            if let Some(place) = self.zone_breach(base, rows) {
                return Some(base + place);
            }
            base += rows;
        }
        None
    }

    // Refuses the first row that breaks a rule.
    fn check_rows(self) -> Result<(), TableFault>
        requires { laid self.bytes.now ≡ true }
        ensures { result ≡ breach_answer (breach self.entry.bytes.now (zone_count self.entry.bytes.now)) }
    {
        match self.first_breach() {
            Some(row) => Err(TableFault::BrokenRow(row)),
            None => Ok(()),
        }
    }
}

pub fn check(bytes: &[u8]) -> Result<(), TableFault>
    ensures answer { result ≡ check_answer bytes.now }
    ensures weighed { Weighed bytes.now result }
{
    match Table::new(bytes) {
        Some(table) if table.is_laid() => table.check_rows(),
        _ => Err(TableFault::Sizes),
    }
}
