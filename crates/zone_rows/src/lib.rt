// Rows of a zone, and the rules that they keep.
#![tactic(auto)]

ghost use Rattle.std.specs.Prelude.{◌≡◌, ◌+◌, pos, ◌+ℤ◌, ◌-ℤ◌, ◌≤ℤ◌, unsigned_abs};
ghost use Rattle.zone_rows.specs.Rows.{in_day, first_row, later_row, apart};

// The rows of a zone stand between -SPAN and SPAN.
pub use offsets::SPAN;

/// The offset from this second on. No `Candidate`, which has the same fields: that is an instant that reads a local time.
#[derive(Clone, Copy, Debug, PartialEq, Eq)]
pub struct Row {
    pub second: i64,
    pub offset: i32,
}

impl Row {
    // The offset is less than a day either way.
    fn is_daily(self) -> bool
        ensures { result ≡ in_day self.offset }
    {
        self.offset.unsigned_abs() < 86_400
    }

    /// A first row begins the span.
    pub fn begins(self) -> bool
        ensures { result ≡ first_row self.second self.offset }
    {
        self.second == -SPAN && self.is_daily()
    }

    /// A later row rises, stays in the span, and differs in offset.
    pub fn follows(self, last: Row) -> bool
        ensures { result ≡ later_row last.second last.offset self.second self.offset }
    {
        last.second < self.second
            && self.second <= SPAN
            && self.is_daily()
            && last.offset != self.offset
    }

    // The size of the jump from the row before to this one.
    fn jump_from(self, last: Row) -> u32
        ensures { result ≡ unsigned_abs (self.offset -ℤ last.offset) }
    {
        self.offset.abs_diff(last.offset)
    }

    // The last row's second, moved on by the sizes of the jumps to it and to this one.
    fn reach(self, older: Row, last: Row) -> i64
        requires { last.second ≤ℤ pos 8640000259200 }
        ensures { result ≡ last.second +ℤ pos (unsigned_abs (last.offset -ℤ older.offset) + unsigned_abs (self.offset -ℤ last.offset)) }
    {
        // The cast loses nothing, which is proved; with `i64::from` of each jump the proof did not close.
        let jumps = u64::from(last.jump_from(older)) + u64::from(self.jump_from(last));
        last.second + jumps as i64
    }

    /// The changes at the last row and at this one lie farther apart than their jumps' sizes.
    pub fn stands_apart(self, older: Row, last: Row) -> bool
        requires { last.second ≤ℤ pos 8640000259200 }
        ensures { result ≡ apart older.offset last.second last.offset self.second self.offset }
    {
        self.reach(older, last) < self.second
    }
}
