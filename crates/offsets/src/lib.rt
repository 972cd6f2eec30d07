// A zone's offset as a function of whole seconds: what reads a local time, and what the laws of offsets bring about.
#![tactic(auto)]

ghost use Rattle.std.specs.Prelude.{◌≡◌, ◌≤◌, ◌-ℤ◌, unsigned_abs};
ghost use Rattle.offsets.specs.Ends.{first_of, last_of};
ghost use Rattle.offsets.specs.Laws.{AllApart, AtMostTwo, TwoByOne, GapOrReader, OneGap, OneAnswer, SomeAnswer, JustReaders, MovedTimes, Beginnings};

/// The seconds that are asked about are those from -SPAN to SPAN.
pub const SPAN: i64 = 8_640_000_259_200;

/// A second that may be asked about.
#[derive(Clone, Copy, Debug, PartialEq, Eq, PartialOrd, Ord)]
pub struct SpanSecond {
    pub second: i64,
    ghost inside: { unsigned_abs second ≤ 8640000259200 },
}

/// An instant, in whole seconds, and the offset there.
#[derive(Clone, Copy, Debug, PartialEq, Eq)]
pub struct Candidate {
    pub second: i64,
    pub offset: i32,
}

impl Candidate {
    /// The instant that reads the local time at the offset.
    pub fn reading(local: SpanSecond, offset: i32) -> Candidate
        ensures second { result.second ≡ local.second -ℤ offset }
        ensures offset { result.offset ≡ offset }
    {
        Candidate {
            second: local.second - i64::from(offset),
            offset,
        }
    }
}

/// What reads a local time.
#[derive(Clone, Copy, Debug, PartialEq, Eq)]
pub enum Candidates {
    // Nothing: the change that leaps over it, and the offsets just before and from the change on.
    Gap {
        change: i64,
        before: i32,
        after: i32,
    },
    One {
        only: Candidate,
    },
    // The earlier instant stands first.
    Two {
        first: Candidate,
        second: Candidate,
    },
}

// One end each, as the library's `first` and `last` of a list.
impl Candidates {
    pub fn first(self) -> Option<Candidate>
        ensures { result ≡ first_of self }
    {
        match self {
            Candidates::Gap { .. } => None,
            Candidates::One { only: first } | Candidates::Two { first, .. } => Some(first),
        }
    }

    pub fn last(self) -> Option<Candidate>
        ensures { result ≡ last_of self }
    {
        match self {
            Candidates::Gap { .. } => None,
            Candidates::One { only: last } | Candidates::Two { second: last, .. } => Some(last),
        }
    }
}

/// What follows from the laws of offsets, each proved.
pub fn laws_hold()
    ensures apart { AllApart }
    ensures at_most_two { AtMostTwo }
    ensures two_by_one { TwoByOne }
    ensures gap_or_reader { GapOrReader }
    ensures one_gap { OneGap }
    ensures one_answer { OneAnswer }
    ensures some_answer { SomeAnswer }
    ensures just_readers { JustReaders }
    ensures moved_times { MovedTimes }
    ensures beginnings { Beginnings }
{}
