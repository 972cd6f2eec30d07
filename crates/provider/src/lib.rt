// Time-zone providers: what a zone number means, and the questions that any provider answers by that meaning.
#![tactic(auto)]

ghost use Rattle.std.specs.Prelude.{◌≡◌, ℕ};
ghost use Rattle.offsets.specs.Offsets.{Bounded, Spaced};
ghost use Rattle.provider.specs.Meaning.{Meaning, Each};
ghost use Rattle.provider.specs.Answer.{offset_answer, CandidatesAnswer, end_number, fault_number, source_of as told_source};

use offsets::Candidates;
pub use offsets::SPAN;

/// Which end refused.
#[derive(Clone, Copy, Debug, PartialEq, Eq)]
pub enum End {
    Table = 1,
    Rule = 2,
    Fence = 3,
}

impl End {
    /// The number that an answer prints for the end; `u8::from` would be no plainer, and the cast is how a variant gives its number.
    pub fn number(self) -> u8
        ensures { result ≡ end_number self }
    {
        self as u8
    }
}

/// The end that refused, and the zone number as it was asked there.
#[derive(Clone, Copy, Debug, PartialEq, Eq)]
pub struct Source {
    pub end: End,
    pub zone: u16,
}

/// The two ways in which a provider refuses a question.
#[derive(Clone, Copy, Debug, PartialEq, Eq)]
pub enum ProviderFault {
    UnknownZone(Source),
    OutsideSpan(Source),
}

impl ProviderFault {
    /// The number of the refusal; it leaves the source out, so it is a property and no conversion.
    pub fn number(self) -> u8
        ensures { result ≡ fault_number self }
    {
        match self {
            ProviderFault::UnknownZone(_) => 3,
            ProviderFault::OutsideSpan(_) => 7,
        }
    }

    pub fn source(self) -> Source
        ensures { result ≡ told_source self }
    {
        match self {
            ProviderFault::UnknownZone(source) | ProviderFault::OutsideSpan(source) => source,
        }
    }
}

/// What knows the zones. A question is a zone's number and a second; a struct of both would be made for one call and taken apart in it.
pub trait Provider {
    // What each zone number means.
    ghost means: { Self → Meaning };

    // The two laws, which each implementation proves.
    ghost bounded: { (p : Self) (n : ℕ) → Each (means p n) Bounded };

    ghost spaced: { (p : Self) (n : ℕ) → Each (means p n) Spaced };

    // The offset at a second.
    fn offset(&self, zone: u16, second: i64) -> Result<i32, ProviderFault>
        ensures { result ≡ offset_answer (means self.now zone) second };

    // All the instants that read a local time, ascending, or the gap that it falls into.
    fn candidates(&self, zone: u16, local: i64) -> Result<Candidates, ProviderFault>
        ensures { CandidatesAnswer (means self.now zone) local result };
}
