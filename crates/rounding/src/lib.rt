// Rounding to an increment: one text for every number type that can be rounded, the sign kept apart, nine modes.
// `WideRounder` rounds; `IncrementRounder` is for callers who know a type's limit alone, and has it round what their numbers are worth.
#![tactic(auto)]

ghost use Rattle.std.specs.Prelude.{◌≡◌};
ghost use Rattle.rounding.specs.Rounding.{unsigned_of};
ghost use Rattle.rounding.specs.Words.{RoundsAsAsked, OneAnswer, NoneNearer};
ghost use Rattle.rounding.specs.Pairs.{OnePair};

mod count;
mod limited;
mod limited_pair;
mod limited_rounder;
mod pair;
mod quotient;
mod roundable;
mod rounder;
#[cfg(test)]
mod tests;

pub use limited::Roundable;
pub use limited_rounder::IncrementRounder;
pub use pair::round_timespec;
pub use quotient::Quotient;
pub use roundable::WideRoundable;
pub use rounder::WideRounder;

#[derive(Clone, Copy, Debug, PartialEq, Eq)]
pub enum RoundingMode {
    Ceil,
    Floor,
    Expand,
    Trunc,
    HalfCeil,
    HalfFloor,
    HalfExpand,
    HalfTrunc,
    HalfEven,
}

#[derive(Clone, Copy, Debug, PartialEq, Eq)]
pub enum UnsignedRoundingMode {
    Infinity,
    Zero,
    HalfInfinity,
    HalfZero,
    HalfToEven,
}

impl RoundingMode {
    // The mode at a sign, for a number's size.
    fn at_sign(self, positive: bool) -> UnsignedRoundingMode
        ensures { result ≡ unsigned_of self positive }
    {
        match (self, positive) {
            (RoundingMode::Ceil, true) | (RoundingMode::Floor, false) | (RoundingMode::Expand, _) =>
                UnsignedRoundingMode::Infinity,
            (RoundingMode::Floor, true) | (RoundingMode::Ceil, false) | (RoundingMode::Trunc, _) =>
                UnsignedRoundingMode::Zero,
            (RoundingMode::HalfCeil, true)
            | (RoundingMode::HalfFloor, false)
            | (RoundingMode::HalfExpand, _) => UnsignedRoundingMode::HalfInfinity,
            (RoundingMode::HalfFloor, true)
            | (RoundingMode::HalfCeil, false)
            | (RoundingMode::HalfTrunc, _) => UnsignedRoundingMode::HalfZero,
            (RoundingMode::HalfEven, _) => UnsignedRoundingMode::HalfToEven,
        }
    }
}

/// The laws of rounding, each proved.
pub fn laws_hold()
    ensures rounds { RoundsAsAsked }
    ensures single { OneAnswer }
    ensures nearest { NoneNearer }
    ensures pairs { OnePair }
{}
