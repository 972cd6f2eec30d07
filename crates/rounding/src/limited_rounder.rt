// A number with a limit and an increment, to be rounded by any mode. What is rounded is its worth, as a count of 128 bits.
ghost use Rattle.std.specs.Prelude.{◌≡◌, ◌+◌, ◌<◌, not, pos, ◌<ℤ◌, int_lt, unsigned_abs, ⊤};

use crate::{Roundable, RoundingMode, WideRounder};
use std::alloc::AllocError;

// A type of its own, since `WideRounder` asks for a `WideRoundable`.
pub struct IncrementRounder<N: Roundable> {
    // Told once, as in `WideRounder`.
    pub positive: bool,
    pub dividend: N,
    pub divisor: N,
    ghost signed: { positive ≡ not (int_lt (N.Roundable.value dividend) (pos 0)) },
}

// By hand, since a derive is refused on a generic struct with a ghost field.
impl<N: Roundable> Clone for IncrementRounder<N> {
    ghost is_clone = { λ x y. y ≡ x };

    ghost is_infallible = { λ _. ⊤ };

    fn clone(&self) -> Result<IncrementRounder<N>, AllocError> {
        Ok(*self)
    }
}

impl<N: Roundable> Copy for IncrementRounder<N> {}

impl<N: Roundable> IncrementRounder<N> {
    ghost use Rattle.rounding.specs.Rounding.{rounded_to};

    pub fn from_signed_num(number: N, increment: N) -> IncrementRounder<N>
        ensures { (result.positive ≡ not (int_lt (N.Roundable.value number) (pos 0))) × (result.dividend ≡ number) × (result.divisor ≡ increment) }
    {
        IncrementRounder {
            positive: number.worth() >= 0,
            dividend: number,
            divisor: increment,
        }
    }

    /// The number rounded, for which there is room below the limit.
    pub fn round(self, mode: RoundingMode) -> N
        requires holds { pos 0 <ℤ N.Roundable.value self.divisor }
        requires room { unsigned_abs (N.Roundable.value self.dividend) + unsigned_abs (N.Roundable.value self.divisor) < N.Roundable.limit }
        ensures value { N.Roundable.value result ≡ rounded_to mode (N.Roundable.value self.dividend) (unsigned_abs (N.Roundable.value self.divisor)) }
        ensures near { unsigned_abs (N.Roundable.value result) < unsigned_abs (N.Roundable.value self.dividend) + unsigned_abs (N.Roundable.value self.divisor) }
        ensures formed { N.Roundable.formed result }
    {
        let worths = WideRounder {
            positive: self.positive,
            dividend: self.dividend.worth(),
            divisor: self.divisor.worth(),
        };
        N::of_worth(worths.round(mode))
    }
}
