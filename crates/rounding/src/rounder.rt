// A number and an increment, to be rounded by any mode.
ghost use Rattle.std.specs.Prelude.{◌≡◌, ◌+◌, ◌<◌, not, pos, ◌<ℤ◌, int_lt, unsigned_abs, ⊤};

use crate::{Quotient, RoundingMode, WideRoundable};
use std::alloc::AllocError;

pub struct WideRounder<N: WideRoundable> {
    // Told once, as the proposal does before it takes the size; the ghost field ties it to the dividend.
    pub positive: bool,
    pub dividend: N,
    pub divisor: N,
    ghost signed: { positive ≡ not (int_lt (N.WideRoundable.value dividend) (pos 0)) },
}

// By hand, since a derive is refused on a generic struct with a ghost field.
impl<N: WideRoundable> Clone for WideRounder<N> {
    ghost is_clone = { λ x y. y ≡ x };

    ghost is_infallible = { λ _. ⊤ };

    fn clone(&self) -> Result<WideRounder<N>, AllocError> {
        Ok(*self)
    }
}

impl<N: WideRoundable> Copy for WideRounder<N> {}

impl<N: WideRoundable> WideRounder<N> {
    ghost use Rattle.rounding.specs.Rounding.{rounded_to};

    pub fn from_signed_num(number: N, increment: N) -> WideRounder<N>
        ensures { (result.positive ≡ not (int_lt (N.WideRoundable.value number) (pos 0))) × (result.dividend ≡ number) × (result.divisor ≡ increment) }
    {
        WideRounder {
            positive: number.wide_worth() >= 0,
            dividend: number,
            divisor: increment,
        }
    }

    /// The number rounded: its size is, and its sign stays.
    pub fn round(self, mode: RoundingMode) -> N
        requires holds { pos 0 <ℤ N.WideRoundable.value self.divisor }
        requires room { N.WideRoundable.room self.dividend self.divisor }
        ensures value { N.WideRoundable.value result ≡ rounded_to mode (N.WideRoundable.value self.dividend) (unsigned_abs (N.WideRoundable.value self.divisor)) }
        ensures near { unsigned_abs (N.WideRoundable.value result) < unsigned_abs (N.WideRoundable.value self.dividend) + unsigned_abs (N.WideRoundable.value self.divisor) }
        ensures formed { N.WideRoundable.formed result }
    {
        let quotient = Quotient {
            dividend: self.dividend.wide_worth().unsigned_abs(),
            divisor: self.divisor.wide_worth().unsigned_abs(),
        };
        // The cast loses nothing, which is proved; `try_from` would add a branch that never comes.
        let size = quotient.rounded(mode.at_sign(self.positive)) as i128;
        if self.positive {
            return N::of_wide_worth(size);
        }
        N::of_wide_worth(-size)
    }
}
