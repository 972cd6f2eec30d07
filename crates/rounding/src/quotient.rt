// A quotient of two numbers without a sign, and the whole multiples of the divisor around it.
ghost use Rattle.std.specs.Prelude.{◌≡◌, ◌+◌, ◌*◌, ◌/◌, ◌%◌, ◌^◌, ◌<◌, ◌==◌};

use crate::UnsignedRoundingMode;
use std::cmp::Ordering;

/// A dividend over a divisor above zero.
#[derive(Clone, Copy, Debug, PartialEq, Eq)]
pub struct Quotient {
    pub dividend: u128,
    pub divisor: u128,
    ghost some: { 0 < divisor },
}

impl Quotient {
    ghost use Rattle.rounding.specs.Rounding.{half_of, applied};

    pub fn is_exact(self) -> bool
        ensures { result ≡ (self.dividend % self.divisor == 0) }
    {
        self.dividend.is_multiple_of(self.divisor)
    }

    /// Where what is left lies from half of the divisor.
    pub fn compare_remainder(self) -> Ordering
        ensures { result ≡ half_of (self.dividend % self.divisor) self.divisor }
    {
        let past = self.dividend % self.divisor;
        past.cmp(&(self.divisor - past))
    }

    /// Whether the whole part is even.
    pub fn is_even_cardinal(self) -> bool
        ensures { result ≡ (self.dividend / self.divisor % 2 == 0) }
    {
        (self.dividend / self.divisor).is_multiple_of(2)
    }

    /// The last multiple that is not above.
    pub fn result_floor(self) -> u128
        ensures { result ≡ self.dividend / self.divisor * self.divisor }
    {
        self.dividend - self.dividend % self.divisor
    }

    /// The first multiple above.
    pub fn result_ceil(self) -> u128
        requires { (self.dividend / self.divisor + 1) * self.divisor < 2 ^ 128 }
        ensures { result ≡ (self.dividend / self.divisor + 1) * self.divisor }
    {
        self.result_floor() + self.divisor
    }

    /// The multiple that the mode takes.
    pub fn rounded(self, mode: UnsignedRoundingMode) -> u128
        requires { self.dividend + self.divisor < 2 ^ 128 }
        ensures value { result ≡ applied mode self.dividend self.divisor * self.divisor }
        ensures near { result < self.dividend + self.divisor }
    {
        let down = self.result_floor();
        if self.is_exact() {
            return down;
        }
        let up = self.result_ceil();
        match (mode, self.compare_remainder()) {
            (UnsignedRoundingMode::Zero, _) => down,
            (UnsignedRoundingMode::Infinity, _) => up,
            (_, Ordering::Less) => down,
            (_, Ordering::Greater) => up,
            (UnsignedRoundingMode::HalfZero, Ordering::Equal) => down,
            (UnsignedRoundingMode::HalfInfinity, Ordering::Equal) => up,
            (UnsignedRoundingMode::HalfToEven, Ordering::Equal) => {
                if self.is_even_cardinal() { down } else { up }
            }
        }
    }
}
