// A number type with a number of each worth below one limit, which is all that its callers need to know. A type whose worths go further
// or leave some out is a `WideRoundable`.
ghost use Rattle.std.specs.Prelude.{◌≡◌, ℕ, ◌^◌, ◌<◌, ℤ, ⊤, unsigned_abs};

use crate::WideRoundable;

pub trait Roundable: Copy {
    // what a number is worth
    ghost value: { Self → ℤ };

    // numbers are worth any number nearer to zero than this
    ghost limit: { ℕ };

    // a number is in the normal form of its worth
    ghost formed: { Self → Type 0 };

    fn worth(self) -> i128
        ensures value { result ≡ value self }
        ensures bound { unsigned_abs result < 2 ^ 126 };

    fn of_worth(worth: i128) -> Self
        requires { unsigned_abs worth < limit }
        ensures value { value result ≡ worth }
        ensures formed { formed result };
}

impl Roundable for i64 {
    ghost value = { λ x. x };

    ghost limit = { 2 ^ 63 };

    ghost formed = { λ _. ⊤ };

    fn worth(self) -> i128 {
        self.wide_worth()
    }

    fn of_worth(worth: i128) -> i64 {
        i64::of_wide_worth(worth)
    }
}
