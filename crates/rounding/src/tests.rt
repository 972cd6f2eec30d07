// Calls by a caller who knows a number type's limit alone, with answers worked out by hand.
ghost use Rattle.std.specs.Prelude.{◌≡◌, ◌+◌, ◌<◌, pos, ◌<ℤ◌, unsigned_abs};
ghost use Rattle.rounding.specs.Rounding.{rounded_to};

use crate::{IncrementRounder, Roundable, RoundingMode, WideRounder};
use clock::Timespec;
use std::test::Fail;

// At any number type with a limit.
fn round_limited<N: Roundable>(number: N, step: N, mode: RoundingMode) -> N
    requires holds { pos 0 <ℤ N.Roundable.value step }
    requires room { unsigned_abs (N.Roundable.value number) + unsigned_abs (N.Roundable.value step) < N.Roundable.limit }
    ensures value { N.Roundable.value result ≡ rounded_to mode (N.Roundable.value number) (unsigned_abs (N.Roundable.value step)) }
    ensures formed { N.Roundable.formed result }
{
    IncrementRounder::from_signed_num(number, step).round(mode)
}

// Twice what a number is worth, for which there is room by the bound on a worth.
fn doubled<N: Roundable>(number: N) -> i128 {
    number.worth() * 2
}

#[test]
fn rounds_below_a_limit(rt: HostRuntime) -> Result<(), Fail> {
    assert_eq!(rt; round_limited(25_i64, 10, RoundingMode::HalfEven), 20);
    assert_eq!(rt; round_limited(-25_i64, 10, RoundingMode::HalfExpand), -30);
    assert_eq!(rt; round_limited(-25_i64, 10, RoundingMode::Ceil), -20);
    let number = Timespec {
        seconds: -2,
        nanos: 500_000_000,
    };
    let second = Timespec {
        seconds: 1,
        nanos: 0,
    };
    let rounder = IncrementRounder::from_signed_num(number, second);
    assert!(rt; !rounder.positive, "a pair below zero");
    let copy = rounder.clone()?;
    let down = copy.round(RoundingMode::Floor);
    assert_eq!(rt; (down.seconds, down.nanos), (-2, 0));
    assert_eq!(rt; doubled(number), -3_000_000_000);
    let pair: Timespec = Roundable::of_worth(-1_500_000_000);
    assert_eq!(rt; (pair.seconds, pair.nanos), (-2, 500_000_000));
    let count: i64 = Roundable::of_worth(-42);
    assert_eq!(rt; doubled(count), -84);
    Ok(())
}

#[test]
fn rounds_wide_counts(rt: HostRuntime) {
    let number = -3 * 2_i128.pow(120) - 1;
    let step = 2_i128.pow(121);
    let rounder = WideRounder::from_signed_num(number, step);
    assert_eq!(rt; rounder.round(RoundingMode::HalfExpand), -2 * step);
}
