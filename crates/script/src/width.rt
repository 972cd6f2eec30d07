// Types of numbers, and what each holds of a number that was read, which may be wider than 64 bits.
ghost use Rattle.std.specs.Prelude.{◌≡◌, ◌^◌, ℤ, Some, None, Option, Result, refl};
ghost use Rattle.std.specs.Int.{w16, w32};
ghost use Rattle.std.specs.Result.{result_ok};
ghost use Rattle.std.proofs.Common.{lit≤};
ghost use Rattle.script.specs.Numbers.{signed_below, unsigned_below};
ghost use Rattle.script.specs.Widths.{signed_narrows, signed_keeps, unsigned_narrows, unsigned_keeps};

pub(crate) trait Width: TryFrom<i64> {
    // The number, where the type holds it.
    ghost held: { Option ℤ → Option Self };

    // Where no number was read, none is held.
    ghost none: { held None ≡ None };

    // What 64 bits do not hold, it does not hold.
    ghost narrows: { (z : Option ℤ) → held (signed_below (2 ^ 63) z) ≡ held z };

    // Of 64 bits the conversion keeps what it holds.
    ghost keeps: { (v : ℤ) (r : Result Self Self.Error) → Self.try_from_gives v r → result_ok r ≡ held (Some v) };
}

// An impl for each type, as each has laws of its own to prove.
impl Width for u8 {
    ghost held = { unsigned_below 256 };

    ghost none = { refl };

    ghost narrows = { unsigned_narrows 256 (lit≤ tt) };

    ghost keeps = { unsigned_keeps 8 };
}

impl Width for u16 {
    ghost held = { unsigned_below 65536 };

    ghost none = { refl };

    ghost narrows = { unsigned_narrows 65536 (lit≤ tt) };

    ghost keeps = { unsigned_keeps 16 };
}

impl Width for i16 {
    ghost held = { signed_below 32768 };

    ghost none = { refl };

    ghost narrows = { signed_narrows 32768 (lit≤ tt) };

    ghost keeps = { signed_keeps w16 };
}

impl Width for i32 {
    ghost held = { signed_below 2147483648 };

    ghost none = { refl };

    ghost narrows = { signed_narrows 2147483648 (lit≤ tt) };

    ghost keeps = { signed_keeps w32 };
}
