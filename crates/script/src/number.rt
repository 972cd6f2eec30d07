// Decimal numbers, by the type that a call takes.
ghost use Rattle.std.specs.Prelude.{◌≡◌, ◌^◌};
ghost use Rattle.script.specs.Numbers.{one_more, decimal, below, with_sign, number, signed_below, of_two, fraction_of};

use crate::width::Width;

// The value with one more digit behind it, where that fits 64 bits.
fn with_digit(value: u64, byte: u8) -> Option<u64>
    ensures { result ≡ one_more value byte }
{
    if !byte.is_ascii_digit() {
        return None;
    }
    value.checked_mul(10)?.checked_add(u64::from(byte - b'0'))
}

// The value of one digit or more, where it fits 64 bits. Not `parse`, which takes text and a `+`: these are bytes.
#[tactic(auto, using(crate::proofs::Digits::read_all))]
pub(crate) fn natural(text: &[u8]) -> Option<u64>
    ensures { result ≡ below (2 ^ 64) (decimal text.now) }
{
    if text.is_empty() {
        return None;
    }
    let mut value = 0;
    for byte in text {
        value = with_digit(value, *byte)?;
    }
    Some(value)
}

// The number with this sign, where it fits 64 bits.
pub(crate) fn signed(negative: bool, text: &[u8]) -> Option<i64>
    ensures { result ≡ signed_below (2 ^ 63) (with_sign negative (decimal text.now)) }
{
    let value = natural(text)?;
    if negative {
        0i64.checked_sub_unsigned(value)
    } else {
        i64::try_from(value).ok()
    }
}

// A number, with `-` before a negative one.
fn integer(text: &[u8]) -> Option<i64>
    ensures { result ≡ signed_below (2 ^ 63) (number text.now) }
{
    match text {
        [b'-', digits @ ..] => signed(true, digits),
        _ => signed(false, text),
    }
}

// A number, where the type holds it.
pub(crate) fn read<T: Width>(text: &[u8]) -> Option<T>
where
    T::Error: Drop,
    ensures { result ≡ T.held (number text.now) }
{
    T::try_from(integer(text)?).ok()
}

// One digit or two, as a month, a day, an hour, a minute and a second have.
#[tactic(auto, using(crate::proofs::Fractions::few_digits, crate::proofs::Fractions::two_digits))]
pub(crate) fn short(text: &[u8]) -> Option<u8>
    ensures { result ≡ of_two text.now }
{
    if text.len() > 2 {
        return None;
    }
    u8::try_from(natural(text)?).ok()
}

// The nanoseconds of a fraction of a second with one to nine digits.
#[tactic(auto, using(crate::proofs::Fractions::few_digits, crate::proofs::Fractions::fraction_below))]
pub(crate) fn fraction(text: &[u8]) -> Option<u32>
    ensures { result ≡ fraction_of text.now }
{
    if text.len() > 9 {
        return None;
    }
    let value = natural(text)?;
    // `pow` takes a `u32`; the cast loses nothing, which is proved.
    let unit = 10u64.pow(9 - text.len() as u32);
    u32::try_from(value * unit).ok()
}
