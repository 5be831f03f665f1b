//! Numbers in decimal digits.

ghost use Rattle.std.specs.Str.Parse.{AllDigits, IsNumeral, digits_value};
ghost use Rattle.std.specs.Prelude.{◌≡◌, ◌≢◌, ◌≤◌, ◌<◌, ◌^◌, ◌++◌, ℕ, IfOk, OnOk, OnErr, IfSome, IfNone, decimal, string_bytes};

use crate::fault::BadText;
use std::alloc::AllocError;

/// Writes the decimal digits of a number at the end of `out`, with no sign and no leading zero.
/// After an error the content of `out` is unspecified.
pub fn write_number(out: &mut String, number: u64) -> Result<(), AllocError>
    ensures digits { OnOk result (string_bytes out.new ≡ string_bytes out.old ++ decimal number) }
{
    write!(out, "{number}")
}

/// The number of at most `last` that the text writes: decimal digits with no sign, and no leading
/// zero but that of `0` itself.
pub fn read_number(text: &str, last: u64) -> Result<u64, BadText>
    ensures found { IfOk result (λ n. text.now ≡ decimal n) }
    ensures in_range { IfOk result (λ n. n ≤ last) }
    ensures none { OnErr result ((n : ℕ) → n ≤ last → text.now ≢ decimal n) }
{
    let Some(number) = read_u64(text) else {
        return Err(BadText);
    };
    if last < number {
        return Err(BadText);
    }
    Ok(number)
}

/// The number of 64 bits that the text writes.
fn read_u64(text: &str) -> Option<u64>
    ensures found { IfSome result (λ n. text.now ≡ decimal n) }
    ensures none { IfNone result ((n : ℕ) → n < 2 ^ 64 → text.now ≢ decimal n) }
{
    if text == "0" {
        return Some(0);
    }
    if text.starts_with('0') || text.starts_with('+') {
        return None;
    }
    text.parse::<u64>().ok()
}

/// The number that the digits write, of which the first may be zeros.
pub(crate) fn read_digits(text: &str) -> Result<u64, BadText>
    ensures digits { IfOk result (λ number. AllDigits 10 text.now) }
    ensures value { IfOk result (λ number. number ≡ digits_value 10 text.now) }
    ensures none { OnErr result (IsNumeral 10 text.now → digits_value 10 text.now < 2 ^ 64 → ⊥) }
{
    if text.starts_with('+') {
        return Err(BadText);
    }
    let Ok(number) = text.parse::<u64>() else {
        return Err(BadText);
    };
    Ok(number)
}

/// The number of 32 bits that the text writes.
pub(crate) fn read_u32(text: &str) -> Result<u32, BadText>
    ensures only { (n : ℕ) → n < 2 ^ 32 → text.now ≡ decimal n → result ≡ Ok n }
    ensures fits { IfOk result (λ n. n < 2 ^ 32) }
{
    let number = read_number(text, u64::from(u32::MAX))?;
    Ok(number as u32)
}

/// The number of 8 bits that the text writes.
pub(crate) fn read_u8(text: &str) -> Result<u8, BadText>
    ensures only { (n : ℕ) → n < 2 ^ 8 → text.now ≡ decimal n → result ≡ Ok n }
{
    let number = read_number(text, u64::from(u8::MAX))?;
    Ok(number as u8)
}
