//! Octets as two lower case hexadecimal digits each.

ghost use Rattle.std.specs.Prelude.{◌≡◌, ◌<◌, ◌++◌, ◌/◌, ◌%◌, ℕ, List, OnOk, IfSome, Some, string_bytes};
ghost use Rattle.std.specs.List.{flat_map};
ghost use Rattle.std.specs.Char.{digit_char};
ghost use Rattle.route_model.specs.Octets.{AreOctets};
ghost use Rattle.route_text.specs.Reads.{ReadsBy};
ghost use Rattle.route_text.specs.RouteText.{octet_text};

use crate::fault::{BadText, TextError};
use std::alloc::{AllocError, Global};

/// The lower case digit of this value.
fn digit_of(value: u8) -> char
    requires { value < 16 }
    ensures digit { result ≡ digit_char value }
    ensures ascii { result < 128 }
{
    if value < 10 {
        char::from(b'0' + value)
    } else {
        char::from(b'a' + (value - 10))
    }
}

/// Writes the two digits of an octet at the end of `out`.
pub(crate) fn write_octet(out: &mut String, octet: u8) -> Result<(), AllocError>
    ensures text { OnOk result (string_bytes out.new ≡ string_bytes out.old ++ octet_text octet) }
{
    out.push(digit_of(octet / 16))?;
    out.push(digit_of(octet % 16))
}

/// Writes the digits of all octets at the end of `out`.
pub(crate) fn write_octets(out: &mut String, octets: &[u8]) -> Result<(), AllocError>
    ensures text { OnOk result (string_bytes out.new ≡ string_bytes out.old ++ flat_map octet_text octets.now) }
{
    for octet in octets {
        write_octet(out, *octet)?;
    }
    Ok(())
}

/// The value of a lower case digit.
fn value_of(digit: u8) -> Option<u8>
    ensures only { (value : ℕ) → value < 16 → digit ≡ digit_char value → result ≡ Some value }
    ensures small { IfSome result (λ value. value < 16) }
{
    match digit {
        b'0'..=b'9' => Some(digit - b'0'),
        b'a'..=b'f' => Some(digit - b'a' + 10),
        _ => None,
    }
}

/// The octet of two digits.
fn octet_of(high: u8, low: u8) -> Result<u8, BadText>
    ensures only { (octet : ℕ) → octet < 256 → high ≡ digit_char (octet / 16) → low ≡ digit_char (octet % 16) → result ≡ Ok octet }
{
    let Some(high) = value_of(high) else {
        return Err(BadText);
    };
    let Some(low) = value_of(low) else {
        return Err(BadText);
    };
    Ok(16 * high + low)
}

/// The octet of a text of two digits.
pub(crate) fn read_octet(text: &[u8]) -> Result<u8, BadText>
    ensures only { (octet : ℕ) → octet < 256 → text.now ≡ octet_text octet → result ≡ Ok octet }
{
    if text.len() != 2 {
        return Err(BadText);
    }
    octet_of(text[0], text[1])
}

/// The octets of a text of digits.
pub(crate) fn read_octets(alloc: Global, text: &[u8]) -> Result<Vec<u8>, TextError>
    ensures only { (octets : List ℕ) → AreOctets octets → text.now ≡ flat_map octet_text octets → ReadsBy (λ x. x.items) result octets }
{
    let mut octets = Vec::with_capacity(alloc, text.len() / 2)?;
    let mut rest = text;
    while let Some((high, beyond)) = rest.split_first() {
        let Some((low, after)) = beyond.split_first() else {
            return Err(TextError::BadText);
        };
        octets.push(octet_of(*high, *low)?)?;
        rest = after;
    }
    Ok(octets)
}
