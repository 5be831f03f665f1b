//! Octets that tests write as text.
//!
//! Tables of tests have records and messages as hexadecimal digits, grouped by spaces and line ends as a reader likes: `02 0003 fde9`.
//! `octets` takes the spaces out and decodes the rest, and its clause states that. What isn't such a text is an error.
#![tactic(auto)]

ghost use Rattle.std.specs.Prelude.{◌≡◌, IfOk, filter};
ghost use Rattle.hex.specs.Hex.{decode_of};
ghost use Rattle.test_octets.specs.Octets.{is_no_space};

use hex::FromHexError;
use std::alloc::Global;

/// The octets that pairs of hexadecimal digits encode; spaces and line ends may occur anywhere.
///
/// # Errors
///
/// Where another character stands in the text, or a digit is left over.
pub fn octets(alloc: Global, text: &str) -> Result<Vec<u8>, FromHexError>
    ensures { IfOk result (λ octets. decode_of (filter is_no_space text.now) ≡ Ok octets.items) }
{
    let digits: Vec<u8> = text
        .bytes()
        .filter(|b| *b != b' ' && *b != b'\n')
        .collect(alloc)?;
    hex::decode(alloc, digits)
}
