//! Texts of prefixes (RFC 4291 section 2.3).

ghost use Rattle.std.specs.Prelude.{◌≡◌, ◌*◌, ◌^◌, ◌<◌, ◌++◌, IfOk, OnOk, OnErr, string_bytes, length};
ghost use Rattle.route_model.specs.Address.{octets};
ghost use Rattle.route_model.specs.Prefix.{IpPrefix};
ghost use Rattle.route_text.specs.PrefixText.{prefix_text, IsPrefixText};

use crate::address::{read_address, write_address};
use crate::cut::cut_at_last;
use crate::fault::BadText;
use crate::number::{read_number, write_number};
use route_model::{Address, Prefix};
use std::alloc::AllocError;

/// Writes a prefix at the end of `out`: its address, `/` and its length. After an error the content
/// of `out` is unspecified.
pub fn write_prefix(out: &mut String, prefix: &Prefix) -> Result<(), AllocError>
    ensures text { OnOk result (string_bytes out.new ≡ string_bytes out.old ++ prefix_text prefix.now) }
{
    write_address(out, &prefix.address())?;
    out.push('/')?;
    write_number(out, u64::from(prefix.length()))
}

/// The prefix that the text writes. Bits of its address past the length count as zero. The length
/// is at most 32 for IPv4 and 128 for IPv6.
pub fn read_prefix(text: &str) -> Result<Prefix, BadText>
    ensures found { IfOk result (IsPrefixText text.now) }
    ensures none { OnErr result ((prefix : IpPrefix) → ¬ (IsPrefixText text.now prefix)) }
{
    let Some((address, length)) = cut_at_last(text, '/') else {
        return Err(BadText);
    };
    let address = read_address(address)?;
    let length = read_number(length, bit_count(&address))?;
    Ok(Prefix::containing(address, length as u8))
}

/// How many bits an address has.
fn bit_count(address: &Address) -> u64
    ensures { result ≡ 8 * length (octets address.now) }
{
    match address {
        Address::V4(octets) => 8 * octet_count(octets),
        Address::V6(octets) => 8 * octet_count(octets),
    }
}

fn octet_count<const N: usize>(octets: &[u8; N]) -> u64
    requires { N < 2 ^ 32 }
    ensures count { result ≡ length octets.now }
    ensures size { result ≡ N }
{
    octets.len() as u64
}
