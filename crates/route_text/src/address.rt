//! Texts of addresses (RFC 4291 section 2.2, RFC 5952 section 4).

ghost use Rattle.std.specs.Prelude.{◌≡◌, ◌++◌, ℕ, List, IfOk, OnOk, OnErr, string_bytes};
ghost use Rattle.std.specs.Net.Grammar.{IsDotted};
ghost use Rattle.route_model.specs.declared.address.Address.{Address};
ghost use Rattle.route_text.specs.AddressText.{address_text, ipv6_text, IsIpv6Text, IsAddressText, AreReadAgain, HaveOneAddress};

use crate::fault::BadText;
use route_model::Address;
use std::alloc::AllocError;
use std::net::{Ipv4Addr, Ipv6Addr};

/// Writes an address at the end of `out`: four decimal numbers, or groups in lower case hexadecimal
/// with the first longest run of zero groups as `::`. After an error the content of `out` is
/// unspecified.
pub fn write_address(out: &mut String, address: &Address) -> Result<(), AllocError>
    ensures text { OnOk result (string_bytes out.new ≡ string_bytes out.old ++ address_text address.now) }
{
    match address {
        Address::V4(octets) => {
            let address = Ipv4Addr::from_octets(*octets);
            write!(out, "{address}")
        }
        Address::V6(octets) => write_ipv6(out, *octets),
    }
}

pub(crate) fn write_ipv6(out: &mut String, octets: [u8; 16]) -> Result<(), AllocError>
    ensures text { OnOk result (string_bytes out.new ≡ string_bytes out.old ++ ipv6_text octets) }
{
    let groups = Ipv6Addr::from_octets(octets).hex_groups();
    write!(out, "{groups}")
}

/// The octets of a dotted text: four numbers of at most 255, none with a leading zero.
pub fn read_ipv4(text: &str) -> Result<[u8; 4], BadText>
    ensures found { IfOk result (IsDotted text.now) }
    ensures none { OnErr result ((octets : List ℕ) → ¬ (IsDotted text.now octets)) }
{
    match text.parse::<Ipv4Addr>() {
        Ok(address) => Ok(address.octets()),
        Err(_) => Err(BadText),
    }
}

/// The octets of a text in hexadecimal groups, in either case, with at most one `::`. No group may
/// be written as an IPv4 address.
pub fn read_ipv6(text: &str) -> Result<[u8; 16], BadText>
    ensures found { IfOk result (IsIpv6Text text.now) }
    ensures none { OnErr result ((octets : List ℕ) → ¬ (IsIpv6Text text.now octets)) }
{
    if text.as_bytes().contains(&b'.') {
        return Err(BadText);
    }
    match text.parse::<Ipv6Addr>() {
        Ok(address) => Ok(address.octets()),
        Err(_) => Err(BadText),
    }
}

/// The address that the text writes, of either family.
pub fn read_address(text: &str) -> Result<Address, BadText>
    ensures found { IfOk result (IsAddressText text.now) }
    ensures none { OnErr result ((address : Address) → ¬ (IsAddressText text.now address)) }
{
    if let Ok(octets) = read_ipv4(text) {
        return Ok(Address::V4(octets));
    }
    if let Ok(octets) = read_ipv6(text) {
        return Ok(Address::V6(octets));
    }
    Err(BadText)
}

/// Each address is read again from what is written of it, and no text has two addresses.
pub fn addresses_have_texts()
    ensures again { AreReadAgain }
    ensures one { HaveOneAddress }
{}
