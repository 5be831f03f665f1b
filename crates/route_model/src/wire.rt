//! What records and messages share on the wire: AS numbers of two widths, and prefixes.

ghost use Rattle.std.specs.Prelude.{◌≡◌, ◌+◌, ◌≤◌, length};
ghost use Rattle.route_model.specs.Octets.{number_at};
ghost use Rattle.route_model.specs.Reading.{AtFront};
ghost use Rattle.route_model.specs.PrefixFields.{IsPrefixField};
ghost use Rattle.route_model.specs.Widths.{width_of};

use crate::address::Address;
use crate::octets::{u16_at, u32_at};
use crate::prefix::{Prefix, filled_octets};

/// How many octets an AS number has in a record or a message (RFC 6793).
#[derive(Clone, Copy, Debug, PartialEq, Eq)]
pub enum AsWidth {
    Two,
    Four,
}

/// A family of addresses.
#[derive(Clone, Copy, Debug, PartialEq, Eq)]
pub enum Family {
    Ipv4,
    Ipv6,
}

/// How many octets an AS number of this width has.
pub fn octets_of(width: AsWidth) -> usize
    ensures octets { result ≡ width_of width }
{
    match width {
        AsWidth::Two => 2,
        AsWidth::Four => 4,
    }
}

/// The AS number of this width at a place.
pub fn as_number_at(width: AsWidth, bytes: &[u8], place: usize) -> u32
    requires within { place + width_of width ≤ length bytes.now }
    ensures number { result ≡ number_at (width_of width) place bytes.now }
{
    match width {
        AsWidth::Two => u32::from(u16_at(bytes, place)),
        AsWidth::Four => u32_at(bytes, place),
    }
}

/// The prefix of this family at the front, and how many octets it takes (RFC 4271 section 4.3). Bits past
/// the length are cleared. None if the length is above the family's, or the octets end before the prefix.
pub fn prefix_at(family: Family, bytes: &[u8]) -> Option<(Prefix, usize)>
    ensures front { AtFront (IsPrefixField family) bytes.now result }
{
    let (&length, rest) = bytes.split_first()?;
    let size = (length as usize + 7) / 8;
    if rest.len() < size {
        return None;
    }
    let front = rest.split_at(size).0;
    match family {
        Family::Ipv4 => {
            if length > 32 {
                return None;
            }
            let address = Address::V4(filled_octets(front));
            Some((Prefix::containing(address, length), 1 + size))
        }
        Family::Ipv6 => {
            if length > 128 {
                return None;
            }
            let address = Address::V6(filled_octets(front));
            Some((Prefix::containing(address, length), 1 + size))
        }
    }
}
