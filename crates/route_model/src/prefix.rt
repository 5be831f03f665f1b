//! Prefixes.

ghost use Rattle.std.specs.Prelude.{◌≡◌, ◌+◌, ◌/◌, ◌*◌, ◌≤◌, ◌++◌, ◌-◌, ℕ, Some, replicate, OnOk, IfOk, IfSome, length as bytes_len};
ghost use Rattle.std.specs.Str.{bytes_eq};
ghost use Rattle.route_model.specs.Octets.{AreOctets};
ghost use Rattle.route_model.specs.Address.{octets};
ghost use Rattle.route_model.specs.inner.Codec.{Reads};
ghost use Rattle.route_model.specs.inner.Codec.Admissions.{prefix_at};
ghost use Rattle.route_model.specs.Prefix.{IpPrefix, IsPrefix, prefix_octets, front_octets, EncodesPrefix, cleared, cleared_address};

use crate::address::{Address, slice_of};
use crate::fault::NoEncoding;
use crate::reading::{read_octet, read_octets};
use std::alloc::{AllocError, Global};
use std::marker::Model;

/// The addresses that share their first bits. Bits past the length are zero.
#[derive(Clone, Copy, Debug, PartialEq, Eq, PartialOrd, Ord)]
pub struct Prefix {
    address: Address,
    length: u8,
}

impl Model for Prefix {
    ghost use Rattle.std.specs.Prelude.{◌≤◌, ◌*◌, ◌≡◌};
    ghost use Rattle.route_model.specs.Prefix.{IpPrefix};

    ghost Value = { IpPrefix };

    ghost use Rattle.route_model.specs.Prefix.{IsPrefix};

    ghost view = { λ a. record { address = a.address; length = a.length } };

    ghost invariant = { λ a. IsPrefix (record { address = a.address; length = a.length }) };

    ghost inverse = { λ p. record { address = p.address; length = p.length } };
}

impl Prefix {
    /// The prefix of this length, in bits, that the address lies in.
    pub fn containing(address: Address, length: u8) -> Prefix
        requires within { length ≤ 8 * bytes_len (octets address) }
        ensures prefix { result ≡ record { address = cleared_address length address; length = length } }
    {
        match address {
            Address::V4(octets) => {
                let address = Address::V4(cleared_octets(length, octets));
                Prefix { address, length }
            }
            Address::V6(octets) => {
                let address = Address::V6(cleared_octets(length, octets));
                Prefix { address, length }
            }
        }
    }

    /// The first address of the prefix.
    pub fn address(&self) -> Address
        ensures address { result ≡ self.now.address }
        ensures valid { IsPrefix self.now }
    {
        self.address
    }

    /// How many bits the addresses share: 0 to 32, or to 128.
    pub fn length(&self) -> u8
        ensures length { result ≡ self.now.length }
        ensures within { result ≤ 8 * bytes_len (octets self.now.address) }
    {
        self.length
    }

    /// The fewest octets that hold the bits that count.
    pub(crate) fn front(&self) -> &[u8]
        ensures front { result.now ≡ front_octets self.now }
        ensures valid { IsPrefix self.now }
        ensures few { bytes_len result.now ≤ 16 }
    {
        let count = (self.length as usize + 7) / 8;
        let octets = self.address.as_slice();
        octets.split_at(count).0
    }

    /// The length in octets of the prefix's encoding: 2 to 18.
    pub fn encoded_len(&self) -> usize
        ensures len { result ≡ bytes_len (prefix_octets self.now) }
        ensures few { result ≤ 18 }
    {
        2 + self.front().len()
    }

    /// The unique encoding of the prefix: family, length in bits, and the fewest octets that hold them.
    pub fn encode(&self, alloc: Global) -> Result<Vec<u8>, AllocError>
        ensures encoding { IfOk result (λ v. EncodesPrefix self.now v.items) }
    {
        let _front = self.front();
        let mut out = Vec::with_capacity(alloc, self.encoded_len())?;
        put_prefix(&mut out, self)?;
        Ok(out)
    }

    /// The prefix that these octets encode, or none.
    pub fn decode(octets: &[u8]) -> Option<Prefix>
        ensures found { IfSome result (λ p. EncodesPrefix p octets.now) }
        ensures only { (p : IpPrefix) → EncodesPrefix p octets.now → result ≡ Some p }
    {
        let Ok((address, length, _)) = read_prefix(octets) else {
            return None;
        };
        let prefix = Prefix::containing(address, length);
        if prefix.is_encoded(octets) {
            Some(prefix)
        } else {
            None
        }
    }

    fn is_encoded(&self, octets: &[u8]) -> bool
        ensures same { result ≡ bytes_eq octets.now (prefix_octets self.now) }
        ensures valid { IsPrefix self.now }
    {
        let front = self.front();
        match octets {
            [] => false,
            [_] => false,
            [family, length, rest @ ..] => {
                *family == self.address.family() && *length == self.length && rest == front
            }
        }
    }
}

/// Writes the encoding of a prefix.
pub(crate) fn put_prefix(out: &mut Vec<u8>, p: &Prefix) -> Result<(), AllocError>
    ensures { OnOk result (out.new.items ≡ out.old.items ++ prefix_octets p.now) }
{
    out.extend_from_slice(&[p.address().family(), p.length()])?;
    out.extend_from_slice(p.front())
}

/// The octets with all bits past the length zero.
fn clear(length: u8, octets: &mut [u8])
    ensures { octets.new ≡ cleared length octets.old }
{
    let mut left = length;
    for o in octets.iter_mut() {
        let kept = left.min(8);
        let unit = 1u16 << (8 - kept);
        *o -= (u16::from(*o) % unit) as u8;
        left -= kept;
    }
}

fn cleared_octets<const N: usize>(length: u8, octets: [u8; N]) -> [u8; N]
    ensures cleared { result ≡ cleared length octets.entry }
    ensures size { bytes_len result ≡ N }
    ensures octets { AreOctets result }
{
    let mut octets = octets;
    clear(length, &mut octets);
    let _octets = slice_of(&octets);
    octets
}

/// The octets at the front, and zeros.
pub(crate) fn filled_octets<const N: usize>(front: &[u8]) -> [u8; N]
    requires { bytes_len front.now ≤ N }
    ensures { result ≡ front.now ++ replicate (N - bytes_len front.now) 0 }
{
    let mut octets = [0u8; N];
    octets[..front.len()].copy_from_slice(front);
    octets
}

/// The address and the length of a prefix.
#[tactic(auto, unfolding(crate::specs::inner::Codec::Admissions::prefix_at))]
pub(crate) fn read_prefix(bytes: &[u8]) -> Result<(Address, u8, &[u8]), NoEncoding>
    ensures read { Reads (λ x. (record { address = cleared_address x.1 x.0; length = x.1 }, x.2.now)) result (prefix_at bytes.now) }
    ensures fits { IfOk result (λ x. x.1 ≤ 8 * bytes_len (octets x.0)) }
{
    let (family, rest) = read_octet(bytes)?;
    let (length, rest) = read_octet(rest)?;
    let width = if family == 4 { 32 } else { 128 };
    if width < length {
        return Err(NoEncoding);
    }
    let (front, rest) = read_octets((length as usize + 7) / 8, rest)?;
    if family == 4 {
        return Ok((Address::V4(filled_octets::<4>(front)), length, rest));
    }
    if family == 6 {
        return Ok((Address::V6(filled_octets::<16>(front)), length, rest));
    }
    Err(NoEncoding)
}
