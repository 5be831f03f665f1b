//! Numbers, stamps and keys in octets.

ghost use Rattle.std.specs.Prelude.{◌≡◌, ◌≤◌, ◌<◌, ◌+◌, ◌^◌, length};
ghost use Rattle.tsb_node.specs.inner.Fields.{number_in};

use route_model::Key;
use route_model::octets::{u16_at, u64_at};
use version_model::Stamp;

/// The number of two octets at a place.
pub fn number2(octets: &[u8], place: usize) -> u16
    requires { place + 2 ≤ length octets.now }
    ensures number { result ≡ number_in 2 place octets.now }
{
    u16_at(octets, place)
}

/// The number of eight octets at a place.
pub fn number8(octets: &[u8], place: usize) -> u64
    requires { place + 8 ≤ length octets.now }
    ensures number { result ≡ number_in 8 place octets.now }
{
    u64_at(octets, place)
}

/// The stamp of sixteen octets at a place.
pub fn stamp_at(octets: &[u8], place: usize) -> Stamp
    requires { place + 16 ≤ length octets.now }
    ensures number { result ≡ number_in 16 place octets.now }
{
    Stamp::new(u64_at(octets, place), u64_at(octets, place + 8))
}

/// The key of forty octets at a place.
pub fn key_at(octets: &[u8], place: usize) -> Key
    requires { place + 40 ≤ length octets.now }
    ensures number { result ≡ number_in 40 place octets.now }
{
    let mut key = [0u8; 40];
    key.copy_from_slice(&octets[place..place + 40]);
    Key::from_octets(&key)
}

/// A key is a number of forty octets.
pub fn key_fits(key: Key)
    ensures fits { key < 256 ^ 40 }
{}

/// A stamp is a number of sixteen octets.
pub fn stamp_fits(stamp: Stamp)
    ensures fits { stamp < 256 ^ 16 }
{}
