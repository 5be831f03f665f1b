//! Numbers, stamps, keys and entries, written in octets.

ghost use Rattle.std.specs.Prelude.{◌≡◌, ◌≤◌, ◌<◌, ◌^◌, ◌+◌, length, option_map};
ghost use Rattle.tsb_node.specs.Numbers.{octets_of, bound_octets};
ghost use Rattle.route_model.specs.Octets.{AreOctets};
ghost use Rattle.tsb_node.specs.Leaves.{tag, value_encoded, entry};
ghost use Rattle.tsb_node.specs.inner.Laying.{laid};
ghost use Rattle.tsb_node.specs.Pushing.{version};
ghost use Rattle.tsb_node.specs.Nodes.{header, unit_now, IsBounds, AreInOrder};

use crate::numbers::{key_fits, stamp_fits};
use byteorder::{BigEndian, ByteOrder};
use disk_models::{Page, Sheet};
use route_model::{Key, Unit};
use version_model::{Bounds, Stamp};

/// A number in two octets.
#[tactic(auto, unfolding(crate::specs::Numbers::octets_of))]
pub fn two_octets(number: u16) -> [u8; 2]
    ensures { result ≡ octets_of 2 number }
{
    let mut octets = [0u8; 2];
    BigEndian::write_u16(&mut octets, number);
    octets
}

/// A number in eight octets.
#[tactic(auto, unfolding(crate::specs::Numbers::octets_of))]
pub fn eight_octets(number: u64) -> [u8; 8]
    ensures octets { result ≡ octets_of 8 number }
    ensures fits { number < 256 ^ 8 }
{
    let mut octets = [0u8; 8];
    BigEndian::write_u64(&mut octets, number);
    octets
}

/// A stamp in sixteen octets.
#[tactic(auto, unfolding(crate::specs::Numbers::octets_of))]
pub fn stamp_octets(stamp: Stamp) -> [u8; 16]
    ensures { result ≡ octets_of 16 stamp }
{
    let mut octets = [0u8; 16];
    BigEndian::write_u128(&mut octets, stamp.number());
    octets
}

/// A key in forty octets.
pub fn key_octets(key: Key) -> [u8; 40]
    ensures { result ≡ octets_of 40 key }
{
    key.to_octets()
}

/// 1 for a value, 0 for an end.
fn tag_of(value: Option<&[u8]>) -> u8
    ensures { result ≡ tag (option_map (λ x. x.now) value.entry) }
{
    match value {
        Some(_) => 1,
        None => 0,
    }
}

/// The count of the octets, each of which is one.
fn each_octet(octets: &[u8]) -> usize
    ensures { AreOctets octets.now }
{
    octets.len()
}

/// The octets of a value; an end has none.
pub fn octets_in<'a>(value: Option<&'a [u8]>) -> &'a [u8]
    ensures value { result.now ≡ value_encoded (option_map (λ x. x.now) value.entry) }
    ensures octets { AreOctets result.now }
{
    match value {
        Some(octets) => {
            let _count = each_octet(octets);
            octets
        }
        None => &[],
    }
}

/// Writes an entry into a page from a place on.
pub fn put_entry(page: &mut Page, at: usize, key: Key, stamp: Stamp, value: Option<&[u8]>)
    requires short { length (value_encoded (option_map (λ x. x.now) value)) ≤ 3072 }
    requires room { at + 59 + length (value_encoded (option_map (λ x. x.now) value)) ≤ 16384 }
    ensures { page.new ≡ laid at (entry (version key stamp (option_map (λ x. x.now) value.entry))) page.old }
{
    let _octets = page.octets();
    let octets = octets_in(value);
    page.put(at, &key_octets(key));
    page.put(at + 40, &stamp_octets(stamp));
    page.put(at + 56, &[tag_of(value)]);
    page.put(at + 57, &two_octets(octets.len() as u16));
    page.put(at + 59, octets);
}

/// A high key in forty octets, or all ones if there is none.
#[tactic(auto, unfolding(crate::specs::Numbers::bound_octets))]
fn high_octets(high: Option<Key>) -> [u8; 40]
    ensures { result ≡ bound_octets 40 high }
{
    match high {
        Some(key) => key_octets(key),
        None => [255; 40],
    }
}

/// An end stamp in sixteen octets, or all ones if there is none.
#[tactic(auto, unfolding(crate::specs::Numbers::bound_octets))]
fn end_octets(end: Option<Stamp>) -> [u8; 16]
    ensures { result ≡ bound_octets 16 end }
{
    match end {
        Some(stamp) => stamp_octets(stamp),
        None => [255; 16],
    }
}

/// Bounds in order are those of a node: keys and stamps fit their octets.
pub fn bounds_fit(bounds: &Bounds)
    requires { AreInOrder bounds.now }
    ensures fits { IsBounds bounds.now }
{
    key_fits(bounds.low);
    stamp_fits(bounds.start);
}

/// Writes the header of a node into a page or a block.
pub fn put_header<K>(
    page: &mut Sheet<K>,
    kind: u8,
    level: u8,
    count: u16,
    used: u16,
    bounds: &Bounds,
)
    ensures { page.new ≡ laid 0 (header kind unit_now level count used bounds.now) page.old }
{
    let _octets = page.octets();
    let unit = Unit::written().number();
    page.put(0, &[kind, unit, level, 0]);
    page.put(4, &two_octets(count));
    page.put(6, &two_octets(used));
    page.put(8, &key_octets(bounds.low));
    page.put(48, &high_octets(bounds.high));
    page.put(88, &stamp_octets(bounds.start));
    page.put(104, &end_octets(bounds.end));
}
