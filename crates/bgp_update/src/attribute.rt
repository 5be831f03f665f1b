//! Path attributes in octets.

ghost use Rattle.std.specs.Prelude.{◌≡◌, ◌<◌, ◌≤◌, ◌-◌, length, slice_index, IfSome, IfNone};
ghost use Rattle.route_model.specs.Octets.{number_at};
ghost use Rattle.route_model.specs.Reading.{Exactly, AtFront};
ghost use Rattle.bgp_update.specs.AttributeFields.{header_size, IsAttributeField, AreListed, value_of};

use route_model::octets::{ReadFault, u16_at};
use std::alloc::Global;
use std::marker::Model;

/// The octets of an attribute's value: at most 65,535. They are borrowed from the message.
#[derive(Debug, Drop)]
pub struct ValueOctets<'a> {
    octets: &'a [u8],
}

impl<'a> Model for ValueOctets<'a> {
    ghost use Rattle.std.specs.Prelude.{ℕ, List, ◌<◌, length};

    ghost Value = { List ℕ };

    ghost view = { λ a. a.octets.now };

    ghost invariant = { λ a. length a.octets.now < 65536 };
}

impl<'a> ValueOctets<'a> {
    /// These octets.
    pub fn new(octets: &'a [u8]) -> ValueOctets<'a>
        requires few { length octets.now < 65536 }
        ensures octets { result ≡ octets.now }
    {
        ValueOctets { octets }
    }

    /// The octets.
    pub fn as_slice(&self) -> &'a [u8]
        ensures octets { result.now ≡ self.now }
        ensures few { length result.now < 65536 }
    {
        self.octets
    }
}

/// A path attribute of a message (RFC 4271 section 4.3): its flags, its type code, and the octets of its value.
#[derive(Debug, Drop)]
pub(crate) struct PathAttribute<'a> {
    pub(crate) flags: u8,
    pub(crate) kind: u8,
    pub(crate) value: ValueOctets<'a>,
}

/// The flag of a length of two octets.
const EXTENDED_LENGTH: u8 = 0x10;

/// How many octets are before the value, and how many the value has.
fn sizes_at(bytes: &[u8]) -> Option<(usize, usize)>
    ensures found { IfSome result (λ s. (3 ≤ length bytes.now) × (s.0 ≡ header_size (slice_index bytes.now 0)) × (s.0 ≤ length bytes.now) × (s.1 ≡ number_at (s.0 - 2) 2 bytes.now) × (s.1 < 65536)) }
    ensures none { IfNone result ((3 ≤ length bytes.now) × (header_size (slice_index bytes.now 0) ≤ length bytes.now) → ⊥) }
{
    if bytes.len() < 3 {
        return None;
    }
    if bytes[0] & EXTENDED_LENGTH == 0 {
        return Some((3, bytes[2] as usize));
    }
    if bytes.len() < 4 {
        return None;
    }
    Some((4, u16_at(bytes, 2) as usize))
}

/// The attribute at the front, and how many octets it takes. Its fields (RFC 4271 section 4.3):
///
/// 1. The flags, one octet.
/// 2. The type code, one octet.
/// 3. The length of the value, one octet, or two if the flag of an extended length is set.
/// 4. The value.
fn attribute_at(bytes: &[u8]) -> Option<(PathAttribute<'_>, usize)>
    ensures { AtFront IsAttributeField bytes.now result }
{
    let (header, len) = sizes_at(bytes)?;
    if bytes.len() < header + len {
        return None;
    }
    let value = bytes.split_at(header + len).0.split_at(header).1;
    let attribute = PathAttribute {
        flags: bytes[0],
        kind: bytes[1],
        value: ValueOctets::new(value),
    };
    Some((attribute, header + len))
}

/// How many types there are.
pub(crate) const KINDS: usize = 256;

/// For how many attributes room is made at once: few messages have more.
const USUAL: usize = 16;

/// The attributes that follow one another over all of the octets, no type twice.
pub(crate) fn attribute_list(
    alloc: Global,
    bytes: &[u8],
) -> Result<Vec<PathAttribute<'_>>, ReadFault>
    ensures { Exactly (λ v. v.items) (AreListed bytes.now) result }
{
    let mut attributes = Vec::with_capacity(alloc, USUAL.min(bytes.len() / 3))?;
    let mut seen = [false; KINDS];
    let mut rest = bytes;
    while !rest.is_empty() {
        let Some((attribute, size)) = attribute_at(rest) else {
            return Err(ReadFault::Malformed);
        };
        let kind = attribute.kind as usize;
        if seen[kind] {
            return Err(ReadFault::Malformed);
        }
        seen[kind] = true;
        attributes.push(attribute)?;
        rest = rest.split_at(size).1;
    }
    Ok(attributes)
}

/// The value of the attribute of a type, or none.
pub(crate) fn value_in<'a>(attributes: &[PathAttribute<'a>], kind: u8) -> Option<ValueOctets<'a>>
    ensures { result ≡ value_of kind attributes.now }
{
    for a in attributes {
        if a.kind == kind {
            return Some(ValueOctets::new(a.value.as_slice()));
        }
    }
    None
}
