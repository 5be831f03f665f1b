//! Path attributes that are kept unread (RFC 4271 section 4.3).

ghost use Rattle.std.specs.Prelude.{◌≡◌, if◌then◌else◌, IsTrue, Some, None, ◌<◌, length};
ghost use Rattle.route_model.specs.Octets.{AreOctets};
ghost use Rattle.route_model.specs.Encoding.{is_ascending};

use crate::address::each_octet;
use std::marker::Model;

/// The value of an attribute: at most 65,535 octets.
#[derive(Debug, Drop)]
pub struct AttributeValue {
    items: Vec<u8>,
}

impl Model for AttributeValue {
    ghost use Rattle.std.specs.Prelude.{ℕ, List, ◌<◌, length};

    ghost Value = { List ℕ };

    ghost view = { λ a. a.items.items };

    ghost invariant = { λ a. length a.items.items < 65536 };
}

impl AttributeValue {
    /// A value of these octets.
    pub fn new(items: Vec<u8>) -> AttributeValue
        requires few { length items.items < 65536 }
        ensures octets { result ≡ items.items }
    {
        AttributeValue { items }
    }

    /// The octets of the value.
    pub fn as_slice(&self) -> &[u8]
        ensures items { result.now ≡ self.now }
        ensures count { length result.now < 65536 }
        ensures octets { AreOctets result.now }
    {
        let octets = self.items.as_slice();
        let _octets = each_octet(octets);
        octets
    }
}

/// A path attribute that is kept unread: its type code, its flags (of which the reader of messages keeps
/// the optional, the transitive and the partial bit, RFC 4271 section 4.3), and its value.
#[derive(Debug, Drop)]
pub struct Attribute {
    pub kind: u8,
    pub flags: u8,
    pub value: AttributeValue,
}

/// Attributes by ascending types, none twice.
#[derive(Debug, Drop)]
pub struct Attributes {
    items: Vec<Attribute>,
}

impl Model for Attributes {
    ghost use Rattle.std.specs.Prelude.{List};
    ghost use Rattle.route_model.specs.declared.attribute.Attribute.{Attribute};

    ghost Value = { List Attribute };

    ghost view = { λ a. a.items.items };

    ghost use Rattle.std.specs.Prelude.{IsTrue, ◌<◌, length};
    ghost use Rattle.route_model.specs.Encoding.{is_ascending};

    ghost invariant = { λ a. IsTrue (is_ascending a.items.items) × (length a.items.items < 65536) };
}

fn is_ascending(items: &[Attribute]) -> bool
    ensures { result ≡ is_ascending items.now }
{
    match items {
        [] => true,
        [_] => true,
        [first, rest @ ..] => first.kind < rest[0].kind && is_ascending(rest),
    }
}

impl Attributes {
    /// These attributes, if their types ascend.
    pub fn try_new(items: Vec<Attribute>) -> Option<Attributes>
        requires few { length items.items < 65536 }
        ensures ascending { result ≡ (if is_ascending items.items then Some items.items else None) }
    {
        if !is_ascending(&items) {
            return None;
        }
        Some(Attributes { items })
    }

    /// The attributes, by ascending types.
    pub fn as_slice(&self) -> &[Attribute]
        ensures items { result.now ≡ self.now }
        ensures count { length result.now < 65536 }
        ensures ascending { IsTrue (is_ascending result.now) }
    {
        self.items.as_slice()
    }
}
