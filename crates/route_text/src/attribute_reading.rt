//! Texts of path attributes, read.

ghost use Rattle.std.specs.Prelude.{◌≡◌, ◌<◌, ◌^◌, ℕ, List, IfOk, IsTrue, length};
ghost use Rattle.std.specs.List.{AllByRecursion, flat_map};
ghost use Rattle.route_model.specs.declared.attribute.Attribute.{Attribute};
ghost use Rattle.route_model.specs.Octets.{AreOctets};
ghost use Rattle.route_model.specs.Encoding.{IsAttribute, is_ascending};
ghost use Rattle.route_text.specs.Reads.{Reads, ReadsBy};
ghost use Rattle.route_text.specs.RouteText.{attribute_text, attributes_text, octet_text};

use crate::cut::cut_at_first;
use crate::fault::TextError;
use crate::hexadecimal::{read_octet, read_octets};
use crate::number::read_u8;
use route_model::{Attribute, AttributeValue, Attributes};
use std::alloc::Global;

/// The most octets of a value, and the most attributes.
const MOST: usize = 65_535;

/// The attributes that the text writes, by ascending types.
pub(crate) fn read_attributes(alloc: Global, text: &str) -> Result<Attributes, TextError>
    ensures only { (others : List Attribute) → length others < 2 ^ 16 → AllByRecursion IsAttribute others → IsTrue (is_ascending others) → text.now ≡ attributes_text others → Reads result others }
    ensures count { IfOk result (λ others. length others < 2 ^ 16) }
    ensures valid { IfOk result (AllByRecursion IsAttribute) }
    ensures ascending { IfOk result (λ others. IsTrue (is_ascending others)) }
{
    let items = read_each_attribute(alloc, text)?;
    if items.len() > MOST {
        return Err(TextError::BadText);
    }
    match Attributes::try_new(items) {
        Some(others) => Ok(others),
        None => Err(TextError::BadText),
    }
}

/// Attributes with spaces between them, or none.
fn read_each_attribute(alloc: Global, text: &str) -> Result<Vec<Attribute>, TextError>
    ensures only { (all : List Attribute) → AllByRecursion IsAttribute all → text.now ≡ attributes_text all → ReadsBy (λ x. x.items) result all }
    ensures valid { IfOk result (λ x. AllByRecursion IsAttribute x.items) }
{
    let mut items = Vec::new(alloc);
    if text.is_empty() {
        return Ok(items);
    }
    let mut rest = text;
    while let Some((word, after)) = cut_at_first(rest, ' ') {
        items.push(read_attribute(alloc, word)?)?;
        rest = after;
    }
    items.push(read_attribute(alloc, rest)?)?;
    Ok(items)
}

/// The attribute that a word writes.
fn read_attribute(alloc: Global, word: &str) -> Result<Attribute, TextError>
    ensures only { (attribute : Attribute) → IsAttribute attribute → word.now ≡ attribute_text attribute → Reads result attribute }
    ensures valid { IfOk result IsAttribute }
{
    let Some((kind, rest)) = cut_at_first(word, '/') else {
        return Err(TextError::BadText);
    };
    let Some((flags, value)) = cut_at_first(rest, '/') else {
        return Err(TextError::BadText);
    };
    let kind = read_u8(kind)?;
    let flags = read_octet(flags.as_bytes())?;
    let value = read_value(alloc, value)?;
    Ok(Attribute { kind, flags, value })
}

/// The value that digits write.
fn read_value(alloc: Global, text: &str) -> Result<AttributeValue, TextError>
    ensures only { (value : List ℕ) → length value < 2 ^ 16 → AreOctets value → text.now ≡ flat_map octet_text value → Reads result value }
    ensures size { IfOk result (λ value. length value < 2 ^ 16) }
    ensures octets { IfOk result AreOctets }
{
    let octets = read_octets(alloc, text.as_bytes())?;
    if octets.len() > MOST {
        return Err(TextError::BadText);
    }
    let value = AttributeValue::new(octets);
    let _octets = value.as_slice();
    Ok(value)
}
