//! The entries of a leaf.

ghost use Rattle.std.specs.Prelude.{◌≡◌, ◌<◌, ◌^◌, IfOk, option_map};
ghost use Rattle.version_model.specs.Entries.{version_of};
ghost use Rattle.version_model.specs.Sizes.{entry_octets, value_octets as octets_of_value};

use crate::stamp::Stamp;
use route_model::Key;
use std::alloc::AllocError;

/// What a key has from a stamp on: a value, or none any more.
#[derive(Debug, Drop)]
pub struct Entry {
    pub key: Key,
    pub stamp: Stamp,
    pub value: Option<Vec<u8>>,
}

impl Entry {
    /// How many octets it takes in a leaf.
    pub fn octets(&self) -> u64
        requires fits { entry_octets (version_of self.now) < 2 ^ 32 }
        ensures octets { result ≡ entry_octets (version_of self.now) }
    {
        59 + value_octets(&self.value)
    }

    /// The same entry.
    pub fn copy(&self) -> Result<Entry, AllocError>
        ensures same { IfOk result (λ copy. version_of copy ≡ version_of self.now) }
    {
        let value = match &self.value {
            Some(value) => Some(value.clone()?),
            None => None,
        };
        Ok(Entry {
            key: self.key,
            stamp: self.stamp,
            value,
        })
    }
}

/// How many octets a value has; an end has none.
pub fn value_octets(value: &Option<Vec<u8>>) -> u64
    ensures octets { result ≡ octets_of_value (option_map (λ v. v.items) value.now) }
{
    match value {
        Some(value) => value.len() as u64,
        None => 0,
    }
}
