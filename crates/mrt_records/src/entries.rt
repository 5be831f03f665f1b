//! The entries of a RIB record.

ghost use Rattle.std.specs.Prelude.{◌≡◌, ◌+◌, ◌≤◌, length, slice_get, Option, Some, None, IsTrue, ◌↔◌};
ghost use Rattle.mrt_records.specs.Entries.{Entry};
ghost use Rattle.mrt_records.specs.Shown.{shown};

use std::marker::Model;

/// Where the attributes of an entry are.
#[derive(Clone, Copy, Debug)]
pub(crate) struct Place {
    pub(crate) peer_index: u16,
    pub(crate) size: u16,
    pub(crate) start: u32,
}

/// An entry of a RIB record (RFC 6396 section 4.3.4).
#[derive(Clone, Copy, Debug)]
pub struct RibEntry<'a> {
    /// The place of the peer in the feed's peer table, from 0.
    pub peer_index: u16,
    /// The path attributes, with AS numbers of four octets.
    pub attributes: &'a [u8],
}

/// The entries of a RIB record, in the order of the record.
#[derive(Debug, Drop)]
pub struct RibEntries {
    octets: Vec<u8>,
    places: Vec<Place>,
}

impl Model for RibEntries {
    ghost use Rattle.std.specs.Prelude.{List};
    ghost use Rattle.mrt_records.specs.Entries.{Entry};
    ghost use Rattle.mrt_records.specs.Places.{entries_in, AreWithin};

    ghost Value = { List Entry };

    ghost view = { λ a. entries_in a.octets.items a.places.items };

    ghost invariant = { λ a. AreWithin a.octets.items a.places.items };
}

impl RibEntries {
    ghost use Rattle.mrt_records.specs.Places.{entries_in, AreWithin};

    /// The entries at these places in the octets.
    pub(crate) fn new(octets: Vec<u8>, places: Vec<Place>) -> RibEntries
        requires { AreWithin octets.items places.items }
        ensures { result ≡ entries_in octets.items places.items }
    {
        RibEntries { octets, places }
    }

    /// How many entries there are.
    pub fn len(&self) -> usize
        ensures count { result ≡ length self.now }
    {
        self.places.len()
    }

    /// Whether there is no entry.
    pub fn is_empty(&self) -> bool
        ensures none { IsTrue result ↔ length self.now ≡ 0 }
    {
        self.places.is_empty()
    }

    /// The entry at this place, from 0, or none.
    pub fn get(&self, index: usize) -> Option<RibEntry<'_>>
        ensures entry { shown result ≡ slice_get self.now index }
    {
        let place = self.places.get(index)?;
        let start = place.start as usize;
        let attributes = &self.octets[start..start + place.size as usize];
        Some(RibEntry {
            peer_index: place.peer_index,
            attributes,
        })
    }
}
