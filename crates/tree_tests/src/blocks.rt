//! Lookups in the past, by a place in a block.

ghost use Rattle.version_model.specs.Ranges.{IsPoint, range_of};

use crate::answers::{
    Answer, NOTHING, block_refusal, found, reached, set, set_place, set_stamp, set_versions,
};
use disk_memory::{MemOnce, MemSeen};
use once_store::{Shelf, ShelfReader};
use route_model::Key;
use std::alloc::Global;
use tsb_walk::{KeyVersions, hist_find, hist_next, hist_part};
use version_model::{Place, Stamp};

/// A reader of the blocks of a shelf, and what is seen of them.
#[derive(Drop)]
pub(crate) struct Blocks {
    alloc: Global,
    pub(crate) reader: ShelfReader<MemOnce>,
    pub(crate) seen: MemSeen,
}

impl Blocks {
    /// The blocks that a shelf has now, by a reader that keeps `kept` of them.
    pub(crate) fn of(alloc: Global, shelf: &mut Shelf<MemOnce>, kept: usize) -> Option<Blocks> {
        if kept == 0 || kept > 1_024 {
            return None;
        }
        let seen = shelf.seen().ok()?;
        let reader = shelf.reader(alloc, kept).ok()?;
        Some(Blocks {
            alloc,
            reader,
            seen,
        })
    }

    /// What a key has as of a stamp.
    pub(crate) fn value(&mut self, place: &Place, key: Key, stamp: Stamp) -> Answer
        requires point { IsPoint (range_of place.now.bounds) key stamp }
    {
        match hist_find(
            &mut self.reader,
            &mut self.seen,
            self.alloc,
            place,
            key,
            stamp,
        ) {
            Ok(it) => {
                let mut answer = found(key, &it);
                set(&mut answer, 2, place.part.block);
                answer
            }
            Err(error) => block_refusal(&error),
        }
    }

    /// The next key from one on that has a value as of a stamp.
    pub(crate) fn next(&mut self, place: &Place, from: Key, stamp: Stamp) -> Answer
        requires point { IsPoint (range_of place.now.bounds) from stamp }
    {
        match hist_next(
            &mut self.reader,
            &mut self.seen,
            self.alloc,
            place,
            from,
            stamp,
        ) {
            Ok(it) => {
                let mut answer = reached(&it);
                set_place(&mut answer, place);
                answer
            }
            Err(error) => block_refusal(&error),
        }
    }

    /// The first part of the versions of a key from a stamp on.
    pub(crate) fn versions(
        &mut self,
        place: &Place,
        key: Key,
        from: Stamp,
    ) -> Result<KeyVersions, Answer>
        requires point { IsPoint (range_of place.now.bounds) key from }
    {
        match hist_part(
            &mut self.reader,
            &mut self.seen,
            self.alloc,
            place,
            key,
            from,
        ) {
            Ok(part) => Ok(part),
            Err(error) => Err(block_refusal(&error)),
        }
    }

    /// The same as an answer.
    pub(crate) fn part(&mut self, place: &Place, key: Key, from: Stamp) -> Answer
        requires point { IsPoint (range_of place.now.bounds) key from }
    {
        match self.versions(place, key, from) {
            Ok(part) => {
                let mut answer = part_of(key, &part);
                set(&mut answer, 2, place.part.block);
                answer
            }
            Err(answer) => answer,
        }
    }
}

/// Versions of a key, and up to when they are all.
pub(crate) fn part_of(key: Key, part: &KeyVersions) -> Answer {
    let mut answer = NOTHING;
    if let Some(end) = part.reported {
        set_stamp(&mut answer, 5, end);
    }
    set_versions(&mut answer, key, &part.entries);
    answer
}
