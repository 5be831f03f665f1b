//! Copies of entries.

ghost use Rattle.std.specs.Prelude.{◌≡◌, ◌<◌, ◌↔◌, IsTrue, IfOk, filter};
ghost use Rattle.version_model.specs.Entries.{versions_of};
ghost use Rattle.version_model.specs.Ranges.{end_or};
ghost use Rattle.version_model.specs.Looks.{is_of};

use crate::entry::Entry;
use crate::stamp::Stamp;
use route_model::Key;
use std::alloc::{AllocError, Global};

/// Copies of all entries.
pub fn copies(alloc: Global, entries: &[Entry]) -> Result<Vec<Entry>, AllocError>
    ensures { IfOk result (λ kept. versions_of kept.items ≡ versions_of entries.now) }
{
    let mut kept = Vec::new(alloc);
    for entry in entries {
        kept.push(entry.copy()?)?;
    }
    Ok(kept)
}

// Is the stamp before the end, if there is one?
fn is_before_end(stamp: Stamp, end: Option<Stamp>) -> bool
    ensures { IsTrue result ↔ (stamp < end_or end) }
{
    match end {
        Some(end) => stamp < end,
        None => true,
    }
}

/// Copies of the entries of the key from a stamp on and before the end.
pub fn copies_of(
    alloc: Global,
    entries: &[Entry],
    key: Key,
    from: Stamp,
    end: Option<Stamp>,
) -> Result<Vec<Entry>, AllocError>
    ensures { IfOk result (λ kept. versions_of kept.items ≡ filter (is_of key from (end_or end)) (versions_of entries.now)) }
{
    let mut kept = Vec::new(alloc);
    for entry in entries {
        if entry.key == key && entry.stamp >= from && is_before_end(entry.stamp, end) {
            kept.push(entry.copy()?)?;
        }
    }
    Ok(kept)
}
