//! All versions of a key, from parts that follow one another.

ghost use Rattle.std.specs.Prelude.{◌≡◌, ◌↔◌, ◌+◌, ◌≤◌, ℕ, List, None, IfOk, IfErr, Err, IsErrOf, min};
ghost use Rattle.once_store.specs.Readers.{capacity_of, reader_disk};
ghost use Rattle.page_tx.specs.Start.{Start};
ghost use Rattle.version_model.specs.Versions.{Version, IsRising};
ghost use Rattle.version_model.specs.Looks.{IsPart};
ghost use Rattle.version_model.specs.Entries.{versions_of};
ghost use Rattle.version_model.specs.Pages.{Store};
ghost use Rattle.tsb_walk.specs.AllVersions.{VersionsRefusal};
ghost use Rattle.tsb_walk.specs.Inside.{CachesInside};
ghost use Rattle.tsb_walk.specs.Knowing.{ReadsWell, AreKnown};
ghost use Rattle.tsb_walk.specs.Looked.{ReportsFrom};
ghost use Rattle.tsb_walk.specs.Refusals.{OnlyReads};
ghost use Rattle.tsb_walk.specs.Shown.{RepresentsShown, HasKey};

use crate::error::NodeError;
use crate::hist::hist_part;
use crate::looks::{KeyVersions, Parted};
use crate::page_looks::part;
use crate::page_place::PagePlace;
use disk_models::OnceDisk;
use once_store::ShelfReader;
use page_tx::Pages;
use route_model::Key;
use std::alloc::Global;
use tsb_node::stamp_fits;
use version_model::{Entry, Stamp};

// The versions of the key from the stamp on, before another stamp if one is returned with them; of current pages or of the past.
fn next_part<P: Pages, O: OnceDisk + Drop>(
    pages: &mut P,
    reader: &mut ShelfReader<O>,
    seen: &mut O::Seen,
    alloc: Global,
    root: &PagePlace,
    key: Key,
    from: Stamp,
) -> Result<KeyVersions, NodeError>
    requires has { HasKey root.now key }
    requires level { 1 ≤ root.now.level }
    ensures part { (start : Start) (shown : List (List ℕ)) → P.shows pages.old start shown → (s : Store) (all : List Version) → IsRising all → RepresentsShown shown s all root.now
        → ReadsWell O.OnceDisk reader.old seen.old → AreKnown (O.known seen.old) (O.block_count (reader_disk reader.old)) s.blocks
        → IfOk result (λ part. IsPart all key from (versions_of part.entries.items) part.reported) }
    ensures reads { (start : Start) (shown : List (List ℕ)) → P.shows pages.old start shown → (s : Store) (all : List Version) → IsRising all → RepresentsShown shown s all root.now
        → ReadsWell O.OnceDisk reader.old seen.old → AreKnown (O.known seen.old) (O.block_count (reader_disk reader.old)) s.blocks
        → ReadsWell O.OnceDisk reader.new seen.new }
    ensures blames { (start : Start) (shown : List (List ℕ)) → P.shows pages.old start shown → (s : Store) (all : List Version) → RepresentsShown shown s all root.now → (page : ℕ) → result ≡ Err (NodeError.BadNode page) → ⊥ }
    ensures never { (start : Start) (shown : List (List ℕ)) → P.shows pages.old start shown → (s : Store) (all : List Version) → IsRising all → RepresentsShown shown s all root.now
        → ReadsWell O.OnceDisk reader.old seen.old → AreKnown (O.known seen.old) (O.block_count (reader_disk reader.old)) s.blocks
        → (block : ℕ) → result ≡ Err (NodeError.Damaged block) → ⊥ }
    ensures inside { CachesInside O.OnceDisk reader.old → CachesInside O.OnceDisk reader.new }
    ensures reported { IfOk result (ReportsFrom from) }
    ensures refused { IfErr result (VersionsRefusal (P.down pages.old)) }
    ensures same { OnlyReads P.Pages pages.old pages.new (result ≡ Err NodeError.Fault) }
    ensures known { O.honest_seen (reader_disk reader.old) seen.old → O.known seen.new ≡ O.known seen.old }
    ensures disk { reader_disk reader.new ≡ reader_disk reader.old }
    ensures capacity { capacity_of reader.new ≡ capacity_of reader.old }
    ensures honest { O.honest_seen (reader_disk reader.old) seen.old ↔ O.honest_seen (reader_disk reader.old) seen.new }
    ensures quiet { (IsErrOf result NodeError.OnceFault → ⊥) → O.seen_fault_count seen.new ≡ O.seen_fault_count seen.old }
    ensures counted { IsErrOf result NodeError.OnceFault → O.seen_fault_count seen.new ≡ min (O.seen_fault_count seen.old + 1) 18446744073709551615 }
{
    stamp_fits(from);
    match part(pages, alloc, root, key, from)? {
        Parted::Here(part) => Ok(part),
        Parted::InBlock(place) => {
            let part = hist_part(reader, seen, alloc, &place, key, from)?;
            Ok(part)
        }
    }
}

/// All versions of the key, ends included, in the order of their stamps: those of the past part after part, then those of the
/// current leaf.
///
/// It is refused, and leaves the pages, as `next` does, and as `hist_next` is. Each part goes on from where the one before it ended, so
/// the lookup ends.
pub fn versions<P: Pages, O: OnceDisk + Drop>(
    pages: &mut P,
    reader: &mut ShelfReader<O>,
    seen: &mut O::Seen,
    alloc: Global,
    root: &PagePlace,
    key: Key,
) -> Result<Vec<Entry>, NodeError>
    requires has { HasKey root.now key }
    requires level { 1 ≤ root.now.level }
    ensures versions { (start : Start) (shown : List (List ℕ)) → P.shows pages.old start shown → (s : Store) (all : List Version) → IsRising all → RepresentsShown shown s all root.now
        → ReadsWell O.OnceDisk reader.old seen.old → AreKnown (O.known seen.old) (O.block_count (reader_disk reader.old)) s.blocks
        → IfOk result (λ entries. IsPart all key 0 (versions_of entries.items) None) }
    ensures reads { (start : Start) (shown : List (List ℕ)) → P.shows pages.old start shown → (s : Store) (all : List Version) → IsRising all → RepresentsShown shown s all root.now
        → ReadsWell O.OnceDisk reader.old seen.old → AreKnown (O.known seen.old) (O.block_count (reader_disk reader.old)) s.blocks
        → ReadsWell O.OnceDisk reader.new seen.new }
    ensures blames { (start : Start) (shown : List (List ℕ)) → P.shows pages.old start shown → (s : Store) (all : List Version) → RepresentsShown shown s all root.now → (page : ℕ) → result ≡ Err (NodeError.BadNode page) → ⊥ }
    ensures never { (start : Start) (shown : List (List ℕ)) → P.shows pages.old start shown → (s : Store) (all : List Version) → IsRising all → RepresentsShown shown s all root.now
        → ReadsWell O.OnceDisk reader.old seen.old → AreKnown (O.known seen.old) (O.block_count (reader_disk reader.old)) s.blocks
        → (block : ℕ) → result ≡ Err (NodeError.Damaged block) → ⊥ }
    ensures inside { CachesInside O.OnceDisk reader.old → CachesInside O.OnceDisk reader.new }
    ensures refused { IfErr result (VersionsRefusal (P.down pages.old)) }
    ensures same { OnlyReads P.Pages pages.old pages.new (result ≡ Err NodeError.Fault) }
    ensures known { O.honest_seen (reader_disk reader.old) seen.old → O.known seen.new ≡ O.known seen.old }
    ensures disk { reader_disk reader.new ≡ reader_disk reader.old }
    ensures capacity { capacity_of reader.new ≡ capacity_of reader.old }
    ensures honest { O.honest_seen (reader_disk reader.old) seen.old ↔ O.honest_seen (reader_disk reader.old) seen.new }
    ensures quiet { (IsErrOf result NodeError.OnceFault → ⊥) → O.seen_fault_count seen.new ≡ O.seen_fault_count seen.old }
    ensures counted { IsErrOf result NodeError.OnceFault → O.seen_fault_count seen.new ≡ min (O.seen_fault_count seen.old + 1) 18446744073709551615 }
{
    let mut all = Vec::new(alloc);
    let mut from = Stamp::new(0, 0);
    loop {
        stamp_fits(from);
        let mut part = next_part(pages, reader, seen, alloc, root, key, from)?;
        all.append(&mut part.entries)?;
        match part.reported {
            Some(reported) => from = reported,
            None => return Ok(all),
        }
    }
}
