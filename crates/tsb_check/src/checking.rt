//! The check of a tree from its root.

ghost use Rattle.std.specs.Prelude.{◌≡◌, ◌↔◌, ◌⊎◌, ◌<◌, ◌+◌, ◌++◌, ◌∷◌, [], ℕ, List, IfOk, OnOk, IfErr, Err, IsErrOf, length, min};
ghost use Rattle.once_store.specs.Readers.{capacity_of, reader_disk};
ghost use Rattle.page_tx.specs.Start.{Start};
ghost use Rattle.version_model.specs.Pages.{Store, TreeRepresents, all_keys};
ghost use Rattle.version_model.specs.Versions.{Version};
ghost use Rattle.tsb_walk.specs.AllVersions.{VersionsRefusal};
ghost use Rattle.tsb_walk.specs.Knowing.{ReadsWell, AreKnown};
ghost use Rattle.tsb_walk.specs.Refusals.{OnlyReads};
ghost use Rattle.tsb_walk.specs.Shown.{RepresentNodes, RepresentsShown, keys_at};
ghost use Rattle.tsb_check.specs.Counted.{reported};
ghost use Rattle.tsb_check.specs.inner.GoingUnder.{IsPlaceTaken, AreLeftBy, IsPlaceBad, IsTakenUsed, IsTakenUnused, IsPlaceDamaged, IsPlaceUnknown, page_weight};
ghost use Rattle.tsb_check.specs.InUse.{AreInUse, IsUnusedUnder, IsWithin};
ghost use Rattle.tsb_check.specs.Pages.{ReportsTree, IsBadUnder, IsUnknownUnder, IsDamagedUnder};

use crate::children::list_children;
use crate::column::count_column;
use crate::in_use::{InUse, check_page};
use crate::reading::children_at;
use disk_models::OnceDisk;
use once_store::ShelfReader;
use page_tx::Pages;
use std::alloc::Global;
use tsb_walk::{NodeError, PagePlace};

// Reads the page of a place: how many versions the column there has; of a key node none, and the places of its children are left.
fn take_place<P: Pages, O: OnceDisk + Drop>(
    pages: &mut P,
    reader: &mut ShelfReader<O>,
    seen: &mut O::Seen,
    alloc: Global,
    in_use: &InUse,
    left: &mut Vec<PagePlace>,
    place: &PagePlace,
) -> Result<u64, NodeError>
    ensures checked { (start : Start) (shown : List (List ℕ)) → P.shows pages.old start shown → ReadsWell O.OnceDisk reader.old seen.old
        → IfOk result (λ n. IsPlaceTaken shown (O.known seen.old) (O.block_count (reader_disk reader.old)) place.now left.old.items left.new.items n ⊎ IsPlaceUnknown shown (O.known seen.old) (O.block_count (reader_disk reader.old)) place.now) }
    ensures left { (start : Start) (shown : List (List ℕ)) → P.shows pages.old start shown → OnOk result (AreLeftBy shown place.now left.old.items left.new.items) }
    ensures bad { (start : Start) (shown : List (List ℕ)) → P.shows pages.old start shown → (page : ℕ) → result ≡ Err (NodeError.BadNode page) → IsPlaceBad shown place.now page ⊎ IsTakenUnused shown in_use.now place.now page }
    ensures used { (start : Start) (shown : List (List ℕ)) → P.shows pages.old start shown → OnOk result (IsTakenUsed shown in_use.now place.now) }
    ensures damaged { (start : Start) (shown : List (List ℕ)) → P.shows pages.old start shown → ReadsWell O.OnceDisk reader.old seen.old → (block : ℕ) → result ≡ Err (NodeError.Damaged block)
        → IsPlaceDamaged shown (O.known seen.old) (O.block_count (reader_disk reader.old)) place.now block ⊎ IsPlaceUnknown shown (O.known seen.old) (O.block_count (reader_disk reader.old)) place.now }
    ensures reads { (start : Start) (shown : List (List ℕ)) → P.shows pages.old start shown → ReadsWell O.OnceDisk reader.old seen.old
        → ReadsWell O.OnceDisk reader.new seen.new ⊎ IsPlaceUnknown shown (O.known seen.old) (O.block_count (reader_disk reader.old)) place.now }
    ensures falls { OnOk result (page_weight left.new.items < page_weight (left.old.items ++ place.now ∷ [])) }
    ensures refused { IfErr result (VersionsRefusal (P.down pages.old)) }
    ensures pages { OnlyReads P.Pages pages.old pages.new (result ≡ Err NodeError.Fault) }
    ensures same { O.honest_seen (reader_disk reader.old) seen.old → O.known seen.new ≡ O.known seen.old }
    ensures disk { reader_disk reader.new ≡ reader_disk reader.old }
    ensures capacity { capacity_of reader.new ≡ capacity_of reader.old }
    ensures honest { O.honest_seen (reader_disk reader.old) seen.old ↔ O.honest_seen (reader_disk reader.old) seen.new }
    ensures quiet { (IsErrOf result NodeError.OnceFault → ⊥) → O.seen_fault_count seen.new ≡ O.seen_fault_count seen.old }
    ensures counted { IsErrOf result NodeError.OnceFault → O.seen_fault_count seen.new ≡ min (O.seen_fault_count seen.old + 1) 18446744073709551615 }
{
    if place.level == 1 {
        let more = count_column(pages, reader, seen, alloc, in_use, place)?;
        return Ok(more);
    }
    let children = children_at(pages, alloc, place)?;
    check_page(in_use, place.page)?;
    let mut more = list_children(alloc, place, &children)?;
    left.append(&mut more)?;
    Ok(0)
}

/// How many versions a tree has at some places. Every page to which they lead is read, and every block of the past of each column, one
/// after another, with a stack of the places that are left.
///
/// The error names the first page or block that isn't what its place asks for; or, if a page or a block isn't in use, the page at fault
/// for it. A number above the greatest `u64` is returned as that one.
pub fn count_under<P: Pages, O: OnceDisk + Drop>(
    pages: &mut P,
    reader: &mut ShelfReader<O>,
    seen: &mut O::Seen,
    alloc: Global,
    in_use: &InUse,
    places: Vec<PagePlace>,
) -> Result<u64, NodeError>
    ensures checked { (start : Start) (shown : List (List ℕ)) → P.shows pages.old start shown → ReadsWell O.OnceDisk reader.old seen.old
        → IfOk result (λ n. ReportsTree shown (O.known seen.old) (O.block_count (reader_disk reader.old)) places.items n ⊎ IsUnknownUnder shown (O.known seen.old) (O.block_count (reader_disk reader.old)) places.items) }
    ensures bad { (start : Start) (shown : List (List ℕ)) → P.shows pages.old start shown → (page : ℕ) → result ≡ Err (NodeError.BadNode page) → IsBadUnder shown places.items page ⊎ IsUnusedUnder shown in_use.now places.items page }
    ensures used { (start : Start) (shown : List (List ℕ)) → P.shows pages.old start shown → OnOk result (AreInUse shown in_use.now places.items) }
    ensures damaged { (start : Start) (shown : List (List ℕ)) → P.shows pages.old start shown → ReadsWell O.OnceDisk reader.old seen.old → (block : ℕ) → result ≡ Err (NodeError.Damaged block)
        → IsDamagedUnder shown (O.known seen.old) (O.block_count (reader_disk reader.old)) places.items block ⊎ IsUnknownUnder shown (O.known seen.old) (O.block_count (reader_disk reader.old)) places.items }
    ensures refused { IfErr result (VersionsRefusal (P.down pages.old)) }
    ensures pages { OnlyReads P.Pages pages.old pages.new (result ≡ Err NodeError.Fault) }
    ensures same { O.honest_seen (reader_disk reader.old) seen.old → O.known seen.new ≡ O.known seen.old }
    ensures disk { reader_disk reader.new ≡ reader_disk reader.old }
    ensures capacity { capacity_of reader.new ≡ capacity_of reader.old }
    ensures honest { O.honest_seen (reader_disk reader.old) seen.old ↔ O.honest_seen (reader_disk reader.old) seen.new }
    ensures quiet { (IsErrOf result NodeError.OnceFault → ⊥) → O.seen_fault_count seen.new ≡ O.seen_fault_count seen.old }
    ensures counted { IsErrOf result NodeError.OnceFault → O.seen_fault_count seen.new ≡ min (O.seen_fault_count seen.old + 1) 18446744073709551615 }
{
    let mut left = places;
    let mut count = 0u64;
    while let Some(place) = left.pop() {
        let more = take_place(pages, reader, seen, alloc, in_use, &mut left, &place)?;
        count = count.saturating_add(more);
    }
    Ok(count)
}

/// Checks the tree with this root: every page and block that is reached from it represents what the one above asks for, and the result is the
/// number of the tree's versions, each counted once. The pages that are reached, and the blocks that their columns name, are in use.
///
/// The error names the first page or block that doesn't. If a column names a block that was never burnt, that is the column's page;
/// where else a page or a block isn't in use, it is the page with the record of what is. A number above the greatest `u64` is returned as
/// that one. Pages are only read.
pub fn check<P: Pages, O: OnceDisk + Drop>(
    pages: &mut P,
    reader: &mut ShelfReader<O>,
    seen: &mut O::Seen,
    alloc: Global,
    in_use: &InUse,
    root: &PagePlace,
) -> Result<u64, NodeError>
    ensures counted { (start : Start) (shown : List (List ℕ)) → P.shows pages.old start shown → (s : Store) (all : List Version) → RepresentNodes shown s.nodes → keys_at root.now ≡ all_keys → TreeRepresents s all root.now.page root.now.level
        → ReadsWell O.OnceDisk reader.old seen.old → AreKnown (O.known seen.old) (O.block_count (reader_disk reader.old)) s.blocks → IfOk result (λ n. n ≡ reported (length all)) }
    ensures blames { (start : Start) (shown : List (List ℕ)) → P.shows pages.old start shown → (s : Store) (all : List Version) → RepresentsShown shown s all root.now → IsWithin s in_use.now → (page : ℕ) → result ≡ Err (NodeError.BadNode page) → ⊥ }
    ensures never { (start : Start) (shown : List (List ℕ)) → P.shows pages.old start shown → (s : Store) (all : List Version) → RepresentsShown shown s all root.now
        → ReadsWell O.OnceDisk reader.old seen.old → AreKnown (O.known seen.old) (O.block_count (reader_disk reader.old)) s.blocks → (block : ℕ) → result ≡ Err (NodeError.Damaged block) → ⊥ }
    ensures checked { (start : Start) (shown : List (List ℕ)) → P.shows pages.old start shown → ReadsWell O.OnceDisk reader.old seen.old
        → IfOk result (λ n. ReportsTree shown (O.known seen.old) (O.block_count (reader_disk reader.old)) (root.now ∷ []) n ⊎ IsUnknownUnder shown (O.known seen.old) (O.block_count (reader_disk reader.old)) (root.now ∷ [])) }
    ensures bad { (start : Start) (shown : List (List ℕ)) → P.shows pages.old start shown → (page : ℕ) → result ≡ Err (NodeError.BadNode page) → IsBadUnder shown (root.now ∷ []) page ⊎ IsUnusedUnder shown in_use.now (root.now ∷ []) page }
    ensures used { (start : Start) (shown : List (List ℕ)) → P.shows pages.old start shown → OnOk result (AreInUse shown in_use.now (root.now ∷ [])) }
    ensures damaged { (start : Start) (shown : List (List ℕ)) → P.shows pages.old start shown → ReadsWell O.OnceDisk reader.old seen.old → (block : ℕ) → result ≡ Err (NodeError.Damaged block)
        → IsDamagedUnder shown (O.known seen.old) (O.block_count (reader_disk reader.old)) (root.now ∷ []) block ⊎ IsUnknownUnder shown (O.known seen.old) (O.block_count (reader_disk reader.old)) (root.now ∷ []) }
    ensures refused { IfErr result (VersionsRefusal (P.down pages.old)) }
    ensures pages { OnlyReads P.Pages pages.old pages.new (result ≡ Err NodeError.Fault) }
    ensures same { O.honest_seen (reader_disk reader.old) seen.old → O.known seen.new ≡ O.known seen.old }
    ensures disk { reader_disk reader.new ≡ reader_disk reader.old }
    ensures capacity { capacity_of reader.new ≡ capacity_of reader.old }
    ensures honest { O.honest_seen (reader_disk reader.old) seen.old ↔ O.honest_seen (reader_disk reader.old) seen.new }
    ensures quiet { (IsErrOf result NodeError.OnceFault → ⊥) → O.seen_fault_count seen.new ≡ O.seen_fault_count seen.old }
    ensures once { IsErrOf result NodeError.OnceFault → O.seen_fault_count seen.new ≡ min (O.seen_fault_count seen.old + 1) 18446744073709551615 }
{
    let places = [*root].to_vec(alloc)?;
    count_under(pages, reader, seen, alloc, in_use, places)
}
