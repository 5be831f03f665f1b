//! Which keys have a version in a span of stamps, by a column's current leaf and by the leaves of its past.

ghost use Rattle.std.specs.Prelude.{◌≡◌, ◌<◌, ◌≤◌, ◌↔◌, ◌+◌, ℕ, List, None, IfOk, IfErr, OnOk, IsErrOf, IsTrue, Err, min};
ghost use Rattle.page_tx.specs.Start.{Start};
ghost use Rattle.once_store.specs.Readers.{capacity_of, reader_disk};
ghost use Rattle.version_model.specs.Pages.{CurrentLeaf, all_keys, current_range};
ghost use Rattle.version_model.specs.Ranges.{IsPoint, high_or, range_of};
ghost use Rattle.version_model.specs.LeafVersions.{LeafRepresents};
ghost use Rattle.version_model.specs.Versions.{Version};
ghost use Rattle.tsb_node.specs.Views.{PageRepresents};
ghost use Rattle.tsb_walk.specs.AllVersions.{VersionsRefusal};
ghost use Rattle.tsb_walk.specs.Inside.{CachesInside};
ghost use Rattle.tsb_walk.specs.Knowing.{ReadsWell, RepresentsKnown};
ghost use Rattle.tsb_walk.specs.PageWays.{IsNoLeaf};
ghost use Rattle.tsb_walk.specs.Refusals.{LookRefusal, OnlyReads};
ghost use Rattle.tsb_walk.specs.Shown.{HasKey, RepresentsNode, keys_at};
ghost use Rattle.tsb_walk.specs.Touched.{AreTouched};
ghost use Rattle.route_history.specs.Blame.{BlamesNone};
ghost use Rattle.tree_questions.specs.Reading.{ReadsTree};
ghost use Rattle.tree_questions.specs.inner.Gathered.{HasGathered};

use crate::naming::column_named;
use crate::touching::{Gathering, TouchedKeys};
use disk_models::{OnceDisk, Page};
use once_store::{BlockError, ShelfReader};
use page_tx::Pages;
use route_model::Key;
use std::alloc::Global;
use tsb_node::{Current, ReadFault, key_fits, stamp_fits};
use tsb_walk::{
    ColumnSpot, NodeError, PagePlace, block_refusal, bring, is_current_leaf, leaf_place,
    leaf_refusal,
};
use version_model::{Place, Stamp};

// Takes in the page of a column's current leaf. Refused as no node only if the page isn't that leaf, and not always then.
fn take_page(
    alloc: Global,
    page: &Page,
    column: &PagePlace,
    leaf: &Current,
    until: Stamp,
    gathering: &mut Gathering,
) -> Result<(), ReadFault>
    ensures gathered { (all versions : List Version) (first : ℕ) → PageRepresents page.now (CurrentLeaf (keys_at column.now) leaf.now.start versions) → LeafRepresents all (current_range (keys_at column.now) leaf.now.start) versions
        → IsPoint (current_range (keys_at column.now) leaf.now.start) gathering.old.from gathering.old.at → first ≤ gathering.old.at → gathering.old.at ≤ until → HasGathered all first gathering.old → OnOk result (HasGathered all first gathering.new) }
    ensures inside { OnOk result (gathering.old.from < high_or gathering.old.high → gathering.old.from < high_or column.now.high → gathering.old.from < high_or gathering.new.high) }
    ensures onward { OnOk result (gathering.old.at < until → gathering.old.at < gathering.new.at) }
    ensures upto { OnOk result (gathering.new.at ≤ until) }
    ensures from { gathering.new.from ≡ gathering.old.from }
    ensures none { result ≡ Err ReadFault.NotANode → (versions : List Version) → PageRepresents page.now (CurrentLeaf (keys_at column.now) leaf.now.start versions) → ⊥ }
{
    stamp_fits(gathering.at);
    if !is_current_leaf(page, column, leaf.start) {
        return Err(ReadFault::NotANode);
    }
    gathering.take_leaf(alloc, page.octets(), column.high, None, until)
}

// Takes in the current leaf of a column.
fn take_current<P: Pages>(
    pages: &mut P,
    alloc: Global,
    column: &PagePlace,
    leaf: &Current,
    until: Stamp,
    gathering: &mut Gathering,
) -> Result<(), NodeError>
    ensures gathered { (start : Start) (shown : List (List ℕ)) → P.shows pages.old start shown → (all versions : List Version) (first : ℕ) → RepresentsNode shown leaf.now.page (CurrentLeaf (keys_at column.now) leaf.now.start versions) → LeafRepresents all (current_range (keys_at column.now) leaf.now.start) versions
        → IsPoint (current_range (keys_at column.now) leaf.now.start) gathering.old.from gathering.old.at → first ≤ gathering.old.at → gathering.old.at ≤ until → HasGathered all first gathering.old → OnOk result (HasGathered all first gathering.new) }
    ensures inside { OnOk result (gathering.old.from < high_or gathering.old.high → gathering.old.from < high_or column.now.high → gathering.old.from < high_or gathering.new.high) }
    ensures onward { OnOk result (gathering.old.at < until → gathering.old.at < gathering.new.at) }
    ensures upto { OnOk result (gathering.new.at ≤ until) }
    ensures from { gathering.new.from ≡ gathering.old.from }
    ensures bad { (start : Start) (shown : List (List ℕ)) → P.shows pages.old start shown → (page : ℕ) → result ≡ Err (NodeError.BadNode page) → IsNoLeaf shown column.now leaf.now.start leaf.now.page }
    ensures refused { IfErr result (LookRefusal (P.down pages.old)) }
    ensures same { OnlyReads P.Pages pages.old pages.new (result ≡ Err NodeError.Fault) }
{
    bring(pages, leaf.page)?;
    let Some(page) = pages.page(leaf.page) else {
        unreachable!();
    };
    match take_page(alloc, page, column, leaf, until, gathering) {
        Ok(()) => Ok(()),
        Err(fault) => Err(leaf_refusal(fault, leaf.page)),
    }
}

// Takes in the leaf of a column's past in which the gathering stands.
fn take_past<O: OnceDisk + Drop>(
    reader: &mut ShelfReader<O>,
    seen: &mut O::Seen,
    alloc: Global,
    place: &Place,
    until: Stamp,
    gathering: &mut Gathering,
) -> Result<(), BlockError>
    requires point { IsPoint (range_of place.now.bounds) gathering.old.from gathering.old.at }
    ensures gathered { (all : List Version) (first : ℕ) → RepresentsKnown O.OnceDisk reader.old seen.old all place.now → first ≤ gathering.old.at → gathering.old.at ≤ until → HasGathered all first gathering.old → OnOk result (HasGathered all first gathering.new) }
    ensures inside { OnOk result (gathering.old.from < high_or gathering.old.high → gathering.old.from < high_or gathering.new.high) }
    ensures onward { OnOk result (gathering.old.at < until → gathering.old.at < gathering.new.at) }
    ensures upto { OnOk result (gathering.new.at ≤ until) }
    ensures from { gathering.new.from ≡ gathering.old.from }
    ensures reads { (all : List Version) → RepresentsKnown O.OnceDisk reader.old seen.old all place.now → ReadsWell O.OnceDisk reader.new seen.new }
    ensures never { (all : List Version) → RepresentsKnown O.OnceDisk reader.old seen.old all place.now → (block : ℕ) → result ≡ Err (BlockError.Damaged block) → ⊥ }
    ensures on_disk { CachesInside O.OnceDisk reader.old → CachesInside O.OnceDisk reader.new }
    ensures known { O.honest_seen (reader_disk reader.old) seen.old → O.known seen.new ≡ O.known seen.old }
    ensures disk { reader_disk reader.new ≡ reader_disk reader.old }
    ensures capacity { capacity_of reader.new ≡ capacity_of reader.old }
    ensures honest { O.honest_seen (reader_disk reader.old) seen.old ↔ O.honest_seen (reader_disk reader.old) seen.new }
    ensures quiet { (IsErrOf result BlockError.Fault → ⊥) → O.seen_fault_count seen.new ≡ O.seen_fault_count seen.old }
    ensures counted { IsErrOf result BlockError.Fault → O.seen_fault_count seen.new ≡ min (O.seen_fault_count seen.old + 1) 18446744073709551615 }
{
    let last = leaf_place(reader, seen, place, gathering.from, gathering.at)?;
    let number = last.part.block;
    let Some(block) = reader.block(number) else {
        return Err(BlockError::Damaged(number));
    };
    let bounds = last.bounds;
    match gathering.take_leaf(alloc, block.octets(), bounds.high, bounds.end, until) {
        Ok(()) => Ok(()),
        Err(fault) => Err(block_refusal(fault, number)),
    }
}

// Takes in the leaf in which the gathering stands, so that it stands at the leaf's end, or at `until` if that is before.
fn take_part<P: Pages, O: OnceDisk + Drop>(
    pages: &mut P,
    reader: &mut ShelfReader<O>,
    seen: &mut O::Seen,
    alloc: Global,
    root: &PagePlace,
    burnt: u64,
    until: Stamp,
    gathering: &mut Gathering,
) -> Result<(), NodeError>
    requires all { keys_at root.now ≡ all_keys }
    requires level { 1 ≤ root.now.level }
    ensures gathered { (all : List Version) (first : ℕ) → ReadsTree P.Pages pages.old O.OnceDisk reader.old seen.old root.now burnt all → first ≤ gathering.old.at → gathering.old.at ≤ until → HasGathered all first gathering.old → OnOk result (HasGathered all first gathering.new) }
    ensures inside { OnOk result (gathering.old.from < high_or gathering.old.high → gathering.old.from < high_or gathering.new.high) }
    ensures onward { OnOk result (gathering.old.at < until → gathering.old.at < gathering.new.at) }
    ensures upto { OnOk result (gathering.new.at ≤ until) }
    ensures from { gathering.new.from ≡ gathering.old.from }
    ensures stays { (all : List Version) → ReadsTree P.Pages pages.old O.OnceDisk reader.old seen.old root.now burnt all → ReadsTree P.Pages pages.new O.OnceDisk reader.new seen.new root.now burnt all }
    ensures blames { (all : List Version) → ReadsTree P.Pages pages.old O.OnceDisk reader.old seen.old root.now burnt all → IfErr result BlamesNone }
    ensures refused { IfErr result (VersionsRefusal (P.down pages.old)) }
    ensures same { OnlyReads P.Pages pages.old pages.new (result ≡ Err NodeError.Fault) }
    ensures on_disk { CachesInside O.OnceDisk reader.old → CachesInside O.OnceDisk reader.new }
    ensures known { O.honest_seen (reader_disk reader.old) seen.old → O.known seen.new ≡ O.known seen.old }
    ensures disk { reader_disk reader.new ≡ reader_disk reader.old }
    ensures capacity { capacity_of reader.new ≡ capacity_of reader.old }
    ensures honest { O.honest_seen (reader_disk reader.old) seen.old ↔ O.honest_seen (reader_disk reader.old) seen.new }
    ensures quiet { (IsErrOf result NodeError.OnceFault → ⊥) → O.seen_fault_count seen.new ≡ O.seen_fault_count seen.old }
    ensures counted { IsErrOf result NodeError.OnceFault → O.seen_fault_count seen.new ≡ min (O.seen_fault_count seen.old + 1) 18446744073709551615 }
{
    let from = gathering.from;
    let stamp = gathering.at;
    key_fits(from);
    stamp_fits(stamp);
    let at = column_named(pages, root, burnt, from, stamp)?;
    match &at.spot {
        ColumnSpot::InLeaf(leaf) => {
            take_current(pages, alloc, &at.column, leaf, until, gathering)?;
            Ok(())
        }
        ColumnSpot::InPast(place) => {
            take_past(reader, seen, alloc, place, until, gathering)?;
            Ok(())
        }
    }
}

// Whether a stamp is before another.
fn is_before(stamp: Stamp, end: Stamp) -> bool
    ensures { IsTrue result ↔ (stamp < end) }
{
    stamp < end
}

/// The keys from `from` on that have a version from the stamp `first` on and before `end`, up to a key above `from`: at most the keys of
/// the column that has it. An empty span has none, up to the end of all keys.
///
/// It reads the column's current leaf if the span goes on there, and each leaf of its past that the span meets. Pages and blocks are read,
/// and called damaged, and memory is taken, as `rows` does.
pub(crate) fn touched_keys<P: Pages, O: OnceDisk + Drop>(
    pages: &mut P,
    reader: &mut ShelfReader<O>,
    seen: &mut O::Seen,
    alloc: Global,
    root: &PagePlace,
    burnt: u64,
    from: Key,
    first: Stamp,
    end: Stamp,
) -> Result<TouchedKeys, NodeError>
    requires all { keys_at root.now ≡ all_keys }
    requires level { 1 ≤ root.now.level }
    ensures keys { (all : List Version) → ReadsTree P.Pages pages.old O.OnceDisk reader.old seen.old root.now burnt all → IfOk result (λ touched. AreTouched all first end from (high_or touched.high) touched.keys.items) }
    ensures onward { IfOk result (λ touched. from < high_or touched.high) }
    ensures stays { (all : List Version) → ReadsTree P.Pages pages.old O.OnceDisk reader.old seen.old root.now burnt all → ReadsTree P.Pages pages.new O.OnceDisk reader.new seen.new root.now burnt all }
    ensures blames { (all : List Version) → ReadsTree P.Pages pages.old O.OnceDisk reader.old seen.old root.now burnt all → IfErr result BlamesNone }
    ensures refused { IfErr result (VersionsRefusal (P.down pages.old)) }
    ensures same { OnlyReads P.Pages pages.old pages.new (result ≡ Err NodeError.Fault) }
    ensures on_disk { CachesInside O.OnceDisk reader.old → CachesInside O.OnceDisk reader.new }
    ensures known { O.honest_seen (reader_disk reader.old) seen.old → O.known seen.new ≡ O.known seen.old }
    ensures disk { reader_disk reader.new ≡ reader_disk reader.old }
    ensures capacity { capacity_of reader.new ≡ capacity_of reader.old }
    ensures honest { O.honest_seen (reader_disk reader.old) seen.old ↔ O.honest_seen (reader_disk reader.old) seen.new }
    ensures quiet { (IsErrOf result NodeError.OnceFault → ⊥) → O.seen_fault_count seen.new ≡ O.seen_fault_count seen.old }
    ensures counted { IsErrOf result NodeError.OnceFault → O.seen_fault_count seen.new ≡ min (O.seen_fault_count seen.old + 1) 18446744073709551615 }
{
    key_fits(from);
    let mut gathering = Gathering::new(alloc, from, first);
    'parts: while is_before(gathering.at, end) {
        take_part(pages, reader, seen, alloc, root, burnt, end, &mut gathering)?;
    }
    let touched = gathering.into_keys(alloc)?;
    Ok(touched)
}
