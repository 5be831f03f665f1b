//! Looks that begin at current pages, and go on in no block that was never burnt.

ghost use Rattle.std.specs.Prelude.{◌≡◌, ◌<◌, ◌≤◌, ℕ, List, IfOk, OnOk, IfErr, Err};
ghost use Rattle.page_tx.specs.Start.{Start};
ghost use Rattle.version_model.specs.Pages.{Store};
ghost use Rattle.version_model.specs.Versions.{Version, IsRising};
ghost use Rattle.tsb_walk.specs.Looked.{IsLooked, IsParted, LooksAt, LooksBelow, LooksOn, PartsAt, PartsBelow, ReportsAll};
ghost use Rattle.tsb_walk.specs.Refusals.{LookRefusal, OnlyReads, WalkRefusal};
ghost use Rattle.tsb_walk.specs.Shown.{HasKey, RepresentsShown};
ghost use Rattle.tsb_walk.specs.inner.ColumnSpots.{IsThere};
ghost use Rattle.tsb_walk.specs.inner.PageSteps.{HasPoint};
ghost use Rattle.tree_questions.specs.inner.Named.{IsSpotBelow};

use page_tx::Pages;
use route_model::Key;
use std::alloc::Global;
use tsb_walk::{
    ColumnAt, ColumnSpot, Looked, NodeError, PagePlace, Parted, column_at, locate, next, part,
};
use version_model::{Place, Stamp};

// That a place in the past of a key's column lies in a block below `burnt`. The page of a column that names another is reported as bad.
fn check_named<P: Pages>(
    pages: &mut P,
    root: &PagePlace,
    burnt: u64,
    key: Key,
    place: &Place,
) -> Result<(), NodeError>
    requires has { HasKey root.now key }
    requires level { 1 ≤ root.now.level }
    ensures named { OnOk result (place.now.part.block < burnt) }
    ensures bad { (page : ℕ) → result ≡ Err (NodeError.BadNode page) → burnt ≤ place.now.part.block }
    ensures refused { IfErr result (LookRefusal (P.down pages.old)) }
    ensures same { OnlyReads P.Pages pages.old pages.new (result ≡ Err NodeError.Fault) }
{
    if place.part.block < burnt {
        return Ok(());
    }
    let column = locate(pages, root, key)?;
    Err(NodeError::BadNode(column.page))
}

/// Looks for the next key as `tsb_walk::next` does. If that leads into the past, the block there is below `burnt`, the first that
/// was never burnt. The page of a column that names another is reported as bad.
pub(crate) fn next_named<P: Pages>(
    pages: &mut P,
    alloc: Global,
    root: &PagePlace,
    burnt: u64,
    from: Key,
    stamp: Stamp,
) -> Result<Looked, NodeError>
    requires has { HasKey root.now from }
    requires level { 1 ≤ root.now.level }
    ensures next { (start : Start) (shown : List (List ℕ)) → P.shows pages.old start shown → (s : Store) (all : List Version) → RepresentsShown shown s all root.now → IfOk result (IsLooked s.blocks all from stamp) }
    ensures named { IfOk result (LooksBelow burnt) }
    ensures blames { (start : Start) (shown : List (List ℕ)) → P.shows pages.old start shown → (s : Store) (all : List Version) → RepresentsShown shown s all root.now → s.next ≤ burnt → (page : ℕ) → result ≡ Err (NodeError.BadNode page) → ⊥ }
    ensures point { IfOk result (LooksAt from stamp) }
    ensures onward { IfOk result (LooksOn from) }
    ensures refused { IfErr result (LookRefusal (P.down pages.old)) }
    ensures same { OnlyReads P.Pages pages.old pages.new (result ≡ Err NodeError.Fault) }
{
    let looked = next(pages, alloc, root, from, stamp)?;
    if let Looked::InBlock(place) = &looked {
        check_named(pages, root, burnt, from, place)?;
    }
    Ok(looked)
}

/// Looks for versions as `tsb_walk::part` does, and judges the block of a place in the past as `next_named` does.
pub(crate) fn part_named<P: Pages>(
    pages: &mut P,
    alloc: Global,
    root: &PagePlace,
    burnt: u64,
    key: Key,
    from: Stamp,
) -> Result<Parted, NodeError>
    requires has { HasKey root.now key }
    requires level { 1 ≤ root.now.level }
    ensures part { (start : Start) (shown : List (List ℕ)) → P.shows pages.old start shown → (s : Store) (all : List Version) → IsRising all → RepresentsShown shown s all root.now → IfOk result (IsParted s.blocks all key from) }
    ensures named { IfOk result (PartsBelow burnt) }
    ensures blames { (start : Start) (shown : List (List ℕ)) → P.shows pages.old start shown → (s : Store) (all : List Version) → RepresentsShown shown s all root.now → s.next ≤ burnt → (page : ℕ) → result ≡ Err (NodeError.BadNode page) → ⊥ }
    ensures point { IfOk result (PartsAt key from) }
    ensures reported { IfOk result ReportsAll }
    ensures refused { IfErr result (LookRefusal (P.down pages.old)) }
    ensures same { OnlyReads P.Pages pages.old pages.new (result ≡ Err NodeError.Fault) }
{
    let parted = part(pages, alloc, root, key, from)?;
    if let Parted::InBlock(place) = &parted {
        check_named(pages, root, burnt, key, place)?;
    }
    Ok(parted)
}

/// Finds the column of a key as `tsb_walk::column_at` does, and judges the block of a place in its past as `next_named` does.
pub(crate) fn column_named<P: Pages>(
    pages: &mut P,
    root: &PagePlace,
    burnt: u64,
    key: Key,
    stamp: Stamp,
) -> Result<ColumnAt, NodeError>
    requires has { HasKey root.now key }
    requires level { 1 ≤ root.now.level }
    ensures there { (start : Start) (shown : List (List ℕ)) → P.shows pages.old start shown → IfOk result (IsThere shown root.now key stamp) }
    ensures has { IfOk result (λ at. HasKey at.column key) }
    ensures point { IfOk result (λ at. HasPoint key stamp at.spot) }
    ensures named { IfOk result (λ at. IsSpotBelow burnt at.spot) }
    ensures blames { (start : Start) (shown : List (List ℕ)) → P.shows pages.old start shown → (s : Store) (all : List Version) → RepresentsShown shown s all root.now → s.next ≤ burnt → (page : ℕ) → result ≡ Err (NodeError.BadNode page) → ⊥ }
    ensures refused { IfErr result (WalkRefusal (P.down pages.old)) }
    ensures same { OnlyReads P.Pages pages.old pages.new (result ≡ Err NodeError.Fault) }
{
    let at = column_at(pages, root, key, stamp)?;
    if let ColumnSpot::InPast(place) = &at.spot {
        if place.part.block >= burnt {
            return Err(NodeError::BadNode(at.column.page));
        }
    }
    Ok(at)
}
