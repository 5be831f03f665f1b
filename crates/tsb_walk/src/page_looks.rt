//! Lookups that begin at current pages. Those in the past return the place in settled blocks where they go on.

ghost use Rattle.std.specs.Prelude.{◌≡◌, ◌<◌, ◌≤◌, ℕ, Bool, List, None, IfOk, IfErr, Err, filter};
ghost use Rattle.page_tx.specs.Start.{Start};
ghost use Rattle.version_model.specs.Versions.{Version, Answers, IsRising};
ghost use Rattle.version_model.specs.Ranges.{high_or, stamp_end};
ghost use Rattle.version_model.specs.Looks.{IsReached, is_of};
ghost use Rattle.version_model.specs.Entries.{versions_of};
ghost use Rattle.version_model.specs.Pages.{Store, CurrentLeaf};
ghost use Rattle.tsb_walk.specs.Answers.{found_as, reached_as};
ghost use Rattle.tsb_walk.specs.Borders.{ReachesTo};
ghost use Rattle.tsb_walk.specs.Looked.{IsLooked, IsParted, IsDescended, GoesOnFrom, LooksOn, LooksAt, LooksBelow, PartsAt, PartsBelow, DescendsAt, DescendsBelow, ReportsAll};
ghost use Rattle.tsb_walk.specs.Shown.{RepresentsNode, RepresentsShown, keys_at, HasKey};
ghost use Rattle.tsb_walk.specs.PageWays.{IsNoColumn, IsNoLeaf};
ghost use Rattle.tsb_walk.specs.PageLooks.{IsBadLook};
ghost use Rattle.tsb_walk.specs.Refusals.{OnlyReads, WalkRefusal, LookRefusal};
ghost use Rattle.tsb_walk.specs.inner.ColumnSpots.{IsSpotAt, IsThere};
ghost use Rattle.tsb_walk.specs.inner.PageSteps.{HasPoint};

use crate::error::NodeError;
use crate::leaf_looks::{found_on, part_on, reached_on};
use crate::locating::{bring, locate};
use crate::looks::{Descended, Found, KeyVersions, Looked, Parted, Reached};
use crate::page_place::PagePlace;
use crate::page_steps::{ColumnSpot, spot_in};
use page_tx::Pages;
use route_model::Key;
use std::alloc::Global;
use tsb_node::{Current, ReadFault, stamp_fits};
use version_model::Stamp;

/// The column to which the path of a key comes, and where it has the key at a stamp.
#[derive(Clone, Copy, Debug)]
pub struct ColumnAt {
    pub column: PagePlace,
    pub spot: ColumnSpot,
}

// Where a column has its versions at a stamp.
fn spot_at<P: Pages>(
    pages: &mut P,
    column: &PagePlace,
    key: Key,
    stamp: Stamp,
) -> Result<ColumnSpot, NodeError>
    requires has { HasKey column.now key }
    ensures spot { (start : Start) (shown : List (List ℕ)) → P.shows pages.old start shown → IfOk result (IsSpotAt shown column.now key stamp) }
    ensures point { IfOk result (HasPoint key stamp) }
    ensures bad { (start : Start) (shown : List (List ℕ)) → P.shows pages.old start shown → (page : ℕ) → result ≡ Err (NodeError.BadNode page) → (column.now.page ≡ page) × IsNoColumn shown column.now }
    ensures refused { IfErr result (WalkRefusal (P.down pages.old)) }
    ensures same { OnlyReads P.Pages pages.old pages.new (result ≡ Err NodeError.Fault) }
{
    bring(pages, column.page)?;
    let Some(page) = pages.page(column.page) else {
        unreachable!();
    };
    match spot_in(page, column, key, stamp) {
        Some(spot) => Ok(spot),
        None => Err(NodeError::BadNode(column.page)),
    }
}

/// The column that has a key, and where it has it at a stamp.
///
/// It is refused and leaves the pages as [`next`] does.
pub fn column_at<P: Pages>(
    pages: &mut P,
    root: &PagePlace,
    key: Key,
    stamp: Stamp,
) -> Result<ColumnAt, NodeError>
    requires has { HasKey root.now key }
    requires level { 1 ≤ root.now.level }
    ensures there { (start : Start) (shown : List (List ℕ)) → P.shows pages.old start shown → IfOk result (IsThere shown root.now key stamp) }
    ensures has { IfOk result (λ at. HasKey at.column key) }
    ensures point { IfOk result (λ at. HasPoint key stamp at.spot) }
    ensures bad { (start : Start) (shown : List (List ℕ)) → P.shows pages.old start shown → (page : ℕ) → result ≡ Err (NodeError.BadNode page) → IsBadLook shown root.now key stamp page }
    ensures refused { IfErr result (WalkRefusal (P.down pages.old)) }
    ensures same { OnlyReads P.Pages pages.old pages.new (result ≡ Err NodeError.Fault) }
{
    let column = locate(pages, root, key)?;
    let spot = spot_at(pages, &column, key, stamp)?;
    Ok(ColumnAt { column, spot })
}

/// Why no lookup is made in a current leaf.
pub fn leaf_refusal(fault: ReadFault, page: u64) -> NodeError
    ensures bad { (n : ℕ) → result ≡ NodeError.BadNode n → (page ≡ n) × (fault ≡ ReadFault.NotANode) }
    ensures refused { (down : Bool) → LookRefusal down result }
    ensures never { result ≡ NodeError.Fault → ⊥ }
{
    match fault {
        ReadFault::NotANode => NodeError::BadNode(page),
        ReadFault::Memory => NodeError::OutOfMemory,
    }
}

// How far a lookup of the next key comes in the current leaf of a column.
fn next_here<P: Pages>(
    pages: &mut P,
    alloc: Global,
    column: &PagePlace,
    current: &Current,
    from: Key,
    stamp: Stamp,
) -> Result<Reached, NodeError>
    requires has { HasKey column.now from }
    ensures reached { (start : Start) (shown : List (List ℕ)) → P.shows pages.old start shown → (versions : List Version) → RepresentsNode shown current.now.page (CurrentLeaf (keys_at column.now) current.now.start versions) → IfOk result (λ reached. IsReached versions stamp from (reached_as reached)) }
    ensures border { IfOk result (ReachesTo (high_or column.now.high)) }
    ensures onward { IfOk result (GoesOnFrom from) }
    ensures bad { (start : Start) (shown : List (List ℕ)) → P.shows pages.old start shown → (page : ℕ) → result ≡ Err (NodeError.BadNode page) → (current.now.page ≡ page) × IsNoLeaf shown column.now current.now.start page }
    ensures refused { IfErr result (LookRefusal (P.down pages.old)) }
    ensures same { OnlyReads P.Pages pages.old pages.new (result ≡ Err NodeError.Fault) }
{
    bring(pages, current.page)?;
    let Some(page) = pages.page(current.page) else {
        unreachable!();
    };
    match reached_on(alloc, page, column, current.start, from, stamp) {
        Ok(answer) => Ok(answer),
        Err(fault) => Err(leaf_refusal(fault, current.page)),
    }
}

// The versions of a key from a stamp on in the current leaf of a column.
fn part_here<P: Pages>(
    pages: &mut P,
    alloc: Global,
    column: &PagePlace,
    current: &Current,
    key: Key,
    from: Stamp,
) -> Result<KeyVersions, NodeError>
    requires has { HasKey column.now key }
    ensures part { (start : Start) (shown : List (List ℕ)) → P.shows pages.old start shown → (versions : List Version) → RepresentsNode shown current.now.page (CurrentLeaf (keys_at column.now) current.now.start versions) → IfOk result (λ part. versions_of part.entries.items ≡ filter (is_of key from stamp_end) versions) }
    ensures reported { IfOk result (λ part. part.reported ≡ None) }
    ensures bad { (start : Start) (shown : List (List ℕ)) → P.shows pages.old start shown → (page : ℕ) → result ≡ Err (NodeError.BadNode page) → (current.now.page ≡ page) × IsNoLeaf shown column.now current.now.start page }
    ensures refused { IfErr result (LookRefusal (P.down pages.old)) }
    ensures same { OnlyReads P.Pages pages.old pages.new (result ≡ Err NodeError.Fault) }
{
    bring(pages, current.page)?;
    let Some(page) = pages.page(current.page) else {
        unreachable!();
    };
    match part_on(alloc, page, column, current.start, key, from) {
        Ok(answer) => Ok(answer),
        Err(fault) => Err(leaf_refusal(fault, current.page)),
    }
}

// What a key has as of a stamp in the current leaf of a column.
fn found_here<P: Pages>(
    pages: &mut P,
    alloc: Global,
    column: &PagePlace,
    current: &Current,
    key: Key,
    stamp: Stamp,
) -> Result<Option<Found>, NodeError>
    requires has { HasKey column.now key }
    ensures found { (start : Start) (shown : List (List ℕ)) → P.shows pages.old start shown → (versions : List Version) → RepresentsNode shown current.now.page (CurrentLeaf (keys_at column.now) current.now.start versions) → IfOk result (λ found. Answers versions key stamp (found_as found)) }
    ensures bad { (start : Start) (shown : List (List ℕ)) → P.shows pages.old start shown → (page : ℕ) → result ≡ Err (NodeError.BadNode page) → (current.now.page ≡ page) × IsNoLeaf shown column.now current.now.start page }
    ensures refused { IfErr result (LookRefusal (P.down pages.old)) }
    ensures same { OnlyReads P.Pages pages.old pages.new (result ≡ Err NodeError.Fault) }
{
    bring(pages, current.page)?;
    let Some(page) = pages.page(current.page) else {
        unreachable!();
    };
    match found_on(alloc, page, column, current.start, key, stamp) {
        Ok(answer) => Ok(answer),
        Err(fault) => Err(leaf_refusal(fault, current.page)),
    }
}

/// The next key from `from` on, itself included, that has a value as of the stamp, among the keys of the column that has `from`;
/// or the place in the past where it is looked for.
///
/// If the root is valid, that is what its versions have, and no page is reported as bad. A page that is reported is on the path on which
/// the pages lead the key, and isn't what it has to be there: a key node, the column, or its current leaf if the stamp lies in it. Not
/// each such page is reported, since of a page only its header and what the key needs are read; `tsb_check` reads all. A failure of the
/// disk, a journal that must be opened again and out of memory are returned too. Pages are only read, whatever is returned.
pub fn next<P: Pages>(
    pages: &mut P,
    alloc: Global,
    root: &PagePlace,
    from: Key,
    stamp: Stamp,
) -> Result<Looked, NodeError>
    requires has { HasKey root.now from }
    requires level { 1 ≤ root.now.level }
    ensures next { (start : Start) (shown : List (List ℕ)) → P.shows pages.old start shown → (s : Store) (all : List Version) → RepresentsShown shown s all root.now → IfOk result (IsLooked s.blocks all from stamp) }
    ensures bad { (start : Start) (shown : List (List ℕ)) → P.shows pages.old start shown → (page : ℕ) → result ≡ Err (NodeError.BadNode page) → IsBadLook shown root.now from stamp page }
    ensures blames { (start : Start) (shown : List (List ℕ)) → P.shows pages.old start shown → (s : Store) (all : List Version) → RepresentsShown shown s all root.now → (page : ℕ) → result ≡ Err (NodeError.BadNode page) → ⊥ }
    ensures below { (start : Start) (shown : List (List ℕ)) → P.shows pages.old start shown → (s : Store) (all : List Version) → RepresentsShown shown s all root.now → IfOk result (LooksBelow s.next) }
    ensures point { IfOk result (LooksAt from stamp) }
    ensures onward { IfOk result (LooksOn from) }
    ensures refused { IfErr result (LookRefusal (P.down pages.old)) }
    ensures same { OnlyReads P.Pages pages.old pages.new (result ≡ Err NodeError.Fault) }
{
    stamp_fits(stamp);
    let at = column_at(pages, root, from, stamp)?;
    match &at.spot {
        ColumnSpot::InLeaf(current) => {
            let answer = next_here(pages, alloc, &at.column, current, from, stamp)?;
            Ok(Looked::Here(answer))
        }
        ColumnSpot::InPast(place) => Ok(Looked::InBlock(*place)),
    }
}

/// The versions of the key from the stamp on, ends included: all that there are, if the current leaf has them; or the place in
/// the past where the first of them are looked for.
///
/// It is refused and leaves the pages as `next` does.
pub fn part<P: Pages>(
    pages: &mut P,
    alloc: Global,
    root: &PagePlace,
    key: Key,
    from: Stamp,
) -> Result<Parted, NodeError>
    requires has { HasKey root.now key }
    requires level { 1 ≤ root.now.level }
    ensures part { (start : Start) (shown : List (List ℕ)) → P.shows pages.old start shown → (s : Store) (all : List Version) → IsRising all → RepresentsShown shown s all root.now → IfOk result (IsParted s.blocks all key from) }
    ensures bad { (start : Start) (shown : List (List ℕ)) → P.shows pages.old start shown → (page : ℕ) → result ≡ Err (NodeError.BadNode page) → IsBadLook shown root.now key from page }
    ensures blames { (start : Start) (shown : List (List ℕ)) → P.shows pages.old start shown → (s : Store) (all : List Version) → RepresentsShown shown s all root.now → (page : ℕ) → result ≡ Err (NodeError.BadNode page) → ⊥ }
    ensures below { (start : Start) (shown : List (List ℕ)) → P.shows pages.old start shown → (s : Store) (all : List Version) → RepresentsShown shown s all root.now → IfOk result (PartsBelow s.next) }
    ensures point { IfOk result (PartsAt key from) }
    ensures reported { IfOk result ReportsAll }
    ensures refused { IfErr result (LookRefusal (P.down pages.old)) }
    ensures same { OnlyReads P.Pages pages.old pages.new (result ≡ Err NodeError.Fault) }
{
    stamp_fits(from);
    let at = column_at(pages, root, key, from)?;
    match &at.spot {
        ColumnSpot::InLeaf(current) => {
            let answer = part_here(pages, alloc, &at.column, current, key, from)?;
            Ok(Parted::Here(answer))
        }
        ColumnSpot::InPast(place) => Ok(Parted::InBlock(*place)),
    }
}

/// What the key has as of the stamp, None if it has no value then or has ended; or the place in the past where it is looked for.
///
/// It is refused and leaves the pages as `next` does.
pub fn descend<P: Pages>(
    pages: &mut P,
    alloc: Global,
    root: &PagePlace,
    key: Key,
    stamp: Stamp,
) -> Result<Descended, NodeError>
    requires has { HasKey root.now key }
    requires level { 1 ≤ root.now.level }
    ensures descended { (start : Start) (shown : List (List ℕ)) → P.shows pages.old start shown → (s : Store) (all : List Version) → RepresentsShown shown s all root.now → IfOk result (IsDescended s.blocks all key stamp) }
    ensures bad { (start : Start) (shown : List (List ℕ)) → P.shows pages.old start shown → (page : ℕ) → result ≡ Err (NodeError.BadNode page) → IsBadLook shown root.now key stamp page }
    ensures blames { (start : Start) (shown : List (List ℕ)) → P.shows pages.old start shown → (s : Store) (all : List Version) → RepresentsShown shown s all root.now → (page : ℕ) → result ≡ Err (NodeError.BadNode page) → ⊥ }
    ensures below { (start : Start) (shown : List (List ℕ)) → P.shows pages.old start shown → (s : Store) (all : List Version) → RepresentsShown shown s all root.now → IfOk result (DescendsBelow s.next) }
    ensures point { IfOk result (DescendsAt key stamp) }
    ensures refused { IfErr result (LookRefusal (P.down pages.old)) }
    ensures same { OnlyReads P.Pages pages.old pages.new (result ≡ Err NodeError.Fault) }
{
    stamp_fits(stamp);
    let at = column_at(pages, root, key, stamp)?;
    match &at.spot {
        ColumnSpot::InLeaf(current) => {
            let answer = found_here(pages, alloc, &at.column, current, key, stamp)?;
            Ok(Descended::Here(answer))
        }
        ColumnSpot::InPast(place) => Ok(Descended::InBlock(*place)),
    }
}
