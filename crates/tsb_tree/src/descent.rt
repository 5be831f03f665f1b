//! A version goes down through key nodes to the column that has its key, and what is planned there comes up again.
ghost use Rattle.std.specs.Prelude.{◌≡◌, ◌<◌, ◌≤◌, ◌+◌, ◌^◌, ◌⊎◌, ℕ, suc, List, Some, None, Ok, Err, length, IfOk, OnOk, IfErr, IsErr, IsSome, false};
ghost use Rattle.std.specs.List.{insert};
ghost use Rattle.once_store.specs.declared.error.AppendError.{AppendError};
ghost use Rattle.page_journal.specs.Layout.{pages_of};
ghost use Rattle.page_journal.specs.Recovers.{AreDistinct};
ghost use Rattle.page_tx.specs.Start.{Start};
ghost use Rattle.version_model.specs.declared.child.Child.{Child as ChildValue};
ghost use Rattle.version_model.specs.Entries.{version_of};
ghost use Rattle.version_model.specs.Pages.{Keys, KeyNode, Store};
ghost use Rattle.version_model.specs.Sizes.{entry_octets};
ghost use Rattle.version_model.specs.Versions.{Version};
ghost use Rattle.tsb_node.specs.Views.{keys_between};
ghost use Rattle.tsb_walk.specs.PageWays.{IsLower};
ghost use Rattle.tsb_walk.specs.Shown.{RepresentsNode, HasKey, keys_at};
ghost use Rattle.tsb_tree.specs.KeyNodes.{IsWide};
ghost use Rattle.tsb_tree.specs.InPlace.{IsInPlace};
ghost use Rattle.tsb_tree.specs.NoRoom.{IsForRoom, LeadsToFullColumn, LeadsToFullLeaf};
ghost use Rattle.tsb_tree.specs.Outlived.{LeadsToOutdated};
ghost use Rattle.tsb_tree.specs.Plans.{CanBeLaid, Plans};
ghost use Rattle.tsb_tree.specs.Puts.{PutsChild};
ghost use Rattle.tsb_tree.specs.Raises.{HasRoomAfter, RaiseRefusal};
ghost use Rattle.tsb_tree.specs.Refusals.{IsHonest, PlanRefusal, ReadRefusal};
ghost use Rattle.tsb_tree.specs.Shelves.{HasNoneBlank, KeepsShelf, SpendsOne};
ghost use Rattle.tsb_tree.specs.Stores.{ReadsAlone};
ghost use Rattle.tsb_tree.specs.Takers.{CanTake};
ghost use Rattle.tsb_tree.specs.inner.Uses.{UsesForHalf, UsesPages, LacksPages};

use crate::change::Change;
use crate::error::TreeError;
use crate::planning_column::plan_column;
use crate::putting::put_half;
use crate::reading::{key_node_in, see};
use disk_models::OnceDisk;
use once_store::Shelf;
use page_tx::{PageError, Pages};
use route_model::Key;
use std::alloc::Global;
use tsb_node::DecodedKeyNode;
use tsb_walk::{PagePlace, down};
use version_model::Entry;

// The place of the child of a key node that has a key.
fn child_at<P: Pages>(pages: &mut P, place: &PagePlace, key: Key) -> Result<PagePlace, TreeError>
    requires has { HasKey place.now key }
    ensures has { IfOk result (λ next. HasKey next key) }
    ensures level { IfOk result (λ next. suc next.level ≡ place.now.level) }
    ensures lower { (start : Start) (shown : List (List ℕ)) (children : List ChildValue) → P.shows pages.old start shown → RepresentsNode shown place.now.page (KeyNode place.now.level (keys_at place.now) children) → IfOk result (IsLower shown key place.now) }
    ensures honest { (start : Start) (shown : List (List ℕ)) (children : List ChildValue) → P.shows pages.old start shown → RepresentsNode shown place.now.page (KeyNode place.now.level (keys_at place.now) children) → IsHonest result }
    ensures refused { IfErr result (ReadRefusal (P.down pages.old)) }
    ensures reads { ReadsAlone P.Pages pages.old pages.new result }
{
    match down(pages, place, key) {
        Ok(next) => Ok(next),
        Err(refusal) => Err(TreeError::from(refusal)),
    }
}

// What the key node in a page represents, as it is shown.
fn key_node_at<P: Pages>(pages: &mut P, alloc: Global, n: u64) -> Result<DecodedKeyNode, TreeError>
    ensures wide { IfOk result (λ decoded. IsWide decoded) }
    ensures few { IfOk result (λ decoded. length decoded.children.items ≤ 338) }
    ensures represents_node { (start : Start) (shown : List (List ℕ)) (level : ℕ) (k : Keys) (children : List ChildValue) → P.shows pages.old start shown → RepresentsNode shown n (KeyNode level k children)
        → IfOk result (λ decoded. KeyNode decoded.level (keys_between decoded.bounds) decoded.children.items ≡ KeyNode level k children) × IsHonest result }
    ensures inside { OnOk result (n < P.homes pages.old) }
    ensures refused { IfErr result (ReadRefusal (P.down pages.old)) }
    ensures reads { ReadsAlone P.Pages pages.old pages.new result }
{
    see(pages, n)?;
    let Some(page) = pages.page(n) else {
        unreachable!()
    };
    key_node_in(alloc, page, n)
}

// What is planned for a child of the key node at a place becomes what is planned for the key node: if the child became two, it takes the
// new half.
fn raise<P: Pages>(
    pages: &mut P,
    alloc: Global,
    place: &PagePlace,
    change: Change,
) -> Result<Change, TreeError>
    requires distinct { AreDistinct (pages_of change.images.items) }
    ensures kept { change.new ≡ None → result ≡ Ok change }
    ensures puts { (start : Start) (shown : List (List ℕ)) (new : ChildValue) (room : HasRoomAfter shown place.now new) → P.shows pages.old start shown → change.new ≡ Some new
        → IfOk result (PutsChild place.now.page place.now.level (keys_at place.now) (insert room.children (suc room.at) new) change) }
    ensures uses { (start : Start) (shown : List (List ℕ)) (level : ℕ) (k : Keys) (children : List ChildValue) → P.shows pages.old start shown → RepresentsNode shown place.now.page (KeyNode level k children)
        → IsSome change.new → IfOk result (λ put. UsesForHalf (length children) change.unused put.unused put.new) }
    ensures lacks_pages { (start : Start) (shown : List (List ℕ)) (level : ℕ) (k : Keys) (children : List ChildValue) → P.shows pages.old start shown → RepresentsNode shown place.now.page (KeyNode level k children)
        → result ≡ Err (TreeError.Pages PageError.PagesFull) → length children ≡ 338 }
    ensures inside { IsSome change.new → OnOk result (place.now.page < P.homes pages.old) }
    ensures laid { (next level : ℕ) → CanBeLaid (P.homes pages.old) next level change → IfOk result (CanBeLaid (P.homes pages.old) next (suc level)) }
    ensures honest { (start : Start) (shown : List (List ℕ)) → P.shows pages.old start shown → ((new : ChildValue) → change.new ≡ Some new → HasRoomAfter shown place.now new) → IsHonest result }
    ensures refused { IfErr result (RaiseRefusal (P.homes pages.old) change.unused (P.down pages.old)) }
    ensures reads { ReadsAlone P.Pages pages.old pages.new result }
{
    let half = change.new;
    match half {
        None => Ok(change),
        Some(new) => {
            let node = key_node_at(pages, alloc, place.page)?;
            let homes = pages.home_pages();
            match put_half(alloc, homes, place.page, node, change, new) {
                Ok(put) => Ok(put),
                Err(refusal) => Err(refusal),
            }
        }
    }
}

/// The change by which the node at a place takes a version, made in memory, without a page set. It goes down to the column that has the
/// version's key, and up again through those key nodes whose child became two.
///
/// If it is refused, or the change isn't laid, at most two blocks of the shelf are spent. If no node may be split, a full leaf is refused
/// for its images, and no block is spent.
pub fn plan_under<P: Pages, O: OnceDisk + Drop>(
    pages: &mut P,
    shelf: &mut Shelf<O>,
    alloc: Global,
    place: &PagePlace,
    entry: &Entry,
    may_split: bool,
) -> Result<Change, TreeError>
    requires level { 1 ≤ place.now.level }
    requires has { HasKey place.now entry.now.key }
    requires small { entry_octets (version_of entry.now) ≤ 3131 }
    requires end { entry.now.stamp + 1 < 256 ^ 16 }
    ensures plans { (s : Store) (all : List Version) → CanTake P.Pages pages.old O.OnceDisk shelf.old s all place.now (version_of entry.now)
        → IfOk result (λ change. Plans O.OnceDisk shelf.new (P.homes pages.old) s (version_of entry.now) place.now.level place.now.page change) }
    ensures honest { (s : Store) (all : List Version) → CanTake P.Pages pages.old O.OnceDisk shelf.old s all place.now (version_of entry.now) → IsHonest result }
    ensures uses { (s : Store) (all : List Version) → (can : CanTake P.Pages pages.old O.OnceDisk shelf.old s all place.now (version_of entry.now))
        → IfOk result (λ change. UsesPages can.shown (version_of entry.now) place.now (P.next pages.old) change.unused change.new) }
    ensures lacks_pages { (s : Store) (all : List Version) → (can : CanTake P.Pages pages.old O.OnceDisk shelf.old s all place.now (version_of entry.now))
        → result ≡ Err (TreeError.Pages PageError.PagesFull) → LacksPages can.shown (version_of entry.now) place.now (P.homes pages.old) (P.next pages.old) }
    ensures lacks { (s : Store) (all : List Version) → (can : CanTake P.Pages pages.old O.OnceDisk shelf.old s all place.now (version_of entry.now))
        → IfErr result (λ e. IsForRoom e → LeadsToFullLeaf can.shown (version_of entry.now) place.now) }
    ensures light { (s : Store) (all : List Version) → (can : CanTake P.Pages pages.old O.OnceDisk shelf.old s all place.now (version_of entry.now))
        → IfOk result (λ change. (IsInPlace (P.next pages.old) change × (shelf.new ≡ shelf.old)) ⊎ LeadsToFullLeaf can.shown (version_of entry.now) place.now) }
    ensures alone { may_split ≡ false → IfOk result (λ change. IsInPlace (P.next pages.old) change × (shelf.new ≡ shelf.old)) }
    ensures crowded { (s : Store) (all : List Version) → (can : CanTake P.Pages pages.old O.OnceDisk shelf.old s all place.now (version_of entry.now))
        → result ≡ Err (TreeError.Pages PageError.TooManyImages) → (shelf.new ≡ shelf.old) × LeadsToFullLeaf can.shown (version_of entry.now) place.now }
    ensures burns { (s : Store) (all : List Version) → (can : CanTake P.Pages pages.old O.OnceDisk shelf.old s all place.now (version_of entry.now)) → (shelf.new ≡ shelf.old) ⊎ LeadsToOutdated can.shown (version_of entry.now) place.now }
    ensures once { (s : Store) (all : List Version) → (can : CanTake P.Pages pages.old O.OnceDisk shelf.old s all place.now (version_of entry.now))
        → (refusal : AppendError) → result ≡ Err (TreeError.Once refusal) → LeadsToOutdated can.shown (version_of entry.now) place.now }
    ensures none_left { (s : Store) (all : List Version) → (can : CanTake P.Pages pages.old O.OnceDisk shelf.old s all place.now (version_of entry.now))
        → HasNoneBlank O.OnceDisk shelf.old → LeadsToOutdated can.shown (version_of entry.now) place.now → IsErr result }
    ensures laid { IfOk result (λ change. CanBeLaid (P.homes pages.old) (P.next pages.old) place.now.level change) }
    ensures refused { IfErr result (PlanRefusal (P.homes pages.old) (P.next pages.old) place.now.level (P.down pages.old) may_split) }
    ensures reads { ReadsAlone P.Pages pages.old pages.new result }
    ensures shelf { KeepsShelf O.OnceDisk 2 shelf.old shelf.new result }
    ensures one_block { (s : Store) (all : List Version) → (can : CanTake P.Pages pages.old O.OnceDisk shelf.old s all place.now (version_of entry.now)) → SpendsOne O.OnceDisk shelf.old shelf.new ⊎ LeadsToFullColumn can.shown (version_of entry.now) place.now }
{
    if place.level == 1 {
        return plan_column(pages, shelf, alloc, place, entry, may_split);
    }
    let next = child_at(pages, place, entry.key)?;
    let change = plan_under(pages, shelf, alloc, &next, entry, may_split)?;
    raise(pages, alloc, place, change)
}
