//! Where one page of a tree leads for a key and a stamp: to which page next, or where the column has them. Of each page only what
//! a walk needs is read: its header, and the entry that has the key or the stamp. If the page is the node that it has to be, the answer
//! is that node's; for other pages the only promise is that the walk goes down and keeps to the key and the stamp.

ghost use Rattle.std.specs.Prelude.{◌≡◌, ◌↔◌, ◌<◌, ◌≤◌, ℕ, suc, List, Some, IsTrue, IfSome, IfNone};
ghost use Rattle.version_model.specs.declared.child.Child.{Child as ChildValue};
ghost use Rattle.version_model.specs.declared.part.Part.{Part as PartValue};
ghost use Rattle.version_model.specs.Versions.{Version};
ghost use Rattle.version_model.specs.Pages.{CurrentLeaf, ColumnNode, KeyNode};
ghost use Rattle.tsb_node.specs.Columns.{ColumnInPage};
ghost use Rattle.tsb_node.specs.Parts.{IsSpot};
ghost use Rattle.tsb_node.specs.Views.{PageRepresents, keys_between};
ghost use Rattle.tsb_walk.specs.Shown.{keys_at, HasKey};
ghost use Rattle.tsb_walk.specs.inner.PageSteps.{IsChildAt, IsSpotOf, HasPoint};

use crate::page_place::{PagePlace, are_its_keys};
use disk_models::Page;
use route_model::Key;
use tsb_node::{
    Current, PartAt, Spot, Under, child_for, column_head, key_fits, key_node_head, leaf_head,
    spot_for,
};
use version_model::{Bounds, Place, Stamp};

/// Where a column has its versions at a stamp.
#[derive(Clone, Copy, Debug)]
pub enum ColumnSpot {
    /// In the current leaf, which is on this page and starts there.
    InLeaf(Current),
    /// In a part of its past.
    InPast(Place),
}

// The place of a child of a key node.
fn child_place(place: &PagePlace, under: &Under) -> PagePlace
    requires above { 0 < place.now.level }
    ensures page { result.page ≡ under.now.page }
    ensures level { suc result.level ≡ place.now.level }
    ensures low { result.low ≡ under.now.low }
    ensures high { result.high ≡ under.now.high }
{
    PagePlace {
        page: under.page,
        level: place.level - 1,
        low: under.low,
        high: under.high,
    }
}

/// The child of the key node that a page is, for a key: one level below, of keys that have it. None only if the page is no key node of
/// exactly the place's level and keys, and not always then.
pub fn child_in(page: &Page, place: &PagePlace, key: Key) -> Option<PagePlace>
    requires has { HasKey place.now key }
    ensures child { (children : List ChildValue) → PageRepresents page.now (KeyNode place.now.level (keys_at place.now) children) → IfSome result (IsChildAt place.now children) }
    ensures none { IfNone result ((children : List ChildValue) → PageRepresents page.now (KeyNode place.now.level (keys_at place.now) children) → ⊥) }
    ensures above { IfSome result (λ next. 1 < place.now.level) }
    ensures level { IfSome result (λ next. suc next.level ≡ place.now.level) }
    ensures has { IfSome result (λ next. HasKey next key) }
{
    key_fits(key);
    let Ok(head) = key_node_head(page.octets()) else {
        return None;
    };
    if head.level != place.level {
        return None;
    }
    if !are_its_keys(&head.bounds, place) {
        return None;
    }
    let Ok(under) = child_for(page.octets(), key) else {
        return None;
    };
    let next = child_place(place, &under);
    if !next.has(key) {
        return None;
    }
    Some(next)
}

// The place of a part of the past of a column.
fn past_place(place: &PagePlace, found: &PartAt) -> Place
    ensures bounds { result.bounds ≡ record { low = place.now.low; high = place.now.high; start = found.now.part.start; end = Some found.now.end } }
    ensures part { result.part ≡ found.now.part }
{
    Place {
        bounds: Bounds {
            low: place.low,
            high: place.high,
            start: found.part.start,
            end: Some(found.end),
        },
        part: found.part,
    }
}

/// Whether a stamp lies in a part.
pub fn is_in(found: &PartAt, stamp: Stamp) -> bool
    ensures { IsTrue result ↔ ((found.now.part.start ≤ stamp) × (stamp < found.now.end)) }
{
    found.part.start <= stamp && stamp < found.end
}

// Where the column at a place has its versions, of its keys: None if the stamp isn't in the part.
fn column_spot(place: &PagePlace, spot: &Spot, key: Key, stamp: Stamp) -> Option<ColumnSpot>
    requires has { HasKey place.now key }
    ensures spot { (column : ColumnInPage) → keys_between column.bounds ≡ keys_at place.now → IsSpot column stamp spot.now
        → IfSome result (IsSpotOf place.now column.parts column.current.start column.current.page key stamp) }
    ensures none { IfNone result ((column : ColumnInPage) → IsSpot column stamp spot.now → ⊥) }
    ensures point { IfSome result (HasPoint key stamp) }
{
    match spot {
        Spot::InPage(current) => Some(ColumnSpot::InLeaf(*current)),
        Spot::InBlock(found) => {
            if !is_in(found, stamp) {
                return None;
            }
            Some(ColumnSpot::InPast(past_place(place, found)))
        }
    }
}

/// Where the column that a page is has its versions at a stamp. None only if the page is no column of exactly the place's keys, and not
/// always then.
pub fn spot_in(page: &Page, place: &PagePlace, key: Key, stamp: Stamp) -> Option<ColumnSpot>
    requires has { HasKey place.now key }
    ensures spot { (parts : List PartValue) (start current : ℕ) → PageRepresents page.now (ColumnNode (keys_at place.now) parts start current)
        → IfSome result (IsSpotOf place.now parts start current key stamp) }
    ensures none { IfNone result ((parts : List PartValue) (start current : ℕ) → PageRepresents page.now (ColumnNode (keys_at place.now) parts start current) → ⊥) }
    ensures point { IfSome result (HasPoint key stamp) }
{
    let Ok(bounds) = column_head(page.octets()) else {
        return None;
    };
    if !are_its_keys(&bounds, place) {
        return None;
    }
    let Ok(spot) = spot_for(page.octets(), stamp) else {
        return None;
    };
    column_spot(place, &spot, key, stamp)
}

/// Whether a page may be the current leaf of a column's keys from a start on: it isn't if this returns false, but not always if it
/// returns true.
pub fn is_current_leaf(page: &Page, column: &PagePlace, start: Stamp) -> bool
    ensures { (versions : List Version) → PageRepresents page.now (CurrentLeaf (keys_at column.now) start versions) → IsTrue result }
{
    match leaf_head(page.octets()) {
        Ok(bounds) => bounds.start == start && are_its_keys(&bounds, column),
        Err(_) => false,
    }
}
