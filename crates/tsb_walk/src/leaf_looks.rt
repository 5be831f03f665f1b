//! Lookups in the page of a current leaf.

ghost use Rattle.std.specs.Prelude.{◌≡◌, ℕ, List, None, IfOk, Err, filter};
ghost use Rattle.version_model.specs.Versions.{Version, Answers};
ghost use Rattle.version_model.specs.Ranges.{high_or, stamp_end};
ghost use Rattle.version_model.specs.Looks.{IsReached, is_of};
ghost use Rattle.version_model.specs.Entries.{versions_of};
ghost use Rattle.version_model.specs.Pages.{CurrentLeaf};
ghost use Rattle.tsb_node.specs.Views.{PageRepresents};
ghost use Rattle.tsb_walk.specs.Answers.{found_as, reached_as};
ghost use Rattle.tsb_walk.specs.Borders.{ReachesTo};
ghost use Rattle.tsb_walk.specs.Looked.{GoesOnFrom};
ghost use Rattle.tsb_walk.specs.Shown.{keys_at, HasKey};

use crate::looks::{Found, KeyVersions, Reached, found_in, part_in, reached_in};
use crate::page_place::PagePlace;
use crate::page_steps::is_current_leaf;
use disk_models::Page;
use route_model::Key;
use std::alloc::Global;
use tsb_node::{ReadFault, stamp_fits};
use version_model::Stamp;

/// How far a lookup of the next key comes in the current leaf of a column, which starts there. Refused as no node only if the
/// page isn't that leaf, and not always then.
pub fn reached_on(
    alloc: Global,
    page: &Page,
    column: &PagePlace,
    start: Stamp,
    from: Key,
    stamp: Stamp,
) -> Result<Reached, ReadFault>
    requires has { HasKey column.now from }
    ensures reached { (versions : List Version) → PageRepresents page.now (CurrentLeaf (keys_at column.now) start versions) → IfOk result (λ reached. IsReached versions stamp from (reached_as reached)) }
    ensures onward { IfOk result (GoesOnFrom from) }
    ensures border { IfOk result (ReachesTo (high_or column.now.high)) }
    ensures none { result ≡ Err ReadFault.NotANode → (versions : List Version) → PageRepresents page.now (CurrentLeaf (keys_at column.now) start versions) → ⊥ }
{
    stamp_fits(stamp);
    if !is_current_leaf(page, column, start) {
        return Err(ReadFault::NotANode);
    }
    reached_in(alloc, page.octets(), &column.high, from, stamp)
}

/// The versions of a key from a stamp on in the current leaf of a column, which starts there: all that there are. Refused as no
/// node only if the page isn't that leaf, and not always then.
pub fn part_on(
    alloc: Global,
    page: &Page,
    column: &PagePlace,
    start: Stamp,
    key: Key,
    from: Stamp,
) -> Result<KeyVersions, ReadFault>
    ensures part { (versions : List Version) → PageRepresents page.now (CurrentLeaf (keys_at column.now) start versions) → IfOk result (λ part. versions_of part.entries.items ≡ filter (is_of key from stamp_end) versions) }
    ensures reported { IfOk result (λ part. part.reported ≡ None) }
    ensures none { result ≡ Err ReadFault.NotANode → (versions : List Version) → PageRepresents page.now (CurrentLeaf (keys_at column.now) start versions) → ⊥ }
{
    if !is_current_leaf(page, column, start) {
        return Err(ReadFault::NotANode);
    }
    part_in(alloc, page.octets(), &None, key, from)
}

/// What a key has as of a stamp in the current leaf of a column, which starts there. Refused as no node only if the page
/// isn't that leaf, and not always then.
pub fn found_on(
    alloc: Global,
    page: &Page,
    column: &PagePlace,
    start: Stamp,
    key: Key,
    stamp: Stamp,
) -> Result<Option<Found>, ReadFault>
    ensures found { (versions : List Version) → PageRepresents page.now (CurrentLeaf (keys_at column.now) start versions) → IfOk result (λ found. Answers versions key stamp (found_as found)) }
    ensures none { result ≡ Err ReadFault.NotANode → (versions : List Version) → PageRepresents page.now (CurrentLeaf (keys_at column.now) start versions) → ⊥ }
{
    if !is_current_leaf(page, column, start) {
        return Err(ReadFault::NotANode);
    }
    found_in(alloc, page.octets(), key, stamp)
}
