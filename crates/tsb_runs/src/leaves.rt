//! The current leaf in which a key is looked for.

ghost use Rattle.std.specs.Prelude.{◌≡◌, ◌≤◌, ℕ, List, IfOk, IfErr, IfSome, Err};
ghost use Rattle.page_tx.specs.Start.{Start};
ghost use Rattle.version_model.specs.Pages.{Store};
ghost use Rattle.version_model.specs.Versions.{Version};
ghost use Rattle.tsb_walk.specs.Refusals.{OnlyReads, WalkRefusal};
ghost use Rattle.tsb_walk.specs.PageWays.{IsNoColumn};
ghost use Rattle.tsb_walk.specs.Shown.{HasKey, RepresentsShown};
ghost use Rattle.tsb_walk.specs.inner.ColumnSpots.{IsSpotAt};
ghost use Rattle.tsb_runs.specs.inner.LeavesAt.{IsLeafAt};

use page_tx::Pages;
use route_model::Key;
use tsb_node::{Current, stamp_fits};
use tsb_walk::{ColumnSpot, NodeError, PagePlace, bring, locate, spot_in};
use version_model::Stamp;

/// The current leaf of a column: its page, and where it starts.
#[derive(Clone, Copy, Debug)]
pub struct LeafAt {
    pub column: PagePlace,
    pub leaf: Current,
}

// Where a column has its versions at a stamp.
fn column_spot<P: Pages>(
    pages: &mut P,
    column: &PagePlace,
    key: Key,
    stamp: Stamp,
) -> Result<ColumnSpot, NodeError>
    requires has { HasKey column.now key }
    ensures spot { (start : Start) (shown : List (List ℕ)) → P.shows pages.old start shown → IfOk result (IsSpotAt shown column.now key stamp) }
    ensures bad { (start : Start) (shown : List (List ℕ)) → P.shows pages.old start shown → (page : ℕ) → result ≡ Err (NodeError.BadNode page) → IsNoColumn shown column.now }
    ensures refused { IfErr result (WalkRefusal (P.down pages.old)) }
    ensures same { OnlyReads P.Pages pages.old pages.new (result ≡ Err NodeError.Fault) }
{
    bring(pages, column.page)?;
    let Some(page) = pages.page(column.page) else {
        unreachable!();
    };
    match spot_in(page, column, key, stamp) {
        Some(spot) => Ok(spot),
        None => Err(NodeError::BadNode(column.page)),
    }
}

/// The current leaf in which a key is looked for as of a stamp; None if that is in the past.
///
/// If the root is valid, the leaf has what there is of its keys, and no page is reported as bad. Pages are only read.
pub fn leaf_at<P: Pages>(
    pages: &mut P,
    root: &PagePlace,
    key: Key,
    stamp: Stamp,
) -> Result<Option<LeafAt>, NodeError>
    requires has { HasKey root.now key }
    requires level { 1 ≤ root.now.level }
    ensures leaf { (start : Start) (shown : List (List ℕ)) → P.shows pages.old start shown → (s : Store) (all : List Version) → RepresentsShown shown s all root.now → IfOk result (λ o. IfSome o (IsLeafAt shown all key stamp)) }
    ensures has { IfOk result (λ o. IfSome o (λ at. HasKey at.column key)) }
    ensures blames { (start : Start) (shown : List (List ℕ)) → P.shows pages.old start shown → (s : Store) (all : List Version) → RepresentsShown shown s all root.now → (page : ℕ) → result ≡ Err (NodeError.BadNode page) → ⊥ }
    ensures refused { IfErr result (WalkRefusal (P.down pages.old)) }
    ensures same { OnlyReads P.Pages pages.old pages.new (result ≡ Err NodeError.Fault) }
{
    stamp_fits(stamp);
    let column = locate(pages, root, key)?;
    match column_spot(pages, &column, key, stamp)? {
        ColumnSpot::InLeaf(leaf) => Ok(Some(LeafAt { column, leaf })),
        ColumnSpot::InPast(_) => Ok(None),
    }
}
