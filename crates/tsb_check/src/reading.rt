//! The pages of a tree are read for their places.

ghost use Rattle.std.specs.Prelude.{◌≡◌, ◌≤◌, ℕ, Bool, List, IfOk, IfErr, Err, length};
ghost use Rattle.page_tx.specs.Start.{Start};
ghost use Rattle.version_model.specs.Counts.{count_in};
ghost use Rattle.version_model.specs.Pages.{CurrentLeaf, ColumnNode, KeyNode, current_range};
ghost use Rattle.version_model.specs.Versions.{Version};
ghost use Rattle.tsb_walk.specs.PageWays.{IsNoKeyNode, IsNoColumn, IsNoLeaf};
ghost use Rattle.tsb_walk.specs.Refusals.{OnlyReads, LookRefusal};
ghost use Rattle.tsb_walk.specs.Shown.{RepresentsNode, keys_at};

use crate::counting::count_inside;
use crate::page::{children_in, column_in, leaf_in};
use page_tx::Pages;
use std::alloc::Global;
use tsb_node::{Current, DecodedColumn, ReadFault};
use tsb_walk::{NodeError, PagePlace, bring};
use version_model::{Bounds, Child};

// Why a page isn't read.
fn refusal_of(fault: ReadFault, page: u64) -> NodeError
    ensures bad { (n : ℕ) → result ≡ NodeError.BadNode n → (page ≡ n) × (fault ≡ ReadFault.NotANode) }
    ensures refused { (down : Bool) → LookRefusal down result }
    ensures never { result ≡ NodeError.Fault → ⊥ }
{
    match fault {
        ReadFault::NotANode => NodeError::BadNode(page),
        ReadFault::Memory => NodeError::OutOfMemory,
    }
}

/// The children of the key node at a place.
pub fn children_at<P: Pages>(
    pages: &mut P,
    alloc: Global,
    place: &PagePlace,
) -> Result<Vec<Child>, NodeError>
    ensures represents_node { (start : Start) (shown : List (List ℕ)) → P.shows pages.old start shown → IfOk result (λ children. RepresentsNode shown place.now.page (KeyNode place.now.level (keys_at place.now) children.items)) }
    ensures bad { (start : Start) (shown : List (List ℕ)) → P.shows pages.old start shown → (page : ℕ) → result ≡ Err (NodeError.BadNode page) → (place.now.page ≡ page) × IsNoKeyNode shown place.now }
    ensures few { IfOk result (λ children. length children.items ≤ 338) }
    ensures above { IfOk result (λ _. 2 ≤ place.now.level) }
    ensures refused { IfErr result (LookRefusal (P.down pages.old)) }
    ensures same { OnlyReads P.Pages pages.old pages.new (result ≡ Err NodeError.Fault) }
{
    bring(pages, place.page)?;
    let Some(page) = pages.page(place.page) else {
        unreachable!();
    };
    match children_in(alloc, page, place) {
        Ok(children) => Ok(children),
        Err(fault) => Err(refusal_of(fault, place.page)),
    }
}

/// The column at a place.
pub fn column_at<P: Pages>(
    pages: &mut P,
    alloc: Global,
    place: &PagePlace,
) -> Result<DecodedColumn, NodeError>
    ensures represents_node { (start : Start) (shown : List (List ℕ)) → P.shows pages.old start shown → IfOk result (λ decoded. RepresentsNode shown place.now.page (ColumnNode (keys_at place.now) decoded.parts.items decoded.current.start decoded.current.page)) }
    ensures bad { (start : Start) (shown : List (List ℕ)) → P.shows pages.old start shown → (page : ℕ) → result ≡ Err (NodeError.BadNode page) → (place.now.page ≡ page) × IsNoColumn shown place.now }
    ensures refused { IfErr result (LookRefusal (P.down pages.old)) }
    ensures same { OnlyReads P.Pages pages.old pages.new (result ≡ Err NodeError.Fault) }
{
    bring(pages, place.page)?;
    let Some(page) = pages.page(place.page) else {
        unreachable!();
    };
    match column_in(alloc, page, place) {
        Ok(decoded) => Ok(decoded),
        Err(fault) => Err(refusal_of(fault, place.page)),
    }
}

/// How many versions the current leaf of a column has of the column's keys, from its start on.
pub fn count_current<P: Pages>(
    pages: &mut P,
    alloc: Global,
    column: &PagePlace,
    current: &Current,
) -> Result<u64, NodeError>
    ensures counts { (start : Start) (shown : List (List ℕ)) → P.shows pages.old start shown
        → IfOk result (λ n. (versions : List Version) × RepresentsNode shown current.now.page (CurrentLeaf (keys_at column.now) current.now.start versions) × (n ≡ count_in versions (current_range (keys_at column.now) current.now.start))) }
    ensures bad { (start : Start) (shown : List (List ℕ)) → P.shows pages.old start shown → (page : ℕ) → result ≡ Err (NodeError.BadNode page) → (current.now.page ≡ page) × IsNoLeaf shown column.now current.now.start page }
    ensures refused { IfErr result (LookRefusal (P.down pages.old)) }
    ensures same { OnlyReads P.Pages pages.old pages.new (result ≡ Err NodeError.Fault) }
{
    bring(pages, current.page)?;
    let Some(page) = pages.page(current.page) else {
        unreachable!();
    };
    let decoded = match leaf_in(alloc, page, column, current.start) {
        Ok(decoded) => decoded,
        Err(fault) => return Err(refusal_of(fault, current.page)),
    };
    let bounds = Bounds {
        low: column.low,
        high: column.high,
        start: current.start,
        end: None,
    };
    Ok(count_inside(&bounds, &decoded.entries))
}
