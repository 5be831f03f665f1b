//! The next keys that have a value, as far as one leaf goes.

ghost use Rattle.std.specs.Prelude.{◌≡◌, ◌≤◌, ℕ, Bool, List, IfOk, IfErr, Err};
ghost use Rattle.page_tx.specs.Start.{Start};
ghost use Rattle.version_model.specs.Pages.{CurrentLeaf, Store};
ghost use Rattle.version_model.specs.Versions.{Version};
ghost use Rattle.tsb_node.specs.Views.{PageRepresents};
ghost use Rattle.tsb_walk.specs.Refusals.{LookRefusal, OnlyReads};
ghost use Rattle.tsb_walk.specs.PageWays.{IsNoLeaf};
ghost use Rattle.tsb_walk.specs.Shown.{HasKey, RepresentsNode, RepresentsShown, keys_at};
ghost use Rattle.tsb_runs.specs.Runs.{IsRun};

use crate::leaves::{LeafAt, leaf_at};
use crate::live::{Run, run_in};
use disk_models::Page;
use page_tx::Pages;
use route_model::Key;
use std::alloc::Global;
use tsb_node::{ReadFault, stamp_fits};
use tsb_walk::{NodeError, PagePlace, bring, is_current_leaf};
use version_model::Stamp;

// The keys from `from` on that have a value as of a stamp in the current leaf of a column, which starts there. Refused as no node only
// if the page isn't that leaf, and not always then.
fn run_on(
    alloc: Global,
    page: &Page,
    column: &PagePlace,
    start: Stamp,
    from: Key,
    stamp: Stamp,
) -> Result<Run, ReadFault>
    requires has { HasKey column.now from }
    ensures run { (versions : List Version) → PageRepresents page.now (CurrentLeaf (keys_at column.now) start versions) → IfOk result (IsRun versions stamp from) }
    ensures high { IfOk result (λ run. run.high ≡ column.now.high) }
    ensures none { result ≡ Err ReadFault.NotANode → (versions : List Version) → PageRepresents page.now (CurrentLeaf (keys_at column.now) start versions) → ⊥ }
{
    stamp_fits(stamp);
    if !is_current_leaf(page, column, start) {
        return Err(ReadFault::NotANode);
    }
    run_in(alloc, page.octets(), &column.high, from, stamp)
}

// Why a leaf isn't scanned.
fn refusal_of(fault: ReadFault, page: u64) -> NodeError
    ensures bad { (n : ℕ) → result ≡ NodeError.BadNode n → fault ≡ ReadFault.NotANode }
    ensures refused { (down : Bool) → LookRefusal down result }
    ensures never { result ≡ NodeError.Fault → ⊥ }
{
    match fault {
        ReadFault::NotANode => NodeError::BadNode(page),
        ReadFault::Memory => NodeError::OutOfMemory,
    }
}

// The keys from `from` on that have a value as of a stamp in the current leaf of a column.
fn run_here<P: Pages>(
    pages: &mut P,
    alloc: Global,
    at: &LeafAt,
    from: Key,
    stamp: Stamp,
) -> Result<Run, NodeError>
    requires has { HasKey at.now.column from }
    ensures run { (start : Start) (shown : List (List ℕ)) → P.shows pages.old start shown → (versions : List Version) → RepresentsNode shown at.now.leaf.page (CurrentLeaf (keys_at at.now.column) at.now.leaf.start versions) → IfOk result (IsRun versions stamp from) }
    ensures high { IfOk result (λ run. run.high ≡ at.now.column.high) }
    ensures bad { (start : Start) (shown : List (List ℕ)) → P.shows pages.old start shown → (page : ℕ) → result ≡ Err (NodeError.BadNode page) → IsNoLeaf shown at.now.column at.now.leaf.start at.now.leaf.page }
    ensures refused { IfErr result (LookRefusal (P.down pages.old)) }
    ensures same { OnlyReads P.Pages pages.old pages.new (result ≡ Err NodeError.Fault) }
{
    bring(pages, at.leaf.page)?;
    let Some(page) = pages.page(at.leaf.page) else {
        unreachable!();
    };
    match run_on(alloc, page, &at.column, at.leaf.start, from, stamp) {
        Ok(run) => Ok(run),
        Err(fault) => Err(refusal_of(fault, at.leaf.page)),
    }
}

/// The keys from `from` on, itself included, that have a value as of the stamp, up to the end of the current leaf in which `from` is
/// looked for; if that is in the past none, and only up to `from`. How far a run goes is in no clause: one without rows, up to `from`, would
/// meet them too.
///
/// If the root is valid, those are what its versions have, and no page is reported as bad. A failure of the disk, a journal that must be
/// opened again and a lack of memory refuse it too. Pages are only read, whatever is returned.
pub fn next_run<P: Pages>(
    pages: &mut P,
    alloc: Global,
    root: &PagePlace,
    from: Key,
    stamp: Stamp,
) -> Result<Run, NodeError>
    requires has { HasKey root.now from }
    requires level { 1 ≤ root.now.level }
    ensures run { (start : Start) (shown : List (List ℕ)) → P.shows pages.old start shown → (s : Store) (all : List Version) → RepresentsShown shown s all root.now → IfOk result (IsRun all stamp from) }
    ensures blames { (start : Start) (shown : List (List ℕ)) → P.shows pages.old start shown → (s : Store) (all : List Version) → RepresentsShown shown s all root.now → (page : ℕ) → result ≡ Err (NodeError.BadNode page) → ⊥ }
    ensures refused { IfErr result (LookRefusal (P.down pages.old)) }
    ensures same { OnlyReads P.Pages pages.old pages.new (result ≡ Err NodeError.Fault) }
{
    let Some(at) = leaf_at(pages, root, from, stamp)? else {
        return Ok(Run {
            rows: Vec::new(alloc),
            high: Some(from),
        });
    };
    run_here(pages, alloc, &at, from, stamp)
}
