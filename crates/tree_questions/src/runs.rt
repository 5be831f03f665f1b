//! The leaf of a look, scanned once for all its keys if that is worth it.

ghost use Rattle.std.specs.Prelude.{◌≡◌, ◌≤◌, ℕ, List, IfOk, IfErr, Err};
ghost use Rattle.page_tx.specs.Start.{Start};
ghost use Rattle.version_model.specs.Pages.{Store};
ghost use Rattle.version_model.specs.Versions.{Version};
ghost use Rattle.tsb_walk.specs.Refusals.{LookRefusal, OnlyReads};
ghost use Rattle.tsb_walk.specs.Shown.{HasKey, RepresentsShown};
ghost use Rattle.tsb_runs.specs.Runs.{IsRun};

use page_tx::Pages;
use route_history::RowsCursor;
use route_meaning::Select;
use route_model::Key;
use std::alloc::Global;
use tsb_runs::{Run, next_run};
use tsb_walk::{NodeError, PagePlace};
use version_model::Stamp;

// Whether a question asks for keys one after another. It decides how a leaf is read, and not what is returned.
fn goes_from_key_to_key(select: &Select) -> bool {
    matches!(select, Select::PeerTable(_) | Select::All)
}

/// The keys from `from` on that have a value as of the stamp, up to the end of the current leaf in which `from` is looked for, if the
/// question goes from key to key. Otherwise none: scanning the leaf isn't worth it then.
pub(crate) fn run_from<P: Pages>(
    pages: &mut P,
    alloc: Global,
    root: &PagePlace,
    cursor: &RowsCursor,
    from: Key,
    stamp: Stamp,
) -> Result<Run, NodeError>
    requires has { HasKey root.now from }
    requires level { 1 ≤ root.now.level }
    ensures run { (start : Start) (shown : List (List ℕ)) → P.shows pages.old start shown → (s : Store) (all : List Version) → RepresentsShown shown s all root.now → IfOk result (IsRun all stamp from) }
    ensures blames { (start : Start) (shown : List (List ℕ)) → P.shows pages.old start shown → (s : Store) (all : List Version) → RepresentsShown shown s all root.now → (page : ℕ) → result ≡ Err (NodeError.BadNode page) → ⊥ }
    ensures refused { IfErr result (LookRefusal (P.down pages.old)) }
    ensures same { OnlyReads P.Pages pages.old pages.new (result ≡ Err NodeError.Fault) }
{
    if goes_from_key_to_key(&cursor.question.select) {
        next_run(pages, alloc, root, from, stamp)
    } else {
        Ok(Run {
            rows: Vec::new(alloc),
            high: Some(from),
        })
    }
}
