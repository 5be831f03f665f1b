//! The path of a key through the pages of a tree, down to the column that has it.

ghost use Rattle.std.specs.Prelude.{◌≡◌, ◌<◌, ◌≤◌, ℕ, suc, Bool, List, IfOk, OnOk, IfErr, Err};
ghost use Rattle.page_tx.specs.Refusals.{FetchRefusal};
ghost use Rattle.page_tx.specs.Start.{Start};
ghost use Rattle.tsb_walk.specs.Shown.{HasKey};
ghost use Rattle.tsb_walk.specs.PageWays.{IsLed, PageWay, IsNoKeyNode, IsBadKeyNode};
ghost use Rattle.tsb_walk.specs.Refusals.{OnlyReads, WalkRefusal};

use crate::error::NodeError;
use crate::page_place::PagePlace;
use crate::page_steps::child_in;
use page_tx::{PageError, Pages};
use route_model::Key;

// Why a page isn't read.
fn refusal_of(refusal: PageError) -> NodeError
    requires known { (down : Bool) × FetchRefusal down refusal }
    ensures refused { (down : Bool) → FetchRefusal down refusal → WalkRefusal down result }
    ensures fault { result ≡ NodeError.Fault → refusal ≡ PageError.Fault }
    ensures is_fault { refusal ≡ PageError.Fault → result ≡ NodeError.Fault }
    ensures never { (page : ℕ) → result ≡ NodeError.BadNode page → ⊥ }
{
    match refusal {
        PageError::Fault => NodeError::Fault,
        PageError::NeedsRecovery => NodeError::NeedsRecovery,
        PageError::OutOfMemory => NodeError::OutOfMemory,
        PageError::TooManyImages => unreachable!(),
        PageError::PagesFull => unreachable!(),
    }
}

/// Brings a page of a tree into memory, unless it is there. A page that doesn't exist is bad.
pub fn bring<P: Pages>(pages: &mut P, n: u64) -> Result<(), NodeError>
    ensures there { OnOk result (P.resident pages.new n) }
    ensures inside { OnOk result (n < P.homes pages.old) }
    ensures bad { (page : ℕ) → result ≡ Err (NodeError.BadNode page) → (page ≡ n) × (P.homes pages.old ≤ n) }
    ensures refused { IfErr result (WalkRefusal (P.down pages.old)) }
    ensures same { OnlyReads P.Pages pages.old pages.new (result ≡ Err NodeError.Fault) }
{
    if n >= pages.home_pages() {
        return Err(NodeError::BadNode(n));
    }
    match pages.fetch(n) {
        Ok(()) => Ok(()),
        Err(refusal) => Err(refusal_of(refusal)),
    }
}

/// Goes down from a key node to its child that has the key: one level below, of exactly the keys that the key node gives it. Of the page
/// only its header and that child are read: a page that is reported as bad isn't a key node of exactly the place's level and keys, but not
/// each page that isn't one is reported. Pages are only read.
pub fn down<P: Pages>(pages: &mut P, place: &PagePlace, key: Key) -> Result<PagePlace, NodeError>
    requires has { HasKey place.now key }
    ensures has { IfOk result (λ next. HasKey next key) }
    ensures level { IfOk result (λ next. suc next.level ≡ place.now.level) }
    ensures led { (start : Start) (shown : List (List ℕ)) → P.shows pages.old start shown → IfOk result (IsLed shown key place.now) }
    ensures bad { (start : Start) (shown : List (List ℕ)) → P.shows pages.old start shown → (page : ℕ) → result ≡ Err (NodeError.BadNode page) → (place.now.page ≡ page) × IsNoKeyNode shown place.now }
    ensures refused { IfErr result (WalkRefusal (P.down pages.old)) }
    ensures same { OnlyReads P.Pages pages.old pages.new (result ≡ Err NodeError.Fault) }
{
    bring(pages, place.page)?;
    let Some(page) = pages.page(place.page) else {
        unreachable!();
    };
    match child_in(page, place, key) {
        Some(next) => Ok(next),
        None => Err(NodeError::BadNode(place.page)),
    }
}

/// The place of the column that has a key, by the path on which the pages lead from the root of a tree.
///
/// A page that is reported as bad isn't the key node that it has to be. Pages are only read.
pub fn locate<P: Pages>(pages: &mut P, root: &PagePlace, key: Key) -> Result<PagePlace, NodeError>
    requires has { HasKey root.now key }
    requires level { 1 ≤ root.now.level }
    ensures has { IfOk result (λ column. HasKey column key) }
    ensures level { IfOk result (λ column. column.level ≡ 1) }
    ensures way { (start : Start) (shown : List (List ℕ)) → P.shows pages.old start shown → IfOk result (PageWay shown key root.now) }
    ensures bad { (start : Start) (shown : List (List ℕ)) → P.shows pages.old start shown → (page : ℕ) → result ≡ Err (NodeError.BadNode page) → IsBadKeyNode shown root.now key page }
    ensures refused { IfErr result (WalkRefusal (P.down pages.old)) }
    ensures same { OnlyReads P.Pages pages.old pages.new (result ≡ Err NodeError.Fault) }
{
    let mut at = *root;
    while at.level > 1 {
        at = down(pages, &at, key)?;
    }
    Ok(at)
}
