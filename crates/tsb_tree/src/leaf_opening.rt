//! A current leaf takes versions in memory, one after another. Its page is laid once, after the last of them.
ghost use Rattle.std.specs.Prelude.{◌≡◌, ◌<◌, ◌≤◌, ◌+◌, ◌^◌, ◌++◌, ◌∷◌, [], ℕ, List, slice_set, IfOk, IfErr, true, false};
ghost use Rattle.page_tx.specs.Start.{Start};
ghost use Rattle.version_model.specs.Entries.{version_of};
ghost use Rattle.version_model.specs.Pages.{Store};
ghost use Rattle.version_model.specs.Ranges.{key_end};
ghost use Rattle.version_model.specs.Sizes.{entry_octets};
ghost use Rattle.version_model.specs.Versions.{Version};
ghost use Rattle.tsb_walk.specs.PageWays.{PageWay};
ghost use Rattle.tsb_walk.specs.Shown.{HasKey, RepresentNodes};
ghost use Rattle.tsb_tree.specs.OpenLeaves.{IsOpen, TakesInLeaf};
ghost use Rattle.tsb_tree.specs.Read.{IsFilled};
ghost use Rattle.tsb_tree.specs.Refusals.{ReadRefusal};
ghost use Rattle.tsb_tree.specs.Stores.{ReadsAlone};
ghost use Rattle.tsb_tree.specs.Trees.{TreeHas};

use crate::current_leaf::current_leaf;
use crate::error::TreeError;
use crate::putting_in_leaf::push_entry;
use crate::tree::TreePlace;
use disk_models::Page;
use page_tx::Pages;
use route_model::Key;
use tsb_walk::{PagePlace, locate};
use version_model::Entry;

/// The current leaf of a column, open for versions: the column's place, and the number and the image of the leaf's page.
#[derive(Drop)]
pub struct OpenLeaf {
    pub column: PagePlace,
    pub page: u64,
    pub image: Page,
}

// The place of the column that has a key.
fn column_of<P: Pages>(pages: &mut P, root: &PagePlace, key: Key) -> Result<PagePlace, TreeError>
    requires has { HasKey root.now key }
    requires level { 1 ≤ root.now.level }
    ensures has { IfOk result (λ column. HasKey column key) }
    ensures level { IfOk result (λ column. column.level ≡ 1) }
    ensures way { (start : Start) (shown : List (List ℕ)) → P.shows pages.old start shown → IfOk result (PageWay shown key root.now) }
    ensures refused { IfErr result (ReadRefusal (P.down pages.old)) }
    ensures reads { ReadsAlone P.Pages pages.old pages.new result }
{
    match locate(pages, root, key) {
        Ok(column) => Ok(column),
        Err(refusal) => Err(TreeError::from(refusal)),
    }
}

/// Opens the current leaf to which a version's key leads: its page is copied as it is shown. Pages are only read.
pub fn open_leaf<P: Pages>(
    pages: &mut P,
    place: TreePlace,
    entry: &Entry,
) -> Result<OpenLeaf, TreeError>
    requires some { 1 ≤ place.level }
    requires inside { entry.now.key + 1 < key_end }
    ensures leaf { (start : Start) (shown : List (List ℕ)) (s : Store) (all : List Version) → P.shows pages.old start shown → RepresentNodes shown s.nodes → TreeHas s all place.root place.level place.least → place.least ≤ entry.now.stamp
        → IfOk result (IsOpen shown place.root) }
    ensures has { IfOk result (λ leaf. HasKey leaf.column entry.now.key) }
    ensures inside { IfOk result (λ leaf. leaf.page < P.homes pages.old) }
    ensures refused { IfErr result (ReadRefusal (P.down pages.old)) }
    ensures reads { ReadsAlone P.Pages pages.old pages.new result }
{
    let root = PagePlace::root(place.root, place.level);
    let column = column_of(pages, &root, entry.key)?;
    let leaf = current_leaf(pages, &column, entry)?;
    Ok(OpenLeaf {
        column,
        page: leaf.page,
        image: leaf.image,
    })
}

/// Appends a version to an open leaf, if it is of the leaf's keys and there is room for it, and returns whether it did. If the leaf's image
/// is then laid over its page, the tree represents that version too.
pub fn push_version(leaf: &mut OpenLeaf, entry: &Entry) -> bool
    requires inside { entry.now.key + 1 < key_end }
    requires size { entry_octets (version_of entry.now) ≤ 3131 }
    requires end { entry.now.stamp + 1 < 2 ^ 128 }
    ensures takes { (shown : List (List ℕ)) (s : Store) (all : List Version) (root level least : ℕ) → IsOpen shown root leaf.old → RepresentNodes shown s.nodes → TreeHas s all root level least → least ≤ entry.now.stamp
        → result ≡ true → TakesInLeaf shown s (all ++ version_of entry.now ∷ []) root level (entry.now.stamp + 1) leaf.new }
    ensures open { (shown : List (List ℕ)) (s : Store) (all : List Version) (root level least : ℕ) → IsOpen shown root leaf.old → RepresentNodes shown s.nodes → TreeHas s all root level least → least ≤ entry.now.stamp
        → result ≡ true → IsOpen (slice_set shown leaf.new.page leaf.new.image) root leaf.new }
    ensures refuses { (shown : List (List ℕ)) (s : Store) (all : List Version) (root level least : ℕ) → IsOpen shown root leaf.old → RepresentNodes shown s.nodes → TreeHas s all root level least → least ≤ entry.now.stamp
        → result ≡ false → HasKey leaf.old.column entry.now.key → IsFilled leaf.old.column leaf.old.image (version_of entry.now) }
    ensures page { leaf.new.page ≡ leaf.old.page }
    ensures stays { result ≡ false → leaf.new ≡ leaf.old }
{
    if !leaf.column.has(entry.key) {
        return false;
    }
    match push_entry(&mut leaf.image, leaf.page, entry) {
        Ok(pushed) => pushed,
        Err(_) => false,
    }
}
