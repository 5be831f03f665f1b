//! A tree is opened: the header of its root's page has its level.
ghost use Rattle.std.specs.Prelude.{◌≡◌, ◌≤◌, ℕ, List, IfOk, IfErr, IfSome, Some, Err};
ghost use Rattle.page_tx.specs.Start.{Start};
ghost use Rattle.tsb_walk.specs.Shown.{RepresentNodes};
ghost use Rattle.tsb_tree.specs.Opened.{IsRoot, IsShownRoot, HasRootLevel};
ghost use Rattle.tsb_tree.specs.Refusals.{IsHonest, ReadRefusal};
ghost use Rattle.tsb_tree.specs.Stores.{ReadsAlone};
ghost use Rattle.version_model.specs.Pages.{Store, TreeRepresents};
ghost use Rattle.version_model.specs.Versions.{Version};

use crate::error::TreeError;
use crate::reading::see;
use crate::tree::TreePlace;
use disk_models::Page;
use page_tx::Pages;
use tsb_node::{column_head, key_node_head};
use tsb_walk::{PagePlace, are_its_keys};
use version_model::Stamp;

// The level of the root that a page is, by its header.
fn root_level(page: &Page) -> Option<u8>
    ensures level { (level : ℕ) → IsRoot page.now level → result ≡ Some level }
    ensures some { IfSome result (λ level. (1 ≤ level) × (level ≤ 7)) }
{
    let root = PagePlace::root(0, 1);
    if let Ok(head) = key_node_head(page.octets()) {
        if !are_its_keys(&head.bounds, &root) {
            return None;
        }
        return Some(head.level);
    }
    let Ok(bounds) = column_head(page.octets()) else {
        return None;
    };
    if !are_its_keys(&bounds, &root) {
        return None;
    }
    Some(1)
}

/// Opens the tree with this root, to which versions of stamps from `least` on may come: the header of its root's page has the level. A
/// page that is reported as bad is no root, but not every page that is no root is reported. Pages are only read.
pub fn open<P: Pages>(pages: &mut P, root: u64, least: Stamp) -> Result<TreePlace, TreeError>
    ensures level { (start : Start) (shown : List (List ℕ)) → P.shows pages.old start shown → IfOk result (λ place. HasRootLevel shown root place.level) }
    ensures bad { (start : Start) (shown : List (List ℕ)) → P.shows pages.old start shown → (page : ℕ) → result ≡ Err (TreeError.BadNode page) → (page ≡ root) × ((level : ℕ) → IsShownRoot shown root level → ⊥) }
    ensures opened { (start : Start) (shown : List (List ℕ)) → P.shows pages.old start shown → (s : Store) (all : List Version) (level : ℕ) → RepresentNodes shown s.nodes → TreeRepresents s all root level
        → IfOk result (λ place. place.level ≡ level) }
    ensures honest { (start : Start) (shown : List (List ℕ)) → P.shows pages.old start shown → (s : Store) (all : List Version) (level : ℕ) → RepresentNodes shown s.nodes → TreeRepresents s all root level
        → IsHonest result }
    ensures root { IfOk result (λ place. place.root ≡ root) }
    ensures least { IfOk result (λ place. place.least ≡ least) }
    ensures some { IfOk result (λ place. 1 ≤ place.level) }
    ensures few { IfOk result (λ place. place.level ≤ 7) }
    ensures refused { IfErr result (ReadRefusal (P.down pages.old)) }
    ensures reads { ReadsAlone P.Pages pages.old pages.new result }
{
    see(pages, root)?;
    let Some(page) = pages.page(root) else {
        unreachable!()
    };
    match root_level(page) {
        Some(level) => Ok(TreePlace { root, level, least }),
        None => Err(TreeError::BadNode(root)),
    }
}
