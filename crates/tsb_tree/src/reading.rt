//! Reading the nodes of a tree from its pages.
ghost use Rattle.std.specs.Prelude.{◌≡◌, ◌<◌, ◌≤◌, ℕ, Bool, List, Some, IfOk, OnOk, IfErr, Err, IsErrOf, slice_get};
ghost use Rattle.page_tx.specs.declared.error.PageError.{PageError};
ghost use Rattle.page_tx.specs.Start.{Start};
ghost use Rattle.version_model.specs.declared.part.Part.{Part};
ghost use Rattle.version_model.specs.declared.child.Child.{Child};
ghost use Rattle.version_model.specs.Pages.{Keys, ColumnNode, KeyNode};
ghost use Rattle.tsb_node.specs.Leaves.{LeafNode, IsLeafPage};
ghost use Rattle.tsb_node.specs.Columns.{IsColumn};
ghost use Rattle.tsb_node.specs.KeyNodes.{IsKeyNode};
ghost use Rattle.tsb_node.specs.Decoded.{decoded_column, decoded_key_node};
ghost use Rattle.tsb_node.specs.Views.{PageRepresents, keys_between};
ghost use Rattle.tsb_tree.specs.Refusals.{IsHonest, ReadRefusal};
ghost use Rattle.tsb_tree.specs.Stores.{ReadsAlone};

use crate::error::{TreeError, unread};
use disk_models::Page;
use page_tx::Pages;
use std::alloc::Global;
use tsb_node::{DecodedColumn, DecodedKeyNode, column_of_page, key_node_of_page, leaf_of_page};
use tsb_walk::bring;
use version_model::{Bounds, Leaf};

/// Brings a page into memory.
pub fn see<P: Pages>(pages: &mut P, n: u64) -> Result<(), TreeError>
    ensures there { OnOk result (P.resident pages.new n) }
    ensures inside { OnOk result (n < P.homes pages.old) }
    ensures honest { n < P.homes pages.old → IsHonest result }
    ensures bad { (page : ℕ) → result ≡ Err (TreeError.BadNode page) → (page ≡ n) × (P.homes pages.old ≤ n) }
    ensures refused { IfErr result (ReadRefusal (P.down pages.old)) }
    ensures reads { ReadsAlone P.Pages pages.old pages.new result }
{
    match bring(pages, n) {
        Ok(()) => Ok(()),
        Err(refusal) => Err(TreeError::from(refusal)),
    }
}

// A copy of a page in memory.
fn copied<P: Pages>(pages: &P, n: u64) -> Result<Page, TreeError>
    requires there { P.resident pages.now n }
    requires inside { n < P.homes pages.now }
    ensures shown { IfOk result (λ image. (start : Start) (shown : List (List ℕ)) → P.shows pages.now start shown → slice_get shown n ≡ Some image) }
    ensures memory { IfErr result (λ e. e ≡ TreeError.OutOfMemory) }
{
    let Some(page) = pages.page(n) else {
        unreachable!()
    };
    Ok(page.clone()?)
}

/// A copy of a page, as it is shown.
pub fn image_of<P: Pages>(pages: &mut P, n: u64) -> Result<Page, TreeError>
    ensures shown { IfOk result (λ image. (start : Start) (shown : List (List ℕ)) → P.shows pages.old start shown → slice_get shown n ≡ Some image) }
    ensures inside { OnOk result (n < P.homes pages.old) }
    ensures honest { n < P.homes pages.old → IsHonest result }
    ensures refused { IfErr result (ReadRefusal (P.down pages.old)) }
    ensures reads { ReadsAlone P.Pages pages.old pages.new result }
{
    see(pages, n)?;
    let page = copied(pages, n)?;
    Ok(page)
}

/// What the column in a page of this number represents.
pub fn column_in(alloc: Global, page: &Page, n: u64) -> Result<DecodedColumn, TreeError>
    ensures valid { IfOk result (λ decoded. IsColumn (decoded_column decoded)) }
    ensures represents_node { (k : Keys) (parts : List Part) (start current : ℕ) → PageRepresents page.now (ColumnNode k parts start current)
        → IfOk result (λ decoded. ColumnNode (keys_between decoded.bounds) decoded.parts.items decoded.current.start decoded.current.page ≡ ColumnNode k parts start current) × IsHonest result }
    ensures is { IfOk result (λ decoded. PageRepresents page.now (ColumnNode (keys_between decoded.bounds) decoded.parts.items decoded.current.start decoded.current.page)) }
    ensures bad { (bad : ℕ) → result ≡ Err (TreeError.BadNode bad) → bad ≡ n }
    ensures refused { (down : Bool) → IfErr result (ReadRefusal down) }
    ensures read { IsErrOf result (TreeError.Pages PageError.Fault) → ⊥ }
{
    match column_of_page(alloc, page) {
        Ok(decoded) => Ok(decoded),
        Err(fault) => Err(unread(fault, n)),
    }
}

/// What the leaf in a page of this number represents: its bounds, and its versions.
pub fn leaf_in(alloc: Global, page: &Page, n: u64) -> Result<(Bounds, Leaf), TreeError>
    ensures leaf { IfOk result (λ decoded. IsLeafPage (record { bounds = decoded.0; versions = decoded.1 }) page.now) }
    ensures honest { (leaf : LeafNode) → IsLeafPage leaf page.now → IsHonest result }
    ensures bad { (bad : ℕ) → result ≡ Err (TreeError.BadNode bad) → bad ≡ n }
    ensures refused { (down : Bool) → IfErr result (ReadRefusal down) }
    ensures read { IsErrOf result (TreeError.Pages PageError.Fault) → ⊥ }
{
    match leaf_of_page(alloc, page) {
        Ok(decoded) => match Leaf::of(decoded.entries, 16_232) {
            Some(leaf) => Ok((decoded.bounds, leaf)),
            None => Err(TreeError::BadNode(n)),
        },
        Err(fault) => Err(unread(fault, n)),
    }
}

/// What the key node in a page of this number represents.
pub fn key_node_in(alloc: Global, page: &Page, n: u64) -> Result<DecodedKeyNode, TreeError>
    ensures valid { IfOk result (λ decoded. IsKeyNode (decoded_key_node decoded)) }
    ensures represents_node { (level : ℕ) (k : Keys) (children : List Child) → PageRepresents page.now (KeyNode level k children)
        → IfOk result (λ decoded. KeyNode decoded.level (keys_between decoded.bounds) decoded.children.items ≡ KeyNode level k children) × IsHonest result }
    ensures is { IfOk result (λ decoded. PageRepresents page.now (KeyNode decoded.level (keys_between decoded.bounds) decoded.children.items)) }
    ensures bad { (bad : ℕ) → result ≡ Err (TreeError.BadNode bad) → bad ≡ n }
    ensures refused { (down : Bool) → IfErr result (ReadRefusal down) }
    ensures read { IsErrOf result (TreeError.Pages PageError.Fault) → ⊥ }
{
    match key_node_of_page(alloc, page) {
        Ok(decoded) => Ok(decoded),
        Err(fault) => Err(unread(fault, n)),
    }
}
