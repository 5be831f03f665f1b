//! A column's leaf as it was until a stamp becomes a block, and its whole past if its page has no room for a further part.
ghost use Rattle.std.specs.Prelude.{◌≡◌, ◌+◌, ◌^◌, ◌<◌, ◌≤◌, ◌⊎◌, ◌++◌, ◌∷◌, [], ℕ, List, Option, Some, IfOk, IfErr, IsErr, OnOk, length, vec_len};
ghost use Rattle.once_store.specs.Shelves.{disk_of, next_of, pen_of};
ghost use Rattle.version_model.specs.Blocks.{BlockNode};
ghost use Rattle.version_model.specs.LeafVersions.{IsFrom};
ghost use Rattle.version_model.specs.Versions.{Version, Has};
ghost use Rattle.tsb_node.specs.Leaves.{IsLeafPage};
ghost use Rattle.worm_migration.specs.Settled.{ShelfRepresents};
ghost use Rattle.tsb_tree.specs.Refusals.{BurnRefusal};
ghost use Rattle.tsb_tree.specs.Shapes.{IsWhole, IsSameButParts, leaf_in_page, with_leaf};
ghost use Rattle.tsb_tree.specs.Shelves.{HasNoneBlank, KeepsShelf, MakesRoom, SpendsOne, TakesOn, burnt as burnt_blocks, packed, packed_parts};

use crate::error::TreeError;
use crate::whole::Whole;
use disk_models::{OnceDisk, Page};
use once_store::Shelf;
use std::alloc::Global;
use version_model::{Bounds, Leaf, Part, Stamp};
use worm_migration::{migrate_column, settle_part};

/// The blocks that a column's split by time used up: the one of its whole past, if its page had no room for another part, and the one of
/// its leaf.
#[derive(Clone, Copy, Debug)]
pub struct Burnt {
    pub column: Option<u64>,
    pub leaf: u64,
}

// The most parts that a column's page holds.
const MOST_PARTS: usize = 648;

// Puts one part in place of all of a column's.
fn keep_one(whole: &mut Whole, part: Part)
    requires { 0 < vec_len whole.old.parts }
    ensures part { whole.new.parts.items ≡ part ∷ [] }
    ensures same { IsSameButParts whole.new whole.old }
{
    whole.parts[0] = part;
    whole.parts.truncate(1);
}

// Makes one block of all parts of a column whose page has no room for one more, and returns its number.
fn pack<O: OnceDisk + Drop>(
    shelf: &mut Shelf<O>,
    alloc: Global,
    whole: &mut Whole,
) -> Result<u64, TreeError>
    requires whole { IsWhole whole.old }
    requires end { whole.old.start + 1 < 256 ^ 16 }
    requires many { 648 ≤ length whole.old.parts.items }
    ensures shelf { KeepsShelf O.OnceDisk 1 shelf.old shelf.new result }
    ensures room { O.honest (disk_of shelf.old) (pen_of shelf.old) → IfOk result (λ n. (blocks : ℕ → Option BlockNode) → ShelfRepresents O.OnceDisk shelf.old blocks
        → MakesRoom O.OnceDisk shelf.new blocks (packed whole.old (Some n) blocks) (next_of shelf.old) whole.old whole.new.parts.items) }
    ensures parts { IfOk result (λ n. whole.new.parts.items ≡ packed_parts whole.old (Some n)) }
    ensures refused { IfErr result BurnRefusal }
    ensures same { IsSameButParts whole.new whole.old }
{
    let (low, high, at) = (whole.low, whole.high, whole.start);
    let bounds = Bounds {
        low,
        high,
        start: Stamp::new(0, 0),
        end: None,
    };
    let part = migrate_column(shelf, alloc, &bounds, &whole.parts, at)?;
    let block = part.block;
    keep_one(whole, part);
    Ok(block)
}

// Makes room in a column for another part. If there is none its whole past becomes a block, whose number is returned.
fn make_room<O: OnceDisk + Drop>(
    shelf: &mut Shelf<O>,
    alloc: Global,
    whole: &mut Whole,
) -> Result<Option<u64>, TreeError>
    requires whole { IsWhole whole.old }
    requires end { whole.old.start + 1 < 256 ^ 16 }
    ensures shelf { KeepsShelf O.OnceDisk 1 shelf.old shelf.new result }
    ensures room { O.honest (disk_of shelf.old) (pen_of shelf.old) → IfOk result (λ column. (blocks : ℕ → Option BlockNode) → ShelfRepresents O.OnceDisk shelf.old blocks
        → MakesRoom O.OnceDisk shelf.new blocks (packed whole.old column blocks) (next_of shelf.old) whole.old whole.new.parts.items) }
    ensures same { IsSameButParts whole.new whole.old }
    ensures few { OnOk result (length whole.new.parts.items ≤ 647) }
    ensures with_room { length whole.old.parts.items < 648 → shelf.new ≡ shelf.old }
    ensures refused { IfErr result BurnRefusal }
    ensures whole { OnOk result (IsWhole whole.new) }
{
    if whole.parts.len() < MOST_PARTS {
        return Ok(None);
    }
    match pack(shelf, alloc, whole) {
        Ok(block) => Ok(Some(block)),
        Err(refusal) => Err(refusal),
    }
}

/// Splits a column by time at the stamp of the last version of its leaf: the leaf as it was, which is in a page, becomes a block and a
/// part of the column's past, and what goes on stays. After an error the column can't be used.
pub fn split_by_time<O: OnceDisk + Drop>(
    shelf: &mut Shelf<O>,
    alloc: Global,
    page: &Page,
    whole: &mut Whole,
    newer: Leaf,
    at: Stamp,
) -> Result<Burnt, TreeError>
    requires whole { IsWhole whole.old }
    requires forward { whole.old.start < at }
    requires end { at + 1 < 256 ^ 16 }
    ensures shelf { KeepsShelf O.OnceDisk 2 shelf.old shelf.new result }
    ensures one_block { SpendsOne O.OnceDisk shelf.old shelf.new ⊎ (648 ≤ length whole.old.parts.items) }
    ensures none_left { O.honest (disk_of shelf.old) (pen_of shelf.old) → HasNoneBlank O.OnceDisk shelf.old → IsErr result }
    ensures takes { O.honest (disk_of shelf.old) (pen_of shelf.old) → (leaf : List Version) (v : Version) → IsLeafPage (leaf_in_page (with_leaf whole.old leaf)) page.now
        → whole.old.leaf ≡ leaf ++ v ∷ [] → v.stamp ≡ at → IsFrom whole.old.leaf at newer
        → IfOk result (λ burnt. (blocks : ℕ → Option BlockNode) → ShelfRepresents O.OnceDisk shelf.old blocks
        → TakesOn O.OnceDisk shelf.new blocks (burnt_blocks whole.old leaf at burnt blocks) (next_of shelf.old) v (with_leaf whole.old leaf) whole.new) }
    ensures refused { IfErr result BurnRefusal }
    ensures low { OnOk result (whole.new.low ≡ whole.old.low) }
    ensures high { OnOk result (whole.new.high ≡ whole.old.high) }
    ensures start { OnOk result (whole.new.start ≡ at) }
    ensures leaf { OnOk result (whole.new.leaf ≡ newer) }
    ensures whole { ((v : Version) → Has newer v → Has whole.old.leaf v) → OnOk result (IsWhole whole.new) }
{
    let column = make_room(shelf, alloc, whole)?;
    let start = whole.start;
    match settle_part(shelf, alloc, page, start, at, &mut whole.parts) {
        Ok(leaf) => {
            whole.start = at;
            whole.leaf = newer;
            Ok(Burnt { column, leaf })
        }
        Err(refusal) => Err(TreeError::from(refusal)),
    }
}
