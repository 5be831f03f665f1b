//! Lookups from the root of a tree, which go on in its blocks.

ghost use Rattle.std.specs.Option.{IfSome};
ghost use Rattle.std.specs.Prelude.{◌≤◌};
ghost use Rattle.tsb_walk.specs.Shown.{HasKey};

use crate::answers::{Answer, NONE, NOTHING, found, reached, refusal, set, set_versions, wrong};
use crate::blocks::part_of;
use crate::tree::{Tree, look};
use route_model::Key;
use tsb_check::{InUse, check};
use tsb_walk::{Descended, KeyVersions, Looked, PagePlace, Parted, descend, next, part, versions};
use version_model::{Entry, Stamp};

/// The root of the tree, to look for a key from it.
fn root_for(tree: &Tree, key: Key) -> Option<PagePlace>
    ensures has { IfSome result (λ root. HasKey root key) }
    ensures level { IfSome result (λ root. 1 ≤ root.level) }
{
    let root = PagePlace::root(tree.place.root, tree.place.level);
    if !root.has(key) || root.level < 1 {
        return None;
    }
    Some(root)
}

/// What a key has as of a stamp.
pub(crate) fn value_at(tree: &mut Tree, key: Key, stamp: Stamp) -> Answer {
    let Some(root) = root_for(tree, key) else {
        return wrong();
    };
    match descend(&mut tree.tx, tree.alloc, &root, key, stamp) {
        Ok(Descended::Here(it)) => found(key, &it),
        Ok(Descended::InBlock(place)) => {
            look(tree);
            tree.blocks.value(&place, key, stamp)
        }
        Err(error) => refusal(&error),
    }
}

/// The next key from one on that has a value as of a stamp, in one column.
pub(crate) fn next_at(tree: &mut Tree, from: Key, stamp: Stamp) -> Answer {
    let Some(root) = root_for(tree, from) else {
        return wrong();
    };
    match next(&mut tree.tx, tree.alloc, &root, from, stamp) {
        Ok(Looked::Here(it)) => reached(&it),
        Ok(Looked::InBlock(place)) => {
            look(tree);
            tree.blocks.next(&place, from, stamp)
        }
        Err(error) => refusal(&error),
    }
}

/// The first part of the versions of a key from a stamp on, and its block, if it is in one.
pub(crate) fn versions_at(
    tree: &mut Tree,
    key: Key,
    from: Stamp,
) -> Result<(u64, KeyVersions), Answer> {
    let Some(root) = root_for(tree, key) else {
        return Err(wrong());
    };
    match part(&mut tree.tx, tree.alloc, &root, key, from) {
        Ok(Parted::Here(it)) => Ok((NONE, it)),
        Ok(Parted::InBlock(place)) => {
            look(tree);
            let it = tree.blocks.versions(&place, key, from)?;
            Ok((place.part.block, it))
        }
        Err(error) => Err(refusal(&error)),
    }
}

/// The same as an answer.
pub(crate) fn part_at(tree: &mut Tree, key: Key, from: Stamp) -> Answer {
    match versions_at(tree, key, from) {
        Ok((block, part)) => {
            let mut answer = part_of(key, &part);
            set(&mut answer, 2, block);
            answer
        }
        Err(answer) => answer,
    }
}

/// All versions of a key.
pub(crate) fn all_at(tree: &mut Tree, key: Key) -> Result<Vec<Entry>, Answer> {
    let Some(root) = root_for(tree, key) else {
        return Err(wrong());
    };
    look(tree);
    let blocks = &mut tree.blocks;
    match versions(
        &mut tree.tx,
        &mut blocks.reader,
        &mut blocks.seen,
        tree.alloc,
        &root,
        key,
    ) {
        Ok(entries) => Ok(entries),
        Err(error) => Err(refusal(&error)),
    }
}

/// The same as an answer.
pub(crate) fn whole_at(tree: &mut Tree, key: Key) -> Answer {
    match all_at(tree, key) {
        Ok(entries) => {
            let mut answer = NOTHING;
            set_versions(&mut answer, key, &entries);
            answer
        }
        Err(answer) => answer,
    }
}

/// What a check of the tree with this root finds, where these pages and blocks are in use.
pub(crate) fn checked(tree: &mut Tree, root: &PagePlace, in_use: &InUse) -> Answer {
    look(tree);
    let blocks = &mut tree.blocks;
    match check(
        &mut tree.tx,
        &mut blocks.reader,
        &mut blocks.seen,
        tree.alloc,
        in_use,
        root,
    ) {
        Ok(count) => {
            let mut answer = NOTHING;
            set(&mut answer, 9, count);
            answer
        }
        Err(error) => refusal(&error),
    }
}
