//! Trees whose pages and blocks are octets that a text says, and what is changed of them.

use crate::blocks::Blocks;
use crate::memory::{set_page, shelf_of};
use crate::script::Script;
use crate::tree::Tree;
use disk_memory::MemOnce;
use disk_models::{Block, Page};
use once_store::{Shelf, seal};
use page_tx::Pages;
use std::alloc::Global;

/// A tree: the page and the level of its root, and its pages and blocks. A line of a page begins with its number, and that of a block with
/// 1, or with 0 where the block gets no digest.
pub(crate) struct Laid {
    pub(crate) root: u64,
    pub(crate) level: u8,
    pub(crate) pages: &'static str,
    pub(crate) blocks: &'static str,
}

/// An octet of a block that is turned: before the block gets its digest, or after.
#[derive(Clone, Copy)]
pub(crate) struct Turned {
    pub(crate) block: u64,
    pub(crate) octet: usize,
    pub(crate) is_sealed: bool,
}

/// No octet of a block.
const NO_OCTET: Turned = Turned {
    block: u64::MAX,
    octet: 0,
    is_sealed: true,
};

/// Lays the page of a line.
pub(crate) fn lay_page(tree: &mut Tree, script: &mut Script) -> Option<()> {
    let page = script.take();
    let octets = script.take_octets(tree.alloc)?;
    crate::memory::lay(tree.alloc, &mut tree.tx, page, &octets)
}

/// Lays the pages of a text.
fn lay_pages(tree: &mut Tree, text: &str) -> Option<()> {
    let mut script = Script::of(tree.alloc, text)?;
    for _ in 0..100u32 {
        if script.is_done() {
            return tree.tx.commit().ok();
        }
        lay_page(tree, &mut script)?;
    }
    None
}

/// The block of a line.
fn block_of(alloc: Global, script: &mut Script) -> Option<Block> {
    let is_sealed = script.take() == 1;
    let octets = script.take_octets(alloc)?;
    if octets.len() > 16_352 {
        return None;
    }
    let mut block = Block::new(alloc).ok()?;
    block.put(0, &octets);
    if is_sealed {
        seal(&mut block);
    }
    Some(block)
}

/// Turns an octet of a block.
fn turn_octet(block: &mut Block, turned: &Turned) -> Option<()> {
    *block.octets_mut().get_mut(turned.octet)? ^= turning(turned.octet);
    if turned.is_sealed {
        seal(block);
    }
    Some(())
}

/// Appends the block of a line, of which an octet is turned, if it is that block.
fn append(
    alloc: Global,
    shelf: &mut Shelf<MemOnce>,
    script: &mut Script,
    turned: &Turned,
) -> Option<()> {
    let mut block = block_of(alloc, script)?;
    if shelf.next() == turned.block {
        turn_octet(&mut block, turned)?;
    }
    shelf.append(&block).ok()?;
    Some(())
}

/// Appends the blocks of a text. Of one of them an octet is turned.
fn append_all(
    alloc: Global,
    shelf: &mut Shelf<MemOnce>,
    text: &str,
    turned: &Turned,
) -> Option<()> {
    let mut script = Script::of(alloc, text)?;
    for _ in 0..100u32 {
        if script.is_done() {
            return Some(());
        }
        append(alloc, shelf, &mut script, turned)?;
    }
    None
}

/// Gives the tree the blocks of a text, of which one has an octet turned.
pub(crate) fn turn_block(tree: &mut Tree, laid: &Laid, turned: Turned) -> Option<()> {
    tree.shelf = shelf_of(tree.alloc, 16, Vec::new(tree.alloc))?;
    append_all(tree.alloc, &mut tree.shelf, laid.blocks, &turned)?;
    tree.blocks = Blocks::of(tree.alloc, &mut tree.shelf, 4)?;
    Some(())
}

/// Lays the pages and the blocks of a tree.
pub(crate) fn lay(tree: &mut Tree, laid: &Laid) -> Option<()> {
    turn_block(tree, laid, NO_OCTET)?;
    lay_pages(tree, laid.pages)
}

/// Which bit of an octet is turned: that of the unit of times makes it none, where the lowest one would make it another.
fn turning(octet: usize) -> u8 {
    if octet == 1 { 2 } else { 1 }
}

/// A page of the tree, with an octet turned.
fn turned_page(tree: &mut Tree, page: u64, octet: usize) -> Option<Page> {
    if page >= tree.tx.pool().home_pages() {
        return None;
    }
    tree.tx.fetch(page).ok()?;
    let mut turned = Page::new(tree.alloc).ok()?;
    turned.put(0, tree.tx.page(page)?.octets());
    *turned.octets_mut().get_mut(octet)? ^= turning(octet);
    Some(turned)
}

/// Turns an octet of a page. Done twice, it is as before.
pub(crate) fn turn(tree: &mut Tree, page: u64, octet: usize) -> bool {
    match turned_page(tree, page, octet) {
        Some(turned) => set_page(&mut tree.tx, page, turned).is_some(),
        None => false,
    }
}
