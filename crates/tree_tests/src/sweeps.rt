//! Pages and blocks of which each octet is turned: a lookup returns, or names one that isn't what its place asks. Lookups read headers
//! and what they need of the entries; what they pass over a check finds.

use crate::answers::{Answer, refused};
use crate::laid::{Laid, Turned, turn, turn_block};
use crate::lookups::{checked, whole_at};
use crate::memory::{IN_USE, key_of};
use crate::playing::{Point, is_reported, next, part, value};
use crate::script::Script;
use crate::tree::Tree;
use page_tx::Pages;
use tsb_walk::PagePlace;

/// A page or a block, a key and a stamp whose way comes to it, and what lookups return of the tree as it was put: the next key, what the
/// key has, the first part of its versions, and all of them.
#[derive(Clone, Copy)]
struct Way {
    number: u64,
    point: Point,
    next: Answer,
    value: Answer,
    part: Answer,
    all: Answer,
}

/// The way of a line.
fn way_of(script: &mut Script) -> Way {
    Way {
        number: script.take(),
        point: Point::of(script),
        next: script.take_answer(),
        value: script.take_answer(),
        part: script.take_answer(),
        all: script.take_answer(),
    }
}

/// Whether lookups return what they return of the tree as it was put.
fn is_whole(tree: &mut Tree, way: &Way) -> bool {
    next(tree, &way.point) == way.next
        && value(tree, &way.point) == way.value
        && part(tree, &way.point) == way.part
}

/// What a check of the tree finds.
fn found(tree: &mut Tree) -> Answer {
    let root = PagePlace::root(tree.place.root, tree.place.level);
    checked(tree, &root, &IN_USE)
}

/// The refusal of a page that is bad, and of a block that is damaged.
const PAGE: u64 = 1;

const BLOCK: u64 = 2;

/// What lookups do where an octet of a header is turned.
#[derive(Clone, Copy, PartialEq)]
enum Reading {
    /// They report the page as bad, or the block as damaged.
    Refused,
    /// They answer as they did.
    PassedOver,
    /// The count of the entries: what lines of their own say.
    Count,
}

/// What lookups do with an octet of the header of a page, or of zeros after its entries: they check the kind, the unit, the level, the
/// keys, and the start of a leaf. The pages from 9 on are current leaves.
fn in_page(page: u64, octet: usize) -> Reading {
    match octet {
        0..=3 | 8..=87 => Reading::Refused,
        4..=5 => Reading::Count,
        88..=103 if page >= 9 => Reading::Refused,
        _ => Reading::PassedOver,
    }
}

/// What lookups do with an octet of the header of a block: they check the kind, the unit, the level, the low key and the stamps. A
/// block may have more keys than its place.
fn in_block(octet: usize) -> Reading {
    match octet {
        0..=3 | 8..=47 | 88..=119 => Reading::Refused,
        4..=5 => Reading::Count,
        _ => Reading::PassedOver,
    }
}

/// Whether all lookups refuse a page or a block.
fn is_refused(tree: &mut Tree, way: &Way, refusal: &Answer) -> bool {
    is_reported(tree, &way.point, refusal) && whole_at(tree, key_of(way.point.key)) == *refusal
}

/// Whether lookups do what they should where an octet of a page is turned, and a check reports the page as bad. It is mended then.
fn is_header_octet(tree: &mut Tree, way: &Way, octet: usize) -> bool {
    let bad = refused(PAGE, way.number);
    let is_turned = turn(tree, way.number, octet);
    let is_read = match in_page(way.number, octet) {
        Reading::Refused => is_refused(tree, way, &bad),
        Reading::PassedOver => {
            is_whole(tree, way) && whole_at(tree, key_of(way.point.key)) == way.all
        }
        Reading::Count => true,
    };
    is_turned && is_read && found(tree) == bad && turn(tree, way.number, octet)
}

/// Whether that is so of each octet of a header, and of octets after the entries, where zeros stand.
fn is_header(tree: &mut Tree, way: &Way) -> bool {
    for octet in 0..120usize {
        if !is_header_octet(tree, way, octet) {
            return false;
        }
    }
    is_header_octet(tree, way, 16_351)
        && is_header_octet(tree, way, 16_352)
        && is_header_octet(tree, way, 16_383)
        && is_whole(tree, way)
}

/// Why the lookups of a point fail, 2^64 - 1 where they don't: all of them do, or none. Else it's 0.
fn refusal_at(tree: &mut Tree, point: &Point) -> [u64; 2] {
    let next = next(tree, point);
    let value = value(tree, point);
    let part = part(tree, point);
    if value[..2] == next[..2] && part[..2] == next[..2] {
        [next[0], next[1]]
    } else {
        [0, 0]
    }
}

/// Whether lookups that pass a page or a block of which an octet that leads on is turned return what they returned before, or all name
/// one page or block as damaged; and a check names one.
fn is_whole_or_named(tree: &mut Tree, way: &Way) -> bool {
    let reason = refusal_at(tree, &way.point)[0];
    let is_right = if reason == u64::MAX {
        is_whole(tree, way)
    } else {
        is_named_at_all(reason)
    };
    is_right && is_named_at_all(found(tree)[0])
}

/// Whether a page or a block is the reason.
fn is_named_at_all(reason: u64) -> bool {
    reason == PAGE || reason == BLOCK
}

/// Where the entries of a page or a block end: after its header and as many octets as that says.
fn end_of(high: u8, low: u8) -> usize {
    usize::from(u16::from_be_bytes([high, low])).saturating_add(120)
}

/// The end of the entries of a page.
fn page_end(tree: &mut Tree, page: u64) -> usize {
    if page >= tree.tx.pool().home_pages() || tree.tx.fetch(page).is_err() {
        return 0;
    }
    match tree.tx.page(page) {
        Some(page) => end_of(page.octets()[6], page.octets()[7]),
        None => 0,
    }
}

/// The end of the entries of a block.
fn block_end(tree: &mut Tree, block: u64) -> usize {
    if tree
        .blocks
        .reader
        .fetch(&mut tree.blocks.seen, block)
        .is_err()
    {
        return 0;
    }
    match tree.blocks.reader.block(block) {
        Some(block) => end_of(block.octets()[6], block.octets()[7]),
        None => 0,
    }
}

/// Whether lookups that pass a page are right or name one, with each octet of its entries turned. It leads on to other pages.
fn leads_on(tree: &mut Tree, way: &Way) -> bool {
    let end = page_end(tree, way.number);
    for octet in 120..end {
        let is_turned = turn(tree, way.number, octet);
        let is_right = is_turned && is_whole_or_named(tree, way);
        if !is_right || !turn(tree, way.number, octet) {
            return false;
        }
    }
    end > 120 && is_whole(tree, way)
}

/// Whether lookups return, or fail for this reason, a page or a block with this number.
fn is_named(tree: &mut Tree, point: &Point, reason: u64, number: u64) -> bool {
    let refusal = refusal_at(tree, point);
    refusal[0] == u64::MAX || refusal == [reason, number]
}

/// Whether they return or name the page, with each octet of the entries of a current leaf turned.
fn is_current_leaf(tree: &mut Tree, script: &mut Script) -> bool {
    let page = script.take();
    let point = Point::of(script);
    let end = page_end(tree, page);
    for octet in 120..end {
        let is_turned = turn(tree, page, octet);
        let is_right = is_turned && is_named(tree, &point, PAGE, page);
        if !is_right || !turn(tree, page, octet) {
            return false;
        }
    }
    end > 120
}

/// Turns an octet of a block before it gets its digest.
fn turn_sealed(tree: &mut Tree, laid: &Laid, block: u64, octet: usize) -> bool {
    let turned = Turned {
        block,
        octet,
        is_sealed: true,
    };
    turn_block(tree, laid, turned).is_some()
}

/// What a check returns where an octet of the header of a block is turned: it counts the versions of a block that has more keys.
fn checked_block(tree: &mut Tree, block: u64, octet: usize) -> bool {
    let found = found(tree);
    match octet {
        48..=87 => found[9] == VERSIONS,
        _ => found == refused(BLOCK, block),
    }
}

/// How many versions the tree has.
const VERSIONS: u64 = 12;

/// Whether lookups do what they should where an octet of a block is turned, and return then what they did before or report the block as
/// damaged; and a check returns what it should.
fn is_block_octet(tree: &mut Tree, laid: &Laid, way: &Way, octet: usize) -> bool {
    let damaged = refused(BLOCK, way.number);
    let is_turned = turn_sealed(tree, laid, way.number, octet);
    let is_read = match in_block(octet) {
        Reading::Refused => is_refused(tree, way, &damaged),
        Reading::PassedOver => {
            is_reported(tree, &way.point, &way.next)
                && whole_at(tree, key_of(way.point.key))[0] == u64::MAX
        }
        Reading::Count => return is_turned,
    };
    is_turned && is_read && checked_block(tree, way.number, octet)
}

/// Whether that is so of each octet of the header, and of one after the entries.
fn is_block_header(tree: &mut Tree, laid: &Laid, way: &Way) -> bool {
    for octet in 0..120usize {
        if !is_block_octet(tree, laid, way, octet) {
            return false;
        }
    }
    is_block_octet(tree, laid, way, 16_351)
}

/// Whether lookups return, or name exactly the block of which an octet of the entries is turned.
fn is_past_leaf(tree: &mut Tree, laid: &Laid, script: &mut Script) -> bool {
    let block = script.take();
    let point = Point::of(script);
    let end = block_end(tree, block);
    for octet in 120..end {
        let is_turned = turn_sealed(tree, laid, block, octet);
        if !is_turned || !is_named(tree, &point, BLOCK, block) {
            return false;
        }
    }
    end > 120
}

/// Whether lookups are right or name one, with each octet of the entries of a column of the past turned: its octets lead on.
fn is_past_column(tree: &mut Tree, laid: &Laid, way: &Way) -> bool {
    let end = block_end(tree, way.number);
    for octet in 120..end {
        let is_turned = turn_sealed(tree, laid, way.number, octet);
        if !is_turned || !is_whole_or_named(tree, way) {
            return false;
        }
    }
    end > 120
}

/// Octets of a block that is to have another digest where they are turned.
const UNSEALED: [usize; 6] = [0, 87, 159, 16_351, 16_352, 16_383];

/// Whether lookups report a block as damaged of which an octet is turned, whose digest is of what it was.
fn is_unsealed(tree: &mut Tree, laid: &Laid, script: &mut Script) -> bool {
    let block = script.take();
    let point = Point::of(script);
    for octet in UNSEALED {
        let turned = Turned {
            block,
            octet,
            is_sealed: false,
        };
        let is_turned = turn_block(tree, laid, turned).is_some();
        if !is_turned || !is_reported(tree, &point, &refused(BLOCK, block)) {
            return false;
        }
    }
    true
}

/// Whether a check reports a page as bad of which an octet is turned. It is mended then.
fn is_page_found(tree: &mut Tree, script: &mut Script) -> bool {
    let page = script.take();
    let octet = script.take() as usize;
    turn(tree, page, octet) && found(tree) == refused(PAGE, page) && turn(tree, page, octet)
}

/// Whether a check reports a block as damaged of which an octet is turned.
fn is_block_found(tree: &mut Tree, laid: &Laid, script: &mut Script) -> bool {
    let block = script.take();
    let octet = script.take() as usize;
    turn_sealed(tree, laid, block, octet) && found(tree) == refused(BLOCK, block)
}

// The letters of sweeps: the header, or the entries, of a page; the entries of a current leaf; the header of a block; the entries of a
// leaf, or of a column, of the past; a block without its digest; an octet of a page, or of a block, that a check finds.
const HEADER: u64 = u64::MAX - 72;

const ENTRIES: u64 = u64::MAX - 77;

const CURRENT: u64 = u64::MAX - 67;

const BLOCK_HEADER: u64 = u64::MAX - 71;

const PAST_LEAF: u64 = u64::MAX - 81;

const PAST_COLUMN: u64 = u64::MAX - 74;

const NO_DIGEST: u64 = u64::MAX - 85;

const FOUND: u64 = u64::MAX - 70;

const BLOCK_FOUND: u64 = u64::MAX - 88;

/// Whether a sweep that a line says finds nothing wrong.
pub(crate) fn is_sweep(tree: &mut Tree, laid: &Laid, letter: u64, script: &mut Script) -> bool {
    match letter {
        HEADER => is_header(tree, &way_of(script)),
        ENTRIES => leads_on(tree, &way_of(script)),
        CURRENT => is_current_leaf(tree, script),
        BLOCK_HEADER => is_block_header(tree, laid, &way_of(script)),
        PAST_LEAF => is_past_leaf(tree, laid, script),
        PAST_COLUMN => is_past_column(tree, laid, &way_of(script)),
        NO_DIGEST => is_unsealed(tree, laid, script),
        FOUND => is_page_found(tree, script),
        BLOCK_FOUND => is_block_found(tree, laid, script),
        _ => false,
    }
}
