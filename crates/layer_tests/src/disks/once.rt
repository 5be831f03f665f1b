//! The write-once disk in memory: each call once, each failure once, and each kind of torn block after a crash.

use crate::{be, be_at};
use disk_memory::{MemOnce, MemPen, OnceFailure, Torn};
use disk_models::{Block, OnceDisk};
use std::alloc::Global;

/// A block whose octets are all one number.
fn block_of(alloc: Global, octet: u8) -> Option<Block> {
    let mut block = Block::new(alloc).ok()?;
    block.octets_mut().fill(octet);
    Some(block)
}

/// A disk with its pen.
#[derive(Drop)]
pub(crate) struct Burner {
    pub(crate) disk: MemOnce,
    pub(crate) pen: MemPen,
}

impl Burner {
    pub(crate) fn new(alloc: Global, blocks: u64) -> Burner {
        let (disk, pen) = MemOnce::new(alloc, blocks);
        Burner { disk, pen }
    }

    /// Burns a block of one number where it is blank. Whether it was, none where a call failed.
    pub(crate) fn burn(&mut self, alloc: Global, n: u64, octet: u8) -> Option<bool> {
        let block = block_of(alloc, octet)?;
        if n >= self.disk.blocks() || !self.disk.blank(&mut self.pen, n).ok()? {
            return Some(false);
        }
        self.disk.burn(&mut self.pen, n, &block).ok()?;
        Some(true)
    }

    fn settle(&mut self) -> bool {
        self.disk.settle(&mut self.pen).is_ok()
    }

    /// Whether a reader that looks now reads a block that begins with one octet and ends with another.
    pub(crate) fn reads(&mut self, alloc: Global, n: u64, first: u8, last: u8) -> bool {
        match self.disk.look(&mut self.pen) {
            Ok(mut seen) => are_ends(alloc, &self.disk, &mut seen, n, first, last),
            Err(_) => false,
        }
    }
}

/// The same for a reader that looked before.
fn are_ends<O: OnceDisk>(
    alloc: Global,
    disk: &O,
    seen: &mut O::Seen,
    n: u64,
    first: u8,
    last: u8,
) -> bool {
    let Some(mut block) = block_of(alloc, 1) else {
        return false;
    };
    if n >= disk.blocks() || disk.read(seen, n, &mut block).is_err() {
        return false;
    }
    let octets = block.octets();
    octets[0] == first && octets[16_383] == last
}

/// A disk of 4 blocks: block 0 is settled, and block 1 is burnt.
fn burnt_disk(alloc: Global) -> Option<Burner> {
    let mut burner = Burner::new(alloc, 4);
    if burner.burn(alloc, 0, 7)? && burner.settle() && burner.burn(alloc, 1, 8)? {
        Some(burner)
    } else {
        None
    }
}

/// Whether the two blocks of a disk are settled, each whole, and the second begins with 8.
fn are_settled(pen: &MemPen) -> bool {
    match pen.settled() {
        [first, second] => {
            first.number() == 0
                && second.number() == 1
                && first.is_whole()
                && second.is_whole()
                && second.block().octets().first() == Some(&8)
        }
        _ => false,
    }
}

#[test]
fn each_call(rt: HostRuntime) {
    let alloc = rt.alloc();
    let mut burner = burnt_disk(alloc).expect(&rt, "a disk");
    be(&rt, burner.disk.blocks() == 4, "the blocks");
    be(
        &rt,
        burner.burn(alloc, 0, 9) == Some(false),
        "a settled block",
    );
    be(
        &rt,
        burner.burn(alloc, 1, 9) == Some(false),
        "a burnt block",
    );
    be(
        &rt,
        burner.reads(alloc, 0, 7, 7) && burner.reads(alloc, 1, 0, 0),
        "what is read",
    );
    let counts = burner.pen.settled().len() == 1 && burner.pen.waiting().len() == 1;
    be(&rt, counts && burner.settle(), "one waits");
    be(&rt, burner.reads(alloc, 1, 8, 8), "what is settled is read");
    be(
        &rt,
        MemOnce::pen_faults(&burner.pen) == 0 && are_settled(&burner.pen),
        "two settled",
    );
}

#[test]
fn a_reader_knows_what_was_settled_when_it_looked(rt: HostRuntime) {
    let alloc = rt.alloc();
    let mut burner = burnt_disk(alloc).expect(&rt, "a disk");
    let mut seen = burner.disk.look(&mut burner.pen).expect(&rt, "a look");
    be(&rt, burner.settle(), "settled");
    be(
        &rt,
        are_ends(alloc, &burner.disk, &mut seen, 0, 7, 7),
        "settled before",
    );
    be(
        &rt,
        are_ends(alloc, &burner.disk, &mut seen, 1, 0, 0),
        "settled after",
    );
    be(&rt, MemOnce::seen_faults(&seen) == 0, "no faults");
}

/// What a crash may make of a block that isn't settled; the first is no choice at all.
fn choice(alloc: Global, n: usize) -> Option<Vec<Torn>> {
    let torn = match n {
        0 => return Some(Vec::new(alloc)),
        1 => Torn::Old,
        2 => Torn::New,
        3 => Torn::Half,
        4 => Torn::Octets(vec![in alloc; 0xa5; 3].ok()?),
        _ => Torn::Octets(vec![in alloc; 0xa5; 20_000].ok()?),
    };
    vec![in alloc; torn].ok()
}

/// The first and the last octet of what each of them leaves.
const LEFT: [(u8, u8); 6] = [(0, 0), (0, 0), (8, 8), (8, 255), (0xa5, 0), (0xa5, 0xa5)];

/// Whether these are the ends of block 1 after a crash by the n-th choice, and block 1 isn't blank, and block 0 is as it was.
fn leaves(alloc: Global, n: usize, first: u8, last: u8) -> Option<bool> {
    let burnt = burnt_disk(alloc)?;
    let (disk, pen) = burnt.disk.crash(&burnt.pen, &choice(alloc, n)?).ok()?;
    let mut left = Burner { disk, pen };
    Some(
        left.reads(alloc, 1, first, last)
            && left.reads(alloc, 0, 7, 7)
            && left.disk.blocks() > 1
            && left.disk.blank(&mut left.pen, 1) == Ok(false),
    )
}

#[test]
fn a_crash_tears_what_is_not_settled(rt: HostRuntime) {
    for (n, (first, last)) in LEFT.iter().enumerate() {
        let is_right = leaves(rt.alloc(), n, *first, *last) == Some(true);
        be_at(&rt, is_right, "torn", n as u64);
    }
}

#[test]
fn a_copy_goes_its_own_way(rt: HostRuntime) {
    let alloc = rt.alloc();
    let mut burner = burnt_disk(alloc).expect(&rt, "a disk");
    let (disk, pen) = burner.disk.copy(&burner.pen).expect(&rt, "a copy");
    let mut other = Burner { disk, pen };
    be(
        &rt,
        other.settle() && other.burn(alloc, 2, 9) == Some(true),
        "the copy goes on",
    );
    be(&rt, other.reads(alloc, 1, 8, 8), "the copy");
    be(
        &rt,
        burner.reads(alloc, 1, 0, 0) && burner.pen.waiting().len() == 1,
        "the disk",
    );
}

/// Whether a look fails, and whether a read of block 0 with what it saw.
fn fails_to_read(alloc: Global, burner: &mut Burner) -> Option<[bool; 2]> {
    let Ok(mut seen) = burner.disk.look(&mut burner.pen) else {
        return Some([true, false]);
    };
    let mut read = block_of(alloc, 1)?;
    let reads = 0 < burner.disk.blocks() && burner.disk.read(&mut seen, 0, &mut read).is_err();
    Some([false, reads])
}

/// A run of five calls. It returns which of them failed.
fn run(alloc: Global, burner: &mut Burner) -> Option<[bool; 5]> {
    let blank = 0 < burner.disk.blocks() && burner.disk.blank(&mut burner.pen, 0).is_err();
    let burn = burner.burn(alloc, 0, 7).is_none();
    let settle = !burner.settle();
    let [look, read] = fails_to_read(alloc, burner)?;
    Some([blank, burn, settle, look, read])
}

/// The failures that are tried: the first one never comes.
fn failure(n: usize) -> OnceFailure {
    match n {
        0 => OnceFailure::Blank(5),
        1 => OnceFailure::Blank(0),
        2 => OnceFailure::Burn(0, Torn::Half),
        3 => OnceFailure::Settle(0),
        4 => OnceFailure::Look(0),
        _ => OnceFailure::Read(0),
    }
}

/// The call that each of them lets fail, how often one that takes the pen did, and the ends of what is settled of block 0.
const FAILED: [(usize, u64, u8, u8); 6] = [
    (5, 0, 7, 7),
    (0, 1, 7, 7),
    (1, 1, 7, 255),
    (2, 1, 0, 0),
    (3, 1, 7, 7),
    (4, 0, 7, 7),
];

/// Whether a run with the n-th failure goes so.
fn fails(alloc: Global, n: usize, call: usize, faults: u64, first: u8, last: u8) -> Option<bool> {
    let mut burner = Burner::new(alloc, 4);
    burner.pen.set_script(vec![in alloc; failure(n)].ok()?);
    let failed = run(alloc, &mut burner)?;
    let mut expected = [false; 5];
    if let Some(failed) = expected.get_mut(call) {
        *failed = true;
    }
    burner.pen.set_script(Vec::new(alloc));
    Some(
        failed == expected
            && burner.reads(alloc, 0, first, last)
            && MemOnce::pen_faults(&burner.pen) == faults,
    )
}

#[test]
fn each_call_fails_once(rt: HostRuntime) {
    for (n, (call, faults, first, last)) in FAILED.iter().enumerate() {
        let is_right = fails(rt.alloc(), n, *call, *faults, *first, *last) == Some(true);
        be_at(&rt, is_right, "a failure", n as u64);
    }
}
