//! The write-once disk over real files.

use crate::answers::Answer::{self, Fault, No, Yes};
use crate::be;
use crate::folders::{
    PAGE, are_all, cut, folder, has, holds, remove, size_of, write_beside, write_four,
};
use disk_files::{Access, FileError, FileOnce, FilePen, FileSeen, NotedFile, Part};
use disk_models::{Block, OnceDisk};

/// The files of a disk.
const MAP: &str = "once.map";

const BLOCKS: &str = "once.rha";

/// A step over a disk of blocks.
#[derive(Clone, Copy)]
enum Step {
    /// Is this block blank?
    Blank(u64),
    /// A block is filled with an octet and burnt.
    Burn(u64, u8),
    Settle,
    /// The reader looks anew.
    Look,
    /// The reader reads a block: is it filled with this octet?
    Reads(u64, u8),
    /// A file is given another size.
    CutMap(u64),
    CutBlocks(u64),
}

use Step::{Blank, Burn, CutBlocks, CutMap, Look, Reads, Settle};

/// A disk with its pen, and a reader once it has looked.
#[derive(Drop)]
struct Bench {
    disk: FileOnce,
    pen: FilePen,
    seen: Option<FileSeen>,
    block: Block,
}

impl Bench {
    fn is_blank(&mut self, n: u64) -> Answer {
        if n >= self.disk.blocks() {
            return Answer::Harness;
        }
        match self.disk.blank(&mut self.pen, n) {
            Ok(blank) => Answer::is(blank),
            Err(_) => Fault,
        }
    }

    /// Burns a block, whether it is blank or not.
    fn burn(&mut self, n: u64, octet: u8) -> Answer {
        if n >= self.disk.blocks() {
            return Answer::Harness;
        }
        self.block.octets_mut().fill(octet);
        Answer::of(self.disk.burn(&mut self.pen, n, &self.block))
    }

    fn settle(&mut self) -> Answer {
        Answer::of(self.disk.settle(&mut self.pen))
    }

    fn look(&mut self) -> Answer {
        match self.disk.look(&mut self.pen) {
            Ok(seen) => {
                self.seen = Some(seen);
                Yes
            }
            Err(_) => Fault,
        }
    }

    fn reads(&mut self, n: u64, octet: u8) -> Answer {
        if n >= self.disk.blocks() {
            return Answer::Harness;
        }
        let Some(seen) = self.seen.as_mut() else {
            return Answer::Harness;
        };
        match self.disk.read(seen, n, &mut self.block) {
            Ok(()) => Answer::is(are_all(self.block.octets(), octet)),
            Err(_) => Fault,
        }
    }

    fn act(&mut self, rt: &HostRuntime, folder: &str, step: Step) -> Answer {
        match step {
            Blank(n) => self.is_blank(n),
            Burn(n, octet) => self.burn(n, octet),
            Settle => self.settle(),
            Look => self.look(),
            Reads(n, octet) => self.reads(n, octet),
            CutMap(size) => cut(rt, folder, MAP, size),
            CutBlocks(size) => cut(rt, folder, BLOCKS, size),
        }
    }

    /// Whether each step returns what the table says.
    fn plays(&mut self, rt: &HostRuntime, folder: &str, table: &[(Step, Answer)]) -> bool {
        for (step, expected) in table {
            if self.act(rt, folder, *step) != *expected {
                return false;
            }
        }
        true
    }

    /// How often the pen has failed.
    fn faults(&self) -> u64 {
        FileOnce::pen_faults(&self.pen)
    }

    /// How often the reader has failed.
    fn seen_faults(&self) -> Option<u64> {
        let seen = self.seen.as_ref()?;
        Some(FileOnce::<NotedFile>::seen_faults(seen))
    }
}

/// A new disk of `count` blocks.
fn created(rt: &HostRuntime, folder: &str, count: u64) -> Option<Bench> {
    let (disk, pen) = FileOnce::create(rt.alloc(), rt, folder, count).ok()?;
    Some(Bench {
        disk,
        pen,
        seen: None,
        block: Block::new(rt.alloc()).ok()?,
    })
}

/// The disk of a folder.
fn opened(rt: &HostRuntime, folder: &str) -> Option<Bench> {
    let (disk, pen) = FileOnce::open(rt.alloc(), rt, folder, Access::Alone).ok()?;
    Some(Bench {
        disk,
        pen,
        seen: None,
        block: Block::new(rt.alloc()).ok()?,
    })
}

/// Why the disk of a folder isn't opened, if it isn't.
fn not_opened(rt: &HostRuntime, folder: &str) -> Option<FileError> {
    FileOnce::open(rt.alloc(), rt, folder, Access::Alone).err()
}

/// Why a disk of `count` blocks isn't created, if it isn't.
fn not_created(rt: &HostRuntime, folder: &str, count: u64) -> Option<FileError> {
    FileOnce::create(rt.alloc(), rt, folder, count).err()
}

const ONE_BURN: [(Step, Answer); 1] = [(Burn(1, 7), Yes)];

const MAP_OF_ONE: [(u64, Option<u8>); 5] = [
    (0, Some(0)),
    (1, Some(1)),
    (2, Some(0)),
    (3, Some(0)),
    (4, None),
];

const BLOCKS_OF_ONE: [(u64, Option<u8>); 5] = [
    (16_383, Some(0)),
    (16_384, Some(7)),
    (32_767, Some(7)),
    (32_768, Some(0)),
    (65_536, None),
];

#[test]
fn blocks_stand_at_their_places_in_the_files(rt: HostRuntime) {
    let folder = folder(&rt, "block_places").expect(&rt, "a folder");
    let mut bench = created(&rt, &folder, 4).expect(&rt, "a disk");
    be(&rt, bench.plays(&rt, &folder, &ONE_BURN), "a burn");
    be(&rt, holds(&rt, &folder, MAP, &MAP_OF_ONE), "the map");
    be(
        &rt,
        holds(&rt, &folder, BLOCKS, &BLOCKS_OF_ONE),
        "the blocks",
    );
    be(&rt, remove(&rt, &folder), "the folder goes");
}

const BURN_AND_SETTLE: [(Step, Answer); 3] = [(Blank(1), Yes), (Burn(1, 7), Yes), (Settle, Yes)];

const READ_AGAIN: [(Step, Answer); 4] = [
    (Blank(1), No),
    (Blank(2), Yes),
    (Look, Yes),
    (Reads(1, 7), Yes),
];

#[test]
fn blocks_are_there_after_the_disk_is_opened_again(rt: HostRuntime) {
    let folder = folder(&rt, "blocks").expect(&rt, "a folder");
    let mut bench = created(&rt, &folder, 4).expect(&rt, "a disk");
    be(&rt, bench.plays(&rt, &folder, &BURN_AND_SETTLE), "a burn");
    drop(bench);
    let mut bench = opened(&rt, &folder).expect(&rt, "the disk again");
    be(
        &rt,
        bench.plays(&rt, &folder, &READ_AGAIN),
        "what was burnt",
    );
    be(
        &rt,
        bench.disk.blocks() == 4 && bench.faults() == 0,
        "four blocks, and no fault",
    );
    be(&rt, remove(&rt, &folder), "the folder goes");
}

/// What a disk of two blocks does, how often its pen has failed then, and what the files hold at some places.
struct Case {
    table: &'static [(Step, Answer)],
    faults: u64,
    map: &'static [(u64, Option<u8>)],
    blocks: &'static [(u64, Option<u8>)],
}

const CASES: [Case; 4] = [
    // The blocks are cut, so that the burn fails after its mark; and they don't grow.
    Case {
        table: &[(CutBlocks(0), Yes), (Burn(1, 7), Fault)],
        faults: 1,
        map: &[(0, Some(0)), (1, Some(1))],
        blocks: &[(0, None)],
    },
    // A block that couldn't be marked isn't written.
    Case {
        table: &[(CutMap(1), Yes), (Burn(0, 8), Fault)],
        faults: 1,
        map: &[(0, Some(0)), (1, None)],
        blocks: &[(0, Some(0))],
    },
    // A pen that failed does nothing more.
    Case {
        table: &[
            (CutBlocks(PAGE), Yes),
            (Settle, Fault),
            (CutBlocks(2 * PAGE), Yes),
            (Blank(0), Fault),
            (Burn(0, 7), Fault),
            (Settle, Fault),
            (Look, Fault),
        ],
        faults: 5,
        map: &[(0, Some(0))],
        blocks: &[(0, Some(0))],
    },
    // A block that was burnt isn't burnt again.
    Case {
        table: &[(Burn(0, 7), Yes), (Settle, Yes), (Burn(0, 8), Fault)],
        faults: 1,
        map: &[(0, Some(1)), (1, Some(0))],
        blocks: &[(0, Some(7)), (16_383, Some(7))],
    },
];

/// Whether a new disk goes so.
fn is_case(rt: &HostRuntime, case: &Case) -> Option<bool> {
    let folder = folder(rt, "cases")?;
    let mut bench = created(rt, &folder, 2)?;
    Some(
        bench.plays(rt, &folder, case.table)
            && bench.faults() == case.faults
            && holds(rt, &folder, MAP, case.map)
            && holds(rt, &folder, BLOCKS, case.blocks)
            && remove(rt, &folder),
    )
}

#[test]
fn a_block_is_marked_before_it_is_written_and_never_written_again(rt: HostRuntime) {
    for case in &CASES {
        be(&rt, is_case(&rt, case) == Some(true), "a case");
    }
}

const UNREAD: [(Step, Answer); 8] = [
    (Look, Yes),
    // What stands in its place isn't believed.
    (Reads(1, 0), Yes),
    (Reads(0, 0), Yes),
    // A reader that looked before a burn reads it, too; and where the file is cut, no zeros.
    (Burn(0, 7), Yes),
    (Settle, Yes),
    (Reads(0, 7), Yes),
    (CutBlocks(16_383), Yes),
    (Reads(0, 7), Fault),
];

#[test]
fn a_block_that_the_map_calls_blank_reads_as_zeros(rt: HostRuntime) {
    let folder = folder(&rt, "unread").expect(&rt, "a folder");
    let mut bench = created(&rt, &folder, 2).expect(&rt, "a disk");
    let octets = b"something that no one burnt".as_slice();
    be(
        &rt,
        write_beside(&rt, &folder, BLOCKS, octets, PAGE),
        "octets in its place",
    );
    be(&rt, bench.plays(&rt, &folder, &UNREAD), "zeros");
    be(
        &rt,
        bench.seen_faults() == Some(1) && bench.faults() == 0,
        "one fault",
    );
    be(&rt, remove(&rt, &folder), "the folder goes");
}

const FOREIGN: [(Step, Answer); 4] = [
    (Blank(0), Fault),
    (Burn(0, 7), Fault),
    (Settle, Fault),
    (Look, Fault),
];

const OWN: [(Step, Answer); 1] = [(Blank(0), Yes)];

/// Whether the files of a folder begin with zeros.
fn is_blank(rt: &HostRuntime, folder: &str) -> bool {
    holds(rt, folder, MAP, &[(0, Some(0))]) && holds(rt, folder, BLOCKS, &[(0, Some(0))])
}

#[test]
fn a_pen_of_another_archive_is_refused(rt: HostRuntime) {
    let one = folder(&rt, "one").expect(&rt, "a folder");
    let other = folder(&rt, "other").expect(&rt, "a folder");
    let mut bench = created(&rt, &one, 2).expect(&rt, "a disk");
    let mut foreign = created(&rt, &other, 2).expect(&rt, "another disk");
    std::mem::swap(&mut bench.pen, &mut foreign.pen);
    be(
        &rt,
        bench.plays(&rt, &one, &FOREIGN) && bench.faults() == 4,
        "another's pen",
    );
    be(
        &rt,
        is_blank(&rt, &one) && is_blank(&rt, &other),
        "nothing is written",
    );
    std::mem::swap(&mut bench.pen, &mut foreign.pen);
    be(&rt, bench.plays(&rt, &one, &OWN), "its own pen");
    be(
        &rt,
        remove(&rt, &one) && remove(&rt, &other),
        "the folders go",
    );
}

/// Whether a disk is neither opened nor created since its files are held.
fn is_held(rt: &HostRuntime, folder: &str) -> bool {
    let in_use = Some(FileError::InUse(Part::Map));
    not_opened(rt, folder) == in_use && not_created(rt, folder, 2) == in_use
}

/// Whether a disk takes its files away.
fn takes_its_files(rt: &HostRuntime, folder: &str) -> Option<bool> {
    let bench = opened(rt, folder)?;
    bench.pen.remove(rt.alloc(), rt, folder).ok()?;
    Some(!has(rt, folder, MAP)? && !has(rt, folder, BLOCKS)?)
}

/// What a reader of a new disk sees, which is let go.
fn seen_of(rt: &HostRuntime, folder: &str) -> Option<FileSeen> {
    let mut bench = created(rt, folder, 2)?;
    if !is_held(rt, folder) || bench.look() != Yes {
        return None;
    }
    bench.seen
}

#[test]
fn the_files_are_held_while_a_pen_or_a_reader_is_there(rt: HostRuntime) {
    let folder = folder(&rt, "pen").expect(&rt, "a folder");
    let seen = seen_of(&rt, &folder).expect(&rt, "files that a pen holds");
    be(&rt, is_held(&rt, &folder), "files that a reader holds");
    drop(seen);
    let there = Some(FileError::Exists(Part::Map));
    be(
        &rt,
        not_created(&rt, &folder, 2) == there,
        "files that no one holds",
    );
    be(
        &rt,
        takes_its_files(&rt, &folder) == Some(true),
        "the files go",
    );
    be(&rt, remove(&rt, &folder), "the folder goes");
}

#[test]
fn counts_that_no_such_disk_has_make_nothing(rt: HostRuntime) {
    let folder = folder(&rt, "counts").expect(&rt, "a folder");
    for count in [0, 1 << 49, 18_446_744_073_709_551_615] {
        let refused = not_created(&rt, &folder, count);
        be(&rt, refused == Some(FileError::Size(Part::Map)), "a count");
    }
    be(&rt, has(&rt, &folder, MAP) == Some(false), "no map");
    be(&rt, remove(&rt, &folder), "the folder goes");
}

#[test]
fn what_is_refused_leaves_no_map(rt: HostRuntime) {
    let folder = folder(&rt, "no_map").expect(&rt, "a folder");
    // Another's blocks are there: they stay, and the map goes.
    be(&rt, write_four(&rt, &folder, BLOCKS), "another's blocks");
    let there = Some(FileError::Exists(Part::Blocks));
    be(&rt, not_created(&rt, &folder, 3) == there, "a refusal");
    be(&rt, has(&rt, &folder, MAP) == Some(false), "no map");
    be(
        &rt,
        size_of(&rt, &folder, BLOCKS) == Some(4),
        "the blocks stay",
    );
    be(&rt, remove(&rt, &folder), "the folder goes");
}

/// Why the disk of a folder isn't opened, if it isn't, where its files are cut to these sizes.
fn not_opened_cut(
    rt: &HostRuntime,
    folder: &str,
    map: u64,
    blocks: u64,
) -> Option<Option<FileError>> {
    if cut(rt, folder, MAP, map) != Yes || cut(rt, folder, BLOCKS, blocks) != Yes {
        return None;
    }
    Some(not_opened(rt, folder))
}

#[test]
fn sizes_that_do_not_belong_together_are_refused(rt: HostRuntime) {
    let folder = folder(&rt, "together").expect(&rt, "a folder");
    be(&rt, created(&rt, &folder, 3).is_some(), "a disk");
    let blocks = Some(Some(FileError::Size(Part::Blocks)));
    be(
        &rt,
        not_opened_cut(&rt, &folder, 3, 3 * PAGE - 1) == blocks,
        "a part of a block",
    );
    let apart = FileError::Apart {
        blocks: 2,
        marked: 3,
    };
    be(
        &rt,
        not_opened_cut(&rt, &folder, 3, 2 * PAGE) == Some(Some(apart)),
        "too few blocks",
    );
    let map = Some(Some(FileError::Size(Part::Map)));
    be(
        &rt,
        not_opened_cut(&rt, &folder, 0, 2 * PAGE) == map,
        "an empty map",
    );
    be(
        &rt,
        not_opened_cut(&rt, &folder, 2, 2 * PAGE) == Some(None),
        "two of each",
    );
    be(&rt, remove(&rt, &folder), "the folder goes");
}
