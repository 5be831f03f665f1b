//! A block of which one octet is another: what reads it is refused, again and again, and all else is answered.

use crate::{be_at, copied, opened};
use disk_memory::{Burn, MemOnce, MemPen};
use disk_models::{Block, OnceDisk};
use once_store::ShelfReader;
use std::alloc::Global;
use std::process::Abort;
use std::sync::Arc;
use swept_lives::{
    Answered, Both, LONG, NOW, Outcome, Played, Stage, ask, check, laid_anew, prepare, same,
};

/// A block as it was, but for one octet where it has this number.
fn spoiled(rt: &impl Abort, alloc: Global, was: &Burn, number: u64) -> Block {
    let mut block = Block::from_slice(alloc, was.block().octets()).expect(rt, "memory");
    if was.number() == number {
        let at = (number % 16_384) as usize;
        let octet = was.block().octets()[at] ^ 0x40;
        block.put(at, &[octet]);
    }
    block
}

/// Burns a block that is blank. Returns whether it did.
fn burn(disk: &MemOnce, pen: &mut MemPen, number: u64, block: &Block) -> bool {
    if number >= disk.blocks() {
        return false;
    }
    match disk.blank(pen, number) {
        Ok(true) => disk.burn(pen, number, block).is_ok(),
        _ => false,
    }
}

/// Burns the same blocks, but for one octet of that of this number.
fn burn_all(
    rt: &impl Abort,
    alloc: Global,
    disk: &MemOnce,
    pen: &mut MemPen,
    burns: &[Burn],
    number: u64,
) {
    for was in burns {
        let block = spoiled(rt, alloc, was, number);
        let is_burnt = burn(disk, pen, was.number(), &block);
        be_at(rt, is_burnt, "a burn", was.number());
    }
    disk.settle(pen).expect(rt, "a settle");
}

/// The same disks, but for one octet of the block of this number.
fn with_spoiled(rt: &impl Abort, alloc: Global, disks: &Both, number: u64) -> Both {
    let erase = disks.erase.copy().expect(rt, "memory");
    let (once, mut pen) = MemOnce::new(alloc, disks.once.blocks());
    burn_all(rt, alloc, &once, &mut pen, disks.pen.settled(), number);
    let once = Arc::new(alloc, once).expect(rt, "memory");
    Both { erase, once, pen }
}

/// Asks a question by a reader that keeps the blocks which it reads.
fn ask_with(archive: &mut Played, reader: &mut ShelfReader<MemOnce>, asked: &Answered) -> Outcome {
    let query = &asked.query;
    let answer = archive.archive.answer_with(reader, *query);
    if same(&answer, &asked.reply) {
        return Outcome::Done;
    }
    match &answer {
        Ok(_) => Outcome::Other,
        Err(error) => Outcome::of_ask(*error),
    }
}

/// Whether a question is refused as damage of the block of this number, alone and twice by a reader. Else it's answered as ever.
fn refuses(
    rt: &impl Abort,
    archive: &mut Played,
    reader: &mut ShelfReader<MemOnce>,
    asked: &Answered,
    number: u64,
) -> bool {
    let alone = ask(archive, &asked.query, &asked.reply);
    let first = ask_with(archive, reader, asked);
    let again = ask_with(archive, reader, asked);
    let is_same = first == alone && again == alone;
    be_at(rt, is_same, "a question by a reader", number);
    let is_refused = alone == Outcome::Damaged(number);
    let is_either = is_refused || alone == Outcome::Done;
    be_at(rt, is_either, "a question", number);
    is_refused
}

/// How many of these questions the damage of a block refuses.
fn refused_of(rt: &impl Abort, archive: &mut Played, asked: &[Answered], number: u64) -> u64 {
    let mut reader = archive.archive.reader(64).expect(rt, "a reader");
    let mut refused: u64 = 0;
    for one in asked {
        let is_refused = refuses(rt, archive, &mut reader, one, number);
        refused = refused.saturating_add(u64::from(is_refused));
    }
    refused
}

/// How many questions the damage of a block refuses. A check finds it.
fn refusals(rt: &impl Abort, stage: &Stage, disks: &Both, number: u64) -> u64 {
    let disks = with_spoiled(rt, stage.alloc, disks, number);
    let mut archive = opened(rt, stage, disks);
    let known = stage.known.last().expect(rt, "a state");
    let asked = known.answers.get(..NOW).unwrap_or(&[]);
    let refused = refused_of(rt, &mut archive, asked, number);
    let is_found = check(&mut archive, 0) == Outcome::Damaged(number);
    be_at(rt, is_found, "a check", number);
    refused
}

/// The disks after the life, of which no page waits to go home.
fn ended(rt: &impl Abort, stage: &Stage) -> Both {
    let mut archive = opened(rt, stage, copied(rt, &stage.disks));
    be_at(rt, stage.play_from(&mut archive, 0), "a life", 0);
    laid_anew(stage.alloc, archive.given_up()).expect(rt, "pages")
}

/// A block, and how many questions its damage refuses.
struct Refused {
    block: u64,
    questions: u64,
}

const REFUSED: [Refused; 12] = [
    Refused {
        block: 0,
        questions: 0,
    },
    Refused {
        block: 1,
        questions: 1,
    },
    Refused {
        block: 9,
        questions: 1,
    },
    Refused {
        block: 10,
        questions: 2,
    },
    Refused {
        block: 11,
        questions: 1,
    },
    Refused {
        block: 100,
        questions: 0,
    },
    Refused {
        block: 646,
        questions: 0,
    },
    Refused {
        block: 647,
        questions: 0,
    },
    Refused {
        block: 648,
        questions: 4,
    },
    Refused {
        block: 649,
        questions: 1,
    },
    Refused {
        block: 650,
        questions: 3,
    },
    Refused {
        block: 651,
        questions: 3,
    },
];

#[test]
fn damage_of_a_block_refuses_what_reads_it(rt: HostRuntime) {
    let stage = prepare(rt.alloc(), &LONG).expect(&rt, "a stage");
    let disks = ended(&rt, &stage);
    for refused in &REFUSED {
        let questions = refusals(&rt, &stage, &disks, refused.block);
        let is_so = questions == refused.questions;
        be_at(&rt, is_so, "refused questions", questions);
    }
}
