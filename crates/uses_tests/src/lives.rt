//! Whole lives of an archive.

ghost use Rattle.std.specs.Prelude.{◌≡◌, [], IfSome, map};
ghost use Rattle.archive_pages.specs.Places.{AreSettings};
ghost use Rattle.archive_uses.specs.Lives.{Lives};
ghost use Rattle.uses_tests.specs.Turns.{EndsSo, act_of};
ghost use Rattle.uses_tests.specs.inner.Taking.{IsBorn, IsSomewhere, Takes, alone};

use crate::acts::{Act, Birth, Turn};
use crate::calls::{Made, Next, make};
use crate::disks::{cut_admit, cut_apply, cut_create, reopen};
use archive_pages::Settings;
use archive_uses::{create, uses_are_runs};
use disk_memory::{MemErase, MemOnce};
use std::alloc::Global;
use std::sync::Arc;

/// An archive, and all that was made of it.
#[derive(Drop)]
pub struct Life {
    pub archive: Made,
    pub turns: Vec<Turn>,
}

// Makes a call on the archive.
fn called(alloc: Global, archive: Made, act: &Act) -> Option<Next>
    ensures takes { IfSome result (λ next. Takes archive next.archive act.now next.returned) }
{
    let mut archive = archive;
    let Some(returned) = make(alloc, &mut archive, act) else {
        return None;
    };
    Some(Next { archive, returned })
}

// Takes a turn.
fn take_turn(alloc: Global, archive: Made, act: &Act) -> Option<Next>
    ensures takes { IsSomewhere archive → IfSome result (λ next. Takes archive next.archive act.now next.returned) }
{
    match act {
        Act::Crash(tear, stop) => reopen(alloc, archive, *tear, *stop),
        Act::CutAdmit(collector, batch, tear) => {
            cut_admit(alloc, archive, *collector, *batch, *tear)
        }
        Act::CutApply(tear) => cut_apply(alloc, archive, *tear),
        _ => called(alloc, archive, act),
    }
}

// Plays a script on an archive that was born so.
fn play(alloc: Global, archive: Made, script: &[Act]) -> Option<Life>
    ensures ends { (settings : Settings) (birth : Birth) → IsBorn settings birth archive → IfSome result (λ life. EndsSo settings birth life.turns.items life.archive) }
    ensures played { IfSome result (λ life. map act_of life.turns.items ≡ script.now) }
{
    uses_are_runs::<MemErase, MemOnce>();
    let mut archive = archive;
    let mut turns = Vec::new(alloc);
    for act in script {
        let Some(next) = take_turn(alloc, archive, act) else {
            return None;
        };
        archive = next.archive;
        let Ok(()) = turns.push(Turn {
            act: *act,
            returned: next.returned,
        }) else {
            return None;
        };
    }
    Some(Life { archive, turns })
}

// A new archive on disks of `pages` pages and `blocks` blocks.
fn made(alloc: Global, pages: u16, blocks: u64, settings: Settings) -> Option<Made>
    requires settings { AreSettings settings }
    ensures lives { IfSome result (λ archive. Lives settings [] (alone archive)) }
{
    let erase = MemErase::new(alloc, u64::from(pages) * 16_384);
    let (once, pen) = MemOnce::new(alloc, blocks);
    let Ok(once) = Arc::new(alloc, once) else {
        return None;
    };
    match create(alloc, erase, once, pen, settings) {
        Ok(archive) => Some(archive),
        Err(_) => None,
    }
}

// An archive on new disks of `pages` pages and `blocks` blocks, that comes to be so.
fn born(alloc: Global, pages: u16, blocks: u64, settings: Settings, birth: Birth) -> Option<Made>
    requires settings { AreSettings settings }
    ensures born { IfSome result (IsBorn settings birth) }
{
    match birth {
        Birth::Created => made(alloc, pages, blocks, settings),
        Birth::CutOff(tear, stop) => cut_create(alloc, pages, blocks, settings, tear, stop),
    }
}

/// Makes an archive on disks of `pages` pages and `blocks` blocks, and plays a script on it. None where no archive comes to be on them,
/// both disks can't be opened after a crash, or there is no memory.
pub fn live(
    alloc: Global,
    pages: u16,
    blocks: u64,
    settings: Settings,
    birth: Birth,
    script: &[Act],
) -> Option<Life>
    ensures ends { IfSome result (λ life. EndsSo settings birth life.turns.items life.archive) }
    ensures played { IfSome result (λ life. map act_of life.turns.items ≡ script.now) }
{
    if !settings.is_within() {
        return None;
    }
    let Some(archive) = born(alloc, pages, blocks, settings, birth) else {
        return None;
    };
    play(alloc, archive, script)
}
