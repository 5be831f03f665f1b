//! Calls of an archive are stopped at each call of a device in turn: a crash leaves the history of before, or that with the whole of
//! the call's change; and what is refused until the archive is opened again.

use crate::asked::answers_as;
use crate::be;
use crate::disks::{
    Both, IN_TURN, KINDS, failed_write, given_up, opened, opened_after, reopened, torn,
};
use crate::given::{Given, SETTINGS, give_second, has_records, leaves, one_given};
use crate::made::{Made, MemArchive, apply, give, large, made, mark_at, set_mark, vectors};
use disk_archive::{AdmitError, ApplyError, FlushError, MarkError};
use disk_calls::NoReasons;
use disk_memory::{Failure, OnceFailure};
use route_model::Admission;
use std::alloc::Global;

// Whether a crash leaves the first record alone, or both; only both, where the second one was acknowledged.
fn is_left_whole(alloc: Global, given: &Given, crash: u8) -> Option<bool> {
    Some(
        leaves(alloc, &given.disks, crash, 2)?
            || !given.is_acknowledged && leaves(alloc, &given.disks, crash, 1)?,
    )
}

// Whether each of these crashes leaves all whole. The second record is acknowledged exactly where no failure stops it.
fn is_given_whole(
    alloc: Global,
    disks: Option<Both>,
    is_stopped: bool,
    crashes: &[u8],
) -> Option<bool> {
    let given = give_second(alloc, disks?)?;
    for crash in crashes {
        if !is_left_whole(alloc, &given, *crash)? {
            return Some(false);
        }
    }
    Some(given.is_acknowledged != is_stopped)
}

#[test]
fn an_admission_that_is_stopped_at_a_write_is_there_whole_or_not(rt: HostRuntime) {
    let alloc = rt.alloc();
    let disks = one_given(alloc).expect(&rt, "disks");
    for number in 0..5 {
        for kind in 0..KINDS {
            let failure = failed_write(alloc, number, kind).expect(&rt, "a failure");
            let failing = disks.failing(alloc, failure);
            let is_whole = is_given_whole(alloc, failing, number < 4, &[0, 1, 2, 3, IN_TURN]);
            be(&rt, is_whole == Some(true), "a write");
        }
    }
}

#[test]
fn an_admission_that_is_stopped_elsewhere_is_there_whole_or_not(rt: HostRuntime) {
    let alloc = rt.alloc();
    let disks = one_given(alloc).expect(&rt, "disks");
    for number in 0..5 {
        let failing = disks.failing(alloc, Failure::Sync(number));
        let is_whole = is_given_whole(alloc, failing, number < 4, &[0, 1, 2, 3, IN_TURN]);
        be(&rt, is_whole == Some(true), "a sync");
    }
    // To open it, the identity page, eight commit flags, the head and a page of the ring are read.
    for number in 0..11 {
        let failing = disks.failing(alloc, Failure::Read(number));
        let is_whole = is_given_whole(alloc, failing, true, &[IN_TURN]);
        be(&rt, is_whole == Some(true), "a read");
    }
}

// Whether a batch is refused until the archive is opened again.
fn takes_no_more(archive: &mut Made, collector: u8, batch: &[Admission]) -> bool {
    matches!(
        archive.admit(collector, batch),
        Err(AdmitError::NeedsRecovery)
    )
}

// Whether each other call that would change something is refused, too.
fn does_no_more(archive: &mut Made) -> bool {
    archive.mark(0, mark_at(0)) == Err(MarkError::NeedsRecovery)
        && archive.apply_step() == Err(ApplyError::NeedsRecovery)
        && archive.flush_step() == Err(FlushError::NeedsRecovery)
}

// Whether the archive returns what it returned before the record that it refused.
fn is_as_before(archive: &mut Made) -> bool {
    has_records(archive, 1)
        && archive.settled() == mark_at(1_704_067_200)
        && archive.ring() == 9
        && archive.seen().is_ok()
}

// Whether a record is refused by these disks, and each call after it, also one that has another fault.
fn is_down(alloc: Global, disks: Option<Both>) -> Option<bool> {
    let mut archive = opened(alloc, disks?)?;
    let batch = vectors(alloc, 1, 1)?;
    let is_refused = matches!(archive.admit(0, &batch), Err(AdmitError::Fault));
    Some(
        is_refused
            && takes_no_more(&mut archive, 0, &batch)
            && takes_no_more(&mut archive, 1, &batch)
            && does_no_more(&mut archive)
            && is_as_before(&mut archive),
    )
}

// Four writes, and two syncs after those of the opening.
#[test]
fn an_archive_that_failed_reports_and_does_nothing_else(rt: HostRuntime) {
    let alloc = rt.alloc();
    let disks = one_given(alloc).expect(&rt, "disks");
    for number in 0..4 {
        let failure = failed_write(alloc, number, 1).expect(&rt, "a failure");
        let failing = disks.failing(alloc, failure);
        be(&rt, is_down(alloc, failing) == Some(true), "a write");
    }
    for number in 2..4 {
        let failing = disks.failing(alloc, Failure::Sync(number));
        be(&rt, is_down(alloc, failing) == Some(true), "a sync");
    }
}

// Disks of an archive of which five changes of one prefix are applied, and the sixth waits. A leaf has 16,232 octets, and each of
// these takes 2,984 of them; so the next step burns a block. No page waits to go home.
fn five_applied(alloc: Global) -> Option<Both> {
    let mut archive = made(alloc, SETTINGS)?;
    give(&mut archive, 0, &large(alloc, 6)?)?;
    set_mark(&mut archive, 1_704_067_205)?;
    for _ in 0..5 {
        apply(&mut archive)?;
    }
    set_mark(&mut archive, 1_704_067_300)?;
    Some(given_up(reopened(alloc, archive)?))
}

// Disks of an archive on which six such changes wait, all of them below the mark. No page waits to go home.
fn six_waiting(alloc: Global) -> Option<Both> {
    let mut archive = made(alloc, SETTINGS)?;
    give(&mut archive, 0, &large(alloc, 6)?)?;
    set_mark(&mut archive, 1_704_067_300)?;
    Some(given_up(reopened(alloc, archive)?))
}

/// Lines that are put together, and whether there was memory for all of them.
#[derive(Drop)]
struct Lines {
    alloc: Global,
    octets: Vec<u8>,
    is_whole: bool,
}

impl Lines {
    fn new(alloc: Global) -> Lines {
        Lines {
            alloc,
            octets: Vec::new(alloc),
            is_whole: true,
        }
    }

    fn add(&mut self, text: &str) {
        self.is_whole &= self.octets.extend_from_slice(text.as_bytes()).is_ok();
    }

    fn add_number(&mut self, number: u32) {
        match format!(in self.alloc; "{number}") {
            Ok(text) => self.add(&text),
            Err(_) => self.is_whole = false,
        }
    }

    // Adds the end of a line, after the path of its route.
    fn add_end(&mut self) {
        self.add("|IGP|192.0.2.1|||NAG||99/c0/");
        for _ in 0..58 {
            self.add(HUNDRED);
        }
        self.add("\n");
    }
}

// A hundred digits of octets.
const HUNDRED: &str =
    "0000000000000000000000000000000000000000000000000000000000000000000000000000000000000000000000000000";

// The lines of the history of the prefix where this many changes are applied.
fn history(alloc: Global, changes: u32) -> Lines {
    let mut lines = Lines::new(alloc);
    for number in 0..changes.min(6) {
        lines.add("A|");
        lines.add_number(1_704_067_200 + number);
        lines.add("|65001 ");
        lines.add_number(65_002 + number);
        lines.add_end();
    }
    lines.add("E|");
    lines.add_number(changes);
    lines.add("\n");
    lines
}

// The lines of the first route.
fn first_row(alloc: Global) -> Lines {
    let mut lines = Lines::new(alloc);
    lines.add("R|0|192.0.2.1|65001|10.0.0.0/8|65001 65002");
    lines.add_end();
    lines.add("E|1\n");
    lines
}

fn is_answered(alloc: Global, archive: &mut MemArchive, line: &str, lines: &Lines) -> bool {
    lines.is_whole && answers_as(alloc, archive, line, &lines.octets)
}

// Whether the archive answers as it should while this many changes are applied, five or six: its watermark, the history below that, and
// the first route, whose page became a block.
fn is_right(alloc: Global, archive: Made, changes: u32) -> bool {
    let (line, settled) = if changes == 5 {
        (
            "history 0 1704067204 0 192.0.2.1 65001 10.0.0.0/8",
            1_704_067_205,
        )
    } else {
        (
            "history 0 1704067299 0 192.0.2.1 65001 10.0.0.0/8",
            1_704_067_300,
        )
    };
    let is_settled = archive.settled() == mark_at(settled);
    let mut archive = MemArchive::new(archive, NoReasons);
    let first = "at 1704067200 prefix 10.0.0.0/8";
    is_settled
        && is_answered(alloc, &mut archive, line, &history(alloc, changes))
        && is_answered(alloc, &mut archive, first, &first_row(alloc))
}

// The same of the archive on these disks.
fn is_right_on(alloc: Global, disks: Both, changes: u32) -> Option<bool> {
    Some(is_right(alloc, opened(alloc, disks)?, changes))
}

// Whether these blocks are tried, one after another, and no other.
fn is_tried(disks: &Both, blocks: &[u64]) -> bool {
    let settled = disks.pen.settled().iter();
    let tried = settled.chain(disks.pen.waiting().iter());
    tried.map(|burn| burn.number()).eq(blocks.iter().copied())
}

// Makes the next step of applying on these disks, and returns whether a change was applied.
fn apply_one(alloc: Global, disks: Both) -> Option<Given> {
    let mut archive = opened(alloc, disks)?;
    let is_acknowledged = apply(&mut archive) == Some(true);
    Some(Given {
        is_acknowledged,
        disks: given_up(archive),
    })
}

// Whether the step on these disks burns block 1, where block 0 is spent, and all is answered then.
fn burns_the_next(alloc: Global, disks: Both) -> Option<bool> {
    let again = apply_one(alloc, disks)?;
    let is_spent = again.is_acknowledged && is_tried(&again.disks, &[0, 1]);
    Some(is_spent && is_right_on(alloc, again.disks, 6)?)
}

// Whether a step that is stopped before its commit flag has spent block 0, which nothing refers to after this crash; and whether the
// same step burns block 1 then.
fn spends_its_block(alloc: Global, disks: Option<Both>, crash: u8) -> Option<bool> {
    let stopped = apply_one(alloc, disks?)?;
    let is_stopped = !stopped.is_acknowledged && is_tried(&stopped.disks, &[0]);
    let left = stopped.disks.crash(alloc, crash)?;
    let is_before = is_right_on(alloc, left.copy()?, 5)?;
    Some(is_stopped && is_before && burns_the_next(alloc, left)?)
}

// A header and three images are written before the commit flag: of a leaf, a column and the head.
#[test]
fn a_step_that_is_stopped_after_its_settle_spends_a_block(rt: HostRuntime) {
    let alloc = rt.alloc();
    let disks = five_applied(alloc).expect(&rt, "disks");
    be(&rt, is_tried(&disks, &[]), "no block");
    for number in [0, 3] {
        for crash in [0, 1, 2, 3, IN_TURN] {
            let failure = failed_write(alloc, number, 1).expect(&rt, "a failure");
            let failing = disks.failing(alloc, failure);
            let is_spent = spends_its_block(alloc, failing, crash);
            be(&rt, is_spent == Some(true), "a block that is spent");
        }
    }
}

// Whether a step that a failure stops, or none does, is done whole or not at all after a crash; done, where it was acknowledged.
fn is_applied_whole(
    alloc: Global,
    disks: Option<Both>,
    is_stopped: bool,
    crash: u8,
) -> Option<bool> {
    let applied = apply_one(alloc, disks?)?;
    let archive = opened_after(alloc, &applied.disks, crash)?;
    let is_before = archive.settled() == mark_at(1_704_067_205);
    let changes = if is_before { 5 } else { 6 };
    let is_kept = !(is_before && applied.is_acknowledged);
    Some(applied.is_acknowledged != is_stopped && is_kept && is_right(alloc, archive, changes))
}

#[test]
fn a_change_is_applied_whole_or_not(rt: HostRuntime) {
    let alloc = rt.alloc();
    let disks = five_applied(alloc).expect(&rt, "disks");
    for number in 0..6 {
        for crash in [0, 1, 2, 3, IN_TURN] {
            let failure = failed_write(alloc, number, crash % KINDS).expect(&rt, "a failure");
            let failing = disks.failing(alloc, failure);
            let is_whole = is_applied_whole(alloc, failing, number < 5, crash);
            be(&rt, is_whole == Some(true), "a change");
        }
    }
}

// Whether a step is refused for a failure.
fn is_refused(archive: &mut Made) -> bool {
    archive.apply_step() == Err(ApplyError::Fault)
}

// Whether the step is refused for a failure, which spends block 0, and the same step burns block 1 then, without an opening.
fn goes_on(alloc: Global, disks: Option<Both>) -> Option<bool> {
    let mut archive = opened(alloc, disks?)?;
    let is_refused = is_refused(&mut archive);
    let is_applied = apply(&mut archive) == Some(true);
    let disks = given_up(archive);
    let left = disks.crash(alloc, IN_TURN)?;
    let is_spent = is_tried(&disks, &[0, 1]);
    Some(is_refused && is_applied && is_spent && is_right_on(alloc, left, 6)?)
}

// A burn that fails and leaves this kind.
fn failed_burn(alloc: Global, kind: u8) -> Option<OnceFailure> {
    Some(OnceFailure::Burn(0, torn(alloc, kind)?))
}

#[test]
fn a_block_that_is_not_burnt_or_settled_is_spent(rt: HostRuntime) {
    let alloc = rt.alloc();
    let disks = five_applied(alloc).expect(&rt, "disks");
    for kind in 0..KINDS {
        let failure = failed_burn(alloc, kind).expect(&rt, "a failure");
        let failing = disks.failing_once(alloc, failure);
        be(&rt, goes_on(alloc, failing) == Some(true), "a burn");
    }
    let failing = disks.failing_once(alloc, OnceFailure::Settle(0));
    be(&rt, goes_on(alloc, failing) == Some(true), "a settle");
}

// The sixth change burns a block, in a step that has planned the first five.
#[test]
fn a_burn_that_fails_after_other_changes_is_returned(rt: HostRuntime) {
    let alloc = rt.alloc();
    let disks = six_waiting(alloc).expect(&rt, "disks");
    let failure = failed_burn(alloc, 0).expect(&rt, "a failure");
    let failing = disks.failing_once(alloc, failure);
    be(&rt, goes_on(alloc, failing) == Some(true), "a burn");
}

// Whether a batch without a record is taken, after one record that was admitted.
fn takes_none(alloc: Global, disks: Option<Both>) -> Option<bool> {
    let mut archive = opened(alloc, disks?)?;
    let reply = archive.admit(0, &[]).ok()?;
    let is_none = reply.receipt.from == 1 && reply.receipt.to == 1;
    Some(is_none && reply.offered == 1 && reply.late.is_empty())
}

#[test]
fn a_batch_without_a_record_is_not_written(rt: HostRuntime) {
    let alloc = rt.alloc();
    let disks = one_given(alloc).expect(&rt, "disks");
    let failure = failed_write(alloc, 0, 1).expect(&rt, "a failure");
    let failing = disks.failing(alloc, failure);
    be(&rt, takes_none(alloc, failing) == Some(true), "no record");
}
