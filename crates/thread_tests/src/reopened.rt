//! An archive whose device fails is opened again, while it is shared.

ghost use Rattle.std.specs.Prelude.{◌≡◌, ◌≤◌};
ghost use Rattle.board.specs.Opened.{name_of};

use crate::be;
use crate::logs::Log;
use crate::made::{COLLECTORS, FIRST, SECOND, announcements, history_of, loaded_store};
use board::{Named, Opened, Pass};
use disk_archive::Archive;
use disk_memory::Failure;
use interleaving_core::Answer;
use query_threads::{
    AdmitError, AskError, Flush, NoGate, Reader, Shared, Store, Trouble, Unpromised,
};
use shared_archive::{Disks, MemStore, NoRenewal};
use std::alloc::Global;
use std::marker::Brand;
use std::sync::Wait;

/// The archive of the test. Each call names its board `B`.
type Stage<B> = Shared<MemStore, Unpromised<B>, NoGate>;

// A store that the first records were given to, whose pages are all home. Two syncs that follow each other fail: the first of the
// first call that commits, and the next one.
fn failing_store(alloc: Global) -> Option<MemStore> {
    let mut store = loaded_store(alloc, &mut Log::new(alloc))?;
    for _ in 0..u64::MAX {
        if store.flush_step().ok()? == Flush::Clean {
            break;
        }
    }
    let Disks {
        mut erase,
        once,
        pen,
    } = store.archive.into_disks()?;
    // An opening that finds nothing to recover syncs twice.
    erase.set_script(vec![in alloc; Failure::Sync(2), Failure::Sync(3)].ok()?);
    let archive = Archive::open(alloc, erase, once, pen).ok()?;
    Some(MemStore::new(archive, NoRenewal))
}

// Asks for the first records.
fn ask<B: Named>(
    rt: &impl Wait,
    alloc: Global,
    stage: &Stage<B>,
    pass: &mut Pass<Unpromised<B>>,
) -> Result<Answer, AskError> {
    let mut reader = Reader::new(rt, alloc, stage, 8)?;
    stage.ask(rt, pass, &mut reader, 1, history_of(FIRST, SECOND - 1))
}

// How many events an answer has.
fn events_in(answer: Result<Answer, AskError>) -> Option<usize> {
    match answer {
        Ok(Answer::Events(events)) => Some(events.events.len()),
        _ => None,
    }
}

// How many admissions are durable.
fn durable_in<B: Named>(stage: &Stage<B>, pass: &mut Pass<Unpromised<B>>) -> u64 {
    if stage.collectors() == 0 {
        return 0;
    }
    stage.durable(pass, 0)
}

// Admits a record.
fn give<B: Named>(
    rt: &impl Wait,
    alloc: Global,
    stage: &Stage<B>,
    pass: &mut Pass<Unpromised<B>>,
) -> Result<(), AdmitError> {
    let Some(records) = announcements(alloc, SECOND, 1) else {
        return Err(AdmitError::Trouble(Trouble::OutOfMemory));
    };
    stage.admit(rt, pass, 0, &records)?;
    Ok(())
}

// Whether the device fails, the archive is opened again at the second attempt, and goes on then.
fn goes_on<B: Named>(
    rt: &impl Wait,
    alloc: Global,
    stage: &Stage<B>,
    pass: &mut Pass<Unpromised<B>>,
) -> bool {
    let before = events_in(ask(rt, alloc, stage, pass));
    let durable = durable_in(stage, pass);
    let failed = give(rt, alloc, stage, pass);
    let refused = ask(rt, alloc, stage, pass).err();
    let first = stage.reopen(rt, pass, alloc);
    let shut = stage.apply(rt, pass);
    let reported = durable_in(stage, pass);
    let second = stage.reopen(rt, pass, alloc);
    let again = events_in(ask(rt, alloc, stage, pass));
    let given = give(rt, alloc, stage, pass);
    before.is_some()
        && failed == Err(AdmitError::Trouble(Trouble::Fault))
        && refused == Some(AskError::Trouble(Trouble::NeedsRecovery))
        && first == Err(Trouble::Fault)
        && shut == Err(Trouble::NeedsRecovery)
        && reported == durable
        && second == Ok(())
        && again == before
        && given == Ok(())
        && durable_in(stage, pass) == durable.saturating_add(1)
}

fn play<B: Named>(rt: &impl Wait, alloc: Global, opened: Opened, store: MemStore) -> bool
    requires named { name_of opened ≡ B.table }
    requires some { 1 ≤ opened.collectors }
{
    let (stage, mut pass): (Stage<B>, Pass<Unpromised<B>>) = Shared::new::<Unpromised<B>>(
        opened, store, NoGate,
    );
    let goes_on = goes_on(rt, alloc, &stage, &mut pass);
    let _store = stage.close(Vec::new(alloc));
    goes_on
}

/// Whether an archive whose device fails twice goes on.
fn is_right(rt: &impl Wait, alloc: Global) -> Option<bool> {
    let store = failing_store(alloc)?;
    let opened = Opened::new(alloc, COLLECTORS).ok()?;
    Some(play::<Brand>(rt, alloc, opened, store))
}

#[test]
fn an_archive_is_opened_again_while_it_is_shared(rt: HostRuntime) {
    be(&rt, is_right(&rt, rt.alloc()) == Some(true), "it goes on");
}
