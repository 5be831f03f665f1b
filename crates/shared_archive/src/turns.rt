//! Turns of questions, their errands, and what an archive returns, by its past.

ghost use Rattle.std.specs.Prelude.{◌≡◌, ◌<◌, ◌≤◌, ℕ, List, [], IfErr, IfNone, IfOk, IfSome, OnOk, ⊤};
ghost use Rattle.route_meaning.specs.Changed.{IsChangedAnswer};
ghost use Rattle.route_meaning.specs.History.{applied, settled};
ghost use Rattle.interleaving_core.specs.Does.{last_moment};
ghost use Rattle.interleaving_core.specs.Headline.{IsAnswered};
ghost use Rattle.board.specs.Past.{Past, Among, count_of};
ghost use Rattle.query_threads.specs.Looks.{AreSettled, AreTheSettled, IsErrandOn};
ghost use Rattle.query_threads.specs.Turns.{TurnGives, IsReported, IsReportedAt};
ghost use Rattle.query_threads.specs.Troubles.{IsOutside, OnAskTrouble};
ghost use Rattle.once_store.specs.Readers.{kept_blocks, reader_disk};
ghost use Rattle.disk_archive.specs.Archives.{once_of};
ghost use Rattle.disk_archive.specs.Cursors.{IsGathered, IsWalked, asks};
ghost use Rattle.disk_archive.specs.Descents.{IsErrandFor};
ghost use Rattle.shared_archive.specs.Represented.{RepresentsPast, LocatedInPast, ring_pages};
ghost use Rattle.shared_archive.specs.Reported.{LookFails, Misses, Reports};

use crate::refusals::{ask_refusal, block_trouble};
use disk_archive::{Archive, Cursor, Descent, Errand};
use disk_models::{EraseDisk, OnceDisk};
use once_store::ShelfReader;
use query_threads::{AskError, Trouble, Turn};
use route_history::ChangedCursor;
use route_meaning::ChangedAnswer;
use std::alloc::Global;

/// How many admissions of a collector there are, 0 of one that there isn't.
pub(crate) fn admitted<E: EraseDisk + Drop, O: OnceDisk + Drop>(
    archive: &Archive<E, O>,
    collector: u8,
) -> u64
    ensures count { (p : Past) → RepresentsPast archive.now p → result ≡ count_of p.history collector }
{
    if collector >= archive.collectors() {
        return 0;
    }
    archive.resume(collector).admitted
}

/// A turn of a question.
pub(crate) fn descend<E: EraseDisk + Drop, O: OnceDisk + Drop>(
    archive: &mut Archive<E, O>,
    cursor: &mut Cursor,
) -> Result<Turn<Errand>, AskError>
    ensures represents { (p : Past) → RepresentsPast archive.old p → RepresentsPast archive.new p }
    ensures asks { asks cursor.new ≡ asks cursor.old }
    ensures fits { IfOk result (λ turn. TurnGives (λ errand. IsErrandFor cursor.new errand) ⊤ (λ _. ⊤) turn) }
    ensures settled { (p : Past) → RepresentsPast archive.old p → OnOk result (last_moment (asks cursor.old) < settled p.history) }
    ensures gives { (p : Past) → RepresentsPast archive.old p → IsGathered cursor.old p.history → IfOk result (λ turn. TurnGives (λ errand. LocatedInPast (O.block_count (once_of archive.old)) errand cursor.new p) (IsGathered cursor.new p.history) (λ answer. IsAnswered (applied p.history) (asks cursor.old) answer) turn) }
    ensures reported { (p : Past) → RepresentsPast archive.old p → IfErr result (λ e. IsReported e p.history (asks cursor.old)) }
    ensures trouble { IfErr result (OnAskTrouble (λ t. Reports archive.old t archive.new)) }
    ensures disk { once_of archive.new ≡ once_of archive.old }
    ensures pages { ring_pages archive.new ≡ ring_pages archive.old }
{
    match archive.descend(cursor) {
        Ok(Descent::Done(answer)) => Ok(Turn::Done(answer)),
        Ok(Descent::Again) => Ok(Turn::Again),
        Ok(Descent::Historical(errand)) => Ok(Turn::Historical(errand)),
        Err(refusal) => Err(ask_refusal(refusal)),
    }
}

/// A look at which blocks are settled.
pub(crate) fn seen<E: EraseDisk + Drop, O: OnceDisk + Drop>(
    archive: &mut Archive<E, O>,
) -> Result<O::Seen, Trouble>
    ensures represents { (p : Past) → RepresentsPast archive.old p → RepresentsPast archive.new p }
    ensures honest { (p : Past) → RepresentsPast archive.old p → IfOk result (λ s. O.honest_seen (once_of archive.old) s) }
    ensures known { (p : Past) → RepresentsPast archive.old p → IfOk result (λ s. AreTheSettled (O.block_count (once_of archive.old)) (O.known s) p.blocks) }
    ensures sound { (p : Past) → RepresentsPast archive.old p → IfErr result IsOutside }
    ensures trouble { IfErr result (λ t. Reports archive.old t archive.new) }
    ensures disk { once_of archive.new ≡ once_of archive.old }
    ensures pages { ring_pages archive.new ≡ ring_pages archive.old }
{
    match archive.seen() {
        Ok(seen) => Ok(seen),
        Err(_) => Err(Trouble::Fault),
    }
}

/// A reader that keeps up to `capacity` blocks, and none yet. Fails only when out of memory.
pub(crate) fn reader<E: EraseDisk + Drop, O: OnceDisk + Drop>(
    archive: &Archive<E, O>,
    capacity: usize,
) -> Result<ShelfReader<O>, Trouble>
    requires some { 1 ≤ capacity }
    requires few { capacity ≤ 1024 }
    ensures disk { IfOk result (λ r. reader_disk r ≡ once_of archive.now) }
    ensures empty { IfOk result (λ r. kept_blocks r ≡ []) }
    ensures memory { IfErr result (λ e. e ≡ Trouble.OutOfMemory) }
{
    match archive.reader(capacity) {
        Ok(reader) => Ok(reader),
        Err(_) => Err(Trouble::OutOfMemory),
    }
}

/// Reads the blocks of an errand without the archive.
pub(crate) fn finish<O: OnceDisk + Drop>(
    reader: &mut ShelfReader<O>,
    seen: &mut O::Seen,
    alloc: Global,
    errand: Errand,
    cursor: &mut Cursor,
) -> Result<(), Trouble>
    requires fits { IsErrandFor cursor.old errand }
    ensures kept { (p : Past) → IsErrandOn (λ e disk past. LocatedInPast (O.block_count disk) e cursor.old past) O.honest_seen O.block_count O.known p errand seen.old (reader_disk reader.old) → AreSettled (O.block_count (reader_disk reader.old)) (O.known seen.old) (kept_blocks reader.old) → AreSettled (O.block_count (reader_disk reader.old)) (O.known seen.old) (kept_blocks reader.new) }
    ensures sound { (p : Past) → IsErrandOn (λ e disk past. LocatedInPast (O.block_count disk) e cursor.old past) O.honest_seen O.block_count O.known p errand seen.old (reader_disk reader.old) → AreSettled (O.block_count (reader_disk reader.old)) (O.known seen.old) (kept_blocks reader.old) → IfErr result IsOutside }
    ensures trouble { IfErr result (λ t. Misses O.OnceDisk seen.old t seen.new) }
    ensures disk { reader_disk reader.new ≡ reader_disk reader.old }
    ensures asks { asks cursor.new ≡ asks cursor.old }
    ensures gathered { OnOk result ((p : Past) → IsErrandOn (λ e disk past. LocatedInPast (O.block_count disk) e cursor.old past) O.honest_seen O.block_count O.known p errand seen.old (reader_disk reader.old) → AreSettled (O.block_count (reader_disk reader.old)) (O.known seen.old) (kept_blocks reader.old) → IsGathered cursor.new p.history) }
{
    match errand.finish(alloc, reader, seen, cursor) {
        Ok(()) => Ok(()),
        Err(refusal) => Err(block_trouble(refusal)),
    }
}

/// A look of a walk over what changed.
pub(crate) fn look<E: EraseDisk + Drop, O: OnceDisk + Drop>(
    archive: &mut Archive<E, O>,
    reader: &mut ShelfReader<O>,
    walk: &mut ChangedCursor,
) -> Result<Option<ChangedAnswer>, AskError>
    ensures represents { (p : Past) → RepresentsPast archive.old p → RepresentsPast archive.new p }
    ensures walks { walk.new.question ≡ walk.old.question }
    ensures settled { (p : Past) → RepresentsPast archive.old p → OnOk result (walk.old.question.to < settled p.history) }
    ensures walked { (p : Past) → RepresentsPast archive.old p → reader_disk reader.old ≡ once_of archive.old → Among (kept_blocks reader.old) p.blocks → IsWalked walk.old p.history → IfOk result (λ found. IfNone found (IsWalked walk.new p.history)) }
    ensures answer { (p : Past) → RepresentsPast archive.old p → reader_disk reader.old ≡ once_of archive.old → Among (kept_blocks reader.old) p.blocks → IsWalked walk.old p.history → IfOk result (λ found. IfSome found (λ answer. IsChangedAnswer (applied p.history) walk.old.question answer.spots.items answer.more)) }
    ensures kept { (p : Past) → RepresentsPast archive.old p → reader_disk reader.old ≡ once_of archive.old → Among (kept_blocks reader.old) p.blocks → Among (kept_blocks reader.new) p.blocks }
    ensures reported { (p : Past) → RepresentsPast archive.old p → reader_disk reader.old ≡ once_of archive.old → Among (kept_blocks reader.old) p.blocks → IfErr result (λ e. IsReportedAt e p.history walk.old.question.to) }
    ensures trouble { IfErr result (OnAskTrouble (λ t. LookFails archive.old t archive.new)) }
    ensures reads { reader_disk reader.new ≡ reader_disk reader.old }
    ensures disk { once_of archive.new ≡ once_of archive.old }
    ensures pages { ring_pages archive.new ≡ ring_pages archive.old }
{
    match archive.changed_look(reader, walk) {
        Ok(found) => Ok(found),
        Err(refusal) => Err(ask_refusal(refusal)),
    }
}
