//! The calls of an archive, each of which is as its record says, and a use.

ghost use Rattle.std.specs.Prelude.{◌≡◌, ℕ, List, [], ◌∷◌, ◌++◌, Option, Some, None, IfOk, IfErr, slice_get, slice_set};
ghost use Rattle.std.specs.Global.{Vec};
ghost use Rattle.disk_models.specs.Left.{CrashPair, Left, LeftNow};
ghost use Rattle.route_model.specs.Admission.{Admitted};
ghost use Rattle.archive_pages.specs.Places.{AreSettings};
ghost use Rattle.once_store.specs.Readers.{reader_disk};
ghost use Rattle.tsb_walk.specs.Knowing.{ReadsWell};
ghost use Rattle.disk_archive.specs.Archives.{is_down};
ghost use Rattle.disk_archive.specs.Cursors.{asks};
ghost use Rattle.disk_archive.specs.Descents.{IsErrandFor};
ghost use Rattle.disk_archive.specs.Outcome.{erase_after, pen_after};
ghost use Rattle.disk_archive.specs.Reading.{ReadsFrom};
ghost use Rattle.archive_uses.specs.Calls.{Admits, Asks, Finishes, Flushes, Looks, Marks, Steps, Turns};
ghost use Rattle.archive_uses.specs.Openings.{Opens};
ghost use Rattle.archive_uses.specs.Use.Call.{admit as a_batch, mark as a_mark, apply, flush, ask as a_question};
ghost use Rattle.archive_uses.specs.Lives.{LeftByCreation, Starts};
ghost use Rattle.archive_uses.specs.Use.Use.{called, closed, looked, opened, shut};
ghost use Rattle.archive_uses.specs.Uses.{Asked, BeginEnds, Errands, FinishEnds, Leads, TurnEnds, errand_given};
ghost use Rattle.archive_uses.specs.Uses.Stage.{off, on};
ghost use Rattle.archive_uses.specs.Verdicts.{of_admit, of_apply, of_ask, of_flush, of_mark, of_turn};

use archive_pages::Settings;
use disk_archive::{
    AdmitError, ApplyError, Archive, AskError, CheckError, CreateError, Cursor, Descent, Errand,
    Flush, FlushError, MarkError, OpenError, Refused, Step,
};
use disk_models::{EraseDisk, Fault, OnceDisk};
use interleaving_core::{Answer, BatchReply, Query};
use once_store::{BlockError, ShelfReader};
use route_history::ChangedCursor;
use route_meaning::ChangedAnswer;
use route_model::{Admission, Mark};
use std::alloc::Global;
use std::sync::Arc;

/// Gives a batch.
pub fn admit<E: EraseDisk + Drop, O: OnceDisk + Drop>(
    archive: &mut Archive<E, O>,
    collector: u8,
    batch: &[Admission],
) -> Result<BatchReply, AdmitError>
    ensures did { Admits archive.old archive.new collector batch.now result }
    ensures leads { (given : Vec Admitted) → given.items ≡ batch.now → Leads (called (a_batch collector given) (of_admit result (is_down archive.new))) (on archive.old) (on archive.new) }
{
    archive.admit(collector, batch)
}

/// Raises a mark.
pub fn mark<E: EraseDisk + Drop, O: OnceDisk + Drop>(
    archive: &mut Archive<E, O>,
    collector: u8,
    mark: Mark,
) -> Result<(), MarkError>
    ensures did { Marks archive.old archive.new collector mark result }
    ensures leads { Leads (called (a_mark collector mark) (of_mark result (is_down archive.new))) (on archive.old) (on archive.new) }
{
    archive.mark(collector, mark)
}

/// Makes a step of applying.
pub fn apply_step<E: EraseDisk + Drop, O: OnceDisk + Drop>(
    archive: &mut Archive<E, O>,
) -> Result<Step, ApplyError>
    ensures did { Steps archive.old archive.new result }
    ensures leads { Leads (called apply (of_apply result (is_down archive.new))) (on archive.old) (on archive.new) }
{
    archive.apply_step()
}

/// Makes a step of flushing.
pub fn flush_step<E: EraseDisk + Drop, O: OnceDisk + Drop>(
    archive: &mut Archive<E, O>,
) -> Result<Flush, FlushError>
    ensures did { Flushes archive.old archive.new result }
    ensures leads { Leads (called flush (of_flush result (is_down archive.new))) (on archive.old) (on archive.new) }
{
    archive.flush_step()
}

/// Answers a question.
pub fn ask<E: EraseDisk + Drop, O: OnceDisk + Drop>(
    archive: &mut Archive<E, O>,
    query: Query,
) -> Result<Answer, AskError>
    ensures did { Asks archive.old archive.new query result }
    ensures leads { Leads (called (a_question query) (of_ask result (is_down archive.new))) (on archive.old) (on archive.new) }
{
    archive.answer(query)
}

/// Answers a question by a reader of the archive's blocks.
pub fn ask_with<E: EraseDisk + Drop, O: OnceDisk + Drop>(
    archive: &mut Archive<E, O>,
    reader: &mut ShelfReader<O>,
    query: Query,
) -> Result<Answer, AskError>
    ensures did { ReadsFrom archive.old reader.old → Asks archive.old archive.new query result }
    ensures leads { ReadsFrom archive.old reader.old → Leads (called (a_question query) (of_ask result (is_down archive.new))) (on archive.old) (on archive.new) }
{
    archive.answer_with(reader, query)
}

/// Begins a question.
pub fn start<E: EraseDisk + Drop, O: OnceDisk + Drop>(
    archive: &Archive<E, O>,
    query: Query,
) -> Cursor
    ensures asks { asks result ≡ query }
    ensures leads { (hand : List Asked) → BeginEnds hand (hand ++ record { cursor = result; errand = None } ∷ []) }
{
    archive.start(query)
}

/// Takes a turn of a question.
pub fn descend<E: EraseDisk + Drop, O: OnceDisk + Drop>(
    archive: &mut Archive<E, O>,
    cursor: &mut Cursor,
) -> Result<Descent, AskError>
    ensures did { Turns archive.old archive.new cursor.old cursor.new result }
    ensures leads { (hand : List Asked) (number : ℕ) (question : Asked) → slice_get hand number ≡ Some question → question.cursor ≡ cursor.old
        → TurnEnds (asks cursor.old) (of_turn result (is_down archive.new)) archive.old archive.new hand (slice_set hand number (record { cursor = cursor.new; errand = errand_given archive.old result })) }
{
    archive.descend(cursor)
}

/// Finishes an errand of a question.
pub fn finish<O: OnceDisk + Drop>(
    errand: Errand,
    alloc: Global,
    reader: &mut ShelfReader<O>,
    seen: &mut O::Seen,
    cursor: &mut Cursor,
) -> Result<(), BlockError>
    requires fits { IsErrandFor cursor.old errand }
    ensures did { Finishes O.OnceDisk reader.old seen.old errand cursor.old cursor.new result }
    ensures leads { (hand : List Asked) (number : ℕ) (blocks : ℕ) (known : ℕ → Option (List ℕ)) → slice_get hand number ≡ Some (record { cursor = cursor.old; errand = Some (record { errand = errand; blocks = blocks; known = known }) })
        → ReadsWell O.OnceDisk reader.old seen.old → O.block_count (reader_disk reader.old) ≡ blocks → ((n : ℕ) (octets : List ℕ) → known n ≡ Some octets → O.known seen.old n ≡ Some octets)
        → FinishEnds O.OnceDisk hand (slice_set hand number (record { cursor = cursor.new; errand = None })) }
{
    errand.finish(alloc, reader, seen, cursor)
}

/// Checks the archive.
pub fn check<E: EraseDisk + Drop, O: OnceDisk + Drop>(
    archive: &mut Archive<E, O>,
) -> Result<u64, CheckError>
    ensures leads { Leads looked (on archive.old) (on archive.new) }
{
    archive.check()
}

/// Looks at what is settled.
pub fn seen<E: EraseDisk + Drop, O: OnceDisk + Drop>(
    archive: &mut Archive<E, O>,
) -> Result<O::Seen, Fault>
    ensures leads { Leads looked (on archive.old) (on archive.new) }
{
    archive.seen()
}

/// Looks for what changed. What it finds is right by the call's own clauses.
pub fn changed_look<E: EraseDisk + Drop, O: OnceDisk + Drop>(
    archive: &mut Archive<E, O>,
    reader: &mut ShelfReader<O>,
    cursor: &mut ChangedCursor,
) -> Result<Option<ChangedAnswer>, AskError>
    ensures leads { Leads looked (on archive.old) (on archive.new) }
{
    archive.changed_look(reader, cursor)
}

/// Opens both disks.
pub fn open<E: EraseDisk + Drop, O: OnceDisk + Drop>(
    alloc: Global,
    erase: E,
    once: Arc<O>,
    pen: O::Pen,
) -> Result<Archive<E, O>, Refused<E, O, OpenError>>
    ensures did { Opens erase once.value pen result }
    ensures opens { IfOk result (λ archive. Leads opened (off erase once.value pen) (on archive)) }
    ensures shuts { IfErr result (λ refused. Leads {Seen = O.Seen} {erase = E.EraseDisk} {once = O.OnceDisk} shut (off erase once.value pen) (off refused.erase refused.once.value refused.pen)) }
{
    Archive::open(alloc, erase, once, pen)
}

/// Creates an archive. What a crash inside the call left, or one after it was refused, is the start of a life too; or the disk holds no journal,
/// or the crash is one before the call.
pub fn create<E: EraseDisk + Drop, O: OnceDisk + Drop>(
    alloc: Global,
    erase: E,
    once: Arc<O>,
    pen: O::Pen,
    settings: Settings,
) -> Result<Archive<E, O>, Refused<E, O, CreateError>>
    requires { AreSettings settings }
    ensures starts { E.honest erase → O.honest once.value pen → IfOk result (λ archive. Starts settings [] (on archive)) }
    ensures inside { E.honest erase → O.honest once.value pen → (left : Left) → CrashPair (E.model erase) (E.model (erase_after result)) (O.model pen) (O.model pen) (O.model (pen_after result)) left
        → LeftByCreation E.EraseDisk O.OnceDisk settings erase once.value pen left }
    ensures after { E.honest erase → O.honest once.value pen → (left : Left) → LeftNow (E.model (erase_after result)) (O.model (pen_after result)) left
        → LeftByCreation E.EraseDisk O.OnceDisk settings erase once.value pen left }
{
    Archive::create(alloc, erase, once, pen, settings)
}

/// Takes both disks out of the archive.
pub fn close<E: EraseDisk + Drop, O: OnceDisk + Drop>(archive: Archive<E, O>) -> (E, Arc<O>, O::Pen)
    ensures leads { Leads closed (on archive) (off result.0 result.1.value result.2) }
{
    archive.into_disks()
}
