//! Commits a transaction: the one place where a call that changes the history writes to the erasable disk. It is given no
//! shelf, so that whatever a call burns is settled before.

ghost use Rattle.std.specs.Prelude.{◌≡◌, ◌≢◌, ◌⊎◌, ℕ, List, [], OnOk, OnErr, IfOk, IfErr, IsErrOf, Err, true, false};
ghost use Rattle.disk_models.specs.Erase.{Leaves};
ghost use Rattle.page_journal.specs.Calls.{SameJournal};
ghost use Rattle.page_journal.specs.Journal.{disk_of, home_pages, needs_recovery, note_of};
ghost use Rattle.page_journal.specs.Recovers.{RecoversEither};
ghost use Rattle.page_journal.specs.Refusals.{UseRefusal};
ghost use Rattle.buffer_pool.specs.Pool.{Maps, journal_of};
ghost use Rattle.page_tx.specs.Start.{Start};
ghost use Rattle.page_tx.specs.Tx.{Shows, named_pages, pool_of};

use crate::error::NeedsRecovery;
use disk_models::EraseDisk;
use page_journal::{PostError, UseError};
use page_tx::Tx;

// Why a post was refused that has a closed slot.
fn refusal(error: PostError) -> UseError
    requires few { error ≢ PostError.TooManyImages }
    requires room { error ≢ PostError.JournalFull }
    ensures fault { (result ≡ UseError.Fault) → (error ≡ PostError.Fault) }
    ensures recovery { (result ≡ UseError.NeedsRecovery) → (error ≡ PostError.NeedsRecovery) }
{
    match error {
        PostError::Fault => UseError::Fault,
        PostError::NeedsRecovery => UseError::NeedsRecovery,
        PostError::TooManyImages | PostError::JournalFull => unreachable!(),
    }
}

/// Makes the pages that are shown those of the pool, all of them or none. If one slot of the journal is left, the pages go
/// home first that only the oldest open slot has, and the commit closes that slot. If none is left, a checkpoint comes first.
/// After a refusal the pages are those of the start, or the archive must be opened again.
pub(crate) fn commit<E: EraseDisk + Drop>(tx: &mut Tx<E>) -> Result<(), UseError>
    ensures crash { (start : Start) (shown : List (List ℕ)) → Shows E.EraseDisk tx.old start shown
        → Leaves (E.model (disk_of (journal_of (pool_of tx.old)))) (E.model (disk_of (journal_of (pool_of tx.new)))) (RecoversEither (home_pages (journal_of (pool_of tx.old))) start.note start.pages shown) }
    ensures ok { (start : Start) (shown : List (List ℕ)) → Shows E.EraseDisk tx.old start shown → OnOk result (Maps E.EraseDisk (pool_of tx.new) shown) }
    ensures err { (start : Start) (shown : List (List ℕ)) → Shows E.EraseDisk tx.old start shown → OnErr result ((needs_recovery (journal_of (pool_of tx.new)) ≡ true) ⊎ Maps E.EraseDisk (pool_of tx.new) start.pages) }
    ensures refused { IfErr result (UseRefusal (needs_recovery (journal_of (pool_of tx.old)))) }
    ensures usable { OnOk result (needs_recovery (journal_of (pool_of tx.new)) ≡ false) }
    ensures falls { needs_recovery (journal_of (pool_of tx.old)) ≡ false → needs_recovery (journal_of (pool_of tx.new)) ≡ true → result ≡ Err UseError.Fault }
    ensures journal { SameJournal E.EraseDisk (journal_of (pool_of tx.old)) (journal_of (pool_of tx.new)) (IsErrOf result UseError.Fault) }
{
    tx.make_room()?;
    match tx.commit() {
        Ok(()) => Ok(()),
        Err(error) => Err(refusal(error)),
    }
}

/// Begins a transaction without an image, if the archive needn't be opened again. A commit of no image does nothing, and returns
/// whether it must be.
pub(crate) fn begin<E: EraseDisk + Drop>(tx: &mut Tx<E>) -> Result<(), NeedsRecovery>
    ensures shown { OnOk result (E.honest (disk_of (journal_of (pool_of tx.old))) → (pages : List (List ℕ)) → Maps E.EraseDisk (pool_of tx.old) pages
        → Shows E.EraseDisk tx.new (record { note = note_of (journal_of (pool_of tx.old)); pages = pages; clock = (E.model (disk_of (journal_of (pool_of tx.old)))).clock }) pages) }
    ensures down { OnErr result (needs_recovery (journal_of (pool_of tx.old)) ≡ true) }
    ensures usable { OnOk result (needs_recovery (journal_of (pool_of tx.old)) ≡ false) }
    ensures named { named_pages tx.new ≡ [] }
    ensures same { journal_of (pool_of tx.new) ≡ journal_of (pool_of tx.old) }
{
    tx.begin(0);
    match tx.commit() {
        Ok(()) => {
            tx.begin(0);
            Ok(())
        }
        Err(_) => Err(NeedsRecovery),
    }
}
