//! Writes the head of an archive that was made earlier, and has its times in whole seconds, in the unit in which all is written.

ghost use Rattle.std.specs.Prelude.{◌≡◌, ◌≢◌, ◌<◌, ◌≤◌, ◌↔◌, ◌∷◌, [], ℕ, List, length, OnOk, IfOk, IfErr, Err, IsTrue, slice_set, false};
ghost use Rattle.disk_models.specs.Erase.{Leaves, Stays};
ghost use Rattle.disk_models.specs.Serves.{Serves};
ghost use Rattle.page_journal.specs.Calls.{SameButDisk, SameJournal};
ghost use Rattle.page_journal.specs.Journal.{disk_of, home_pages, needs_recovery, note_of};
ghost use Rattle.page_journal.specs.Recovers.{RecoversEither};
ghost use Rattle.buffer_pool.specs.Pool.{Maps, journal_of};
ghost use Rattle.archive_head.specs.Head.{head_octets};
ghost use Rattle.disk_archive.specs.Openings.{IsFaultOrMemory};

use crate::open_error::OpenError;
use archive_head::Head;
use buffer_pool::{FetchError, Pool};
use disk_models::{EraseDisk, Page};
use page_journal::{PostError, UseError};
use std::alloc::{AllocError, Global};

// Why the first page wasn't fetched, if the journal needn't be opened again.
fn of_fetch(error: FetchError) -> OpenError
    requires usable { error ≢ FetchError.NeedsRecovery }
    ensures fault { (result ≡ OpenError.Fault) ↔ (error ≡ FetchError.Fault) }
    ensures refused { IsFaultOrMemory result }
{
    match error {
        FetchError::Fault => OpenError::Fault,
        FetchError::OutOfMemory => OpenError::OutOfMemory,
        FetchError::NeedsRecovery => unreachable!(),
    }
}

// Whether this is the first page.
fn is_first<E: EraseDisk + Drop>(
    alloc: Global,
    pool: &mut Pool<E>,
    page: &Page,
) -> Result<bool, OpenError>
    requires some { 0 < home_pages (journal_of pool.old) }
    requires usable { needs_recovery (journal_of pool.old) ≡ false }
    ensures first { E.honest (disk_of (journal_of pool.old)) → (pages : List (List ℕ)) → Maps E.EraseDisk pool.old pages → IfOk result (λ is. IsTrue is ↔ (slice_set pages 0 page.now ≡ pages)) }
    ensures maps { E.honest (disk_of (journal_of pool.old)) → (pages : List (List ℕ)) → Maps E.EraseDisk pool.old pages → Maps E.EraseDisk pool.new pages }
    ensures stays { E.honest (disk_of (journal_of pool.old)) → Stays (E.model (disk_of (journal_of pool.old))) (E.model (disk_of (journal_of pool.new))) }
    ensures same { SameButDisk E.EraseDisk (journal_of pool.old) (journal_of pool.new) }
    ensures refused { IfErr result IsFaultOrMemory }
    ensures serves { Serves E.EraseDisk (disk_of (journal_of pool.old)) (disk_of (journal_of pool.new)) (result ≡ Err OpenError.Fault) }
{
    if let Err(error) = pool.fetch(alloc, 0) {
        return Err(of_fetch(error));
    }
    let Some(first) = pool.page(0) else {
        unreachable!();
    };
    Ok(first.octets() == page.octets())
}

// The page as an image of the first one, alone.
fn image_of(alloc: Global, page: Page) -> Result<Vec<(u64, Page)>, AllocError>
    ensures images { IfOk result (λ images. images.items ≡ (0, page) ∷ []) }
{
    let mut images = Vec::with_capacity(alloc, 1)?;
    images.push((0, page))?;
    Ok(images)
}

// Replaces the first page, in one transaction.
fn write_first<E: EraseDisk + Drop>(
    alloc: Global,
    pool: &mut Pool<E>,
    page: Page,
) -> Result<(), OpenError>
    requires some { 0 < home_pages (journal_of pool.old) }
    requires usable { needs_recovery (journal_of pool.old) ≡ false }
    ensures written { E.honest (disk_of (journal_of pool.old)) → (pages : List (List ℕ)) → Maps E.EraseDisk pool.old pages → OnOk result (Maps E.EraseDisk pool.new (slice_set pages 0 page)) }
    ensures crash { E.honest (disk_of (journal_of pool.old)) → (pages : List (List ℕ)) → Maps E.EraseDisk pool.old pages
        → Leaves (E.model (disk_of (journal_of pool.old))) (E.model (disk_of (journal_of pool.new))) (RecoversEither (home_pages (journal_of pool.old)) (note_of (journal_of pool.old)) pages (slice_set pages 0 page)) }
    ensures still_usable { OnOk result (needs_recovery (journal_of pool.new) ≡ false) }
    ensures refused { IfErr result IsFaultOrMemory }
    ensures journal { SameJournal E.EraseDisk (journal_of pool.old) (journal_of pool.new) (result ≡ Err OpenError.Fault) }
{
    let images = image_of(alloc, page)?;
    match pool.make_room() {
        Ok(()) => {}
        Err(UseError::Fault) => return Err(OpenError::Fault),
        Err(UseError::NeedsRecovery) => unreachable!(),
    }
    match pool.commit(images) {
        Ok(()) => Ok(()),
        Err(PostError::Fault) => Err(OpenError::Fault),
        Err(PostError::NeedsRecovery | PostError::TooManyImages | PostError::JournalFull) => {
            unreachable!()
        }
    }
}

/// Writes the head over the first page, in one transaction, unless that page is the head's as it is written today. So an archive is
/// written once after it was made in whole seconds.
pub(crate) fn restate_head<E: EraseDisk + Drop>(
    alloc: Global,
    pool: &mut Pool<E>,
    head: &Head,
) -> Result<(), OpenError>
    requires few { length head.now.lanes ≤ 16 }
    requires some { 0 < home_pages (journal_of pool.old) }
    requires usable { needs_recovery (journal_of pool.old) ≡ false }
    ensures written { E.honest (disk_of (journal_of pool.old)) → (pages : List (List ℕ)) → Maps E.EraseDisk pool.old pages → OnOk result (Maps E.EraseDisk pool.new (slice_set pages 0 (head_octets head.now))) }
    ensures still { E.honest (disk_of (journal_of pool.old)) → (pages : List (List ℕ)) → Maps E.EraseDisk pool.old pages → slice_set pages 0 (head_octets head.now) ≡ pages
        → Stays (E.model (disk_of (journal_of pool.old))) (E.model (disk_of (journal_of pool.new))) }
    ensures crash { E.honest (disk_of (journal_of pool.old)) → (pages : List (List ℕ)) → Maps E.EraseDisk pool.old pages
        → Leaves (E.model (disk_of (journal_of pool.old))) (E.model (disk_of (journal_of pool.new))) (RecoversEither (home_pages (journal_of pool.old)) (note_of (journal_of pool.old)) pages (slice_set pages 0 (head_octets head.now))) }
    ensures still_usable { OnOk result (needs_recovery (journal_of pool.new) ≡ false) }
    ensures refused { IfErr result IsFaultOrMemory }
    ensures journal { SameJournal E.EraseDisk (journal_of pool.old) (journal_of pool.new) (result ≡ Err OpenError.Fault) }
{
    let page = head.write(alloc)?;
    if is_first(alloc, pool, &page)? {
        return Ok(());
    }
    write_first(alloc, pool, page)
}
