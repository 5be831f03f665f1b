//! Creates an archive: the disk names its journal only once all that an archive begins with is on it.

ghost use Rattle.std.specs.Prelude.{◌≡◌, ◌≢◌, ◌↔◌, ◌<◌, ◌≤◌, ◌+◌, ◌⊎◌, ℕ, List, IfOk, IfErr, Err};
ghost use Rattle.disk_models.specs.Erase.{Leaves};
ghost use Rattle.disk_models.specs.Left.{CrashPair, Left, LeftNow, WithSettled};
ghost use Rattle.disk_models.specs.Serves.{Serves};
ghost use Rattle.page_journal.specs.Journal.{home_pages, note_of};
ghost use Rattle.page_journal.specs.Layout.{home_place, homes_from, pages_of};
ghost use Rattle.page_journal.specs.Recovers.{laid, AreBelow, NoneOrJournal};
ghost use Rattle.buffer_pool.specs.Pool.{Maps, journal_of};
ghost use Rattle.page_tx.specs.Tx.{pool_of};
ghost use Rattle.interleaving_core.specs.Steps.{empty};
ghost use Rattle.archive_pages.specs.Places.{AreSettings, tree_low};
ghost use Rattle.disk_archive.specs.Creations.{CountsOne, IsTooSmall, LeavesNoneOrEmpty, homes_on, site_on};
ghost use Rattle.disk_archive.specs.Notes.{note_octets};
ghost use Rattle.disk_archive.specs.inner.Creating.{CrashRepresents, disk_left, reported};

use crate::archive::Archive;
use crate::beginning::{Empty, make_empty};
use crate::create_error::CreateError;
use crate::mapping::map_pages;
use crate::notes::note_for;
use crate::refused::Refused;
use archive_pages::Settings;
use disk_models::{EraseDisk, OnceDisk, PAGE_SIZE, Page};
use once_store::Shelf;
use page_journal::{CreateError as JournalError, Journal, Refused as Handed};
use page_tx::Tx;
use std::alloc::Global;
use std::sync::Arc;

// The pages of an erasable disk before its home pages.
const JOURNAL_PAGES: u64 = 265;

// How many home pages a disk of `size` octets has room for.
fn home_count(size: u64) -> u64
    ensures count { result ≡ homes_on size }
    ensures room { 0 < result → home_place result ≤ size }
{
    (size / PAGE_SIZE as u64).saturating_sub(JOURNAL_PAGES)
}

// Why no journal is made on a disk that is large enough.
fn refusal(error: JournalError) -> CreateError
    requires large { error ≢ JournalError.PagesFull }
    ensures fault { (result ≡ CreateError.Fault) ↔ (error ≡ JournalError.Fault) }
    ensures large { result ≢ CreateError.PagesFull }
{
    match error {
        JournalError::Fault => CreateError::Fault,
        JournalError::OutOfMemory => CreateError::OutOfMemory,
        JournalError::PagesFull => unreachable!(),
    }
}

// The pages of a journal that is made on a disk which is large enough, with these first pages.
fn make_pages<E: EraseDisk + Drop>(
    alloc: Global,
    erase: E,
    homes: u64,
    note: [u8; 11],
    images: &[(u64, Page)],
) -> Result<Tx<E>, Handed<E, CreateError>>
    requires below { AreBelow homes (pages_of images.now) }
    requires room { home_place homes ≤ E.octet_count erase }
    ensures maps { E.honest erase → IfOk result (λ tx. Maps E.EraseDisk (pool_of tx) (laid images.now (homes_from (E.model erase).octet 0 homes))) }
    ensures homes { IfOk result (λ tx. home_pages (journal_of (pool_of tx)) ≡ homes) }
    ensures note { IfOk result (λ tx. note_of (journal_of (pool_of tx)) ≡ note) }
    ensures large { reported result ≢ Err CreateError.PagesFull }
    ensures serves { Serves E.EraseDisk erase (disk_left result) (reported result ≡ Err CreateError.Fault) }

    // If memory runs out the disk is returned as it was, or with all these pages.
    ensures memory { E.honest erase → IfErr result (λ refused. refused.error ≡ CreateError.OutOfMemory
        → (refused.disk ≡ erase) ⊎ CrashRepresents homes note (E.model refused.disk) (laid images.now (homes_from (E.model erase).octet 0 homes))) }
    ensures crash { E.honest erase → Leaves (E.model erase) (E.model (disk_left result)) (NoneOrJournal homes note (laid images.now (homes_from (E.model erase).octet 0 homes))) }
{
    match Journal::create_with(alloc, erase, homes, note, images) {
        Ok(journal) => match map_pages(alloc, journal) {
            Ok(tx) => Ok(tx),
            Err(disk) => Err(Handed {
                disk,
                error: CreateError::OutOfMemory,
            }),
        },
        Err(Handed { disk, error }) => Err(Handed {
            disk,
            error: refusal(error),
        }),
    }
}

impl<E: EraseDisk + Drop, O: OnceDisk + Drop> Archive<E, O> {
    ghost use Rattle.once_store.specs.Shelves.{IsFirstBlank, disk_of, next_of, pen_of};
    ghost use Rattle.disk_archive.specs.Archives.{Represents, settings_of, site_of};
    ghost use Rattle.disk_archive.specs.Blanks.{next_block};
    ghost use Rattle.disk_archive.specs.Outcome.{erase_after, once_after, outcome, pen_after};
    ghost use Rattle.disk_archive.specs.Sites.{Rests};

    // Creates an archive if the disk is large enough, over a shelf of the write-once disk.
    fn begin(
        alloc: Global,
        erase: E,
        shelf: Shelf<O>,
        settings: Settings,
        homes: u64,
        note: [u8; 11],
    ) -> Result<Self, Refused<E, O, CreateError>>
        requires settings { AreSettings settings }
        requires large { tree_low settings + 2 ≤ homes }
        requires room { home_place homes ≤ E.octet_count erase }
        requires noted { note ≡ note_octets (O.block_count (disk_of shelf)) settings }
        ensures represents { E.honest erase → O.honest (disk_of shelf) (pen_of shelf) → IfOk result (λ archive. Represents archive (empty settings.collectors)) }
        ensures settings { IfOk result (λ archive. settings_of archive ≡ settings) }
        ensures homes { IfOk result (λ archive. (site_of archive).homes ≡ homes) }
        ensures note { IfOk result (λ archive. (site_of archive).note ≡ note) }
        ensures large { outcome result ≢ Err CreateError.PagesFull }
        ensures serves { Serves E.EraseDisk erase (erase_after result) (outcome result ≡ Err CreateError.Fault) }
        ensures next { IfOk result (λ archive. next_block archive ≡ next_of shelf) }
        ensures once { once_after result ≡ disk_of shelf }
        ensures pen { pen_after result ≡ pen_of shelf }
        ensures memory { E.honest erase → IfErr result (λ refused. refused.error ≡ CreateError.OutOfMemory → (refused.erase ≡ erase)
            ⊎ Rests (record { settings = settings; homes = homes; note = note; blocks = O.block_count (disk_of shelf) }) (E.model refused.erase) (O.model refused.pen) (empty settings.collectors)) }
        ensures crash { E.honest erase → Leaves (E.model erase) (E.model (erase_after result)) (WithSettled (O.model (pen_of shelf)) (LeavesNoneOrEmpty (record { settings = settings; homes = homes; note = note; blocks = O.block_count (disk_of shelf) }))) }
    {
        let Ok(
            Empty {
                head,
                sequencer,
                images,
            },
        ) = make_empty(alloc, settings, shelf.next())
        else {
            let (once, pen) = shelf.into_disk();
            return Err(Refused {
                erase,
                once,
                pen,
                error: CreateError::OutOfMemory,
            });
        };
        match make_pages(alloc, erase, homes, note, &images) {
            Ok(tx) => Ok(Archive {
                alloc,
                tx,
                shelf,
                settings,
                head,
                sequencer,
                kept: None,
            }),
            Err(Handed { disk, error }) => {
                let (once, pen) = shelf.into_disk();
                Err(Refused {
                    erase: disk,
                    once,
                    pen,
                    error,
                })
            }
        }
    }

    /// Creates an archive of these settings, to which nothing was given, on both disks.
    ///
    /// All pages after the journal of the erasable disk become home pages. What was on that disk is lost, and blocks of the write-once disk
    /// that aren't blank are passed over. The erasable disk names its journal only once all that the archive begins with is on it.
    pub fn create(
        alloc: Global,
        erase: E,
        once: Arc<O>,
        pen: O::Pen,
        settings: Settings,
    ) -> Result<Self, Refused<E, O, CreateError>>
        requires { AreSettings settings }

        // From an Ok on each crash leaves an archive to which nothing was given.
        ensures created { E.honest erase → O.honest once.value pen → IfOk result (λ archive. Represents archive (empty settings.collectors)) }
        ensures settings { IfOk result (λ archive. settings_of archive ≡ settings) }
        ensures homes { IfOk result (λ archive. (site_of archive).homes ≡ homes_on (E.octet_count erase)) }
        ensures note { IfOk result (λ archive. (site_of archive).note ≡ note_octets (O.block_count once.value) settings) }
        ensures next { O.honest once.value pen → IfOk result (λ archive. IsFirstBlank (O.model pen) (O.block_count once.value) 0 (next_block archive)) }

        // A disk that is too small is refused before anything else, and no other one is refused as too small.
        ensures full { (outcome result ≡ Err CreateError.PagesFull) ↔ IsTooSmall settings (E.octet_count erase) }
        ensures untouched { IsTooSmall settings (E.octet_count erase) → (erase_after result ≡ erase) × (pen_after result ≡ pen) }

        // If memory runs out the erasable disk is returned as it was, or as that of an archive to which nothing was given.
        ensures memory { E.honest erase → O.honest once.value pen → IfErr result (λ refused. refused.error ≡ CreateError.OutOfMemory → (refused.erase ≡ erase)
            ⊎ Rests (site_on settings (E.octet_count erase) (O.block_count once.value)) (E.model refused.erase) (O.model refused.pen) (empty settings.collectors)) }

        // What a crash during the call or after it leaves could also be left before the call; or the disk has no journal then; or it is an
        // archive to which nothing was given.
        ensures inside { E.honest erase → O.honest once.value pen → (left : Left) → CrashPair (E.model erase) (E.model (erase_after result)) (O.model pen) (O.model pen) (O.model (pen_after result)) left
            → LeftNow (E.model erase) (O.model pen) left ⊎ LeavesNoneOrEmpty (site_on settings (E.octet_count erase) (O.block_count once.value)) left }
        ensures after { E.honest erase → O.honest once.value pen → (left : Left) → LeftNow (E.model (erase_after result)) (O.model (pen_after result)) left
            → LeftNow (E.model erase) (O.model pen) left ⊎ LeavesNoneOrEmpty (site_on settings (E.octet_count erase) (O.block_count once.value)) left }

        // Both disks are the archive's, or returned. One of them failed if `Fault` is returned, and otherwise none did.
        ensures size { E.octet_count (erase_after result) ≡ E.octet_count erase }
        ensures erase { E.honest erase ↔ E.honest (erase_after result) }
        ensures disk { once_after result ≡ once.value }
        ensures once { O.honest once.value pen ↔ O.honest once.value (pen_after result) }
        ensures same { O.honest once.value pen → O.model (pen_after result) ≡ O.model pen }
        ensures quiet { outcome result ≢ Err CreateError.Fault → (E.fault_count (erase_after result) ≡ E.fault_count erase) × (O.pen_fault_count (pen_after result) ≡ O.pen_fault_count pen) }
        ensures counted { outcome result ≡ Err CreateError.Fault → CountsOne (E.fault_count erase) (E.fault_count (erase_after result)) (O.pen_fault_count pen) (O.pen_fault_count (pen_after result)) }
    {
        let homes = home_count(erase.size());
        if homes < settings.tree_low() + 2 {
            return Err(Refused {
                erase,
                once,
                pen,
                error: CreateError::PagesFull,
            });
        }
        let note = note_for(once.blocks(), settings);
        match Shelf::open(once, pen, 0) {
            Ok(shelf) => Archive::begin(alloc, erase, shelf, settings, homes, note),
            Err(once_store::Refused { disk, pen, fault }) => {
                let _reported = fault;
                Err(Refused {
                    erase,
                    once: disk,
                    pen,
                    error: CreateError::Fault,
                })
            }
        }
    }
}
