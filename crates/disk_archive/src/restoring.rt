//! Opens the journal of an archive, and reads its note.

ghost use Rattle.std.specs.Prelude.{◌≡◌, ◌≤◌, ℕ, List, IfOk, OnOk, IfErr, Err, IfSome, IfNone, false};
ghost use Rattle.disk_models.specs.Erase.{MayLeave};
ghost use Rattle.disk_models.specs.Serves.{Serves};
ghost use Rattle.page_journal.specs.Identity.{HasNoJournal};
ghost use Rattle.page_journal.specs.Layout.{home_place};
ghost use Rattle.page_journal.specs.Recovers.{Recovers};
ghost use Rattle.page_journal.specs.Journal.{Keeps, disk_of, home_pages, needs_recovery, note_of};
ghost use Rattle.buffer_pool.specs.Pool.{Maps, journal_of};
ghost use Rattle.archive_pages.specs.declared.settings.Settings.{Settings};
ghost use Rattle.archive_pages.specs.Places.{AreSettings, tree_low};
ghost use Rattle.disk_archive.specs.Notes.{note_octets};
ghost use Rattle.disk_archive.specs.Openings.{IsNoneFaultOrMemory, IsFaultOrMemory, NamesArchive};
ghost use Rattle.disk_archive.specs.inner.Guarding.{CrashRepresentsOr};
ghost use Rattle.disk_archive.specs.inner.Restoring.{Restores, disk_restored, of_opening, restored};

use crate::looks::Looks;
use crate::mapping::map_pages;
use crate::notes::note_for;
use crate::open_error::OpenError;
use archive_pages::Settings;
use disk_models::EraseDisk;
use page_journal::{Journal, OpenError as JournalError, Refused as Handed};
use route_model::octets::u16_at;
use std::alloc::Global;

/// What the journal of an archive has: its pages, and the settings in its note.
#[derive(Drop)]
pub(crate) struct Restored<E: EraseDisk + Drop> {
    pub(crate) looks: Looks<E>,
    pub(crate) settings: Settings,
}

// Why no journal was opened.
fn of_journal(error: JournalError) -> OpenError
    ensures same { result ≡ of_opening error }
{
    match error {
        JournalError::Fault => OpenError::Fault,
        JournalError::NotAJournal => OpenError::NotAJournal,
        JournalError::BadNode(page) => OpenError::BadSlot(page),
        JournalError::OutOfMemory => OpenError::OutOfMemory,
    }
}

// The settings in a note, if they are within their limits and the note gives this number of blocks.
fn settings_in(note: &[u8; 11], blocks: u64) -> Option<Settings>
    ensures note { IfSome result (λ s. note.now ≡ note_octets blocks s) }
    ensures within { IfSome result (λ s. AreSettings s) }
    ensures none { IfNone result ((s : Settings) → AreSettings s → note.now ≡ note_octets blocks s → ⊥) }
{
    let settings = Settings {
        collectors: note[8],
        ring: u16_at(note, 9),
    };
    if !settings.is_within() {
        return None;
    }
    if note_for(blocks, settings)[..] != note[..] {
        return None;
    }
    Some(settings)
}

// The settings of a journal of `homes` home pages, if head and rings lie on these pages.
fn settings_of(note: &[u8; 11], homes: u64, blocks: u64) -> Option<Settings>
    ensures note { IfSome result (λ s. note.now ≡ note_octets blocks s) }
    ensures within { IfSome result (λ s. AreSettings s) }
    ensures room { IfSome result (λ s. tree_low s ≤ homes) }
    ensures none { IfNone result ((s : Settings) → AreSettings s → note.now ≡ note_octets blocks s → tree_low s ≤ homes → ⊥) }
{
    let Some(settings) = settings_in(note, blocks) else {
        return None;
    };
    if settings.tree_low() > homes {
        return None;
    }
    Some(settings)
}

// The pages of a journal, to be read. If memory runs out the disk is returned.
fn look_at<E: EraseDisk + Drop>(alloc: Global, journal: Journal<E>) -> Result<Looks<E>, E>
    ensures maps { IfOk result (λ looks. (pages : List (List ℕ)) → Keeps E.EraseDisk journal pages → Maps E.EraseDisk looks.pool pages) }
    ensures journal { IfOk result (λ looks. journal_of looks.pool ≡ journal) }
    ensures refused { IfErr result (λ disk. disk ≡ disk_of journal) }
{
    match map_pages(alloc, journal) {
        Ok(tx) => Ok(Looks {
            alloc,
            pool: tx.into_pool(),
        }),
        Err(disk) => Err(disk),
    }
}

/// Opens the journal of a disk, if its note gives an archive's settings and this number of blocks.
pub(crate) fn restore<E: EraseDisk + Drop>(
    alloc: Global,
    erase: E,
    blocks: u64,
) -> Result<Restored<E>, Handed<E, OpenError>>
    ensures note { IfOk result (λ found. note_of (journal_of found.looks.pool) ≡ note_octets blocks found.settings) }
    ensures within { IfOk result (λ found. AreSettings found.settings) }
    ensures rings { IfOk result (λ found. tree_low found.settings ≤ home_pages (journal_of found.looks.pool)) }
    ensures usable { IfOk result (λ found. needs_recovery (journal_of found.looks.pool) ≡ false) }

    // What the disk reads as is what the pages represent.
    ensures looks { E.honest erase → IfOk result (λ found. (homes : ℕ) (note : List ℕ) (pages : List (List ℕ)) → Recovers homes note (E.model erase).octet pages
        → Restores E.EraseDisk found.looks homes note pages) }
    ensures found { E.honest erase → IfOk result (λ found. (pages : List (List ℕ)) × Recovers (home_pages (journal_of found.looks.pool)) (note_of (journal_of found.looks.pool)) (E.model erase).octet pages) }

    // What a crash leaves could be left before, or represents what the disk reads as.
    ensures left { E.honest erase → (homes : ℕ) (note : List ℕ) (pages : List (List ℕ)) → Recovers homes note (E.model erase).octet pages
        → CrashRepresentsOr (E.model (disk_restored result)) (E.model erase).clock (MayLeave (E.model erase)) homes note pages }

    ensures named { E.honest erase → OnOk result (NamesArchive (E.octet_count erase) (E.model erase).octet blocks) }
    ensures unnamed { E.honest erase → IfErr result (λ refused. refused.error ≡ OpenError.NotAJournal → NamesArchive (E.octet_count erase) (E.model erase).octet blocks → ⊥) }
    ensures none { E.honest erase → HasNoJournal (E.model erase).octet → IfErr result (λ refused. IsNoneFaultOrMemory refused.error) }
    ensures undamaged { E.honest erase → (homes : ℕ) (note : List ℕ) (pages : List (List ℕ)) → Recovers homes note (E.model erase).octet pages → home_place homes ≤ E.octet_count erase
        → (s : Settings) → AreSettings s → note ≡ note_octets blocks s → tree_low s ≤ homes → IfErr result (λ refused. IsFaultOrMemory refused.error) }
    ensures serves { Serves E.EraseDisk erase (disk_restored result) (restored result ≡ Err OpenError.Fault) }
{
    match Journal::open(alloc, erase) {
        Ok(journal) => {
            let Some(settings) = settings_of(&journal.note(), journal.home_pages(), blocks) else {
                return Err(Handed {
                    disk: journal.into_disk(),
                    error: OpenError::NotAJournal,
                });
            };
            match look_at(alloc, journal) {
                Ok(looks) => Ok(Restored { looks, settings }),
                Err(disk) => Err(Handed {
                    disk,
                    error: OpenError::OutOfMemory,
                }),
            }
        }
        Err(Handed { disk, error }) => Err(Handed {
            disk,
            error: of_journal(error),
        }),
    }
}
