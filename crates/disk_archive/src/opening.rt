//! Opens disks as an archive, as a crash may have left them.

ghost use Rattle.std.specs.Prelude.{◌≡◌, ◌≢◌, ◌↔◌, ◌⊎◌, ◌<◌, ◌≤◌, ℕ, List, length, IfOk, OnOk, IfErr, Err, false};
ghost use Rattle.disk_models.specs.Erase.{Counts, Leaves, MayLeave};
ghost use Rattle.disk_models.specs.Left.{CrashPair, IsFound, Left, LeftNow, WithSettled};
ghost use Rattle.disk_models.specs.Once.{OnceState, settled_in};
ghost use Rattle.page_journal.specs.Journal.{disk_of, home_pages, needs_recovery, note_of};
ghost use Rattle.page_journal.specs.Identity.{HasNoJournal};
ghost use Rattle.page_journal.specs.Layout.{home_place};
ghost use Rattle.page_journal.specs.Recovers.{Recovers};
ghost use Rattle.buffer_pool.specs.Pool.{journal_of};
ghost use Rattle.page_tx.specs.Device.{KeepsDevice};
ghost use Rattle.page_tx.specs.Start.{Start};
ghost use Rattle.route_meaning.specs.History.{History};
ghost use Rattle.archive_head.specs.Head.{EncodesHead, IsHead};
ghost use Rattle.intake.specs.Calls.{OnlyReads};
ghost use Rattle.intake.specs.Ring.{page_at};
ghost use Rattle.archive_pages.specs.Represented.{HeadRepresents, PagesRepresent};
ghost use Rattle.archive_pages.specs.Places.{AreSettings};
ghost use Rattle.disk_archive.specs.Mirrors.{Mirrors};
ghost use Rattle.disk_archive.specs.Trees.{TreeLocated};
ghost use Rattle.disk_archive.specs.inner.Guarding.{GuardedAt, CrashRepresentsOr};
ghost use Rattle.disk_archive.specs.inner.Recalling.{HasRoot, RecallRefusal};

use crate::archive::Archive;
use crate::guarded::{Before, Guarded};
use crate::looks::Looks;
use crate::open_error::OpenError;
use crate::recalling::{has_root, read_head, recall};
use crate::refused::Refused;
use crate::restating::restate_head;
use crate::restoring::{Restored, restore};
use archive_head::Head;
use archive_pages::Settings;
use disk_models::{EraseDisk, OnceDisk};
use once_store::Shelf;
use page_journal::Refused as Handed;
use page_tx::{Pages, Tx};
use sequencer::Sequencer;
use std::alloc::Global;
use std::marker::{Brand, PhantomData};
use std::sync::Arc;

/// What an archive has in memory.
#[derive(Drop)]
pub(crate) struct Memory {
    pub(crate) head: Head,
    pub(crate) sequencer: Sequencer,
}

// What an archive of these settings has in memory, from its pages.
fn remember<P: Pages>(alloc: Global, pages: &mut P, settings: Settings) -> Result<Memory, OpenError>
    requires some { 0 < P.homes pages.old }
    requires few { settings.collectors ≤ 16 }
    requires usable { P.down pages.old ≡ false }
    ensures lanes { IfOk result (λ memory. length memory.head.lanes ≡ settings.collectors) }
    ensures numbers { IfOk result (λ memory. length memory.sequencer ≡ settings.collectors) }
    ensures valid { IfOk result (λ memory. IsHead memory.head) }
    ensures rooted { IfOk result (λ memory. HasRoot (P.homes pages.old) settings memory.head) }
    ensures first { IfOk result (λ memory. (start : Start) (shown : List (List ℕ)) → P.shows pages.old start shown → EncodesHead memory.head (page_at shown 0)) }
    ensures head_represents { IfOk result (λ memory. (count : ℕ) (o : OnceState) (start : Start) (shown : List (List ℕ)) (h : History) → P.shows pages.old start shown → PagesRepresent (TreeLocated count) settings (settled_in o) shown h
        → HeadRepresents (TreeLocated count) settings (settled_in o) memory.head shown h) }
    ensures mirrors { IfOk result (λ memory. (count : ℕ) (o : OnceState) (start : Start) (shown : List (List ℕ)) (h : History) → P.shows pages.old start shown → PagesRepresent (TreeLocated count) settings (settled_in o) shown h
        → Mirrors memory.sequencer h) }
    ensures sound { (count : ℕ) (o : OnceState) (start : Start) (shown : List (List ℕ)) (h : History) → P.shows pages.old start shown → PagesRepresent (TreeLocated count) settings (settled_in o) shown h
        → (page : ℕ) → result ≡ Err (OpenError.BadNode page) → ⊥ }
    ensures refused { IfErr result RecallRefusal }
    ensures same { OnlyReads P.Pages pages.old pages.new (result ≡ Err OpenError.Fault) }
{
    let head = read_head(alloc, pages, settings.collectors)?;
    if !has_root(pages.home_pages(), settings, &head) {
        return Err(OpenError::BadNode(0));
    }
    let sequencer = recall(alloc, pages, settings, &head)?;
    Ok(Memory { head, sequencer })
}

// The same, of pages that are only read, and of what a crash leaves while they are read.
fn remember_on<E: EraseDisk + Drop, B: Before>(
    alloc: Global,
    looks: Looks<E>,
    settings: Settings,
) -> (Looks<E>, Result<Memory, OpenError>)
    requires some { 0 < home_pages (journal_of looks.pool) }
    requires few { settings.collectors ≤ 16 }
    requires usable { needs_recovery (journal_of looks.pool) ≡ false }
    ensures lanes { IfOk result.1 (λ memory. length memory.head.lanes ≡ settings.collectors) }
    ensures numbers { IfOk result.1 (λ memory. length memory.sequencer ≡ settings.collectors) }
    ensures valid { IfOk result.1 (λ memory. IsHead memory.head) }
    ensures rooted { IfOk result.1 (λ memory. HasRoot (home_pages (journal_of looks.pool)) settings memory.head) }
    ensures first { IfOk result.1 (λ memory. (start : Start) (shown : List (List ℕ)) → GuardedAt E.EraseDisk B.clock B.left looks start shown → EncodesHead memory.head (page_at shown 0)) }
    ensures head_represents { IfOk result.1 (λ memory. (count : ℕ) (o : OnceState) (start : Start) (shown : List (List ℕ)) (h : History) → GuardedAt E.EraseDisk B.clock B.left looks start shown → PagesRepresent (TreeLocated count) settings (settled_in o) shown h
        → HeadRepresents (TreeLocated count) settings (settled_in o) memory.head shown h) }
    ensures mirrors { IfOk result.1 (λ memory. (count : ℕ) (o : OnceState) (start : Start) (shown : List (List ℕ)) (h : History) → GuardedAt E.EraseDisk B.clock B.left looks start shown → PagesRepresent (TreeLocated count) settings (settled_in o) shown h
        → Mirrors memory.sequencer h) }
    ensures sound { (count : ℕ) (o : OnceState) (start : Start) (shown : List (List ℕ)) (h : History) → GuardedAt E.EraseDisk B.clock B.left looks start shown → PagesRepresent (TreeLocated count) settings (settled_in o) shown h
        → (page : ℕ) → result.1 ≡ Err (OpenError.BadNode page) → ⊥ }
    ensures refused { IfErr result.1 RecallRefusal }
    ensures shown { (start : Start) (shown : List (List ℕ)) → GuardedAt E.EraseDisk B.clock B.left looks start shown → GuardedAt E.EraseDisk B.clock B.left result.0 start shown }
    ensures homes { home_pages (journal_of result.0.pool) ≡ home_pages (journal_of looks.pool) }
    ensures down { needs_recovery (journal_of result.0.pool) ≡ needs_recovery (journal_of looks.pool) }
    ensures device { KeepsDevice (E.honest (disk_of (journal_of looks.pool))) (E.honest (disk_of (journal_of result.0.pool))) (E.fault_count (disk_of (journal_of looks.pool))) (E.fault_count (disk_of (journal_of result.0.pool))) (result.1 ≡ Err OpenError.Fault) }
{
    let mut guarded: Guarded<E, B> = Guarded {
        looks,
        of: PhantomData,
    };
    let memory = remember(alloc, &mut guarded, settings);
    let Guarded { looks, .. } = guarded;
    (looks, memory)
}

impl<E: EraseDisk + Drop, O: OnceDisk + Drop> Archive<E, O> {
    ghost use Rattle.disk_archive.specs.Archives.{Represents, ContinuesFrom, erase_of, erase_state, is_down, once_of, once_state, pen_in, site_of};
    ghost use Rattle.disk_archive.specs.Creations.{CountsOne};
    ghost use Rattle.disk_archive.specs.Outcome.{erase_after, once_after, outcome, pen_after};
    ghost use Rattle.disk_archive.specs.Heads.{IsRestated};
    ghost use Rattle.disk_archive.specs.Notes.{note_octets};
    ghost use Rattle.disk_archive.specs.Openings.{IsNoneFaultOrMemory, IsFaultOrMemory, NamesArchive, ReadsAs};
    ghost use Rattle.disk_archive.specs.Sites.{IsNoted, LeftRepresents, Rests, Site};
    ghost use Rattle.disk_archive.specs.inner.Looking.{LooksAt};

    // The archive, from what is in memory, once the first blank block is found.
    fn assemble(
        alloc: Global,
        looks: Looks<E>,
        once: Arc<O>,
        pen: O::Pen,
        settings: Settings,
        memory: Memory,
    ) -> Result<Self, Refused<E, O, OpenError>>
        requires settings { AreSettings settings }
        requires homes { 0 < home_pages (journal_of looks.pool) }
        requires lanes { length memory.head.lanes ≡ settings.collectors }
        requires numbers { length memory.sequencer ≡ settings.collectors }
        requires valid { IsHead memory.head }
        ensures represents { O.honest once.value pen → IfOk result (λ archive. (start : Start) (shown : List (List ℕ)) (h : History) → note_of (journal_of looks.pool) ≡ note_octets (O.block_count once.value) settings → LooksAt E.EraseDisk looks start shown → EncodesHead memory.head (page_at shown 0)
            → HeadRepresents (TreeLocated (O.block_count once.value)) settings (settled_in (O.model pen)) memory.head shown h → Mirrors memory.sequencer h → Represents archive h) }
        ensures site { IfOk result (λ archive. site_of archive ≡ record { settings = settings; homes = home_pages (journal_of looks.pool); note = note_of (journal_of looks.pool); blocks = O.block_count once.value }) }
        ensures erase { erase_after result ≡ disk_of (journal_of looks.pool) }
        ensures once { once_after result ≡ once.value }
        ensures honest { O.honest once.value pen ↔ O.honest once.value (pen_after result) }
        ensures same { O.honest once.value pen → O.model (pen_after result) ≡ O.model pen }
        ensures counts { Counts (O.pen_fault_count pen) (O.pen_fault_count (pen_after result)) result }
        ensures down { IfOk result (λ archive. is_down archive ≡ needs_recovery (journal_of looks.pool)) }
        ensures refused { IfErr (outcome result) (λ error. error ≡ OpenError.Fault) }
    {
        let Memory { head, sequencer } = memory;
        let Looks { pool, .. } = looks;
        match Shelf::open(once, pen, head.block) {
            Ok(shelf) => Ok(Archive {
                alloc,
                tx: Tx::new(alloc, pool, 0),
                shelf,
                settings,
                head,
                sequencer,
                kept: None,
            }),
            Err(once_store::Refused { disk, pen, fault }) => {
                let _reported = fault;
                Err(Refused {
                    erase: pool.into_disk(),
                    once: disk,
                    pen,
                    error: OpenError::Fault,
                })
            }
        }
    }

    // Opens both disks, without an assumption about what they were before.
    fn reopen<B: Before>(
        alloc: Global,
        erase: E,
        once: Arc<O>,
        pen: O::Pen,
    ) -> Result<Self, Refused<E, O, OpenError>>
        requires clock { B.clock ≡ (E.model erase).clock }
        requires left { (c : ℕ → ℕ) → MayLeave (E.model erase) c → B.left c }
        ensures left { E.honest erase → (homes : ℕ) (note : List ℕ) (pages : List (List ℕ)) → Recovers homes note (E.model erase).octet pages
            → CrashRepresentsOr (E.model (erase_after result)) B.clock B.left homes note pages }
        ensures represents { E.honest erase → O.honest once.value pen → IfOk result (λ archive. (site : Site) (h : History) → ReadsAs site (O.block_count once.value) (E.model erase) (O.model pen) h → Represents archive h) }
        ensures site { E.honest erase → IfOk result (λ archive. (site : Site) (h : History) → ReadsAs site (O.block_count once.value) (E.model erase) (O.model pen) h → site_of archive ≡ site) }
        ensures noted { E.honest erase → IfOk result (λ archive. IsNoted (site_of archive)) }
        ensures usable { IfOk result (λ archive. is_down archive ≡ false) }
        ensures undamaged { E.honest erase → (site : Site) (h : History) → ReadsAs site (O.block_count once.value) (E.model erase) (O.model pen) h → home_place site.homes ≤ E.octet_count erase → IfErr (outcome result) IsFaultOrMemory }
        ensures named { E.honest erase → OnOk result (NamesArchive (E.octet_count erase) (E.model erase).octet (O.block_count once.value)) }
        ensures unnamed { E.honest erase → outcome result ≡ Err OpenError.NotAJournal → NamesArchive (E.octet_count erase) (E.model erase).octet (O.block_count once.value) → ⊥ }
        ensures none { E.honest erase → HasNoJournal (E.model erase).octet → IfErr (outcome result) IsNoneFaultOrMemory }
        ensures erase { E.honest erase ↔ E.honest (erase_after result) }
        ensures disk { once_after result ≡ once.value }
        ensures once { O.honest once.value pen ↔ O.honest once.value (pen_after result) }
        ensures unburnt { O.honest once.value pen → O.model (pen_after result) ≡ O.model pen }
        ensures quiet { outcome result ≢ Err OpenError.Fault → (E.fault_count (erase_after result) ≡ E.fault_count erase) × (O.pen_fault_count (pen_after result) ≡ O.pen_fault_count pen) }
        ensures counted { outcome result ≡ Err OpenError.Fault → CountsOne (E.fault_count erase) (E.fault_count (erase_after result)) (O.pen_fault_count pen) (O.pen_fault_count (pen_after result)) }
    {
        match restore(alloc, erase, once.blocks()) {
            Ok(Restored { looks, settings }) => {
                let (looks, memory) = remember_on::<E, B>(alloc, looks, settings);
                match memory {
                    Ok(memory) => Archive::assemble(alloc, looks, once, pen, settings, memory),
                    Err(error) => {
                        let Looks { pool, .. } = looks;
                        Err(Refused {
                            erase: pool.into_disk(),
                            once,
                            pen,
                            error,
                        })
                    }
                }
            }
            Err(Handed { disk, error }) => Err(Refused {
                erase: disk,
                once,
                pen,
                error,
            }),
        }
    }

    // The archive, with its head on the first page as it is written today.
    fn restate(self) -> Result<Self, Refused<E, O, OpenError>>
        requires usable { is_down self ≡ false }
        ensures represents { IfOk result (λ archive. (h : History) → Represents self h → Represents archive h) }
        ensures left { (h : History) → Represents self h → Leaves (erase_state self) (E.model (erase_after result)) (WithSettled (once_state self) (LeftRepresents (site_of self) h)) }
        ensures restated { IfOk result (λ archive. (h : History) → Represents self h → IsRestated archive) }
        ensures site { IfOk result (λ archive. site_of archive ≡ site_of self) }
        ensures erase { E.honest (erase_of self) ↔ E.honest (erase_after result) }
        ensures disk { once_after result ≡ once_of self }
        ensures pen { pen_after result ≡ pen_in self }
        ensures device { KeepsDevice (E.honest (erase_of self)) (E.honest (erase_after result)) (E.fault_count (erase_of self)) (E.fault_count (erase_after result)) (outcome result ≡ Err OpenError.Fault) }
        ensures refused { IfErr (outcome result) IsFaultOrMemory }
    {
        let Archive {
            alloc,
            tx,
            shelf,
            settings,
            head,
            sequencer,
            ..
        } = self;
        let mut pool = tx.into_pool();
        match restate_head(alloc, &mut pool, &head) {
            Ok(()) => Ok(Archive {
                alloc,
                tx: Tx::new(alloc, pool, 0),
                shelf,
                settings,
                head,
                sequencer,
                kept: None,
            }),
            Err(error) => {
                let (once, pen) = shelf.into_disk();
                Err(Refused {
                    erase: pool.into_disk(),
                    once,
                    pen,
                    error,
                })
            }
        }
    }

    /// Opens both disks as an archive, as a crash may have left them: what was begun on the erasable disk is completed, and what the
    /// archive has in memory is read. Nothing is burnt, and a block that was tried is never burnt again.
    ///
    /// The first opening of an archive that was made in whole seconds writes its head in microseconds, in one transaction. It changes
    /// no other page, and nothing of the history. The next opening writes that page home and closes its slot; later ones write nothing for it.
    pub fn open(
        alloc: Global,
        erase: E,
        once: Arc<O>,
        pen: O::Pen,
    ) -> Result<Self, Refused<E, O, OpenError>>
        // The archive represents what the disks read as; so, if they are found after a crash, it represents what the crash left.
        ensures opened { E.honest erase → O.honest once.value pen → IfOk result (λ archive. (site : Site) (h : History) → ReadsAs site (O.block_count once.value) (E.model erase) (O.model pen) h → Represents archive h) }
        ensures found { E.honest erase → O.honest once.value pen → IfOk result (λ archive. (left : Left) (site : Site) (h : History) → IsFound (E.model erase) (O.model pen) left → site.blocks ≡ O.block_count once.value → IsNoted site → LeftRepresents site h left → Represents archive h) }
        ensures site { E.honest erase → IfOk result (λ archive. (site : Site) (h : History) → ReadsAs site (O.block_count once.value) (E.model erase) (O.model pen) h → site_of archive ≡ site) }
        ensures noted { E.honest erase → IfOk result (λ archive. IsNoted (site_of archive)) }

        // If the disks are those of an archive that must be opened again, a history that stood there still stands.
        ensures represents_all { E.honest erase → O.honest once.value pen → IfOk result (λ archive. (site : Site) (h : History) → Rests site (E.model erase) (O.model pen) h → site.blocks ≡ O.block_count once.value → IsNoted site → ContinuesFrom archive h) }

        // Its head is on the first page in microseconds, in whatever unit it was.
        ensures restated { E.honest erase → O.honest once.value pen → IfOk result (λ archive. (site : Site) (h : History) → ReadsAs site (O.block_count once.value) (E.model erase) (O.model pen) h → IsRestated archive) }

        // What a crash during the call or after it leaves could also be left before the call, or represents what the disks read as.
        ensures inside { E.honest erase → O.honest once.value pen → (site : Site) (h : History) → ReadsAs site (O.block_count once.value) (E.model erase) (O.model pen) h
            → (left : Left) → CrashPair (E.model erase) (E.model (erase_after result)) (O.model pen) (O.model pen) (O.model (pen_after result)) left → LeftNow (E.model erase) (O.model pen) left ⊎ LeftRepresents site h left }
        ensures after { E.honest erase → O.honest once.value pen → (site : Site) (h : History) → ReadsAs site (O.block_count once.value) (E.model erase) (O.model pen) h
            → (left : Left) → LeftNow (E.model (erase_after result)) (O.model (pen_after result)) left → LeftNow (E.model erase) (O.model pen) left ⊎ LeftRepresents site h left }

        // Disks that represent a history are refused only if a device fails or memory runs out, and those that name no archive aren't opened.
        ensures undamaged { E.honest erase → (site : Site) (h : History) → ReadsAs site (O.block_count once.value) (E.model erase) (O.model pen) h → home_place site.homes ≤ E.octet_count erase → IfErr (outcome result) IsFaultOrMemory }
        ensures named { E.honest erase → OnOk result (NamesArchive (E.octet_count erase) (E.model erase).octet (O.block_count once.value)) }
        ensures unnamed { E.honest erase → outcome result ≡ Err OpenError.NotAJournal → NamesArchive (E.octet_count erase) (E.model erase).octet (O.block_count once.value) → ⊥ }
        ensures none { E.honest erase → HasNoJournal (E.model erase).octet → IfErr (outcome result) IsNoneFaultOrMemory }

        // Both disks are the archive's, or returned, and nothing was burnt. One of them failed if `Fault` is returned, and otherwise
        // none did.
        ensures erase { E.honest erase ↔ E.honest (erase_after result) }
        ensures disk { once_after result ≡ once.value }
        ensures once { O.honest once.value pen ↔ O.honest once.value (pen_after result) }
        ensures unburnt { O.honest once.value pen → O.model (pen_after result) ≡ O.model pen }
        ensures quiet { outcome result ≢ Err OpenError.Fault → (E.fault_count (erase_after result) ≡ E.fault_count erase) × (O.pen_fault_count (pen_after result) ≡ O.pen_fault_count pen) }
        ensures counted { outcome result ≡ Err OpenError.Fault → CountsOne (E.fault_count erase) (E.fault_count (erase_after result)) (O.pen_fault_count pen) (O.pen_fault_count (pen_after result)) }
    {
        match Archive::reopen::<Brand>(alloc, erase, once, pen) {
            Ok(archive) => archive.restate(),
            Err(refused) => Err(refused),
        }
    }
}
