//! The journal.
ghost use Rattle.std.specs.Prelude.{◌≡◌, ◌≢◌, ◌≤◌, ◌<◌, ◌^◌, ◌+◌, ◌-◌, ◌*◌, ◌%◌, ◌↔◌, ◌==◌, [], ℕ, List, length, OnOk, OnErr, IfOk, IfErr, IsOk, IsErr, IsErrOf, IfSome, IsNone, IsTrue, true, false, not, filter, Some, slice_get, replicate, ◌++◌};
ghost use Rattle.disk_models.specs.Erase.{Leaves, Stays};
ghost use Rattle.disk_models.specs.Serves.{Serves};
ghost use Rattle.std.specs.List.{AllByRecursion, AllByRecursion-prop};
ghost use Rattle.std.proofs.Props.{props};
ghost use Rattle.page_journal.specs.Bookkeeping.{IsImage, IsOf, open_slots, unhomed_numbers, waiting_in};
ghost use Rattle.page_journal.specs.Layout.{homes_from, pages_of, home_place};
ghost use Rattle.page_journal.specs.Recovers.{laid, AreBelow, AreDistinct, IsListed, NoneOrJournal, Recovers, RecoversEither};

use crate::error::{CreateError, OpenError, PostError, UseError};
use crate::layout::{FIRST_HOME, IMAGES, MOST_NUMBER, PAGE, SLOTS, UNHOMED};
use crate::refused::Refused;
use crate::ring::ring_slot;
use crate::unhomed::Unhomed;
use crate::{create, examine, gate, slot, unhomed};
use arrayvec::ArrayVec;
use disk_models::{EraseDisk, Page};
use std::alloc::Global;

/// Home pages on an erasable disk, some of which are replaced at once by a post, whatever a crash tears.
///
/// Each post takes one of eight slots. A checkpoint gives all back, and a post that closes the oldest one gives that back. After a write or a sync failed, each call,
/// except those that only report something or return the disk, is refused as needing recovery, until the journal is opened
/// again.
#[derive(Drop)]
pub struct Journal<D: EraseDisk + Drop> {
    disk: D,
    homes: u64,
    note: [u8; 11],
    first: u64,
    opened: u64,
    next: u64,
    unhomed: ArrayVec<Unhomed, UNHOMED>,
    needs_recovery: bool,
    ghost room: { home_place homes ≤ D.octet_count disk },
    ghost small: { 265 + homes < 2 ^ 50 },
    ghost ring: { first < 8 },
    ghost eight: { opened ≤ 8 },
    ghost numbers: { next ≤ 2 ^ 63 + opened },
    ghost placed: { next % 8 ≡ (first + opened + 1) % 8 },
    ghost begins: { opened ≡ 0 → (first ≡ 0) × (next ≡ 1) },
    ghost few: { (slot : ℕ) → length (waiting_in slot unhomed.items) ≤ 31 },
    ghost images: { AllByRecursion IsImage unhomed.items } by { AllByRecursion-prop IsImage (λ u. Prim.hlevel props) unhomed.items },
    ghost opens: { AllByRecursion (IsOf (open_slots first opened)) unhomed.items } by { AllByRecursion-prop (IsOf (open_slots first opened)) (λ u. Prim.hlevel props) unhomed.items },
    ghost below: { AreBelow homes (unhomed_numbers unhomed.items) } by { AllByRecursion-prop (λ n. n < homes) (λ n. Prim.hlevel props) (unhomed_numbers unhomed.items) },
}

impl<D: EraseDisk + Drop> Journal<D> {
    ghost use Rattle.page_journal.specs.Journal.{Keeps, GivesBack, closed_slots, opened_slots, oldest_slot_pages, disk_of, home_pages, needs_recovery, note_of, unhomed_pages};
    ghost use Rattle.page_journal.specs.Refusals.{CreateRefusal, PostRefusal, PostsAt, UseRefusal, IsOpening, IsFaultOrMemory, OpenRefusal};
    ghost use Rattle.page_journal.specs.Calls.{IsDown, IsIdle, SameButDisk, SameJournal, TakesSlot, TakesTurn};
    ghost use Rattle.page_journal.specs.Outcome.{disk_after, outcome};

    /// Makes a journal with `homes` home pages on a disk. The pages keep the disk's octets.
    ///
    /// The note is of zeros. See [`Journal::create_with`].
    pub fn create(alloc: Global, disk: D, homes: u64) -> Result<Self, Refused<D, CreateError>>
        ensures created { D.honest disk → IfOk result (λ journal. Keeps D.EraseDisk journal (homes_from (D.model disk).octet 0 homes)) }
        ensures homes { IfOk result (λ journal. home_pages journal ≡ homes) }
        ensures note { IfOk result (λ journal. note_of journal ≡ replicate 11 0) }
        ensures idle { IfOk result (IsIdle D.EraseDisk) }
        ensures room { OnOk result (home_place homes ≤ D.octet_count disk) }
        ensures refused { IfErr (outcome result) (CreateRefusal homes (D.octet_count disk)) }
        ensures untouched { IfErr result (λ refused. refused.error ≢ CreateError.Fault → refused.disk ≡ disk) }
        ensures crash { D.honest disk → Leaves (D.model disk) (D.model (disk_after result)) (NoneOrJournal homes (replicate 11 0) (homes_from (D.model disk).octet 0 homes)) }
        ensures serves { Serves D.EraseDisk disk (disk_after result) (IsErrOf (outcome result) CreateError.Fault) }
    {
        Journal::create_with(alloc, disk, homes, [0; 11], &[])
    }

    /// Makes a journal with `homes` home pages on a disk. The first pages are written, and the others keep the
    /// disk's octets.
    ///
    /// The note is for the layers above. The first octet of the identity page is written last, and alone: a crash
    /// before the call returns leaves what was on the disk, no journal, or this one. A disk of fewer than `homes` and 265
    /// pages of 16,384 octets is refused as too small.
    pub fn create_with(
        alloc: Global,
        mut disk: D,
        homes: u64,
        note: [u8; 11],
        first: &[(u64, Page)],
    ) -> Result<Self, Refused<D, CreateError>>
        requires { AreBelow homes (pages_of first.now) }
        ensures created { D.honest disk → IfOk result (λ journal. Keeps D.EraseDisk journal (laid first.now (homes_from (D.model disk).octet 0 homes))) }
        ensures homes { IfOk result (λ journal. home_pages journal ≡ homes) }
        ensures note { IfOk result (λ journal. note_of journal ≡ note) }
        ensures idle { IfOk result (IsIdle D.EraseDisk) }
        ensures crash { D.honest disk → Leaves (D.model disk) (D.model (disk_after result)) (NoneOrJournal homes note (laid first.now (homes_from (D.model disk).octet 0 homes))) }

        // The disk is refused as too small exactly if it is. It isn't written then, nor if memory runs out.
        ensures room { OnOk result (home_place homes ≤ D.octet_count disk) }
        ensures refused { IfErr (outcome result) (CreateRefusal homes (D.octet_count disk)) }
        ensures untouched { IfErr result (λ refused. refused.error ≢ CreateError.Fault → refused.disk ≡ disk) }

        ensures serves { Serves D.EraseDisk disk (disk_after result) (IsErrOf (outcome result) CreateError.Fault) }
    {
        match create::prepare(alloc, &mut disk, homes, &note, first) {
            Ok(()) => Ok(Journal {
                disk,
                homes,
                note,
                first: 0,
                opened: 0,
                next: 1,
                unhomed: ArrayVec::new(),
                needs_recovery: false,
            }),
            Err(error) => Err(Refused { disk, error }),
        }
    }

    /// Opens the journal of a disk, and recovers it: the images of open slots are written home, and the slots are closed.
    ///
    /// All slots are checked before anything is written. A disk that only this journal wrote is refused only if
    /// memory runs out or the device fails, whatever a crash left of it.
    pub fn open(alloc: Global, mut disk: D) -> Result<Self, Refused<D, OpenError>>
        // The journal represents what the disk reads as before the call, and each crash leaves the same.
        ensures opened { D.honest disk → IfOk result (λ journal. (pages : List (List ℕ)) → Recovers (home_pages journal) (note_of journal) (D.model disk).octet pages
            → Keeps D.EraseDisk journal pages) }
        ensures found { D.honest disk → IfOk result (λ journal. (pages : List (List ℕ)) × Recovers (home_pages journal) (note_of journal) (D.model disk).octet pages) }
        ensures crash { D.honest disk → (homes : ℕ) (note : List ℕ) (pages : List (List ℕ)) → Recovers homes note (D.model disk).octet pages
            → Leaves (D.model disk) (D.model (disk_after result)) (λ c. Recovers homes note c pages) }

        ensures idle { IfOk result (IsIdle D.EraseDisk) }
        ensures room { IfOk result (λ journal. home_place (home_pages journal) ≤ D.octet_count disk) }

        // Only the disk's octets are a reason to refuse it, and then it isn't written. One with a journal is never corrupt.
        ensures kinds { IfErr (outcome result) IsOpening }
        ensures refused { D.honest disk → IfErr (outcome result) (OpenRefusal (D.octet_count disk) (D.model disk).octet) }
        ensures undamaged { D.honest disk → (homes : ℕ) (note : List ℕ) (pages : List (List ℕ)) → Recovers homes note (D.model disk).octet pages
            → home_place homes ≤ D.octet_count disk → IfErr (outcome result) IsFaultOrMemory }
        ensures untouched { D.honest disk → IfErr result (λ refused. refused.error ≢ OpenError.Fault → (D.model refused.disk).octet ≡ (D.model disk).octet) }
        ensures unsynced { D.honest disk → IfErr result (λ refused. refused.error ≢ OpenError.Fault → (i : ℕ) → (D.model refused.disk).unsynced i → (D.model disk).unsynced i) }

        ensures serves { Serves D.EraseDisk disk (disk_after result) (IsErrOf (outcome result) OpenError.Fault) }
    {
        match examine::recover(alloc, &mut disk) {
            Ok(identity) => {
                let note = identity.note;
                Ok(Journal {
                    disk,
                    homes: identity.homes,
                    note,
                    first: 0,
                    opened: 0,
                    next: 1,
                    unhomed: ArrayVec::new(),
                    needs_recovery: false,
                })
            }
            Err(error) => Err(Refused { disk, error }),
        }
    }

    /// How many home pages it has. They are numbered from 0.
    pub fn home_pages(&self) -> u64
        ensures homes { result ≡ home_pages self.now }
    {
        self.homes
    }

    /// The note of its identity page.
    pub fn note(&self) -> [u8; 11]
        ensures note { result ≡ note_of self.now }
    {
        self.note
    }

    /// How many pages were posted and aren't written home.
    pub fn unhomed(&self) -> usize
        ensures count { result ≡ length (unhomed_pages self.now) }
    {
        self.unhomed.len()
    }

    /// How many of its eight slots are closed. A post takes one, and that of the last may give one back.
    pub fn closed(&self) -> usize
        ensures closed { result ≡ closed_slots self.now }
    {
        (SLOTS - self.opened) as usize
    }

    /// Whether no write and no sync has failed since it was opened.
    pub fn is_usable(&self) -> bool
        ensures usable { result ≡ not (needs_recovery self.now) }
    {
        !self.needs_recovery
    }

    /// The page that has waited longest to be written home, however often it was posted again since.
    pub fn oldest_unhomed(&self) -> Option<u64>
        ensures oldest { result ≡ slice_get (unhomed_pages self.now) 0 }
        ensures listed { IfSome result (λ n. IsListed n (unhomed_pages self.now)) }
        ensures below { IfSome result (λ n. n < home_pages self.now) }
        ensures none { IsNone result ↔ (length (unhomed_pages self.now) ≡ 0) }
    {
        unhomed::oldest(&self.unhomed)
    }

    /// Returns its disk.
    pub fn into_disk(self) -> D
        ensures disk { result ≡ disk_of self }
    {
        self.disk
    }

    /// Reads a committed page. After a failure `into` has any octets.
    pub fn read(&mut self, n: u64, into: &mut Page) -> Result<(), UseError>
        requires { n < home_pages self.old }

        ensures page { D.honest (disk_of self.old) → (pages : List (List ℕ)) → Keeps D.EraseDisk self.old pages
            → OnOk result (slice_get pages n ≡ Some into.new) }

        // Done or failed, it writes nothing, and the journal represents the same pages.
        ensures keeps { D.honest (disk_of self.old) → (pages : List (List ℕ)) → Keeps D.EraseDisk self.old pages
            → Keeps D.EraseDisk self.new pages }
        ensures stays { D.honest (disk_of self.old) → Stays (D.model (disk_of self.old)) (D.model (disk_of self.new)) }
        ensures crash { D.honest (disk_of self.old) → (pages : List (List ℕ)) → Keeps D.EraseDisk self.old pages
            → Leaves (D.model (disk_of self.old)) (D.model (disk_of self.new)) (λ c. Recovers (home_pages self.old) (note_of self.old) c pages) }
        ensures same { SameButDisk D.EraseDisk self.old self.new }

        ensures ok { OnOk result (needs_recovery self.old ≡ false) }
        ensures refused { IfErr result (UseRefusal (needs_recovery self.old)) }
        ensures down { needs_recovery self.old ≡ true → self.new ≡ self.old }
        ensures serves { Serves D.EraseDisk (disk_of self.old) (disk_of self.new) (IsErrOf result UseError.Fault) }
    {
        if self.needs_recovery {
            return Err(UseError::NeedsRecovery);
        }
        let place = unhomed::place(&self.unhomed, n);
        into.read_from(&mut self.disk, place)?;
        Ok(())
    }

    /// Replaces pages, all of them or none. A post of no page does nothing.
    ///
    /// At most 31 pages go into one post, and a slot must be closed. It takes that slot, and needs no memory.
    pub fn post(&mut self, images: &[(u64, Page)]) -> Result<(), PostError>
        requires below { AreBelow (home_pages self.old) (pages_of images.now) }
        requires distinct { AreDistinct (pages_of images.now) }

        // Each crash from the call's start on leaves the pages from before it or those with all the images.
        ensures crash { D.honest (disk_of self.old) → (pages : List (List ℕ)) → Keeps D.EraseDisk self.old pages
            → Leaves (D.model (disk_of self.old)) (D.model (disk_of self.new))
            (RecoversEither (home_pages self.old) (note_of self.old) pages (laid images.now pages)) }
        ensures posted { D.honest (disk_of self.old) → (pages : List (List ℕ)) → Keeps D.EraseDisk self.old pages
            → OnOk result (Keeps D.EraseDisk self.new (laid images.now pages)) }

        ensures accepted { OnOk result (PostsAt (needs_recovery self.old) (length images.now) (closed_slots self.old)) }
        ensures refused { IfErr result (PostRefusal (needs_recovery self.old) (length images.now) (closed_slots self.old)) }

        // A refusal before the first write leaves all as it was. After another the disk must be opened again.
        ensures unchanged { IfErr result (λ e. e ≢ PostError.Fault → self.new ≡ self.old) }
        ensures failed { IsErrOf result PostError.Fault → IsDown D.EraseDisk self.old self.new }

        ensures empty { length images.now ≡ 0 → self.new ≡ self.old }
        ensures taken { 0 < length images.now → OnOk result (TakesSlot D.EraseDisk images.now self.old self.new) }
        ensures journal { SameJournal D.EraseDisk self.old self.new (IsErrOf result PostError.Fault) }
    {
        if self.needs_recovery {
            return Err(PostError::NeedsRecovery);
        }
        if images.len() > IMAGES {
            return Err(PostError::TooManyImages);
        }
        if images.is_empty() {
            return Ok(());
        }
        if self.opened == SLOTS {
            return Err(PostError::JournalFull);
        }
        let slot = ring_slot(self.first + self.opened);
        let header = slot::header(self.next, images);
        self.needs_recovery = true;
        slot::fill(&mut self.disk, slot, &header, images)?;
        slot::open_gate(&mut self.disk, slot)?;
        self.needs_recovery = false;
        self.opened += 1;
        self.next += 1;
        unhomed::enter_all(&mut self.unhomed, slot, images);
        Ok(())
    }

    /// A page that keeps the oldest open slot from being given back: its newest image is there, and it isn't home.
    pub fn oldest_slot_page(&self) -> Option<u64>
        ensures page { result ≡ slice_get (oldest_slot_pages self.now) 0 }
        ensures listed { IfSome result (λ n. IsListed n (unhomed_pages self.now)) }
        ensures below { IfSome result (λ n. n < home_pages self.now) }
    {
        unhomed::first_in(&self.unhomed, self.first)
    }

    /// Whether the next post can close the oldest slot as it takes the last closed one: each page of the oldest slot is
    /// home, or has a newer image. Transactions are numbered until a checkpoint, so it needs a number that is small enough, too.
    pub fn gives_back(&self) -> bool
        ensures { IsTrue result ↔ GivesBack D.EraseDisk self.now }
    {
        self.opened + 1 == SLOTS && self.next < MOST_NUMBER && self.oldest_slot_page().is_none()
    }

    /// Replaces pages, all of them or none, and closes the oldest slot. A post of no page does nothing.
    ///
    /// It is a post in two syncs, which also settle what was written home, and no checkpoint: of the other slots, each
    /// stays open. One gate is opened as the other is closed. A crash may leave either of both: all pages of the oldest slot
    /// are home or in later slots, so that recovery gives the same pages with it and without it.
    pub fn post_closing(&mut self, images: &[(u64, Page)]) -> Result<(), PostError>
        requires below { AreBelow (home_pages self.old) (pages_of images.now) }
        requires distinct { AreDistinct (pages_of images.now) }
        requires gives { GivesBack D.EraseDisk self.old }

        // Each crash from the call's start on leaves the pages from before it or those with all the images.
        ensures crash { D.honest (disk_of self.old) → (pages : List (List ℕ)) → Keeps D.EraseDisk self.old pages
            → Leaves (D.model (disk_of self.old)) (D.model (disk_of self.new))
            (RecoversEither (home_pages self.old) (note_of self.old) pages (laid images.now pages)) }
        ensures posted { D.honest (disk_of self.old) → (pages : List (List ℕ)) → Keeps D.EraseDisk self.old pages
            → OnOk result (Keeps D.EraseDisk self.new (laid images.now pages)) }

        ensures accepted { OnOk result (PostsAt (needs_recovery self.old) (length images.now) (closed_slots self.old)) }
        ensures refused { IfErr result (PostRefusal (needs_recovery self.old) (length images.now) (closed_slots self.old)) }

        // A refusal before the first write leaves all as it was. After another the disk must be opened again.
        ensures unchanged { IfErr result (λ e. e ≢ PostError.Fault → self.new ≡ self.old) }
        ensures failed { IsErrOf result PostError.Fault → IsDown D.EraseDisk self.old self.new }

        ensures empty { length images.now ≡ 0 → self.new ≡ self.old }
        ensures taken { 0 < length images.now → OnOk result (TakesTurn D.EraseDisk images.now self.old self.new) }
        ensures journal { SameJournal D.EraseDisk self.old self.new (IsErrOf result PostError.Fault) }
    {
        if self.needs_recovery {
            return Err(PostError::NeedsRecovery);
        }
        if images.is_empty() {
            return Ok(());
        }
        if IMAGES < images.len() {
            return Err(PostError::TooManyImages);
        }
        let free = ring_slot(self.first + self.opened);
        let number = self.next;
        let header = slot::header(number, images);
        self.needs_recovery = true;
        slot::fill(&mut self.disk, free, &header, images)?;
        gate::turn(&mut self.disk, free, self.first)?;
        self.needs_recovery = false;
        self.first = ring_slot(self.first + 1);
        self.next = number + 1;
        unhomed::enter_all(&mut self.unhomed, free, images);
        Ok(())
    }

    /// Writes a committed page to its home place. If the page wasn't posted, or is home, nothing is written.
    ///
    /// The caller gives the committed octets: others would replace them at the next checkpoint.
    pub fn home(&mut self, n: u64, page: &Page) -> Result<(), UseError>
        requires { n < home_pages self.old }

        // Each crash leaves the same committed pages, whatever the octets given, since an open slot has an image.
        ensures crash { D.honest (disk_of self.old) → (pages : List (List ℕ)) → Keeps D.EraseDisk self.old pages
            → Leaves (D.model (disk_of self.old)) (D.model (disk_of self.new)) (λ c. Recovers (home_pages self.old) (note_of self.old) c pages) }
        ensures keeps { D.honest (disk_of self.old) → (pages : List (List ℕ)) → Keeps D.EraseDisk self.old pages
            → slice_get pages n ≡ Some page.now → OnOk result (Keeps D.EraseDisk self.new pages) }

        ensures ok { OnOk result (needs_recovery self.old ≡ false) }
        ensures refused { IfErr result (UseRefusal (needs_recovery self.old)) }
        ensures unchanged { IfErr result (λ e. e ≢ UseError.Fault → self.new ≡ self.old) }
        ensures failed { IsErrOf result UseError.Fault → IsDown D.EraseDisk self.old self.new }

        ensures elsewhere { ¬ IsListed n (unhomed_pages self.old) → self.new ≡ self.old }
        ensures unhomed { OnOk result (unhomed_pages self.new ≡ filter (λ m. not (m == n)) (unhomed_pages self.old)) }
        ensures usable { OnOk result (needs_recovery self.new ≡ false) }
        ensures opened { opened_slots self.new ≡ opened_slots self.old }
        ensures journal { SameJournal D.EraseDisk self.old self.new (IsErrOf result UseError.Fault) }
    {
        if self.needs_recovery {
            return Err(UseError::NeedsRecovery);
        }
        if !unhomed::is_unhomed(&self.unhomed, n) {
            return Ok(());
        }
        self.needs_recovery = true;
        self.disk.write_at(PAGE * (FIRST_HOME + n), page.octets())?;
        self.needs_recovery = false;
        unhomed::forget(&mut self.unhomed, n);
        Ok(())
    }

    /// Closes the open slots, the oldest first, once all pages are home. If no slot is open it does nothing.
    pub fn checkpoint(&mut self) -> Result<(), UseError>
        requires { length (unhomed_pages self.old) ≡ 0 }

        ensures crash { D.honest (disk_of self.old) → (pages : List (List ℕ)) → Keeps D.EraseDisk self.old pages
            → Leaves (D.model (disk_of self.old)) (D.model (disk_of self.new)) (λ c. Recovers (home_pages self.old) (note_of self.old) c pages) }
        ensures keeps { D.honest (disk_of self.old) → (pages : List (List ℕ)) → Keeps D.EraseDisk self.old pages
            → OnOk result (Keeps D.EraseDisk self.new pages) }

        ensures ok { OnOk result (needs_recovery self.old ≡ false) }
        ensures refused { IfErr result (UseRefusal (needs_recovery self.old)) }
        ensures unchanged { IfErr result (λ e. e ≢ UseError.Fault → self.new ≡ self.old) }
        ensures failed { IsErrOf result UseError.Fault → IsDown D.EraseDisk self.old self.new }

        ensures idle { closed_slots self.old ≡ 8 → self.new ≡ self.old }
        ensures closed { OnOk result (closed_slots self.new ≡ 8) }
        ensures begins { OnOk result (IsIdle D.EraseDisk self.new) }
        ensures unhomed { unhomed_pages self.new ≡ unhomed_pages self.old }
        ensures usable { OnOk result (needs_recovery self.new ≡ false) }
        ensures journal { SameJournal D.EraseDisk self.old self.new (IsErrOf result UseError.Fault) }
    {
        if self.needs_recovery {
            return Err(UseError::NeedsRecovery);
        }
        if self.opened == 0 {
            return Ok(());
        }
        self.needs_recovery = true;
        self.disk.sync()?;
        gate::close_open(&mut self.disk, self.first, self.opened)?;
        self.needs_recovery = false;
        self.first = 0;
        self.opened = 0;
        self.next = 1;
        Ok(())
    }
}
