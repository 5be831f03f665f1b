//! The pool.
ghost use Rattle.std.specs.Prelude.{◌≡◌, ◌≢◌, ◌≤◌, ◌<◌, ◌-◌, ◌↔◌, ◌⊎◌, ℕ, List, [], length, OnOk, OnErr, IfOk, IfErr, IsOk, IsErrOf, IfSome, IsSome, ◌==◌, not, filter, true, false, Some, slice_get};
ghost use Rattle.std.specs.Ordering.{nat_cmp};
ghost use Rattle.std.specs.BTreeMap.{get};
ghost use Rattle.disk_models.specs.Erase.{Leaves, Stays};
ghost use Rattle.disk_models.specs.Serves.{Serves};
ghost use Rattle.page_journal.specs.Bookkeeping.{is_among};
ghost use Rattle.page_journal.specs.Calls.{IsDown, IsIdle, SameButDisk, SameJournal, TakesSlot, TakesTurn};
ghost use Rattle.page_journal.specs.Journal.{GivesBack, Keeps, closed_slots, disk_of, home_pages, needs_recovery, note_of, oldest_slot_pages, opened_slots, unhomed_pages};
ghost use Rattle.page_journal.specs.Layout.{pages_of};
ghost use Rattle.page_journal.specs.Recovers.{laid, AreBelow, AreDistinct, IsListed, Recovers, RecoversEither};
ghost use Rattle.page_journal.specs.Refusals.{PostRefusal, PostsAt, UseRefusal};
ghost use Rattle.buffer_pool.specs.Refusals.{ReadRefusal};

use crate::error::FetchError;
use crate::held;
use disk_models::{EraseDisk, Page};
use lru::LruCache;
use page_journal::{Journal, PostError, UseError};
use std::alloc::Global;
use std::collections::BTreeMap;
use std::num::NonZeroUsize;

/// The pages of a journal, some of which are kept in memory.
///
/// A committed page stays in memory until it is written home, as far as there is memory: one that doesn't is read
/// from its image. Of the others, also those just written home, the most recently used ones stay.
#[derive(Drop)]
pub struct Pool<D: EraseDisk + Drop> {
    journal: Journal<D>,
    committed: BTreeMap<u64, Page>,
    cached: LruCache<u64, Page>,
    spare: Page,
    ghost dirty: { (n : ℕ) → IsSome (get nat_cmp committed n) → is_among n (unhomed_pages journal) ≡ true },
}

// A committed page, as the journal represents it.
fn read_page<D: EraseDisk + Drop>(
    alloc: Global,
    journal: &mut Journal<D>,
    n: u64,
) -> Result<Page, FetchError>
    requires { n < home_pages journal.old }
    ensures page { D.honest (disk_of journal.old) → (pages : List (List ℕ)) → Keeps D.EraseDisk journal.old pages → IfOk result (λ page. slice_get pages n ≡ Some page) }
    ensures keeps { D.honest (disk_of journal.old) → (pages : List (List ℕ)) → Keeps D.EraseDisk journal.old pages → Keeps D.EraseDisk journal.new pages }
    ensures stays { D.honest (disk_of journal.old) → Stays (D.model (disk_of journal.old)) (D.model (disk_of journal.new)) }
    ensures same { SameButDisk D.EraseDisk journal.old journal.new }
    ensures refused { IfErr result (ReadRefusal (needs_recovery journal.old)) }
    ensures serves { Serves D.EraseDisk (disk_of journal.old) (disk_of journal.new) (IsErrOf result FetchError.Fault) }
{
    if !journal.is_usable() {
        return Err(FetchError::NeedsRecovery);
    }
    let mut page = Page::new(alloc)?;
    journal.read(n, &mut page)?;
    Ok(page)
}

// Posts pages. A post of the last closed slot closes the oldest one, if that isn't needed any more.
fn post<D: EraseDisk + Drop>(
    journal: &mut Journal<D>,
    images: &[(u64, Page)],
) -> Result<(), PostError>
    requires below { AreBelow (home_pages journal.old) (pages_of images.now) }
    requires distinct { AreDistinct (pages_of images.now) }
    ensures crash { D.honest (disk_of journal.old) → (pages : List (List ℕ)) → Keeps D.EraseDisk journal.old pages
        → Leaves (D.model (disk_of journal.old)) (D.model (disk_of journal.new)) (RecoversEither (home_pages journal.old) (note_of journal.old) pages (laid images.now pages)) }
    ensures posted { D.honest (disk_of journal.old) → (pages : List (List ℕ)) → Keeps D.EraseDisk journal.old pages → OnOk result (Keeps D.EraseDisk journal.new (laid images.now pages)) }
    ensures accepted { OnOk result (PostsAt (needs_recovery journal.old) (length images.now) (closed_slots journal.old)) }
    ensures refused { IfErr result (PostRefusal (needs_recovery journal.old) (length images.now) (closed_slots journal.old)) }
    ensures unchanged { IfErr result (λ e. e ≢ PostError.Fault → journal.new ≡ journal.old) }
    ensures failed { IsErrOf result PostError.Fault → IsDown D.EraseDisk journal.old journal.new }
    ensures empty { length images.now ≡ 0 → journal.new ≡ journal.old }
    ensures taken { 0 < length images.now → ¬ GivesBack D.EraseDisk journal.old → OnOk result (TakesSlot D.EraseDisk images.now journal.old journal.new) }
    ensures turned { 0 < length images.now → GivesBack D.EraseDisk journal.old → OnOk result (TakesTurn D.EraseDisk images.now journal.old journal.new) }
    ensures journal { SameJournal D.EraseDisk journal.old journal.new (IsErrOf result PostError.Fault) }
{
    if journal.gives_back() {
        return journal.post_closing(images);
    }
    journal.post(images)
}

impl<D: EraseDisk + Drop> Pool<D> {
    ghost use Rattle.buffer_pool.specs.Pool.{IsResident, IsWaiting, Maps, WasOnlyRead, clean_pages, journal_of, most_clean, oldest_dirty};
    ghost use Rattle.std.specs.NonZero.{non_zero_usize_get};

    /// The pool of a journal, with room for `clean_capacity` pages that are home. If memory runs out, the journal is returned.
    pub fn new(
        alloc: Global,
        journal: Journal<D>,
        clean_capacity: NonZeroUsize,
    ) -> Result<Self, Journal<D>>
        ensures made { IfOk result (λ pool. (pages : List (List ℕ)) → Keeps D.EraseDisk journal pages → Maps D.EraseDisk pool pages) }
        ensures journal { IfOk result (λ pool. journal_of pool ≡ journal) }
        ensures capacity { IfOk result (λ pool. most_clean pool ≡ non_zero_usize_get clean_capacity) }
        ensures refused { IfErr result (λ back. back ≡ journal) }
    {
        let Ok(cached) = LruCache::new(alloc, clean_capacity) else {
            return Err(journal);
        };
        let Ok(spare) = Page::new(alloc) else {
            return Err(journal);
        };
        Ok(Pool {
            journal,
            committed: BTreeMap::new(alloc),
            cached,
            spare,
        })
    }

    /// How many home pages there are. They are numbered from 0.
    pub fn home_pages(&self) -> u64
        ensures homes { result ≡ home_pages (journal_of self.now) }
    {
        self.journal.home_pages()
    }

    /// The note of the journal.
    pub fn note(&self) -> [u8; 11]
        ensures note { result ≡ note_of (journal_of self.now) }
    {
        self.journal.note()
    }

    /// Whether no write and no sync has failed since the journal was opened.
    pub fn is_usable(&self) -> bool
        ensures usable { result ≡ not (needs_recovery (journal_of self.now)) }
    {
        self.journal.is_usable()
    }

    /// How many of the journal's eight slots are closed. A commit takes one, and that of the last may give one back.
    pub fn closed(&self) -> usize
        ensures closed { result ≡ closed_slots (journal_of self.now) }
    {
        self.journal.closed()
    }

    /// How many pages are dirty: committed, and not written home.
    pub fn dirty(&self) -> usize
        ensures dirty { result ≡ length (unhomed_pages (journal_of self.now)) }

        // Pages that wait in memory to be written home are dirty.
        ensures waiting { (n : ℕ) → IsWaiting self.now n → IsListed n (unhomed_pages (journal_of self.now)) }
    {
        self.journal.unhomed()
    }

    /// How many pages are in the cache: those that were read or written home, at most the pool's capacity.
    pub fn clean(&self) -> usize
        ensures clean { result ≡ clean_pages self.now }
        ensures few { clean_pages self.now ≤ most_clean self.now }
    {
        self.cached.len()
    }

    /// Returns the disk.
    pub fn into_disk(self) -> D
        ensures disk { result ≡ disk_of (journal_of self) }
    {
        self.journal.into_disk()
    }

    /// Brings a page into memory, if it isn't there, and makes it the most recently used one. After a refusal the pool goes on.
    pub fn fetch(&mut self, alloc: Global, n: u64) -> Result<(), FetchError>
        requires { n < home_pages (journal_of self.old) }

        ensures resident { OnOk result (IsResident self.new n) }
        ensures maps { D.honest (disk_of (journal_of self.old)) → (pages : List (List ℕ)) → Maps D.EraseDisk self.old pages
            → Maps D.EraseDisk self.new pages }

        // It writes nothing.
        ensures stays { D.honest (disk_of (journal_of self.old)) → Stays (D.model (disk_of (journal_of self.old))) (D.model (disk_of (journal_of self.new))) }
        ensures same { SameButDisk D.EraseDisk (journal_of self.old) (journal_of self.new) }

        // A page that is in memory needs no device and no further memory.
        ensures there { needs_recovery (journal_of self.old) ≡ false → IsResident self.old n → IsOk result }
        ensures untouched { IsResident self.old n → journal_of self.new ≡ journal_of self.old }
        ensures waiting { (m : ℕ) → IsWaiting self.old m → IsWaiting self.new m }
        ensures ok { OnOk result (needs_recovery (journal_of self.old) ≡ false) }
        ensures refused { IfErr result (ReadRefusal (needs_recovery (journal_of self.old))) }
        ensures down { needs_recovery (journal_of self.old) ≡ true → self.new ≡ self.old }
        ensures capacity { most_clean self.new ≡ most_clean self.old }
        ensures serves { Serves D.EraseDisk (disk_of (journal_of self.old)) (disk_of (journal_of self.new)) (IsErrOf result FetchError.Fault) }
    {
        if !self.journal.is_usable() {
            return Err(FetchError::NeedsRecovery);
        }
        if self.committed.contains_key(&n) {
            return Ok(());
        }
        if held::promote(&mut self.cached, n) {
            return Ok(());
        }
        let page = read_page(alloc, &mut self.journal, n)?;
        held::keep(&mut self.cached, n, page)?;
        Ok(())
    }

    /// A page that is in memory, lent without a copy.
    pub fn page(&self, n: u64) -> Option<&Page>
        ensures there { IsResident self.now n → IsSome result }
        ensures shown { (pages : List (List ℕ)) → Maps D.EraseDisk self.now pages → IfSome result (λ page. slice_get pages n ≡ Some page.now) }
    {
        match self.committed.get(&n) {
            Some(page) => Some(page),
            None => self.cached.peek(&n),
        }
    }

    /// Replaces pages, all of them or none. They stay in memory as they are.
    ///
    /// It never runs out of memory: a page for which there is no room is read from its image until it is written home.
    pub fn commit(&mut self, images: Vec<(u64, Page)>) -> Result<(), PostError>
        requires below { AreBelow (home_pages (journal_of self.old)) (pages_of images.items) }
        requires distinct { AreDistinct (pages_of images.items) }

        ensures crash { D.honest (disk_of (journal_of self.old)) → (pages : List (List ℕ)) → Maps D.EraseDisk self.old pages
            → Leaves (D.model (disk_of (journal_of self.old))) (D.model (disk_of (journal_of self.new)))
            (RecoversEither (home_pages (journal_of self.old)) (note_of (journal_of self.old)) pages (laid images.items pages)) }
        ensures maps { D.honest (disk_of (journal_of self.old)) → (pages : List (List ℕ)) → Maps D.EraseDisk self.old pages
            → OnOk result (Maps D.EraseDisk self.new (laid images.items pages)) }

        ensures accepted { OnOk result (PostsAt (needs_recovery (journal_of self.old)) (length images.items) (closed_slots (journal_of self.old))) }
        ensures refused { IfErr result (PostRefusal (needs_recovery (journal_of self.old)) (length images.items) (closed_slots (journal_of self.old))) }

        ensures unchanged { IfErr result (λ e. e ≢ PostError.Fault → self.new ≡ self.old) }
        ensures failed { IsErrOf result PostError.Fault → IsDown D.EraseDisk (journal_of self.old) (journal_of self.new) }
        ensures empty { length images.items ≡ 0 → journal_of self.new ≡ journal_of self.old }

        // It takes a slot, and gives the oldest one back if it takes the last and that is needed no more.
        ensures taken { 0 < length images.items → ¬ GivesBack D.EraseDisk (journal_of self.old) → OnOk result (TakesSlot D.EraseDisk images.items (journal_of self.old) (journal_of self.new)) }
        ensures turned { 0 < length images.items → GivesBack D.EraseDisk (journal_of self.old) → OnOk result (TakesTurn D.EraseDisk images.items (journal_of self.old) (journal_of self.new)) }

        // Pages that wait in memory to be written home go on waiting there.
        ensures waiting { (m : ℕ) → IsWaiting self.old m → IsWaiting self.new m }
        ensures capacity { most_clean self.new ≡ most_clean self.old }
        ensures journal { SameJournal D.EraseDisk (journal_of self.old) (journal_of self.new) (IsErrOf result PostError.Fault) }
    {
        post(&mut self.journal, &images)?;
        held::take_all(&mut self.committed, &mut self.cached, images);
        Ok(())
    }

    /// Writes the page home that was dirty longest. Returns whether there was one.
    pub fn flush_one(&mut self) -> Result<bool, UseError>
        // Each crash leaves the same pages, and they stay unless the journal must be opened again.
        ensures crash { D.honest (disk_of (journal_of self.old)) → (pages : List (List ℕ)) → Maps D.EraseDisk self.old pages
            → Leaves (D.model (disk_of (journal_of self.old))) (D.model (disk_of (journal_of self.new))) (λ c. Recovers (home_pages (journal_of self.old)) (note_of (journal_of self.old)) c pages) }
        ensures maps { D.honest (disk_of (journal_of self.old)) → (pages : List (List ℕ)) → Maps D.EraseDisk self.old pages
            → needs_recovery (journal_of self.new) ≡ false → Maps D.EraseDisk self.new pages }

        ensures wrote { IfOk result (λ more. (more ≡ false) ↔ (length (unhomed_pages (journal_of self.old)) ≡ 0)) }
        ensures none { length (unhomed_pages (journal_of self.old)) ≡ 0 → self.new ≡ self.old }
        ensures oldest { OnOk result (IfSome (oldest_dirty self.old) (λ n. unhomed_pages (journal_of self.new) ≡ filter (λ m. not (m == n)) (unhomed_pages (journal_of self.old)))) }
        ensures fewer { OnOk result (length (unhomed_pages (journal_of self.new)) ≤ length (unhomed_pages (journal_of self.old)) - 1) }
        ensures as_dirty { OnErr result (unhomed_pages (journal_of self.new) ≡ unhomed_pages (journal_of self.old)) }
        ensures opened { opened_slots (journal_of self.new) ≡ opened_slots (journal_of self.old) }
        ensures waiting { (m : ℕ) → oldest_dirty self.old ≢ Some m → IsWaiting self.old m → IsWaiting self.new m }

        ensures ok { OnOk result ((needs_recovery (journal_of self.old) ≡ false) × (needs_recovery (journal_of self.new) ≡ false)) }
        ensures refused { IfErr result (UseRefusal (needs_recovery (journal_of self.old))) }
        ensures unchanged { IsErrOf result UseError.NeedsRecovery → self.new ≡ self.old }

        // A write that failed requires recovery. If a page couldn't be read to be written, nothing was written.
        ensures failed { IsErrOf result UseError.Fault → IsDown D.EraseDisk (journal_of self.old) (journal_of self.new) ⊎ WasOnlyRead D.EraseDisk (journal_of self.old) (journal_of self.new) }
        ensures some { IsErrOf result UseError.Fault → 0 < length (unhomed_pages (journal_of self.old)) }
        ensures journal { SameJournal D.EraseDisk (journal_of self.old) (journal_of self.new) (IsErrOf result UseError.Fault) }
        ensures capacity { most_clean self.new ≡ most_clean self.old }
    {
        if !self.journal.is_usable() {
            return Err(UseError::NeedsRecovery);
        }
        let Some(n) = self.journal.oldest_unhomed() else {
            return Ok(false);
        };
        self.flush(n)?;
        Ok(true)
    }

    // Writes a dirty page home.
    fn flush(&mut self, n: u64) -> Result<(), UseError>
        requires usable { needs_recovery (journal_of self.old) ≡ false }
        requires listed { IsListed n (unhomed_pages (journal_of self.old)) }
        requires below { n < home_pages (journal_of self.old) }
        ensures crash { D.honest (disk_of (journal_of self.old)) → (pages : List (List ℕ)) → Maps D.EraseDisk self.old pages
            → Leaves (D.model (disk_of (journal_of self.old))) (D.model (disk_of (journal_of self.new))) (λ c. Recovers (home_pages (journal_of self.old)) (note_of (journal_of self.old)) c pages) }
        ensures maps { D.honest (disk_of (journal_of self.old)) → (pages : List (List ℕ)) → Maps D.EraseDisk self.old pages
            → needs_recovery (journal_of self.new) ≡ false → Maps D.EraseDisk self.new pages }
        ensures homed { OnOk result (unhomed_pages (journal_of self.new) ≡ filter (λ m. not (m == n)) (unhomed_pages (journal_of self.old))) }
        ensures as_dirty { OnErr result (unhomed_pages (journal_of self.new) ≡ unhomed_pages (journal_of self.old)) }
        ensures opened { opened_slots (journal_of self.new) ≡ opened_slots (journal_of self.old) }
        ensures waiting { (m : ℕ) → m ≢ n → IsWaiting self.old m → IsWaiting self.new m }
        ensures ok { OnOk result (needs_recovery (journal_of self.new) ≡ false) }
        ensures refused { IfErr result (λ e. e ≡ UseError.Fault) }
        ensures failed { OnErr result (IsDown D.EraseDisk (journal_of self.old) (journal_of self.new) ⊎ WasOnlyRead D.EraseDisk (journal_of self.old) (journal_of self.new)) }
        ensures journal { SameJournal D.EraseDisk (journal_of self.old) (journal_of self.new) (IsErrOf result UseError.Fault) }
        ensures capacity { most_clean self.new ≡ most_clean self.old }
    {
        match self.committed.remove(&n) {
            Some(page) => {
                self.journal.home(n, &page)?;
                held::keep(&mut self.cached, n, page).ok();
            }
            None => {
                self.journal.read(n, &mut self.spare)?;
                self.journal.home(n, &self.spare)?;
            }
        }
        Ok(())
    }

    // Writes the pages home of which the oldest open slot has the newest images.
    fn flush_oldest_slot(&mut self) -> Result<(), UseError>
        requires usable { needs_recovery (journal_of self.old) ≡ false }
        ensures crash { D.honest (disk_of (journal_of self.old)) → (pages : List (List ℕ)) → Maps D.EraseDisk self.old pages
            → Leaves (D.model (disk_of (journal_of self.old))) (D.model (disk_of (journal_of self.new))) (λ c. Recovers (home_pages (journal_of self.old)) (note_of (journal_of self.old)) c pages) }
        ensures maps { D.honest (disk_of (journal_of self.old)) → (pages : List (List ℕ)) → Maps D.EraseDisk self.old pages
            → needs_recovery (journal_of self.new) ≡ false → Maps D.EraseDisk self.new pages }
        ensures opened { opened_slots (journal_of self.new) ≡ opened_slots (journal_of self.old) }
        ensures none { OnOk result (oldest_slot_pages (journal_of self.new) ≡ []) }
        ensures as_dirty { (n : ℕ) → IsListed n (unhomed_pages (journal_of self.new)) → IsListed n (unhomed_pages (journal_of self.old)) }
        ensures ok { OnOk result (needs_recovery (journal_of self.new) ≡ false) }
        ensures refused { IfErr result (λ e. e ≡ UseError.Fault) }
        ensures journal { SameJournal D.EraseDisk (journal_of self.old) (journal_of self.new) (IsErrOf result UseError.Fault) }
        ensures capacity { most_clean self.new ≡ most_clean self.old }
    {
        while let Some(n) = self.journal.oldest_slot_page() {
            self.flush(n)?;
        }
        Ok(())
    }

    /// Makes room for a commit, and for one that leaves a slot closed: if one is left, the pages go home that only the
    /// oldest open slot has; if none is left, a checkpoint is made.
    pub fn make_room(&mut self) -> Result<(), UseError>
        ensures crash { D.honest (disk_of (journal_of self.old)) → (pages : List (List ℕ)) → Maps D.EraseDisk self.old pages
            → Leaves (D.model (disk_of (journal_of self.old))) (D.model (disk_of (journal_of self.new))) (λ c. Recovers (home_pages (journal_of self.old)) (note_of (journal_of self.old)) c pages) }
        ensures maps { D.honest (disk_of (journal_of self.old)) → (pages : List (List ℕ)) → Maps D.EraseDisk self.old pages
            → needs_recovery (journal_of self.new) ≡ false → Maps D.EraseDisk self.new pages }

        ensures room { OnOk result (0 < closed_slots (journal_of self.new)) }
        ensures last { OnOk result (closed_slots (journal_of self.new) ≡ 1 → oldest_slot_pages (journal_of self.new) ≡ []) }
        ensures idle { 1 < closed_slots (journal_of self.old) → self.new ≡ self.old }
        ensures opened { 0 < closed_slots (journal_of self.old) → opened_slots (journal_of self.new) ≡ opened_slots (journal_of self.old) }
        ensures as_dirty { (n : ℕ) → IsListed n (unhomed_pages (journal_of self.new)) → IsListed n (unhomed_pages (journal_of self.old)) }
        ensures ok { OnOk result ((needs_recovery (journal_of self.old) ≡ false) × (needs_recovery (journal_of self.new) ≡ false)) }
        ensures refused { IfErr result (UseRefusal (needs_recovery (journal_of self.old))) }
        ensures unchanged { IsErrOf result UseError.NeedsRecovery → self.new ≡ self.old }
        ensures journal { SameJournal D.EraseDisk (journal_of self.old) (journal_of self.new) (IsErrOf result UseError.Fault) }
        ensures capacity { most_clean self.new ≡ most_clean self.old }
    {
        if !self.journal.is_usable() {
            return Err(UseError::NeedsRecovery);
        }
        match self.journal.closed() {
            0 => self.checkpoint(),
            1 => self.flush_oldest_slot(),
            _ => Ok(()),
        }
    }

    /// Writes all pages home, and closes the journal's slots.
    pub fn checkpoint(&mut self) -> Result<(), UseError>
        ensures crash { D.honest (disk_of (journal_of self.old)) → (pages : List (List ℕ)) → Maps D.EraseDisk self.old pages
            → Leaves (D.model (disk_of (journal_of self.old))) (D.model (disk_of (journal_of self.new))) (λ c. Recovers (home_pages (journal_of self.old)) (note_of (journal_of self.old)) c pages) }
        ensures maps { D.honest (disk_of (journal_of self.old)) → (pages : List (List ℕ)) → Maps D.EraseDisk self.old pages
            → needs_recovery (journal_of self.new) ≡ false → Maps D.EraseDisk self.new pages }

        ensures idle { OnOk result (IsIdle D.EraseDisk (journal_of self.new)) }
        ensures still { IsIdle D.EraseDisk (journal_of self.old) → journal_of self.new ≡ journal_of self.old }
        ensures ok { OnOk result (needs_recovery (journal_of self.old) ≡ false) }
        ensures refused { IfErr result (UseRefusal (needs_recovery (journal_of self.old))) }
        ensures unchanged { IsErrOf result UseError.NeedsRecovery → self.new ≡ self.old }

        // A failure requires recovery, or leaves some of the pages dirty.
        ensures failed { IsErrOf result UseError.Fault → (needs_recovery (journal_of self.new) ≡ true) ⊎ (0 < length (unhomed_pages (journal_of self.new))) }
        ensures as_dirty { (n : ℕ) → IsListed n (unhomed_pages (journal_of self.new)) → IsListed n (unhomed_pages (journal_of self.old)) }
        ensures as_opened { OnErr result (opened_slots (journal_of self.new) ≡ opened_slots (journal_of self.old)) }
        ensures journal { SameJournal D.EraseDisk (journal_of self.old) (journal_of self.new) (IsErrOf result UseError.Fault) }
        ensures capacity { most_clean self.new ≡ most_clean self.old }
    {
        if !self.journal.is_usable() {
            return Err(UseError::NeedsRecovery);
        }
        let count = self.journal.unhomed();
        for _ in 0..count {
            self.flush_one()?;
        }
        self.journal.checkpoint()
    }
}
