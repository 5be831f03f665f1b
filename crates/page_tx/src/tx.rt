//! A transaction over a pool.
ghost use Rattle.std.specs.Prelude.{◌≡◌, ◌≢◌, ◌<◌, ◌≤◌, ◌+◌, ◌-◌, ◌==◌, ◌↔◌, ◌⊎◌, [], ℕ, List, length, filter, not, OnOk, IfOk, OnErr, IfErr, IfSome, IsErrOf, false, true};
ghost use Rattle.std.specs.List.{AllByRecursion-prop};
ghost use Rattle.std.proofs.Props.{props};
ghost use Rattle.disk_models.specs.Erase.{Leaves};
ghost use Rattle.page_journal.specs.Calls.{IsDown, IsIdle, SameJournal};
ghost use Rattle.page_journal.specs.Journal.{GivesBack, closed_slots, disk_of, home_pages, needs_recovery, note_of, oldest_slot_pages, opened_slots, unhomed_pages};
ghost use Rattle.page_journal.specs.Layout.{pages_of};
ghost use Rattle.page_journal.specs.Recovers.{AreBelow, AreDistinct, IsListed, Recovers, RecoversEither};
ghost use Rattle.page_journal.specs.Refusals.{PostRefusal, PostsAt, UseRefusal};
ghost use Rattle.buffer_pool.specs.Pool.{Maps, WasOnlyRead, journal_of, oldest_dirty};
ghost use Rattle.page_tx.specs.inner.Distinct.{distinct-prop};

use crate::error::PageError;
use crate::images::{count_new, count_one, lay_all, lay_one, make_room, place_of};
use crate::pages::Pages;
use buffer_pool::Pool;
use disk_models::{EraseDisk, Page};
use page_journal::{PostError, UseError};
use std::alloc::Global;
use std::mem;

/// A pool with its one transaction: images of distinct pages, at most 31, that are laid over its pages.
///
/// Only a commit changes the pool's pages, and all of them together. A transaction that is begun again, or dropped with
/// its pool taken back, changes nothing.
#[derive(Drop)]
pub struct Tx<D: EraseDisk + Drop> {
    alloc: Global,
    pool: Pool<D>,
    images: Vec<(u64, Page)>,
    next: u64,
    ghost few: { length images.items ≤ 31 },
    ghost distinct: { AreDistinct (pages_of images.items) } by { distinct-prop (pages_of images.items) },
    ghost last: { next ≤ home_pages (journal_of pool) },
    ghost below: { AreBelow (home_pages (journal_of pool)) (pages_of images.items) } by { AllByRecursion-prop (λ n. n < home_pages (journal_of pool)) (λ n. Prim.hlevel props) (pages_of images.items) },
}

impl<D: EraseDisk + Drop> Tx<D> {
    ghost use Rattle.page_tx.specs.Images.{joined};
    ghost use Rattle.page_tx.specs.Start.{Start};
    ghost use Rattle.page_tx.specs.Tx.{Shows, named_pages, next_page, pool_of};

    /// A transaction without an image over a pool. `next` is the first page that was never used.
    pub fn new(alloc: Global, pool: Pool<D>, next: u64) -> Tx<D>
        requires { next ≤ home_pages (journal_of pool) }
        ensures pool { pool_of result ≡ pool }
        ensures named { named_pages result ≡ [] }
        ensures next { next_page result ≡ next }
        ensures shown { D.honest (disk_of (journal_of pool)) → (pages : List (List ℕ)) → Maps D.EraseDisk pool pages
            → Shows D.EraseDisk result (record { note = note_of (journal_of pool); pages = pages; clock = (D.model (disk_of (journal_of pool))).clock }) pages }
    {
        Tx {
            alloc,
            pool,
            images: Vec::new(alloc),
            next,
        }
    }

    /// Begins again without an image: those of before are discarded.
    pub fn begin(&mut self, next: u64)
        requires { next ≤ home_pages (journal_of (pool_of self.old)) }
        ensures pool { pool_of self.new ≡ pool_of self.old }
        ensures named { named_pages self.new ≡ [] }
        ensures next { next_page self.new ≡ next }
        ensures shown { D.honest (disk_of (journal_of (pool_of self.old))) → (pages : List (List ℕ)) → Maps D.EraseDisk (pool_of self.old) pages
            → Shows D.EraseDisk self.new (record { note = note_of (journal_of (pool_of self.old)); pages = pages; clock = (D.model (disk_of (journal_of (pool_of self.old)))).clock }) pages }
    {
        self.images = Vec::new(self.alloc);
        self.next = next;
    }

    /// Makes the pages that are shown those of the pool, all of them or none. The transaction is then without an image,
    /// after a refusal too.
    pub fn commit(&mut self) -> Result<(), PostError>
        ensures crash { (start : Start) (shown : List (List ℕ)) → Shows D.EraseDisk self.old start shown
            → Leaves (D.model (disk_of (journal_of (pool_of self.old)))) (D.model (disk_of (journal_of (pool_of self.new))))
            (RecoversEither (home_pages (journal_of (pool_of self.old))) start.note start.pages shown) }
        ensures maps { (start : Start) (shown : List (List ℕ)) → Shows D.EraseDisk self.old start shown → OnOk result (Maps D.EraseDisk (pool_of self.new) shown) }

        ensures accepted { OnOk result (PostsAt (needs_recovery (journal_of (pool_of self.old))) (length (named_pages self.old)) (closed_slots (journal_of (pool_of self.old)))) }
        ensures refused { IfErr result (PostRefusal (needs_recovery (journal_of (pool_of self.old))) (length (named_pages self.old)) (closed_slots (journal_of (pool_of self.old)))) }
        ensures few { IsErrOf result PostError.TooManyImages → ⊥ }

        // One slot is taken if an image was held, and otherwise none. If that is the last and the oldest one is needed no
        // more, the oldest is closed.
        ensures empty { length (named_pages self.old) ≡ 0 → journal_of (pool_of self.new) ≡ journal_of (pool_of self.old) }
        ensures taken { 0 < length (named_pages self.old) → ¬ GivesBack D.EraseDisk (journal_of (pool_of self.old)) → OnOk result (opened_slots (journal_of (pool_of self.new)) ≡ opened_slots (journal_of (pool_of self.old)) + 1) }
        ensures turned { 0 < length (named_pages self.old) → GivesBack D.EraseDisk (journal_of (pool_of self.old)) → OnOk result (opened_slots (journal_of (pool_of self.new)) ≡ opened_slots (journal_of (pool_of self.old))) }

        // The pages of the images are dirty then, after those that were.
        ensures dirty { 0 < length (named_pages self.old) → OnOk result (unhomed_pages (journal_of (pool_of self.new)) ≡ joined (unhomed_pages (journal_of (pool_of self.old))) (named_pages self.old)) }
        ensures usable { 0 < length (named_pages self.old) → OnOk result (needs_recovery (journal_of (pool_of self.new)) ≡ false) }

        ensures unchanged { IfErr result (λ e. e ≢ PostError.Fault → pool_of self.new ≡ pool_of self.old) }
        ensures failed { IsErrOf result PostError.Fault → IsDown D.EraseDisk (journal_of (pool_of self.old)) (journal_of (pool_of self.new)) }
        ensures named { named_pages self.new ≡ [] }
        ensures next { next_page self.new ≡ next_page self.old }
        ensures journal { SameJournal D.EraseDisk (journal_of (pool_of self.old)) (journal_of (pool_of self.new)) (IsErrOf result PostError.Fault) }
    {
        let images = mem::replace(&mut self.images, Vec::new(self.alloc));
        self.pool.commit(images)
    }

    /// Writes all pages of the pool home, and closes the journal's slots. The images stay as they are.
    pub fn checkpoint(&mut self) -> Result<(), UseError>
        ensures crash { (start : Start) (shown : List (List ℕ)) → Shows D.EraseDisk self.old start shown
            → Leaves (D.model (disk_of (journal_of (pool_of self.old)))) (D.model (disk_of (journal_of (pool_of self.new))))
            (λ c. Recovers (home_pages (journal_of (pool_of self.old))) start.note c start.pages) }
        ensures shown { (start : Start) (shown : List (List ℕ)) → Shows D.EraseDisk self.old start shown → needs_recovery (journal_of (pool_of self.new)) ≡ false
            → Shows D.EraseDisk self.new (record { note = start.note; pages = start.pages; clock = (D.model (disk_of (journal_of (pool_of self.new)))).clock }) shown }

        ensures idle { OnOk result (IsIdle D.EraseDisk (journal_of (pool_of self.new))) }
        ensures still { IsIdle D.EraseDisk (journal_of (pool_of self.old)) → journal_of (pool_of self.new) ≡ journal_of (pool_of self.old) }
        ensures failed { IsErrOf result UseError.Fault → (needs_recovery (journal_of (pool_of self.new)) ≡ true) ⊎ (0 < length (unhomed_pages (journal_of (pool_of self.new)))) }
        ensures as_dirty { (n : ℕ) → IsListed n (unhomed_pages (journal_of (pool_of self.new))) → IsListed n (unhomed_pages (journal_of (pool_of self.old))) }
        ensures as_opened { OnErr result (opened_slots (journal_of (pool_of self.new)) ≡ opened_slots (journal_of (pool_of self.old))) }
        ensures ok { OnOk result (needs_recovery (journal_of (pool_of self.old)) ≡ false) }
        ensures refused { IfErr result (UseRefusal (needs_recovery (journal_of (pool_of self.old)))) }
        ensures unchanged { IsErrOf result UseError.NeedsRecovery → pool_of self.new ≡ pool_of self.old }
        ensures named { named_pages self.new ≡ named_pages self.old }
        ensures next { next_page self.new ≡ next_page self.old }
        ensures journal { SameJournal D.EraseDisk (journal_of (pool_of self.old)) (journal_of (pool_of self.new)) (IsErrOf result UseError.Fault) }
    {
        self.pool.checkpoint()
    }

    /// Makes room for a commit, and for one that leaves a slot closed: if one is left, the pages go home that only the
    /// oldest open slot has; if none is left, a checkpoint is made. The images stay as they are.
    pub fn make_room(&mut self) -> Result<(), UseError>
        ensures crash { (start : Start) (shown : List (List ℕ)) → Shows D.EraseDisk self.old start shown
            → Leaves (D.model (disk_of (journal_of (pool_of self.old)))) (D.model (disk_of (journal_of (pool_of self.new))))
            (λ c. Recovers (home_pages (journal_of (pool_of self.old))) start.note c start.pages) }
        ensures shown { (start : Start) (shown : List (List ℕ)) → Shows D.EraseDisk self.old start shown → needs_recovery (journal_of (pool_of self.new)) ≡ false
            → Shows D.EraseDisk self.new (record { note = start.note; pages = start.pages; clock = (D.model (disk_of (journal_of (pool_of self.new)))).clock }) shown }

        ensures room { OnOk result (0 < closed_slots (journal_of (pool_of self.new))) }
        ensures last { OnOk result (closed_slots (journal_of (pool_of self.new)) ≡ 1 → oldest_slot_pages (journal_of (pool_of self.new)) ≡ []) }
        ensures idle { 1 < closed_slots (journal_of (pool_of self.old)) → pool_of self.new ≡ pool_of self.old }
        ensures opened { 0 < closed_slots (journal_of (pool_of self.old)) → opened_slots (journal_of (pool_of self.new)) ≡ opened_slots (journal_of (pool_of self.old)) }
        ensures as_dirty { (n : ℕ) → IsListed n (unhomed_pages (journal_of (pool_of self.new))) → IsListed n (unhomed_pages (journal_of (pool_of self.old))) }
        ensures ok { OnOk result ((needs_recovery (journal_of (pool_of self.old)) ≡ false) × (needs_recovery (journal_of (pool_of self.new)) ≡ false)) }
        ensures refused { IfErr result (UseRefusal (needs_recovery (journal_of (pool_of self.old)))) }
        ensures unchanged { IsErrOf result UseError.NeedsRecovery → pool_of self.new ≡ pool_of self.old }
        ensures named { named_pages self.new ≡ named_pages self.old }
        ensures next { next_page self.new ≡ next_page self.old }
        ensures journal { SameJournal D.EraseDisk (journal_of (pool_of self.old)) (journal_of (pool_of self.new)) (IsErrOf result UseError.Fault) }
    {
        self.pool.make_room()
    }

    /// Writes the page home that was dirty longest. Returns whether there was one. The images stay as they are.
    pub fn flush_one(&mut self) -> Result<bool, UseError>
        ensures crash { (start : Start) (shown : List (List ℕ)) → Shows D.EraseDisk self.old start shown
            → Leaves (D.model (disk_of (journal_of (pool_of self.old)))) (D.model (disk_of (journal_of (pool_of self.new))))
            (λ c. Recovers (home_pages (journal_of (pool_of self.old))) start.note c start.pages) }
        ensures shown { (start : Start) (shown : List (List ℕ)) → Shows D.EraseDisk self.old start shown → needs_recovery (journal_of (pool_of self.new)) ≡ false
            → Shows D.EraseDisk self.new (record { note = start.note; pages = start.pages; clock = (D.model (disk_of (journal_of (pool_of self.new)))).clock }) shown }

        ensures wrote { IfOk result (λ more. (more ≡ false) ↔ (length (unhomed_pages (journal_of (pool_of self.old))) ≡ 0)) }
        ensures none { length (unhomed_pages (journal_of (pool_of self.old))) ≡ 0 → pool_of self.new ≡ pool_of self.old }
        ensures oldest { OnOk result (IfSome (oldest_dirty (pool_of self.old)) (λ n. unhomed_pages (journal_of (pool_of self.new)) ≡ filter (λ m. not (m == n)) (unhomed_pages (journal_of (pool_of self.old))))) }
        ensures opened { opened_slots (journal_of (pool_of self.new)) ≡ opened_slots (journal_of (pool_of self.old)) }
        ensures as_dirty { OnErr result (unhomed_pages (journal_of (pool_of self.new)) ≡ unhomed_pages (journal_of (pool_of self.old))) }
        ensures fewer { OnOk result (length (unhomed_pages (journal_of (pool_of self.new))) ≤ length (unhomed_pages (journal_of (pool_of self.old))) - 1) }
        ensures ok { OnOk result ((needs_recovery (journal_of (pool_of self.old)) ≡ false) × (needs_recovery (journal_of (pool_of self.new)) ≡ false)) }
        ensures refused { IfErr result (UseRefusal (needs_recovery (journal_of (pool_of self.old)))) }
        ensures failed { IsErrOf result UseError.Fault → IsDown D.EraseDisk (journal_of (pool_of self.old)) (journal_of (pool_of self.new)) ⊎ WasOnlyRead D.EraseDisk (journal_of (pool_of self.old)) (journal_of (pool_of self.new)) }
        ensures some { IsErrOf result UseError.Fault → 0 < length (unhomed_pages (journal_of (pool_of self.old))) }
        ensures unchanged { IsErrOf result UseError.NeedsRecovery → pool_of self.new ≡ pool_of self.old }
        ensures named { named_pages self.new ≡ named_pages self.old }
        ensures next { next_page self.new ≡ next_page self.old }
        ensures journal { SameJournal D.EraseDisk (journal_of (pool_of self.old)) (journal_of (pool_of self.new)) (IsErrOf result UseError.Fault) }
    {
        self.pool.flush_one()
    }

    /// The pool below, as it is without the images.
    pub fn pool(&self) -> &Pool<D>
        ensures pool { result.now ≡ pool_of self.now }
    {
        &self.pool
    }

    /// Returns the pool. The images are discarded.
    pub fn into_pool(self) -> Pool<D>
        ensures pool { result ≡ pool_of self }
    {
        self.pool
    }
}

impl<D: EraseDisk + Drop> Pages for Tx<D> {
    ghost use Rattle.page_tx.specs.Tx.{IsThere, Shows, named_pages, next_page, pool_of};
    ghost use Rattle.page_tx.specs.inner.Held.{held_below, held_distinct, held_few, next_within};
    ghost use Rattle.page_tx.specs.inner.Laid.{shows_count};
    ghost use Rattle.std.proofs.Common.{inl};

    ghost shows = { λ tx start shown. Shows D.EraseDisk tx start shown };

    ghost resident = { λ tx n. IsThere tx n };

    ghost homes = { λ tx. home_pages (journal_of (pool_of tx)) };

    ghost next = { λ tx. next_page tx };

    ghost named = { λ tx. named_pages tx };

    ghost down = { λ tx. needs_recovery (journal_of (pool_of tx)) };

    ghost honest = { λ tx. D.honest (disk_of (journal_of (pool_of tx))) };

    ghost faults = { λ tx. D.fault_count (disk_of (journal_of (pool_of tx))) };

    ghost count = { λ tx start shown shows. shows_count tx start shown shows };

    ghost held = { λ tx n listed. inl listed };

    ghost few = { λ tx. held_few tx };

    ghost distinct = { λ tx. held_distinct tx };

    ghost below = { λ tx. held_below tx };

    ghost last = { λ tx. next_within tx };

    fn fetch(&mut self, n: u64) -> Result<(), PageError> {
        if place_of(&self.images, n).is_some() {
            return Ok(());
        }
        self.pool.fetch(self.alloc, n)?;
        Ok(())
    }

    fn page(&self, n: u64) -> Option<&Page> {
        match place_of(&self.images, n) {
            Some(k) => Some(&self.images[k].1),
            None => self.pool.page(n),
        }
    }

    fn set(&mut self, n: u64, page: Page) -> Result<(), PageError> {
        let more = count_one(&self.images, n);
        make_room(&mut self.images, more)?;
        lay_one(&mut self.images, n, page);
        Ok(())
    }

    fn lay(&mut self, images: Vec<(u64, Page)>, unused: u64) -> Result<(), PageError> {
        if unused > self.pool.home_pages() {
            return Err(PageError::PagesFull);
        }
        let more = count_new(&self.images, &images);
        make_room(&mut self.images, more)?;
        lay_all(&mut self.images, images);
        self.next = unused;
        Ok(())
    }

    fn fresh(&mut self) -> Result<u64, PageError> {
        if self.next >= self.pool.home_pages() {
            return Err(PageError::PagesFull);
        }
        let n = self.next;
        self.next += 1;
        Ok(n)
    }

    fn home_pages(&self) -> u64 {
        self.pool.home_pages()
    }

    fn images(&self) -> usize {
        let held: &[(u64, Page)] = &self.images;
        held.len()
    }

    fn next_page(&self) -> u64 {
        self.next
    }
}
