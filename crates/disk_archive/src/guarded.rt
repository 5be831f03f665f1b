//! Pages that are only read, with what crashes could leave before.

ghost use Rattle.std.specs.Prelude.{ℕ, [], length};
ghost use Rattle.page_journal.specs.Journal.{disk_of, home_pages, needs_recovery};
ghost use Rattle.buffer_pool.specs.Pool.{IsResident, journal_of};

use crate::looks::Looks;
use disk_models::{EraseDisk, Page};
use page_tx::{PageError, Pages};
use std::marker::{Brand, PhantomData};

/// A clock, and what a crash could leave then. Each call picks both.
pub(crate) trait Before {
    ghost clock: { ℕ };

    ghost left: { (ℕ → ℕ) → Type 0 };
}

impl Before for Brand {
    ghost clock = { 0 };

    ghost left = { λ c. Unit {0} };
}

/// Pages that are only read, as a map in which there is no room for an image: no page is set.
#[derive(Drop)]
pub(crate) struct Guarded<E: EraseDisk + Drop, B: Before> {
    pub(crate) looks: Looks<E>,
    pub(crate) of: PhantomData<B>,
}

impl<E: EraseDisk + Drop, B: Before> Pages for Guarded<E, B> {
    ghost use Rattle.disk_archive.specs.inner.Guarding.{GuardedAt, guarded_count};
    ghost use Rattle.disk_archive.specs.inner.Looked.{few_none, none_above};

    ghost shows = { λ guarded start shown. GuardedAt E.EraseDisk B.clock B.left guarded.looks start shown };

    ghost resident = { λ guarded n. IsResident guarded.looks.pool n };

    ghost homes = { λ guarded. home_pages (journal_of guarded.looks.pool) };

    ghost next = { λ guarded. home_pages (journal_of guarded.looks.pool) };

    ghost named = { λ guarded. [] };

    ghost down = { λ guarded. needs_recovery (journal_of guarded.looks.pool) };

    ghost honest = { λ guarded. E.honest (disk_of (journal_of guarded.looks.pool)) };

    ghost faults = { λ guarded. E.fault_count (disk_of (journal_of guarded.looks.pool)) };

    ghost count = { λ guarded start shown shows. guarded_count B.clock B.left guarded.looks start shown shows };

    ghost held = { λ guarded n listed. absurd listed };

    ghost few = { λ guarded. few_none };

    ghost distinct = { λ guarded. tt };

    ghost below = { λ guarded. tt };

    ghost last = { λ guarded. none_above (home_pages (journal_of guarded.looks.pool)) };

    fn fetch(&mut self, n: u64) -> Result<(), PageError> {
        self.looks.pool.fetch(self.looks.alloc, n)?;
        Ok(())
    }

    fn page(&self, n: u64) -> Option<&Page> {
        self.looks.pool.page(n)
    }

    fn set(&mut self, _: u64, _: Page) -> Result<(), PageError> {
        Err(PageError::OutOfMemory)
    }

    fn lay(&mut self, images: Vec<(u64, Page)>, unused: u64) -> Result<(), PageError> {
        if unused > self.looks.pool.home_pages() {
            return Err(PageError::PagesFull);
        }
        if images.len() > 31 {
            return Err(PageError::TooManyImages);
        }
        Err(PageError::OutOfMemory)
    }

    fn fresh(&mut self) -> Result<u64, PageError> {
        Err(PageError::PagesFull)
    }

    fn home_pages(&self) -> u64 {
        self.looks.pool.home_pages()
    }

    fn images(&self) -> usize {
        0
    }

    fn next_page(&self) -> u64 {
        self.looks.pool.home_pages()
    }
}
