//! Writes committed pages home.

ghost use Rattle.std.specs.Prelude.{◌≡◌, ◌≢◌, ◌+◌, ◌↔◌, ◌==◌, ℕ, List, [], ◌∷◌, filter, length, min, not, OnOk, OnErr, IfOk, IfErr, IsErrOf, Err, true, false};
ghost use Rattle.disk_models.specs.Erase.{Leaves};
ghost use Rattle.page_journal.specs.Calls.{IsIdle, SameJournal};
ghost use Rattle.page_journal.specs.Journal.{disk_of, home_pages, needs_recovery, unhomed_pages};
ghost use Rattle.page_journal.specs.Recovers.{Recovers};
ghost use Rattle.page_journal.specs.Refusals.{UseRefusal};
ghost use Rattle.buffer_pool.specs.Pool.{journal_of};
ghost use Rattle.page_tx.specs.Device.{KeepsDevice};
ghost use Rattle.page_tx.specs.Start.{Start};
ghost use Rattle.page_tx.specs.Tx.{Shows, pool_of};
ghost use Rattle.route_meaning.specs.History.{History};
ghost use Rattle.disk_archive.specs.Homes.{IsHomed};

use crate::archive::Archive;
use crate::committing::begin;
use crate::flush_error::FlushError;
use disk_models::{EraseDisk, OnceDisk};
use page_journal::UseError;
use page_tx::Tx;

/// What a step of flushing did.
#[derive(Clone, Copy, Debug, PartialEq, Eq)]
pub enum Flush {
    /// A page was written home.
    Flushed,
    /// All pages are home, and the whole journal is free again.
    Clean,
}

// Writes a page home, or, if all are home, closes the journal's slots. It is given no shelf: nothing is burnt.
fn write_home<E: EraseDisk + Drop>(tx: &mut Tx<E>) -> Result<Flush, UseError>
    ensures crash { (start : Start) (shown : List (List ℕ)) → Shows E.EraseDisk tx.old start shown
        → Leaves (E.model (disk_of (journal_of (pool_of tx.old)))) (E.model (disk_of (journal_of (pool_of tx.new)))) (λ c. Recovers (home_pages (journal_of (pool_of tx.old))) start.note c start.pages) }
    ensures shown { (start : Start) (shown : List (List ℕ)) → Shows E.EraseDisk tx.old start shown → needs_recovery (journal_of (pool_of tx.new)) ≡ false
        → (clock : ℕ) × Shows E.EraseDisk tx.new (record { note = start.note; pages = start.pages; clock = clock }) shown }
    ensures ok { OnOk result (needs_recovery (journal_of (pool_of tx.new)) ≡ false) }
    ensures flushed { IfOk result (λ step. step ≡ Flush.Flushed → IsHomed (unhomed_pages (journal_of (pool_of tx.old))) (unhomed_pages (journal_of (pool_of tx.new)))) }
    ensures clean { IfOk result (λ step. step ≡ Flush.Clean → IsIdle E.EraseDisk (journal_of (pool_of tx.new))) }
    ensures only { IfOk result (λ step. (step ≡ Flush.Clean) ↔ (unhomed_pages (journal_of (pool_of tx.old)) ≡ [])) }
    ensures waits { OnErr result (unhomed_pages (journal_of (pool_of tx.new)) ≡ unhomed_pages (journal_of (pool_of tx.old))) }
    ensures refused { IfErr result (UseRefusal (needs_recovery (journal_of (pool_of tx.old)))) }
    ensures journal { SameJournal E.EraseDisk (journal_of (pool_of tx.old)) (journal_of (pool_of tx.new)) (IsErrOf result UseError.Fault) }
{
    let written = tx.flush_one()?;
    if written {
        return Ok(Flush::Flushed);
    }
    tx.checkpoint()?;
    Ok(Flush::Clean)
}

impl<E: EraseDisk + Drop, O: OnceDisk + Drop> Archive<E, O> {
    ghost use Rattle.disk_archive.specs.Archives.{Represents, GoesOn, RepresentsIfHonest, ContinuesFrom, IsHonest, erase_of, is_down, once_of, once_state, pen_in, settings_of, site_of};
    ghost use Rattle.disk_archive.specs.Sites.{LeftRepresents, LeftEither};
    ghost use Rattle.disk_archive.specs.Crashes.{Crashes, Lasts};
    ghost use Rattle.disk_archive.specs.Homes.{closed_in, dirty_pages};
    ghost use Rattle.disk_archive.specs.inner.Idle.{IsAsBefore};

    // A step of flushing if the archive represents a history.
    fn try_flush(&mut self) -> Result<Flush, FlushError>
        ensures usable { OnOk result ((is_down self.old ≡ false) × (is_down self.new ≡ false)) }
        ensures idle { is_down self.old ≡ true → IsAsBefore self.old self.new }
        ensures recovery { (result ≡ Err FlushError.NeedsRecovery) ↔ (is_down self.old ≡ true) }
        ensures device { KeepsDevice (E.honest (erase_of self.old)) (E.honest (erase_of self.new)) (E.fault_count (erase_of self.old)) (E.fault_count (erase_of self.new)) (result ≡ Err FlushError.Fault) }
        ensures pen { pen_in self.new ≡ pen_in self.old }
        ensures honest { IsHonest self.old ↔ IsHonest self.new }
        ensures settings { settings_of self.new ≡ settings_of self.old }
        ensures disk { once_of self.new ≡ once_of self.old }
        ensures blocks { once_state self.new ≡ once_state self.old }
        ensures goes_on { (h : History) → Represents self.old h → GoesOn self.new h }
        ensures crash { (h : History) → Represents self.old h → Crashes self.old self.new (LeftEither (site_of self.old) h h) }
        ensures flushed { IfOk result (λ step. step ≡ Flush.Flushed → IsHomed (dirty_pages self.old) (dirty_pages self.new)) }
        ensures clean { IfOk result (λ step. step ≡ Flush.Clean → (dirty_pages self.new ≡ []) × (closed_in self.new ≡ 8)) }
        ensures only { IfOk result (λ step. (step ≡ Flush.Clean) ↔ (dirty_pages self.old ≡ [])) }
        ensures waits { OnErr result (dirty_pages self.new ≡ dirty_pages self.old) }
    {
        begin(&mut self.tx)?;
        Ok(write_home(&mut self.tx)?)
    }

    /// A step of flushing: the page that has waited longest is written home, or, if none waits, the journal is made free. So calls
    /// until it is `Clean` write each page home that was committed.
    ///
    /// The archive represents the same history, and so does what any crash leaves. After a refusal the same pages wait; after a write or a
    /// sync that failed the archive must be opened again.
    pub fn flush_step(&mut self) -> Result<Flush, FlushError>
        ensures holds { (h : History) → RepresentsIfHonest self.old h → RepresentsIfHonest self.new h }
        ensures crash { (h : History) → Represents self.old h → Crashes self.old self.new (LeftRepresents (site_of self.old) h) }
        ensures lasts { (h : History) → ContinuesFrom self.old h → Lasts self.old self.new h }
        ensures usable { OnOk result ((is_down self.old ≡ false) × (is_down self.new ≡ false)) }
        ensures idle { is_down self.old ≡ true → (erase_of self.new ≡ erase_of self.old) × (once_state self.new ≡ once_state self.old) × (is_down self.new ≡ true) }
        ensures recovery { (result ≡ Err FlushError.NeedsRecovery) ↔ (is_down self.old ≡ true) }
        ensures quiet { result ≢ Err FlushError.Fault → E.fault_count (erase_of self.new) ≡ E.fault_count (erase_of self.old) }
        ensures counted { result ≡ Err FlushError.Fault → E.fault_count (erase_of self.new) ≡ min (E.fault_count (erase_of self.old) + 1) 18446744073709551615 }
        ensures pen { pen_in self.new ≡ pen_in self.old }
        ensures flushed { IfOk result (λ step. step ≡ Flush.Flushed → IsHomed (dirty_pages self.old) (dirty_pages self.new)) }
        ensures clean { IfOk result (λ step. step ≡ Flush.Clean → (dirty_pages self.new ≡ []) × (closed_in self.new ≡ 8)) }
        ensures only { IfOk result (λ step. (step ≡ Flush.Clean) ↔ (dirty_pages self.old ≡ [])) }
        ensures waits { OnErr result (dirty_pages self.new ≡ dirty_pages self.old) }
        ensures honest { IsHonest self.old ↔ IsHonest self.new }
        ensures settings { settings_of self.new ≡ settings_of self.old }
        ensures disk { once_of self.new ≡ once_of self.old }
        ensures blocks { once_state self.new ≡ once_state self.old }
    {
        self.try_flush()
    }
}
