//! The archive, and what it reports.

ghost use Rattle.std.specs.Prelude.{◌≡◌, ◌↔◌, ◌<◌, ◌≤◌, ℕ, List, length, map, not, sum_by, Some, IfOk, slice_get};
ghost use Rattle.page_journal.specs.Journal.{home_pages};
ghost use Rattle.buffer_pool.specs.Pool.{journal_of};
ghost use Rattle.once_store.specs.Shelves.{next_of};
ghost use Rattle.page_tx.specs.Tx.{pool_of};
ghost use Rattle.disk_models.specs.Erase.{Counts};
ghost use Rattle.route_meaning.specs.History.{History, applied, settled};
ghost use Rattle.interleaving_core.specs.World.{resume_of};

use archive_head::Head;
use archive_pages::{Settings, lane_of};
use disk_models::{EraseDisk, Fault, OnceDisk};
use intake::Encoded;
use interleaving_core::Resume;
use once_store::Shelf;
use page_tx::{Pages, Tx};
use route_model::Mark;
use sequencer::Sequencer;
use std::alloc::Global;
use std::sync::Arc;

/// What some collectors gave, on two disks: home pages with a head, a ring of pending admissions for each collector and a tree, and blocks
/// with the tree's past.
///
/// In memory it has the head, the marks, and the times of pending admissions.
#[derive(Drop)]
pub struct Archive<E: EraseDisk + Drop, O: OnceDisk + Drop> {
    pub(crate) alloc: Global,
    pub(crate) tx: Tx<E>,
    pub(crate) shelf: Shelf<O>,
    pub(crate) settings: Settings,
    pub(crate) head: Head,
    pub(crate) sequencer: Sequencer,
    // The admission of which changes were applied last. It is no part of the history: the ring is read each time, and this one
    // is used if its octets are those in the ring.
    pub(crate) kept: Option<Encoded>,
    ghost some: { 1 ≤ settings.collectors },
    ghost few: { settings.collectors ≤ 16 },
    ghost lanes: { length head.lanes ≡ settings.collectors },
    ghost numbers: { length sequencer ≡ settings.collectors },
    ghost homes: { 0 < home_pages (journal_of (pool_of tx)) },
    ghost blocks: { head.block ≤ next_of shelf },
}

impl<E: EraseDisk + Drop, O: OnceDisk + Drop> Archive<E, O> {
    ghost use Rattle.disk_archive.specs.Archives.{RepresentsIfHonest, IsHonest, erase_of, is_down, once_of, once_state, pen_in, settings_of, site_of};
    ghost use Rattle.disk_archive.specs.Checks.{applied_in};

    /// How many collectors there are, 1 to 16. Their numbers begin with 0.
    pub fn collectors(&self) -> u8
        ensures settings { result ≡ (settings_of self.now).collectors }
        ensures count { IsHonest self.now → (h : History) → RepresentsIfHonest self.now h → length h.intakes ≡ result }
        ensures some { 1 ≤ result }
        ensures few { result ≤ 16 }
    {
        self.settings.collectors
    }

    /// How many pages the ring of each collector has.
    pub fn ring(&self) -> u16
        ensures settings { result ≡ (settings_of self.now).ring }
    {
        self.settings.ring
    }

    /// The settled watermark: a question of a moment below it is answered. An archive that must be opened again returns the value from
    /// before the call that failed.
    pub fn settled(&self) -> Mark
        ensures settled { IsHonest self.now → (h : History) → RepresentsIfHonest self.now h → result ≡ settled h }
    {
        self.sequencer.settled()
    }

    /// Where the collector's feed goes on. An archive that must be opened again returns the value from before the call that failed.
    pub fn resume(&self, collector: u8) -> Resume
        requires collector { collector < (settings_of self.now).collectors }
        ensures resume { IsHonest self.now → (h : History) → RepresentsIfHonest self.now h → slice_get (map resume_of h.intakes) collector ≡ Some result }
    {
        let lane = lane_of(&self.head, collector);
        Resume {
            offered: lane.offered,
            admitted: lane.admitted,
            mark: lane.mark,
        }
    }

    /// How many changes are applied, according to the head. An archive that must be opened again returns the value from before the call
    /// that failed.
    pub fn applied(&self) -> u64
        ensures head { result ≡ applied_in self.now }
        ensures counted { IsHonest self.now → (h : History) → RepresentsIfHonest self.now h → result ≡ sum_by (λ p. length p.item.changes) (applied h) }
    {
        self.head.applied
    }

    /// What it keeps of itself on its first home page: how much of the pages, of the blocks and of each ring is used, and what each
    /// collector gave. An archive that must be opened again returns what it was before the call that failed.
    pub fn head(&self) -> &Head
        ensures applied { result.now.applied ≡ applied_in self.now }
        ensures lanes { length result.now.lanes ≡ (settings_of self.now).collectors }
    {
        &self.head
    }

    /// How many home pages there are.
    pub fn pages(&self) -> u64
        ensures pages { result ≡ (site_of self.now).homes }
    {
        self.tx.home_pages()
    }

    /// How many blocks the write-once disk has, as the journal's note has it.
    pub fn blocks(&self) -> u64 {
        let [a, b, c, d, e, f, g, h, _, _, _] = self.tx.pool().note();
        u64::from_be_bytes([a, b, c, d, e, f, g, h])
    }

    /// What a reader of blocks may know from now on: those that are settled.
    pub fn seen(&mut self) -> Result<O::Seen, Fault>
        ensures seen { IsHonest self.old → IfOk result (λ seen. O.honest_seen (once_of self.old) seen) }
        ensures known { IsHonest self.old → IfOk result (λ seen. O.known seen ≡ (once_state self.old).settled) }
        ensures fresh { IfOk result (λ seen. O.seen_fault_count seen ≡ 0) }
        ensures counts { Counts (O.pen_fault_count (pen_in self.old)) (O.pen_fault_count (pen_in self.new)) result }
        ensures holds { (h : History) → RepresentsIfHonest self.old h → RepresentsIfHonest self.new h }
        ensures pages { erase_of self.new ≡ erase_of self.old }
        ensures down { is_down self.new ≡ is_down self.old }
        ensures honest { IsHonest self.old ↔ IsHonest self.new }
        ensures settings { settings_of self.new ≡ settings_of self.old }
        ensures disk { once_of self.new ≡ once_of self.old }
        ensures blocks { IsHonest self.old → once_state self.new ≡ once_state self.old }
    {
        self.shelf.seen()
    }

    /// Whether its erasable disk can be used: no write and no sync of it has failed since the archive was created or opened. Where one has,
    /// calls return `NeedsRecovery`. A burn or a settle that failed doesn't count.
    pub fn is_usable(&self) -> bool
        ensures usable { result ≡ not (is_down self.now) }
    {
        self.tx.pool().is_usable()
    }

    /// Returns both disks.
    pub fn into_disks(self) -> (E, Arc<O>, O::Pen)
        ensures erase { result.0 ≡ erase_of self }
        ensures once { result.1.value ≡ once_of self }
        ensures pen { result.2 ≡ pen_in self }
    {
        let Archive { tx, shelf, .. } = self;
        let (once, pen) = shelf.into_disk();
        (tx.into_pool().into_disk(), once, pen)
    }
}
