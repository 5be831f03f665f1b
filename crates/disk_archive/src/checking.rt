//! Checks an archive: reads the whole tree, and counts the applied changes.

ghost use Rattle.std.specs.Prelude.{◌≡◌, ◌⊎◌, ◌↔◌, ◌<◌, ◌≤◌, ◌^◌, ℕ, List, length, sum_by, IfOk, IfErr, OnOk, Err, true, false};
ghost use Rattle.once_store.specs.Readers.{reader_disk};
ghost use Rattle.page_tx.specs.Device.{KeepsDevice};
ghost use Rattle.page_tx.specs.Start.{Start};
ghost use Rattle.route_model.specs.Admission.{Admitted};
ghost use Rattle.route_meaning.specs.History.{History, applied};
ghost use Rattle.route_meaning.specs.Merged.{Placed};
ghost use Rattle.route_history.specs.Kept.{timed};
ghost use Rattle.version_model.specs.Pages.{Store, TreeRepresents};
ghost use Rattle.version_model.specs.Versions.{Version};
ghost use Rattle.tsb_tree.specs.Opened.{IsShownRoot};
ghost use Rattle.tsb_walk.specs.Knowing.{ReadsWell};
ghost use Rattle.tsb_walk.specs.Shown.{RepresentNodes};
ghost use Rattle.disk_archive.specs.Checks.{IsAllRead, IsBadBlock, IsBadPage, IsRootPlace};
ghost use Rattle.disk_archive.specs.Rings.{AreRings, IsBadRing};
ghost use Rattle.disk_archive.specs.inner.Asking.{HasTree};
ghost use Rattle.disk_archive.specs.inner.Checking.{CountRefusal, FindsNone};
ghost use Rattle.disk_archive.specs.Failures.{ReportsOne};

use crate::archive::Archive;
use crate::check_error::{CheckError, of_root};
use crate::checking_rings::check_rings;
use crate::committing::begin;
use archive_head::Head;
use archive_pages::Settings;
use disk_models::{EraseDisk, OnceDisk};
use once_store::ShelfReader;
use page_tx::Pages;
use std::alloc::Global;
use tsb_check::{InUse, check};
use tsb_tree::open;
use tsb_walk::PagePlace;
use version_model::Stamp;

// How many blocks a check caches at most: columns that were divided lead to the same ones.
const KEPT_BLOCKS: usize = 64;

// Where the root of a tree lies.
fn root_of<P: Pages>(pages: &mut P, root: u64) -> Result<PagePlace, CheckError>
    ensures place { IfOk result (IsRootPlace root) }
    ensures represents_all { (start : Start) (shown : List (List ℕ)) (s : Store) (all : List Version) (level : ℕ) → P.shows pages.old start shown → RepresentNodes shown s.nodes → TreeRepresents s all root level → IfOk result (λ place. TreeRepresents s all place.page place.level) }
    ensures finds { (start : Start) (shown : List (List ℕ)) (s : Store) (all : List Version) (level : ℕ) → P.shows pages.old start shown → RepresentNodes shown s.nodes → TreeRepresents s all root level → IfErr result FindsNone }
    ensures bad { (start : Start) (shown : List (List ℕ)) → P.shows pages.old start shown → (page : ℕ) → result ≡ Err (CheckError.BadNode page) → (page ≡ root) × ((level : ℕ) → IsShownRoot shown root level → ⊥) }
    ensures damaged { (block : ℕ) → result ≡ Err (CheckError.Damaged block) → ⊥ }
    ensures refused { IfErr result (CountRefusal (P.down pages.old)) }
    ensures reads { (start : Start) (shown : List (List ℕ)) → P.shows pages.old start shown → P.shows pages.new start shown }
    ensures homes { P.homes pages.new ≡ P.homes pages.old }
    ensures down { P.down pages.new ≡ P.down pages.old }
    ensures device { KeepsDevice (P.honest pages.old) (P.honest pages.new) (P.faults pages.old) (P.faults pages.new) (result ≡ Err CheckError.Fault) }
    ensures honest { P.honest pages.old ↔ P.honest pages.new }
{
    let least = Stamp::new(0, 0);
    match open(pages, root, least) {
        Ok(place) => Ok(PagePlace::root(place.root, place.level)),
        Err(refusal) => Err(of_root(refusal)),
    }
}

// Which pages and blocks the archive's tree may use: its head is on page 0.
fn in_use_by(head: &Head, burnt: u64) -> InUse
    ensures { result ≡ record { recorded_on = 0; pages = head.now.fresh; blocks = head.now.block; burnt = burnt } }
{
    InUse {
        recorded_on: 0,
        pages: head.fresh,
        blocks: head.block,
        burnt,
    }
}

// How many versions the archive's tree has: as many as the head counts applied changes. It uses no page and no block from the first ones on
// that the head calls unused. No block from `burnt` on was ever burnt.
fn count_tree<P: Pages, O: OnceDisk + Drop>(
    alloc: Global,
    pages: &mut P,
    reader: &mut ShelfReader<O>,
    seen: &mut O::Seen,
    head: &Head,
    burnt: u64,
) -> Result<u64, CheckError>
    requires burnt { head.now.block ≤ burnt }
    ensures counted { IfOk result (λ n. n ≡ head.now.applied) }
    ensures finds { (ps : List (Placed Admitted)) → HasTree P.Pages pages.old O.OnceDisk reader.old seen.old head.now.root head.now.fresh head.now.block ps → head.now.applied ≡ length (timed ps) → head.now.applied < 2 ^ 64 → IfErr result FindsNone }
    ensures read { (start : Start) (shown : List (List ℕ)) → P.shows pages.old start shown → ReadsWell O.OnceDisk reader.old seen.old → IfOk result (IsAllRead shown (O.known seen.old) (O.block_count (reader_disk reader.old)) head.now.root (record { recorded_on = 0; pages = head.now.fresh; blocks = head.now.block; burnt = burnt })) }
    ensures bad { (start : Start) (shown : List (List ℕ)) → P.shows pages.old start shown → ReadsWell O.OnceDisk reader.old seen.old
        → (page : ℕ) → result ≡ Err (CheckError.BadNode page) → IsBadPage shown (O.known seen.old) (O.block_count (reader_disk reader.old)) head.now.root head.now.applied (record { recorded_on = 0; pages = head.now.fresh; blocks = head.now.block; burnt = burnt }) page }
    ensures damaged { (start : Start) (shown : List (List ℕ)) → P.shows pages.old start shown → ReadsWell O.OnceDisk reader.old seen.old
        → (block : ℕ) → result ≡ Err (CheckError.Damaged block) → IsBadBlock shown (O.known seen.old) (O.block_count (reader_disk reader.old)) head.now.root block }
    ensures refused { IfErr result (CountRefusal (P.down pages.old)) }
    ensures reads { (start : Start) (shown : List (List ℕ)) → P.shows pages.old start shown → P.shows pages.new start shown }
    ensures homes { P.homes pages.new ≡ P.homes pages.old }
    ensures down { P.down pages.new ≡ P.down pages.old }
    ensures honest { P.honest pages.old ↔ P.honest pages.new }
    ensures look { O.honest_seen (reader_disk reader.old) seen.old → O.honest_seen (reader_disk reader.old) seen.new }
    ensures failed { ReportsOne (P.faults pages.old) (P.faults pages.new) (O.seen_fault_count seen.old) (O.seen_fault_count seen.new) (result ≡ Err CheckError.Fault) }
{
    let root = root_of(pages, head.root)?;
    let in_use = in_use_by(head, burnt);
    let count = check(pages, reader, seen, alloc, &in_use, &root)?;
    if count != head.applied {
        return Err(CheckError::BadNode(0));
    }
    Ok(count)
}

// Reads the rings and the tree, and returns how many versions the tree has.
fn count_by<P: Pages, O: OnceDisk + Drop>(
    alloc: Global,
    pages: &mut P,
    reader: &mut ShelfReader<O>,
    seen: &mut O::Seen,
    settings: Settings,
    head: &Head,
    burnt: u64,
) -> Result<u64, CheckError>
    requires burnt { head.now.block ≤ burnt }
    requires lanes { length head.now.lanes ≡ settings.collectors }
    ensures counted { IfOk result (λ n. n ≡ head.now.applied) }
    ensures finds { (ps : List (Placed Admitted)) (t : HasTree P.Pages pages.old O.OnceDisk reader.old seen.old head.now.root head.now.fresh head.now.block ps) → AreRings t.shown settings head.now
        → head.now.applied ≡ length (timed ps) → head.now.applied < 2 ^ 64 → IfErr result FindsNone }
    ensures rings { (start : Start) (shown : List (List ℕ)) → P.shows pages.old start shown → OnOk result (AreRings shown settings head.now) }
    ensures read { (start : Start) (shown : List (List ℕ)) → P.shows pages.old start shown → ReadsWell O.OnceDisk reader.old seen.old → IfOk result (IsAllRead shown (O.known seen.old) (O.block_count (reader_disk reader.old)) head.now.root (record { recorded_on = 0; pages = head.now.fresh; blocks = head.now.block; burnt = burnt })) }
    ensures bad { (start : Start) (shown : List (List ℕ)) → P.shows pages.old start shown → ReadsWell O.OnceDisk reader.old seen.old
        → (page : ℕ) → result ≡ Err (CheckError.BadNode page) → IsBadPage shown (O.known seen.old) (O.block_count (reader_disk reader.old)) head.now.root head.now.applied (record { recorded_on = 0; pages = head.now.fresh; blocks = head.now.block; burnt = burnt }) page ⊎ IsBadRing shown settings head.now page }
    ensures damaged { (start : Start) (shown : List (List ℕ)) → P.shows pages.old start shown → ReadsWell O.OnceDisk reader.old seen.old
        → (block : ℕ) → result ≡ Err (CheckError.Damaged block) → IsBadBlock shown (O.known seen.old) (O.block_count (reader_disk reader.old)) head.now.root block }
    ensures refused { IfErr result (CountRefusal (P.down pages.old)) }
    ensures reads { (start : Start) (shown : List (List ℕ)) → P.shows pages.old start shown → P.shows pages.new start shown }
    ensures homes { P.homes pages.new ≡ P.homes pages.old }
    ensures down { P.down pages.new ≡ P.down pages.old }
    ensures honest { P.honest pages.old ↔ P.honest pages.new }
    ensures look { O.honest_seen (reader_disk reader.old) seen.old → O.honest_seen (reader_disk reader.old) seen.new }
    ensures failed { ReportsOne (P.faults pages.old) (P.faults pages.new) (O.seen_fault_count seen.old) (O.seen_fault_count seen.new) (result ≡ Err CheckError.Fault) }
{
    check_rings(alloc, pages, settings, head)?;
    count_tree(alloc, pages, reader, seen, head, burnt)
}

impl<E: EraseDisk + Drop, O: OnceDisk + Drop> Archive<E, O> {
    ghost use Rattle.disk_archive.specs.Archives.{Represents, RepresentsIfHonest, ContinuesFrom, IsHonest, erase_of, erase_state, is_down, once_of, once_state, settings_of, site_of};
    ghost use Rattle.disk_archive.specs.Checks.{HasPages, applied_in, in_use_of, root_in};
    ghost use Rattle.disk_archive.specs.Rings.{head_in};
    ghost use Rattle.disk_archive.specs.Sites.{LeftRepresents, LeftEither};
    ghost use Rattle.disk_archive.specs.Crashes.{Crashes, Lasts};
    ghost use Rattle.disk_archive.specs.Failures.{ReportsFailure};
    ghost use Rattle.disk_archive.specs.inner.Idle.{IsAsBefore};

    // Checks the archive if it needn't be opened again.
    fn try_check(&mut self) -> Result<u64, CheckError>
        ensures usable { OnOk result (is_down self.old ≡ false) }
        ensures down { is_down self.new ≡ is_down self.old }
        ensures idle { is_down self.old ≡ true → IsAsBefore self.old self.new }
        ensures reported { is_down self.old ≡ true → result ≡ Err CheckError.NeedsRecovery }
        ensures recovery { result ≡ Err CheckError.NeedsRecovery → is_down self.old ≡ true }
        ensures honest { IsHonest self.old ↔ IsHonest self.new }
        ensures counted { IfOk result (λ n. n ≡ applied_in self.old) }
        ensures finds { (h : History) → Represents self.old h → IfErr result FindsNone }
        ensures read { IsHonest self.old → (pages : List (List ℕ)) → HasPages self.old pages → IfOk result (IsAllRead pages (once_state self.old).settled (O.block_count (once_of self.old)) (root_in self.old) (in_use_of self.old)) }
        ensures rings { IsHonest self.old → (pages : List (List ℕ)) → HasPages self.old pages → OnOk result (AreRings pages (settings_of self.old) (head_in self.old)) }
        ensures bad { IsHonest self.old → (pages : List (List ℕ)) → HasPages self.old pages
            → (page : ℕ) → result ≡ Err (CheckError.BadNode page) → IsBadPage pages (once_state self.old).settled (O.block_count (once_of self.old)) (root_in self.old) (applied_in self.old) (in_use_of self.old) page ⊎ IsBadRing pages (settings_of self.old) (head_in self.old) page }
        ensures damaged { IsHonest self.old → (pages : List (List ℕ)) → HasPages self.old pages
            → (block : ℕ) → result ≡ Err (CheckError.Damaged block) → IsBadBlock pages (once_state self.old).settled (O.block_count (once_of self.old)) (root_in self.old) block }
        ensures represents { (h : History) → Represents self.old h → Represents self.new h }
        ensures still { (h : History) → Represents self.old h → (erase_state self.new).clock ≡ (erase_state self.old).clock }
        ensures crash { (h : History) → Represents self.old h → Crashes self.old self.new (LeftEither (site_of self.old) h h) }
        ensures settings { settings_of self.new ≡ settings_of self.old }
        ensures disk { once_of self.new ≡ once_of self.old }
        ensures blocks { IsHonest self.old → once_state self.new ≡ once_state self.old }
        ensures failed { ReportsFailure self.old self.new (once_of self.old) (result ≡ Err CheckError.Fault) }
    {
        let burnt = self.shelf.next();
        begin(&mut self.tx)?;
        let mut reader = self.shelf.reader(self.alloc, KEPT_BLOCKS)?;
        let mut seen = self.shelf.seen()?;
        count_by(
            self.alloc,
            &mut self.tx,
            &mut reader,
            &mut seen,
            self.settings,
            &self.head,
            burnt,
        )
    }

    /// Reads all pending admissions in the rings, and each page and block that the tree leads to, and returns how many changes are applied:
    /// as many as the tree has versions. The error names the first page or block that isn't what it has to be: the page of a ring on which no
    /// admission begins where one has to; page 0, if the head has another number, or calls a page or a block unused that the tree uses;
    /// the page of a column that names a block which was never burnt.
    ///
    /// Nothing is written. Pages come through the archive's cache, and at most 64 blocks are cached, during the call. `Fault` is returned
    /// only if a read, or the look at what is settled, failed. After each outcome the archive represents the same history.
    pub fn check(&mut self) -> Result<u64, CheckError>
        ensures counted { IfOk result (λ n. IsHonest self.old → (h : History) → RepresentsIfHonest self.old h → n ≡ sum_by (λ p. length p.item.changes) (applied h)) }
        ensures head { IfOk result (λ n. n ≡ applied_in self.old) }
        ensures sound { IsHonest self.old → (h : History) → RepresentsIfHonest self.old h → (page : ℕ) → result ≡ Err (CheckError.BadNode page) → ⊥ }
        ensures undamaged { IsHonest self.old → (h : History) → RepresentsIfHonest self.old h → (block : ℕ) → result ≡ Err (CheckError.Damaged block) → ⊥ }
        ensures failed { ReportsFailure self.old self.new (once_of self.old) (result ≡ Err CheckError.Fault) }
        ensures read { IsHonest self.old → (pages : List (List ℕ)) → HasPages self.old pages → IfOk result (IsAllRead pages (once_state self.old).settled (O.block_count (once_of self.old)) (root_in self.old) (in_use_of self.old)) }
        ensures rings { IsHonest self.old → (pages : List (List ℕ)) → HasPages self.old pages → OnOk result (AreRings pages (settings_of self.old) (head_in self.old)) }
        ensures bad { IsHonest self.old → (pages : List (List ℕ)) → HasPages self.old pages
            → (page : ℕ) → result ≡ Err (CheckError.BadNode page) → IsBadPage pages (once_state self.old).settled (O.block_count (once_of self.old)) (root_in self.old) (applied_in self.old) (in_use_of self.old) page ⊎ IsBadRing pages (settings_of self.old) (head_in self.old) page }
        ensures damaged { IsHonest self.old → (pages : List (List ℕ)) → HasPages self.old pages
            → (block : ℕ) → result ≡ Err (CheckError.Damaged block) → IsBadBlock pages (once_state self.old).settled (O.block_count (once_of self.old)) (root_in self.old) block }
        ensures holds { (h : History) → RepresentsIfHonest self.old h → RepresentsIfHonest self.new h }
        ensures crash { (h : History) → Represents self.old h → Crashes self.old self.new (LeftRepresents (site_of self.old) h) }
        ensures lasts { (h : History) → ContinuesFrom self.old h → Lasts self.old self.new h }
        ensures still { IsHonest self.old → (h : History) → RepresentsIfHonest self.old h → (erase_state self.new).clock ≡ (erase_state self.old).clock }
        ensures usable { OnOk result (is_down self.old ≡ false) }
        ensures idle { is_down self.old ≡ true → (erase_of self.new ≡ erase_of self.old) × (once_state self.new ≡ once_state self.old) × (is_down self.new ≡ true) }
        ensures down { is_down self.new ≡ is_down self.old }
        ensures recovery { (result ≡ Err CheckError.NeedsRecovery) ↔ (is_down self.old ≡ true) }
        ensures honest { IsHonest self.old ↔ IsHonest self.new }
        ensures settings { settings_of self.new ≡ settings_of self.old }
        ensures disk { once_of self.new ≡ once_of self.old }
        ensures blocks { IsHonest self.old → once_state self.new ≡ once_state self.old }
    {
        self.try_check()
    }
}
