//! Answers questions over what is applied.

ghost use Rattle.std.specs.Prelude.{◌≡◌, ◌↔◌, ◌<◌, ◌≤◌, ℕ, List, length, map, IfOk, IfErr, OnOk, OnErr, Err, true, false};
ghost use Rattle.once_store.specs.Readers.{capacity_of, reader_disk};
ghost use Rattle.page_tx.specs.Device.{KeepsDevice};
ghost use Rattle.page_tx.specs.Start.{Start};
ghost use Rattle.route_model.specs.Admission.{Admitted};
ghost use Rattle.route_meaning.specs.History.{History, applied, least, settled};
ghost use Rattle.route_meaning.specs.Merged.{Placed};
ghost use Rattle.sequencer.specs.Lanes.{bound_of};
ghost use Rattle.interleaving_core.specs.Does.{last_moment};
ghost use Rattle.interleaving_core.specs.Headline.{IsAnswered};
ghost use Rattle.version_model.specs.Pages.{Store, TreeRepresents, all_keys};
ghost use Rattle.version_model.specs.Versions.{Version};
ghost use Rattle.tsb_walk.specs.Knowing.{ReadsWell};
ghost use Rattle.tsb_walk.specs.Shown.{RepresentNodes, RepresentsShown, keys_at};
ghost use Rattle.disk_archive.specs.inner.Asking.{BlamesNone, HasTree, LookRefusal};
ghost use Rattle.disk_archive.specs.Failures.{ReportsOne};

use crate::archive::Archive;
use crate::ask_error::{AskError, of_root};
use crate::committing::begin;
use archive_head::Head;
use disk_models::{EraseDisk, OnceDisk};
use interleaving_core::{Answer, Query};
use once_store::ShelfReader;
use page_tx::Pages;
use route_history::laws::versions_report;
use route_model::Moment;
use sequencer::Sequencer;
use std::alloc::Global;
use tree_questions::{events, rows};
use tsb_tree::open;
use tsb_walk::PagePlace;
use version_model::Stamp;

// How many blocks a question caches at most.
const KEPT_BLOCKS: usize = 64;

// That the last moment of a question is settled; or the settled watermark, if it isn't.
pub(crate) fn check_settled(sequencer: &Sequencer, query: &Query) -> Result<(), AskError>
    requires { 0 < length sequencer.now }
    ensures below { OnOk result (last_moment query.now < least (map bound_of sequencer.now)) }
    ensures above { IfErr result (λ e. (e ≡ AskError.AboveWatermark (least (map bound_of sequencer.now))) × (least (map bound_of sequencer.now) ≤ last_moment query.now)) }
{
    check_moment(sequencer, query.last_moment())
}

// The same of a moment.
pub(crate) fn check_moment(sequencer: &Sequencer, moment: Moment) -> Result<(), AskError>
    requires { 0 < length sequencer.now }
    ensures below { OnOk result (moment < least (map bound_of sequencer.now)) }
    ensures above { IfErr result (λ e. (e ≡ AskError.AboveWatermark (least (map bound_of sequencer.now))) × (least (map bound_of sequencer.now) ≤ moment)) }
{
    let settled = sequencer.settled();
    if moment.number() < settled.number() {
        Ok(())
    } else {
        Err(AskError::AboveWatermark(settled))
    }
}

// Where the root of the archive's tree lies.
pub(crate) fn root_of<P: Pages>(pages: &mut P, head: &Head) -> Result<PagePlace, AskError>
    ensures all { IfOk result (λ place. keys_at place ≡ all_keys) }
    ensures level { IfOk result (λ place. 1 ≤ place.level) }
    ensures represents_all { (start : Start) (shown : List (List ℕ)) (s : Store) (all : List Version) (level : ℕ) → P.shows pages.old start shown → RepresentNodes shown s.nodes → TreeRepresents s all head.now.root level → IfOk result (RepresentsShown shown s all) }
    ensures blames { (start : Start) (shown : List (List ℕ)) (s : Store) (all : List Version) (level : ℕ) → P.shows pages.old start shown → RepresentNodes shown s.nodes → TreeRepresents s all head.now.root level → IfErr result BlamesNone }
    ensures refused { IfErr result (LookRefusal (P.down pages.old)) }
    ensures undamaged { (block : ℕ) → result ≡ Err (AskError.Damaged block) → ⊥ }
    ensures reads { (start : Start) (shown : List (List ℕ)) → P.shows pages.old start shown → P.shows pages.new start shown }
    ensures homes { P.homes pages.new ≡ P.homes pages.old }
    ensures down { P.down pages.new ≡ P.down pages.old }
    ensures device { KeepsDevice (P.honest pages.old) (P.honest pages.new) (P.faults pages.old) (P.faults pages.new) (result ≡ Err AskError.Fault) }
    ensures honest { P.honest pages.old ↔ P.honest pages.new }
{
    let least = Stamp::new(0, 0);
    match open(pages, head.root, least) {
        Ok(place) => Ok(PagePlace::root(place.root, place.level)),
        Err(refusal) => Err(of_root(refusal)),
    }
}

// Answers a question over the archive's tree, by these pages and the blocks that the reader knows. No block from `burnt` on was ever burnt.
pub(crate) fn answer_by<P: Pages, O: OnceDisk + Drop>(
    alloc: Global,
    pages: &mut P,
    reader: &mut ShelfReader<O>,
    seen: &mut O::Seen,
    head: &Head,
    burnt: u64,
    query: Query,
) -> Result<Answer, AskError>
    requires burnt { head.now.block ≤ burnt }
    ensures answer { (ps : List (Placed Admitted)) → HasTree P.Pages pages.old O.OnceDisk reader.old seen.old head.now.root head.now.fresh head.now.block ps → IfOk result (IsAnswered ps query) }
    ensures blames { (ps : List (Placed Admitted)) → HasTree P.Pages pages.old O.OnceDisk reader.old seen.old head.now.root head.now.fresh head.now.block ps → IfErr result BlamesNone }
    ensures refused { IfErr result (LookRefusal (P.down pages.old)) }
    ensures reads { (start : Start) (shown : List (List ℕ)) → P.shows pages.old start shown → P.shows pages.new start shown }
    ensures homes { P.homes pages.new ≡ P.homes pages.old }
    ensures down { P.down pages.new ≡ P.down pages.old }
    ensures honest { P.honest pages.old ↔ P.honest pages.new }
    ensures keeps { (ps : List (Placed Admitted)) → HasTree P.Pages pages.old O.OnceDisk reader.old seen.old head.now.root head.now.fresh head.now.block ps → ReadsWell O.OnceDisk reader.new seen.new }
    ensures known { O.honest_seen (reader_disk reader.old) seen.old → O.known seen.new ≡ O.known seen.old }
    ensures disk { reader_disk reader.new ≡ reader_disk reader.old }
    ensures capacity { capacity_of reader.new ≡ capacity_of reader.old }
    ensures look { O.honest_seen (reader_disk reader.old) seen.old → O.honest_seen (reader_disk reader.old) seen.new }
    ensures failed { ReportsOne (P.faults pages.old) (P.faults pages.new) (O.seen_fault_count seen.old) (O.seen_fault_count seen.new) (result ≡ Err AskError.Fault) }
{
    versions_report();
    let root = root_of(pages, head)?;
    match query {
        Query::Rows(question) => {
            let answer = rows(pages, reader, seen, alloc, &root, burnt, question)?;
            Ok(Answer::Rows(answer))
        }
        Query::Events(question) => {
            // A call on each peer and prefix gives the proof its limits.
            let _len = question.peer.encoded_len();
            let _address = question.prefix.address();
            let answer = events(pages, reader, seen, alloc, &root, burnt, question)?;
            Ok(Answer::Events(answer))
        }
    }
}

impl<E: EraseDisk + Drop, O: OnceDisk + Drop> Archive<E, O> {
    ghost use Rattle.disk_archive.specs.Archives.{Represents, RepresentsIfHonest, ContinuesFrom, IsHonest, erase_of, erase_state, is_down, once_of, once_state, settings_of, site_of};
    ghost use Rattle.disk_archive.specs.Sites.{LeftRepresents, LeftEither};
    ghost use Rattle.disk_archive.specs.Crashes.{Crashes, Lasts};
    ghost use Rattle.disk_archive.specs.Failures.{ReportsFailure};
    ghost use Rattle.disk_archive.specs.inner.Idle.{IsAsBefore};

    // Answers a question if the archive represents a history.
    fn try_answer(&mut self, query: Query) -> Result<Answer, AskError>
        ensures usable { OnOk result (is_down self.old ≡ false) }
        ensures down { is_down self.new ≡ is_down self.old }
        ensures idle { is_down self.old ≡ true → IsAsBefore self.old self.new }
        ensures reported { is_down self.old ≡ true → result ≡ Err AskError.NeedsRecovery }
        ensures recovery { result ≡ Err AskError.NeedsRecovery → is_down self.old ≡ true }
        ensures honest { IsHonest self.old ↔ IsHonest self.new }
        ensures answered { IfOk result (λ answer. (h : History) → Represents self.old h → IsAnswered (applied h) query answer) }
        ensures below { OnOk result ((h : History) → Represents self.old h → last_moment query < settled h) }
        ensures above { (h : History) → Represents self.old h → (mark : ℕ) → result ≡ Err (AskError.AboveWatermark mark) → (mark ≡ settled h) × (settled h ≤ last_moment query) }
        ensures watermark { (h : History) → Represents self.old h → settled h ≤ last_moment query → result ≡ Err (AskError.AboveWatermark (settled h)) }
        ensures represents { (h : History) → Represents self.old h → Represents self.new h }
        ensures blames { (h : History) → Represents self.old h → IfErr result BlamesNone }
        ensures still { (h : History) → Represents self.old h → (erase_state self.new).clock ≡ (erase_state self.old).clock }
        ensures crash { (h : History) → Represents self.old h → Crashes self.old self.new (LeftEither (site_of self.old) h h) }
        ensures settings { settings_of self.new ≡ settings_of self.old }
        ensures disk { once_of self.new ≡ once_of self.old }
        ensures blocks { IsHonest self.old → once_state self.new ≡ once_state self.old }
        ensures failed { ReportsFailure self.old self.new (once_of self.old) (result ≡ Err AskError.Fault) }
    {
        let burnt = self.shelf.next();
        begin(&mut self.tx)?;
        check_settled(&self.sequencer, &query)?;
        let mut reader = self.shelf.reader(self.alloc, KEPT_BLOCKS)?;
        let mut seen = self.shelf.seen()?;
        let answer = answer_by(
            self.alloc,
            &mut self.tx,
            &mut reader,
            &mut seen,
            &self.head,
            burnt,
            query,
        )?;
        Ok(answer)
    }

    /// Answers a question over what is applied, if its last moment is below the settled watermark: the rows of a moment, or the
    /// events of a span, the first 256 and whether more follow.
    ///
    /// It looks from key to key, or from stamp to stamp, until the answer is complete. Nothing is written; pages and blocks are read, of
    /// which the pages stay in the archive's cache, and at most 64 blocks in one for the time of the call. `Fault` is returned exactly if a
    /// read, or the look at what is settled, failed. After each outcome the archive represents the same history as before.
    pub fn answer(&mut self, query: Query) -> Result<Answer, AskError>
        ensures answered { IfOk result (λ answer. IsHonest self.old → (h : History) → RepresentsIfHonest self.old h → IsAnswered (applied h) query answer) }
        ensures below { OnOk result (IsHonest self.old → (h : History) → RepresentsIfHonest self.old h → last_moment query < settled h) }
        ensures above { IsHonest self.old → (h : History) → RepresentsIfHonest self.old h → (mark : ℕ) → (result ≡ Err (AskError.AboveWatermark mark)) ↔ ((is_down self.old ≡ false) × (mark ≡ settled h) × (settled h ≤ last_moment query)) }
        ensures holds { (h : History) → RepresentsIfHonest self.old h → RepresentsIfHonest self.new h }
        ensures crash { (h : History) → Represents self.old h → Crashes self.old self.new (LeftRepresents (site_of self.old) h) }
        ensures lasts { (h : History) → ContinuesFrom self.old h → Lasts self.old self.new h }
        ensures still { IsHonest self.old → (h : History) → RepresentsIfHonest self.old h → (erase_state self.new).clock ≡ (erase_state self.old).clock }
        ensures usable { OnOk result (is_down self.old ≡ false) }
        ensures idle { is_down self.old ≡ true → (erase_of self.new ≡ erase_of self.old) × (once_state self.new ≡ once_state self.old) × (is_down self.new ≡ true) }
        ensures down { is_down self.new ≡ is_down self.old }
        ensures recovery { (result ≡ Err AskError.NeedsRecovery) ↔ (is_down self.old ≡ true) }
        ensures sound { IsHonest self.old → (h : History) → RepresentsIfHonest self.old h → (page : ℕ) → result ≡ Err (AskError.BadNode page) → ⊥ }
        ensures undamaged { IsHonest self.old → (h : History) → RepresentsIfHonest self.old h → (block : ℕ) → result ≡ Err (AskError.Damaged block) → ⊥ }
        ensures failed { ReportsFailure self.old self.new (once_of self.old) (result ≡ Err AskError.Fault) }
        ensures honest { IsHonest self.old ↔ IsHonest self.new }
        ensures settings { settings_of self.new ≡ settings_of self.old }
        ensures disk { once_of self.new ≡ once_of self.old }
        ensures blocks { IsHonest self.old → once_state self.new ≡ once_state self.old }
    {
        self.try_answer(query)
    }
}
