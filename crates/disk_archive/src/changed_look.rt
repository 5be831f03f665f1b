//! Looks of a walk over what changed in a span, over what is applied.

ghost use Rattle.std.specs.Prelude.{◌≡◌, ◌↔◌, ◌<◌, ◌≤◌, ℕ, List, IfOk, IfErr, IfNone, IfSome, OnOk, Err, true, false};
ghost use Rattle.once_store.specs.Readers.{capacity_of, reader_disk};
ghost use Rattle.page_tx.specs.Start.{Start};
ghost use Rattle.route_model.specs.Admission.{Admitted};
ghost use Rattle.route_meaning.specs.Changed.{IsChangedAnswer};
ghost use Rattle.route_meaning.specs.History.{History, applied, settled};
ghost use Rattle.route_meaning.specs.Merged.{Placed};
ghost use Rattle.route_history.specs.Changes.{HasChangedSo};
ghost use Rattle.route_history.specs.Walks.{left_of};
ghost use Rattle.tsb_walk.specs.Inside.{CachesInside};
ghost use Rattle.tsb_walk.specs.Knowing.{ReadsWell};
ghost use Rattle.disk_archive.specs.Cursors.{IsWalked};
ghost use Rattle.disk_archive.specs.Failures.{ReportsOne};
ghost use Rattle.disk_archive.specs.inner.Asking.{BlamesNone, HasTree, LookRefusal};

use crate::answering::{check_moment, root_of};
use crate::archive::Archive;
use crate::ask_error::AskError;
use crate::committing::begin;
use archive_head::Head;
use disk_models::{EraseDisk, OnceDisk};
use once_store::ShelfReader;
use page_tx::Pages;
use route_history::ChangedCursor;
use route_history::laws::{gathered_follows_histories, versions_report};
use route_meaning::{ChangedAnswer, ChangedQuestion};
use std::alloc::Global;
use tree_questions::changed_look;

// A look by the archive's tree, by these pages and the blocks that the reader knows. No block from `burnt` on was ever burnt.
fn look_by<P: Pages, O: OnceDisk + Drop>(
    alloc: Global,
    pages: &mut P,
    reader: &mut ShelfReader<O>,
    seen: &mut O::Seen,
    head: &Head,
    burnt: u64,
    cursor: &mut ChangedCursor,
) -> Result<Option<ChangedAnswer>, AskError>
    requires burnt { head.now.block ≤ burnt }
    ensures changed { (ps : List (Placed Admitted)) → HasTree P.Pages pages.old O.OnceDisk reader.old seen.old head.now.root head.now.fresh head.now.block ps → HasChangedSo ps cursor.old → IfOk result (λ found. IfNone found (HasChangedSo ps cursor.new)) }
    ensures answer { (ps : List (Placed Admitted)) → HasTree P.Pages pages.old O.OnceDisk reader.old seen.old head.now.root head.now.fresh head.now.block ps → HasChangedSo ps cursor.old → IfOk result (λ found. IfSome found (λ answer. IsChangedAnswer ps cursor.old.question answer.spots.items answer.more)) }
    ensures onward { IfOk result (λ found. IfNone found (left_of cursor.new.front < left_of cursor.old.front)) }
    ensures question { cursor.new.question ≡ cursor.old.question }
    ensures blames { (ps : List (Placed Admitted)) → HasTree P.Pages pages.old O.OnceDisk reader.old seen.old head.now.root head.now.fresh head.now.block ps → IfErr result BlamesNone }
    ensures refused { IfErr result (LookRefusal (P.down pages.old)) }
    ensures reads { (start : Start) (shown : List (List ℕ)) → P.shows pages.old start shown → P.shows pages.new start shown }
    ensures homes { P.homes pages.new ≡ P.homes pages.old }
    ensures down { P.down pages.new ≡ P.down pages.old }
    ensures honest { P.honest pages.old ↔ P.honest pages.new }
    ensures keeps { (ps : List (Placed Admitted)) → HasTree P.Pages pages.old O.OnceDisk reader.old seen.old head.now.root head.now.fresh head.now.block ps → ReadsWell O.OnceDisk reader.new seen.new }
    ensures on_disk { CachesInside O.OnceDisk reader.old → CachesInside O.OnceDisk reader.new }
    ensures known { O.honest_seen (reader_disk reader.old) seen.old → O.known seen.new ≡ O.known seen.old }
    ensures disk { reader_disk reader.new ≡ reader_disk reader.old }
    ensures capacity { capacity_of reader.new ≡ capacity_of reader.old }
    ensures look { O.honest_seen (reader_disk reader.old) seen.old → O.honest_seen (reader_disk reader.old) seen.new }
    ensures failed { ReportsOne (P.faults pages.old) (P.faults pages.new) (O.seen_fault_count seen.old) (O.seen_fault_count seen.new) (result ≡ Err AskError.Fault) }
{
    versions_report();
    let root = root_of(pages, head)?;
    let found = changed_look(pages, reader, seen, alloc, &root, burnt, cursor)?;
    Ok(found)
}

/// The start of a walk over what changed in a span. It needs no disk and no memory.
pub fn start_walk(alloc: Global, question: ChangedQuestion) -> ChangedCursor
    ensures question { result.question ≡ question }
    ensures walked { (h : History) → IsWalked result h }
{
    versions_report();
    ChangedCursor::start(alloc, question)
}

impl<E: EraseDisk + Drop, O: OnceDisk + Drop> Archive<E, O> {
    ghost use Rattle.disk_archive.specs.Archives.{Represents, RepresentsIfHonest, IsHonest, erase_state, is_down, once_of, once_state, settings_of, site_of};
    ghost use Rattle.disk_archive.specs.Sites.{LeftEither};
    ghost use Rattle.disk_archive.specs.Crashes.{Crashes};
    ghost use Rattle.disk_archive.specs.Failures.{ReportsFailure};
    ghost use Rattle.disk_archive.specs.Reading.{LeavesArchive, ReadsFrom};
    ghost use Rattle.disk_archive.specs.inner.Idle.{IsAsBefore};

    /// The start of a walk over what changed in a span. It needs no disk and no memory.
    pub fn start_walk(&self, question: ChangedQuestion) -> ChangedCursor
        ensures question { result.question ≡ question }
        ensures walked { (h : History) → IsWalked result h }
    {
        start_walk(self.alloc, question)
    }

    // A look of a walk, by a reader of its blocks, if the archive represents a history.
    fn try_changed_look(
        &mut self,
        reader: &mut ShelfReader<O>,
        cursor: &mut ChangedCursor,
    ) -> Result<Option<ChangedAnswer>, AskError>
        ensures usable { OnOk result (is_down self.old ≡ false) }
        ensures down { is_down self.new ≡ is_down self.old }
        ensures idle { is_down self.old ≡ true → IsAsBefore self.old self.new }
        ensures unread { is_down self.old ≡ true → reader.new ≡ reader.old }
        ensures reported { is_down self.old ≡ true → result ≡ Err AskError.NeedsRecovery }
        ensures recovery { result ≡ Err AskError.NeedsRecovery → is_down self.old ≡ true }
        ensures honest { IsHonest self.old ↔ IsHonest self.new }
        ensures walked { IfOk result (λ found. (h : History) → Represents self.old h → ReadsFrom self.old reader.old → IsWalked cursor.old h → IfNone found (IsWalked cursor.new h)) }
        ensures answer { IfOk result (λ found. (h : History) → Represents self.old h → ReadsFrom self.old reader.old → IsWalked cursor.old h → IfSome found (λ answer. IsChangedAnswer (applied h) cursor.old.question answer.spots.items answer.more)) }
        ensures onward { IfOk result (λ found. IfNone found (left_of cursor.new.front < left_of cursor.old.front)) }
        ensures question { cursor.new.question ≡ cursor.old.question }
        ensures below { OnOk result ((h : History) → Represents self.old h → cursor.old.question.to < settled h) }
        ensures above { (h : History) → Represents self.old h → (mark : ℕ) → result ≡ Err (AskError.AboveWatermark mark) → (mark ≡ settled h) × (settled h ≤ cursor.old.question.to) }
        ensures watermark { (h : History) → Represents self.old h → settled h ≤ cursor.old.question.to → result ≡ Err (AskError.AboveWatermark (settled h)) }
        ensures represents { (h : History) → Represents self.old h → Represents self.new h }
        ensures blames { (h : History) → Represents self.old h → ReadsFrom self.old reader.old → IfErr result BlamesNone }
        ensures still { (h : History) → Represents self.old h → (erase_state self.new).clock ≡ (erase_state self.old).clock }
        ensures crash { (h : History) → Represents self.old h → Crashes self.old self.new (LeftEither (site_of self.old) h h) }
        ensures settings { settings_of self.new ≡ settings_of self.old }
        ensures disk { once_of self.new ≡ once_of self.old }
        ensures blocks { IsHonest self.old → once_state self.new ≡ once_state self.old }
        ensures reads { (h : History) → Represents self.old h → ReadsFrom self.old reader.old → ReadsFrom self.new reader.new }
        ensures on_disk { CachesInside O.OnceDisk reader.old → CachesInside O.OnceDisk reader.new }
        ensures same_disk { reader_disk reader.new ≡ reader_disk reader.old }
        ensures capacity { capacity_of reader.new ≡ capacity_of reader.old }
        ensures failed { ReportsFailure self.old self.new (reader_disk reader.old) (result ≡ Err AskError.Fault) }
    {
        gathered_follows_histories();
        let burnt = self.shelf.next();
        begin(&mut self.tx)?;
        check_moment(&self.sequencer, cursor.question.to)?;
        let mut seen = self.shelf.seen()?;
        let found = look_by(
            self.alloc,
            &mut self.tx,
            reader,
            &mut seen,
            &self.head,
            burnt,
            cursor,
        )?;
        Ok(found)
    }

    /// A look of a walk over which prefixes were announced or withdrawn in a span of what is applied, if its last moment is below the
    /// settled watermark: at the keys of one column of the tree, of which it reads what the span meets. Once the walk is over, a look returns the
    /// answer: the first 256 spots above the one after which they are asked for, and whether more follow.
    ///
    /// The reader is as [`Archive::answer_with`] has it. What the walk has gathered so far stays right, whatever was called since its last
    /// look; each look brings it closer to its end, also in a damaged archive. Nothing is written. A walk ends with its first refusal.
    pub fn changed_look(
        &mut self,
        reader: &mut ShelfReader<O>,
        cursor: &mut ChangedCursor,
    ) -> Result<Option<ChangedAnswer>, AskError>
        ensures walked { IfOk result (λ found. IsHonest self.old → (h : History) → RepresentsIfHonest self.old h → ReadsFrom self.old reader.old → IsWalked cursor.old h → IfNone found (IsWalked cursor.new h)) }
        ensures answer { IfOk result (λ found. IsHonest self.old → (h : History) → RepresentsIfHonest self.old h → ReadsFrom self.old reader.old → IsWalked cursor.old h → IfSome found (λ answer. IsChangedAnswer (applied h) cursor.old.question answer.spots.items answer.more)) }
        ensures onward { IfOk result (λ found. IfNone found (left_of cursor.new.front < left_of cursor.old.front)) }
        ensures question { cursor.new.question ≡ cursor.old.question }
        ensures reads { IsHonest self.old → (h : History) → RepresentsIfHonest self.old h → ReadsFrom self.old reader.old → ReadsFrom self.new reader.new }
        ensures on_disk { CachesInside O.OnceDisk reader.old → CachesInside O.OnceDisk reader.new }
        ensures same_disk { reader_disk reader.new ≡ reader_disk reader.old }
        ensures capacity { capacity_of reader.new ≡ capacity_of reader.old }
        ensures below { OnOk result (IsHonest self.old → (h : History) → RepresentsIfHonest self.old h → cursor.old.question.to < settled h) }
        ensures above { IsHonest self.old → (h : History) → RepresentsIfHonest self.old h → (mark : ℕ) → (result ≡ Err (AskError.AboveWatermark mark)) ↔ ((is_down self.old ≡ false) × (mark ≡ settled h) × (settled h ≤ cursor.old.question.to)) }
        ensures recovery { (result ≡ Err AskError.NeedsRecovery) ↔ (is_down self.old ≡ true) }
        ensures sound { IsHonest self.old → (h : History) → RepresentsIfHonest self.old h → ReadsFrom self.old reader.old → (page : ℕ) → result ≡ Err (AskError.BadNode page) → ⊥ }
        ensures undamaged { IsHonest self.old → (h : History) → RepresentsIfHonest self.old h → ReadsFrom self.old reader.old → (block : ℕ) → result ≡ Err (AskError.Damaged block) → ⊥ }
        ensures failed { ReportsFailure self.old self.new (reader_disk reader.old) (result ≡ Err AskError.Fault) }
        ensures leaves { LeavesArchive self.old self.new }
    {
        self.try_changed_look(reader, cursor)
    }
}
