//! Answers questions by a reader that goes on caching the blocks that it read.

ghost use Rattle.std.specs.Prelude.{◌≡◌, ◌↔◌, ◌<◌, ◌≤◌, ℕ, IfOk, IfErr, OnOk, Err, true, false};
ghost use Rattle.once_store.specs.Readers.{capacity_of, reader_disk};
ghost use Rattle.route_meaning.specs.History.{History, applied, settled};
ghost use Rattle.interleaving_core.specs.Does.{last_moment};
ghost use Rattle.interleaving_core.specs.Headline.{IsAnswered};
ghost use Rattle.disk_archive.specs.inner.Asking.{BlamesNone};

use crate::answering::{answer_by, check_settled};
use crate::archive::Archive;
use crate::ask_error::AskError;
use crate::committing::begin;
use disk_models::{EraseDisk, OnceDisk};
use interleaving_core::{Answer, Query};
use once_store::ShelfReader;

impl<E: EraseDisk + Drop, O: OnceDisk + Drop> Archive<E, O> {
    ghost use Rattle.disk_archive.specs.Archives.{Represents, RepresentsIfHonest, ContinuesFrom, IsHonest, erase_of, erase_state, is_down, once_of, once_state, settings_of, site_of};
    ghost use Rattle.disk_archive.specs.Sites.{LeftRepresents, LeftEither};
    ghost use Rattle.disk_archive.specs.Crashes.{Crashes, Lasts};
    ghost use Rattle.disk_archive.specs.Failures.{ReportsFailure};
    ghost use Rattle.disk_archive.specs.Reading.{ReadsFrom};
    ghost use Rattle.disk_archive.specs.inner.Idle.{IsAsBefore};

    // Answers a question by a reader of its blocks, if the archive represents a history.
    fn try_answer_with(
        &mut self,
        reader: &mut ShelfReader<O>,
        query: Query,
    ) -> Result<Answer, AskError>
        ensures usable { OnOk result (is_down self.old ≡ false) }
        ensures down { is_down self.new ≡ is_down self.old }
        ensures idle { is_down self.old ≡ true → IsAsBefore self.old self.new }
        ensures unread { is_down self.old ≡ true → reader.new ≡ reader.old }
        ensures reported { is_down self.old ≡ true → result ≡ Err AskError.NeedsRecovery }
        ensures recovery { result ≡ Err AskError.NeedsRecovery → is_down self.old ≡ true }
        ensures honest { IsHonest self.old ↔ IsHonest self.new }
        ensures answered { IfOk result (λ answer. (h : History) → Represents self.old h → ReadsFrom self.old reader.old → IsAnswered (applied h) query answer) }
        ensures below { OnOk result ((h : History) → Represents self.old h → last_moment query < settled h) }
        ensures above { (h : History) → Represents self.old h → (mark : ℕ) → result ≡ Err (AskError.AboveWatermark mark) → (mark ≡ settled h) × (settled h ≤ last_moment query) }
        ensures watermark { (h : History) → Represents self.old h → settled h ≤ last_moment query → result ≡ Err (AskError.AboveWatermark (settled h)) }
        ensures represents { (h : History) → Represents self.old h → Represents self.new h }
        ensures blames { (h : History) → Represents self.old h → ReadsFrom self.old reader.old → IfErr result BlamesNone }
        ensures still { (h : History) → Represents self.old h → (erase_state self.new).clock ≡ (erase_state self.old).clock }
        ensures crash { (h : History) → Represents self.old h → Crashes self.old self.new (LeftEither (site_of self.old) h h) }
        ensures settings { settings_of self.new ≡ settings_of self.old }
        ensures disk { once_of self.new ≡ once_of self.old }
        ensures blocks { IsHonest self.old → once_state self.new ≡ once_state self.old }
        ensures reads { (h : History) → Represents self.old h → ReadsFrom self.old reader.old → ReadsFrom self.new reader.new }
        ensures capacity { capacity_of reader.new ≡ capacity_of reader.old }
        ensures failed { ReportsFailure self.old self.new (reader_disk reader.old) (result ≡ Err AskError.Fault) }
    {
        let burnt = self.shelf.next();
        begin(&mut self.tx)?;
        check_settled(&self.sequencer, &query)?;
        let mut seen = self.shelf.seen()?;
        let answer = answer_by(
            self.alloc,
            &mut self.tx,
            reader,
            &mut seen,
            &self.head,
            burnt,
            query,
        )?;
        Ok(answer)
    }

    /// Answers a question as `answer` does, by a reader of the archive's blocks that goes on caching them: questions that come to
    /// the same blocks read each of them once.
    ///
    /// The reader is one of this archive, however many calls old, and is used only for its blocks: what is settled never changes.
    /// `Fault` is returned exactly if a read, or the look at what is settled, failed.
    pub fn answer_with(
        &mut self,
        reader: &mut ShelfReader<O>,
        query: Query,
    ) -> Result<Answer, AskError>
        ensures answered { IfOk result (λ answer. IsHonest self.old → (h : History) → RepresentsIfHonest self.old h → ReadsFrom self.old reader.old → IsAnswered (applied h) query answer) }
        ensures reads { IsHonest self.old → (h : History) → RepresentsIfHonest self.old h → ReadsFrom self.old reader.old → ReadsFrom self.new reader.new }
        ensures capacity { capacity_of reader.new ≡ capacity_of reader.old }
        ensures below { OnOk result (IsHonest self.old → (h : History) → RepresentsIfHonest self.old h → last_moment query < settled h) }
        ensures above { IsHonest self.old → (h : History) → RepresentsIfHonest self.old h → (mark : ℕ) → (result ≡ Err (AskError.AboveWatermark mark)) ↔ ((is_down self.old ≡ false) × (mark ≡ settled h) × (settled h ≤ last_moment query)) }
        ensures holds { (h : History) → RepresentsIfHonest self.old h → RepresentsIfHonest self.new h }
        ensures crash { (h : History) → Represents self.old h → Crashes self.old self.new (LeftRepresents (site_of self.old) h) }
        ensures lasts { (h : History) → ContinuesFrom self.old h → Lasts self.old self.new h }
        ensures still { IsHonest self.old → (h : History) → RepresentsIfHonest self.old h → (erase_state self.new).clock ≡ (erase_state self.old).clock }
        ensures usable { OnOk result (is_down self.old ≡ false) }
        ensures idle { is_down self.old ≡ true → (erase_of self.new ≡ erase_of self.old) × (once_state self.new ≡ once_state self.old) × (is_down self.new ≡ true) }
        ensures down { is_down self.new ≡ is_down self.old }
        ensures recovery { (result ≡ Err AskError.NeedsRecovery) ↔ (is_down self.old ≡ true) }
        ensures sound { IsHonest self.old → (h : History) → RepresentsIfHonest self.old h → ReadsFrom self.old reader.old → (page : ℕ) → result ≡ Err (AskError.BadNode page) → ⊥ }
        ensures undamaged { IsHonest self.old → (h : History) → RepresentsIfHonest self.old h → ReadsFrom self.old reader.old → (block : ℕ) → result ≡ Err (AskError.Damaged block) → ⊥ }
        ensures failed { ReportsFailure self.old self.new (reader_disk reader.old) (result ≡ Err AskError.Fault) }
        ensures honest { IsHonest self.old ↔ IsHonest self.new }
        ensures settings { settings_of self.new ≡ settings_of self.old }
        ensures disk { once_of self.new ≡ once_of self.old }
        ensures blocks { IsHonest self.old → once_state self.new ≡ once_state self.old }
    {
        self.try_answer_with(reader, query)
    }
}
