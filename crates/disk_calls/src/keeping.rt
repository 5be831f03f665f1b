//! The blocks that questions keep.

ghost use Rattle.std.specs.Prelude.{◌≡◌, ◌↔◌, ◌<◌, ◌≤◌, ℕ, IfOk, OnOk, Err, false};
ghost use Rattle.route_meaning.specs.Changed.{IsChangedAnswer};
ghost use Rattle.route_meaning.specs.History.{History, applied, settled};
ghost use Rattle.interleaving_core.specs.Does.{last_moment};
ghost use Rattle.interleaving_core.specs.Headline.{IsAnswered};
ghost use Rattle.disk_archive.specs.Archives.{RepresentsIfHonest, IsHonest, is_down, settings_of};
ghost use Rattle.disk_calls.specs.Represented.{KeepsFrom};

use crate::walking::walk;
use disk_archive::{Archive, AskError};
use disk_models::{EraseDisk, OnceDisk};
use interleaving_core::{Answer, Query};
use once_store::ShelfReader;
use route_meaning::{ChangedAnswer, ChangedQuestion};

/// How many blocks are kept in memory at most, of 16,384 octets each.
const KEPT_BLOCKS: usize = 1_024;

/// A reader of an archive's blocks that keeps none yet, if there is memory for one.
pub(crate) fn reader_of<E: EraseDisk + Drop, O: OnceDisk + Drop>(
    archive: &Archive<E, O>,
) -> Option<ShelfReader<O>>
    ensures own { KeepsFrom archive.now result }
{
    archive.reader(KEPT_BLOCKS).ok()
}

/// Answers a question of an archive by a reader of its blocks, which keeps those that it reads. Without one they are read anew.
pub(crate) fn answer_by<E: EraseDisk + Drop, O: OnceDisk + Drop>(
    archive: &mut Archive<E, O>,
    reader: &mut Option<ShelfReader<O>>,
    query: Query,
) -> Result<Answer, AskError>
    ensures answered { IfOk result (λ answer. IsHonest archive.old → (h : History) → RepresentsIfHonest archive.old h → KeepsFrom archive.old reader.old → IsAnswered (applied h) query answer) }
    ensures below { OnOk result (IsHonest archive.old → (h : History) → RepresentsIfHonest archive.old h → last_moment query < settled h) }
    ensures above { IsHonest archive.old → (h : History) → RepresentsIfHonest archive.old h → (mark : ℕ) → (result ≡ Err (AskError.AboveWatermark mark)) ↔ ((is_down archive.old ≡ false) × (mark ≡ settled h) × (settled h ≤ last_moment query)) }
    ensures holds { (h : History) → RepresentsIfHonest archive.old h → RepresentsIfHonest archive.new h }
    ensures reads { IsHonest archive.old → (h : History) → RepresentsIfHonest archive.old h → KeepsFrom archive.old reader.old → KeepsFrom archive.new reader.new }
    ensures honest { IsHonest archive.old ↔ IsHonest archive.new }
    ensures settings { settings_of archive.new ≡ settings_of archive.old }
{
    match reader {
        Some(reader) => archive.answer_with(reader, query),
        None => archive.answer(query),
    }
}

/// Which prefixes changed, by the same reader. Without one, which memory was refused, so is this.
pub(crate) fn changed_by<E: EraseDisk + Drop, O: OnceDisk + Drop>(
    archive: &mut Archive<E, O>,
    reader: &mut Option<ShelfReader<O>>,
    question: ChangedQuestion,
) -> Result<ChangedAnswer, AskError>
    ensures answered { IfOk result (λ answer. IsHonest archive.old → (h : History) → RepresentsIfHonest archive.old h → KeepsFrom archive.old reader.old → IsChangedAnswer (applied h) question answer.spots.items answer.more) }
    ensures below { OnOk result (IsHonest archive.old → (h : History) → RepresentsIfHonest archive.old h → question.to < settled h) }
    ensures above { IsHonest archive.old → (h : History) → RepresentsIfHonest archive.old h → (mark : ℕ) → result ≡ Err (AskError.AboveWatermark mark) → (mark ≡ settled h) × (settled h ≤ question.to) }
    ensures holds { (h : History) → RepresentsIfHonest archive.old h → RepresentsIfHonest archive.new h }
    ensures reads { IsHonest archive.old → (h : History) → RepresentsIfHonest archive.old h → KeepsFrom archive.old reader.old → KeepsFrom archive.new reader.new }
    ensures honest { IsHonest archive.old ↔ IsHonest archive.new }
    ensures settings { settings_of archive.new ≡ settings_of archive.old }
{
    match reader {
        Some(reader) => walk(archive, reader, question),
        None => Err(AskError::OutOfMemory),
    }
}
