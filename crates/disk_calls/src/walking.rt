//! A walk over what changed, to its end.

ghost use Rattle.std.specs.Prelude.{◌≡◌, ◌↔◌, ◌<◌, ◌≤◌, ℕ, IfOk, OnOk, Err};
ghost use Rattle.route_meaning.specs.Changed.{IsChangedAnswer};
ghost use Rattle.route_meaning.specs.History.{History, applied, settled};
ghost use Rattle.disk_archive.specs.Archives.{RepresentsIfHonest, IsHonest, settings_of};
ghost use Rattle.disk_archive.specs.Reading.{ReadsFrom};

use disk_archive::{Archive, AskError};
use disk_models::{EraseDisk, OnceDisk};
use once_store::ShelfReader;
use route_meaning::{ChangedAnswer, ChangedQuestion};

/// Looks until the walk is over. Each look brings it closer to its end.
pub(crate) fn walk<E: EraseDisk + Drop, O: OnceDisk + Drop>(
    archive: &mut Archive<E, O>,
    reader: &mut ShelfReader<O>,
    question: ChangedQuestion,
) -> Result<ChangedAnswer, AskError>
    ensures answered { IfOk result (λ answer. IsHonest archive.old → (h : History) → RepresentsIfHonest archive.old h → ReadsFrom archive.old reader.old → IsChangedAnswer (applied h) question answer.spots.items answer.more) }
    ensures below { OnOk result (IsHonest archive.old → (h : History) → RepresentsIfHonest archive.old h → question.to < settled h) }
    ensures above { IsHonest archive.old → (h : History) → RepresentsIfHonest archive.old h → (mark : ℕ) → result ≡ Err (AskError.AboveWatermark mark) → (mark ≡ settled h) × (settled h ≤ question.to) }
    ensures holds { (h : History) → RepresentsIfHonest archive.old h → RepresentsIfHonest archive.new h }
    ensures reads { IsHonest archive.old → (h : History) → RepresentsIfHonest archive.old h → ReadsFrom archive.old reader.old → ReadsFrom archive.new reader.new }
    ensures honest { IsHonest archive.old ↔ IsHonest archive.new }
    ensures settings { settings_of archive.new ≡ settings_of archive.old }
{
    let mut cursor = archive.start_walk(question);
    'looks: loop {
        if let Some(answer) = archive.changed_look(reader, &mut cursor)? {
            return Ok(answer);
        }
    }
}
