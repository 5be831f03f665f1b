//! An archive, as questions use it.

ghost use Rattle.std.specs.Prelude.{◌≡◌};
ghost use Rattle.route_meaning.specs.History.{History, IsHistory, settled};
ghost use Rattle.archive_calls.specs.Does.{IsAnswerOf, IsChangedAnswerOf};

use crate::refusal::AskError;
use interleaving_core::{Answer, Query};
use route_meaning::{ChangedAnswer, ChangedQuestion};
use route_model::Mark;

/// What answers questions: an archive with one owner, or one that is reached by lines of text and represents no history.
pub trait RouteSource {
    /// The archive represents this history. After a failed write or sync it is the history from before the failed call; what
    /// is found when the archive is opened again goes on from it.
    ghost represents: { Self → History → Type 0 };

    /// The settled watermark: a question of a moment below it is answered.
    fn settled(&self) -> Mark
        ensures settled { (h : History) → represents self.now h → result ≡ settled h };

    /// Answers a question whose last moment is below the settled watermark.
    fn answer(&mut self, query: Query) -> Result<Answer, AskError>
        ensures done { (h : History) → represents self.old h → IsAnswerOf h query result }
        ensures represents { (h : History) → represents self.old h → represents self.new h };

    /// Which prefixes were announced or withdrawn in a span whose last moment is below the settled watermark.
    fn changed(&mut self, question: ChangedQuestion) -> Result<ChangedAnswer, AskError>
        ensures done { (h : History) → represents self.old h → IsChangedAnswerOf h question result }
        ensures represents { (h : History) → represents self.old h → represents self.new h };

    /// A history that is represented is right.
    ghost right: { (archive : Self) (h : History) → represents archive h → IsHistory h };
}
