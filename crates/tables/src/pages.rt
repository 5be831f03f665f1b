//! The answers to a question, page after page.

ghost use Rattle.std.specs.Prelude.{◌<◌, Err, IfOk, IfErr};
ghost use Rattle.archive_calls.specs.Does.{IsAnswerOf};
ghost use Rattle.route_meaning.specs.History.{History, applied, settled};
ghost use Rattle.route_meaning.specs.Rows.{IsAnswer};
ghost use Rattle.route_meaning.specs.Events.{IsEventsAnswer};

use archive_calls::{AskError, RouteSource, Trouble};
use interleaving_core::{Answer, Query};
use route_meaning::{EventsAnswer, EventsQuestion, Row, RowsAnswer, RowsQuestion, Select, Spot};
use route_model::Moment;

/// The first rows of a question, 256 at most, and whether more follow.
pub(crate) fn rows_page<A: RouteSource>(
    archive: &mut A,
    question: RowsQuestion,
) -> Result<RowsAnswer, AskError>
    ensures answered { (h : History) → A.represents archive.old h → IfOk result (λ answer. (question.moment < settled h) × IsAnswer (applied h) question answer.rows.items answer.more) }
    ensures refused { (h : History) → A.represents archive.old h → IfErr result (λ why. IsAnswerOf h (Query.Rows question) (Err why)) }
    ensures kept { (h : History) → A.represents archive.old h → A.represents archive.new h }
{
    match archive.answer(Query::Rows(question)) {
        Ok(Answer::Rows(answer)) => Ok(answer),
        // No archive that represents a history answers so.
        Ok(Answer::Events(_)) => Err(AskError::Trouble(Trouble::Fault)),
        Err(why) => Err(why),
    }
}

/// The first events of a question, 256 at most, and whether more follow.
pub(crate) fn events_page<A: RouteSource>(
    archive: &mut A,
    question: EventsQuestion,
) -> Result<EventsAnswer, AskError>
    ensures answered { (h : History) → A.represents archive.old h → IfOk result (λ answer. (question.to < settled h) × IsEventsAnswer (applied h) question answer.events.items answer.more) }
    ensures refused { (h : History) → A.represents archive.old h → IfErr result (λ why. IsAnswerOf h (Query.Events question) (Err why)) }
    ensures kept { (h : History) → A.represents archive.old h → A.represents archive.new h }
{
    match archive.answer(Query::Events(question)) {
        Ok(Answer::Events(answer)) => Ok(answer),
        // No archive that represents a history answers so.
        Ok(Answer::Rows(_)) => Err(AskError::Trouble(Trouble::Fault)),
        Err(why) => Err(why),
    }
}

/// The row of a place at a moment, if it has a route then.
pub(crate) fn row_at<A: RouteSource>(
    archive: &mut A,
    moment: Moment,
    place: &Spot,
) -> Result<Option<Row>, AskError>
    ensures kept { (h : History) → A.represents archive.old h → A.represents archive.new h }
{
    let question = RowsQuestion {
        moment,
        select: Select::Route(place.peer, place.prefix),
        after: None,
    };
    let mut answer = rows_page(archive, question)?;
    Ok(answer.rows.pop())
}

/// The question of the rows after those of an answer, if more follow.
pub(crate) fn question_after(question: &RowsQuestion, answer: &RowsAnswer) -> Option<RowsQuestion> {
    if !answer.more {
        return None;
    }
    match answer.rows.last() {
        Some(last) => Some(RowsQuestion {
            moment: question.moment,
            select: question.select,
            after: Some(Spot {
                peer: last.peer,
                prefix: last.prefix,
            }),
        }),
        None => None,
    }
}
