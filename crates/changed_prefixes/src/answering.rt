//! The answer to a question of what changed.

ghost use Rattle.std.specs.Prelude.{◌≡◌, IfOk};
ghost use Rattle.std.specs.BTreeMap.{IsOrdered, values};
ghost use Rattle.std.specs.Ordering.{nat_cmp};
ghost use Rattle.route_meaning.specs.Changed.{IsChangedAnswer};
ghost use Rattle.changed_prefixes.specs.inner.Gathered.{AreAllChanged};

use crate::gathering::{Table, gathered};
use route_meaning::{ChangedAnswer, ChangedQuestion, MAX_ROWS, PlacedAdmission, Spot};
use std::alloc::{AllocError, Global};

// The spots of the table, in its order.
fn spots_in(alloc: Global, table: &Table) -> Result<Vec<Spot>, AllocError>
    ensures spots { IfOk result (λ spots. spots.items ≡ values table.now) }
    ensures order { IsOrdered nat_cmp table.now }
{
    table.values().copied().collect(alloc)
}

// All spots of the question, in their order.
fn changed_spots(
    alloc: Global,
    list: &[PlacedAdmission],
    question: &ChangedQuestion,
) -> Result<Vec<Spot>, AllocError>
    ensures { IfOk result (λ spots. AreAllChanged list.now question.now spots.items) }
{
    let table = gathered(alloc, list, question)?;
    spots_in(alloc, &table)
}

/// The answer to the question: the first of its spots, at most [`MAX_ROWS`], and whether more follow. The list is in the one order of
/// the collectors, as [`route_meaning::merge`] gives it.
pub fn answer_changed(
    alloc: Global,
    list: &[PlacedAdmission],
    question: &ChangedQuestion,
) -> Result<ChangedAnswer, AllocError>
    ensures answer { IfOk result (λ answer. IsChangedAnswer list.now question.now answer.spots.items answer.more) }
{
    // All are gathered before the cut: the span bounds them.
    let mut spots = changed_spots(alloc, list, question)?;
    let more = spots.len() > MAX_ROWS;
    spots.truncate(MAX_ROWS);
    Ok(ChangedAnswer { spots, more })
}
