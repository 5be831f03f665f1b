//! The spots that changed in a span, gathered from a list of admissions.

ghost use Rattle.std.specs.Prelude.{◌≡◌, ◌+◌, ◌≤◌, ◌<◌, ◌∷◌, ◌++◌, ◌↔◌, [], List, IfOk, OnOk, IsTrue};
ghost use Rattle.route_model.specs.declared.change.Change.{Change};
ghost use Rattle.route_model.specs.Admission.{IsChange};
ghost use Rattle.route_model.specs.PeerKeys.{first_key, tail};
ghost use Rattle.route_meaning.specs.Events.{between};
ghost use Rattle.route_meaning.specs.Holds.{changes_of};
ghost use Rattle.route_meaning.specs.Rows.{IsAbove};
ghost use Rattle.changed_prefixes.specs.inner.Gathered.{HasGathered, IsAskedFor, spot_of};

use route_meaning::{ChangedQuestion, PlacedAdmission, Spot};
use route_model::{Admission, Change, Key};
use std::alloc::{AllocError, Global};
use std::collections::BTreeMap;

/// The spots that changed, each under the key of its prefix.
pub(crate) type Table = BTreeMap<Key, Spot>;

// The spot that the change announces or withdraws; the end of a session is of none.
fn spot_of(change: &Change) -> Option<Spot>
    ensures { result ≡ spot_of change.now }
{
    match change {
        Change::Announce(peer, prefix, _) => Some(Spot {
            peer: *peer,
            prefix: *prefix,
        }),
        Change::Withdraw(peer, prefix) => Some(Spot {
            peer: *peer,
            prefix: *prefix,
        }),
        Change::Down(_) => None,
    }
}

// Is the key above the spot?
fn is_above(after: &Option<Spot>, key: Key) -> bool
    ensures { IsTrue result ↔ IsAbove after.now key }
{
    match after {
        Some(spot) => Key::prefix(&spot.peer, &spot.prefix) < key,
        None => true,
    }
}

// Is the key one from the first to the last that its peer has of the prefixes that are asked for?
fn is_within(question: &ChangedQuestion, key: Key) -> bool
    ensures { IsTrue result ↔ ((first_key key + tail question.now.low ≤ key) × (key ≤ first_key key + tail question.now.high)) }
{
    key.of_prefix(&question.low) <= key && key <= key.of_prefix(&question.high)
}

// Does the question ask for the spot?
fn is_asked_for(question: &ChangedQuestion, spot: &Spot) -> bool
    ensures { IsTrue result ↔ IsAskedFor question.now spot.now }
{
    let _address = spot.prefix.address();
    let key = Key::prefix(&spot.peer, &spot.prefix);
    is_within(question, key) && is_above(&question.after, key)
}

// Takes one change in.
fn take_change(
    table: &mut Table,
    question: &ChangedQuestion,
    change: &Change,
) -> Result<(), AllocError>
    requires { IsChange change.now }
    ensures { OnOk result ((changes : List Change) → HasGathered question.now changes table.old → HasGathered question.now (changes ++ change.now ∷ []) table.new) }
{
    let Some(spot) = spot_of(change) else {
        return Ok(());
    };
    if is_asked_for(question, &spot) {
        table.insert(Key::prefix(&spot.peer, &spot.prefix), spot)?;
    }
    Ok(())
}

// Takes the changes of one admission in.
fn take_admission(
    table: &mut Table,
    question: &ChangedQuestion,
    admission: &Admission,
) -> Result<(), AllocError>
    ensures { OnOk result ((changes : List Change) → HasGathered question.now changes table.old → HasGathered question.now (changes ++ admission.now.changes) table.new) }
{
    for change in admission.changes() {
        take_change(table, question, change)?;
    }
    Ok(())
}

/// The spots that are asked for and changed in the span.
pub(crate) fn gathered(
    alloc: Global,
    list: &[PlacedAdmission],
    question: &ChangedQuestion,
) -> Result<Table, AllocError>
    ensures { IfOk result (HasGathered question.now (changes_of (between question.now.from question.now.to list.now))) }
{
    let mut table = BTreeMap::new(alloc);
    for placed in list {
        if placed.is_between(question.from, question.to) {
            take_admission(&mut table, question, placed.admission())?;
        }
    }
    Ok(table)
}
