//! What threads did, compared with what the lists of all that they gave hold.

use crate::answers::answers_alike;
use crate::logs::{Asked, Given, Log};
use crate::made::COLLECTORS;
use interleaving_core::{Answer, Query};
use query_threads::Store;
use route_meaning::{PlacedAdmission, answer_events, answer_rows, merge};
use route_model::Admission;
use std::alloc::Global;

/// A record's number among those of its collector, and its place among all.
#[derive(Clone, Copy)]
struct Numbered {
    number: u64,
    place: usize,
}

/// The numbers of what a collector gave, in their order.
fn numbers_of(alloc: Global, given: &[Given], collector: u8) -> Option<Vec<Numbered>> {
    let mut numbers = Vec::new(alloc);
    for (place, it) in given.iter().enumerate() {
        if it.collector == collector {
            let number = it.number;
            numbers.push(Numbered { number, place }).ok()?;
        }
    }
    numbers.sort_by_key(|it| it.number).ok()?;
    Some(numbers)
}

/// The records of a collector in the order of their numbers. None where a number came twice or was left out, a record is earlier than the
/// one before it, or memory ran out.
fn list_of(alloc: Global, given: &[Given], collector: u8) -> Option<Vec<Admission>> {
    let mut list: Vec<Admission> = Vec::new(alloc);
    for it in numbers_of(alloc, given, collector)? {
        let record = given.get(it.place)?.record.share(alloc).ok()?;
        let is_late = list.last().is_some_and(|last| record.time() < last.time());
        if it.number != list.len() as u64 || is_late {
            return None;
        }
        list.push(record).ok()?;
    }
    Some(list)
}

/// The answer over the lists.
fn answer_of(alloc: Global, list: &[PlacedAdmission<'_>], query: &Query) -> Option<Answer> {
    match query {
        Query::Rows(asked) => Some(Answer::Rows(answer_rows(alloc, list, asked).ok()?)),
        Query::Events(asked) => Some(Answer::Events(answer_events(alloc, list, asked).ok()?)),
    }
}

/// Whether each answer is the one over the lists.
fn all_alike(alloc: Global, list: &[PlacedAdmission<'_>], asked: &[Asked]) -> Option<bool> {
    for it in asked {
        if !answers_alike(&answer_of(alloc, list, &it.query)?, &it.answer) {
            return Some(false);
        }
    }
    Some(true)
}

/// Whether the threads were answered what the lists of all that they gave hold, and the store has as many records. None where memory ran
/// out, or what they gave is no list.
pub(crate) fn is_so<S: Store>(alloc: Global, store: &S, log: &Log) -> Option<bool> {
    let first = list_of(alloc, &log.given, 0)?;
    let second = list_of(alloc, &log.given, 1)?;
    let list = merge(alloc, &[first.as_slice(), second.as_slice()]).ok()?;
    let is_whole = COLLECTORS == 2
        && store.admitted(0) == first.len() as u64
        && store.admitted(1) == second.len() as u64;
    Some(log.is_right && is_whole && all_alike(alloc, &list, &log.asked)?)
}
