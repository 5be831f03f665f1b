//! What the acts of a life return.

use crate::{be, be_at};
use archive_pages::Settings;
use interleaving_core::Answer;
use std::alloc::Global;
use std::process::Abort;
use uses_tests::{Act, Batch, Birth, Life, Returned, Stop, Tear, live};

/// What an act returned.
#[derive(Clone, Copy, PartialEq, Eq)]
enum Outcome {
    /// How many records the collector has admitted then.
    Admitted(u64),
    Marked,
    Applied,
    Flushed,
    /// As many rows.
    Rows(usize),
    /// As many changes.
    Checked(u64),
    Opened,
    Reopened,
    Refused,
}

fn of_answer(answer: &Answer) -> Outcome {
    match answer {
        Answer::Rows(rows) => Outcome::Rows(rows.rows.len()),
        Answer::Events(_) => Outcome::Refused,
    }
}

fn outcome_of(returned: &Returned) -> Outcome {
    match returned {
        Returned::Admitted(Ok(reply)) => Outcome::Admitted(reply.receipt.to),
        Returned::Marked(Ok(())) => Outcome::Marked,
        Returned::Applied(Ok(_)) => Outcome::Applied,
        Returned::Flushed(Ok(_)) => Outcome::Flushed,
        Returned::Answered(Ok(answer)) => of_answer(answer),
        Returned::Checked(Ok(changes)) => Outcome::Checked(*changes),
        Returned::Opened => Outcome::Opened,
        Returned::Reopened => Outcome::Reopened,
        _ => Outcome::Refused,
    }
}

/// Five large announcements fill a leaf, and the sixth one splits it: its block isn't burnt where the disk stops then. An opening is stopped
/// twice, and a batch is given before a crash.
const ACTS: [Act; 20] = [
    Act::Admit(0, Batch::Large(5, 100)),
    Act::Mark(0, 105),
    Act::Apply,
    Act::Ask(104),
    Act::Admit(0, Batch::Large(1, 110)),
    Act::Mark(0, 120),
    Act::Crash(Tear::Half, Stop::Erase(3)),
    Act::CutAdmit(0, Batch::Empty(2, 130), Tear::New),
    Act::Crash(Tear::Old, Stop::Once(1)),
    Act::Apply,
    Act::Ask(104),
    Act::CutApply(Tear::Half),
    Act::Apply,
    Act::Ask(119),
    Act::Check,
    Act::Flush,
    Act::Crash(Tear::Gate, Stop::Erase(1)),
    Act::Ask(119),
    Act::Admit(0, Batch::Empty(1, 140)),
    Act::Check,
];

const EXPECTED: [Outcome; 20] = [
    Outcome::Admitted(5),
    Outcome::Marked,
    Outcome::Applied,
    Outcome::Rows(1),
    Outcome::Admitted(6),
    Outcome::Marked,
    Outcome::Reopened,
    Outcome::Opened,
    Outcome::Opened,
    Outcome::Refused,
    Outcome::Refused,
    Outcome::Opened,
    Outcome::Applied,
    Outcome::Rows(1),
    Outcome::Checked(6),
    Outcome::Flushed,
    Outcome::Reopened,
    Outcome::Rows(1),
    Outcome::Admitted(9),
    Outcome::Checked(6),
];

fn played(alloc: Global) -> Option<Life> {
    let settings = Settings {
        collectors: 1,
        ring: 9,
    };
    live(alloc, 300, 20, settings, Birth::Created, &ACTS)
}

/// Whether each act returned what it has to.
fn are_expected(rt: &impl Abort, life: &Life) {
    for (number, turn) in life.turns.iter().enumerate() {
        let expected = EXPECTED.get(number).copied();
        be_at(
            rt,
            Some(outcome_of(&turn.returned)) == expected,
            "an act",
            number as u64,
        );
    }
}

#[test]
fn a_life_of_uses_is_lived(rt: HostRuntime) {
    let life = played(rt.alloc()).expect(&rt, "a life");
    be(&rt, life.turns.len() == EXPECTED.len(), "all acts");
    are_expected(&rt, &life);
}
