//! Worked examples as runs.

use crate::be;
use crate::said::{Said, admission_of, moment_of, peer_of, prefix_of, put, put_reply, spot_of};
use interleaving_core::{Machine, Query, Ran, Reach, Step, run};
use route_meaning::{EventsQuestion, RowsQuestion, Select};
use route_model::Mark;
use std::alloc::Global;
use std::process::Abort;

/// A step.
pub(crate) enum Act {
    /// A collector offers admissions, each at a time.
    Offer(u8, &'static [(u32, &'static [Said])]),
    Mark(u8, u32),
    Apply(u64),
    Flush,
    /// All rows at a moment.
    AskRows(u32),
    /// The events of collector 0's peer and of a prefix, from the moment 0 on.
    AskEvents(u32, u8),
    /// A turn up to the prefix of the peer of a collector.
    UpTo(usize, u8, u8),
    /// A turn over this many events more, and one over all that is left.
    Further(usize, u64),
    End(usize),
    Crash,
    Recover,
}

/// What is done one after another with this many collectors, and what each step answers.
struct Script {
    name: &'static str,
    collectors: u8,
    acts: &'static [(Act, &'static str)],
}

const SCRIPTS: [Script; 6] = [
    Script {
        name: "a record waits for the mark of each collector",
        collectors: 2,
        acts: &[
            (Act::Mark(0, 50), "marked"),
            (Act::Offer(1, &[(60, &[])]), "1: 0..1 of 1"),
            (Act::Apply(0), "idle"),
            (Act::AskRows(50), "begun 0"),
            (Act::End(0), "above 50"),
            (Act::Mark(0, 60), "marked"),
            (Act::Apply(0), "idle"),
            (Act::Mark(0, 61), "marked"),
            (Act::Mark(0, 60), "mark back"),
            (Act::Mark(2, 60), "no collector"),
            (Act::Mark(1, 61), "marked"),
            (Act::Apply(9), "applied"),
            (Act::Apply(9), "idle"),
            (Act::Flush, "flushed"),
            (Act::AskRows(61), "begun 1"),
            (Act::End(1), "above 61"),
            (Act::End(0), "rows"),
            (Act::End(0), "no question"),
            (Act::End(2), "no question"),
        ],
    },
    Script {
        name: "99 between two 100s is late",
        collectors: 1,
        acts: &[
            (
                Act::Offer(0, &[(100, &[]), (99, &[]), (100, &[])]),
                "0: 0..2 of 3, late 1 at 99 below 100",
            ),
            (Act::Offer(0, &[]), "0: 2..2 of 3"),
            (
                Act::Offer(0, &[(99, &[]), (100, &[])]),
                "0: 2..3 of 5, late 0 at 99 below 100",
            ),
            (Act::Offer(1, &[]), "no collector"),
        ],
    },
    Script {
        name: "a state change ends the routes, and the history has it",
        collectors: 1,
        acts: &[
            (
                Act::Offer(
                    0,
                    &[
                        (7, &[Said::Announces(0, 65002), Said::Announces(1, 65002)]),
                        (8, &[Said::Ends]),
                        (8, &[Said::Announces(0, 65003)]),
                        (9, &[Said::Withdraws(0)]),
                    ],
                ),
                "0: 0..4 of 4",
            ),
            (Act::Mark(0, 10), "marked"),
            (Act::Apply(9), "applied"),
            (Act::AskRows(6), "begun 0"),
            (Act::AskRows(7), "begun 1"),
            (Act::AskRows(8), "begun 2"),
            (Act::AskRows(9), "begun 3"),
            (Act::AskEvents(9, 0), "begun 4"),
            (Act::End(0), "rows"),
            (Act::End(1), "rows 0/0:65002 0/1:65002"),
            (Act::End(2), "rows 0/0:65003"),
            (Act::End(3), "rows"),
            (Act::End(4), "events 7+0:65002 8-all 8+0:65003 9-0"),
        ],
    },
    Script {
        name: "a question goes on where others apply between its turns",
        collectors: 2,
        acts: &[
            (
                Act::Offer(
                    0,
                    &[(
                        7,
                        &[
                            Said::Announces(0, 1),
                            Said::Announces(1, 1),
                            Said::Announces(2, 1),
                        ],
                    )],
                ),
                "0: 0..1 of 1",
            ),
            (
                Act::Offer(1, &[(7, &[Said::Announces(0, 2)])]),
                "1: 0..1 of 1",
            ),
            (Act::Mark(0, 20), "marked"),
            (Act::Mark(1, 20), "marked"),
            (Act::AskRows(7), "begun 0"),
            (Act::AskEvents(7, 1), "begun 1"),
            (Act::UpTo(0, 0, 1), "above 7"),
            (Act::Apply(1), "applied"),
            (Act::UpTo(0, 0, 1), "above 7"),
            (Act::Apply(9), "applied"),
            (Act::UpTo(0, 0, 1), "again"),
            (Act::Further(0, 3), "again"),
            (Act::Offer(0, &[(21, &[Said::Ends])]), "0: 1..2 of 2"),
            (Act::Further(1, 1), "again"),
            (Act::Mark(0, 30), "marked"),
            (Act::Mark(1, 30), "marked"),
            (Act::Apply(9), "applied"),
            // After the spot that it has come to.
            (Act::UpTo(0, 0, 0), "again"),
            (Act::UpTo(0, 1, 0), "again"),
            (Act::End(0), "rows 0/0:1 0/1:1 0/2:1 1/0:2"),
            (Act::UpTo(1, 0, 0), "again"),
            (Act::End(1), "events 7+1:1"),
        ],
    },
    Script {
        name: "a crash ends all questions, whose numbers stay taken",
        collectors: 1,
        acts: &[
            (Act::Mark(0, 9), "marked"),
            (Act::AskRows(7), "begun 0"),
            (Act::UpTo(0, 0, 0), "again"),
            (Act::Crash, "crashed"),
            (Act::End(0), "needs recovery"),
            (Act::Offer(0, &[(9, &[])]), "needs recovery"),
            (Act::Mark(0, 9), "needs recovery"),
            (Act::Apply(0), "needs recovery"),
            (Act::Flush, "needs recovery"),
            (Act::AskRows(8), "begun 1"),
            (Act::Recover, "recovered"),
            (Act::End(0), "no question"),
            (Act::End(1), "rows"),
            (Act::AskRows(8), "begun 2"),
        ],
    },
    Script {
        name: "a record at a mark waits, and one in part applied isn't answered",
        collectors: 1,
        acts: &[
            (
                Act::Offer(0, &[(7, &[Said::Announces(0, 1), Said::Ends])]),
                "0: 0..1 of 1",
            ),
            (Act::Apply(0), "idle"),
            (Act::Mark(0, 8), "marked"),
            (Act::Apply(0), "applied"),
            (Act::AskRows(7), "begun 0"),
            (Act::AskRows(6), "begun 1"),
            (Act::End(0), "above 7"),
            (Act::End(1), "rows"),
            (Act::Apply(0), "applied"),
            (Act::End(0), "rows"),
        ],
    },
];

fn batch_of(rt: &impl Abort, alloc: Global, collector: u8, offered: &[(u32, &[Said])]) -> Step {
    let mut batch = Vec::new(alloc);
    for (seconds, said) in offered {
        batch
            .push(admission_of(rt, alloc, collector, *seconds, said))
            .expect(rt, "memory");
    }
    Step::Admit(collector, batch)
}

fn all_rows(seconds: u32) -> Query {
    Query::Rows(RowsQuestion {
        moment: moment_of(seconds),
        select: Select::All,
        after: None,
    })
}

fn all_events(seconds: u32, second: u8) -> Query {
    Query::Events(EventsQuestion {
        from: moment_of(0),
        to: moment_of(seconds),
        peer: peer_of(0),
        prefix: prefix_of(second),
        skip: 0,
    })
}

fn step_of(rt: &impl Abort, alloc: Global, act: &Act) -> Step {
    match act {
        Act::Offer(collector, offered) => batch_of(rt, alloc, *collector, offered),
        Act::Mark(collector, seconds) => Step::Mark(*collector, Mark::at(moment_of(*seconds))),
        Act::Apply(more) => Step::Apply(*more),
        Act::Flush => Step::Flush,
        Act::AskRows(seconds) => Step::Begin(all_rows(*seconds)),
        Act::AskEvents(seconds, second) => Step::Begin(all_events(*seconds, *second)),
        Act::UpTo(number, collector, second) => {
            Step::Turn(*number, Reach::UpTo(spot_of(*collector, *second)))
        }
        Act::Further(number, count) => Step::Turn(*number, Reach::Further(*count)),
        Act::End(number) => Step::Turn(*number, Reach::End),
        Act::Crash => Step::Crash,
        Act::Recover => Step::Recover,
    }
}

pub(crate) fn add_acts(rt: &impl Abort, alloc: Global, steps: &mut Vec<Step>, acts: &[Act]) {
    for act in acts {
        steps.push(step_of(rt, alloc, act)).expect(rt, "memory");
    }
}

/// What a machine of this number of collectors comes to by these steps.
pub(crate) fn ran(rt: &impl Abort, alloc: Global, collectors: u8, steps: &[Step]) -> Ran {
    let machine = Machine::created(alloc, collectors).expect(rt, "memory");
    run(alloc, machine, steps).expect(rt, "memory")
}

/// What the steps of a script reply, each in a line.
fn played(rt: &impl Abort, alloc: Global, script: &Script) -> String {
    let mut steps = Vec::new(alloc);
    for (act, _) in script.acts {
        steps.push(step_of(rt, alloc, act)).expect(rt, "memory");
    }
    let ran = ran(rt, alloc, script.collectors, &steps);
    let mut text = String::new(alloc);
    for reply in &ran.replies {
        put_reply(rt, alloc, &mut text, reply);
        put(rt, &mut text, "\n");
    }
    text
}

/// What they have to reply.
fn expected(rt: &impl Abort, alloc: Global, script: &Script) -> String {
    let mut text = String::new(alloc);
    for (_, reply) in script.acts {
        put(rt, &mut text, reply);
        put(rt, &mut text, "\n");
    }
    text
}

#[test]
fn scripts_are_played(rt: HostRuntime) {
    let alloc = rt.alloc();
    for script in &SCRIPTS {
        let replies = played(&rt, alloc, script);
        be(&rt, replies == expected(&rt, alloc, script), script.name);
    }
}

#[test]
fn a_collector_goes_on_after_what_it_offered(rt: HostRuntime) {
    let alloc = rt.alloc();
    let offered = batch_of(&rt, alloc, 0, &[(100, &[]), (99, &[]), (100, &[])]);
    let steps = vec![in alloc; offered].expect(&rt, "memory");
    let ran = ran(&rt, alloc, 1, &steps);
    let resume = ran.machine.resume(0).expect(&rt, "no collector");
    be(
        &rt,
        resume.offered == 3,
        "a collector goes on after what it offered",
    );
    be(
        &rt,
        resume.admitted == 2,
        "a collector goes on after what it offered",
    );
    be(
        &rt,
        resume.mark == Mark::at(moment_of(100)),
        "a collector goes on after what it offered",
    );
    be(
        &rt,
        ran.machine.resume(1).is_none(),
        "a collector goes on after what it offered",
    );
}

#[test]
fn a_question_asks_up_to_its_last_moment(rt: HostRuntime) {
    be(
        &rt,
        all_events(9, 0).last_moment() == moment_of(9),
        "a question asks up to its last moment",
    );
    be(
        &rt,
        all_rows(7).last_moment() == moment_of(7),
        "a question asks up to its last moment",
    );
}
