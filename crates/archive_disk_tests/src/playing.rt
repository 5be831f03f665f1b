//! Scripts of calls, played on an archive on disks and on the pure machine.

use crate::asked::answers_as;
use crate::be;
use crate::disks::reopened;
use crate::made::{
    Made, MemArchive, apply_all, empties, empty_at, flush_all, made, mark_at, two_changes, vectors,
};
use crate::model::Model;
use crate::reported::{Reported, make};
use crate::scripts::SCRIPTS;
use archive_calls::{RouteArchive, RouteSource};
use archive_pages::Settings;
use disk_calls::NoReasons;
use interleaving_core::Step;
use route_model::{Admission, Moment};
use sequencer::Late;
use std::alloc::Global;

/// A call, or a look at what it came to.
#[derive(Clone, Copy, PartialEq, Eq)]
pub(crate) enum Call {
    /// A collector offers records without changes at these times. The result is how many it offered, the numbers from which and to
    /// below which they are admitted, and how many are late.
    Times,
    /// It offers a number of records without changes, at a time.
    Empties,
    /// It offers a number of records of 67 octets, a number of seconds after 1704067200.
    Vectors,
    /// It offers a record of two changes at the moment 7.
    Two,
    /// Its mark is set.
    Mark,
    /// A step of applying is made.
    Apply,
    /// Steps of applying are made until nothing may be applied: how many apply something.
    ApplyAll,
    /// Pages are written home until none is left: how many.
    Flush,
    /// The settled watermark.
    Settled,
    /// Where a collector goes on: how many it offered, how many were admitted, and its mark.
    Resume,
    /// The routes to 10.0.0.0/8 at a moment.
    Rows,
    /// The history of 10.0.0.0/8 up to a moment.
    Events,
    /// How many changes a check counts.
    Check,
}

/// A call, the number of a collector, further numbers, and what is returned.
pub(crate) type Act = (Call, u8, &'static [u32], &'static str);

/// What is done one after another with an archive of this many collectors, with rings of this many pages, to which nothing was given.
pub(crate) struct Script {
    pub(crate) name: &'static str,
    pub(crate) collectors: u8,
    pub(crate) ring: u16,
    pub(crate) acts: &'static [Act],
}

/// An archive on disks, and the pure machine.
#[derive(Drop)]
struct Stage {
    alloc: Global,
    disk: MemArchive,
    model: Model,
}

// The number at a place, or 0.
fn number_at(numbers: &[u32], place: usize) -> u32 {
    match numbers.get(place) {
        Some(number) => *number,
        None => 0,
    }
}

// What is offered by a call.
fn batch_of(alloc: Global, call: Call, numbers: &[u32]) -> Option<Vec<Admission>> {
    let first = number_at(numbers, 0);
    let second = number_at(numbers, 1);
    match call {
        Call::Times => empty_at(alloc, numbers),
        Call::Empties => empties(alloc, first, second),
        Call::Vectors => vectors(alloc, first as usize, second.min(100) as u8),
        _ => two_changes(alloc),
    }
}

// The step that a call is.
fn step_of(alloc: Global, call: Call, collector: u8, numbers: &[u32]) -> Option<Step> {
    Some(match call {
        Call::Mark => Step::Mark(collector, mark_at(number_at(numbers, 0))),
        Call::Apply => Step::Apply(0),
        _ => Step::Admit(collector, batch_of(alloc, call, numbers)?),
    })
}

// What is returned, as a text.
fn is_reported(alloc: Global, reported: Reported, expected: &str) -> bool {
    match reported {
        Reported::Taken(offered, from, to, late) => {
            match format!(in alloc; "{offered} {from} {to} {late}") {
                Ok(text) => text.as_str() == expected,
                Err(_) => false,
            }
        }
        Reported::Marked => expected == "marked",
        Reported::MarkBack => expected == "back",
        Reported::NoCollector => expected == "no collector",
        Reported::Applied => expected == "applied",
        Reported::Idle => expected == "idle",
        Reported::TooLarge => expected == "too large",
        Reported::IntakeFull => expected == "full",
        Reported::Flushed
        | Reported::Crashed
        | Reported::Recovered
        | Reported::Stopped
        | Reported::Refused => false,
    }
}

fn is_number(alloc: Global, number: u64, expected: &str) -> bool {
    match format!(in alloc; "{number}") {
        Ok(text) => text.as_str() == expected,
        Err(_) => false,
    }
}

// The request line of a question of 10.0.0.0/8.
fn line_of(alloc: Global, call: Call, seconds: u32) -> Option<String> {
    match call {
        Call::Rows => format!(in alloc; "at {seconds} prefix 10.0.0.0/8").ok(),
        _ => format!(in alloc; "history 0 {seconds} 0 192.0.2.1 65001 10.0.0.0/8").ok(),
    }
}

impl Stage {
    fn new(alloc: Global, script: &Script) -> Option<Stage> {
        let settings = Settings {
            collectors: script.collectors,
            ring: script.ring,
        };
        let archive = made(alloc, settings)?;
        Some(Stage {
            alloc,
            disk: MemArchive::new(archive, NoReasons),
            model: Model::new(alloc, script.collectors)?,
        })
    }

    // The same, where the archive is given up and opened again.
    fn reopened(self) -> Option<Stage> {
        let Stage { alloc, disk, model } = self;
        let archive = reopened(alloc, disk.into_archive())?;
        Some(Stage {
            alloc,
            disk: MemArchive::new(archive, NoReasons),
            model,
        })
    }

    // Whether both make the step and return this.
    fn takes(&mut self, step: Option<Step>, expected: &str) -> bool {
        let Some(step) = step else {
            return false;
        };
        let reported = make(&mut self.disk, &step);
        if !is_reported(self.alloc, reported, expected) {
            return false;
        }
        match reported {
            // Of what there is room for the machine knows nothing.
            Reported::TooLarge | Reported::IntakeFull => true,
            _ => {
                let settled = self.disk.settled();
                self.model.does_up_to(&step, reported, settled)
            }
        }
    }

    // Whether `expected` steps apply all, and both are settled up to the same mark then.
    fn applies_all(&mut self, expected: &str) -> bool {
        let Some(count) = apply_all(&mut self.disk.archive) else {
            return false;
        };
        self.model.apply_all();
        is_number(self.alloc, u64::from(count), expected)
            && self.model.settled() == Some(self.disk.settled())
    }

    // Whether `expected` pages are written home.
    fn flushes(&mut self, expected: &str) -> bool {
        match flush_all(&mut self.disk.archive) {
            Some(count) => is_number(self.alloc, u64::from(count), expected),
            None => false,
        }
    }

    // Whether both are settled up to this mark.
    fn is_settled(&mut self, expected: &str) -> bool {
        let settled = self.disk.settled();
        is_number(self.alloc, settled.number() / Moment::SECOND, expected)
            && self.model.settled() == Some(settled)
    }

    // Whether both return this for where a collector goes on.
    fn goes_on(&self, collector: u8, expected: &str) -> Option<bool> {
        let resume = self.disk.resume(collector)?;
        let offered = resume.offered;
        let admitted = resume.admitted;
        let mark = resume.mark.number() / Moment::SECOND;
        let text = format!(in self.alloc; "{offered} {admitted} {mark}").ok()?;
        Some(text.as_str() == expected && self.model.resume(collector) == Some(resume))
    }

    // Whether both answer or refuse a question by these lines.
    fn answers(&mut self, call: Call, seconds: u32, expected: &str) -> Option<bool> {
        let line = line_of(self.alloc, call, seconds)?;
        let lines = expected.as_bytes();
        Some(
            answers_as(self.alloc, &mut self.disk, &line, lines)
                && self.model.answers_as(&line, lines),
        )
    }

    // Whether a check counts `expected` changes.
    fn checks(&mut self, expected: &str) -> bool {
        match self.disk.check() {
            Ok(count) => is_number(self.alloc, count, expected),
            Err(_) => false,
        }
    }

    // Whether a call is answered so.
    fn does(&mut self, act: &Act) -> bool {
        let (call, collector, numbers, expected) = *act;
        match call {
            Call::ApplyAll => self.applies_all(expected),
            Call::Flush => self.flushes(expected),
            Call::Settled => self.is_settled(expected),
            Call::Resume => self.goes_on(collector, expected) == Some(true),
            Call::Rows | Call::Events => {
                self.answers(call, number_at(numbers, 0), expected) == Some(true)
            }
            Call::Check => self.checks(expected),
            _ => {
                let step = step_of(self.alloc, call, collector, numbers);
                self.takes(step, expected)
            }
        }
    }
}

// Whether all of a script goes as it says.
fn is_played(alloc: Global, script: &Script) -> bool {
    let Some(mut stage) = Stage::new(alloc, script) else {
        return false;
    };
    for act in script.acts {
        if !stage.does(act) {
            return false;
        }
    }
    true
}

#[test]
fn scripts_are_played(rt: HostRuntime) {
    for script in &SCRIPTS {
        be(&rt, is_played(rt.alloc(), script), script.name);
    }
}

// Whether all of a script goes as it says where the archive is opened before each act. Then no page waits to go home.
fn is_played_anew(alloc: Global, script: &Script) -> Option<bool> {
    let mut stage = Stage::new(alloc, script)?;
    for act in script.acts {
        stage = stage.reopened()?;
        let is_done = match act.0 {
            Call::Flush => stage.flushes("0"),
            _ => stage.does(act),
        };
        if !is_done {
            return Some(false);
        }
    }
    Some(true)
}

#[test]
fn an_archive_goes_on_where_it_was_given_up(rt: HostRuntime) {
    for script in &SCRIPTS {
        be(
            &rt,
            is_played_anew(rt.alloc(), script) == Some(true),
            script.name,
        );
    }
}

// Whether the archive says which record came late, and of whom.
fn says_late(alloc: Global, archive: &mut Made) -> Option<bool> {
    let reply = archive.admit(0, &empty_at(alloc, &[100, 99, 100])?).ok()?;
    let expected = Late {
        index: 1,
        time: Moment::from(99),
        mark: mark_at(100),
    };
    Some(reply.receipt.collector == 0 && reply.late.as_slice() == [expected].as_slice())
}

#[test]
fn a_late_record_is_reported(rt: HostRuntime) {
    let settings = Settings {
        collectors: 1,
        ring: 9,
    };
    let mut archive = made(rt.alloc(), settings).expect(&rt, "an archive");
    let says_late = says_late(rt.alloc(), &mut archive);
    be(&rt, says_late == Some(true), "a late record");
}
