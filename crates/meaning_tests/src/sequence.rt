//! Late records, marks that go back, ties, and what is released.

use crate::be;
use route_model::{Admission, Mark, Moment};
use sequencer::{Late, MarkBack, Sequencer, sieve, timely_of, times_of};
use std::alloc::Global;
use std::process::Abort;

fn moment(seconds: u32) -> Moment {
    Moment::from(seconds)
}

fn mark(seconds: u32) -> Mark {
    Mark::at(Moment::from(seconds))
}

fn moments(rt: &impl Abort, alloc: Global, seconds: &[u32]) -> Vec<Moment> {
    let mut times = Vec::with_capacity(alloc, seconds.len()).expect(rt, "memory");
    for &s in seconds {
        times.push(moment(s)).expect(rt, "memory");
    }
    times
}

/// A batch of admissions of these times, without changes.
fn batch_at(rt: &impl Abort, alloc: Global, seconds: &[u32]) -> Vec<Admission> {
    let mut batch = Vec::with_capacity(alloc, seconds.len()).expect(rt, "memory");
    for &s in seconds {
        batch
            .push(Admission::new(moment(s), Vec::new(alloc)).expect(rt, "an admission"))
            .expect(rt, "memory");
    }
    batch
}

/// Offers times of a collector, and takes in those that aren't late. How many were late.
fn offer(
    rt: &impl Abort,
    alloc: Global,
    sequencer: &mut Sequencer,
    collector: usize,
    seconds: &[u32],
) -> usize {
    let times = moments(rt, alloc, seconds);
    if collector >= sequencer.collectors() {
        panic!(rt; "no such collector");
    }
    let sieved = sequencer
        .sieve(alloc, collector, &times)
        .expect(rt, "memory");
    sequencer.take_in(collector, &sieved);
    sieved.late.len()
}

/// Raises a mark, where it doesn't go back.
fn raise(
    rt: &impl Abort,
    sequencer: &mut Sequencer,
    collector: usize,
    seconds: u32,
) -> Result<(), MarkBack> {
    if collector >= sequencer.collectors() {
        panic!(rt; "no such collector");
    }
    sequencer.raise(collector, mark(seconds))
}

fn mark_of(rt: &impl Abort, sequencer: &Sequencer, collector: usize) -> Mark {
    if collector >= sequencer.collectors() {
        panic!(rt; "no such collector");
    }
    sequencer.mark(collector)
}

fn settled(rt: &impl Abort, sequencer: &Sequencer) -> Mark {
    if sequencer.collectors() == 0 {
        panic!(rt; "no collectors");
    }
    sequencer.settled()
}

/// What is done with a sequencer, or looked at.
enum Act {
    /// A collector offers these times, and this number of them is late.
    Offer(usize, &'static [u32], usize),
    Raise(usize, u32),
    /// The mark would go back.
    Back(usize, u32),
    /// The mark of a collector is this one.
    Mark(usize, u32),
    /// The next record is of this collector, and stays.
    Next(Option<usize>),
    /// It is released.
    Release(Option<usize>),
    Settled(u32),
}

/// Whether an act does as it says.
fn holds(rt: &impl Abort, alloc: Global, sequencer: &mut Sequencer, act: &Act) -> bool {
    match act {
        Act::Offer(collector, seconds, late) => {
            offer(rt, alloc, sequencer, *collector, seconds) == *late
        }
        Act::Raise(collector, seconds) => raise(rt, sequencer, *collector, *seconds).is_ok(),
        Act::Back(collector, seconds) => raise(rt, sequencer, *collector, *seconds).is_err(),
        Act::Mark(collector, seconds) => mark_of(rt, sequencer, *collector) == mark(*seconds),
        Act::Next(collector) => sequencer.next() == *collector,
        Act::Release(collector) => sequencer.release() == *collector,
        Act::Settled(seconds) => settled(rt, sequencer) == mark(*seconds),
    }
}

/// A sequencer of this number of collectors after these acts, each of which does as it says.
fn played(rt: &impl Abort, alloc: Global, collectors: u8, acts: &[Act], name: &str) -> Sequencer {
    let mut sequencer = Sequencer::new(alloc, collectors).expect(rt, "memory");
    be(rt, sequencer.collectors() == collectors as usize, name);
    for act in acts {
        be(rt, holds(rt, alloc, &mut sequencer, act), name);
    }
    sequencer
}

/// Whether one record is late: this place, its time, and the mark above it.
fn is_one(late: &[Late], index: usize, seconds: u32, above: u32) -> bool {
    match late {
        [one] => one.index == index && one.time == moment(seconds) && one.mark == mark(above),
        _ => false,
    }
}

fn times(rt: &impl Abort, alloc: Global, batch: &[Admission]) -> Vec<Moment> {
    times_of(alloc, batch).expect(rt, "memory")
}

#[test]
fn a_time_below_an_earlier_one_is_late(rt: HostRuntime) {
    let alloc = rt.alloc();
    let batch = batch_at(&rt, alloc, &[100, 99, 100]);
    let sieved = sieve(alloc, mark(0), &times(&rt, alloc, &batch)).expect(&rt, "memory");
    be(
        &rt,
        sieved.timely.as_slice() == moments(&rt, alloc, &[100, 100]).as_slice(),
        "a time below an earlier one is late",
    );
    be(
        &rt,
        is_one(&sieved.late, 1, 99, 100),
        "a time below an earlier one is late",
    );
    be(
        &rt,
        sieved.mark == mark(100),
        "a time below an earlier one is late",
    );
    let kept = timely_of(alloc, &batch, &sieved.late).expect(&rt, "memory");
    be(
        &rt,
        times(&rt, alloc, &kept).as_slice() == sieved.timely.as_slice(),
        "a time below an earlier one is late",
    );
}

const WAITING: [Act; 14] = [
    Act::Raise(0, 50),
    Act::Offer(1, &[60], 0),
    Act::Release(None),
    Act::Settled(50),
    Act::Raise(0, 60),
    Act::Release(None),
    Act::Raise(0, 61),
    Act::Release(None),
    Act::Next(None),
    Act::Raise(1, 61),
    Act::Next(Some(1)),
    Act::Release(Some(1)),
    Act::Next(None),
    Act::Release(None),
];

#[test]
fn a_record_waits_for_the_mark_of_each_collector(rt: HostRuntime) {
    let name = "a record waits for the mark of each collector";
    let two = played(&rt, rt.alloc(), 2, &WAITING, name);
    be(&rt, settled(&rt, &two) == mark(61), name);
}

const TIES: [Act; 10] = [
    Act::Offer(1, &[5, 7], 0),
    Act::Offer(0, &[7, 6, 8], 1),
    Act::Raise(0, 9),
    Act::Raise(1, 9),
    Act::Settled(5),
    Act::Release(Some(1)),
    Act::Release(Some(0)),
    Act::Release(Some(1)),
    Act::Release(Some(0)),
    Act::Release(None),
];

#[test]
fn of_equal_times_the_lower_collector_goes_first(rt: HostRuntime) {
    let name = "of equal times the lower collector goes first";
    let _two = played(&rt, rt.alloc(), 2, &TIES, name);
}

const AHEAD: [Act; 4] = [
    Act::Offer(1, &[5, 7], 0),
    Act::Offer(0, &[7, 8], 0),
    Act::Raise(0, 9),
    Act::Raise(1, 8),
];

/// Passes over three records, of the collectors 1, 0 and 1, and takes them. All waits until then.
fn look_ahead(rt: &impl Abort, alloc: Global, two: &mut Sequencer, name: &str) {
    let mut ahead = two.ahead(alloc).expect(rt, "memory");
    let Some(first) = two.next_after(&ahead) else {
        panic!(rt; "nothing is next");
    };
    two.pass(&mut ahead, first);
    let Some(second) = two.next_after(&ahead) else {
        panic!(rt; "nothing is next after one");
    };
    two.pass(&mut ahead, second);
    let Some(third) = two.next_after(&ahead) else {
        panic!(rt; "nothing is next after two");
    };
    two.pass(&mut ahead, third);
    be(rt, first == 1 && second == 0 && third == 1, name);
    // The moment 8 isn't below the mark of the collector 1.
    be(rt, two.next_after(&ahead) == None, name);
    be(rt, two.next() == Some(1), name);
    be(rt, settled(rt, two) == mark(5), name);
    two.take_passed(&ahead);
}

#[test]
fn a_look_ahead_takes_nothing(rt: HostRuntime) {
    let name = "a look ahead takes nothing";
    let mut two = played(&rt, rt.alloc(), 2, &AHEAD, name);
    look_ahead(&rt, rt.alloc(), &mut two, name);
    be(&rt, two.next() == None, name);
    be(&rt, settled(&rt, &two) == mark(8), name);
}

const BACK: [Act; 4] = [
    Act::Raise(0, 10),
    Act::Back(0, 9),
    Act::Raise(0, 10),
    Act::Mark(0, 10),
];

#[test]
fn a_mark_never_goes_back(rt: HostRuntime) {
    let _one = played(&rt, rt.alloc(), 1, &BACK, "a mark never goes back");
}
