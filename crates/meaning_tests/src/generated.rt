//! Generated runs: whatever was answered in the middle of a run is what the plain program answers over all that was admitted at its end.

use crate::be;
use crate::examples::ran;
use crate::said::{
    Said, admission_of, answer_text, events_text, moment_of, peer_of, prefix_of, rows_text, spot_of,
};
use interleaving_core::{Query, Ran, Reach, Reply, Step};
use route_meaning::{
    EventsQuestion, PlacedAdmission, RowsQuestion, Select, answer_events, answer_rows, merge,
};
use route_model::{Admission, Mark};
use std::alloc::Global;
use std::process::Abort;

/// How many runs are generated, of this many steps each, by this many collectors.
const RUNS: u32 = 2000;

const STEPS: u32 = 32;

const COLLECTORS: u8 = 2;

/// Numbers that follow from a seed, and the time that a run has come to.
#[derive(Drop)]
struct Generator {
    state: u64,
    clock: u32,
    begun: usize,
}

impl Generator {
    /// A number below the limit, which isn't 0.
    fn below(&mut self, limit: u32) -> u32 {
        self.state = self
            .state
            .wrapping_mul(6364136223846793005)
            .wrapping_add(1442695040888963407);
        let high = (self.state >> 33) as u32;
        if limit == 0 { 0 } else { high % limit }
    }

    fn octet_below(&mut self, limit: u8) -> u8 {
        self.below(limit as u32).min(255) as u8
    }

    fn said(&mut self) -> Said {
        let second = self.octet_below(4);
        match self.below(6) {
            0 => Said::Withdraws(second),
            1 => Said::Ends,
            _ => Said::Announces(second, self.below(100)),
        }
    }

    fn admission(&mut self, rt: &impl Abort, alloc: Global, collector: u8) -> Admission {
        let seconds = self
            .clock
            .saturating_add(self.below(3))
            .saturating_sub(self.below(2));
        let mut said = Vec::new(alloc);
        for _ in 0..self.below(4) {
            said.push(self.said()).expect(rt, "memory");
        }
        admission_of(rt, alloc, collector, seconds, &said)
    }

    fn batch(&mut self, rt: &impl Abort, alloc: Global) -> Step {
        let collector = self.octet_below(COLLECTORS);
        let mut batch = Vec::new(alloc);
        for _ in 0..self.below(4) {
            batch
                .push(self.admission(rt, alloc, collector))
                .expect(rt, "memory");
        }
        Step::Admit(collector, batch)
    }

    fn query(&mut self) -> Query {
        let moment = moment_of(self.below(self.clock.saturating_add(1)));
        let second = self.octet_below(4);
        match self.below(3) {
            0 => Query::Events(EventsQuestion {
                from: moment_of(self.below(4)),
                to: moment,
                peer: peer_of(self.octet_below(COLLECTORS)),
                prefix: prefix_of(second),
                skip: self.below(3) as u64,
            }),
            1 => Query::Rows(RowsQuestion {
                moment,
                select: Select::ByPrefix(prefix_of(second)),
                after: None,
            }),
            _ => Query::Rows(RowsQuestion {
                moment,
                select: Select::All,
                after: if self.below(2) == 0 {
                    None
                } else {
                    Some(spot_of(0, second))
                },
            }),
        }
    }

    fn reach(&mut self) -> Reach {
        match self.below(4) {
            0 => Reach::UpTo(spot_of(self.octet_below(COLLECTORS), self.octet_below(4))),
            1 => Reach::Further(self.below(3) as u64),
            _ => Reach::End,
        }
    }

    fn step(&mut self, rt: &impl Abort, alloc: Global) -> Step {
        match self.below(32) {
            0..=5 => self.batch(rt, alloc),
            6..=10 => {
                let mark = self.clock.saturating_add(self.below(3));
                Step::Mark(self.octet_below(COLLECTORS), Mark::at(moment_of(mark)))
            }
            11..=15 => Step::Apply(self.below(4) as u64),
            16..=18 => {
                self.begun = self.begun.saturating_add(1);
                Step::Begin(self.query())
            }
            19..=26 => Step::Turn(
                self.below(self.begun.min(100) as u32) as usize,
                self.reach(),
            ),
            27 => Step::Flush,
            28 => Step::Crash,
            _ => Step::Recover,
        }
    }

    fn steps(&mut self, rt: &impl Abort, alloc: Global) -> Vec<Step> {
        let mut steps = Vec::new(alloc);
        for _ in 0..STEPS {
            self.clock = self.clock.saturating_add(self.below(2));
            steps.push(self.step(rt, alloc)).expect(rt, "memory");
        }
        steps
    }
}

/// Puts those of the batch at the end that are no earlier than the mark and than those before them; returns the mark after them.
fn add_timely(
    rt: &impl Abort,
    alloc: Global,
    list: &mut Vec<Admission>,
    mark: u64,
    batch: &[Admission],
) -> u64 {
    let mut mark = mark;
    for admission in batch {
        let time = admission.time().number();
        if time >= mark {
            list.push(admission.share(alloc).expect(rt, "memory"))
                .expect(rt, "memory");
            mark = time;
        }
    }
    mark
}

/// What a collector gave in a run that wasn't late, by the steps alone.
fn admitted_by(rt: &impl Abort, alloc: Global, collector: u8, steps: &[Step]) -> Vec<Admission> {
    let mut list = Vec::new(alloc);
    let mut mark = 0u64;
    let mut down = false;
    for step in steps {
        match step {
            Step::Crash => down = true,
            Step::Recover => down = false,
            Step::Mark(number, new) => {
                if !down && *number == collector {
                    mark = mark.max(new.number());
                }
            }
            Step::Admit(number, batch) => {
                if !down && *number == collector {
                    mark = add_timely(rt, alloc, &mut list, mark, batch);
                }
            }
            _ => {}
        }
    }
    list
}

/// Whether the question is done in these steps, and something is applied before that.
fn is_done_after_an_application(number: usize, steps: &[Step], replies: &[Reply]) -> bool {
    let mut applied = false;
    for (place, reply) in replies.iter().enumerate() {
        match reply {
            Reply::Applied => applied = true,
            Reply::Done(_) => {
                if let Some(Step::Turn(turned, _)) = steps.get(place)
                    && *turned == number
                {
                    return applied;
                }
            }
            _ => {}
        }
    }
    false
}

/// Whether something is applied between two turns of a question that is done.
fn is_interleaved(steps: &[Step], replies: &[Reply]) -> bool {
    for (place, step) in steps.iter().enumerate() {
        if let Step::Turn(number, _) = step
            && let Some(Reply::Again) = replies.get(place)
            && is_done_after_an_application(*number, &steps[place..], &replies[place..])
        {
            return true;
        }
    }
    false
}

/// The question of a number, of those that a run begins.
fn query_of(steps: &[Step], number: usize) -> Option<Query> {
    let mut begun = 0usize;
    for step in steps {
        if let Step::Begin(query) = step {
            if begun == number {
                return Some(*query);
            }
            begun = begun.saturating_add(1);
        }
    }
    None
}

/// The answer of the plain program over a list.
fn plain(rt: &impl Abort, alloc: Global, list: &[PlacedAdmission], query: &Query) -> String {
    match query {
        Query::Rows(question) => {
            let answer = answer_rows(alloc, list, question).expect(rt, "memory");
            rows_text(rt, alloc, &answer.rows, answer.more)
        }
        Query::Events(question) => {
            let answer = answer_events(alloc, list, question).expect(rt, "memory");
            events_text(rt, alloc, &answer.events, answer.more)
        }
    }
}

/// How many answers a run gave, where each is the plain one.
fn agreed(rt: &impl Abort, alloc: Global, steps: &[Step], ran: &Ran) -> u32 {
    let first = admitted_by(rt, alloc, 0, steps);
    let second = admitted_by(rt, alloc, 1, steps);
    let list = merge(alloc, &[first.as_slice(), second.as_slice()]).expect(rt, "memory");
    let mut count = 0u32;
    for (place, step) in steps.iter().enumerate() {
        if let Step::Turn(number, _) = step
            && let Some(Reply::Done(answer)) = ran.replies.get(place)
        {
            let query = query_of(steps, *number).expect(rt, "an answer without a question");
            if answer_text(rt, alloc, answer) != plain(rt, alloc, &list, &query) {
                panic!(rt; "an answer isn't that of the history at the end");
            }
            count = count.saturating_add(1);
        }
    }
    count
}

#[test]
fn answers_are_those_of_the_last_history(rt: HostRuntime) {
    let alloc = rt.alloc();
    let mut answers = 0u32;
    let mut interleaved = 0u32;
    for seed in 0..RUNS {
        let mut generator = Generator {
            state: seed as u64,
            clock: 1,
            begun: 0,
        };
        let steps = generator.steps(&rt, alloc);
        let ran = ran(&rt, alloc, COLLECTORS, &steps);
        answers = answers.saturating_add(agreed(&rt, alloc, &steps, &ran));
        if is_interleaved(&steps, &ran.replies) {
            interleaved = interleaved.saturating_add(1);
        }
    }
    be(&rt, answers > 1000, "answers");
    be(
        &rt,
        interleaved > 20,
        "runs with an application between turns",
    );
}
