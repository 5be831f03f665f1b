//! What all runs of a life begin with: the prepared disks, and what is known of a life that is never stopped.

use crate::acts::{Act, Script};
use crate::disks::{Both, Played};
use crate::loads::load_disks;
use crate::played::{Outcome, apply, apply_all, ask, flush, flush_all, give, set_mark, state_of};
use crate::pure::{Known, NOW, Pure};
use crate::records::{Record, batch_of};
use route_model::Admission;
use std::alloc::Global;

/// The records of a batch.
#[derive(Drop)]
pub struct Batch {
    records: Vec<Admission>,
}

/// The prepared disks, and the batches.
pub struct Stage {
    pub alloc: Global,
    pub script: Script,
    pub disks: Both,
    pub batches: Vec<Batch>,
    /// The states from the beginning on, of which applications have one for each change.
    pub known: Vec<Known>,
    /// The place of the state before each act, and at the end.
    pub places: Vec<usize>,
}

// Written out, as those of the disks are.
impl Drop for Stage {
    fn drop(self) {
        let Stage {
            alloc: _,
            script: _,
            disks: _disks,
            batches: _batches,
            known: _known,
            places: _places,
        } = self;
    }
}

fn batches(alloc: Global, all: &[&[Record]]) -> Option<Vec<Batch>> {
    let mut batches = Vec::new(alloc);
    for records in all {
        let records = batch_of(alloc, records)?;
        batches.push(Batch { records }).ok()?;
    }
    Some(batches)
}

/// The pure machine does what a call of a life but an application does.
fn follows(pure: &mut Pure, batches: &[Batch], act: &Act) -> bool {
    match *act {
        Act::Admit(collector, number) => match batches.get(number) {
            Some(batch) => pure.give(collector, &batch.records),
            None => false,
        },
        Act::Mark(collector, seconds) => pure.set_mark(collector, seconds),
        Act::Apply | Act::Flush => true,
    }
}

impl Stage {
    /// The archive makes a call of a life.
    pub fn call(&self, archive: &mut Played, act: &Act) -> Outcome {
        match *act {
            Act::Admit(collector, number) => match self.batches.get(number) {
                Some(batch) => give(archive, collector, &batch.records),
                None => Outcome::Other,
            },
            Act::Mark(collector, seconds) => set_mark(archive, collector, seconds),
            Act::Apply => apply(archive),
            Act::Flush => flush(archive),
        }
    }

    /// The archive makes the act of this number.
    pub fn make(&self, archive: &mut Played, number: usize) -> Outcome {
        match self.script.acts.get(number) {
            Some(act) => self.call(archive, act),
            None => Outcome::Other,
        }
    }

    /// The life goes on from an act, and what follows it, until nothing is left to be done. Returns whether each call did what it has to.
    pub fn play_from(&self, archive: &mut Played, from: usize) -> bool {
        for number in from..self.script.acts.len() {
            if !self.make(archive, number).is_done() {
                return false;
            }
        }
        apply_all(archive) && flush_all(archive)
    }

    /// The place of the state at the end.
    pub fn last_place(&self) -> usize {
        self.known.len().saturating_sub(1)
    }

    /// The place of the state before the act of this number.
    pub fn place_at(&self, act: usize) -> usize {
        match self.places.get(act) {
            Some(place) => *place,
            None => 0,
        }
    }

    /// Whether an archive is in the state at a place.
    pub fn is_state(&self, archive: &Played, place: usize) -> bool {
        match self.known.get(place) {
            Some(known) => known.state == state_of(archive),
            None => false,
        }
    }

    /// The first of these places at which the state is that of an archive.
    pub fn find(&self, archive: &Played, from: usize, to: usize) -> Option<usize> {
        for place in from..to.saturating_add(1) {
            if self.is_state(archive, place) {
                return Some(place);
            }
        }
        None
    }

    /// Asks the question of this number: done where it's answered as at a place.
    pub fn ask(&self, archive: &mut Played, place: usize, number: usize) -> Outcome {
        let Some(known) = self.known.get(place) else {
            return Outcome::Other;
        };
        match known.answers.get(number) {
            Some(asked) => ask(archive, &asked.query, &asked.reply),
            None => Outcome::Other,
        }
    }

    /// Whether an archive is in the state at a place, and answers each question so, that of now among them.
    pub fn is_at(&self, archive: &mut Played, place: usize) -> bool {
        for number in 0..NOW + 1 {
            if self.ask(archive, place, number) != Outcome::Done {
                return false;
            }
        }
        self.is_state(archive, place)
    }

    /// Both make a call. Returns whether they do.
    fn both_do(&self, archive: &mut Played, pure: &mut Pure, act: &Act) -> bool {
        self.call(archive, act).is_done() && follows(pure, &self.batches, act)
    }

    /// Both do what comes before the life: records wait then, and slots are open.
    fn begin(&mut self, pure: &mut Pure) -> Option<()> {
        let mut archive = self.disks.copy()?.open(self.alloc).ok()?;
        for act in self.script.before {
            if !self.both_do(&mut archive, pure, act) {
                return None;
            }
        }
        self.disks = archive.given_up();
        Some(())
    }

    /// Remembers the pure machine's states after a call that both made: where it applied changes, the state after each of them, until
    /// this number is applied.
    fn know(&mut self, pure: &mut Pure, act: &Act, applied: u64) -> Option<()> {
        let is_apply = matches!(act, Act::Apply);
        let states = if is_apply {
            applied.saturating_sub(pure.applied)
        } else {
            1
        };
        for _ in 0..states {
            if is_apply && !pure.apply() {
                return None;
            }
            self.known.push(pure.known()?).ok()?;
        }
        Some(())
    }

    /// Both make a call of the life, and all states are remembered, and which place the last one has.
    fn make_both(&mut self, archive: &mut Played, pure: &mut Pure, act: &Act) -> Option<()> {
        if !self.both_do(archive, pure, act) {
            return None;
        }
        self.know(pure, act, archive.archive.applied())?;
        let place = self.last_place();
        self.places.push(place).ok()
    }

    /// Both make the life and what follows it.
    fn make_life(&mut self, pure: &mut Pure) -> Option<()> {
        let mut archive = self.disks.copy()?.open(self.alloc).ok()?;
        self.known.push(pure.known()?).ok()?;
        self.places.push(0).ok()?;
        let acts = self.script.acts;
        for act in acts {
            self.make_both(&mut archive, pure, act)?;
        }
        Some(())
    }
}

/// The stage for all runs of a life. None where memory runs out, or where the archive and the pure machine don't agree.
pub fn prepare(alloc: Global, script: &Script) -> Option<Stage> {
    let mut pure = Pure::new(alloc)?;
    let batches = batches(alloc, script.batches)?;
    let disks = load_disks(alloc, script, &mut pure)?;
    let mut stage = Stage {
        alloc,
        script: *script,
        disks,
        batches,
        known: Vec::new(alloc),
        places: Vec::new(alloc),
    };
    stage.begin(&mut pure)?;
    stage.make_life(&mut pure)?;
    Some(stage)
}
