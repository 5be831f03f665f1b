//! Threads on a shared archive: what they gave and were answered is compared, at their end, with what one history holds.

ghost use Rattle.std.specs.Prelude.{◌≡◌, ◌≤◌};
ghost use Rattle.board.specs.Opened.{name_of};

use crate::be;
use crate::logs::Log;
use crate::made::{COLLECTORS, burnt_by, empty_store, loaded_store};
use crate::mixing::{Hand, HoldGate, Stage};
use crate::parts::Part;
use crate::replay::is_so;
use crate::signals::Signals;
use board::{Named, Opened, Pass};
use query_threads::{Shared, Unpromised};
use shared_archive::MemStore;
use std::alloc::Global;
use std::marker::Brand;
use std::sync::atomic::Ordering;
use std::sync::{Arc, Wait};
use std::thread;
use std::thread::Threads;

/// What stands before the threads begin, what is done before them, and what each of them does.
#[derive(Drop)]
struct Scene {
    store: MemStore,
    log: Log,
    signals: Arc<Signals>,
    first: Option<Part>,
    parts: &'static [Part],
}

/// A thread's pass, and what it does.
#[derive(Drop)]
struct Job<B: Named> {
    pass: Pass<Unpromised<B>>,
    part: Part,
    seed: u64,
}

/// What a thread gives back.
#[derive(Drop)]
struct Done<B: Named> {
    pass: Pass<Unpromised<B>>,
    log: Log,
}

/// What the archive is at the end, and what all threads did.
#[derive(Drop)]
struct Played {
    store: MemStore,
    log: Log,
}

fn job_of<B: Named>(
    stage: &Stage<B>,
    pass: &mut Pass<Unpromised<B>>,
    part: Part,
    seed: u64,
) -> Job<B> {
    Job {
        pass: stage.split(pass),
        part,
        seed,
    }
}

fn jobs_of<B: Named>(
    alloc: Global,
    stage: &Stage<B>,
    pass: &mut Pass<Unpromised<B>>,
    parts: &[Part],
) -> Option<Vec<Job<B>>> {
    let mut jobs = Vec::new(alloc);
    let mut seed = 0u64;
    for part in parts {
        jobs.push(job_of(stage, pass, *part, seed)).ok()?;
        seed = seed.wrapping_add(1);
    }
    Some(jobs)
}

fn work<B: Named>(
    rt: &impl Wait,
    alloc: Global,
    stage: &Stage<B>,
    signals: &Signals,
    job: Job<B>,
) -> Option<Done<B>> {
    let Job { pass, part, seed } = job;
    let mut hand = Hand::new(rt, alloc, stage, pass, part.capacity(seed), part.seed(seed))?;
    part.play(rt, stage, signals, &mut hand)?;
    let Hand { pass, log, .. } = hand;
    Some(Done { pass, log })
}

/// Puts what a thread did to the log, and its pass to the others. None where there was no memory.
fn gather<B: Named>(
    passes: &mut Vec<Pass<Unpromised<B>>>,
    log: &mut Log,
    ended: Option<Done<B>>,
) -> Option<()> {
    let Done { pass, log: one } = ended?;
    passes.push(pass).ok()?;
    log.add(one)
}

/// Runs the threads to their end: their passes. None where there was no memory.
fn run<B: Named + Send + Sync, R: Threads + Wait + Sync>(
    rt: &R,
    alloc: Global,
    stage: &Stage<B>,
    signals: &Signals,
    mut pass: Pass<Unpromised<B>>,
    first: Option<Part>,
    parts: &[Part],
    log: &mut Log,
) -> Option<Vec<Pass<Unpromised<B>>>> {
    let mut passes = Vec::new(alloc);
    if let Some(part) = first {
        let job = job_of(stage, &mut pass, part, 4);
        gather(&mut passes, log, work(rt, alloc, stage, signals, job))?;
    }
    let jobs = jobs_of(alloc, stage, &mut pass, parts)?;
    let run = |job: Job<B>| work(rt, alloc, stage, signals, job);
    for it in thread::map_vec(rt, jobs, &run).ok()? {
        gather(&mut passes, log, it)?;
    }
    passes.push(pass).ok()?;
    Some(passes)
}

fn play<B: Named + Send + Sync, R: Threads + Wait + Sync>(
    rt: &R,
    alloc: Global,
    opened: Opened,
    scene: Scene,
    gate: HoldGate,
) -> Played
    requires named { name_of opened ≡ B.table }
    requires some { 1 ≤ opened.collectors }
{
    let Scene {
        store,
        mut log,
        signals,
        first,
        parts,
    } = scene;
    let (stage, pass): (Stage<B>, Pass<Unpromised<B>>) = Shared::new::<Unpromised<B>>(
        opened, store, gate,
    );
    let ran = run(rt, alloc, &stage, &signals, pass, first, parts, &mut log);
    log.expect(ran.is_some());
    let store = match ran {
        Some(passes) => stage.close(passes),
        None => stage.close(Vec::new(alloc)),
    };
    Played { store, log }
}

/// Plays a scene on a board of its own.
fn run_scene<R: Threads + Wait + Sync>(rt: &R, alloc: Global, scene: Scene) -> Option<Played> {
    let gate = HoldGate {
        signals: scene.signals.clone().ok()?,
    };
    let opened = Opened::new(alloc, COLLECTORS).ok()?;
    Some(play::<Brand, R>(rt, alloc, opened, scene, gate))
}

/// A scene on an empty archive.
fn scene_of(rt: HostRuntime, first: Option<Part>, parts: &'static [Part]) -> Option<Scene> {
    let alloc = rt.alloc();
    Some(Scene {
        store: empty_store(alloc)?,
        log: Log::new(alloc),
        signals: Arc::new(alloc, Signals::new(rt)).ok()?,
        first,
        parts,
    })
}

/// Whether threads on an empty archive were answered what one history holds, which the archive then has.
fn is_right<R: Threads + Wait + Sync>(rt: &R, alloc: Global, scene: Option<Scene>) -> Option<bool> {
    let Played { store, log } = run_scene(rt, alloc, scene?)?;
    is_so(alloc, &store, &log)
}

/// Eight threads make all calls in any order.
const EIGHT: [Part; 8] = [Part::Mix(5_000); 8];

#[test]
fn eight_threads_are_answered_as_one_is(rt: HostRuntime) {
    let is_right = is_right(&rt, rt.alloc(), scene_of(rt, None, &EIGHT));
    be(&rt, is_right == Some(true), "eight threads");
}

/// One thread answers by what it gave itself, whatever others do meanwhile.
const OWN: [Part; 4] = [
    Part::Own(60),
    Part::Mix(200),
    Part::Mix(200),
    Part::Mix(200),
];

#[test]
fn a_thread_that_applied_all_is_answered_just_below_the_watermark(rt: HostRuntime) {
    let is_right = is_right(&rt, rt.alloc(), scene_of(rt, None, &OWN));
    be(&rt, is_right == Some(true), "one's own records");
}

/// Two threads ask the same questions, with readers that keep 1 block and 1,024, while a third gives and applies. Questions are about
/// moments whose records were given before.
const READERS: [Part; 3] = [Part::Give(1_200, 1_400), Part::Ask(1), Part::Ask(1_024)];

#[test]
fn readers_of_one_block_and_of_many_answer_the_same(rt: HostRuntime) {
    let scene = scene_of(rt, Some(Part::Give(1_000, 1_200)), &READERS);
    let is_right = is_right(&rt, rt.alloc(), scene);
    be(
        &rt,
        is_right == Some(true),
        "readers of one block and of many",
    );
}

/// A question is held after its first turn until another is answered, and leaves are split between.
const HELD: [Part; 2] = [Part::AskHeld, Part::GiveMeanwhile];

/// The same scene on an archive that was loaded before.
fn held_scene(rt: HostRuntime) -> Option<Scene> {
    let alloc = rt.alloc();
    let mut log = Log::new(alloc);
    let store = loaded_store(alloc, &mut log)?;
    Some(Scene {
        store,
        log,
        signals: Arc::new(alloc, Signals::new(rt)).ok()?,
        first: None,
        parts: &HELD,
    })
}

/// Whether all was answered as it must be, and leaves were split by time while the question was held: more blocks are burnt than by the
/// first records alone.
fn is_held_right<R: Threads + Wait + Sync>(rt: &R, alloc: Global, scene: Scene) -> Option<bool> {
    let Played { store, log } = run_scene(rt, alloc, scene)?;
    let is_right = is_so(alloc, &store, &log)?;
    let alone = loaded_store(alloc, &mut Log::new(alloc))?;
    Some(is_right && burnt_by(alone) < burnt_by(store))
}

#[test]
fn a_question_is_answered_while_another_is_held(rt: HostRuntime) {
    let scene = held_scene(rt).expect(&rt, "memory for the scene");
    let signals = scene.signals.clone().expect(&rt, "memory for the signals");
    let is_right = is_held_right(&rt, rt.alloc(), scene);
    be(&rt, is_right == Some(true), "a question that is held");
    be(
        &rt,
        !signals.is_late.load(Ordering::SeqCst),
        "no thread waited for too long",
    );
}
