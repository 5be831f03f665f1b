//! Two threads on an archive that they share.

ghost use Rattle.std.specs.Prelude.{◌≡◌, ◌≤◌, IfSome, IsSome, Some, length};
ghost use Rattle.interleaving_core.specs.Steps.{empty};
ghost use Rattle.archive_pages.specs.Places.{AreSettings};
ghost use Rattle.board.specs.Opened.{name_of};
ghost use Rattle.board.specs.Past.{Past};
ghost use Rattle.board.specs.Views.{IsFrontOf, View};
ghost use Rattle.shared_archive.specs.Represented.{RepresentsPast};
ghost use Rattle.shared_archive.specs.Held.{HeldRepresents, disk_in, pages_in};
ghost use Rattle.thread_tests.specs.Works.{Follows, IsPlayed};

use crate::playing::{Done, Stage, run};
use crate::works::{Returned, Work};
use archive_pages::Settings;
use board::{Named, Opened, Pass, Target};
use disk_archive::Archive;
use disk_memory::{MemErase, MemOnce};
use query_threads::{NoGate, OnDisk, Shared};
use shared_archive::laws::past_is_represented;
use shared_archive::{MemStore, NoRenewal};
use std::alloc::Global;
use std::marker::Brand;
use std::sync::{Arc, Wait};
use std::thread;
use std::thread::Threads;

/// An archive that two threads shared, when it is closed, and what the calls of each returned.
#[derive(Drop)]
pub struct Played {
    pub store: MemStore,
    pub one: Vec<Returned>,
    pub two: Vec<Returned>,
}

// Both threads.
fn both<N: Named + OnDisk<MemOnce> + Send + Sync, R: Threads + Wait + Sync>(
    rt: &R,
    alloc: Global,
    stage: &Stage<N>,
    first: Pass<N>,
    second: Pass<N>,
    one: Vec<Work>,
    two: Vec<Work>,
) -> (Done<N>, Done<N>)
    ensures front { IsSome N.disk → IfSome result.0.returned (λ returned. Follows one.items returned.items first result.0.pass) }
    ensures other { IsSome N.disk → IfSome result.1.returned (λ returned. Follows two.items returned.items second result.1.pass) }
{
    thread::join(
        rt,
        move || -> Done<N>
            ensures { IsSome N.disk → IfSome result.returned (λ returned. Follows one.items returned.items first result.pass) }
        { run(rt, alloc, stage, first, one) },
        move || -> Done<N>
            ensures { IsSome N.disk → IfSome result.returned (λ returned. Follows two.items returned.items second result.pass) }
        { run(rt, alloc, stage, second, two) },
    )
}

// The store, once both threads are done. None where there is no memory for their passes.
fn close<N: Named + OnDisk<MemOnce>>(
    alloc: Global,
    stage: Stage<N>,
    first: Pass<N>,
    second: Pass<N>,
) -> Option<MemStore>
    ensures fronts { IsSome N.disk → IfSome result (λ store. (last : Past) × HeldRepresents store.archive last × IsFrontOf last first × IsFrontOf last second) }
{
    let mut passes = Vec::new(alloc);
    let one = passes.push(first);
    let other = passes.push(second);
    let store = stage.close(passes);
    match (one, other) {
        (Ok(()), Ok(())) => Some(store),
        _ => None,
    }
}

// Both threads, on the board and the disk that `N` names.
fn play<N: Named + OnDisk<MemOnce> + Send + Sync, X: Target, R: Threads + Wait + Sync>(
    rt: &R,
    alloc: Global,
    opened: Opened,
    store: MemStore,
    one: Vec<Work>,
    two: Vec<Work>,
) -> Option<Played>
    requires named { name_of opened ≡ N.table }
    requires some { 1 ≤ opened.collectors }
    requires disk { N.disk ≡ Some (disk_in store.archive) }
    requires pages { N.pages ≡ pages_in store.archive }
    requires represented { (p : Past) × HeldRepresents store.archive p × (length p.history.intakes ≡ opened.collectors) × X.fits p }
    ensures played { IfSome result (λ played. (first : View) × X.fits first.past × HeldRepresents store.archive first.past × IsPlayed first one.items two.items played) }
{
    let (stage, mut first): (Stage<N>, Pass<N>) = Shared::new::<X>(opened, store, NoGate);
    let second = stage.split(&mut first);
    let (front, other) = both(rt, alloc, &stage, first, second, one, two);
    let Done {
        pass: first,
        returned: ran,
    } = front;
    let Done {
        pass: second,
        returned: also,
    } = other;
    let closed = close(alloc, stage, first, second);
    match (closed, ran, also) {
        (Some(store), Some(one), Some(two)) => Some(Played { store, one, two }),
        _ => None,
    }
}

/// Two threads share an archive, and each makes its calls, from a past that it represents and that fits, for the caller's choice of `X`. The
/// archive is closed when both are done. None where there is no memory.
pub fn share<X: Target, R: Threads + Wait + Sync>(
    rt: &R,
    alloc: Global,
    archive: Archive<MemErase, MemOnce>,
    one: Vec<Work>,
    two: Vec<Work>,
) -> Option<Played>
    requires represented { (p : Past) × RepresentsPast archive p × X.fits p }
    ensures played { IfSome result (λ played. (first : View) × X.fits first.past × RepresentsPast archive first.past × IsPlayed first one.items two.items played) }
{
    let Ok(opened) = Opened::new(alloc, archive.collectors()) else {
        return None;
    };
    let store = MemStore::new(archive, NoRenewal);
    play::<Brand, X, R>(rt, alloc, opened, store, one, two)
}

/// The same on a new archive, on disks of this many octets and blocks. None where it can't be made.
pub fn share_new<R: Threads + Wait + Sync>(
    rt: &R,
    alloc: Global,
    settings: Settings,
    octets: u64,
    blocks: u64,
    one: Vec<Work>,
    two: Vec<Work>,
) -> Option<Played>
    requires settings { AreSettings settings }
    ensures played { IfSome result (λ played. (first : View) × (first.past.history ≡ empty settings.collectors) × IsPlayed first one.items two.items played) }
{
    let erase = MemErase::new(alloc, octets);
    let (once, pen) = MemOnce::new(alloc, blocks);
    let once = Arc::new(alloc, once).ok()?;
    match Archive::create(alloc, erase, once, pen, settings) {
        Ok(archive) => {
            past_is_represented(&archive);
            share::<Brand, R>(rt, alloc, archive, one, two)
        }
        Err(_) => None,
    }
}
