//! Two threads on a new archive, whose replies are proved: by `share_new` each answer is that of the history which the closed archive represents.

use crate::be;
use crate::made::{
    BLOCKS, COLLECTORS, FIRST, OCTETS, RING, SECOND, announcements, mark_of, peer_of, prefix_of,
    route_of, routes_at, withdrawal,
};
use crate::sharing::{Played, share_new};
use crate::works::{Returned, Work};
use archive_pages::Settings;
use interleaving_core::Answer;
use query_threads::{AskError, Store};
use route_meaning::Row;
use route_model::{Admission, SharedRoute};
use std::alloc::Global;
use std::sync::Wait;
use std::thread::Threads;

/// How many changes both collectors give.
const CHANGES: u8 = 3;

// What the thread of a collector does: a batch, a mark after it, as many steps as may apply all of both, and the question of all routes
// just below the marks. Whose mark comes second is answered.
fn works_of(alloc: Global, collector: u8, batch: Vec<Admission>) -> Option<Vec<Work>> {
    let mut works = Vec::new(alloc);
    works.push(Work::Admit(collector, batch)).ok()?;
    works.push(Work::Mark(collector, mark_of(SECOND))).ok()?;
    for _ in 0..CHANGES {
        works.push(Work::Apply).ok()?;
    }
    works.push(Work::Ask(routes_at(SECOND - 1))).ok()?;
    Some(works)
}

fn play<R: Threads + Wait + Sync>(rt: &R, alloc: Global) -> Option<Played> {
    let settings = Settings {
        collectors: COLLECTORS,
        ring: RING,
    };
    let one = works_of(alloc, 0, announcements(alloc, FIRST, 1)?)?;
    let two = works_of(alloc, 1, withdrawal(alloc, FIRST)?)?;
    share_new(rt, alloc, settings, OCTETS, BLOCKS, one, two)
}

// Whether it is the route that wasn't withdrawn.
fn is_left(row: &Row, route: &SharedRoute) -> bool {
    row.peer == peer_of(0, 1)
        && row.prefix == prefix_of(0)
        && row.route.encoding() == route.encoding()
}

// Whether that route is the only row.
fn is_expected(answer: &Answer, route: &SharedRoute) -> bool {
    match answer {
        Answer::Rows(rows) => {
            rows.rows.len() == 1 && !rows.more && rows.rows.iter().all(|row| is_left(row, route))
        }
        Answer::Events(_) => false,
    }
}

// Whether a call succeeded, by the expected answer if it was a question. That may also be refused as not settled yet.
fn is_right(returned: &Returned, route: &SharedRoute) -> bool {
    match returned {
        Returned::Admitted(reply) => reply.is_ok(),
        Returned::Marked(marked) => marked.is_ok(),
        Returned::Applied(step) => step.is_ok(),
        Returned::Answered(Ok(answer)) => is_expected(answer, route),
        Returned::Answered(Err(why)) => matches!(why, AskError::AboveWatermark(_)),
    }
}

fn is_answered(returned: &[Returned]) -> bool {
    matches!(returned.last(), Some(Returned::Answered(Ok(_))))
}

// Whether all calls of both threads were replied as they must be, and at least one question was answered.
fn all_right(played: &Played, route: &SharedRoute) -> bool {
    played.one.iter().all(|it| is_right(it, route))
        && played.two.iter().all(|it| is_right(it, route))
        && (is_answered(&played.one) || is_answered(&played.two))
}

#[test]
fn threads_are_answered_what_the_closed_archive_represents(rt: HostRuntime) {
    let route = route_of(rt.alloc(), 0).expect(&rt, "memory for the route");
    let played = play(&rt, rt.alloc()).expect(&rt, "memory for the threads");
    be(&rt, all_right(&played, &route), "all is replied");
    be(
        &rt,
        played.store.admitted(0) == 1 && played.store.admitted(1) == 1,
        "the closed archive has both batches",
    );
}
