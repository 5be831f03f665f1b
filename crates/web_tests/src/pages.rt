//! Answers of which more follows, and heads of many octets.

use crate::made::Stage;
use crate::playing::{Client, play};
use board::{Named, Pass};
use query_threads::{Reader, Unpromised};
use server::Meters;
use std::alloc::Global;
use std::sync::Wait;
use std::time::Clock;
use web::{Ending, Status, answer_target};

/// How many rows, or places, an answer has whose rest is asked for until there is none, and in how many answers.
#[derive(Clone, Copy, Debug, PartialEq, Eq)]
struct Followed {
    rows: usize,
    answers: usize,
}

/// A target, and what its answers have.
#[derive(Clone, Copy, Debug)]
struct Trail {
    target: &'static str,
    followed: Followed,
}

/// All routes of the peer, and the places that changed inside two prefixes. An answer has 256 at most.
const TRAILS: [Trail; 3] = [
    Trail {
        target: "/api/peer?at=1704067200&collector=0&peer=192.0.2.1&as=65001",
        followed: Followed {
            rows: 259,
            answers: 2,
        },
    },
    Trail {
        target: "/api/find?from=0&to=1704067201&prefix=11.0.0.0/15",
        followed: Followed {
            rows: 257,
            answers: 2,
        },
    },
    Trail {
        target: "/api/find?from=0&to=1704067201&prefix=11.0.0.0/16",
        followed: Followed {
            rows: 256,
            answers: 1,
        },
    },
];

/// How often a text has another one.
pub(crate) fn count_of(text: &str, part: &str) -> usize {
    let mut pieces = 0usize;
    for _ in text.split(part) {
        pieces = pieces.saturating_add(1);
    }
    pieces.saturating_sub(1)
}

/// The target of the rest.
fn next_in(body: &str) -> Option<&str> {
    let (_, beyond) = body.split_once("\"next\":\"")?;
    let (next, _) = beyond.split_once('"')?;
    Some(next)
}

/// Follows the answers to a target.
fn follow<B: Named>(
    rt: &(impl Wait + Clock),
    alloc: Global,
    stage: &Stage<B>,
    first: &mut Pass<Unpromised<B>>,
    asked: &str,
) -> Option<Followed> {
    let mut pass = stage.split(first);
    let mut reader = Reader::new(rt, alloc, stage, 8).ok()?;
    let meters = Meters::new();
    let mut target = String::from_str(alloc, asked).ok()?;
    let mut rows = 0usize;
    for answers in 1..=9usize {
        let octets = target.as_bytes();
        let given = answer_target(rt, alloc, stage, &mut pass, &mut reader, &meters, octets);
        if given.status != Status::Done {
            return None;
        }
        rows = rows.saturating_add(count_of(given.body(), "\"prefix\":"));
        let Some(next) = next_in(given.body()) else {
            return Some(Followed { rows, answers });
        };
        target = String::from_str(alloc, next).ok()?;
    }
    None
}

/// Whether the answers of each trail have what they should.
pub(crate) fn follows_all<B: Named>(
    rt: &(impl Wait + Clock),
    alloc: Global,
    stage: &Stage<B>,
    first: &mut Pass<Unpromised<B>>,
) -> bool {
    for trail in &TRAILS {
        if follow(rt, alloc, stage, first, trail.target) != Some(trail.followed) {
            return false;
        }
    }
    true
}

/// A request whose head has this many octets.
fn request_of(alloc: Global, len: usize) -> Option<Vec<u8>> {
    let mut request = b"GET /api/info HTTP/1.1\r\nX: ".to_vec(alloc).ok()?;
    for _ in request.len()..len.saturating_sub(4) {
        request.push(b'x').ok()?;
    }
    request.extend_from_slice(b"\r\n\r\n").ok()?;
    Some(request)
}

/// Whether a request with a head of this many octets is answered so.
pub(crate) fn answers_head<B: Named>(
    rt: &(impl Wait + Clock),
    alloc: Global,
    stage: &Stage<B>,
    first: &mut Pass<Unpromised<B>>,
    len: usize,
    status: &str,
) -> Option<bool> {
    let request = request_of(alloc, len)?;
    let client = Client {
        octets: request.as_slice(),
        piece: 1000,
        is_lost: false,
        is_awaited: false,
    };
    let played = play(rt, alloc, stage, first, client, usize::MAX)?;
    Some(request.len() == len && played.received.as_slice().starts_with(status.as_bytes()))
}

/// Whether a HEAD that is refused for its head has an answer without a body.
pub(crate) fn refuses_head<B: Named>(
    rt: &(impl Wait + Clock),
    alloc: Global,
    stage: &Stage<B>,
    first: &mut Pass<Unpromised<B>>,
    octets: &[u8],
) -> Option<bool> {
    let client = Client {
        octets,
        piece: 1000,
        is_lost: false,
        is_awaited: false,
    };
    let played = play(rt, alloc, stage, first, client, usize::MAX)?;
    let text = str::from_utf8(played.received.as_slice()).ok()?;
    Some(text.starts_with("HTTP/1.1 400") && text.ends_with("\r\n\r\n"))
}

/// Whether one of two requests is answered, and ends the connection, where others wait for its worker.
pub(crate) fn answers_awaited<B: Named>(
    rt: &(impl Wait + Clock),
    alloc: Global,
    stage: &Stage<B>,
    first: &mut Pass<Unpromised<B>>,
) -> Option<bool> {
    let client = Client {
        octets: b"GET /api/info HTTP/1.1\r\n\r\nGET /metrics HTTP/1.1\r\n\r\n",
        piece: 1000,
        is_lost: false,
        is_awaited: true,
    };
    let played = play(rt, alloc, stage, first, client, usize::MAX)?;
    let text = str::from_utf8(played.received.as_slice()).ok()?;
    Some(text.contains("Connection: close") && count_of(text, "HTTP/1.1 ") == 1)
}

/// How a connection ends whose client is lost after its request, or takes only this many octets.
pub(crate) fn ending_of<B: Named>(
    rt: &(impl Wait + Clock),
    alloc: Global,
    stage: &Stage<B>,
    first: &mut Pass<Unpromised<B>>,
    room: usize,
) -> Option<Ending> {
    let client = Client {
        octets: b"GET /api/info HTTP/1.1\r\n\r\n",
        piece: 1000,
        is_lost: true,
        is_awaited: false,
    };
    Some(play(rt, alloc, stage, first, client, room)?.ending)
}
