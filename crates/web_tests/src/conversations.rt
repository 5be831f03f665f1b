//! Connections to an archive: what they receive, whether their octets come at once or one at a time.

ghost use Rattle.std.specs.Prelude.{◌≡◌, ◌≤◌};
ghost use Rattle.board.specs.Opened.{name_of};

use crate::asked::{CONVERSATIONS, Conversation};
use crate::be;
use crate::made::{COLLECTORS, Stage, empty_store, give};
use crate::pages::{answers_awaited, answers_head, count_of, ending_of, follows_all, refuses_head};
use crate::playing::{Client, play};
use board::{Named, Opened, Pass};
use query_threads::{NoGate, Shared, Unpromised};
use shared_archive::MemStore;
use std::alloc::Global;
use std::marker::Brand;
use std::sync::Wait;
use std::time::Clock;
use web::Ending;

/// Whether these octets are what a connection should receive.
fn is_right(it: &Conversation, received: &[u8]) -> bool {
    let Ok(text) = str::from_utf8(received) else {
        return false;
    };
    for part in &it.parts {
        if !text.contains(*part) {
            return false;
        }
    }
    count_of(text, "HTTP/1.1 ") == it.answers && count_of(text, it.each) == it.answers
}

/// Whether a connection receives what it should where its octets come this many at a time.
fn is_so<B: Named>(
    rt: &(impl Wait + Clock),
    alloc: Global,
    stage: &Stage<B>,
    first: &mut Pass<Unpromised<B>>,
    it: &Conversation,
    piece: usize,
) -> Option<bool> {
    let client = Client {
        octets: it.sent,
        piece,
        is_lost: false,
        is_awaited: false,
    };
    let played = play(rt, alloc, stage, first, client, usize::MAX)?;
    Some(played.ending == Ending::Done && is_right(it, &played.received))
}

/// The connections that aren't as they should be, by their places.
fn wrong_places<B: Named>(
    rt: &(impl Wait + Clock),
    alloc: Global,
    stage: &Stage<B>,
    first: &mut Pass<Unpromised<B>>,
) -> Option<Vec<usize>> {
    let mut places = Vec::new(alloc);
    for (place, it) in CONVERSATIONS.iter().enumerate() {
        for piece in [1usize, usize::MAX] {
            if is_so(rt, alloc, stage, first, it, piece) != Some(true) {
                places.push(place).ok()?;
            }
        }
    }
    Some(places)
}

/// HEAD requests that are refused for their heads.
const WITH_BODY: &[u8] = b"HEAD /api/info HTTP/1.1\r\nContent-Length: 5\r\n\r\n";

const NOT_HTTP: &[u8] = b"\r\nHEAD /api/info HTTP/2.0\r\n\r\n";

/// What isn't as it should be; none if all is.
fn wrong_of<B: Named>(
    rt: &(impl Wait + Clock),
    alloc: Global,
    stage: &Stage<B>,
    first: &mut Pass<Unpromised<B>>,
) -> Option<&'static str> {
    if !follows_all(rt, alloc, stage, first) {
        return Some("the rows of all answers");
    }
    if answers_head(rt, alloc, stage, first, 8192, "HTTP/1.1 200") != Some(true) {
        return Some("a head of 8192 octets");
    }
    if answers_head(rt, alloc, stage, first, 8193, "HTTP/1.1 431") != Some(true) {
        return Some("a head of 8193 octets");
    }
    if refuses_head(rt, alloc, stage, first, WITH_BODY) != Some(true) {
        return Some("a HEAD with a body");
    }
    if refuses_head(rt, alloc, stage, first, NOT_HTTP) != Some(true) {
        return Some("a HEAD of another version");
    }
    if answers_awaited(rt, alloc, stage, first) != Some(true) {
        return Some("a client for whose worker others wait");
    }
    if ending_of(rt, alloc, stage, first, usize::MAX) != Some(Ending::Failed) {
        return Some("a client that is lost");
    }
    if ending_of(rt, alloc, stage, first, 100) != Some(Ending::Failed) {
        return Some("a client that takes 100 octets");
    }
    None
}

/// The connections that aren't as they should be, and what else isn't.
#[derive(Debug, Drop)]
struct Wrong {
    places: Vec<usize>,
    what: Option<&'static str>,
}

fn play_all<B: Named>(
    rt: &(impl Wait + Clock),
    alloc: Global,
    opened: Opened,
    store: MemStore,
) -> Option<Wrong>
    requires named { name_of opened ≡ B.table }
    requires some { 1 ≤ opened.collectors }
{
    let (stage, mut first): (Stage<B>, Pass<Unpromised<B>>) = Shared::new::<Unpromised<B>>(
        opened, store, NoGate,
    );
    let given = give(rt, alloc, &stage, &mut first);
    let places = wrong_places(rt, alloc, &stage, &mut first);
    let what = wrong_of(rt, alloc, &stage, &mut first);
    let _store = stage.close(Vec::new(alloc));
    given?;
    Some(Wrong {
        places: places?,
        what,
    })
}

/// What isn't as it should be of an archive to which all records were given.
fn played(rt: &(impl Wait + Clock), alloc: Global) -> Option<Wrong> {
    let store = empty_store(alloc)?;
    let opened = Opened::new(alloc, COLLECTORS).ok()?;
    play_all::<Brand>(rt, alloc, opened, store)
}

#[test]
fn requests_are_answered_as_they_should_be(rt: HostRuntime) {
    let Some(wrong) = played(&rt, rt.alloc()) else {
        return be(&rt, false, "the archive");
    };
    let places = &wrong.places;
    assert!(rt; places.is_empty(), "conversations {places:?}");
    be(&rt, wrong.what.is_none(), wrong.what.unwrap_or(""));
}
