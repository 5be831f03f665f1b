//! Worked examples of questions.

use super::asking::{ask_events, ask_rows};
use super::said::{Said, change_of, moment_of, peer_of, prefix_of};
use super::store::{ListStore, Past, place_of};
use crate::{be, be_at};
use route_meaning::{EventsQuestion, RowsQuestion, Select, Spot};
use route_model::{Address, Key, Moment, Peer, Prefix};
use std::alloc::Global;
use version_model::Stamp;

/// A store, and a shelf whose block is asked for by nothing.
#[derive(Drop)]
struct Example {
    alloc: Global,
    store: ListStore,
    past: Past,
}

impl Example {
    fn new(alloc: Global) -> Option<Example> {
        let store = ListStore::new(alloc);
        // A key above those of all peers of the tests.
        let place = place_of(Key::from_octets(&[255; 40]), Stamp::new(Moment::SECOND, 0));
        let past = Past::of(alloc, &store, &place, 1)?;
        Some(Example { alloc, store, past })
    }

    /// A peer says something at a time. Whether it is kept.
    fn represents_node(&mut self, time: u32, peer: Peer, said: Said) -> bool {
        match change_of(self.alloc, peer, said) {
            Some(change) => self.store.apply(moment_of(time), &change).is_some(),
            None => false,
        }
    }

    /// Whether this is the answer to a question of a moment.
    fn answers(&mut self, moment: u32, select: Select, expected: &str) -> bool {
        let question = RowsQuestion {
            moment: moment_of(moment),
            select,
            after: None,
        };
        match ask_rows(self.alloc, &mut self.store, &mut self.past, question) {
            Some(text) => text.as_str() == expected,
            None => false,
        }
    }

    /// The answer to a question of a history.
    fn reports(&mut self, question: EventsQuestion) -> Option<String> {
        ask_events(self.alloc, &mut self.store, &mut self.past, question)
    }
}

/// The octets of an address in 2001:db8::/32.
fn wide(third: u8, last: u8) -> [u8; 16] {
    [32, 1, 13, 184, 0, third, 0, 0, 0, 0, 0, 0, 0, 0, 0, last]
}

/// What covers an address in 2001:db8::/32.
fn covering(third: u8) -> Select {
    Select::Covering(Address::V6(wide(third, 1)))
}

/// A prefix of `length` bits, at most 128, that contains an address in 2001:db8::/32.
fn wide_prefix(third: u8, length: u8) -> Prefix {
    Prefix::containing(Address::V6(wide(third, 0)), length.min(128))
}

/// A peer announces 2001:db8:7::/48, 2001:db8::/32, an IPv4 prefix of the same octets, and all addresses. Whether that is kept.
fn says_wide(example: &mut Example) -> bool {
    let peer = peer_of(0, 65001);
    let other = Prefix::containing(Address::V4([32, 1, 13, 184]), 32);
    example.represents_node(5, peer, Said::Announces(wide_prefix(7, 48), 2))
        && example.represents_node(5, peer, Said::Announces(wide_prefix(0, 32), 1))
        && example.represents_node(5, peer, Said::Announces(other, 4))
        && example.represents_node(6, peer, Said::Announces(wide_prefix(0, 0), 3))
}

#[test]
fn a_route_is_found_by_an_address_that_it_covers(rt: HostRuntime) {
    let mut example = Example::new(rt.alloc()).expect(&rt, "a store");
    be(&rt, says_wide(&mut example), "four announcements");
    be(&rt, example.answers(4, covering(7), "rows"), "before");
    let both = "rows 0-65001 6:32.1.13.184/32 1; 0-65001 6:32.1.13.184/48 2;";
    be(&rt, example.answers(5, covering(7), both), "inside of both");
    let one = "rows 0-65001 6:32.1.13.184/32 1;";
    be(&rt, example.answers(5, covering(8), one), "inside of one");
    let all = "rows 0-65001 6:0.0.0.0/0 3; 0-65001 6:32.1.13.184/32 1;";
    be(
        &rt,
        example.answers(6, covering(8), all),
        "inside of all addresses",
    );
}

/// Two peers announce 10.1.0.0/16. Whether that is kept.
fn say_both(example: &mut Example) -> bool {
    let set = Prefix::containing(Address::V4([10, 1, 2, 3]), 16);
    example.represents_node(5, peer_of(0, 65001), Said::Announces(set, 1))
        && example.represents_node(5, peer_of(1, 65001), Said::Announces(set, 2))
}

#[test]
fn bits_past_the_length_of_a_prefix_count_for_nothing(rt: HostRuntime) {
    let mut example = Example::new(rt.alloc()).expect(&rt, "a store");
    be(&rt, say_both(&mut example), "two announcements");
    let peer = peer_of(0, 65001);
    let first = "rows 0-65001 4:10.1.0.0/16 1;";
    be(
        &rt,
        example.answers(5, Select::PeerTable(peer), first),
        "a table",
    );
    let one = Prefix::containing(Address::V4([10, 1, 255, 255]), 16);
    be(
        &rt,
        example.answers(5, Select::Route(peer, one), first),
        "a route",
    );
    let both = "rows 0-65001 4:10.1.0.0/16 1; 1-65001 4:10.1.0.0/16 2;";
    be(
        &rt,
        example.answers(5, Select::ByPrefix(prefix_of(1, 9, 16)), both),
        "a prefix",
    );
}

/// Two peers at one address announce, and the session of one of them ends. Whether that is kept.
fn say_an_end(example: &mut Example) -> bool {
    let peer = peer_of(0, 65001);
    let first = prefix_of(0, 0, 16);
    example.represents_node(7, peer, Said::Announces(first, 1))
        && example.represents_node(7, peer, Said::Announces(prefix_of(1, 0, 16), 2))
        && example.represents_node(7, peer_of(0, 65002), Said::Announces(first, 3))
        && example.represents_node(8, peer, Said::Ends)
        && example.represents_node(8, peer, Said::Announces(first, 4))
        && example.represents_node(9, peer, Said::Withdraws(first))
}

/// A moment, and all rows.
const ROWS: [(u32, &str); 4] = [
    (6, "rows"),
    (
        7,
        "rows 0-65001 4:10.0.0.0/16 1; 0-65001 4:10.1.0.0/16 2; 0-65002 4:10.0.0.0/16 3;",
    ),
    (8, "rows 0-65001 4:10.0.0.0/16 4; 0-65002 4:10.0.0.0/16 3;"),
    (9, "rows 0-65002 4:10.0.0.0/16 3;"),
];

/// A span and how many are left out, and the events.
const EVENTS: [(u32, u32, u64, &str); 6] = [
    (
        0,
        9,
        0,
        "events 7+4:10.0.0.0/16 1; 8all; 8+4:10.0.0.0/16 4; 9-4:10.0.0.0/16;",
    ),
    (0, 9, 2, "events 8+4:10.0.0.0/16 4; 9-4:10.0.0.0/16;"),
    (8, 8, 0, "events 8all; 8+4:10.0.0.0/16 4;"),
    (8, 8, 5, "events"),
    (9, 8, 0, "events"),
    (0, 6, 0, "events"),
];

/// What the first peer said of 10.0.0.0/16 from one moment to another, without the first `skip` events.
fn history_of(from: u32, to: u32, skip: u64) -> EventsQuestion {
    EventsQuestion {
        from: moment_of(from),
        to: moment_of(to),
        peer: peer_of(0, 65001),
        prefix: prefix_of(0, 0, 16),
        skip,
    }
}

/// Whether these are the events of a history.
fn are_events(example: &mut Example, question: EventsQuestion, expected: &str) -> bool {
    match example.reports(question) {
        Some(text) => text.as_str() == expected,
        None => false,
    }
}

#[test]
fn the_end_of_a_session_ends_its_routes_and_is_reported(rt: HostRuntime) {
    let mut example = Example::new(rt.alloc()).expect(&rt, "a store");
    be(&rt, say_an_end(&mut example), "six changes");
    for (moment, rows) in &ROWS {
        let are_rows = example.answers(*moment, Select::All, *rows);
        be_at(&rt, are_rows, "rows", u64::from(*moment));
    }
    for (from, to, skip, events) in &EVENTS {
        let are_events = are_events(&mut example, history_of(*from, *to, *skip), *events);
        be_at(&rt, are_events, "events", *skip);
    }
}

/// A store of `count` prefixes of one peer.
fn table_of(alloc: Global, count: u16) -> Option<Example> {
    let mut example = Example::new(alloc)?;
    for number in 0..count {
        let [high, low] = number.to_be_bytes();
        let prefix = prefix_of(high, low, 24);
        if !example.represents_node(5, peer_of(0, 65001), Said::Announces(prefix, 1)) {
            return None;
        }
    }
    Some(example)
}

/// How many octets of a text end a row or an event.
fn count_ends(text: &str) -> usize {
    text.as_bytes()
        .iter()
        .filter(|octet| **octet == b';')
        .count()
}

/// Whether all rows are 256, and their text ends so.
fn ends_with(example: &mut Example, end: &str) -> bool {
    let question = RowsQuestion {
        moment: moment_of(5),
        select: Select::All,
        after: None,
    };
    match ask_rows(
        example.alloc,
        &mut example.store,
        &mut example.past,
        question,
    ) {
        Some(text) => count_ends(&text) == 256 && text.ends_with(end),
        None => false,
    }
}

/// Whether exactly this row follows the 256th of a table.
fn is_followed(example: &mut Example, expected: &str) -> bool {
    let question = RowsQuestion {
        moment: moment_of(5),
        select: Select::All,
        after: Some(Spot {
            peer: peer_of(0, 65001),
            prefix: prefix_of(0, 255, 24),
        }),
    };
    match ask_rows(
        example.alloc,
        &mut example.store,
        &mut example.past,
        question,
    ) {
        Some(text) => text.as_str() == expected,
        None => false,
    }
}

#[test]
fn an_answer_has_256_rows_and_reports_whether_more_follow(rt: HostRuntime) {
    let mut table = table_of(rt.alloc(), 257).expect(&rt, "257 prefixes");
    be(
        &rt,
        ends_with(&mut table, " 0-65001 4:10.0.255.0/24 1; more"),
        "256 of 257 rows",
    );
    be(
        &rt,
        is_followed(&mut table, "rows 0-65001 4:10.1.0.0/24 1;"),
        "the last row",
    );
    let mut table = table_of(rt.alloc(), 256).expect(&rt, "256 prefixes");
    be(
        &rt,
        ends_with(&mut table, " 0-65001 4:10.0.255.0/24 1;"),
        "256 of 256 rows",
    );
}

/// A store of 257 ends of sessions of one peer.
fn ends_of(alloc: Global) -> Option<Example> {
    let mut example = Example::new(alloc)?;
    for time in 0..257u32 {
        if !example.represents_node(time, peer_of(0, 65001), Said::Ends) {
            return None;
        }
    }
    Some(example)
}

/// Whether the events of the whole history, without the first `skip`, begin and end so.
fn are_from_to(example: &mut Example, skip: u64, start: &str, end: &str) -> bool {
    match example.reports(history_of(0, 256, skip)) {
        Some(text) => text.starts_with(start) && text.ends_with(end),
        None => false,
    }
}

#[test]
fn an_answer_has_256_events_and_reports_whether_more_follow(rt: HostRuntime) {
    let mut example = ends_of(rt.alloc()).expect(&rt, "257 ends");
    be(
        &rt,
        are_from_to(&mut example, 0, "events 0all;", " 255all; more"),
        "256 of 257",
    );
    be(
        &rt,
        are_from_to(&mut example, 1, "events 1all; 2all;", " 256all;"),
        "256 of 256",
    );
    be(
        &rt,
        are_events(&mut example, history_of(0, 256, 256), "events 256all;"),
        "the last",
    );
}
