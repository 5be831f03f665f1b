//! Feeds, one after another and into rings that are full, and batches that are as large as may be.

use crate::be;
use crate::desk::{feeds_as, loads_as};
use crate::pure::{Pure, Rings};
use crate::samples::{
    EARLIER, EMPTY, LONG_PREFIX, UPDATE, cut_stream, many_updates, stream, two_tables,
};
use service::{End, FeedSettings, FeedStop, LoadSettings, Status, WithoutHop};
use std::alloc::Global;

pub(crate) const QUESTION: &str = "at 1704067200 prefix 10.0.0.0/8";

/// Whether a load of the octets in batches without a limit of number writes these lines.
fn fits_as(alloc: Global, octets: Option<Vec<u8>>, lines: &str) -> Option<bool> {
    let mut archive = Pure::new(alloc, 1)?;
    let how = LoadSettings {
        feed: FeedSettings {
            collector: 0,
            limit: 100_000,
            rule: WithoutHop::Refused,
        },
        mark: None,
        resume: false,
        strict: false,
    };
    Some(loads_as(alloc, &mut archive, how, &octets?, lines, "", Status::Done))
}

const MANY_LINES: &str = "B|0|3692|3692\nB|3692|3693|3693\nF|3693|3693|0|0|0\nS|1704067200\n";

// Each admission has 4 octets before it: 131,072 and 131,072 fit, 131,072 and 131,073 don't.
const ONE_BATCH: &str = "B|0|2|2\nF|3|2|0|0|0\nS|1704067200\n";

const TWO_BATCHES: &str = "B|0|1|1\nB|1|2|2\nF|3|2|0|0|0\nS|1704067200\n";

#[test]
fn batches_are_offered_before_they_are_too_large(rt: HostRuntime) {
    let alloc = rt.alloc();
    let many = fits_as(alloc, many_updates(alloc), MANY_LINES);
    be(&rt, many == Some(true), "many updates");
    let one = fits_as(alloc, two_tables(alloc, 0, 0), ONE_BATCH);
    be(&rt, one == Some(true), "one batch");
    let two = fits_as(alloc, two_tables(alloc, 0, 1), TWO_BATCHES);
    be(&rt, two == Some(true), "two batches");
}

/// Records that are fed for a collector, in batches of two, and what is written then.
struct Fed {
    collector: u8,
    records: &'static [&'static str],
    cut: Option<usize>,
    lines: &'static str,
    end: End,
}

/// Feeds of an archive of two collectors, one after another.
const FEEDS: [Fed; 5] = [
    Fed {
        collector: 1,
        records: &[UPDATE, EARLIER],
        cut: None,
        lines: "B|0|1|2\nL|1|1704067199|1704067200\nF|2|1|1|0|0\n",
        end: End::Well,
    },
    Fed {
        collector: 1,
        records: &[EMPTY, UPDATE, EARLIER],
        cut: None,
        lines: "B|1|3|4\nB|3|3|5\nL|0|1704067199|1704067200\nF|3|2|1|0|0\n",
        end: End::Well,
    },
    // The other collector has its own numbers and its own mark.
    Fed {
        collector: 0,
        records: &[EARLIER],
        cut: None,
        lines: "B|0|1|1\nF|1|1|0|0|0\n",
        end: End::Well,
    },
    // 73 and 77 octets, and the first of the third record: what waits is offered.
    Fed {
        collector: 0,
        records: &[UPDATE, LONG_PREFIX, UPDATE],
        cut: Some(151),
        lines: "X|15|Malformed|1\nB|1|2|2\nX|13|Truncated|2\nF|2|1|0|1|0\n",
        end: End::Cut,
    },
    Fed {
        collector: 2,
        records: &[LONG_PREFIX, UPDATE],
        cut: None,
        lines: "X|15|Malformed|0\nX|22|NoCollector\n",
        end: End::Refused(FeedStop::NoCollector),
    },
];

/// Whether the records are fed with these lines and this end.
fn is_fed(alloc: Global, archive: &mut Pure, fed: &Fed) -> Option<bool> {
    let octets = cut_stream(alloc, fed.records, fed.cut)?;
    Some(feeds_as(alloc, archive, fed.collector, &octets, fed.lines, fed.end))
}

/// The lines of the first feed that isn't as it has to be.
fn wrongly_fed(alloc: Global) -> Option<&'static str> {
    let Some(mut archive) = Pure::new(alloc, 2) else {
        return Some("no memory");
    };
    for fed in &FEEDS {
        if is_fed(alloc, &mut archive, fed) != Some(true) {
            return Some(fed.lines);
        }
    }
    None
}

#[test]
fn feeds_go_on_after_earlier_ones(rt: HostRuntime) {
    let wrong = wrongly_fed(rt.alloc());
    be(&rt, wrong.is_none(), wrong.unwrap_or(""));
}

/// Whether a feed of one UPDATE into such rings writes these lines, and ends so.
fn is_taken_by(alloc: Global, rings: Rings, lines: &str, end: End) -> Option<bool> {
    let mut archive = Pure::new(alloc, 1)?;
    archive.rings = rings;
    let octets = stream(alloc, &[UPDATE])?;
    Some(feeds_as(alloc, &mut archive, 0, &octets, lines, end))
}

#[test]
fn a_full_ring_is_made_room_in_once(rt: HostRuntime) {
    let lines = "B|0|1|1\nF|1|1|0|0|0\n";
    let is_taken = is_taken_by(rt.alloc(), Rings::Full, lines, End::Well);
    be(&rt, is_taken == Some(true), "a ring that is full");
    let end = End::Refused(FeedStop::IntakeFull);
    let is_given_up = is_taken_by(rt.alloc(), Rings::FullForGood, "X|23|IntakeFull\n", end);
    be(&rt, is_given_up == Some(true), "a ring that stays full");
}
