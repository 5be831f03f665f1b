//! Worked examples, and small histories with ties of time.

ghost use Rattle.std.specs.Prelude.{◌≡◌, [], ◌∷◌};
ghost use Rattle.route_meaning.specs.History.{settled, applied};

use crate::be;
use crate::said::{
    Said, admission_of, events_text, moment_of, peer_of, prefix_of, put, put_number, route_of,
    rows_text, spot_of,
};
use route_meaning::{
    EventsQuestion, PlacedAdmission, RowsQuestion, RowsRange, Select, answer_events, answer_rows,
    merge, rows_in,
};
use route_model::{Address, Admission, Change, Moment, Prefix};
use std::alloc::Global;
use std::process::Abort;

// 2024-01-01T00:00:00Z.
const NEW_YEAR: u32 = 1_704_067_200;

// The last moment.
const LAST: u32 = u32::MAX;

// What the peer of the first collector says in one admission, at a time.
type Reported = (u32, Said);

// Which rows are asked for.
#[derive(Clone, Copy)]
enum Which {
    All,
    // Those of 10.0.0.0/16.
    ByPrefix,
    // That of 10.0.0.0/16 of the peer.
    Route,
    // Those of the peer.
    PeerTable,
    // Those whose prefixes contain this address.
    Covering([u8; 4]),
}

// Which rows are asked for at which moment, above 10.SECOND.0.0/16 or from the first one on, and their text.
struct RowsAsked(u32, Which, Option<u8>, &'static str);

// The text of what the peer said of 10.0.0.0/16 from one moment to another.
struct EventsAsked(u32, u32, &'static str);

// What two collectors gave, and what is asked of it.
struct Example {
    name: &'static str,
    first: &'static [Reported],
    second: &'static [Reported],
    rows: &'static [RowsAsked],
    events: &'static [EventsAsked],
}

const EXAMPLES: [Example; 14] = [
    Example {
        name: "a state change ends the route, and the history has it",
        first: &[
            (NEW_YEAR, Said::Announces(0, 65002)),
            (NEW_YEAR, Said::Ends),
            (NEW_YEAR, Said::Announces(0, 65003)),
        ],
        second: &[],
        rows: &[RowsAsked(NEW_YEAR, Which::ByPrefix, None, "rows 0/0:65003")],
        events: &[EventsAsked(
            NEW_YEAR,
            NEW_YEAR,
            "events 1704067200+0:65002 1704067200-all 1704067200+0:65003",
        )],
    },
    Example {
        name: "a state change ends the route",
        first: &[
            (NEW_YEAR, Said::Announces(0, 65002)),
            (NEW_YEAR, Said::Ends),
        ],
        second: &[],
        rows: &[RowsAsked(NEW_YEAR, Which::ByPrefix, None, "rows")],
        events: &[],
    },
    // A message that withdraws and announces a prefix gives no withdrawal of it; and one before it would change nothing.
    Example {
        name: "a prefix that is announced holds",
        first: &[(NEW_YEAR, Said::Announces(0, 65002))],
        second: &[],
        rows: &[RowsAsked(NEW_YEAR, Which::ByPrefix, None, "rows 0/0:65002")],
        events: &[],
    },
    Example {
        name: "a prefix that is withdrawn and announced in one message holds",
        first: &[(NEW_YEAR, Said::Renews(0, 65002))],
        second: &[],
        rows: &[RowsAsked(NEW_YEAR, Which::ByPrefix, None, "rows 0/0:65002")],
        events: &[],
    },
    Example {
        name: "the last moment is answered",
        first: &[(LAST, Said::Announces(0, 65002))],
        second: &[],
        rows: &[
            RowsAsked(LAST, Which::All, None, "rows 0/0:65002"),
            RowsAsked(LAST - 1, Which::All, None, "rows"),
        ],
        events: &[],
    },
    Example {
        name: "rows stand in order above the spot",
        first: &[
            (7, Said::Announces(128, 3)),
            (7, Said::Announces(0, 2)),
            (8, Said::Withdraws(0)),
        ],
        second: &[],
        rows: &[
            RowsAsked(7, Which::PeerTable, None, "rows 0/0:2 0/128:3"),
            RowsAsked(7, Which::PeerTable, Some(0), "rows 0/128:3"),
            RowsAsked(8, Which::All, None, "rows 0/128:3"),
        ],
        events: &[],
    },
    Example {
        name: "a prefix covers its addresses",
        first: &[(7, Said::Announces(1, 2)), (7, Said::Announces(2, 3))],
        second: &[],
        rows: &[
            RowsAsked(7, Which::Covering([10, 2, 255, 255]), None, "rows 0/2:3"),
            RowsAsked(7, Which::Covering([10, 3, 0, 0]), None, "rows"),
        ],
        events: &[],
    },
    Example {
        name: "the second of two collectors alone",
        first: &[],
        second: &[(60, Said::Announces(0, 65002))],
        rows: &[
            RowsAsked(59, Which::All, None, "rows"),
            RowsAsked(60, Which::All, None, "rows 0/0:65002"),
        ],
        events: &[],
    },
    Example {
        name: "a tie goes to the later collector",
        first: &[(5, Said::Announces(0, 1))],
        second: &[(5, Said::Announces(0, 2))],
        rows: &[RowsAsked(5, Which::Route, None, "rows 0/0:2")],
        events: &[EventsAsked(0, 9, "events 5+0:1 5+0:2")],
    },
    Example {
        name: "a tie turned round",
        first: &[(5, Said::Announces(0, 2))],
        second: &[(5, Said::Announces(0, 1))],
        rows: &[RowsAsked(5, Which::Route, None, "rows 0/0:1")],
        events: &[EventsAsked(0, 9, "events 5+0:2 5+0:1")],
    },
    Example {
        name: "an end before an announcement of the same time",
        first: &[(5, Said::Ends)],
        second: &[(5, Said::Announces(0, 1))],
        rows: &[RowsAsked(5, Which::Route, None, "rows 0/0:1")],
        events: &[EventsAsked(0, 9, "events 5-all 5+0:1")],
    },
    Example {
        name: "an end after an announcement of the same time",
        first: &[(5, Said::Announces(0, 1))],
        second: &[(5, Said::Ends)],
        rows: &[RowsAsked(5, Which::Route, None, "rows")],
        events: &[EventsAsked(0, 9, "events 5+0:1 5-all")],
    },
    Example {
        name: "times go before collectors",
        first: &[(6, Said::Announces(0, 1))],
        second: &[(4, Said::Announces(0, 2)), (6, Said::Withdraws(0))],
        rows: &[RowsAsked(5, Which::Route, None, "rows 0/0:2")],
        events: &[EventsAsked(0, 9, "events 4+0:2 6+0:1 6-0")],
    },
    Example {
        name: "two collectors that gave nothing",
        first: &[],
        second: &[],
        rows: &[RowsAsked(5, Which::All, None, "rows")],
        events: &[EventsAsked(0, 9, "events")],
    },
];

fn list_of(rt: &impl Abort, alloc: Global, reported: &[Reported]) -> Vec<Admission> {
    let mut list = Vec::new(alloc);
    for (seconds, said) in reported {
        list.push(admission_of(rt, alloc, 0, *seconds, &[*said]))
            .expect(rt, "memory");
    }
    list
}

// What collectors gave, in one order.
fn merged<'a>(
    rt: &impl Abort,
    alloc: Global,
    lists: &[&'a [Admission]],
) -> Vec<PlacedAdmission<'a>> {
    if lists.len() > 256 {
        panic!(rt; "more than 256 collectors");
    }
    merge(alloc, lists).expect(rt, "memory")
}

fn selected(which: Which) -> Select {
    match which {
        Which::All => Select::All,
        Which::ByPrefix => Select::ByPrefix(prefix_of(0)),
        Which::Route => Select::Route(peer_of(0), prefix_of(0)),
        Which::PeerTable => Select::PeerTable(peer_of(0)),
        Which::Covering(octets) => Select::Covering(Address::V4(octets)),
    }
}

// Whether the rows at a moment, above 10.SECOND.0.0/16 or from the first one on, have this text.
fn are_rows(
    rt: &impl Abort,
    alloc: Global,
    list: &[PlacedAdmission<'_>],
    asked: &RowsAsked,
) -> bool {
    let question = RowsQuestion {
        moment: moment_of(asked.0),
        select: selected(asked.1),
        after: match asked.2 {
            Some(second) => Some(spot_of(0, second)),
            None => None,
        },
    };
    let answer = answer_rows(alloc, list, &question).expect(rt, "memory");
    rows_text(rt, alloc, &answer.rows, answer.more).as_str() == asked.3
}

// The text of the events of 10.0.0.0/16 from one moment to another, without the first SKIP ones.
fn events(
    rt: &impl Abort,
    alloc: Global,
    list: &[PlacedAdmission<'_>],
    from: u32,
    to: u32,
    skip: u64,
) -> String {
    let question = EventsQuestion {
        from: moment_of(from),
        to: moment_of(to),
        peer: peer_of(0),
        prefix: prefix_of(0),
        skip,
    };
    let answer = answer_events(alloc, list, &question).expect(rt, "memory");
    events_text(rt, alloc, &answer.events, answer.more)
}

// All that is asked of an example is answered as it has to be.
fn play(rt: &impl Abort, alloc: Global, example: &Example) {
    let first = list_of(rt, alloc, example.first);
    let second = list_of(rt, alloc, example.second);
    let list = merged(rt, alloc, &[first.as_slice(), second.as_slice()]);
    for asked in example.rows {
        be(rt, are_rows(rt, alloc, &list, asked), example.name);
    }
    for asked in example.events {
        let text = events(rt, alloc, &list, asked.0, asked.1, 0);
        be(rt, text.as_str() == asked.2, example.name);
    }
}

#[test]
fn examples_are_answered(rt: HostRuntime) {
    for example in &EXAMPLES {
        play(&rt, rt.alloc(), example);
    }
}

// The rows up to 10.0.0.0/16 of a history with one more.
fn ranged(rt: &impl Abort, alloc: Global) -> String {
    let reported = list_of(
        rt,
        alloc,
        &[(7, Said::Announces(128, 3)), (7, Said::Announces(0, 2))],
    );
    let list = merged(rt, alloc, &[reported.as_slice()]);
    let range = RowsRange {
        select: Select::All,
        low: None,
        high: Some(spot_of(0, 0)),
    };
    let rows = rows_in(alloc, &list, moment_of(7), &range).expect(rt, "memory");
    rows_text(rt, alloc, &rows, false)
}

#[test]
fn rows_of_a_range_end_at_its_high_spot(rt: HostRuntime) {
    be(
        &rt,
        ranged(&rt, rt.alloc()).as_str() == "rows 0/0:2",
        "rows of a range end at its high spot",
    );
}

// Two collectors: the first has the mark 50 and gave nothing, the second gave a record at 60. It
// may not be applied, and moments below 50 are settled. With the mark 61 of the first it may be
// applied; that settles nothing from 60 on, where the second may give more.
fn a_mark_holds_back_the_record_of_another_collector()
    ensures before { settled (record { intakes = record { admitted = []; mark = 50; offered = 0 } ∷ record { admitted = record { time = 60; changes = [] } ∷ []; mark = 60; offered = 1 } ∷ []; whole = 0; some = 0 }) ≡ 50 }
    ensures nothing_applied { applied (record { intakes = record { admitted = []; mark = 50; offered = 0 } ∷ record { admitted = record { time = 60; changes = [] } ∷ []; mark = 60; offered = 1 } ∷ []; whole = 0; some = 0 }) ≡ [] }
    ensures marked { settled (record { intakes = record { admitted = []; mark = 61; offered = 0 } ∷ record { admitted = record { time = 60; changes = [] } ∷ []; mark = 60; offered = 1 } ∷ []; whole = 0; some = 0 }) ≡ 60 }
    ensures after { settled (record { intakes = record { admitted = []; mark = 61; offered = 0 } ∷ record { admitted = record { time = 60; changes = [] } ∷ []; mark = 62; offered = 1 } ∷ []; whole = 1; some = 0 }) ≡ 61 }
{}

// Of which collector each placed admission is, its time, and how many changes it has.
fn placed_text(rt: &impl Abort, alloc: Global, list: &[PlacedAdmission<'_>]) -> String {
    let mut text = String::new(alloc);
    for placed in list {
        put_number(rt, alloc, &mut text, " ", placed.collector() as u64);
        put_number(
            rt,
            alloc,
            &mut text,
            "@",
            placed.time().number() / Moment::SECOND,
        );
        put_number(
            rt,
            alloc,
            &mut text,
            "*",
            placed.admission().changes().len() as u64,
        );
    }
    text
}

#[test]
fn placed_admissions_report_whose_they_are(rt: HostRuntime) {
    a_mark_holds_back_the_record_of_another_collector();
    let alloc = rt.alloc();
    let first = list_of(&rt, alloc, &[(5, Said::Ends), (6, Said::Withdraws(0))]);
    let second = list_of(&rt, alloc, &[(5, Said::Announces(0, 1))]);
    let list = merged(&rt, alloc, &[first.as_slice(), second.as_slice()]);
    be(
        &rt,
        placed_text(&rt, alloc, &list).as_str() == " 0@5*1 1@5*1 0@6*1",
        "placed admissions have their collector",
    );
}

// The peer announces 11.0.0.0/8 at 7.
fn one_more(rt: &impl Abort, alloc: Global) -> Admission {
    let eleven = Prefix::containing(Address::V4([11, 0, 0, 0]), 8);
    let change = Change::Announce(peer_of(0), eleven, route_of(rt, alloc, 2));
    let changes = vec![in alloc; change].expect(rt, "memory");
    Admission::new(moment_of(7), changes).expect(rt, "an admission")
}

// The peer announces 256 prefixes at 7, and one more where that is asked for.
fn many(rt: &impl Abort, alloc: Global, more: bool) -> Vec<Admission> {
    let mut list = Vec::new(alloc);
    for second in 0..=255u8 {
        let said = [Said::Announces(second, 1)];
        list.push(admission_of(rt, alloc, 0, 7, &said))
            .expect(rt, "memory");
    }
    if more {
        list.push(one_more(rt, alloc)).expect(rt, "memory");
    }
    list
}

// Are 256 rows returned, and that more follow only where there is one more?
fn is_cut(rt: &impl Abort, alloc: Global, more: bool) -> bool {
    let reported = many(rt, alloc, more);
    let list = merged(rt, alloc, &[reported.as_slice()]);
    let question = RowsQuestion {
        moment: moment_of(7),
        select: Select::All,
        after: None,
    };
    let answer = answer_rows(alloc, &list, &question).expect(rt, "memory");
    answer.rows.len() == 256 && answer.more == more
}

const ABOVE_254: RowsAsked = RowsAsked(7, Which::All, Some(254), "rows 0/255:1");

// Does the last of 256 rows stand alone above the one before it?
fn is_last(rt: &impl Abort, alloc: Global) -> bool {
    let reported = many(rt, alloc, false);
    let list = merged(rt, alloc, &[reported.as_slice()]);
    are_rows(rt, alloc, &list, &ABOVE_254)
}

#[test]
fn rows_are_cut_at_256_and_go_on_after_the_last(rt: HostRuntime) {
    be(&rt, is_last(&rt, rt.alloc()), "rows go on after the last");
    be(&rt, is_cut(&rt, rt.alloc(), false), "256 rows are not cut");
    be(&rt, is_cut(&rt, rt.alloc(), true), "257 rows are cut");
}

// This number of withdrawals, one in each second from 0 on.
fn withdrawals(rt: &impl Abort, alloc: Global, count: u32) -> Vec<Admission> {
    let mut list = Vec::new(alloc);
    for time in 0..count {
        list.push(admission_of(rt, alloc, 0, time, &[Said::Withdraws(0)]))
            .expect(rt, "memory");
    }
    list
}

// The text of the first 256 of them.
fn first_256(rt: &impl Abort, alloc: Global) -> String {
    let mut text = String::new(alloc);
    put(rt, &mut text, "events");
    for time in 0..256u64 {
        put_number(rt, alloc, &mut text, " ", time);
        put(rt, &mut text, "-0");
    }
    text
}

// The text of the events of this number of withdrawals, without the first SKIP ones.
fn withdrawn_text(rt: &impl Abort, alloc: Global, count: u32, skip: u64) -> String {
    let reported = withdrawals(rt, alloc, count);
    let list = merged(rt, alloc, &[reported.as_slice()]);
    events(rt, alloc, &list, 0, 300, skip)
}

#[test]
fn events_are_cut_at_256_and_go_on_where_they_are_skipped(rt: HostRuntime) {
    let alloc = rt.alloc();
    let mut expected = first_256(&rt, alloc);
    be(
        &rt,
        withdrawn_text(&rt, alloc, 256, 0) == expected,
        "256 events are not cut",
    );
    put(&rt, &mut expected, " more");
    be(
        &rt,
        withdrawn_text(&rt, alloc, 257, 0) == expected,
        "257 events are cut",
    );
    let last = withdrawn_text(&rt, alloc, 257, 256);
    be(&rt, last.as_str() == "events 256-0", "events are skipped");
    let none = withdrawn_text(&rt, alloc, 257, 1000);
    be(&rt, none.as_str() == "events", "all events are skipped");
}
