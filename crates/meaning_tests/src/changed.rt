//! Which prefixes changed in a span, by a table worked out by hand.

use crate::be;
use crate::said::{moment_of, peer_of, route_of};
use changed_prefixes::answer_changed;
use route_meaning::{ChangedAnswer, ChangedQuestion, Spot, merge};
use route_model::{Address, Admission, Change, Prefix};
use std::alloc::Global;
use std::process::Abort;

/// What a peer says of the prefixes from one number to another, or of all.
#[derive(Clone, Copy)]
enum Said {
    Announces(u16, u16),
    Withdraws(u16, u16),
    Ends,
}

/// What the peers of two collectors say, a question of it, and the answer.
#[derive(Clone, Copy)]
struct Case {
    name: &'static str,
    /// Admissions, each of a second.
    first: &'static [(u32, Said)],
    second: &'static [(u32, Said)],
    /// The first and the last second that are asked for.
    span: (u32, u32),
    /// The first and the last prefix.
    prefixes: (u16, u16),
    /// Above this prefix of the peer of a collector.
    after: Option<(u8, u16)>,
    /// What changed: of the peer of a collector the prefixes from one number to another.
    changed: &'static [(u8, u16, u16)],
    more: bool,
}

/// Nothing is said, and all is asked for.
const NOTHING: Case = Case {
    name: "nothing",
    first: &[],
    second: &[],
    span: (0, u32::MAX),
    prefixes: (0, u16::MAX),
    after: None,
    changed: &[],
    more: false,
};

const CASES: [Case; 14] = [
    NOTHING,
    Case {
        name: "both seconds of a span are in it",
        first: &[
            (4, Said::Announces(0, 0)),
            (5, Said::Announces(1, 1)),
            (6, Said::Announces(2, 2)),
            (7, Said::Announces(3, 3)),
            (8, Said::Announces(4, 4)),
        ],
        span: (5, 7),
        changed: &[(0, 1, 3)],
        ..NOTHING
    },
    Case {
        name: "a span may be the last second",
        first: &[(u32::MAX, Said::Announces(0, 0))],
        span: (u32::MAX, u32::MAX),
        changed: &[(0, 0, 0)],
        ..NOTHING
    },
    Case {
        name: "nothing is in a span that ends before it begins",
        first: &[(6, Said::Announces(0, 9))],
        span: (7, 5),
        ..NOTHING
    },
    Case {
        name: "the end of a session is no change",
        first: &[(5, Said::Announces(0, 9)), (7, Said::Ends)],
        span: (6, 8),
        ..NOTHING
    },
    Case {
        name: "a withdrawal of what nobody announced is one",
        first: &[(5, Said::Withdraws(3, 3))],
        changed: &[(0, 3, 3)],
        ..NOTHING
    },
    Case {
        name: "what changes again is there once, and in its order",
        first: &[
            (5, Said::Announces(2, 2)),
            (5, Said::Announces(1, 1)),
            (6, Said::Withdraws(2, 2)),
            (6, Said::Announces(2, 2)),
        ],
        changed: &[(0, 1, 2)],
        ..NOTHING
    },
    Case {
        name: "the first and the last prefix are asked for",
        first: &[(5, Said::Announces(0, 9))],
        prefixes: (3, 5),
        changed: &[(0, 3, 5)],
        ..NOTHING
    },
    Case {
        name: "no prefix is from one up to a lower one",
        first: &[(5, Said::Announces(0, 9))],
        prefixes: (5, 3),
        ..NOTHING
    },
    Case {
        name: "the spot that a question names is left out, and so are those of lower peers",
        first: &[(5, Said::Announces(0, 9))],
        second: &[(4, Said::Announces(3, 5))],
        after: Some((1, 3)),
        changed: &[(1, 4, 5)],
        ..NOTHING
    },
    Case {
        name: "peers stand in their order, whoever came first",
        first: &[(5, Said::Announces(7, 7))],
        second: &[(4, Said::Announces(3, 3))],
        changed: &[(0, 7, 7), (1, 3, 3)],
        ..NOTHING
    },
    Case {
        name: "256 are all, and IPv6 stands after IPv4",
        first: &[(5, Said::Announces(256, 256)), (5, Said::Announces(1, 255))],
        changed: &[(0, 1, 256)],
        ..NOTHING
    },
    Case {
        name: "of 257 the lowest are returned",
        first: &[(5, Said::Announces(256, 256)), (5, Said::Announces(0, 255))],
        changed: &[(0, 0, 255)],
        more: true,
        ..NOTHING
    },
    Case {
        name: "and then the last",
        first: &[(5, Said::Announces(256, 256)), (5, Said::Announces(0, 255))],
        after: Some((0, 255)),
        changed: &[(0, 256, 256)],
        ..NOTHING
    },
];

/// 10.0.0.0/16 and so on up to 10.255.0.0/16, then 2001:db8:100::/48 and so on.
fn prefix_at(number: u16) -> Prefix {
    let [high, low] = number.to_be_bytes();
    if high == 0 {
        return Prefix::containing(Address::V4([10, low, 0, 0]), 16);
    }
    let octets = [
        0x20, 0x01, 0x0d, 0xb8, high, low, 0, 0, 0, 0, 0, 0, 0, 0, 0, 0,
    ];
    Prefix::containing(Address::V6(octets), 48)
}

fn spot_at(collector: u8, number: u16) -> Spot {
    Spot {
        peer: peer_of(collector),
        prefix: prefix_at(number),
    }
}

/// The changes of what the peer of a collector says.
fn changes_of(rt: &impl Abort, alloc: Global, collector: u8, said: Said) -> Vec<Change> {
    let peer = peer_of(collector);
    let mut changes = Vec::new(alloc);
    match said {
        Said::Announces(low, high) => {
            let route = route_of(rt, alloc, 1);
            for number in low..=high {
                let route = route.share().expect(rt, "memory");
                let change = Change::Announce(peer, prefix_at(number), route);
                changes.push(change).expect(rt, "memory");
            }
        }
        Said::Withdraws(low, high) => {
            for number in low..=high {
                let change = Change::Withdraw(peer, prefix_at(number));
                changes.push(change).expect(rt, "memory");
            }
        }
        Said::Ends => changes.push(Change::Down(peer)).expect(rt, "memory"),
    }
    changes
}

fn list_of(
    rt: &impl Abort,
    alloc: Global,
    collector: u8,
    admissions: &[(u32, Said)],
) -> Vec<Admission> {
    let mut list = Vec::new(alloc);
    for (seconds, said) in admissions {
        let changes = changes_of(rt, alloc, collector, *said);
        let admission = Admission::new(moment_of(*seconds), changes).expect(rt, "an admission");
        list.push(admission).expect(rt, "memory");
    }
    list
}

fn answered(rt: &impl Abort, alloc: Global, case: &Case) -> ChangedAnswer {
    let first = list_of(rt, alloc, 0, case.first);
    let second = list_of(rt, alloc, 1, case.second);
    let lists = [first.as_slice(), second.as_slice()];
    let list = merge(alloc, &lists).expect(rt, "memory");
    let question = ChangedQuestion {
        from: moment_of(case.span.0),
        to: moment_of(case.span.1),
        low: prefix_at(case.prefixes.0),
        high: prefix_at(case.prefixes.1),
        after: case
            .after
            .map(|(collector, number)| spot_at(collector, number)),
    };
    answer_changed(alloc, &list, &question).expect(rt, "memory")
}

fn expected(rt: &impl Abort, alloc: Global, case: &Case) -> Vec<Spot> {
    let mut spots = Vec::new(alloc);
    for (collector, low, high) in case.changed {
        for number in *low..=*high {
            spots.push(spot_at(*collector, number)).expect(rt, "memory");
        }
    }
    spots
}

#[test]
fn changed_prefixes_are_those_of_the_table(rt: HostRuntime) {
    let alloc = rt.alloc();
    for case in &CASES {
        let answer = answered(&rt, alloc, case);
        let is_right = answer.spots == expected(&rt, alloc, case) && answer.more == case.more;
        be(&rt, is_right, case.name);
    }
}
