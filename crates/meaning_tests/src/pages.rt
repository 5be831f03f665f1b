//! Answers that are full: of 256 rows, and of the first 256 of 257.

use crate::be;
use crate::examples::{Act, add_acts, ran};
use crate::said::{Said, admission_of};
use interleaving_core::{Answer, Reply, Step};
use route_meaning::Row;
use std::alloc::Global;
use std::process::Abort;

/// A collector's peer announces 10.0.0.0/16 up to 10.N.0.0/16, where N is `last_second`, in one admission, each with this last AS number.
fn offer_many(
    rt: &impl Abort,
    alloc: Global,
    collector: u8,
    seconds: u32,
    last_second: u8,
    last: u32,
) -> Step {
    let mut said = Vec::new(alloc);
    for second in 0..=last_second {
        said.push(Said::Announces(second, last))
            .expect(rt, "memory");
    }
    let many = admission_of(rt, alloc, collector, seconds, &said);
    Step::Admit(collector, vec![in alloc; many].expect(rt, "memory"))
}

/// Two questions, of the moments 7 and 8. 256 rows end no question; the 257th does, unreported.
const ACTS: [Act; 8] = [
    Act::Mark(0, 10),
    Act::Mark(1, 10),
    Act::Apply(257),
    Act::AskRows(7),
    Act::AskRows(8),
    Act::UpTo(1, 0, 255),
    Act::End(0),
    Act::UpTo(1, 1, 0),
];

/// Whether there is a row of collector 0.
fn is_of_first(row: Option<&Row>) -> bool {
    match row {
        Some(row) => row.peer.collector == 0,
        None => false,
    }
}

/// Whether a reply has 256 rows, the last of collector 0, and more follow or not.
fn has_256_rows(reply: Option<&Reply>, more: bool) -> bool {
    match reply {
        Some(Reply::Done(Answer::Rows(answer))) => {
            answer.rows.len() == 256 && answer.more == more && is_of_first(answer.rows.last())
        }
        _ => false,
    }
}

#[test]
fn an_answer_has_256_rows_at_most(rt: HostRuntime) {
    let name = "an answer has 256 rows at most";
    let alloc = rt.alloc();
    let many = offer_many(&rt, alloc, 0, 7, 255, 1);
    let one = offer_many(&rt, alloc, 1, 8, 0, 2);
    let mut steps = vec![in alloc; many, one].expect(&rt, "memory");
    add_acts(&rt, alloc, &mut steps, &ACTS);
    let ran = ran(&rt, alloc, 2, &steps);
    be(&rt, matches!(ran.replies.get(7), Some(Reply::Again)), name);
    be(&rt, has_256_rows(ran.replies.get(8), false), name);
    be(&rt, has_256_rows(ran.replies.get(9), true), name);
}
