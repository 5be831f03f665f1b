//! Calls, one after another, and what each of them has to answer.

use crate::playing::{Act, Call, Script};

/// What a question of 10.0.0.0/8 returns, where the peer 192.0.2.1 of AS 65001 announced it.
const ROW: &str = "R|0|192.0.2.1|65001|10.0.0.0/8|65001 65002|IGP|192.0.2.1|||NAG||
E|1
";

/// The same of its history.
const EVENT: &str = "A|1704067200|65001 65002|IGP|192.0.2.1|||NAG||
E|1
";

const BEGINNING: [Act; 5] = [
    (Call::Resume, 0, &[], "0 0 0"),
    (Call::Resume, 1, &[], "0 0 0"),
    (Call::Settled, 0, &[], "0"),
    (Call::Apply, 0, &[], "idle"),
    (Call::Flush, 0, &[], "0"),
];

const WAITING: [Act; 11] = [
    (Call::Mark, 0, &[50], "marked"),
    (Call::Times, 1, &[60], "1 0 1 0"),
    (Call::Apply, 0, &[], "idle"),
    (Call::Settled, 0, &[], "50"),
    (Call::Mark, 0, &[60], "marked"),
    (Call::Apply, 0, &[], "idle"),
    (Call::Mark, 0, &[61], "marked"),
    (Call::Mark, 1, &[61], "marked"),
    (Call::Apply, 0, &[], "applied"),
    (Call::Apply, 0, &[], "idle"),
    (Call::Settled, 0, &[], "61"),
];

const LARGE: [Act; 4] = [
    (Call::Vectors, 0, &[3_693, 0], "too large"),
    (Call::Vectors, 1, &[3_693, 0], "no collector"),
    (Call::Vectors, 0, &[3_692, 0], "3692 0 3692 0"),
    (Call::Times, 0, &[], "3692 3692 3692 0"),
];

const MARKS: [Act; 5] = [
    (Call::Mark, 0, &[10], "marked"),
    (Call::Mark, 0, &[9], "back"),
    (Call::Mark, 0, &[10], "marked"),
    (Call::Mark, 1, &[5], "no collector"),
    (Call::Resume, 0, &[], "0 0 10"),
];

const LATE: [Act; 2] = [
    (Call::Times, 0, &[100, 99, 100], "3 0 2 1"),
    (Call::Resume, 0, &[], "3 2 100"),
];

const TWO_CHANGES: [Act; 10] = [
    (Call::Two, 0, &[], "1 0 1 0"),
    (Call::Mark, 0, &[9], "marked"),
    (Call::Check, 0, &[], "0"),
    (Call::Settled, 0, &[], "7"),
    (Call::Events, 0, &[7], "X|24|AboveWatermark|7\n"),
    (Call::Apply, 0, &[], "applied"),
    (Call::Check, 0, &[], "2"),
    (Call::Settled, 0, &[], "9"),
    (Call::Events, 0, &[7], "W|7\nD|7\nE|2\n"),
    (Call::Apply, 0, &[], "idle"),
];

// Each of them wrote page 0 alone, or that and the ring's first one.
const THREE_COPIES: [Act; 10] = [
    (Call::Times, 0, &[5], "1 0 1 0"),
    (Call::Times, 0, &[5], "2 1 2 0"),
    (Call::Times, 0, &[5], "3 2 3 0"),
    (Call::Apply, 0, &[], "idle"),
    (Call::Mark, 0, &[6], "marked"),
    (Call::Apply, 0, &[], "applied"),
    (Call::Settled, 0, &[], "6"),
    (Call::Apply, 0, &[], "idle"),
    (Call::Flush, 0, &[], "2"),
    (Call::Flush, 0, &[], "0"),
];

const ANSWERS: [Act; 10] = [
    (Call::Vectors, 0, &[1, 0], "1 0 1 0"),
    (
        Call::Rows,
        0,
        &[1_704_067_200],
        "X|24|AboveWatermark|1704067200\n",
    ),
    (Call::Rows, 0, &[1_704_067_199], "E|0\n"),
    (Call::Mark, 0, &[1_704_067_201], "marked"),
    (
        Call::Rows,
        0,
        &[1_704_067_200],
        "X|24|AboveWatermark|1704067200\n",
    ),
    (Call::Apply, 0, &[], "applied"),
    (Call::Rows, 0, &[1_704_067_200], ROW),
    (Call::Rows, 0, &[1_704_067_199], "E|0\n"),
    (Call::Events, 0, &[1_704_067_200], EVENT),
    (
        Call::Events,
        0,
        &[1_704_067_201],
        "X|24|AboveWatermark|1704067201\n",
    ),
];

// Below 7 are the records of the moments 5 and 6, of both collectors.
const LOWEST_MARK: [Act; 10] = [
    (Call::Times, 0, &[5, 7, 8], "3 0 3 0"),
    (Call::Times, 1, &[6, 7], "2 0 2 0"),
    (Call::Mark, 0, &[9], "marked"),
    (Call::Apply, 0, &[], "applied"),
    (Call::Settled, 0, &[], "7"),
    (Call::Apply, 0, &[], "idle"),
    (Call::Mark, 1, &[8], "marked"),
    (Call::Apply, 0, &[], "applied"),
    (Call::Settled, 0, &[], "8"),
    (Call::Apply, 0, &[], "idle"),
];

// A tree of level 1 has room for another change while 25 pages or fewer are held as images. All changes of one prefix name the one leaf
// and the column above it, and 700 of them split that leaf three times.
const HUNDRED: [Act; 4] = [
    (Call::Vectors, 0, &[100, 0], "100 0 100 0"),
    (Call::Mark, 0, &[1_704_067_201], "marked"),
    (Call::ApplyAll, 0, &[], "1"),
    (Call::Rows, 0, &[1_704_067_200], ROW),
];

const SEVEN_HUNDRED: [Act; 4] = [
    (Call::Vectors, 0, &[700, 0], "700 0 700 0"),
    (Call::Mark, 0, &[1_704_067_201], "marked"),
    (Call::ApplyAll, 0, &[], "1"),
    (Call::Rows, 0, &[1_704_067_200], ROW),
];

const THOUSAND: [Act; 3] = [
    (Call::Empties, 0, &[1_000, 5], "1000 0 1000 0"),
    (Call::Mark, 0, &[6], "marked"),
    (Call::ApplyAll, 0, &[], "1"),
];

const ONE_MORE: [Act; 3] = [
    (Call::Empties, 0, &[1_001, 5], "1001 0 1001 0"),
    (Call::Mark, 0, &[6], "marked"),
    (Call::ApplyAll, 0, &[], "2"),
];

// Records of 67 octets take 71 in a ring: of 9 pages, 147,456 octets, 2,076 of them leave 60. Only the first one is below the marks.
const FULL: [Act; 9] = [
    (Call::Vectors, 0, &[2_077, 0], "full"),
    (Call::Vectors, 0, &[1, 0], "1 0 1 0"),
    (Call::Vectors, 0, &[2_075, 1], "2076 1 2076 0"),
    (Call::Mark, 0, &[1_704_067_201], "marked"),
    (Call::Mark, 1, &[1_704_067_201], "marked"),
    (Call::Vectors, 0, &[1, 1], "full"),
    (Call::Apply, 0, &[], "applied"),
    (Call::Vectors, 0, &[1, 1], "2077 2076 2077 0"),
    (Call::Vectors, 0, &[1, 1], "full"),
];

const COUNTED: [Act; 6] = [
    (Call::Check, 0, &[], "0"),
    (Call::Vectors, 0, &[2, 0], "2 0 2 0"),
    (Call::Check, 0, &[], "0"),
    (Call::Mark, 0, &[1_704_067_201], "marked"),
    (Call::ApplyAll, 0, &[], "1"),
    (Call::Check, 0, &[], "2"),
];

pub(crate) const SCRIPTS: [Script; 15] = [
    Script {
        name: "an archive begins with nothing",
        collectors: 2,
        ring: 17,
        acts: &BEGINNING,
    },
    Script {
        name: "a record waits for the mark of each collector",
        collectors: 2,
        ring: 17,
        acts: &WAITING,
    },
    Script {
        name: "a batch has at most 262144 octets",
        collectors: 1,
        ring: 17,
        acts: &LARGE,
    },
    Script {
        name: "a mark never goes back",
        collectors: 1,
        ring: 17,
        acts: &MARKS,
    },
    Script {
        name: "a record between two later ones is late",
        collectors: 1,
        ring: 17,
        acts: &LATE,
    },
    Script {
        name: "an admission of two changes takes one step",
        collectors: 1,
        ring: 17,
        acts: &TWO_CHANGES,
    },
    Script {
        name: "three records without changes take one step",
        collectors: 1,
        ring: 17,
        acts: &THREE_COPIES,
    },
    Script {
        name: "an answer comes below the watermark",
        collectors: 1,
        ring: 9,
        acts: &ANSWERS,
    },
    Script {
        name: "a step ends below the lowest mark",
        collectors: 2,
        ring: 9,
        acts: &LOWEST_MARK,
    },
    Script {
        name: "a hundred changes of a prefix take one step",
        collectors: 1,
        ring: 9,
        acts: &HUNDRED,
    },
    Script {
        name: "seven hundred changes of a prefix take one step",
        collectors: 1,
        ring: 9,
        acts: &SEVEN_HUNDRED,
    },
    Script {
        name: "a step applies a thousand",
        collectors: 1,
        ring: 9,
        acts: &THOUSAND,
    },
    Script {
        name: "a step takes no more than a thousand records without changes",
        collectors: 1,
        ring: 9,
        acts: &ONE_MORE,
    },
    Script {
        name: "a full ring takes no more until a change is applied",
        collectors: 2,
        ring: 9,
        acts: &FULL,
    },
    Script {
        name: "what waits is not counted",
        collectors: 1,
        ring: 9,
        acts: &COUNTED,
    },
];
