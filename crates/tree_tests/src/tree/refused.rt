//! What refuses a version: a full disk, pages that are full, and a transaction that is. A leaf has room for five versions.

use super::playing::{Place, play};

/// A write-once disk of two blocks.
const TWO_BLOCKS: Place = Place {
    homes: 4,
    blocks: 2,
    kept: 4_096,
    unused: 0,
    root: 0,
    level: 1,
};

/// Home pages for a tree of two, and one, two and three more; and enough for all.
const TWO: Place = Place {
    homes: 2,
    blocks: 4,
    kept: 4_096,
    unused: 0,
    root: 0,
    level: 1,
};

const THREE: Place = Place {
    homes: 3,
    blocks: 4,
    kept: 4_096,
    unused: 0,
    root: 0,
    level: 1,
};

const FOUR: Place = Place {
    homes: 4,
    blocks: 4,
    kept: 4_096,
    unused: 0,
    root: 0,
    level: 1,
};

const FIVE: Place = Place {
    homes: 5,
    blocks: 4,
    kept: 4_096,
    unused: 0,
    root: 0,
    level: 1,
};

const MANY: Place = Place {
    homes: 40,
    blocks: 4,
    kept: 4_096,
    unused: 0,
    root: 0,
    level: 1,
};

/// Fifteen versions of a key: the sixth and the eleventh burn a block each, and after the last one the leaf is full once more. A version that a
/// block would be burnt for is refused, and what has room in the leaf is taken.
const FULL_DISK: &str = "C
I7 1 15
SN N N 2 N
R 2 7 16.16 3072 16 2
R 2 7 17.17 3072 17 2
A7 1 15
E7 16.16
";

#[test]
fn a_third_block_on_a_disk_of_two_is_refused(rt: HostRuntime) {
    play(&rt, rt.alloc(), &TWO_BLOCKS, FULL_DISK);
}

/// The sixth key splits the column by key, which takes two pages, and the root becomes two, which takes one.
const FULL_PAGES: &str = "C
J1 5
R 3 6 6.6 3072 6 0
K6
";

#[test]
fn a_key_split_needs_two_pages_and_a_new_root_one(rt: HostRuntime) {
    play(&rt, rt.alloc(), &TWO, FULL_PAGES);
    play(&rt, rt.alloc(), &THREE, FULL_PAGES);
    play(&rt, rt.alloc(), &FOUR, FULL_PAGES);
}

/// With three pages more it is taken, and the root is the fifth page.
const SPLIT: &str = "C
J1 5
J6 6
S4 2 5 0 5
K7
";

#[test]
fn with_three_pages_the_column_is_split_by_key(rt: HostRuntime) {
    play(&rt, rt.alloc(), &FIVE, SPLIT);
}

/// A second version of the first key, which splits the column by time, and what stays by key, spends a block each time.
const SPENT: &str = "C
J1 5
R 3 1 6.6 3072 6 1
R 3 1 6.6 3072 6 2
R 3 1 6.6 3072 6 3
R 3 1 6.6 3072 6 4
K6
";

#[test]
fn blocks_may_be_spent_where_pages_are_full(rt: HostRuntime) {
    play(&rt, rt.alloc(), &THREE, SPENT);
}

/// With three pages it is taken.
const SPLIT_TWICE: &str = "C
J1 5
I1 6 6
S4 2 5 1 N
H1 5.5 1
H1 6.6 6
";

#[test]
fn with_three_pages_what_stays_is_split_by_key(rt: HostRuntime) {
    play(&rt, rt.alloc(), &FIVE, SPLIT_TWICE);
}

/// A split may set five pages, and one image is the caller's: beside 26 others there is no room. A second version would burn a block too; an
/// end has room in the leaf.
const FULL_TRANSACTION: &str = "C
J1 5
F8 24
SN N N N 26
R 4 6 6.6 3072 6 0
R 4 1 6.6 3072 6 0
K6
E1 7.7
SN N N N 26
";

#[test]
fn a_transaction_that_is_full_takes_no_split(rt: HostRuntime) {
    play(&rt, rt.alloc(), &MANY, FULL_TRANSACTION);
}

/// Beside 25 images there is.
const ROOM: &str = "C
J1 5
F8 23
J6 6
SN N N N 28
K7
";

#[test]
fn a_transaction_with_room_for_five_images_takes_it(rt: HostRuntime) {
    play(&rt, rt.alloc(), &MANY, ROOM);
}
