//! A tree of no version.

use super::playing::{Place, play};

/// 40 home pages, of which those from one on were never used.
const FROM_3: Place = Place {
    homes: 40,
    blocks: 4,
    kept: 4,
    unused: 3,
    root: 0,
    level: 1,
};

const FROM_35: Place = Place {
    homes: 40,
    blocks: 4,
    kept: 4,
    unused: 35,
    root: 0,
    level: 1,
};

const FROM_38: Place = Place {
    homes: 40,
    blocks: 4,
    kept: 4,
    unused: 38,
    root: 0,
    level: 1,
};

const FROM_39: Place = Place {
    homes: 40,
    blocks: 4,
    kept: 4,
    unused: 39,
    root: 0,
    level: 1,
};

const FROM_40: Place = Place {
    homes: 40,
    blocks: 4,
    kept: 4,
    unused: 40,
    root: 0,
    level: 1,
};

/// A column of one entry, of stamp 0, the kind of a current leaf, and its page; and that leaf. Both are current nodes of all keys.
const CREATED: &str = "C
S3 1 5 0 2
Y3: 2 1 1 0 0 1 0 25, Z40 F40 Z16 F16, Z24 4
Y4: 1 1 0 0 0 0 0 0, Z40 F40 Z16 F16
";

#[test]
fn a_column_and_its_leaf_are_set_in_the_next_two_pages(rt: HostRuntime) {
    play(&rt, rt.alloc(), &FROM_3, CREATED);
}

/// No tree is created.
const NO_PAGES: &str = "D 3
";

/// A tree is, and no other.
const TWO_PAGES: &str = "C
S38 1 40 0 2
D 3
";

#[test]
fn two_pages_are_needed(rt: HostRuntime) {
    play(&rt, rt.alloc(), &FROM_39, NO_PAGES);
    play(&rt, rt.alloc(), &FROM_40, NO_PAGES);
    play(&rt, rt.alloc(), &FROM_38, TWO_PAGES);
}

/// Beside 30 images there is no room for two.
const NO_IMAGES: &str = "F0 30
D 4
";

/// Beside 29 there is.
const TWO_IMAGES: &str = "F0 29
C
S35 1 37 0 31
";

#[test]
fn a_transaction_that_is_full_takes_neither_page(rt: HostRuntime) {
    play(&rt, rt.alloc(), &FROM_35, NO_IMAGES);
    play(&rt, rt.alloc(), &FROM_35, TWO_IMAGES);
}
