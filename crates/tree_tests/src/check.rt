//! The check of a tree of the earlier form, laid by hand: a column has at most one part in its page, and the blocks of columns have two.

use crate::laid::Laid;
use crate::playing::play;

/// A tree of six versions of three keys, whose column, in page 0, has the past in one part, and its current leaf in page 1.
const OLDER: Laid = Laid {
    root: 0,
    level: 1,
    pages: PAGES,
    blocks: BLOCKS,
};

/// The column and its current leaf, from stamp 12 on.
const PAGES: &str = "0: 2 1 1 0 0 2 0 50, K0 F40 S0.0 F16, S0.0 2 N4, S12.0 0 N1
1: 1 1 0 0 0 4 0 240, K0 F40 S12.0 F16, K1 S5.0 1 0 1 15, K3 S9.0 1 0 1 39, K2 S12.0 1 0 1 22, K3 S13.0 1 0 1 33
";

/// Blocks of the past until stamp 12: each split made a column of the past before it and of one leaf more.
const BLOCKS: &str = "1: 1 1 0 0 0 2 0 120, K0 F40 S0.0 S5.0, K1 S1.0 1 0 1 11, K2 S3.0 1 0 1 23
1: 1 1 0 0 0 2 0 120, K0 F40 S5.0 S9.0, K2 S3.0 1 0 1 23, K1 S5.0 1 0 1 15
1: 2 1 1 0 0 2 0 50, K0 F40 S0.0 S9.0, S0.0 1 N0, S5.0 1 N1
1: 1 1 0 0 0 3 0 180, K0 F40 S9.0 S12.0, K2 S3.0 1 0 1 23, K1 S5.0 1 0 1 15, K3 S9.0 1 0 1 39
1: 2 1 1 0 0 2 0 50, K0 F40 S0.0 S12.0, S0.0 2 N2, S9.0 1 N3
";

/// A root and its level, how many pages and blocks are in use, how many blocks are burnt, and how many versions there are.
const COUNT: &str = "K0 1 18446744073709551615 18446744073709551615 18446744073709551615: V6
";

#[test]
fn each_version_counts_once(rt: HostRuntime) {
    play(&rt, rt.alloc(), &OLDER, COUNT);
}

/// The same of pages that are no root: a column isn't a key node, a leaf isn't a column, and there is no page 20.
const NO_ROOTS: &str = "K0 2 18446744073709551615 18446744073709551615 18446744073709551615: B0
K1 1 18446744073709551615 18446744073709551615 18446744073709551615: B1
K20 1 18446744073709551615 18446744073709551615 18446744073709551615: B20
K20 2 18446744073709551615 18446744073709551615 18446744073709551615: B20
";

#[test]
fn a_page_that_is_no_root_is_bad(rt: HostRuntime) {
    play(&rt, rt.alloc(), &OLDER, NO_ROOTS);
}

/// A current leaf that starts later than its column says, and zeros in place of it.
const BAD_LEAVES: &str = "W 1: 1 1 0 0 0 1 0 60, K0 F40 S13.0 F16, K3 S13.0 1 0 1 33
K0 1 18446744073709551615 18446744073709551615 18446744073709551615: B1
W 1:
K0 1 18446744073709551615 18446744073709551615 18446744073709551615: B1
";

#[test]
fn a_bad_current_leaf_is_reported(rt: HostRuntime) {
    play(&rt, rt.alloc(), &OLDER, BAD_LEAVES);
}

/// Columns that name blocks of other stamps than their own, or of another kind, or that there aren't.
const BAD_COLUMNS: &str = "W 0: 2 1 1 0 0 2 0 50, K0 F40 S0.0 F16, S0.0 2 N2, S12.0 0 N1
K0 1 18446744073709551615 18446744073709551615 18446744073709551615: D 2
W 0: 2 1 1 0 0 2 0 50, K0 F40 S0.0 F16, S0.0 1 N4, S12.0 0 N1
K0 1 18446744073709551615 18446744073709551615 18446744073709551615: D 4
W 0: 2 1 1 0 0 2 0 50, K0 F40 S0.0 F16, S0.0 1 N0, S12.0 0 N1
K0 1 18446744073709551615 18446744073709551615 18446744073709551615: D 0
W 0: 2 1 1 0 0 2 0 50, K0 F40 S0.0 F16, S0.0 1 N200, S12.0 0 N1
K0 1 18446744073709551615 18446744073709551615 18446744073709551615: D 200
";

#[test]
fn a_block_that_is_not_what_its_column_says_is_reported(rt: HostRuntime) {
    play(&rt, rt.alloc(), &OLDER, BAD_COLUMNS);
}

/// The tree uses pages 0 and 1, and its column names block 4. The record of what is in use is on page 7.
const IN_USE: &str = "K0 1 2 5 5: V6
K0 1 1 5 5: B7
K0 1 0 5 5: B7
K0 1 2 4 5: B7
K0 1 2 5 4: B0
K0 1 0 4 4: B0
";

#[test]
fn what_is_not_in_use_is_found(rt: HostRuntime) {
    play(&rt, rt.alloc(), &OLDER, IN_USE);
}
