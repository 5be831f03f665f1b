//! Looks from places in the past, through blocks laid by hand: at each border, and where a block isn't what its place asks.

use crate::laid::Laid;
use crate::playing::play;

/// Blocks, and no page.
const PAST: Laid = Laid {
    root: 0,
    level: 1,
    pages: "",
    blocks: BLOCKS,
};

/// Block 0, a leaf of the keys below 9 from time 0 to 258: key 5 has 170 from 1 on, key 3 has 187 from 2 on and ends at 200. Block 1, a
/// leaf of the same keys from 258 to 300: a copy of key 5's value, key 3 has 204 from 259 on, key 5 ends at 260. Block 2, a column of
/// both. 3 and 4, columns in each other's chain down to them; 5 and 6, which name their own number and a higher one; 7, the early leaf
/// without a digest; 8, a column of that; 9, a leaf of those keys from time 0 to 258: key 7 has 170 from 7 on, and 187 from 300 on, when
/// the leaf has long ended.
const BLOCKS: &str =
    "1: 1 1 0 0 0 3 0 179, K0 K9 S0.0 S258.0, K5 S1.0 1 0 1 170, K3 S2.0 1 0 1 187, K3 S200.0 0 0 0
1: 1 1 0 0 0 3 0 179, K0 K9 S258.0 S300.0, K5 S1.0 1 0 1 170, K3 S259.0 1 0 1 204, K5 S260.0 0 0 0
1: 2 1 1 0 0 2 0 50, K0 K9 S0.0 S300.0, S0.0 1 N0, S258.0 1 N1
1: 2 1 1 0 0 1 0 25, K0 K9 S0.0 S300.0, S0.0 2 N2
1: 2 1 1 0 0 1 0 25, K0 K9 S0.0 S300.0, S0.0 2 N3
1: 2 1 1 0 0 1 0 25, K0 K9 S0.0 S300.0, S0.0 2 N5
1: 2 1 1 0 0 1 0 25, K0 K9 S0.0 S300.0, S0.0 2 N7
0: 1 1 0 0 0 3 0 179, K0 K9 S0.0 S258.0, K5 S1.0 1 0 1 170, K3 S2.0 1 0 1 187, K3 S200.0 0 0 0
1: 2 1 1 0 0 1 0 25, K0 K9 S0.0 S300.0, S0.0 1 N7
1: 1 1 0 0 0 2 0 120, K0 K9 S0.0 S258.0, K7 S7.0 1 0 1 170, K7 S300.0 1 0 1 187
";

/// A place, by its kind, block, high key and end; a key and a stamp, and from when on it has which value.
const VALUES: &str = "E2 4 9 300, 5 0.0: I4
E2 4 9 300, 5 1.0: I4 K5 1.0 O170
E2 4 9 300, 5 257.0: I4 K5 1.0 O170
E2 4 9 300, 3 1.0: I4
E2 4 9 300, 3 2.0: I4 K3 2.0 O187
E2 4 9 300, 3 200.0: I4
E2 4 9 300, 5 258.0: I4 K5 1.0 O170
E2 4 9 300, 3 258.0: I4
E2 4 9 300, 3 299.0: I4 K3 259.0 O204
E2 4 9 300, 5 260.0: I4
";

#[test]
fn what_keys_had_is_found_in_the_past(rt: HostRuntime) {
    play(&rt, rt.alloc(), &PAST, VALUES);
}

/// The same of the next key and its value, or the high key.
const NEXT_KEYS: &str = "N2 4 9 300, 0 0.0: I4 0.0 300.0 9 P9
N2 4 9 300, 0 1.0: I4 0.0 300.0 9 K5 1.0 O170
N2 4 9 300, 3 2.0: I4 0.0 300.0 9 K3 2.0 O187
N2 4 9 300, 4 2.0: I4 0.0 300.0 9 K5 1.0 O170
N2 4 9 300, 6 2.0: I4 0.0 300.0 9 P9
N2 4 9 300, 0 200.0: I4 0.0 300.0 9 K5 1.0 O170
N2 4 9 300, 0 259.0: I4 0.0 300.0 9 K3 259.0 O204
N2 4 9 300, 4 260.0: I4 0.0 300.0 9 P9
";

#[test]
fn the_next_key_is_found_in_the_past(rt: HostRuntime) {
    play(&rt, rt.alloc(), &PAST, NEXT_KEYS);
}

/// The same of versions, and up to when they are all. The copy of key 5 is none.
const PARTS: &str = "P2 4 9 300, 3 0.0: I4 U258.0 V2.0 O187 V200.0 N
P2 4 9 300, 3 2.0: I4 U258.0 V2.0 O187 V200.0 N
P2 4 9 300, 3 3.0: I4 U258.0 V200.0 N
P2 4 9 300, 3 257.0: I4 U258.0
P2 4 9 300, 5 1.0: I4 U258.0 V1.0 O170
P2 4 9 300, 5 2.0: I4 U258.0
P2 4 9 300, 3 258.0: I4 U300.0 V259.0 O204
P2 4 9 300, 5 258.0: I4 U300.0 V260.0 N
P2 4 9 300, 5 261.0: I4 U300.0
";

#[test]
fn the_versions_of_a_key_are_reported_of_the_past(rt: HostRuntime) {
    play(&rt, rt.alloc(), &PAST, PARTS);
}

/// Of the leaf of key 7: before its first version, from that on, and later.
const LONG_ENDED: &str = "E1 9 9 258, 7 6.0: I9
E1 9 9 258, 7 257.0: I9 K7 7.0 O170
N1 9 9 258, 0 257.0: I9 0.0 258.0 9 K7 7.0 O170
P1 9 9 258, 7 0.0: I9 U258.0 V7.0 O170
P1 9 9 258, 7 8.0: I9 U258.0
";

#[test]
fn a_version_from_after_the_end_of_its_block_counts_for_nothing(rt: HostRuntime) {
    play(&rt, rt.alloc(), &PAST, LONG_ENDED);
}

/// Places that ask for something else, by each lookup, and the block that is reported as damaged.
const DAMAGED: &str = "# another kind, and more keys than the block has
E1 4 9 300, 3 2.0: D 4
N1 4 9 300, 3 2.0: D 4
P1 4 9 300, 3 2.0: D 4
E2 0 9 300, 3 2.0: D 0
N2 0 9 300, 3 2.0: D 0
P2 0 9 300, 3 2.0: D 0
E2 4 10 300, 3 2.0: D 4
N2 4 10 300, 3 2.0: D 4
P2 4 10 300, 3 2.0: D 4
# another start, and another end
E1 0 9 300, 3 2.0: D 0
N1 0 9 300, 3 2.0: D 0
P1 0 9 300, 3 2.0: D 0
E1 1 9 300, 3 2.0: D 1
N1 1 9 300, 3 2.0: D 1
P1 1 9 300, 3 2.0: D 1
# a column in its own block, and one in a block of a higher number
E2 5 9 300, 3 2.0: D 5
N2 5 9 300, 3 2.0: D 5
P2 5 9 300, 3 2.0: D 5
E2 6 9 300, 3 2.0: D 6
N2 6 9 300, 3 2.0: D 6
P2 6 9 300, 3 2.0: D 6
# a leaf without a digest, by way of a column; a block that the disk hasn't
E2 8 9 300, 3 2.0: D 7
N2 8 9 300, 3 2.0: D 7
P2 8 9 300, 3 2.0: D 7
E2 99 9 300, 3 2.0: D 99
N2 99 9 300, 3 2.0: D 99
P2 99 9 300, 3 2.0: D 99
# fewer keys than the block has
N2 4 5 300, 4 2.0: I4 0.0 300.0 5 P5
";

#[test]
fn a_block_that_is_not_what_its_place_asks_is_damaged(rt: HostRuntime) {
    play(&rt, rt.alloc(), &PAST, DAMAGED);
}
