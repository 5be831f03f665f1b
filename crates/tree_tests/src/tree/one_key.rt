//! One key takes versions of the largest size, until its leaf is split by time. The n-th version has the stamp (n, n) and 3,072 octets n:
//! five of 3,131 octets have room in a leaf of 16,232, so the sixth burns a block.

use super::playing::{NO_TREE, play};

/// Six versions; each is found at its stamp, none before the first and of another key.
const FOUND: &str = "C
I7 1 5
SN N N 0 N
I7 6 6
SN N N 1 N
H7 1.1 1
H7 2.2 2
H7 3.3 3
H7 4.4 4
H7 5.5 5
H7 6.6 6
H7 0.9 0
H8 6.6 0
";

#[test]
fn each_version_is_found_at_its_stamp(rt: HostRuntime) {
    play(&rt, rt.alloc(), &NO_TREE, FOUND);
}

/// Six versions, and all of them.
const ALL: &str = "C
I7 1 5
SN N N 0 N
I7 6 6
SN N N 1 N
A7 1 6
";

#[test]
fn all_versions_are_reported(rt: HostRuntime) {
    play(&rt, rt.alloc(), &NO_TREE, ALL);
}

/// Six versions: the first part has the five of the block, and the second the sixth.
const PARTS: &str = "C
I7 1 5
SN N N 0 N
I7 6 6
SN N N 1 N
P7 0.9 1 5 6.6
P7 6.6 6 6
";

#[test]
fn all_versions_are_reported_part_by_part(rt: HostRuntime) {
    play(&rt, rt.alloc(), &NO_TREE, PARTS);
}

/// Six versions: no stamp up to the sixth is taken, and the next one is.
const GIVEN: &str = "C
I7 1 5
SN N N 0 N
I7 6 6
SN N N 1 N
R 1 7 6.6 1 9 1
R 1 7 6.5 1 9 1
R 1 7 0.0 1 9 1
A7 1 6
T 7 6.7 1 9
";

#[test]
fn a_stamp_that_was_given_is_refused_and_changes_nothing(rt: HostRuntime) {
    play(&rt, rt.alloc(), &NO_TREE, GIVEN);
}

/// Six versions and an end, at and before which the key is asked for.
const ENDED: &str = "C
I7 1 5
SN N N 0 N
I7 6 6
SN N N 1 N
E7 7.7
H7 7.7 0
H7 6.9 6
";

#[test]
fn a_key_that_ended_has_no_value(rt: HostRuntime) {
    play(&rt, rt.alloc(), &NO_TREE, ENDED);
}
