//! Blocks that someone damaged: each lookup returns, or names one that isn't what its place asks.

use super::tree::LOOKED;
use crate::playing::play;

/// Of each block a key and a stamp whose way comes to it, and what the lookup of the next key returns.
const HEADERS: &str = "G0 0 1.0: I0 0.0 100.0 8 K3 1.0 O160; ; ;
G1 0 100.0: I3 100.0 200.5 8 K3 1.0 O160; ; ;
G2 4 199.0: I3 100.0 200.5 8 K6 199.0 O171; ; ;
G3 0 200.4: I3 100.0 200.5 8 K3 150.0 O170; ; ;
";

#[test]
fn a_block_with_a_damaged_header_is_damaged_or_answers_as_before(rt: HostRuntime) {
    play(&rt, rt.alloc(), &LOOKED, HEADERS);
}

/// A block, one of the two octets of the count of its entries, which is turned, a key and a stamp, and what the lookup of the next key returns
/// then. Where more are counted, a leaf has zeros as versions.
const COUNTS: &str = "T 0 4, 0 1.0: I0 0.0 100.0 8 K3 1.0 O160
T 0 5, 0 1.0: I0 0.0 100.0 8 K3 1.0 O160
T 1 4, 0 100.0: I3 100.0 200.5 8 K3 1.0 O160
T 1 5, 0 100.0: I3 100.0 200.5 8 K3 1.0 O160
T 2 4, 4 199.0: I3 100.0 200.5 8 K6 199.0 O171
T 2 5, 4 199.0: I3 100.0 200.5 8 K6 199.0 O171
T 3 4, 0 200.4: D 3
T 3 5, 0 200.4: D 3
";

#[test]
fn a_damaged_count_of_a_block_answers_or_is_damaged(rt: HostRuntime) {
    play(&rt, rt.alloc(), &LOOKED, COUNTS);
}

/// Of each block a key and a stamp whose way comes to it; of the column also what lookups return by way of it.
const ENTRIES: &str = "Q0 0 1.0
Q1 0 100.0
Q2 4 199.0
J3 0 200.4: I3 100.0 200.5 8 K3 150.0 O170; I3; I3 U200.5;
";

#[test]
fn each_octet_of_the_entries_of_a_block_is_read_or_reported(rt: HostRuntime) {
    play(&rt, rt.alloc(), &LOOKED, ENTRIES);
}

/// Of each block a key and a stamp whose way comes to it.
const NO_DIGEST: &str = "U0 0 1.0
U1 0 100.0
U2 4 199.0
U3 0 200.4
";

#[test]
fn a_block_without_its_digest_is_damaged(rt: HostRuntime) {
    play(&rt, rt.alloc(), &LOOKED, NO_DIGEST);
}

/// A leaf of the past, an octet of it that is turned, a key and a stamp, and what the lookup of the next key returns.
const LEAVES: &str = "T 0 120, 0 1.0: I0 0.0 100.0 8 P8
T 0 159, 0 1.0: I0 0.0 100.0 8 K2 1.0 O160
T 0 167, 0 0.0: I0 0.0 100.0 8 K3 0.0 O160
T 0 175, 0 1.0: I0 0.0 100.0 8 P8
T 0 176, 0 1.0: I0 0.0 100.0 8 P8
T 0 178, 0 1.0: I0 0.0 100.0 8 K3 1.0 0
T 0 179, 0 1.0: I0 0.0 100.0 8 K3 1.0 O161
T 0 227, 4 50.0: I0 0.0 100.0 8 P8
T 0 279, 4 99.0: I0 0.0 100.0 8 K5 50.0 O161
T 0 296, 4 99.0: I0 0.0 100.0 8 K5 99.0 0
T 0 299, 4 99.0: I0 0.0 100.0 8 P8
T 1 167, 0 100.0: I3 100.0 200.5 8 K3 0.0 O160
T 1 179, 0 100.0: I3 100.0 200.5 8 K3 1.0 O161
T 1 219, 0 150.0: I3 100.0 200.5 8 K2 150.0 O170
T 1 227, 0 150.0: I3 100.0 200.5 8 K3 1.0 O160
T 1 236, 0 150.0: I3 100.0 200.5 8 P8
T 1 240, 0 150.0: I3 100.0 200.5 8 K3 150.0 O170
T 2 219, 4 199.0: I3 100.0 200.5 8 K7 199.0 O171
T 2 227, 4 199.0: I3 100.0 200.5 8 K6 198.0 O171
T 2 239, 4 199.0: I3 100.0 200.5 8 K6 199.0 O170
";

#[test]
fn a_damaged_leaf_of_the_past_is_named_or_has_other_versions(rt: HostRuntime) {
    play(&rt, rt.alloc(), &LOOKED, LEAVES);
}

/// The same of the column of the past.
const COLUMNS: &str = "# the first part: its start, its kind and its number
T 3 127, 0 100.0: D 3
T 3 135, 0 100.0: D 3
T 3 136, 0 100.0: D 3
T 3 137, 0 100.0: D 3
T 3 144, 0 100.0: D 0
T 3 144, 4 199.0: I3 100.0 200.5 8 K6 199.0 O171
# the second one: where it starts the first one ends. it comes to stand in the very block of the column
T 3 152, 0 100.0: D 1
T 3 152, 4 198.0: D 2
T 3 160, 4 199.0: D 1
T 3 161, 4 199.0: D 3
T 3 162, 4 199.0: D 3
T 3 169, 4 199.0: D 3
T 3 169, 0 100.0: I3 100.0 200.5 8 K3 1.0 O160
T 3 170, 0 100.0: I3 100.0 200.5 8 K3 1.0 O160
";

#[test]
fn a_damaged_column_of_the_past_is_named_or_leads_to_what_is(rt: HostRuntime) {
    play(&rt, rt.alloc(), &LOOKED, COLUMNS);
}
