//! Pages that someone damaged: each lookup returns, or names a page or a block that isn't what its place asks.

use super::tree::LOOKED;
use crate::playing::play;

/// Pages 0 and up are in use, and a check counts the versions of the tree.
const COUNT: &str = "K1 4 18446744073709551615 18446744073709551615 18446744073709551615: V12
";

#[test]
fn a_check_counts_the_versions_of_the_tree(rt: HostRuntime) {
    play(&rt, rt.alloc(), &LOOKED, COUNT);
}

/// Of each page a key and a stamp whose way comes to it; the next key, what the key has, the first part of its versions, and all.
const HEADERS: &str = "H1 0 300.0: K3 150.0 O170; ; ;
H2 7 300.0: P8; ; ;
H3 15 30.0: K15 30.0 O3; K15 30.0 O3; V30.0 O3; V30.0 O3
H4 8 30.0: K8 10.0 O1; K8 10.0 O1; V50.0 N; V10.0 O1 V50.0 N
H5 200 40.0: K200 40.0 O4; K200 40.0 O4; V40.0 O4; V40.0 O4
H6 0 100.0: I3 100.0 200.5 8 K3 1.0 O160; I3; I3 U199.0;
H7 14 20.0: K14 20.0 O2; K14 20.0 O2; V20.0 O2; V20.0 O2
H8 15 30.0: K15 30.0 O3; K15 30.0 O3; V30.0 O3; V30.0 O3
H9 0 200.5: K3 150.0 O170; ; ;
H10 8 10.0: K8 10.0 O1; K8 10.0 O1; V10.0 O1 V50.0 N; V10.0 O1 V50.0 N
H11 16 40.0: K200 40.0 O4; ; ;
";

#[test]
fn a_page_with_a_damaged_header_is_bad_or_answers_as_before(rt: HostRuntime) {
    play(&rt, rt.alloc(), &LOOKED, HEADERS);
}

/// The same of the eight pages that lead on, without all versions.
const ENTRIES: &str = "M1 0 300.0: K3 150.0 O170; ; ;
M2 7 300.0: P8; ; ;
M3 15 30.0: K15 30.0 O3; K15 30.0 O3; V30.0 O3;
M4 8 30.0: K8 10.0 O1; K8 10.0 O1; V50.0 N;
M5 200 40.0: K200 40.0 O4; K200 40.0 O4; V40.0 O4;
M6 0 100.0: I3 100.0 200.5 8 K3 1.0 O160; I3; I3 U199.0;
M7 14 20.0: K14 20.0 O2; K14 20.0 O2; V20.0 O2;
M8 15 30.0: K15 30.0 O3; K15 30.0 O3; V30.0 O3;
";

#[test]
fn each_octet_of_the_entries_of_a_page_that_leads_on_is_read_or_reported(rt: HostRuntime) {
    play(&rt, rt.alloc(), &LOOKED, ENTRIES);
}

/// Of each current leaf a key and a stamp whose way comes to it.
const CURRENT: &str = "C9 0 200.5
C10 8 10.0
C11 16 40.0
";

#[test]
fn each_octet_of_the_entries_of_a_current_leaf_is_read_or_reported(rt: HostRuntime) {
    play(&rt, rt.alloc(), &LOOKED, CURRENT);
}

/// A page, one of the two octets of the count of its entries, which is turned, a key and a stamp, and what the lookup of the next key returns
/// then. Where more are counted, lookups read zeros, as that page 0 is a child.
const COUNTS: &str = "O1 4, 0 300.0: B0
O1 5, 0 300.0: K3 150.0 O170
O2 4, 7 300.0: B0
O2 5, 7 300.0: B2
O3 4, 15 30.0: B0
O3 5, 15 30.0: B3
O4 4, 8 30.0: B0
O4 5, 8 30.0: B0
O5 4, 200 40.0: B0
O5 5, 200 40.0: B5
O6 4, 0 100.0: B0
# of two entries the second one, block three, is read as the current leaf
O6 5, 0 100.0: B3
O7 4, 14 20.0: B0
O7 5, 14 20.0: B7
O8 4, 15 30.0: B0
O8 5, 15 30.0: B8
O9 4, 0 200.5: K3 150.0 O170
O9 5, 0 200.5: K3 150.0 O170
O10 4, 8 10.0: K8 10.0 O1
O10 5, 8 10.0: K8 10.0 O1
O11 4, 16 40.0: K200 40.0 O4
O11 5, 16 40.0: K200 40.0 O4
";

#[test]
fn a_damaged_count_leads_to_what_is_bad_or_answers(rt: HostRuntime) {
    play(&rt, rt.alloc(), &LOOKED, COUNTS);
}

/// The same of octets of key nodes.
const CHILDREN: &str = "# the lowest key of the first child, and its page
O1 120, 0 300.0: B1
O1 159, 0 300.0: B1
O1 160, 0 300.0: B72057594037927938
O1 167, 0 300.0: B3
O1 167, 15 30.0: K15 30.0 O3
O2 159, 7 300.0: B4
O2 167, 7 300.0: B5
O2 168, 7 300.0: P8
O3 159, 15 30.0: B5
O3 167, 15 30.0: B4
O4 167, 0 300.0: B7
O4 167, 8 30.0: K8 10.0 O1
O5 167, 200 40.0: B9
# those of the second one: the keys of both change, and neither page has them
O1 168, 15 30.0: B2
O1 207, 0 300.0: B2
O1 207, 14 20.0: B3
O1 207, 15 30.0: B3
O1 215, 0 300.0: K3 150.0 O170
O1 215, 15 30.0: B2
O4 207, 8 30.0: B6
O4 207, 9 30.0: B7
O4 215, 8 30.0: B6
O4 216, 8 30.0: K8 10.0 O1
";

#[test]
fn a_damaged_child_is_bad_or_leads_to_what_is(rt: HostRuntime) {
    play(&rt, rt.alloc(), &LOOKED, CHILDREN);
}

/// The same of columns.
const COLUMNS: &str = "# the first part: its start, its kind and its number
O6 127, 0 300.0: K3 150.0 O170
O6 135, 0 300.0: K3 150.0 O170
O6 136, 0 300.0: K3 150.0 O170
O6 137, 0 1.0: D 72057594037927936
O6 144, 0 1.0: D 1
O6 144, 0 300.0: K3 150.0 O170
# the second part: where it starts the first one ends
O6 152, 0 1.0: D 0
O6 152, 0 100.0: D 0
O6 152, 0 101.0: D 3
O6 160, 0 100.0: D 0
O6 160, 0 100.1: D 3
O6 161, 0 1.0: I0 0.0 100.0 8 K3 1.0 O160
O6 169, 0 100.0: D 2
O6 169, 0 1.0: I0 0.0 100.0 8 K3 1.0 O160
# the current leaf: where it starts the second part ends
O6 177, 0 1.0: I0 0.0 100.0 8 K3 1.0 O160
O6 177, 0 200.5: D 3
O6 177, 0 201.5: B9
O6 185, 0 150.0: D 3
O6 185, 0 200.4: B9
O6 186, 0 1.0: I0 0.0 100.0 8 K3 1.0 O160
O6 194, 0 1.0: I0 0.0 100.0 8 K3 1.0 O160
O6 194, 0 300.0: B8
O6 195, 0 300.0: K3 150.0 O170
# columns without a past
O7 127, 14 20.0: B10
O7 136, 14 20.0: K14 20.0 O2
O7 137, 14 20.0: B72057594037927946
O7 144, 14 20.0: B11
O7 145, 14 20.0: K14 20.0 O2
O8 144, 15 30.0: B10
";

#[test]
fn a_damaged_column_is_bad_or_leads_to_what_is(rt: HostRuntime) {
    play(&rt, rt.alloc(), &LOOKED, COLUMNS);
}

/// The same of current leaves. A value of 257 octets from 170 on is 4,295,033,258, since others are 0.
const LEAVES: &str = "# the first version: its key, its stamp, its tag, its length and its value
O9 120, 0 200.5: K6 199.0 O171
O9 159, 0 200.5: K2 150.0 O170
O9 167, 0 200.5: K3 151.0 O170
O9 175, 0 200.5: K3 150.1 O170
O9 176, 0 200.5: K6 199.0 O171
O9 177, 0 200.5: K3 150.0 4295033258
O9 178, 0 200.5: K3 150.0 0
O9 179, 0 200.5: K3 150.0 O171
# the second one, and the third, whose stamp passes the one asked for, or falls
O9 219, 6 300.0: K7 199.0 O171
O9 227, 6 300.0: K6 198.0 O171
O9 287, 4 300.0: K6 199.0 O171
O9 286, 4 300.0: K5 44.0 O187
# the end of key three: it comes later, becomes a value of no octets, or has octets
O9 347, 0 400.0: K3 150.0 O170
O9 356, 0 400.0: K3 400.0 0
O9 358, 0 400.0: K5 300.0 O187
O9 359, 0 400.0: K5 300.0 O187
# other leaves
O10 159, 8 10.0: K9 10.0 O1
O10 167, 8 10.0: P15
O10 219, 14 20.0: P15
O10 279, 8 50.0: K8 10.0 O1
O10 299, 8 50.0: K14 20.0 O2
O11 159, 15 30.0: E
O11 167, 15 30.0: E
O11 219, 16 40.0: K201 40.0 O4
O11 239, 16 40.0: K200 40.0 O5
";

#[test]
fn a_damaged_leaf_is_bad_or_has_other_versions(rt: HostRuntime) {
    play(&rt, rt.alloc(), &LOOKED, LEAVES);
}

/// Key nodes that name themselves, and what lookups of a key now return. The root too, and one that names a page that there isn't.
const THEMSELVES: &str = "W 4: 3 1 2 0 0 2 0 96, K0 K15 S0.0 F16, K0 N4, K8 N7
Y0 300.0: B4
W 1: 3 1 4 0 0 2 0 96, K0 F40 S0.0 F16, K0 N1, K15 N200
Y0 300.0: B1
Y15 300.0: B200
";

#[test]
fn a_key_node_that_names_itself_is_bad(rt: HostRuntime) {
    play(&rt, rt.alloc(), &LOOKED, THEMSELVES);
}

/// Pages and blocks, and an octet of each that no lookup of the other tables refuses, or that leads them to another one.
const UNREFUSED: &str = "F2 159
F2 168
F3 159
F4 216
F6 127
F6 135
F6 136
F6 161
F6 186
F6 195
F7 127
F7 136
F7 145
F9 120
F9 176
F9 177
F9 178
F9 286
F9 358
F9 359
F10 219
F10 299
F11 159
X0 120
X0 176
X0 178
X0 299
X1 236
X1 240
X3 170
";

#[test]
fn a_check_finds_what_looks_pass_over(rt: HostRuntime) {
    play(&rt, rt.alloc(), &LOOKED, UNREFUSED);
}
