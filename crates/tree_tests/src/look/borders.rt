//! Each lookup at each border: the keys where children begin, the stamps where parts do, and the start of the current leaf.

use super::tree::LOOKED;
use crate::playing::play;

/// A key and a stamp, where in the past the lookup of the next key comes, and how far.
const NEXT_KEYS: &str = "# in the first part of the past
L0 0.0: I0 0.0 100.0 8 P8
L0 1.0: I0 0.0 100.0 8 K3 1.0 O160
L3 1.0: I0 0.0 100.0 8 K3 1.0 O160
L4 98.0: I0 0.0 100.0 8 K5 50.0 O161
L4 99.0: I0 0.0 100.0 8 P8
L0 99.18446744073709551615: I0 0.0 100.0 8 K3 1.0 O160
# in the second one, a column of two leaves
L0 100.0: I3 100.0 200.5 8 K3 1.0 O160
L4 100.0: I3 100.0 200.5 8 P8
L0 198.18446744073709551615: I3 100.0 200.5 8 K3 150.0 O170
L4 198.18446744073709551615: I3 100.0 200.5 8 P8
L4 199.0: I3 100.0 200.5 8 K6 199.0 O171
L7 199.0: I3 100.0 200.5 8 P8
L0 200.4: I3 100.0 200.5 8 K3 150.0 O170
# in the current leaf
L0 200.5: K3 150.0 O170
L4 200.5: K6 199.0 O171
L4 300.0: K5 300.0 O187
L0 400.0: K5 300.0 O187
L7 400.0: P8
# in the second column, and in the last one
L8 9.0: P15
L8 10.0: K8 10.0 O1
L8 50.0: K14 20.0 O2
L14 20.0: K14 20.0 O2
L14 19.0: P15
L15 29.0: E
L15 30.0: K15 30.0 O3
L16 40.0: K200 40.0 O4
L201 40.0: E
";

#[test]
fn the_next_key_is_reported_at_each_border(rt: HostRuntime) {
    play(&rt, rt.alloc(), &LOOKED, NEXT_KEYS);
}

/// A key and a stamp, the block where its versions are, up to when they are all, and the versions.
const PARTS: &str = "# in the first part of the past
R 3 0.0: I0 U100.0 V1.0 O160
R 3 1.0: I0 U100.0 V1.0 O160
R 3 1.1: I0 U100.0
R 3 99.18446744073709551615: I0 U100.0
R 5 0.0: I0 U100.0 V50.0 O161 V99.0 N
R 5 50.0: I0 U100.0 V50.0 O161 V99.0 N
R 5 50.1: I0 U100.0 V99.0 N
R 5 99.0: I0 U100.0 V99.0 N
R 5 99.1: I0 U100.0
R 0 0.0: I0 U100.0
R 7 99.0: I0 U100.0
# in the two leaves of the second one: the first has a copy of key three's value
R 3 100.0: I3 U199.0 V150.0 O170
R 3 150.1: I3 U199.0
R 6 198.18446744073709551615: I3 U199.0
R 6 199.0: I3 U200.5 V199.0 O171
R 3 199.0: I3 U200.5
R 3 200.4: I3 U200.5
# in the current leaf
R 3 200.5: V400.0 N
R 3 400.1:
R 5 200.5: V300.0 O187
R 6 200.5:
# in the second column, and in the last one
R 8 0.0: V10.0 O1 V50.0 N
R 8 11.0: V50.0 N
R 14 20.0: V20.0 O2
R 14 20.1:
R 15 0.0: V30.0 O3
";

#[test]
fn the_versions_of_a_key_are_reported_part_by_part(rt: HostRuntime) {
    play(&rt, rt.alloc(), &LOOKED, PARTS);
}

/// A key and a stamp, in which block the key's value is found, and what it is.
const VALUES: &str = "# in the past
V3 0.18446744073709551615: I0
V3 1.0: I0 K3 1.0 O160
V5 98.0: I0 K5 50.0 O161
V5 99.0: I0
V3 99.18446744073709551615: I0 K3 1.0 O160
V3 100.0: I3 K3 1.0 O160
V3 149.0: I3 K3 1.0 O160
V3 150.0: I3 K3 150.0 O170
V6 198.18446744073709551615: I3
V6 199.0: I3 K6 199.0 O171
V3 200.4: I3 K3 150.0 O170
# in current leaves
V3 200.5: K3 150.0 O170
V3 399.18446744073709551615: K3 150.0 O170
V3 400.0:
V7 400.0:
V8 49.0: K8 10.0 O1
V8 50.0:
V14 20.0: K14 20.0 O2
V15 29.18446744073709551615:
V15 30.0: K15 30.0 O3
V200 18446744073709551615.0: K200 40.0 O4
";

#[test]
fn what_a_key_had_is_found(rt: HostRuntime) {
    play(&rt, rt.alloc(), &LOOKED, VALUES);
}

/// A key, and all its versions.
const ALL: &str = "A0:
A3: V1.0 O160 V150.0 O170 V400.0 N
A4:
A5: V50.0 O161 V99.0 N V300.0 O187
A6: V199.0 O171
A7:
A8: V10.0 O1 V50.0 N
A14: V20.0 O2
A15: V30.0 O3
A16:
A200: V40.0 O4
A255:
";

#[test]
fn all_versions_of_a_key_are_reported(rt: HostRuntime) {
    play(&rt, rt.alloc(), &LOOKED, ALL);
}
