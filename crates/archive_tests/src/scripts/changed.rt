//! Which places changed in a span.

use crate::scripts::{PLAIN, Script};

pub(crate) const CHANGED: [Script; 3] = [
    Script {
        name: "places that were announced or withdrawn, by moments, prefixes and places",
        made: PLAIN,
        shown: "$ rha load a --collector 0 --mark 1704067201 earlier+ipv6+withdrawal
B|0|3|3
F|3|3|0|0|0
S|1704067201
$ rha ask a changed 0 1704067200 0.0.0.0/0 ffff::/16
C|0|192.0.2.1|65001|10.0.0.0/8
C|0|192.0.2.1|65001|2001:db8::/32
E|2
$ rha ask a changed 0 2023-12-31T23:59:59Z 0.0.0.0/0 ffff::/16
C|0|192.0.2.1|65001|10.0.0.0/8
E|1
$ rha ask a changed 1704067200 1704067200 10.0.0.0/8 10.0.0.0/8
C|0|192.0.2.1|65001|10.0.0.0/8
E|1
$ rha ask a changed 0 1704067200 10.0.0.0/9 2001:db8::/31
E|0
$ rha ask a changed 0 1704067200 10.0.0.0/9 2001:db8::/32
C|0|192.0.2.1|65001|2001:db8::/32
E|1
$ rha ask a changed 0 1704067198 0.0.0.0/0 ffff::/16
E|0
$ rha ask a changed 1704067200 1704067199 0.0.0.0/0 ffff::/16
E|0
$ rha ask a changed 0 1704067200 ffff::/16 0.0.0.0/0
E|0
$ rha ask a changed 0 1704067200 0.0.0.0/0 ffff::/16 after 0 192.0.2.1 65001 10.0.0.0/8
C|0|192.0.2.1|65001|2001:db8::/32
E|1
$ rha ask a changed 0 1704067200 0.0.0.0/0 ffff::/16 after 0 192.0.2.1 65001 2001:db8::/32
E|0
$ rha ask a changed 0 1704067200 0.0.0.0/0 ffff::/16 after 0 192.0.2.1 65000 ffff::/16
C|0|192.0.2.1|65001|10.0.0.0/8
C|0|192.0.2.1|65001|2001:db8::/32
E|2
",
    },
    Script {
        name: "the end of a session is no change of a place",
        made: PLAIN,
        shown: "$ rha load a --collector 0 --mark 1704067201 earlier+session-down
B|0|2|2
F|2|2|0|0|0
S|1704067201
$ rha ask a history 1704067200 1704067200 0 192.0.2.1 65001 10.0.0.0/8
D|1704067200
E|1
$ rha ask a changed 1704067200 1704067200 10.0.0.0/8 10.0.0.0/8
E|0
$ rha ask a changed 1704067199 1704067200 10.0.0.0/8 10.0.0.0/8
C|0|192.0.2.1|65001|10.0.0.0/8
E|1
",
    },
    Script {
        name: "256 places are an end, and of more the last one says where to go on",
        made: PLAIN,
        shown: "$ rha load a --collector 0 --mark 1704067201 prefixes-257
B|0|1|1
F|1|1|0|0|0
S|1704067201
$ rha ask a changed 0 1704067200 10.0.0.0/8 10.255.255.255/32
0..256 x C|0|192.0.2.1|65001|10.0.#.0/24
M|0|192.0.2.1|65001|10.0.255.0/24
$ rha ask a changed 0 1704067200 10.0.0.0/8 10.255.255.255/32 after 0 192.0.2.1 65001 10.0.255.0/24
C|0|192.0.2.1|65001|10.1.0.0/24
E|1
$ rha ask a changed 0 1704067200 10.0.0.0/8 10.0.255.0/24
0..256 x C|0|192.0.2.1|65001|10.0.#.0/24
E|256
$ rha ask a --all changed 0 1704067200 10.0.0.0/8 10.255.255.255/32
0..256 x C|0|192.0.2.1|65001|10.0.#.0/24
C|0|192.0.2.1|65001|10.1.0.0/24
E|257
$ rha ask a --human changed 0 1704067200 10.0.0.0/8 10.255.255.255/32
0..256 x C|0|192.0.2.1|65001|10.0.#.0/24
M|0|192.0.2.1|65001|10.0.255.0/24
! rha: 256 lines shown, and more follow; --all prints all
$ rha ask a --all changed 0 1704067201 10.0.0.0/8 10.255.255.255/32
X|24|AboveWatermark|1704067201
status 1
",
    },
];
