//! Archives that are full: what isn't applied any more, what is answered all the same, and larger ones that the same files fill.

use crate::scripts::{FEW_BLOCKS, FEW_PAGES, PLAIN, SMALL_RING, Script};

// Each version of the prefix takes 80 octets of the 16,232 of a leaf, so a leaf has 202. Where each has the same key, a split by time
// makes a block of them and copies none; where each has another key, a split by key takes pages.
pub(crate) const FULL: [Script; 4] = [
    Script {
        name: "an archive without a block that is left answers what it applied",
        made: FEW_BLOCKS,
        shown: "$ rha load a --collector 0 --mark 1704067200 earlier
B|0|1|1
F|1|1|0|0|0
S|1704067200
$ rha load a --collector 0 --mark 1704067201 700*update
B|1|701|701
F|700|700|0|0|0
! rha: 7 OnceFull
status 1
$ rha check a
ok|606|1704067200
$ rha load a --collector 0 last
B|701|702|702
F|1|1|0|0|0
! rha: 7 OnceFull
status 1
$ rha check a
ok|606|1704067200
$ rha ask a at 1704067199 route 0 192.0.2.1 65001 10.0.0.0/8
R|0|192.0.2.1|65001|10.0.0.0/8|65001 65002|IGP|192.0.2.1|||NAG||
E|1
$ rha ask a at 1704067199 prefix 10.0.0.0/8
R|0|192.0.2.1|65001|10.0.0.0/8|65001 65002|IGP|192.0.2.1|||NAG||
E|1
$ rha ask a at 1704067199 cover 10.0.0.1
R|0|192.0.2.1|65001|10.0.0.0/8|65001 65002|IGP|192.0.2.1|||NAG||
E|1
$ rha ask a at 1704067199 peer 0 192.0.2.1 65001
R|0|192.0.2.1|65001|10.0.0.0/8|65001 65002|IGP|192.0.2.1|||NAG||
E|1
$ rha ask a at 1704067199 all
R|0|192.0.2.1|65001|10.0.0.0/8|65001 65002|IGP|192.0.2.1|||NAG||
E|1
$ rha ask a at 1704067198 all
E|0
$ rha ask a history 0 1704067199 0 192.0.2.1 65001 10.0.0.0/8
A|1704067199|65001 65002|IGP|192.0.2.1|||NAG||
E|1
$ rha ask a at 1704067200 prefix 10.0.0.0/8
X|24|AboveWatermark|1704067200
status 1
$ rha ask a watermark
S|1704067200
$ rha ask a durable 0
N|702
",
    },
    Script {
        name: "the same files fill an archive of more blocks",
        made: PLAIN,
        shown: "$ rha load a --collector 0 --mark 1704067200 earlier
B|0|1|1
F|1|1|0|0|0
S|1704067200
$ rha load a --collector 0 --mark 1704067201 700*update
B|1|701|701
F|700|700|0|0|0
S|1704067201
$ rha check a
ok|701|1704067201
$ rha ask a history 1704067199 1704067200 0 192.0.2.1 65001 10.0.0.0/8 skip 700
A|1704067200|65001 65002|IGP|192.0.2.1|||NAG||
E|1
",
    },
    Script {
        name: "an archive without a page that is left answers what it applied",
        made: FEW_PAGES,
        shown: "$ rha load a --collector 0 --mark 1704067200 earlier
B|0|1|1
F|1|1|0|0|0
S|1704067200
$ rha load a --collector 0 --mark 1704067201 prefixes-257
B|1|2|2
F|1|1|0|0|0
! rha: 6 PagesFull
status 1
$ rha check a
ok|202|1704067200
$ rha load a --collector 0 last
B|2|3|3
F|1|1|0|0|0
! rha: 6 PagesFull
status 1
$ rha check a
ok|202|1704067200
$ rha ask a at 1704067199 route 0 192.0.2.1 65001 10.0.0.0/8
R|0|192.0.2.1|65001|10.0.0.0/8|65001 65002|IGP|192.0.2.1|||NAG||
E|1
$ rha ask a at 1704067199 prefix 10.0.0.0/8
R|0|192.0.2.1|65001|10.0.0.0/8|65001 65002|IGP|192.0.2.1|||NAG||
E|1
$ rha ask a at 1704067199 cover 10.0.0.1
R|0|192.0.2.1|65001|10.0.0.0/8|65001 65002|IGP|192.0.2.1|||NAG||
E|1
$ rha ask a at 1704067199 peer 0 192.0.2.1 65001
R|0|192.0.2.1|65001|10.0.0.0/8|65001 65002|IGP|192.0.2.1|||NAG||
E|1
$ rha ask a at 1704067199 all
R|0|192.0.2.1|65001|10.0.0.0/8|65001 65002|IGP|192.0.2.1|||NAG||
E|1
$ rha ask a history 0 1704067199 0 192.0.2.1 65001 10.0.0.0/24
E|0
$ rha ask a at 1704067200 all
X|24|AboveWatermark|1704067200
status 1
$ rha ask a watermark
S|1704067200
$ rha ask a durable 0
N|3
",
    },
    Script {
        name: "the same files fill an archive of more pages",
        made: SMALL_RING,
        shown: "$ rha load a --collector 0 --mark 1704067200 earlier
B|0|1|1
F|1|1|0|0|0
S|1704067200
$ rha load a --collector 0 --mark 1704067201 prefixes-257
B|1|2|2
F|1|1|0|0|0
S|1704067201
$ rha check a
ok|258|1704067201
$ rha ask a at 1704067200 all
R|0|192.0.2.1|65001|10.0.0.0/8|65001 65002|IGP|192.0.2.1|||NAG||
0..255 x R|0|192.0.2.1|65001|10.0.#.0/24|65001 65002|IGP|192.0.2.1|||NAG||
M|0|192.0.2.1|65001|10.0.254.0/24
",
    },
];
