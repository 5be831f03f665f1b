//! Files as a whole: what their ends, their batches and earlier loads make of them.

use crate::scripts::{PLAIN, SMALL_RING, Script};

pub(crate) const LOADS: [Script; 12] = [
    Script {
        name: "an empty file gives nothing",
        made: PLAIN,
        shown: "$ rha load a --collector 0 --mark 1704067201 nothing
F|0|0|0|0|0
S|1704067201
$ rha ask a at 1704067200 prefix 10.0.0.0/8
E|0
$ rha check a
ok|0|1704067201
",
    },
    Script {
        name: "a file that ends inside a record sets no mark",
        made: PLAIN,
        shown: "$ rha load a --collector 0 --mark 1704067201 cut-update
X|13|Truncated|0
F|0|0|0|0|0
S|0
status 1
$ rha ask a durable 0
N|0
$ rha ask a at 0 all
X|24|AboveWatermark|0
status 1
",
    },
    Script {
        name: "a length above the limit ends a file, and the record before it stays",
        made: PLAIN,
        shown: "$ rha load a --collector 0 --mark 1704067201 update+too-long
B|0|1|1
X|14|TooLong|1
F|1|1|0|0|0
S|1704067200
status 1
$ rha ask a durable 0
N|1
$ rha load a --collector 0 --mark 1704067201 nothing
F|0|0|0|0|0
S|1704067201
$ rha ask a at 1704067200 prefix 10.0.0.0/8
R|0|192.0.2.1|65001|10.0.0.0/8|65001 65002|IGP|192.0.2.1|||NAG||
E|1
",
    },
    Script {
        name: "records after a length above the limit are left",
        made: PLAIN,
        shown: "$ rha load a --collector 0 update+too-long+update
B|0|1|1
X|14|TooLong|1
F|1|1|0|0|0
S|1704067200
status 1
",
    },
    Script {
        name: "batches are offered when they are full",
        made: PLAIN,
        shown: "$ rha load a --collector 0 --batch 2 update+update+prefix-of-33-bits+earlier
B|0|2|2
X|15|Malformed|2
B|2|2|3
L|0|1704067199|1704067200
F|4|2|1|1|0
S|1704067200
",
    },
    Script {
        name: "refused records are shown before what waits",
        made: PLAIN,
        shown: "$ rha load a --collector 0 --batch 2 update+prefix-of-33-bits+update+prefix-of-33-bits+update+empty+rib
X|15|Malformed|1
B|0|2|2
X|15|Malformed|3
B|2|4|4
X|17|NoPeerTable|6
F|7|4|0|3|0
S|1704067200
",
    },
    Script {
        name: "late records are counted in each batch",
        made: PLAIN,
        shown: "$ rha load a --collector 0 --batch 2 update+earlier+skipped+earlier+update+prefix-of-33-bits+earlier+peer-table
B|0|1|2
L|1|1704067199|1704067200
B|1|2|4
L|0|1704067199|1704067200
X|15|Malformed|5
B|2|2|5
L|0|1704067199|1704067200
F|8|2|3|1|1
S|1704067200
",
    },
    Script {
        name: "one load goes on after another",
        made: PLAIN,
        shown: "$ rha load a --collector 0 --batch 2 --mark 1704067201 cut-update
X|13|Truncated|0
F|0|0|0|0|0
S|0
status 1
$ rha ask a settled
X|28|BadRequest
status 1
$ rha load a --collector 0 --batch 2 --mark 1704067201 update
B|0|1|1
F|1|1|0|0|0
S|1704067201
$ rha ask a at 1704067200 prefix 10.0.0.0/8
R|0|192.0.2.1|65001|10.0.0.0/8|65001 65002|IGP|192.0.2.1|||NAG||
E|1
$ rha load a --collector 0 --batch 2 --mark 1704067201 --resume update+earlier
B|1|1|2
L|0|1704067199|1704067201
F|2|0|1|0|0
S|1704067201
$ rha ask a durable 0
N|1
$ rha load a --collector 0 --batch 2 --mark 1704067201 prefix-of-33-bits
X|15|Malformed|0
F|1|0|0|1|0
S|1704067201
$ rha ask a watermark
S|1704067201
$ rha load a --collector 0 --batch 2 --mark 1704067201 nothing
F|0|0|0|0|0
S|1704067201
",
    },
    Script {
        name: "a resumed load drops what was offered",
        made: PLAIN,
        shown: "$ rha load a --collector 0 --batch 2 update+prefix-of-33-bits+earlier+begun-update
X|15|Malformed|1
B|0|1|2
L|1|1704067199|1704067200
X|13|Truncated|3
F|3|1|1|1|0
S|1704067200
status 1
$ rha load a --collector 0 --batch 2 --resume update+prefix-of-33-bits+earlier+update+empty
X|15|Malformed|1
B|1|3|4
F|5|2|0|1|0
S|1704067200
",
    },
    Script {
        name: "a load that isn't resumed drops nothing",
        made: PLAIN,
        shown: "$ rha load a --collector 0 --batch 2 update+prefix-of-33-bits+earlier+begun-update
X|15|Malformed|1
B|0|1|2
L|1|1704067199|1704067200
X|13|Truncated|3
F|3|1|1|1|0
S|1704067200
status 1
$ rha load a --collector 0 --batch 2 update+prefix-of-33-bits+earlier+update+empty
X|15|Malformed|1
B|1|2|4
L|1|1704067199|1704067200
B|2|4|6
F|5|3|1|1|0
S|1704067200
",
    },
    Script {
        name: "a resumed load of a file that was loaded whole offers nothing",
        made: PLAIN,
        shown: "$ rha load a --collector 0 --batch 2 --resume update+prefix-of-33-bits+earlier+update+empty
X|15|Malformed|1
B|0|1|2
L|1|1704067199|1704067200
B|1|3|4
F|5|3|1|1|0
S|1704067200
$ rha load a --collector 0 --batch 2 --resume update+prefix-of-33-bits+earlier+update+empty
X|15|Malformed|1
F|5|0|0|1|0
S|1704067200
",
    },
    Script {
        name: "a full ring ends a load, and what it kept stays",
        made: SMALL_RING,
        shown: "$ rha load a --collector 0 2076*update+update
B|0|1000|1000
B|1000|2000|2000
X|23|IntakeFull
S|1704067200
status 1
$ rha load a --collector 0 --batch 76 --resume 2076*update
B|2000|2076|2076
F|2076|76|0|0|0
S|1704067200
$ rha load a --collector 0 update
X|23|IntakeFull
S|1704067200
status 1
$ rha ask a durable 0
N|2076
",
    },
];
