//! Marks, and records that wait for those of all collectors.

use crate::scripts::{OF_TWO, PLAIN, Script};

pub(crate) const MARKS: [Script; 6] = [
    Script {
        name: "a record is late by its fraction of a second",
        made: PLAIN,
        shown: "$ rha load a --collector 0 extended+update
B|0|1|2
L|1|1704067200|1704067200.500000
F|2|1|1|0|0
S|1704067200.500000
$ rha ask a at 1704067200.5 prefix 10.0.0.0/8
X|24|AboveWatermark|1704067200.500000
status 1
$ rha ask a at 1704067200.499999 prefix 10.0.0.0/8
E|0
",
    },
    Script {
        name: "a mark has a fraction",
        made: PLAIN,
        shown: "$ rha load a --collector 0 --mark 1704067200.25 update
B|0|1|1
F|1|1|0|0|0
S|1704067200.250000
$ rha ask a at 1704067200.249999 prefix 10.0.0.0/8
R|0|192.0.2.1|65001|10.0.0.0/8|65001 65002|IGP|192.0.2.1|||NAG||
E|1
$ rha ask a at 1704067200.25 prefix 10.0.0.0/8
X|24|AboveWatermark|1704067200.250000
status 1
$ rha check a
ok|1|1704067200.250000
$ rha load a --collector 0 --mark 1704067200.249999 nothing
F|0|0|0|0|0
! rha: 21 MarkBack
status 1
",
    },
    Script {
        name: "a mark never goes back",
        made: PLAIN,
        shown: "$ rha load a --collector 0 --mark 10 nothing
F|0|0|0|0|0
S|10
$ rha load a --collector 0 --mark 9 nothing
F|0|0|0|0|0
! rha: 21 MarkBack
status 1
$ rha load a --collector 0 --mark 10 nothing
F|0|0|0|0|0
S|10
$ rha load a --collector 1 --mark 5 nothing
! rha: 22 NoCollector
status 1
$ rha load a --collector 1 --mark 5 update
! rha: 22 NoCollector
status 1
$ rha ask a durable 0
N|0
$ rha ask a watermark
S|10
$ rha load a --collector 0 --mark 1 update
B|0|1|1
F|1|1|0|0|0
! rha: 21 MarkBack
status 1
$ rha ask a durable 0
N|1
",
    },
    Script {
        name: "a record between two later ones is late",
        made: PLAIN,
        shown: "$ rha load a --collector 0 empty-at-100+empty-at-99+empty-at-100
B|0|2|3
L|1|99|100
F|3|2|1|0|0
S|100
$ rha ask a durable 0
N|2
$ rha load a --collector 0 empty-at-99
B|2|2|4
L|0|99|100
F|1|0|1|0|0
S|100
",
    },
    Script {
        name: "a record waits for the mark of each collector",
        made: OF_TWO,
        shown: "$ rha load a --collector 0 --mark 50 nothing
F|0|0|0|0|0
S|0
$ rha load a --collector 1 update-at-60
B|0|1|1
F|1|1|0|0|0
S|50
$ rha ask a at 49 prefix 10.0.0.0/8
E|0
$ rha ask a at 60 prefix 10.0.0.0/8
X|24|AboveWatermark|50
status 1
$ rha load a --collector 1 --mark 61 nothing
F|0|0|0|0|0
S|50
$ rha load a --collector 0 --mark 60 nothing
F|0|0|0|0|0
S|60
$ rha check a
ok|0|60
$ rha load a --collector 0 --mark 61 nothing
F|0|0|0|0|0
S|61
$ rha ask a at 60 prefix 10.0.0.0/8
R|1|192.0.2.1|65001|10.0.0.0/8|65001 65002|IGP|192.0.2.1|||NAG||
E|1
$ rha check a
ok|1|61
",
    },
    Script {
        name: "a full ring waits for a silent collector, and the last mark releases all",
        made: OF_TWO,
        shown: "$ rha load a --collector 0 2076*update
B|0|1000|1000
B|1000|2000|2000
B|2000|2076|2076
F|2076|2076|0|0|0
S|0
$ rha load a --collector 0 update
X|23|IntakeFull
S|0
status 1
$ rha ask a durable 0
N|2076
$ rha ask a durable 1
N|0
$ rha check a
ok|0|0
$ rha load a --collector 1 --mark 4294967296 nothing
F|0|0|0|0|0
S|1704067200
$ rha load a --collector 0 --mark 4294967296 nothing
F|0|0|0|0|0
S|4294967296
$ rha load a --collector 0 update
B|2076|2076|2077
L|0|1704067200|4294967296
F|1|0|1|0|0
S|4294967296
$ rha ask a at 1704067200 prefix 10.0.0.0/8
R|0|192.0.2.1|65001|10.0.0.0/8|65001 65002|IGP|192.0.2.1|||NAG||
E|1
$ rha check a
ok|2076|4294967296
",
    },
];
