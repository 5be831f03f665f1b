//! Disks on which octets become others: what is refused then, and what is answered all the same.

use crate::scripts::{PLAIN, Script};

pub(crate) const DAMAGE: [Script; 4] = [
    Script {
        name: "what a damaged block has isn't answered, and a check finds it",
        made: PLAIN,
        shown: "$ rha load a --collector 0 --mark 1704067201 513*update
B|0|513|513
F|513|513|0|0|0
S|1704067201
~ block 0 at 200: 40
$ rha ask a history 0 1704067200 0 192.0.2.1 65001 10.0.0.0/8
X|8|Damaged|0
status 1
$ rha ask a at 1704067200 prefix 10.0.0.0/8
R|0|192.0.2.1|65001|10.0.0.0/8|65001 65002|IGP|192.0.2.1|||NAG||
E|1
$ rha check a
! rha: 8 Damaged
status 1
",
    },
    // The root is page 21, whose children are the columns on pages 17 and 19: the second one has the keys from 10.0.82.0/24 on.
    Script {
        name: "a key node that names itself as its child",
        made: PLAIN,
        shown: "$ rha load a --collector 0 --mark 1704067201 prefixes-257
B|0|1|1
F|1|1|0|0|0
S|1704067201
$ rha check a
ok|257|1704067201
~ page 21 at 208: 0000000000000015
$ rha ask a at 1704067200 all
X|9|BadNode|21
status 1
$ rha ask a at 1704067200 route 0 192.0.2.1 65001 10.0.82.0/24
X|9|BadNode|21
status 1
$ rha ask a at 1704067200 route 0 192.0.2.1 65001 10.0.81.0/24
R|0|192.0.2.1|65001|10.0.81.0/24|65001 65002|IGP|192.0.2.1|||NAG||
E|1
$ rha check a
! rha: 9 BadNode
status 1
~ page 21 at 208: 0000000000000013
$ rha check a
ok|257|1704067201
~ page 21 at 160: 0000000000000015
$ rha load a --collector 0 --mark 4294967296 last
B|1|2|2
F|1|1|0|0|0
! rha: 9 BadNode
status 1
~ page 21 at 160: 0000000000000011
$ rha check a
ok|257|4294967295
$ rha load a --collector 0 nothing
F|0|0|0|0|0
S|4294967296
$ rha check a
ok|258|4294967296
",
    },
    // Page 17 is the column. Its past is in blocks 0 and 1, of 202 versions each. Block 1 becomes a column of one part, which starts where
    // the block does.
    Script {
        name: "a block that names its own number, or a higher one",
        made: PLAIN,
        shown: "$ rha load a --collector 0 --mark 1704067201 513*update
B|0|513|513
F|513|513|0|0|0
S|1704067201
~ page 17 at 161: 02
~ sealed 1 at 0: 0201010000010019
~ sealed 1 at 120: 00060DD710212000 00000000000000CA 01 0000000000000001 <16207 x 00>
$ rha ask a history 0 1704067200 0 192.0.2.1 65001 10.0.0.0/8
X|8|Damaged|1
status 1
$ rha check a
! rha: 8 Damaged
status 1
~ sealed 1 at 137: 0000000000000002
$ rha ask a history 0 1704067200 0 192.0.2.1 65001 10.0.0.0/8
X|8|Damaged|1
status 1
$ rha check a
! rha: 8 Damaged
status 1
~ sealed 1 at 137: FFFFFFFFFFFFFFFF
$ rha ask a history 0 1704067200 0 192.0.2.1 65001 10.0.0.0/8
X|8|Damaged|1
status 1
~ sealed 1 at 137: 0000000000000000
$ rha ask a history 0 1704067200 0 192.0.2.1 65001 10.0.0.0/8
X|8|Damaged|0
status 1
$ rha ask a at 1704067200 prefix 10.0.0.0/8
R|0|192.0.2.1|65001|10.0.0.0/8|65001 65002|IGP|192.0.2.1|||NAG||
E|1
$ rha ask a at 1704067199 all
E|0
",
    },
    // On the head, at 0 stands how many changes are applied, and at 64 how many records were offered.
    Script {
        name: "counts at their last value",
        made: PLAIN,
        shown: "$ rha load a --collector 0 --mark 1704067201 update
B|0|1|1
F|1|1|0|0|0
S|1704067201
~ page 0 at 64: FFFFFFFFFFFFFFFE
$ rha load a --collector 0 empty+empty
X|26|CounterFull
S|1704067201
status 1
$ rha load a --collector 0 empty
B|1|1|18446744073709551615
L|0|1704067200|1704067201
F|1|0|1|0|0
S|1704067201
$ rha load a --collector 0 empty
X|26|CounterFull
S|1704067201
status 1
$ rha ask a durable 0
N|1
~ page 0 at 64: 0000000000000001
~ page 0 at 0: FFFFFFFFFFFFFFFF
$ rha load a --collector 0 --mark 4294967296 last
B|1|2|2
F|1|1|0|0|0
! rha: 26 CounterFull
status 1
$ rha ask a at 1704067200 prefix 10.0.0.0/8
R|0|192.0.2.1|65001|10.0.0.0/8|65001 65002|IGP|192.0.2.1|||NAG||
E|1
$ rha check a
! rha: 9 BadNode
status 1
~ page 0 at 0: 0000000000000001
$ rha load a --collector 0 nothing
F|0|0|0|0|0
S|4294967296
$ rha check a
ok|2|4294967296
",
    },
];
