//! What is shown of calls that fail, once each, and of a tree that can't grow.

use crate::scripts::{PLAIN, Script};

pub(crate) const FAILED: [Script; 4] = [
    // An opening makes ten reads here. The next one is of the root.
    Script {
        name: "a page that can't be read is read the next time",
        made: PLAIN,
        shown: "$ rha load a --collector 0 --mark 1704067201 update
B|0|1|1
F|1|1|0|0|0
S|1704067201
~ fails: read 10
$ rha ask a at 1704067200 prefix 10.0.0.0/8
X|1|Fault
status 1
~ fails: read 10
$ rha check a
! rha: 1 Fault
status 1
$ rha ask a at 1704067200 prefix 10.0.0.0/8
R|0|192.0.2.1|65001|10.0.0.0/8|65001 65002|IGP|192.0.2.1|||NAG||
E|1
$ rha check a
ok|1|1704067201
",
    },
    // An opening that finds nothing to recover syncs twice. A commit does, too: it is there once its gate is written, between both.
    Script {
        name: "a batch whose commit failed is there whole or not at all",
        made: PLAIN,
        shown: "~ fails: sync 2
$ rha load a --collector 0 update
X|1|Fault
! rha: 1 Fault
status 1
$ rha ask a durable 0
N|0
~ fails: sync 3
$ rha load a --collector 0 update
X|1|Fault
! rha: 1 Fault
status 1
$ rha ask a durable 0
N|1
$ rha check a
ok|0|1704067200
",
    },
    // The leaf has room for 202 versions, so the 203rd makes a block of them.
    Script {
        name: "a block that can't be burnt is spent, and the next one is burnt",
        made: PLAIN,
        shown: "~ fails: burn 0
$ rha load a --collector 0 --mark 1704067201 203*update
B|0|203|203
F|203|203|0|0|0
! rha: 1 Fault
status 1
$ rha ask a at 1704067200 prefix 10.0.0.0/8
X|24|AboveWatermark|1704067200
status 1
$ rha ask a durable 0
N|203
$ rha load a --collector 0 nothing
F|0|0|0|0|0
S|1704067201
$ rha check a
ok|203|1704067201
~ block 1 at 200: 40
$ rha check a
! rha: 8 Damaged
status 1
$ rha ask a history 0 1704067200 0 192.0.2.1 65001 10.0.0.0/8
X|8|Damaged|1
status 1
",
    },
    // Page 17 is the column, page 18 its leaf. Six levels of key nodes are laid above them, which are full: all keys of theirs but the first ones
    // are above those of the records.
    Script {
        name: "a tree of the greatest height answers what it applied",
        made: PLAIN,
        shown: "$ rha load a --collector 0 --mark 1704067200 earlier
B|0|1|1
F|1|1|0|0|0
S|1704067200
~ page 17 at 48: 0004C00002010000000000000000000000000000FDE9040B00010000000000000000000000000018
~ page 18 at 48: 0004C00002010000000000000000000000000000FDE9040B00010000000000000000000000000018
~ page 19 at 0: 0300020001523F60 <40 x 00> 0004C00002010000000000000000000000000000FDE9040C00010000000000000000000000000018 <16 x 00> <16 x FF> <40 x 00> 0000000000000011 <337 each 0004C00002010000000000000000000000000000FDE9040B#0000000000000000000000000018FFFFFFFFFFFFFFFF>
~ page 20 at 0: 0300030001523F60 <40 x 00> 0004C00002010000000000000000000000000000FDE9040D00010000000000000000000000000018 <16 x 00> <16 x FF> <40 x 00> 0000000000000013 <337 each 0004C00002010000000000000000000000000000FDE9040C#0000000000000000000000000018FFFFFFFFFFFFFFFF>
~ page 21 at 0: 0300040001523F60 <40 x 00> 0004C00002010000000000000000000000000000FDE9040E00010000000000000000000000000018 <16 x 00> <16 x FF> <40 x 00> 0000000000000014 <337 each 0004C00002010000000000000000000000000000FDE9040D#0000000000000000000000000018FFFFFFFFFFFFFFFF>
~ page 22 at 0: 0300050001523F60 <40 x 00> 0004C00002010000000000000000000000000000FDE9040F00010000000000000000000000000018 <16 x 00> <16 x FF> <40 x 00> 0000000000000015 <337 each 0004C00002010000000000000000000000000000FDE9040E#0000000000000000000000000018FFFFFFFFFFFFFFFF>
~ page 23 at 0: 0300060001523F60 <40 x 00> 0004C00002010000000000000000000000000000FDE9041000010000000000000000000000000018 <16 x 00> <16 x FF> <40 x 00> 0000000000000016 <337 each 0004C00002010000000000000000000000000000FDE9040F#0000000000000000000000000018FFFFFFFFFFFFFFFF>
~ page 24 at 0: 0300070001523F60 <40 x 00> <40 x FF> <16 x 00> <16 x FF> <40 x 00> 0000000000000017 <337 each 0004C00002010000000000000000000000000000FDE90410#0000000000000000000000000018FFFFFFFFFFFFFFFF>
~ page 0 at 24: 0000000000000019 0000000000000000 0000000000000018
$ rha ask a at 1704067199 route 0 192.0.2.1 65001 10.0.0.0/8
R|0|192.0.2.1|65001|10.0.0.0/8|65001 65002|IGP|192.0.2.1|||NAG||
E|1
$ rha load a --collector 0 --mark 1704067201 prefixes-257
B|1|2|2
F|1|1|0|0|0
! rha: 11 TooHigh
status 1
$ rha ask a at 1704067199 route 0 192.0.2.1 65001 10.0.0.0/8
R|0|192.0.2.1|65001|10.0.0.0/8|65001 65002|IGP|192.0.2.1|||NAG||
E|1
$ rha ask a watermark
S|1704067200
$ rha ask a durable 0
N|2
",
    },
];
