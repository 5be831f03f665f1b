//! Questions of each kind, answers that are cut, and lines that are refused.

use crate::scripts::{PLAIN, Script};

pub(crate) const QUESTIONS: [Script; 5] = [
    Script {
        name: "two prefixes of a peer are found in each way",
        made: PLAIN,
        shown: "$ rha load a --collector 0 --mark 1704067201 two-prefixes
B|0|1|1
F|1|1|0|0|0
S|1704067201
$ rha ask a at 1704067200 peer 0 192.0.2.1 65002
E|0
$ rha ask a at 1704067200 peer 1 192.0.2.1 65001
E|0
$ rha ask a at 1704067200 peer 0 192.0.2.1 65001 after 0 192.0.2.1 65001 10.0.0.0/8
R|0|192.0.2.1|65001|10.128.0.0/9|65001 65002|IGP|192.0.2.1|||NAG||
E|1
$ rha ask a at 2024-01-01T00:00:00Z all
R|0|192.0.2.1|65001|10.0.0.0/8|65001 65002|IGP|192.0.2.1|||NAG||
R|0|192.0.2.1|65001|10.128.0.0/9|65001 65002|IGP|192.0.2.1|||NAG||
E|2
$ rha ask a at 1704067199 all
E|0
$ rha ask a at 1704067200 all after 0 192.0.2.1 65001 10.0.0.0/8
R|0|192.0.2.1|65001|10.128.0.0/9|65001 65002|IGP|192.0.2.1|||NAG||
E|1
$ rha ask a at 1704067200 all after 0 192.0.2.1 65001 10.128.0.0/9
E|0
$ rha ask a at 1704067200 cover 10.127.0.1
R|0|192.0.2.1|65001|10.0.0.0/8|65001 65002|IGP|192.0.2.1|||NAG||
E|1
$ rha ask a at 1704067200 cover 10.128.0.1
R|0|192.0.2.1|65001|10.0.0.0/8|65001 65002|IGP|192.0.2.1|||NAG||
R|0|192.0.2.1|65001|10.128.0.0/9|65001 65002|IGP|192.0.2.1|||NAG||
E|2
$ rha ask a at 1704067200 cover 11.0.0.1
E|0
$ rha ask a at 1704067200 cover 10.128.0.1 after 0 192.0.2.1 65001 10.0.0.0/8
R|0|192.0.2.1|65001|10.128.0.0/9|65001 65002|IGP|192.0.2.1|||NAG||
E|1
$ rha ask a at 1704067200 route 0 192.0.2.1 65001 10.255.0.0/9
R|0|192.0.2.1|65001|10.128.0.0/9|65001 65002|IGP|192.0.2.1|||NAG||
E|1
$ rha ask a at 1704067200 route 0 192.0.2.1 65001 10.0.0.0/9
E|0
$ rha ask a at 2024-01-01T00:00:00Z prefix 10.0.0.0/8 after 0 192.0.2.1 65001 10.0.0.0/8
E|0
",
    },
    Script {
        name: "256 rows are an end",
        made: PLAIN,
        shown: "$ rha load a --collector 0 --mark 1704067201 prefixes-256
B|0|1|1
F|1|1|0|0|0
S|1704067201
$ rha ask a at 1704067200 all
0..256 x R|0|192.0.2.1|65001|10.0.#.0/24|65001 65002|IGP|192.0.2.1|||NAG||
E|256
$ rha check a
ok|256|1704067201
",
    },
    Script {
        name: "257 rows are cut, and the last one says where to go on",
        made: PLAIN,
        shown: "$ rha load a --collector 0 --mark 1704067201 prefixes-257
B|0|1|1
F|1|1|0|0|0
S|1704067201
$ rha ask a at 1704067200 all
0..256 x R|0|192.0.2.1|65001|10.0.#.0/24|65001 65002|IGP|192.0.2.1|||NAG||
M|0|192.0.2.1|65001|10.0.255.0/24
$ rha ask a at 1704067200 all after 0 192.0.2.1 65001 10.0.255.0/24
R|0|192.0.2.1|65001|10.1.0.0/24|65001 65002|IGP|192.0.2.1|||NAG||
E|1
$ rha ask a at 1704067200 all after 0 192.0.2.1 65001 10.0.0.0/24
1..256 x R|0|192.0.2.1|65001|10.0.#.0/24|65001 65002|IGP|192.0.2.1|||NAG||
R|0|192.0.2.1|65001|10.1.0.0/24|65001 65002|IGP|192.0.2.1|||NAG||
E|256
$ rha ask a at 1704067200 peer 0 192.0.2.1 65001
0..256 x R|0|192.0.2.1|65001|10.0.#.0/24|65001 65002|IGP|192.0.2.1|||NAG||
M|0|192.0.2.1|65001|10.0.255.0/24
",
    },
    Script {
        name: "256 events are an end, and of more the last one says where to go on",
        made: PLAIN,
        shown: "$ rha load a --collector 0 --mark 1704067201 513*update
B|0|513|513
F|513|513|0|0|0
S|1704067201
$ rha ask a history 0 1704067200 0 192.0.2.1 65001 10.0.0.0/8
0..256 x A|1704067200|65001 65002|IGP|192.0.2.1|||NAG||
M|256
$ rha ask a history 0 1704067200 0 192.0.2.1 65001 10.0.0.0/8 skip 256
0..256 x A|1704067200|65001 65002|IGP|192.0.2.1|||NAG||
M|512
$ rha ask a history 0 1704067200 0 192.0.2.1 65001 10.0.0.0/8 skip 257
0..256 x A|1704067200|65001 65002|IGP|192.0.2.1|||NAG||
E|256
$ rha ask a history 0 1704067200 0 192.0.2.1 65001 10.0.0.0/8 skip 512
A|1704067200|65001 65002|IGP|192.0.2.1|||NAG||
E|1
$ rha check a
ok|513|1704067201
",
    },
    Script {
        name: "questions at the watermark, and lines that ask nothing, are refused",
        made: PLAIN,
        shown: "$ rha load a --collector 0 --mark 1704067201 update
B|0|1|1
F|1|1|0|0|0
S|1704067201
$ rha ask a at 1704067201 prefix 10.0.0.0/8
X|24|AboveWatermark|1704067201
status 1
$ rha ask a at 1704067201 all
X|24|AboveWatermark|1704067201
status 1
$ rha ask a history 0 1704067201 0 192.0.2.1 65001 10.0.0.0/8
X|24|AboveWatermark|1704067201
status 1
$ rha ask a changed 0 1704067201 10.0.0.0/8 10.0.0.0/8
X|24|AboveWatermark|1704067201
status 1
$ rha ask a changed 0 1704067200 10.0.0.0/8
X|28|BadRequest
status 1
$ rha ask a at 1704067200 route 0 192.0.2.1 65001
X|28|BadRequest
status 1
$ rha ask a durable 1
X|22|NoCollector
status 1
$ rha ask a durable 15
X|22|NoCollector
status 1
$ rha ask a durable 16
X|28|BadRequest
status 1
$ rha ask a quit
X|28|BadRequest
status 1
",
    },
];
