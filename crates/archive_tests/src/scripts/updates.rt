//! Updates and session changes of one peer, and the routes that they leave.

use crate::scripts::{PLAIN, SMALL_RING, Script};

pub(crate) const UPDATES: [Script; 24] = [
    Script {
        name: "an announcement is answered one second below the mark",
        made: PLAIN,
        shown: "$ rha load a --collector 0 --mark 1704067201 update
B|0|1|1
F|1|1|0|0|0
S|1704067201
$ rha ask a at 1704067200 prefix 10.0.0.0/8
R|0|192.0.2.1|65001|10.0.0.0/8|65001 65002|IGP|192.0.2.1|||NAG||
E|1
$ rha ask a at 1704067200 route 0 192.0.2.1 65001 10.0.0.0/8
R|0|192.0.2.1|65001|10.0.0.0/8|65001 65002|IGP|192.0.2.1|||NAG||
E|1
$ rha ask a at 1704067199 prefix 10.0.0.0/8
E|0
$ rha check a
ok|1|1704067201
",
    },
    Script {
        name: "an update without prefixes is admitted",
        made: PLAIN,
        shown: "$ rha load a --collector 0 empty
B|0|1|1
F|1|1|0|0|0
S|1704067200
$ rha ask a durable 0
N|1
$ rha check a
ok|0|1704067200
",
    },
    Script {
        name: "updates without prefixes are applied",
        made: PLAIN,
        shown: "$ rha load a --collector 0 --mark 1704067201 empty+empty+empty
B|0|3|3
F|3|3|0|0|0
S|1704067201
$ rha check a
ok|0|1704067201
",
    },
    Script {
        name: "a prefix is withdrawn and announced in one update",
        made: PLAIN,
        shown: "$ rha load a --collector 0 --mark 1704067201 both-places
B|0|1|1
F|1|1|0|0|0
S|1704067201
$ rha ask a at 1704067200 prefix 10.0.0.0/8
R|0|192.0.2.1|65001|10.0.0.0/8|65001 65002|IGP|192.0.2.1|||NAG||
E|1
$ rha ask a history 0 1704067200 0 192.0.2.1 65001 10.0.0.0/8
A|1704067200|65001 65002|IGP|192.0.2.1|||NAG||
E|1
$ rha check a
ok|1|1704067201
",
    },
    Script {
        name: "bits after the length of a prefix count as zero",
        made: PLAIN,
        shown: "$ rha load a --collector 0 --mark 1704067201 two-prefixes
B|0|1|1
F|1|1|0|0|0
S|1704067201
$ rha ask a at 1704067200 peer 0 192.0.2.1 65001
R|0|192.0.2.1|65001|10.0.0.0/8|65001 65002|IGP|192.0.2.1|||NAG||
R|0|192.0.2.1|65001|10.128.0.0/9|65001 65002|IGP|192.0.2.1|||NAG||
E|2
$ rha ask a at 1704067200 prefix 10.128.0.0/9
R|0|192.0.2.1|65001|10.128.0.0/9|65001 65002|IGP|192.0.2.1|||NAG||
E|1
",
    },
    Script {
        name: "a path of two-octet numbers is joined with one of four-octet numbers",
        made: PLAIN,
        shown: "$ rha load a --collector 0 --mark 1704067201 joined
B|0|1|1
F|1|1|0|0|0
S|1704067201
$ rha ask a at 1704067200 prefix 10.0.0.0/8
R|0|192.0.2.1|65001|10.0.0.0/8|65001 4200000001 65003|IGP|192.0.2.1|||NAG||
E|1
",
    },
    Script {
        name: "a path of four-octet numbers that is the longer one is ignored",
        made: PLAIN,
        shown: "$ rha load a --collector 0 --mark 1704067201 longer
B|0|1|1
F|1|1|0|0|0
S|1704067201
$ rha ask a at 1704067200 prefix 10.0.0.0/8
R|0|192.0.2.1|65001|10.0.0.0/8|65001 65002|IGP|192.0.2.1|||NAG||
E|1
",
    },
    Script {
        name: "paths are joined beside an aggregator of two octets",
        made: PLAIN,
        shown: "$ rha load a --collector 0 --mark 1704067201 aggregated
B|0|1|1
F|1|1|0|0|0
S|1704067201
$ rha ask a at 1704067200 prefix 10.0.0.0/8
R|0|192.0.2.1|65001|10.0.0.0/8|65001 4200000001 65003|IGP|192.0.2.1|||NAG|65001 192.0.2.1|
E|1
",
    },
    Script {
        name: "an IPv6 prefix is found by an address in it",
        made: PLAIN,
        shown: "$ rha load a --collector 0 --mark 1704067201 ipv6
B|0|1|1
F|1|1|0|0|0
S|1704067201
$ rha ask a at 1704067200 cover 2001:db8::5
R|0|192.0.2.1|65001|2001:db8::/32|65001 65002|IGP|2001:db8::1|||NAG||
E|1
$ rha ask a at 1704067200 cover 2001:DB8:0::5
R|0|192.0.2.1|65001|2001:db8::/32|65001 65002|IGP|2001:db8::1|||NAG||
E|1
$ rha ask a at 1704067200 cover 2001:db9::5
E|0
$ rha ask a at 1704067200 cover 2001:db8::5 after 0 192.0.2.1 65001 2001:db8::/32
E|0
",
    },
    Script {
        name: "an extended timestamp is a moment within its second",
        made: PLAIN,
        shown: "$ rha load a --collector 0 --mark 1704067201 extended
B|0|1|1
F|1|1|0|0|0
S|1704067201
$ rha ask a at 1704067200 prefix 10.0.0.0/8
E|0
$ rha ask a at 1704067200.499999 prefix 10.0.0.0/8
E|0
$ rha ask a at 1704067200.5 prefix 10.0.0.0/8
R|0|192.0.2.1|65001|10.0.0.0/8|65001 65002|IGP|192.0.2.1|||NAG||
E|1
$ rha ask a at 1704067200.500000 prefix 10.0.0.0/8
R|0|192.0.2.1|65001|10.0.0.0/8|65001 65002|IGP|192.0.2.1|||NAG||
E|1
$ rha ask a at 2024-01-01T00:00:00.5Z prefix 10.0.0.0/8
R|0|192.0.2.1|65001|10.0.0.0/8|65001 65002|IGP|192.0.2.1|||NAG||
E|1
$ rha ask a history 1704067200 1704067200.9 0 192.0.2.1 65001 10.0.0.0/8
A|1704067200.500000|65001 65002|IGP|192.0.2.1|||NAG||
E|1
$ rha ask a history 1704067200.500001 1704067200.9 0 192.0.2.1 65001 10.0.0.0/8
E|0
$ rha ask a history 1704067200 1704067200.499999 0 192.0.2.1 65001 10.0.0.0/8
E|0
",
    },
    Script {
        name: "a session ends a microsecond later",
        made: PLAIN,
        shown: "$ rha load a --collector 0 --mark 1704067201 extended+extended-down
B|0|2|2
F|2|2|0|0|0
S|1704067201
$ rha ask a history 1704067200 1704067200.9 0 192.0.2.1 65001 10.0.0.0/8
A|1704067200.500000|65001 65002|IGP|192.0.2.1|||NAG||
D|1704067200.500001
E|2
$ rha ask a at 1704067200.5 prefix 10.0.0.0/8
R|0|192.0.2.1|65001|10.0.0.0/8|65001 65002|IGP|192.0.2.1|||NAG||
E|1
$ rha ask a at 1704067200.500001 prefix 10.0.0.0/8
E|0
",
    },
    Script {
        name: "more microseconds than a second has count as the last one",
        made: PLAIN,
        shown: "$ rha load a --collector 0 --mark 1704067201 microsecond-999999+microsecond-1000000+microsecond-highest
B|0|3|3
F|3|3|0|0|0
S|1704067201
$ rha ask a at 1704067200.999998 prefix 10.0.0.0/8
E|0
$ rha ask a at 1704067200.999999 prefix 10.0.0.0/8
R|0|192.0.2.1|65001|10.0.0.0/8|65001 65002|IGP|192.0.2.1|||NAG||
E|1
$ rha ask a history 1704067200.999999 1704067200.999999 0 192.0.2.1 65001 10.0.0.0/8
0..3 x A|1704067200.999999|65001 65002|IGP|192.0.2.1|||NAG||
E|3
",
    },
    Script {
        name: "a record that is too short for its microseconds",
        made: PLAIN,
        shown: "$ rha load a --collector 0 microseconds-cut
X|15|Malformed|0
F|1|0|0|1|0
S|0
$ rha load a --collector 0 microseconds-missing
X|15|Malformed|0
F|1|0|0|1|0
S|0
",
    },
    Script {
        name: "the last microsecond of all",
        made: PLAIN,
        shown: "$ rha load a --collector 0 --mark 4294967296 last-of-all
B|0|1|1
F|1|1|0|0|0
S|4294967296
$ rha ask a at 4294967295.999998 prefix 10.0.0.0/8
E|0
$ rha ask a at 4294967295.999999 prefix 10.0.0.0/8
R|0|192.0.2.1|65001|10.0.0.0/8|65001 65002|IGP|192.0.2.1|||NAG||
E|1
",
    },
    Script {
        name: "the last moment of all",
        made: PLAIN,
        shown: "$ rha load a --collector 0 --mark 4294967296 last
B|0|1|1
F|1|1|0|0|0
S|4294967296
$ rha ask a at 4294967295 prefix 10.0.0.0/8
R|0|192.0.2.1|65001|10.0.0.0/8|65001 65002|IGP|192.0.2.1|||NAG||
E|1
$ rha ask a at 4294967295.999999 prefix 10.0.0.0/8
R|0|192.0.2.1|65001|10.0.0.0/8|65001 65002|IGP|192.0.2.1|||NAG||
E|1
$ rha ask a at 4294967294.999999 prefix 10.0.0.0/8
E|0
$ rha check a
ok|1|4294967296
",
    },
    Script {
        name: "a prefix of 33 bits loses its record alone",
        made: PLAIN,
        shown: "$ rha load a --collector 0 --mark 1704067201 prefix-of-33-bits
X|15|Malformed|0
F|1|0|0|1|0
S|1704067201
$ rha ask a at 1704067200 prefix 10.0.0.0/8
E|0
",
    },
    Script {
        name: "a path of 763 numbers makes the longest route",
        made: PLAIN,
        shown: "$ rha load a --collector 0 --mark 1704067201 path-of-763
B|0|1|1
F|1|1|0|0|0
S|1704067201
$ rha ask a at 1704067200 route 0 192.0.2.1 65001 10.0.0.0/8
R|0|192.0.2.1|65001|10.0.0.0/8|<762 x 65001 >65001|IGP|192.0.2.1|||NAG||
E|1
$ rha ask a history 0 1704067200 0 192.0.2.1 65001 10.0.0.0/8
A|1704067200|<762 x 65001 >65001|IGP|192.0.2.1|||NAG||
E|1
$ rha check a
ok|1|1704067201
",
    },
    // Its ring has 147,456 octets. An UPDATE takes 71 of them, one without prefixes 18, and this route 50 and its own: 3,069.
    Script {
        name: "the longest route has 3069 octets",
        made: SMALL_RING,
        shown: "$ rha load a --collector 0 path-of-763+2000*update
B|0|1000|1000
B|1000|2000|2000
B|2000|2001|2001
F|2001|2001|0|0|0
S|1704067200
$ rha load a --collector 0 2*update+122*empty
X|23|IntakeFull
S|1704067200
status 1
$ rha load a --collector 0 3*update+118*empty
B|2001|2122|2122
F|121|121|0|0|0
S|1704067200
",
    },
    Script {
        name: "a path of 764 numbers is too long",
        made: PLAIN,
        shown: "$ rha load a --collector 0 --mark 1704067201 path-of-764
X|16|RouteTooLarge|0
F|1|0|0|1|0
S|1704067201
$ rha check a
ok|0|1704067201
",
    },
    Script {
        name: "a notification ends the routes of its peer",
        made: PLAIN,
        shown: "$ rha load a --collector 0 --mark 1704067201 update+notification
B|0|2|2
F|2|2|0|0|0
S|1704067201
$ rha ask a at 1704067200 prefix 10.0.0.0/8
E|0
",
    },
    Script {
        name: "the end of a session ends the routes of its peer",
        made: PLAIN,
        shown: "$ rha load a --collector 0 --mark 1704067201 update+session-down
B|0|2|2
F|2|2|0|0|0
S|1704067201
$ rha ask a at 1704067200 prefix 10.0.0.0/8
E|0
",
    },
    Script {
        name: "the end of a session is one change, whatever it ends",
        made: PLAIN,
        shown: "$ rha load a --collector 0 --mark 1704067201 two-prefixes+session-down
B|0|2|2
F|2|2|0|0|0
S|1704067201
$ rha ask a at 1704067200 peer 0 192.0.2.1 65001
E|0
$ rha ask a history 0 1704067200 0 192.0.2.1 65001 10.128.0.0/9
A|1704067200|65001 65002|IGP|192.0.2.1|||NAG||
D|1704067200
E|2
$ rha check a
ok|3|1704067201
",
    },
    Script {
        name: "a session ends, and the next one has another path",
        made: PLAIN,
        shown: "$ rha load a --collector 0 --mark 1704067201 update+session-down+other-path
B|0|3|3
F|3|3|0|0|0
S|1704067201
$ rha ask a at 1704067200 prefix 10.0.0.0/8
R|0|192.0.2.1|65001|10.0.0.0/8|65001 65003|IGP|192.0.2.1|||NAG||
E|1
$ rha ask a history 1704067200 1704067200 0 192.0.2.1 65001 10.0.0.0/8
A|1704067200|65001 65002|IGP|192.0.2.1|||NAG||
D|1704067200
A|1704067200|65001 65003|IGP|192.0.2.1|||NAG||
E|3
$ rha ask a history 0 2024-01-01T00:00:00Z 0 192.0.2.1 65001 10.0.0.0/8 skip 0
A|1704067200|65001 65002|IGP|192.0.2.1|||NAG||
D|1704067200
A|1704067200|65001 65003|IGP|192.0.2.1|||NAG||
E|3
$ rha ask a history 0 1704067200 0 192.0.2.1 65001 10.0.0.0/8 skip 1
D|1704067200
A|1704067200|65001 65003|IGP|192.0.2.1|||NAG||
E|2
$ rha ask a history 0 1704067200 0 192.0.2.1 65001 10.0.0.0/8 skip 3
E|0
$ rha ask a history 0 1704067200 0 192.0.2.1 65001 10.0.0.0/8 skip 18446744073709551615
E|0
$ rha ask a history 0 1704067199 0 192.0.2.1 65001 10.0.0.0/8
E|0
$ rha ask a history 1704067200 1704067199 0 192.0.2.1 65001 10.0.0.0/8
E|0
$ rha ask a history 0 1704067200 0 192.0.2.1 65001 10.0.0.0/9
D|1704067200
E|1
$ rha ask a history 0 1704067200 0 192.0.2.1 65002 10.0.0.0/8
E|0
$ rha ask a watermark
S|1704067201
$ rha ask a durable 0
N|3
$ rha check a
ok|3|1704067201
",
    },
    Script {
        name: "a late record isn't counted, and a withdrawal is an event",
        made: PLAIN,
        shown: "$ rha load a --collector 0 --mark 1704067201 update+earlier+withdrawal
B|0|2|3
L|1|1704067199|1704067200
F|3|2|1|0|0
S|1704067201
$ rha ask a durable 0
N|2
$ rha ask a at 1704067200 prefix 10.0.0.0/8
E|0
$ rha ask a history 0 1704067200 0 192.0.2.1 65001 10.0.0.0/8
A|1704067200|65001 65002|IGP|192.0.2.1|||NAG||
W|1704067200
E|2
",
    },
];
