//! Peer tables and RIB records.

use crate::scripts::{PLAIN, SMALL_RING, Script, WIDE};

pub(crate) const TABLES: [Script; 16] = [
    Script {
        name: "a table is answered",
        made: PLAIN,
        shown: "$ rha load a --collector 0 --mark 1704067201 peer-table+rib
B|0|1|1
F|2|1|0|0|0
S|1704067201
$ rha ask a at 1704067200 prefix 10.0.0.0/8
R|0|192.0.2.1|65001|10.0.0.0/8|65001 65002|IGP|192.0.2.1|||NAG||
E|1
",
    },
    Script {
        name: "a RIB record without a peer table is refused",
        made: PLAIN,
        shown: "$ rha load a --collector 0 --mark 1704067201 rib
X|17|NoPeerTable|0
F|1|0|0|1|0
S|1704067201
$ rha ask a at 1704067200 prefix 10.0.0.0/8
E|0
",
    },
    Script {
        name: "a peer that isn't in the table is refused",
        made: PLAIN,
        shown: "$ rha load a --collector 0 --mark 1704067201 peer-table+rib-of-second
X|18|BadPeerIndex|1
F|2|0|0|1|0
S|1704067201
$ rha ask a at 1704067200 prefix 10.0.0.0/8
E|0
",
    },
    Script {
        name: "an IPv6 entry with a next hop in the short form",
        made: PLAIN,
        shown: "$ rha load a --collector 0 --mark 1704067201 peer-table+rib-ipv6
B|0|1|1
F|2|1|0|0|0
S|1704067201
$ rha ask a at 1704067200 prefix 2001:db8::/32
R|0|192.0.2.1|65001|2001:db8::/32|65001 65002|IGP|2001:db8::1|||NAG||
E|1
",
    },
    Script {
        name: "an IPv6 entry with a next hop in the full form",
        made: PLAIN,
        shown: "$ rha load a --collector 0 --mark 1704067201 peer-table+rib-ipv6-full
B|0|1|1
F|2|1|0|0|0
S|1704067201
$ rha ask a at 1704067200 prefix 2001:db8::/32
R|0|192.0.2.1|65001|2001:db8::/32|65001 65002|IGP|2001:db8::1|||NAG||
E|1
",
    },
    Script {
        name: "after a peer table that is cut there is none",
        made: PLAIN,
        shown: "$ rha load a --collector 0 --mark 1704067201 cut-peer-table+rib-ipv6
X|15|Malformed|0
X|17|NoPeerTable|1
F|2|0|0|2|0
S|1704067201
$ rha ask a at 1704067200 prefix 2001:db8::/32
E|0
",
    },
    Script {
        name: "a peer table that is cut takes the place of the one before",
        made: PLAIN,
        shown: "$ rha load a --collector 0 --mark 1704067201 peer-table+rib+cut-peer-table+rib
X|15|Malformed|2
X|17|NoPeerTable|3
B|0|1|1
F|4|1|0|2|0
S|1704067201
$ rha ask a history 0 1704067200 0 192.0.2.1 65001 10.0.0.0/8
A|1704067200|65001 65002|IGP|192.0.2.1|||NAG||
E|1
",
    },
    Script {
        name: "an entry without an origin",
        made: PLAIN,
        shown: "$ rha load a --collector 0 --mark 1704067201 peer-table+rib-without-origin
B|0|1|1
F|2|1|0|0|0
S|1704067201
$ rha ask a at 1704067200 prefix 10.0.0.0/8
R|0|192.0.2.1|65001|10.0.0.0/8|65001 65002|INCOMPLETE|192.0.2.1|||NAG||
E|1
",
    },
    Script {
        name: "an entry of a next hop alone",
        made: PLAIN,
        shown: "$ rha load a --collector 0 --mark 1704067201 peer-table+rib-of-next-hop
B|0|1|1
F|2|1|0|0|0
S|1704067201
$ rha ask a at 1704067200 prefix 10.0.0.0/8
R|0|192.0.2.1|65001|10.0.0.0/8|-|INCOMPLETE|192.0.2.1|||NAG||
E|1
",
    },
    Script {
        name: "an entry without a next hop refuses its record",
        made: PLAIN,
        shown: "$ rha load a --collector 0 --mark 1704067201 peer-table+rib-of-three+rib-without-hop
X|15|Malformed|1
X|15|Malformed|2
F|3|0|0|2|0
S|1704067201
$ rha ask a at 1704067200 prefix 10.0.0.0/8
E|0
",
    },
    Script {
        name: "entries without a next hop are lost where that is asked",
        made: PLAIN,
        shown: "$ rha load a --collector 0 --lose-entries --mark 1704067201 peer-table+rib-of-three+rib-without-hop
B|0|1|1
F|3|1|0|0|0
S|1704067201
$ rha ask a at 1704067200 prefix 10.0.0.0/8
R|0|192.0.2.1|65001|10.0.0.0/8|65001 65002|IGP|192.0.2.1|||NAG||
E|1
",
    },
    Script {
        name: "counts of 65535 before one peer and one entry are refused",
        made: PLAIN,
        shown: "$ rha load a --collector 0 --mark 1704067201 peers-uncounted
X|15|Malformed|0
F|1|0|0|1|0
S|1704067201
$ rha load a --collector 0 --mark 1704067201 other-peer-table+entries-uncounted
X|15|Malformed|1
F|2|0|0|1|0
S|1704067201
",
    },
    Script {
        name: "4368 entries are one admission",
        made: WIDE,
        shown: "$ rha load a --collector 0 --mark 1704067201 peers-4368+entries-4368
B|0|1|1
F|2|1|0|0|0
S|1704067201
$ rha ask a at 1704067200 prefix 10.0.0.0/8
0..256 x R|0|10.0.0.#|65001|10.0.0.0/8|-|IGP|192.0.2.1|||NAG||
M|0|10.0.0.255|65001|10.0.0.0/8
$ rha ask a at 1704067200 prefix 10.0.0.0/8 after 0 10.0.0.255 65001 10.0.0.0/8
0..256 x R|0|10.0.1.#|65001|10.0.0.0/8|-|IGP|192.0.2.1|||NAG||
M|0|10.0.1.255|65001|10.0.0.0/8
$ rha ask a at 1704067200 prefix 10.0.0.0/8 after 0 10.0.1.255 65001 10.0.0.0/8
0..256 x R|0|10.0.2.#|65001|10.0.0.0/8|-|IGP|192.0.2.1|||NAG||
M|0|10.0.2.255|65001|10.0.0.0/8
$ rha ask a at 1704067200 prefix 10.0.0.0/8 after 0 10.0.2.255 65001 10.0.0.0/8
0..256 x R|0|10.0.3.#|65001|10.0.0.0/8|-|IGP|192.0.2.1|||NAG||
M|0|10.0.3.255|65001|10.0.0.0/8
$ rha ask a at 1704067200 prefix 10.0.0.0/8 after 0 10.0.3.255 65001 10.0.0.0/8
0..256 x R|0|10.0.4.#|65001|10.0.0.0/8|-|IGP|192.0.2.1|||NAG||
M|0|10.0.4.255|65001|10.0.0.0/8
$ rha ask a at 1704067200 prefix 10.0.0.0/8 after 0 10.0.4.255 65001 10.0.0.0/8
0..256 x R|0|10.0.5.#|65001|10.0.0.0/8|-|IGP|192.0.2.1|||NAG||
M|0|10.0.5.255|65001|10.0.0.0/8
$ rha ask a at 1704067200 prefix 10.0.0.0/8 after 0 10.0.5.255 65001 10.0.0.0/8
0..256 x R|0|10.0.6.#|65001|10.0.0.0/8|-|IGP|192.0.2.1|||NAG||
M|0|10.0.6.255|65001|10.0.0.0/8
$ rha ask a at 1704067200 prefix 10.0.0.0/8 after 0 10.0.6.255 65001 10.0.0.0/8
0..256 x R|0|10.0.7.#|65001|10.0.0.0/8|-|IGP|192.0.2.1|||NAG||
M|0|10.0.7.255|65001|10.0.0.0/8
$ rha ask a at 1704067200 prefix 10.0.0.0/8 after 0 10.0.7.255 65001 10.0.0.0/8
0..256 x R|0|10.0.8.#|65001|10.0.0.0/8|-|IGP|192.0.2.1|||NAG||
M|0|10.0.8.255|65001|10.0.0.0/8
$ rha ask a at 1704067200 prefix 10.0.0.0/8 after 0 10.0.8.255 65001 10.0.0.0/8
0..256 x R|0|10.0.9.#|65001|10.0.0.0/8|-|IGP|192.0.2.1|||NAG||
M|0|10.0.9.255|65001|10.0.0.0/8
$ rha ask a at 1704067200 prefix 10.0.0.0/8 after 0 10.0.9.255 65001 10.0.0.0/8
0..256 x R|0|10.0.10.#|65001|10.0.0.0/8|-|IGP|192.0.2.1|||NAG||
M|0|10.0.10.255|65001|10.0.0.0/8
$ rha ask a at 1704067200 prefix 10.0.0.0/8 after 0 10.0.10.255 65001 10.0.0.0/8
0..256 x R|0|10.0.11.#|65001|10.0.0.0/8|-|IGP|192.0.2.1|||NAG||
M|0|10.0.11.255|65001|10.0.0.0/8
$ rha ask a at 1704067200 prefix 10.0.0.0/8 after 0 10.0.11.255 65001 10.0.0.0/8
0..256 x R|0|10.0.12.#|65001|10.0.0.0/8|-|IGP|192.0.2.1|||NAG||
M|0|10.0.12.255|65001|10.0.0.0/8
$ rha ask a at 1704067200 prefix 10.0.0.0/8 after 0 10.0.12.255 65001 10.0.0.0/8
0..256 x R|0|10.0.13.#|65001|10.0.0.0/8|-|IGP|192.0.2.1|||NAG||
M|0|10.0.13.255|65001|10.0.0.0/8
$ rha ask a at 1704067200 prefix 10.0.0.0/8 after 0 10.0.13.255 65001 10.0.0.0/8
0..256 x R|0|10.0.14.#|65001|10.0.0.0/8|-|IGP|192.0.2.1|||NAG||
M|0|10.0.14.255|65001|10.0.0.0/8
$ rha ask a at 1704067200 prefix 10.0.0.0/8 after 0 10.0.14.255 65001 10.0.0.0/8
0..256 x R|0|10.0.15.#|65001|10.0.0.0/8|-|IGP|192.0.2.1|||NAG||
M|0|10.0.15.255|65001|10.0.0.0/8
$ rha ask a at 1704067200 prefix 10.0.0.0/8 after 0 10.0.15.255 65001 10.0.0.0/8
0..256 x R|0|10.0.16.#|65001|10.0.0.0/8|-|IGP|192.0.2.1|||NAG||
M|0|10.0.16.255|65001|10.0.0.0/8
$ rha ask a at 1704067200 prefix 10.0.0.0/8 after 0 10.0.16.255 65001 10.0.0.0/8
0..16 x R|0|10.0.17.#|65001|10.0.0.0/8|-|IGP|192.0.2.1|||NAG||
E|16
$ rha check a
ok|4368|1704067201
",
    },
    // Its ring has 147,456 octets: 4 and this admission's 131,067, and 16,385 of UPDATEs, each of which takes 71, or 18 without prefixes.
    Script {
        name: "4368 entries make an admission of 131067 octets",
        made: SMALL_RING,
        shown: "$ rha load a --collector 0 peers-4368+entries-4368
B|0|1|1
F|2|1|0|0|0
S|1704067200
$ rha load a --collector 0 210*update+82*empty
X|23|IntakeFull
S|1704067200
status 1
$ rha load a --collector 0 211*update+78*empty
B|1|290|290
F|289|289|0|0|0
S|1704067200
",
    },
    Script {
        name: "4369 entries are too many",
        made: WIDE,
        shown: "$ rha load a --collector 0 --mark 1704067201 peers-4369+entries-4369
X|19|AdmissionTooLarge|1
F|2|0|0|1|0
S|1704067201
$ rha ask a at 1704067200 prefix 10.0.0.0/8
E|0
",
    },
    Script {
        name: "a refused record is lost alone",
        made: PLAIN,
        shown: "$ rha load a --collector 0 --mark 1704067201 prefix-of-33-bits+skipped+rib+update
X|15|Malformed|0
X|17|NoPeerTable|2
B|0|1|1
F|4|1|0|2|1
S|1704067201
$ rha ask a at 1704067200 prefix 10.0.0.0/8
R|0|192.0.2.1|65001|10.0.0.0/8|65001 65002|IGP|192.0.2.1|||NAG||
E|1
",
    },
];
