//! Several files that are loaded by one command, and loads that are strict.

use crate::scripts::{PLAIN, Script};

pub(crate) const SEVERAL: [Script; 10] = [
    Script {
        name: "files are loaded in their order, and the mark is set after the last",
        made: PLAIN,
        shown: "$ rha load a --collector 0 --mark 1704067201 update nothing empty
B|0|1|1
F|1|1|0|0|0
S|1704067200
F|0|0|0|0|0
S|1704067200
B|1|2|2
F|1|1|0|0|0
S|1704067201
$ rha ask a durable 0
N|2
",
    },
    Script {
        name: "a file that is cut ends a load, and those after it aren't read",
        made: PLAIN,
        shown: "$ rha load a --collector 0 --mark 1704067201 update cut-update empty
B|0|1|1
F|1|1|0|0|0
S|1704067200
X|13|Truncated|0
F|0|0|0|0|0
S|1704067200
status 1
$ rha ask a durable 0
N|1
",
    },
    Script {
        name: "the peer table of a file isn't that of the next",
        made: PLAIN,
        shown: "$ rha load a --collector 0 peer-table rib peer-table+rib
F|1|0|0|0|0
S|0
X|17|NoPeerTable|0
F|1|0|0|1|0
S|0
B|0|1|1
F|2|1|0|0|0
S|1704067200
",
    },
    Script {
        name: "a load of several files that was broken off goes on",
        made: PLAIN,
        shown: "$ rha load a --collector 0 update empty+cut-update
B|0|1|1
F|1|1|0|0|0
S|1704067200
B|1|2|2
X|13|Truncated|1
F|1|1|0|0|0
S|1704067200
status 1
$ rha load a --collector 0 --resume --mark 1704067201 update empty+other-path
F|1|0|0|0|0
S|1704067200
B|2|3|3
F|2|1|0|0|0
S|1704067201
",
    },
    Script {
        name: "a mark that is set back ends a load of several files after their feeds",
        made: PLAIN,
        shown: "$ rha load a --collector 0 --mark 1704067199 update empty
B|0|1|1
F|1|1|0|0|0
S|1704067200
B|1|2|2
F|1|1|0|0|0
! rha: 21 MarkBack
status 1
",
    },
    Script {
        name: "a strict load ends at a file without a record",
        made: PLAIN,
        shown: "$ rha load a --collector 0 --strict --mark 1704067201 update nothing empty
B|0|1|1
F|1|1|0|0|0
S|1704067200
F|0|0|0|0|0
S|1704067200
status 1
$ rha load a --collector 0 --strict --mark 1704067201 empty
B|1|2|2
F|1|1|0|0|0
S|1704067201
",
    },
    Script {
        name: "a strict load ends at a file of which all is late",
        made: PLAIN,
        shown: "$ rha load a --collector 0 update
B|0|1|1
F|1|1|0|0|0
S|1704067200
$ rha load a --collector 0 --strict --mark 1704067201 earlier
B|1|1|2
L|0|1704067199|1704067200
F|1|0|1|0|0
S|1704067200
status 1
",
    },
    Script {
        name: "a strict load ends at a file of which much is refused",
        made: PLAIN,
        shown: "$ rha load a --collector 0 --strict --mark 1704067201 update+prefix-of-33-bits
X|15|Malformed|1
B|0|1|1
F|2|1|0|1|0
S|1704067200
status 1
$ rha load a --collector 0 --strict --mark 1704067201 99*update+prefix-of-33-bits
X|15|Malformed|99
B|1|100|100
F|100|99|0|1|0
S|1704067201
",
    },
    Script {
        name: "a strict load ends at a file of which all is skipped, unless it was kept before",
        made: PLAIN,
        shown: "$ rha load a --collector 0 --strict --mark 1704067201 update+skipped peer-table+skipped empty
B|0|1|1
F|2|1|0|0|1
S|1704067200
F|2|0|0|0|1
S|1704067200
status 1
$ rha load a --collector 0 --strict --resume --mark 1704067201 update+skipped empty
F|2|0|0|0|1
S|1704067200
B|1|2|2
F|1|1|0|0|0
S|1704067201
",
    },
    Script {
        name: "a strict load sets no mark that is more than a day after the last record",
        made: PLAIN,
        shown: "$ rha load a --collector 0 --strict --mark 1704153601 update
B|0|1|1
F|1|1|0|0|0
S|1704067200
status 1
$ rha load a --collector 0 --strict --mark 1704153600 empty
B|1|2|2
F|1|1|0|0|0
S|1704153600
",
    },
];
