//! A tree laid by hand: three levels of key nodes, three columns, and for the first of them a past in four blocks.
//!
//! Key 3 has 160 from time 1 and 170 from 150 on, and ends at 400; key 5 has 161 from 50 on, ends at 99, and has 187 from 300 on;
//! key 6 has 171 from 199 on. Key 8 has 1 from 10 on and ends at 50, key 14 has 2 from 20 on. Key 15 has 3 from 30 on, key 200
//! has 4 from 40 on.

use crate::laid::Laid;

/// The tree, whose root is page 1, of level 4.
pub(super) const LOOKED: Laid = Laid {
    root: 1,
    level: 4,
    pages: PAGES,
    blocks: BLOCKS,
};

/// The pages: after its number kind, level, count and size of the entries, bounds, and entries.
const PAGES: &str = "1: 3 1 4 0 0 2 0 96, K0 F40 S0.0 F16, K0 N2, K15 N3
2: 3 1 3 0 0 1 0 48, K0 K15 S0.0 F16, K0 N4
3: 3 1 3 0 0 1 0 48, K15 F40 S0.0 F16, K15 N5
4: 3 1 2 0 0 2 0 96, K0 K15 S0.0 F16, K0 N6, K8 N7
5: 3 1 2 0 0 1 0 48, K15 F40 S0.0 F16, K15 N8
6: 2 1 1 0 0 3 0 75, K0 K8 S0.0 F16, S0.0 1 N0, S100.0 2 N3, S200.5 0 N9
7: 2 1 1 0 0 1 0 25, K8 K15 S0.0 F16, S0.0 0 N10
8: 2 1 1 0 0 1 0 25, K15 F40 S0.0 F16, S0.0 0 N11
9: 1 1 0 0 0 4 0 239, K0 K8 S200.5 F16, K3 S150.0 1 0 1 170, K6 S199.0 1 0 1 171, K5 S300.0 1 0 1 187, K3 S400.0 0 0 0
10: 1 1 0 0 0 3 0 179, K8 K15 S0.0 F16, K8 S10.0 1 0 1 1, K14 S20.0 1 0 1 2, K8 S50.0 0 0 0
11: 1 1 0 0 0 2 0 120, K15 F40 S0.0 F16, K15 S30.0 1 0 1 3, K200 S40.0 1 0 1 4
";

/// The blocks, each of which gets its digest.
const BLOCKS: &str =
    "1: 1 1 0 0 0 3 0 179, K0 K8 S0.0 S100.0, K3 S1.0 1 0 1 160, K5 S50.0 1 0 1 161, K5 S99.0 0 0 0
1: 1 1 0 0 0 2 0 120, K0 K8 S100.0 S199.0, K3 S1.0 1 0 1 160, K3 S150.0 1 0 1 170
1: 1 1 0 0 0 2 0 120, K0 K8 S199.0 S200.5, K3 S150.0 1 0 1 170, K6 S199.0 1 0 1 171
1: 2 1 1 0 0 2 0 50, K0 K8 S100.0 S200.5, S100.0 1 N1, S199.0 1 N2
";
