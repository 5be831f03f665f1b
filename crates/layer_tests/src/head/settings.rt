//! Where the parts of an archive lie among its home pages, and which settings one may have.

use crate::{be, be_at};
use archive_head::Lane;
use archive_pages::Settings;
use intake::Ring;
use route_model::{Mark, Moment};

#[test]
fn the_head_is_followed_by_the_rings_and_the_tree(rt: HostRuntime) {
    let settings = Settings {
        collectors: 3,
        ring: 9,
    };
    let lows = [
        settings.ring_low(0),
        settings.ring_low(1),
        settings.ring_low(2),
    ];
    be(
        &rt,
        lows == [1, 10, 19] && settings.tree_low() == 28,
        "rings and the tree",
    );
    let lane = Lane {
        offered: 7,
        admitted: 6,
        mark: Mark::at(Moment::from(5u32)),
        first: 147_455,
        used: 71,
        since: 0,
    };
    let ring = Ring {
        low: 10,
        count: 9,
        first: 147_455,
        used: 71,
    };
    be(&rt, settings.ring(1, &lane) == ring, "the second ring");
}

/// Counts of collectors and of pages of a ring, and whether an archive may have them.
const SETTINGS: [(u8, u16, bool); 6] = [
    (1, 9, true),
    (16, 65_535, true),
    (0, 9, false),
    (17, 9, false),
    (1, 8, false),
    (1, 0, false),
];

#[test]
fn settings_outside_their_limits_are_none(rt: HostRuntime) {
    for (n, (collectors, ring, expected)) in SETTINGS.iter().enumerate() {
        let settings = Settings {
            collectors: *collectors,
            ring: *ring,
        };
        be_at(&rt, settings.is_within() == *expected, "settings", n as u64);
    }
}
