//! What an archive is made with, and where its parts lie among the home pages.

ghost use Rattle.std.specs.Prelude.{◌≡◌, ◌↔◌, ◌<◌, IsTrue};
ghost use Rattle.archive_pages.specs.Places.{AreSettings, ring_low, ring_of, tree_low};

use archive_head::Lane;
use intake::Ring;

/// What an archive is made with. It stays so for good.
#[derive(Clone, Copy, Debug, PartialEq, Eq)]
pub struct Settings {
    /// How many collectors it has, 1 to 16.
    pub collectors: u8,
    /// How many home pages the ring of each collector has, 9 to 65,535.
    pub ring: u16,
}

impl Settings {
    /// Whether an archive can be made with them.
    pub fn is_within(&self) -> bool
        ensures { IsTrue result ↔ AreSettings self.now }
    {
        1 <= self.collectors && self.collectors <= 16 && 9 <= self.ring
    }

    /// The first home page of a collector's ring.
    pub fn ring_low(&self, collector: u8) -> u64
        ensures { result ≡ ring_low self.now collector }
    {
        1 + u64::from(collector) * u64::from(self.ring)
    }

    /// The first home page of the tree.
    pub fn tree_low(&self) -> u64
        ensures { result ≡ tree_low self.now }
    {
        self.ring_low(self.collectors)
    }

    /// A collector's ring, of which the head keeps this.
    pub fn ring(&self, collector: u8, lane: &Lane) -> Ring
        ensures { result ≡ ring_of self.now collector lane.now }
    {
        Ring {
            low: self.ring_low(collector),
            count: u64::from(self.ring),
            first: lane.first,
            used: lane.used,
        }
    }
}
