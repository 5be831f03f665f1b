//! Numbers that look like chance.

/// Numbers that look like chance, each made of the one before (Knuth's MMIX).
#[derive(Drop)]
pub(crate) struct Chance {
    pub(crate) last: u64,
}

impl Chance {
    /// The next number, below an end of at least 1.
    pub(crate) fn below(&mut self, end: u8) -> u8 {
        self.last = self
            .last
            .wrapping_mul(6_364_136_223_846_793_005)
            .wrapping_add(1_442_695_040_888_963_407);
        ((self.last >> 33) % u64::from(end.max(1))) as u8
    }
}
