//! How large an archive was made.

ghost use Rattle.std.specs.Prelude.{◌≡◌, IfSome};
ghost use Rattle.route_model.specs.Octets.{number_at};

use route_model::octets::{u16_at, u64_at};

/// How large an archive was made.
#[derive(Clone, Copy, Debug, PartialEq, Eq)]
pub struct Sizes {
    /// The home pages.
    pub pages: u64,
    pub blocks: u64,
    pub collectors: u8,
    /// The pages of each collector's ring.
    pub ring: u16,
}

/// How many octets at the front of `pages.rha` say it.
pub const SIZES_LEN: usize = 27;

impl Sizes {
    /// What the first octets of an archive's pages say (docs/FORMATS.md): its home pages, blocks, collectors and ring.
    pub fn read(octets: &[u8; SIZES_LEN]) -> Option<Sizes>
        ensures pages { IfSome result (λ sizes. sizes.pages ≡ number_at 8 8 octets.now) }
        ensures blocks { IfSome result (λ sizes. sizes.blocks ≡ number_at 8 16 octets.now) }
        ensures ring { IfSome result (λ sizes. sizes.ring ≡ number_at 2 25 octets.now) }
    {
        if !octets.starts_with(b"RHAPAGE1") {
            return None;
        }
        Some(Sizes {
            pages: u64_at(octets, 8),
            blocks: u64_at(octets, 16),
            collectors: octets[24],
            ring: u16_at(octets, 25),
        })
    }
}
