//! The slots of an archive's journal, as its file has them.

ghost use Rattle.std.specs.Prelude.{◌≡◌, ◌+◌, ◌*◌, ◌<◌};

/// How many slots the journal has.
pub const SLOTS: u64 = 8;

/// The octets of a page.
pub const PAGE: u64 = 16_384;

/// The pages of the journal, which stand before the home pages.
pub const JOURNAL_PAGES: u64 = 265;

/// The place of the head in `pages.rha`.
pub const HEAD_PLACE: u64 = PAGE * JOURNAL_PAGES;

/// How many pages a slot has. The first slot's gate, its commit flag, is on page 1.
const SLOT_PAGES: u64 = 33;

/// The first octet of an open slot's gate.
pub const OPEN_GATE: u8 = 0xa5;

/// The place in `pages.rha` of a slot's gate.
pub fn gate_place(slot: u64) -> u64
    requires { slot < 8 }
    ensures { result ≡ 16384 * (1 + 33 * slot) }
{
    PAGE * (1 + SLOT_PAGES * slot)
}
