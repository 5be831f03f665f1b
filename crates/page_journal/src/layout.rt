//! Where the parts of a journal are on its disk, and how large they are. Places are octets from 0 on.
//!
//! The disk's first page is its identity. It is followed by eight slots, each of a page for its gate (the commit flag),
//! one for its header and 31 for images, and then by the home pages. These are constants, so that code and definitions compute
//! to the same number.

/// The octets of a page of the disk.
pub const PAGE: u64 = 16_384;

/// How many slots there are.
pub const SLOTS: u64 = 8;

/// How many images a slot has room for.
pub const IMAGES: usize = 31;

/// The most octets of a slot's header: the transaction's number, the count of images, and the number of each one's page.
pub const HEADER_OCTETS: usize = 257;

/// The most pages that were posted and aren't home: those of all slots.
pub const UNHOMED: usize = 248;

/// How many pages of the disk a slot has.
pub const SLOT_PAGES: u64 = 33;

/// The page of the disk with the first slot's gate.
pub const GATE: u64 = 1;

/// The page with the first slot's header.
pub const HEADER: u64 = 2;

/// The page with the first slot's first image.
pub const IMAGE: u64 = 3;

/// The first home page.
pub const FIRST_HOME: u64 = 265;

/// The octet of an open gate.
pub const OPEN: u8 = 0xa5;

/// The octet of a closed gate, as it is written.
pub const CLOSED: u8 = 0;

/// No transaction of this number or a higher one closes the oldest slot. A journal that came to it would make a checkpoint, and begin with 1
/// again.
pub const MOST_NUMBER: u64 = 1 << 63;
