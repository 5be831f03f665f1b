//! Files that have to be expanded before they are loaded, by their first octets.

use std::fmt;

/// What a file is that isn't MRT.
#[derive(Clone, Copy, Debug, PartialEq, Eq)]
pub enum Packing {
    Gzip,
    Bzip2,
    Xz,
    Zstd,
    /// Lines, as other programs print routes.
    Text,
}

/// How many octets suffice to recognize it.
pub(crate) const FIRST: usize = 16;

/// The fewest octets that are looked at for a text.
const FEWEST: usize = 8;

const GZIP: [u8; 3] = [0x1f, 0x8b, 0x08];
/// What stands after the digit of the level: the first block, or the end of an empty stream.
const BZIP2_BLOCKS: [[u8; 2]; 2] = [[0x31, 0x41], [0x17, 0x72]];

const XZ: [u8; 6] = [0xfd, 0x37, 0x7a, 0x58, 0x5a, 0x00];

const ZSTD: [u8; 4] = [0x28, 0xb5, 0x2f, 0xfd];

impl Packing {
    /// Its name.
    fn name(self) -> &'static str {
        match self {
            Packing::Gzip => "gzip",
            Packing::Bzip2 => "bzip2",
            Packing::Xz => "xz",
            Packing::Zstd => "zstd",
            Packing::Text => "text",
        }
    }

    /// The command that expands it, if one does.
    pub(crate) fn command(self) -> Option<&'static str> {
        match self {
            Packing::Gzip => Some("zcat"),
            Packing::Bzip2 => Some("bzcat"),
            Packing::Xz => Some("xzcat"),
            Packing::Zstd => Some("zstdcat"),
            Packing::Text => None,
        }
    }
}

impl fmt::Display for Packing {
    fn fmt<W: fmt::Write>(&self, f: &mut fmt::Formatter<W>) -> fmt::Result {
        f.write_str(self.name())
    }
}

/// Whether the octet occurs in ASCII text.
fn is_of_text(octet: u8) -> bool {
    octet == b'\n' || octet == b'\r' || octet == b'\t' || (b' '..=b'~').contains(&octet)
}

/// Whether a file with these first octets is bzip2 data. A record of 2005 begins with the same three octets.
fn is_bzip2(first: &[u8]) -> bool {
    let [b'B', b'Z', b'h', b'1'..=b'9', beyond @ ..] = first else {
        return false;
    };
    BZIP2_BLOCKS.iter().any(|it| beyond.starts_with(it))
}

/// What a file with these first octets is, if it is none of MRT.
pub fn packing_of(first: &[u8]) -> Option<Packing> {
    if first.starts_with(&GZIP) {
        return Some(Packing::Gzip);
    }
    if is_bzip2(first) {
        return Some(Packing::Bzip2);
    }
    if first.starts_with(&XZ) {
        return Some(Packing::Xz);
    }
    if first.starts_with(&ZSTD) {
        return Some(Packing::Zstd);
    }
    // The type of a record that is read has an octet of zero.
    if first.len() >= FEWEST && first.iter().all(|it| is_of_text(*it)) {
        return Some(Packing::Text);
    }
    None
}
