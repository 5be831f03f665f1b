//! The parts of a column's past, in blocks.

use crate::bounds::Bounds;
use crate::stamp::Stamp;

/// Which kind of block a part is in.
#[derive(Clone, Copy, Debug, PartialEq, Eq)]
pub enum PartKind {
    /// A leaf: it has the versions themselves.
    LeafBlock,
    /// A column: it has parts, in blocks of lower numbers.
    ColumnBlock,
}

/// A part of a column's past: the stamp where it starts, and its block. It ends where the next one starts.
#[derive(Clone, Copy, Debug)]
pub struct Part {
    pub start: Stamp,
    pub kind: PartKind,
    pub block: u64,
}

/// A place in the past: a part, and the keys and stamps for which it is looked into.
#[derive(Clone, Copy, Debug)]
pub struct Place {
    pub bounds: Bounds,
    pub part: Part,
}
