//! The paths of AS numbers that routes came by (RFC 4271 section 4.3, AS_PATH).

ghost use Rattle.std.specs.Prelude.{◌≡◌, ◌<◌, length};

use std::marker::Model;

/// The AS numbers of a segment: 1 to 255 of them.
#[derive(Debug, Drop)]
pub struct AsNumbers {
    items: Vec<u32>,
}

impl Model for AsNumbers {
    ghost use Rattle.std.specs.Prelude.{ℕ, List, ◌<◌, length};

    ghost Value = { List ℕ };

    ghost view = { λ a. a.items.items };

    ghost invariant = { λ a. (0 < length a.items.items) × (length a.items.items < 256) };
}

impl AsNumbers {
    /// These numbers, in the order of the path where they are a sequence.
    pub fn new(items: Vec<u32>) -> AsNumbers
        requires some { 0 < length items.items }
        requires few { length items.items < 256 }
        ensures numbers { result ≡ items.items }
    {
        AsNumbers { items }
    }

    /// The numbers in their order.
    pub fn as_slice(&self) -> &[u32]
        ensures items { result.now ≡ self.now }
        ensures count { (0 < length result.now) × (length result.now < 256) }
    {
        self.items.as_slice()
    }
}

/// A part of a path (RFC 4271 section 4.3): an AS_SET or an AS_SEQUENCE.
#[derive(Debug, Drop)]
pub enum Segment {
    Set(AsNumbers),
    Sequence(AsNumbers),
}

/// The segments of a path: at most 65,535.
#[derive(Debug, Drop)]
pub struct Path {
    segments: Vec<Segment>,
}

impl Model for Path {
    ghost use Rattle.std.specs.Prelude.{List, ◌<◌, length};
    ghost use Rattle.route_model.specs.declared.path.Segment.{Segment};

    ghost Value = { List Segment };

    ghost view = { λ a. a.segments.items };

    ghost invariant = { λ a. length a.segments.items < 65536 };
}

impl Path {
    /// A path of these segments.
    pub fn new(segments: Vec<Segment>) -> Path
        requires few { length segments.items < 65536 }
        ensures path { result ≡ segments.items }
    {
        Path { segments }
    }

    /// The segments in their order.
    pub fn as_slice(&self) -> &[Segment]
        ensures items { result.now ≡ self.now }
        ensures count { length result.now < 65536 }
    {
        self.segments.as_slice()
    }
}
