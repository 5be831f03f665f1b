//! What the line of a load shows.

use crate::rate::rate;
use std::fmt;
use std::fmt::{Display, Formatter};

/// How far a load has come.
#[derive(Clone, Copy, Debug, PartialEq, Eq)]
pub struct Counts {
    /// Octets read of the file.
    pub octets: u64,
    /// Records with changes that were offered to the archive.
    pub records: u64,
    /// Changes that are applied.
    pub applied: u64,
    /// Milliseconds since the load began.
    pub milliseconds: u64,
}

impl Display for Counts {
    fn fmt<W: fmt::Write>(&self, f: &mut Formatter<W>) -> fmt::Result {
        write!(
            f,
            "octets {}, records {}, changes applied {}, octets a second {}",
            self.octets,
            self.records,
            self.applied,
            rate(self.octets, self.milliseconds),
        )
    }
}
