//! Where it is kept why calls on disks fail.

use std::alloc::Global;

/// What knows why calls on an archive's disks fail.
pub trait Reasons {
    /// Which call failed first, and why, in words for a person: of what they are no clause speaks. None if none failed, if it isn't
    /// known, or if there is no memory for the words.
    fn text(&self, alloc: Global) -> Option<String>;
}

/// Nothing is known.
#[derive(Clone, Copy, Debug, Drop)]
pub struct NoReasons;

impl Reasons for NoReasons {
    fn text(&self, _alloc: Global) -> Option<String> {
        None
    }
}
