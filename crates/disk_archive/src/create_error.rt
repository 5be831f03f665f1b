//! Why no archive is created.

use thiserror::Error;

/// Why no archive is created.
#[derive(Clone, Copy, Debug, PartialEq, Eq, Error)]
pub enum CreateError {
    /// The erasable disk has too few pages for the head, all rings, and a tree of no version.
    #[error("the disk has too few pages")]
    PagesFull,
    /// A device failed.
    #[error("the device failed")]
    Fault,
    /// An allocation failed.
    #[error("out of memory")]
    OutOfMemory,
}
