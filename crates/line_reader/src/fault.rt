//! Why no line is read.

use std::io;
use thiserror::Error;

/// Why no line is read. What was read stays.
#[derive(Debug, Drop, Error)]
pub enum LineError {
    /// The line has more than 4,096 octets with its end.
    #[error("the line is longer than 4096 octets")]
    TooLong,
    /// The reader failed.
    #[error("{0}")]
    Failed(io::Error),
}
