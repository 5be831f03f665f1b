//! Why nothing more is asked of a server.

use archive_calls::{AskError, Trouble};
use route_text::TextError;
use std::alloc::AllocError;
use std::io;
use thiserror::Error;

/// Why there is no reply to a line, in words for a person: the call, and the reason.
#[derive(Clone, Copy, Debug, Error)]
pub enum Lapse {
    #[error("write: {0}")]
    Unwritten(io::Error),
    #[error("read: {0}")]
    Unread(io::Error),
    /// The stream ended before the reply did.
    #[error("read: the connection was ended before the reply was complete")]
    Ended,
    #[error("read: a line is longer than 16384 octets")]
    TooLong,
    /// A line that doesn't answer what was asked.
    #[error("read: what came is no reply of an archive: is it the port of `rha serve --listen`?")]
    Unexpected,
    /// The server doesn't know the line that was written.
    #[error("read: the server doesn't know this question: it may be of an earlier version")]
    Unknown,
    #[error("out of memory")]
    OutOfMemory,
}

/// The trouble that a lapse is.
pub(crate) fn trouble_of(lapse: &Lapse) -> Trouble {
    match lapse {
        Lapse::OutOfMemory => Trouble::OutOfMemory,
        _ => Trouble::Fault,
    }
}

impl From<AllocError> for Lapse {
    fn from(_: AllocError) -> Lapse {
        Lapse::OutOfMemory
    }
}

impl From<TextError> for Lapse {
    fn from(why: TextError) -> Lapse {
        match why {
            TextError::BadText => Lapse::Unexpected,
            TextError::OutOfMemory => Lapse::OutOfMemory,
        }
    }
}

/// Why a line isn't answered.
#[derive(Clone, Copy, Debug)]
pub(crate) enum NoReply {
    /// The server refused to.
    Refused(AskError),
    /// There is no reply, and none to a further line.
    Lapsed(Lapse),
}

impl From<Lapse> for NoReply {
    fn from(lapse: Lapse) -> NoReply {
        NoReply::Lapsed(lapse)
    }
}
