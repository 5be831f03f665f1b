//! The reply to `watermark`.

use crate::exchange::Reply;
use route_model::{Mark, Moment};
use route_text::{TextError, read_mark};
use std::alloc::Global;

/// The settled watermark that came; the first of all before it did.
#[derive(Clone, Copy, Debug)]
pub(crate) struct SettledReply {
    pub(crate) settled: Mark,
}

impl SettledReply {
    /// Before the line.
    pub(crate) fn new() -> SettledReply {
        SettledReply {
            settled: Mark::at(Moment::from(0)),
        }
    }
}

impl Reply for SettledReply {
    fn take(&mut self, _alloc: Global, letter: &str, fields: &str) -> Result<bool, TextError> {
        if letter != "S" {
            return Err(TextError::BadText);
        }
        self.settled = read_mark(fields)?;
        Ok(true)
    }
}
