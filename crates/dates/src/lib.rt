//! Moments for people and for programs that read JSON: as dates, and as numbers of seconds.
//!
//! Both are made of a number of microseconds since 1970-01-01T00:00:00Z, so that a watermark has them too, which isn't a moment. Lines
//! of the archive are written by route_text and service, whose contracts say what they are.
#![tactic(auto)]

mod seconds;
mod utc;

pub use seconds::{Seconds, seconds_of};
pub use utc::Utc;
