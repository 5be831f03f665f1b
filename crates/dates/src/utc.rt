//! Times as dates.

use crate::seconds::Seconds;
use jiff::Timestamp;
use std::fmt;

/// So many microseconds since 1970 as a date (RFC 3339, UTC): `2024-01-01T00:15:00Z`, or `2024-01-01T00:15:00.5Z` where the second isn't
/// whole. What is after all dates is written as a number of seconds.
#[derive(Clone, Copy, Debug, PartialEq, Eq)]
pub struct Utc {
    pub micros: u64,
}

impl fmt::Display for Utc {
    fn fmt<W: fmt::Write>(&self, f: &mut fmt::Formatter<W>) -> fmt::Result {
        let Utc { micros } = *self;
        let date = i64::try_from(micros).ok().map(Timestamp::from_microsecond);
        match date {
            Some(Ok(date)) => write!(f, "{date}"),
            _ => write!(f, "{}", Seconds { micros }),
        }
    }
}
