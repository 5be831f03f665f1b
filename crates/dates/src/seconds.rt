//! Times as numbers of seconds.

ghost use Rattle.std.specs.Prelude.{◌≡◌, option_map};

use route_model::Moment;
use serde::{Described, Serialize, Serializer};
use std::fmt;
use std::num::nearest_u64_to_f64;

/// So many microseconds since 1970 as a number of seconds: `1704067200`, or `1704067200.500000` where they aren't whole. In JSON it is
/// a number: 1704067200, or 1704067200.5.
#[derive(Clone, Copy, Debug, PartialEq, Eq)]
pub struct Seconds {
    pub micros: u64,
}

/// The same of a time that may be missing.
pub fn seconds_of(micros: Option<u64>) -> Option<Seconds>
    ensures seconds { result ≡ option_map (λ n. record { micros = n }) micros }
{
    match micros {
        Some(micros) => Some(Seconds { micros }),
        None => None,
    }
}

impl Seconds {
    fn whole(self) -> u64 {
        self.micros / Moment::SECOND
    }

    fn fraction(self) -> u64 {
        self.micros % Moment::SECOND
    }
}

impl fmt::Display for Seconds {
    fn fmt<W: fmt::Write>(&self, f: &mut fmt::Formatter<W>) -> fmt::Result {
        let (whole, fraction) = (self.whole(), self.fraction());
        if fraction == 0 {
            write!(f, "{whole}")
        } else {
            write!(f, "{whole}.{fraction:06}")
        }
    }
}

impl Described for Seconds {}

impl Serialize for Seconds {
    fn serialize<S: Serializer>(&self, out: &mut S) -> Result<(), S::Error> {
        if self.fraction() == 0 {
            self.whole().serialize(out)
        } else {
            // No two moments have the same number: those below 2^32 stand less than half a microsecond apart.
            (nearest_u64_to_f64(self.micros) / nearest_u64_to_f64(Moment::SECOND)).serialize(out)
        }
    }
}
