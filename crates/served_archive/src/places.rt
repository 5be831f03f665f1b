//! The places of a reply's rows or spots.

use crate::fields::read_spot;
use route_meaning::Spot;
use route_text::{BadText, read_number};

/// Whether the spot lies after another one, if there is such.
pub(crate) fn is_after(spot: &Spot, other: &Option<Spot>) -> bool {
    match other {
        Some(other) => *other < *spot,
        None => true,
    }
}

/// The places that came, each after the one before.
#[derive(Clone, Copy, Debug)]
pub(crate) struct Places {
    /// The last one; before the first the one after which was asked, if there is such.
    last: Option<Spot>,
    count: u64,
}

impl Places {
    /// Before the first place of a question of what lies after this one.
    pub(crate) fn after(spot: Option<Spot>) -> Places {
        Places {
            last: spot,
            count: 0,
        }
    }

    /// Takes the next place.
    pub(crate) fn take(&mut self, spot: &Spot) -> Result<(), BadText> {
        if !is_after(spot, &self.last) {
            return Err(BadText);
        }
        self.last = Some(*spot);
        self.count = self.count.saturating_add(1);
        Ok(())
    }

    /// Whether this many places came.
    fn has_count(&self, count: &str) -> Result<bool, BadText> {
        let count = read_number(count, u64::MAX)?;
        Ok(count == self.count)
    }

    /// Whether the last place that came is this one.
    fn has_last(&self, place: &str) -> Result<bool, BadText> {
        let spot = read_spot(place)?;
        match &self.last {
            Some(last) => Ok(self.count != 0 && *last == spot),
            None => Ok(false),
        }
    }

    /// Reads the end of the reply, `E|COUNT`, or `M` and the last place if more follow: whether they do.
    pub(crate) fn read_end(&self, letter: &str, fields: &str) -> Result<bool, BadText> {
        let (is_so, more) = match letter {
            "E" => (self.has_count(fields)?, false),
            "M" => (self.has_last(fields)?, true),
            _ => return Err(BadText),
        };
        if is_so { Ok(more) } else { Err(BadText) }
    }
}
