//! Facts as lines for a person.

use crate::facts::{Facts, Lane, Use};
use dates::{Seconds, Utc};
use std::fmt;

/// So many microseconds since 1970 as a date, and as lines have them: `2024-01-01T00:15:00Z (1704068100)`.
#[derive(Clone, Copy, Debug, PartialEq, Eq)]
pub struct Date(pub u64);

impl fmt::Display for Date {
    fn fmt<W: fmt::Write>(&self, f: &mut fmt::Formatter<W>) -> fmt::Result {
        let Date(micros) = *self;
        write!(f, "{} ({})", Utc { micros }, Seconds { micros })
    }
}

impl fmt::Display for Use {
    fn fmt<W: fmt::Write>(&self, f: &mut fmt::Formatter<W>) -> fmt::Result {
        write!(f, "{} of {}", self.used, self.of)
    }
}

impl fmt::Display for Lane {
    fn fmt<W: fmt::Write>(&self, f: &mut fmt::Formatter<W>) -> fmt::Result {
        writeln!(f, "collector {}:", self.collector)?;
        writeln!(f, "  mark            {}", Date(self.mark.micros))?;
        writeln!(
            f,
            "  records         {} offered, {} admitted",
            self.offered, self.admitted
        )?;
        writeln!(f, "  ring            {} octets used", self.ring)
    }
}

impl fmt::Display for Facts {
    fn fmt<W: fmt::Write>(&self, f: &mut fmt::Formatter<W>) -> fmt::Result {
        writeln!(f, "version           {}", self.version)?;
        writeln!(f, "settled           {}", Date(self.settled.micros))?;
        writeln!(f, "applied           {} changes", self.changes)?;
        if let Some(first) = self.first {
            writeln!(f, "from              {}", Date(first.micros))?;
            writeln!(f, "to                {}", Date(self.last.micros))?;
        }
        writeln!(f, "pages             {} used", self.pages)?;
        writeln!(f, "blocks            {} used", self.blocks)?;
        writeln!(f, "slots             {} open", self.slots)?;
        for lane in &self.collectors {
            write!(f, "{lane}")?;
        }
        Ok(())
    }
}
