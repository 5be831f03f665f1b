//! Advice about files that a load didn't come to.

use std::fmt;

/// The files after the one at which a load ended.
#[derive(Clone, Copy, Debug)]
pub struct Unread<'a> {
    pub files: &'a [&'a str],
}

impl fmt::Display for Unread<'_> {
    fn fmt<W: fmt::Write>(&self, f: &mut fmt::Formatter<W>) -> fmt::Result {
        f.write_str("not read:")?;
        for file in self.files {
            write!(f, " {file}")?;
        }
        Ok(())
    }
}
