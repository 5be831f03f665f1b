//! Scripts: command lines over one archive, and what the program has to show of each. The lines are from outside: they were worked out
//! by hand from the octets of the records.

pub(crate) mod changed;
pub(crate) mod damage;
pub(crate) mod failed;
pub(crate) mod full;
pub(crate) mod loads;
pub(crate) mod marks;
pub(crate) mod questions;
pub(crate) mod several;
pub(crate) mod table_dumps;
pub(crate) mod updates;
pub(crate) mod whole;

use crate::disks::Made;

/// Command lines over one archive, and what each of them shows.
pub(crate) struct Script {
    /// What it is an example of.
    pub(crate) name: &'static str,
    /// The archive, which has no record when the script begins.
    pub(crate) made: Made,
    /// The command lines after `$ `, the file of a `load` being the names of its records. After each its lines, then what standard error
    /// shows after `! `, then the status where it isn't 0. `1..4 x ROW` stands for three lines with 1, 2 and 3 for `#`, and in a line
    /// `<3 x ab>` for `ababab`. After `~ ` stands which octets of the disks become others: of a home page, of a block whose digest stays, or
    /// of one that gets the digest of what it is then (`sealed`). After `~ fails: ` stands which call of a disk fails in the next command
    /// line, as `sync 3`: its number among those of its kind, from 0, those of the opening too.
    pub(crate) shown: &'static str,
}

/// An archive of one collector.
pub(crate) const PLAIN: Made = Made {
    collectors: 1,
    ring: 16,
    pages: 64,
    blocks: 64,
};

/// An archive of one collector, with room for thousands of routes.
pub(crate) const WIDE: Made = Made {
    collectors: 1,
    ring: 16,
    pages: 512,
    blocks: 512,
};

/// An archive of one collector, whose ring is the smallest.
pub(crate) const SMALL_RING: Made = Made {
    collectors: 1,
    ring: 9,
    pages: 64,
    blocks: 64,
};

/// An archive of two collectors, whose rings are the smallest.
pub(crate) const OF_TWO: Made = Made {
    collectors: 2,
    ring: 9,
    pages: 64,
    blocks: 64,
};

/// An archive whose tree has the two pages that it begins with, and no more.
pub(crate) const FEW_PAGES: Made = Made {
    collectors: 1,
    ring: 9,
    pages: 12,
    blocks: 64,
};

/// An archive of two blocks.
pub(crate) const FEW_BLOCKS: Made = Made {
    collectors: 1,
    ring: 16,
    pages: 64,
    blocks: 2,
};
