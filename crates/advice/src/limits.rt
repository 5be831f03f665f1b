//! Advice for an archive that has no room left.

use std::fmt;

/// What is used up of an archive, or is too small for it, and how many there are.
#[derive(Clone, Copy, Debug, PartialEq, Eq)]
pub enum LimitAdvice {
    /// An archive that is made would have too few pages.
    FewPages {
        pages: u64,
        needed: u64,
    },
    /// Its files would be larger than the system lets a file be.
    LargeFiles,
    Pages(u64),
    Blocks(u64),
    /// The ring of a collector, one of `collectors`, in pages.
    Ring {
        collector: u8,
        collectors: u8,
        pages: u16,
    },
}

impl LimitAdvice {
    fn write_ring<W: fmt::Write>(
        f: &mut fmt::Formatter<W>,
        collector: u8,
        collectors: u8,
        pages: u16,
    ) -> fmt::Result {
        write!(
            f,
            "the ring of collector {collector} has {pages} pages, which wait to be applied: "
        )?;
        if collectors > 1 {
            f.write_str(
                "load the other collectors, or raise their marks, and go on with --resume; or ",
            )?;
        }
        f.write_str(
            "make an archive with a larger --ring, at most 65535, and load it anew (a table dump waits whole, 140 entries a page)",
        )
    }
}

impl fmt::Display for LimitAdvice {
    fn fmt<W: fmt::Write>(&self, f: &mut fmt::Formatter<W>) -> fmt::Result {
        match self {
            LimitAdvice::FewPages { pages, needed } => write!(
                f,
                "--pages {pages}: the rings need {needed}, and the tree one for each 25 routes besides",
            ),
            LimitAdvice::LargeFiles => {
                f.write_str(
                    "no file of this size is taken there: choose fewer --pages and --blocks",
                )
            }
            LimitAdvice::Pages(pages) => write!(
                f,
                "all {pages} pages are used: make an archive with more --pages (unused ones take no room), and load it anew",
            ),
            LimitAdvice::Blocks(blocks) => write!(
                f,
                "all {blocks} blocks are used: make an archive with more --blocks (unused ones take no room), and load it anew",
            ),
            LimitAdvice::Ring {
                collector,
                collectors,
                pages,
            } => LimitAdvice::write_ring(f, *collector, *collectors, *pages),
        }
    }
}
