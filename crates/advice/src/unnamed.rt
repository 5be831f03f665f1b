//! Advice about files that hold no archive.

ghost use Rattle.std.specs.Prelude.{ℕ, ◌≡◌, ◌≢◌, ◌+◌, ◌<◌, ◌≤◌, None, Some};
ghost use Rattle.archive_facts.specs.declared.identity.Sizes.{Sizes};
ghost use Rattle.archive_facts.specs.declared.slots.TheConstants.{JOURNAL_PAGES};

use archive_facts::{JOURNAL_PAGES, Sizes};
use std::fmt;

/// How large the files of a folder are.
#[derive(Clone, Copy, Debug, PartialEq, Eq)]
pub struct Found {
    /// The pages of `pages.rha`.
    pub pages: u64,
    /// The blocks of `once.rha`, which are as many as the octets of `once.map`.
    pub blocks: u64,
}

/// Why the files of a folder hold no archive.
#[derive(Clone, Copy, Debug, PartialEq, Eq)]
pub enum NoArchive {
    /// There is no room for a journal.
    Short,
    /// The first page isn't that of an archive.
    Unnamed,
    /// There are fewer home pages than the archive was made with.
    Pages { found: u64, made: u64 },
    /// There are other blocks than the archive was made with.
    Blocks { found: u64, made: u64 },
    /// The first page says something else that no archive's says.
    Misnamed,
}

impl NoArchive {
    /// Why files of these sizes, whose first page says that the archive was made with those sizes, hold none.
    pub fn of(found: Found, made: Option<Sizes>) -> NoArchive
        ensures short { found.pages < JOURNAL_PAGES → result ≡ NoArchive.Short }
        ensures unnamed { JOURNAL_PAGES ≤ found.pages → made ≡ None → result ≡ NoArchive.Unnamed }
        ensures pages { (m : Sizes) → JOURNAL_PAGES ≤ found.pages → made ≡ Some m → found.pages < JOURNAL_PAGES + m.pages → (homes : ℕ) → found.pages ≡ JOURNAL_PAGES + homes → result ≡ NoArchive.Pages homes m.pages }
        ensures blocks { (m : Sizes) → made ≡ Some m → JOURNAL_PAGES + m.pages ≤ found.pages → found.blocks ≢ m.blocks → result ≡ NoArchive.Blocks found.blocks m.blocks }
        ensures misnamed { (m : Sizes) → made ≡ Some m → JOURNAL_PAGES + m.pages ≤ found.pages → found.blocks ≡ m.blocks → result ≡ NoArchive.Misnamed }
    {
        let Some(homes) = found.pages.checked_sub(JOURNAL_PAGES) else {
            return NoArchive::Short;
        };
        let Some(made) = made else {
            return NoArchive::Unnamed;
        };
        if homes < made.pages {
            return NoArchive::Pages {
                found: homes,
                made: made.pages,
            };
        }
        if found.blocks != made.blocks {
            return NoArchive::Blocks {
                found: found.blocks,
                made: made.blocks,
            };
        }
        NoArchive::Misnamed
    }
}

impl fmt::Display for NoArchive {
    fn fmt<W: fmt::Write>(&self, f: &mut fmt::Formatter<W>) -> fmt::Result {
        match self {
            NoArchive::Short => f.write_str("pages.rha: it is too short for an archive"),
            NoArchive::Unnamed => {
                f.write_str("pages.rha: its first page isn't that of an archive")
            }
            NoArchive::Pages { found, made } => write!(
                f,
                "pages.rha: it has room for {found} pages, and the archive was made with {made}"
            ),
            NoArchive::Blocks { found, made } => write!(
                f,
                "once.rha: it has {found} blocks, and the archive was made with {made}"
            ),
            NoArchive::Misnamed => {
                f.write_str("pages.rha: its first page isn't what an archive's can be")
            }
        }
    }
}
