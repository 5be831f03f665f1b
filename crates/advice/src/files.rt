//! Advice about a file that was loaded.

ghost use Rattle.std.specs.Prelude.{◌≡◌, ◌<◌, None, IfSome};

use crate::loaded::Loaded;
use crate::packed::Packing;
use crate::saying::advise;
use archive_facts::Date;
use route_model::Mark;
use service::{FeedCounts, Output, doubts_of};
use std::alloc::Global;
use std::fmt;
use std::io::Write;

/// What stands for standard input on the command line.
pub const STDIN: &str = "-";

/// Advice about a file that was loaded.
#[derive(Clone, Copy, Debug, PartialEq, Eq)]
pub enum FileAdvice<'a> {
    /// It isn't MRT but this.
    Packed {
        file: &'a str,
        packing: Packing,
    },
    /// It has no record.
    Empty {
        file: &'a str,
    },
    /// It ends inside a record.
    Cut {
        file: &'a str,
    },
    /// None of its records is kept, since they are older than the collector's mark.
    Late {
        file: &'a str,
        late: u64,
        records: u64,
        mark: Mark,
    },
    /// Some of its records aren't kept, since they are older than one before them or than the collector's mark.
    PartLate {
        file: &'a str,
        late: u64,
        records: u64,
    },
    /// Many of its records were refused. If entries without a next hop aren't left out, this may be of them.
    Refused {
        file: &'a str,
        refused: u64,
        records: u64,
        lose_entries: bool,
    },
    /// None of its records is kept, since some were skipped and no other one has a route.
    Skipped {
        file: &'a str,
        skipped: u64,
        records: u64,
    },
    /// Entries of its RIB records were left out.
    LeftOut {
        file: &'a str,
        count: u64,
    },
}

impl fmt::Display for FileAdvice<'_> {
    fn fmt<W: fmt::Write>(&self, f: &mut fmt::Formatter<W>) -> fmt::Result {
        match self {
            FileAdvice::Packed { file, packing } => match packing.command() {
                Some(command) if *file == STDIN => write!(
                    f,
                    "{file}: {packing} data: {command} > u.mrt && rha load .. u.mrt"
                ),
                Some(command) => write!(
                    f,
                    "{file}: {packing} data: {command} {file} > u.mrt && rha load .. u.mrt"
                ),
                None => write!(f, "{file}: text, and no MRT records"),
            },
            FileAdvice::Cut { file } => write!(
                f,
                "{file}: it ends inside a record, or goes on with what is none: fetch or expand it again; what came before is kept"
            ),
            FileAdvice::Empty { file } => write!(f, "{file}: there is no record in it"),
            FileAdvice::Late {
                file,
                late,
                records,
                mark,
            } => {
                let date = Date(mark.number());
                write!(
                    f,
                    "{file}: {late} of {records} records are late, and none is kept: they are older than the collector's mark {date}",
                )
            }
            FileAdvice::PartLate {
                file,
                late,
                records,
            } => write!(
                f,
                "{file}: {late} of {records} records are late, and not kept: they are older than records before them, or than the collector's mark, as the L lines say"
            ),
            FileAdvice::Refused {
                file,
                refused,
                records,
                lose_entries: true,
            } => write!(
                f,
                "{file}: {refused} of {records} records were refused, as the X lines say"
            ),
            FileAdvice::Refused {
                file,
                refused,
                records,
                lose_entries: false,
            } => write!(
                f,
                "{file}: {refused} of {records} records were refused, as the X lines say; if it is a table with entries that have no next hop, as BIRD writes them, --lose-entries loads the others of their records"
            ),
            FileAdvice::Skipped {
                file,
                skipped,
                records,
            } => write!(
                f,
                "{file}: {skipped} of {records} records were skipped, and none is kept: they are of types that aren't loaded, as TABLE_DUMP and those of ADD-PATH"
            ),
            FileAdvice::LeftOut { file, count: 1 } => write!(
                f,
                "{file}: 1 entry without a next hop is left out: this file gives its peer no route to that prefix"
            ),
            FileAdvice::LeftOut { file, count } => write!(
                f,
                "{file}: {count} entries without a next hop are left out: this file gives their peers no route to those prefixes"
            ),
        }
    }
}

/// The advice about late records of a file, exactly if there are such.
fn advice_if_late<'a>(
    file: &'a str,
    counts: &FeedCounts,
    mark: Option<Mark>,
) -> Option<FileAdvice<'a>>
    ensures some { IfSome result (λ words. 0 < counts.now.late) }
    ensures none { result ≡ None → counts.now.late ≡ 0 }
{
    let (late, records) = (counts.late, counts.records);
    if late == 0 {
        return None;
    }
    match mark {
        Some(mark) if counts.admitted == 0 => Some(FileAdvice::Late {
            file,
            late,
            records,
            mark,
        }),
        _ => Some(FileAdvice::PartLate {
            file,
            late,
            records,
        }),
    }
}

/// Prints that nothing of a file is kept, since records of it were skipped.
fn advise_skipped<E: Write>(alloc: Global, file: &str, counts: &FeedCounts, err: &mut Output<E>) {
    let (skipped, records) = (counts.skipped, counts.records);
    advise(
        alloc,
        &FileAdvice::Skipped {
            file,
            skipped,
            records,
        },
        err,
    );
}

/// Prints that many records of a file were refused.
fn advise_refused<E: Write>(
    alloc: Global,
    loaded: &Loaded<'_>,
    counts: &FeedCounts,
    err: &mut Output<E>,
) {
    let (refused, records) = (counts.refused, counts.records);
    advise(
        alloc,
        &FileAdvice::Refused {
            file: loaded.file,
            refused,
            records,
            lose_entries: loaded.lose_entries,
        },
        err,
    );
}

/// Prints what a person may not expect of a file whose feed has these counts: that it isn't MRT, or that nothing of it, or not all, was
/// taken.
pub fn advise_file<E: Write>(
    alloc: Global,
    loaded: &Loaded<'_>,
    counts: &FeedCounts,
    err: &mut Output<E>,
) {
    let file = loaded.file;
    if let (Some(packing), 0) = (loaded.packing, counts.admitted) {
        return advise(alloc, &FileAdvice::Packed { file, packing }, err);
    }
    let doubts = doubts_of(counts, loaded.report.dropped);
    if doubts.is_empty {
        advise(alloc, &FileAdvice::Empty { file }, err);
    }
    if let Some(words) = advice_if_late(file, counts, loaded.report.before) {
        advise(alloc, &words, err);
    }
    if doubts.is_skipped {
        advise_skipped(alloc, file, counts, err);
    }
    if doubts.is_refused {
        advise_refused(alloc, loaded, counts, err);
    }
}
