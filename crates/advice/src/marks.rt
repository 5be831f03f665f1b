//! Advice about marks, and about texts of the command line.

use crate::saying::advise;
use archive_facts::Date;
use route_model::Mark;
use service::{CommandError, DAY, Output};
use std::alloc::Global;
use std::fmt;
use std::io::Write;

/// Advice about marks and collectors.
#[derive(Clone, Copy, Debug, PartialEq, Eq)]
pub enum MarkAdvice {
    /// A question has to be of a moment below this one.
    Settled(Mark),
    /// The collector's mark is this one already.
    Present {
        collector: u8,
        mark: Mark,
    },
    /// The archive has this many collectors.
    Collectors(u8),
    /// The mark lies more than a day after the collector's last record, or after the last mark that it got, `present` in microseconds. It is
    /// set, or it isn't because the load is strict.
    Far {
        mark: Mark,
        present: u64,
        is_held: bool,
    },
    /// The mark isn't set, because the load is strict.
    Held,
}

/// Writes how far a mark lies ahead, and what that means.
fn write_far<W: fmt::Write>(
    f: &mut fmt::Formatter<W>,
    mark: u64,
    present: u64,
    is_held: bool,
) -> fmt::Result {
    let (date, last) = (Date(mark), Date(present));
    let days = mark.saturating_sub(present) / DAY;
    let unit = if days == 1 { "day" } else { "days" };
    match present {
        0 => write!(f, "--mark: {date}, and the collector gave no record yet: ")?,
        _ => write!(
            f,
            "--mark: {date} is {days} {unit} after the collector's last record or mark, {last}: "
        )?,
    }
    f.write_str(if is_held {
        "it isn't set"
    } else {
        "it is set, and can't be set back; records of the time between come late from now on"
    })
}

impl fmt::Display for MarkAdvice {
    fn fmt<W: fmt::Write>(&self, f: &mut fmt::Formatter<W>) -> fmt::Result {
        match self {
            MarkAdvice::Settled(mark) if mark.number() == 0 => f.write_str(
                "no moment is settled yet: each collector has to give records, or get a mark",
            ),
            MarkAdvice::Settled(mark) => {
                let date = Date(mark.number());
                write!(f, "settled until {date}: ask of a moment below it")
            }
            MarkAdvice::Present { collector, mark } => {
                let date = Date(mark.number());
                write!(
                    f,
                    "the mark of collector {collector} is {date} already, and can't be set back"
                )
            }
            MarkAdvice::Far {
                mark,
                present,
                is_held,
            } => write_far(f, mark.number(), *present, *is_held),
            MarkAdvice::Held => f.write_str("--strict: the load ends here, and no mark is set"),
            MarkAdvice::Collectors(1) => f.write_str("the archive has one collector, 0"),
            MarkAdvice::Collectors(count) => {
                let last = count.saturating_sub(1);
                write!(f, "the archive has {count} collectors, 0 to {last}")
            }
        }
    }
}

/// What a text of the command line has to be.
#[derive(Clone, Copy, Debug, PartialEq, Eq)]
enum TextAdvice {
    Mark,
    Listen,
    Http,
    Connect,
}

impl fmt::Display for TextAdvice {
    fn fmt<W: fmt::Write>(&self, f: &mut fmt::Formatter<W>) -> fmt::Result {
        f.write_str(match self {
            TextAdvice::Mark =>
                "--mark: a mark is seconds since 1970, 0 to 4294967296, with a fraction of up to six digits or without, or a timestamp as 2024-01-01T00:15:00Z",
            TextAdvice::Listen =>
                "--listen: an IPv4 address, a colon and a port, 0 to 65535, as 127.0.0.1:17900",
            TextAdvice::Http =>
                "--http: an IPv4 address, a colon and a port, 0 to 65535, as 127.0.0.1:17980, and not those of --listen",
            TextAdvice::Connect =>
                "--connect: in the place of DIR an IPv4 address, a colon and a port, 0 to 65535, as 127.0.0.1:17900",
        })
    }
}

/// Prints what a text of the command line that was refused has to be.
pub fn advise_text<E: Write>(alloc: Global, error: &CommandError, err: &mut Output<E>) {
    match error {
        CommandError::BadMark => advise(alloc, &TextAdvice::Mark, err),
        CommandError::BadListen => advise(alloc, &TextAdvice::Listen, err),
        CommandError::BadHttp => advise(alloc, &TextAdvice::Http, err),
        CommandError::BadConnect => advise(alloc, &TextAdvice::Connect, err),
        CommandError::Usage(_) | CommandError::OutOfMemory => {}
    }
}
