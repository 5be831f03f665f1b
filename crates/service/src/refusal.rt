//! Refusals, by number and name.

ghost use Rattle.std.specs.Prelude.{◌≡◌, ◌++◌, [], IfSome, IfNone, codes, decimal};
ghost use Rattle.service.specs.Outputs.{Reports};
ghost use Rattle.service.specs.Refusals.{number_of, name_of, refusal_head, refusal_line, reported_of, refused_record_line, error_head, error_line, reason_line};

use crate::output::Output;
use route_model::Mark;
use std::io::Write;
use thiserror::Error;

/// Why something was refused. Each refusal has a number and a name, which its line shows.
#[derive(Clone, Copy, Debug, Error, PartialEq, Eq)]
pub enum Refusal {
    /// A device failed.
    #[error("a device failed")]
    Fault,
    /// The disks have no archive.
    #[error("there is no archive")]
    NotAJournal,
    /// An earlier write or sync failed, and the archive wasn't opened again since.
    #[error("the archive must be opened again")]
    NeedsRecovery,
    /// No page is left.
    #[error("no page is left")]
    PagesFull,
    /// No blank block is left.
    #[error("no block is left")]
    OnceFull,
    /// The block of this number isn't valid there.
    #[error("block {0} is damaged")]
    Damaged(u64),
    /// The page of this number isn't valid there.
    #[error("page {0} is damaged")]
    BadNode(u64),
    /// The tree would need a seventh level of key nodes.
    #[error("the tree is too high")]
    TooHigh,
    /// An argument of the command line isn't valid.
    #[error("an argument isn't a text of the kind that was asked for")]
    BadText,
    /// The feed ended inside a record.
    #[error("the feed ended inside a record")]
    Truncated,
    /// The Length of a record is above 131,072.
    #[error("the length of a record is above 131072")]
    TooLong,
    /// The record is malformed.
    #[error("the record is malformed")]
    Malformed,
    /// An announced route has an encoding of more than 3,072 octets.
    #[error("a route has more than 3072 octets")]
    RouteTooLarge,
    /// A RIB record came, and the feed has no peer table.
    #[error("there is no peer table")]
    NoPeerTable,
    /// An entry names a peer that the peer table doesn't have.
    #[error("an entry names no peer of the peer table")]
    BadPeerIndex,
    /// The admission has an encoding of more than 131,072 octets.
    #[error("the admission has more than 131072 octets")]
    AdmissionTooLarge,
    /// The new mark is below the collector's mark.
    #[error("the mark is below the collector's mark")]
    MarkBack,
    /// There is no collector of this number.
    #[error("no such collector")]
    NoCollector,
    /// The collector's ring has too few free octets.
    #[error("the intake is full")]
    IntakeFull,
    /// The question's moment isn't below the settled watermark, which this is.
    #[error("the moment isn't below the settled watermark")]
    AboveWatermark(Mark),
    /// The batch has more than 262,144 octets.
    #[error("the batch has more than 262144 octets")]
    BatchTooLarge,
    /// A count would pass 18446744073709551615.
    #[error("a count is full")]
    CounterFull,
    /// An allocation failed.
    #[error("out of memory")]
    OutOfMemory,
    /// The line is no request.
    #[error("the line is no request")]
    BadRequest,
    /// A file, address or socket of the program itself failed.
    #[error("a file, address or socket failed")]
    Outside,
}

impl Refusal {
    /// Its number, 1 to 29.
    pub fn number(&self) -> u8
        ensures number { result ≡ number_of self.now }
    {
        match self {
            Refusal::Fault => 1,
            Refusal::NotAJournal => 4,
            Refusal::NeedsRecovery => 5,
            Refusal::PagesFull => 6,
            Refusal::OnceFull => 7,
            Refusal::Damaged(_) => 8,
            Refusal::BadNode(_) => 9,
            Refusal::TooHigh => 11,
            Refusal::BadText => 12,
            Refusal::Truncated => 13,
            Refusal::TooLong => 14,
            Refusal::Malformed => 15,
            Refusal::RouteTooLarge => 16,
            Refusal::NoPeerTable => 17,
            Refusal::BadPeerIndex => 18,
            Refusal::AdmissionTooLarge => 19,
            Refusal::MarkBack => 21,
            Refusal::NoCollector => 22,
            Refusal::IntakeFull => 23,
            Refusal::AboveWatermark(_) => 24,
            Refusal::BatchTooLarge => 25,
            Refusal::CounterFull => 26,
            Refusal::OutOfMemory => 27,
            Refusal::BadRequest => 28,
            Refusal::Outside => 29,
        }
    }

    /// Its name.
    pub fn name(&self) -> &'static str
        ensures name { result.now ≡ name_of self.now }
    {
        match self {
            Refusal::Fault => "Fault",
            Refusal::NotAJournal => "NotAJournal",
            Refusal::NeedsRecovery => "NeedsRecovery",
            Refusal::PagesFull => "PagesFull",
            Refusal::OnceFull => "OnceFull",
            Refusal::Damaged(_) => "Damaged",
            Refusal::BadNode(_) => "BadNode",
            Refusal::TooHigh => "TooHigh",
            Refusal::BadText => "BadText",
            Refusal::Truncated => "Truncated",
            Refusal::TooLong => "TooLong",
            Refusal::Malformed => "Malformed",
            Refusal::RouteTooLarge => "RouteTooLarge",
            Refusal::NoPeerTable => "NoPeerTable",
            Refusal::BadPeerIndex => "BadPeerIndex",
            Refusal::AdmissionTooLarge => "AdmissionTooLarge",
            Refusal::MarkBack => "MarkBack",
            Refusal::NoCollector => "NoCollector",
            Refusal::IntakeFull => "IntakeFull",
            Refusal::AboveWatermark(_) => "AboveWatermark",
            Refusal::BatchTooLarge => "BatchTooLarge",
            Refusal::CounterFull => "CounterFull",
            Refusal::OutOfMemory => "OutOfMemory",
            Refusal::BadRequest => "BadRequest",
            Refusal::Outside => "Outside",
        }
    }
}

/// Writes `X`, the number and the name.
fn write_head<W: Write>(out: &mut Output<W>, refusal: &Refusal)
    ensures head { Reports out.old out.new (refusal_head refusal.now) }
{
    out.text("X|");
    out.number(u64::from(refusal.number()));
    out.text("|");
    out.text(refusal.name());
}

/// Writes what the line of a refusal has after its name.
fn write_reported<W: Write>(out: &mut Output<W>, refusal: &Refusal)
    ensures reported { Reports out.old out.new (reported_of refusal.now) }
{
    match refusal {
        Refusal::AboveWatermark(settled) => {
            out.text("|");
            out.moment(settled.number());
        }
        Refusal::Damaged(number) | Refusal::BadNode(number) => {
            out.text("|");
            out.number(*number);
        }
        _ => {}
    }
}

/// Writes the line of a refusal: `X|NUMBER|NAME`, and after `AboveWatermark` a bar and the watermark, after
/// `Damaged` and `BadNode` a bar and the number of the block or page. No memory is needed.
pub fn write_refusal<W: Write>(out: &mut Output<W>, refusal: &Refusal)
    ensures line { Reports out.old out.new (refusal_line refusal.now) }
{
    write_head(out, refusal);
    write_reported(out, refusal);
    out.text("\n");
}

/// Writes the line of a refused record: `X|NUMBER|NAME|PLACE`, if the first record of a feed has the place 0. No
/// memory is needed.
pub fn write_refused_record<W: Write>(out: &mut Output<W>, refusal: &Refusal, place: u64)
    ensures line { Reports out.old out.new (refused_record_line refusal.now place) }
{
    write_head(out, refusal);
    out.text("|");
    out.number(place);
    out.text("\n");
}

/// Writes `rha`, the number and the name of a refusal.
fn write_error_head<W: Write>(out: &mut Output<W>, refusal: &Refusal)
    ensures head { Reports out.old out.new (error_head refusal.now) }
{
    out.text("rha: ");
    out.number(u64::from(refusal.number()));
    out.text(" ");
    out.text(refusal.name());
}

/// Writes a refusal for standard error: `rha: NUMBER NAME`. No memory is needed.
pub fn write_error<W: Write>(out: &mut Output<W>, refusal: &Refusal)
    ensures line { Reports out.old out.new (error_line refusal.now) }
{
    write_error_head(out, refusal);
    out.text("\n");
}

/// Writes a refusal, and then on the same line what failed and why: `rha: NUMBER NAME: WHY`. No memory is needed.
pub fn write_reason<W: Write>(out: &mut Output<W>, refusal: &Refusal, why: &str)
    ensures line { Reports out.old out.new (reason_line refusal.now why.now) }
{
    write_error_head(out, refusal);
    out.text(": ");
    out.text(why);
    out.text("\n");
}

/// Writes that a file, an address or an argument failed, and right after its name the reason, which begins with a colon or a slash:
/// `rha: 29 Outside: WHAT: REASON`. No memory is needed.
pub fn write_outside<W: Write>(out: &mut Output<W>, what: &str, reason: &str)
    ensures line { Reports out.old out.new (reason_line Refusal.Outside (what.now ++ reason.now)) }
{
    write_error_head(out, &Refusal::Outside);
    out.text(": ");
    out.text(what);
    out.text(reason);
    out.text("\n");
}
