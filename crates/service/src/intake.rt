//! Feeds: MRT records that are read, resolved and admitted (RFC 6396).

ghost use Rattle.std.specs.Prelude.{◌≡◌, ◌⊎◌, ◌++◌, ℕ, true, List, [], None, OnOk, OnErr, IfOk, IfErr};
ghost use Rattle.route_meaning.specs.History.{History};
ghost use Rattle.resolve.specs.declared.without_hop.WithoutHop.{WithoutHop};
ghost use Rattle.service.specs.FeedLines.{counts_line};
ghost use Rattle.service.specs.Faults.{of_stop};
ghost use Rattle.service.specs.FeedTexts.{cut_line, intake_in};
ghost use Rattle.service.specs.Feeds.{FitsFailures, IsCut, IsEnd, IsFed, MayGive, as_reported, limits_for};
ghost use Rattle.service.specs.declared.limits.BatchLimits.{BatchLimits};
ghost use Rattle.service.specs.Outputs.{OutputState, Reports};
ghost use Rattle.service.specs.Refusals.{refusal_line};
ghost use Rattle.service.specs.declared.intake.End.{End};
ghost use Rattle.service.specs.inner.Feeding.{Reads, IsRead, IsReadOut, StopsWithin};

use crate::faults::{FeedCut, FeedStop};
use crate::feed_lines::{FeedCounts, write_counts};
use crate::feeding::Feeding;
use crate::output::{Input, Output};
use crate::refusal::{Refusal, write_refusal, write_refused_record};
use crate::settings::FeedSettings;
use archive_calls::{RouteArchive, Trouble};
use mrt_records::{FrameError, Framer};
use std::alloc::Global;
use std::io::{Read, Write};

/// How many octets are read at once.
const PIECE: usize = 65_536;

/// How a feed ended.
#[derive(Clone, Copy, Debug, PartialEq, Eq)]
pub enum End {
    /// All of it was read.
    Well,
    /// It ended inside a record, or a record's Length was above the limit. What came before is admitted.
    Cut,
    /// It was given up for this.
    Refused(FeedStop),
}

impl Feeding {
    /// Takes the records that are whole with the next piece. Returns whether the feed goes on.
    fn take_piece<A: RouteArchive, W: Write>(
        &mut self,
        alloc: Global,
        framer: &mut Framer,
        piece: &[u8],
        archive: &mut A,
        out: &mut Output<W>,
    ) -> Result<bool, FeedStop>
        ensures read { (rule : WithoutHop) (c dropped : ℕ) (limit : BatchLimits) (h : History) (bytes : List ℕ) (was : OutputState) → Reads rule c dropped limit h bytes framer.old self.old (A.represents archive.old) was out.old → IfOk result (λ goes_on. IsRead rule c dropped limit h (bytes ++ piece.now) framer.new goes_on self.new (A.represents archive.new) was out.new) }
        ensures most { A.most archive.new ≡ A.most archive.old }
        ensures inside { result ≡ Err FeedStop.Outside → ⊥ }
        ensures given_up { (rule : WithoutHop) (c dropped : ℕ) (limit : BatchLimits) (h : History) (bytes : List ℕ) (was : OutputState) → Reads rule c dropped limit h bytes framer.old self.old (A.represents archive.old) was out.old → IfErr result (StopsWithin rule c dropped limit h (bytes ++ piece.now) (A.represents archive.new) was out.new) }
    {
        let mut items = Vec::new(alloc);
        let goes_on = match framer.feed(piece, &mut items) {
            Ok(()) => true,
            Err(FrameError::TooLong) => false,
            Err(_) => return Err(FeedStop::Trouble(Trouble::OutOfMemory)),
        };
        self.take_all(alloc, archive, &items, out)?;
        Ok(goes_on)
    }

    /// Takes the records of all that a reader has left, or those before a Length above the limit.
    fn take_stream<A: RouteArchive, R: Read, W: Write>(
        &mut self,
        alloc: Global,
        framer: &mut Framer,
        reader: &mut Input<R>,
        archive: &mut A,
        out: &mut Output<W>,
    ) -> Result<(), FeedStop>
        ensures read { (rule : WithoutHop) (c dropped : ℕ) (limit : BatchLimits) (h : History) (bytes : List ℕ) (was : OutputState) → Reads rule c dropped limit h bytes framer.old self.old (A.represents archive.old) was out.old → OnOk result ((more : List ℕ) × MayGive reader.old.left more × IsReadOut rule c dropped limit h (bytes ++ more) framer.new self.new (A.represents archive.new) was out.new) }
        ensures given_up { (rule : WithoutHop) (c dropped : ℕ) (limit : BatchLimits) (h : History) (bytes : List ℕ) (was : OutputState) → Reads rule c dropped limit h bytes framer.old self.old (A.represents archive.old) was out.old → IfErr result (λ why. (more : List ℕ) × MayGive reader.old.left more × StopsWithin rule c dropped limit h (bytes ++ more) (A.represents archive.new) was out.new why) }
        ensures most { A.most archive.new ≡ A.most archive.old }
        ensures outside { result ≡ Err FeedStop.Outside → (reader.new.failed ≡ true) ⊎ (out.new.failed ≡ true) }
        ensures sound { (result ≡ Err FeedStop.Outside → ⊥) → reader.new.failed ≡ reader.old.failed }
    {
        let mut piece = [0u8; PIECE];
        for _ in 0..u64::MAX {
            let count = match reader.read(&mut piece) {
                Some(count) => count,
                None => return Err(FeedStop::Outside),
            };
            if count == 0 {
                return Ok(());
            }
            let goes_on = self.take_piece(alloc, framer, &piece[..count], archive, out)?;
            if out.has_failed() {
                return Err(FeedStop::Outside);
            }
            if !goes_on {
                return Ok(());
            }
        }
        // There are never this many pieces.
        Err(FeedStop::Trouble(Trouble::OutOfMemory))
    }
}

/// Why a feed ended before the end of its last record, if it did.
pub fn cut_of(framer: &Framer) -> Option<FeedCut>
    ensures cut { IsCut framer.now result }
{
    match framer.finish() {
        Ok(()) => None,
        Err(FrameError::TooLong) => Some(FeedCut::TooLong),
        Err(_) => Some(FeedCut::Truncated),
    }
}

/// Writes why a feed of this many records is cut short, if it is.
fn report_cut<W: Write>(cut: &Option<FeedCut>, records: u64, out: &mut Output<W>)
    ensures reported { Reports out.old out.new (cut_line cut.now records) }
{
    if let Some(why) = cut {
        write_refused_record(out, &Refusal::from(*why), records);
    }
}

/// Writes how a feed ended, and its counts, and flushes them: applying, which comes next, may take long.
pub fn report_end<W: Write>(cut: &Option<FeedCut>, counts: &FeedCounts, out: &mut Output<W>)
    ensures reported { Reports out.old out.new (cut_line cut.now counts.now.records ++ counts_line counts.now) }
{
    report_cut(cut, counts.records, out);
    write_counts(out, counts);
    out.flush();
}

/// Writes why a feed is given up, and flushes the line.
pub fn report_stop<W: Write>(why: FeedStop, out: &mut Output<W>)
    ensures reported { Reports out.old out.new (refusal_line (of_stop why)) }
{
    write_refusal(out, &Refusal::from(why));
    out.flush();
}

/// Takes a feed to its end. Returns why it is cut short, if it is; `counts` are those that were written then, none if it is given up, and
/// `dropping` is how many admissions are still to be dropped.
fn take_in<A: RouteArchive, R: Read, W: Write>(
    alloc: Global,
    archive: &mut A,
    how: FeedSettings,
    dropping: &mut u64,
    reader: &mut Input<R>,
    out: &mut Output<W>,
    counts: &mut Option<FeedCounts>,
    left_out: &mut u64,
) -> Result<Option<FeedCut>, FeedStop>
    ensures fed { (h : History) → A.represents archive.old h → IfOk result (λ cut. (bytes : List ℕ) × MayGive reader.old.left bytes × (mark : ℕ) × IsFed how.rule how.collector dropping.old (limits_for how (A.most archive.old)) h bytes cut (record { counts = counts.new; left_out = left_out.new; left = dropping.new; mark = mark }) (A.represents archive.new) out.old out.new) }
    ensures uncounted { OnErr result (counts.new ≡ None) }
    ensures given_up { (h : History) → A.represents archive.old h → IfErr result (λ why. (bytes : List ℕ) × MayGive reader.old.left bytes × StopsWithin how.rule how.collector dropping.old (limits_for how (A.most archive.old)) h bytes (A.represents archive.new) out.old out.new why) }
    ensures most { A.most archive.new ≡ A.most archive.old }
    ensures outside { result ≡ Err FeedStop.Outside → (reader.new.failed ≡ true) ⊎ (out.new.failed ≡ true) }
    ensures sound { (result ≡ Err FeedStop.Outside → ⊥) → reader.new.failed ≡ reader.old.failed }
{
    *counts = None;
    let mut feeding = Feeding::new(alloc, archive, how, *dropping);
    let mut framer = Framer::new(alloc);
    feeding.take_stream(alloc, &mut framer, reader, archive, out)?;
    feeding.offer_rest(archive, out)?;
    let cut = cut_of(&framer);
    report_end(&cut, &feeding.counts, out);
    *counts = Some(feeding.counts);
    *left_out = feeding.resolver.left_out();
    *dropping = feeding.dropping;
    Ok(cut)
}

/// The result for a feed that ended so, after its lines: if not all of them could be written, it is given up for
/// the writer.
fn as_reported<W: Write>(end: End, out: &Output<W>) -> End
    ensures reported { result ≡ as_reported out.now.failed end }
    ensures outside { result ≡ End.Refused FeedStop.Outside → (out.now.failed ≡ true) ⊎ (end ≡ End.Refused FeedStop.Outside) }
{
    if out.has_failed() {
        return End::Refused(FeedStop::Outside);
    }
    end
}

/// Takes a feed of a collector. As many of its first admissions as `dropping` has are dropped, and it becomes how many are still to be dropped
/// if the feed came to its end. A record of a dropped admission counts as a record and as nothing else. The other admissions are offered in batches, as soon as one has `limit` admissions, before
/// it would have more octets than the archive takes, and at the end. If the collector's ring is too full for one, what
/// may be applied is applied, and the batch is offered once more. The line of a refused record is written when it
/// is read, what became of a batch after it, and the counts of the feed at the end; if the feed ends inside a record or
/// at a Length above the limit, a line before them. The line of another refusal ends the feed. Each line is
/// flushed at once. If not all lines can be written, the feed is given up for the writer,
/// `Outside`. If it came to its end, `counts` become those of the feed, and `left_out` how many entries of its RIB records were left out; otherwise
/// there are no counts.
pub fn feed<A: RouteArchive, R: Read, W: Write>(
    alloc: Global,
    archive: &mut A,
    how: FeedSettings,
    dropping: &mut u64,
    reader: &mut Input<R>,
    out: &mut Output<W>,
    counts: &mut Option<FeedCounts>,
    left_out: &mut u64,
) -> End
    ensures ended { (h : History) → A.represents archive.old h → (bytes : List ℕ) × MayGive reader.old.left bytes × (end : End) × (result ≡ as_reported out.new.failed end) × (mark : ℕ) × IsEnd how.rule how.collector dropping.old (limits_for how (A.most archive.old)) h bytes end (record { counts = counts.new; left_out = left_out.new; left = dropping.new; mark = mark }) (A.represents archive.new) out.old out.new × FitsFailures end reader.old.failed reader.new.failed out.new.failed }
    ensures most { A.most archive.new ≡ A.most archive.old }
    ensures outside { result ≡ End.Refused FeedStop.Outside → (reader.new.failed ≡ true) ⊎ (out.new.failed ≡ true) }
    ensures sound { (result ≡ End.Refused FeedStop.Outside → ⊥) → reader.new.failed ≡ reader.old.failed }
{
    match take_in(alloc, archive, how, dropping, reader, out, counts, left_out) {
        Ok(None) => as_reported(End::Well, out),
        Ok(Some(_)) => as_reported(End::Cut, out),
        Err(why) => {
            report_stop(why, out);
            as_reported(End::Refused(why), out)
        }
    }
}
