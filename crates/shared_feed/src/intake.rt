//! Feeds into a shared archive: MRT records that are read, resolved and admitted (RFC 6396).

ghost use Rattle.std.specs.Prelude.{◌≡◌, ◌++◌, ℕ, List, OnOk, IfOk, IfErr, IsSome};
ghost use Rattle.board.specs.Views.{View};
ghost use Rattle.query_threads.specs.Seeing.{Since};
ghost use Rattle.service.specs.Feeds.{MayGive};
ghost use Rattle.service.specs.Outputs.{OutputState};
ghost use Rattle.service.specs.declared.limits.BatchLimits.{BatchLimits};
ghost use Rattle.shared_feed.specs.SharedFeeds.{IsEnd, IsTakenIn, limits_of};
ghost use Rattle.shared_feed.specs.inner.Feeding.{Reads, IsRead, IsReadOut, StopsWithin};

use crate::feeding::Feeding;
use crate::reading::read_some;
use archive_calls::{MAX_BATCH_LEN, Trouble};
use board::{Named, Pass};
use mrt_records::{FrameError, Framer};
use query_threads::{Gate, OnDisk, Shared, Store};
use service::{BatchLimits, End, FeedCut, FeedStop, Output, cut_of, report_end, report_stop};
use std::alloc::Global;
use std::io::{Read, Write};
use std::sync::Wait;

/// How many octets are read at once.
const PIECE: usize = 65_536;

/// The octets of a page.
const PAGE: usize = 16_384;

/// The most octets of an admission in a batch.
const ONE_ADMISSION: usize = 131_076;

impl Feeding {
    /// Takes the records that are whole with the next piece. Returns whether the feed goes on.
    fn take_piece<A: Store, N: Named + OnDisk<A::Disk>, G: Gate + Drop, W: Write>(
        &mut self,
        rt: &impl Wait,
        alloc: Global,
        shared: &Shared<A, N, G>,
        pass: &mut Pass<N>,
        framer: &mut Framer,
        piece: &[u8],
        out: &mut Output<W>,
    ) -> Result<bool, FeedStop>
        ensures read { (c : ℕ) (limit : BatchLimits) (v : View) (bytes : List ℕ) (was : OutputState) → Reads (IsSome N.disk) c limit v bytes framer.old self.old pass.old was out.old → IfOk result (λ goes_on. IsRead (IsSome N.disk) c limit v (bytes ++ piece.now) framer.new goes_on self.new pass.new was out.new) }
        ensures given_up { (c : ℕ) (limit : BatchLimits) (v : View) (bytes : List ℕ) (was : OutputState) → Reads (IsSome N.disk) c limit v bytes framer.old self.old pass.old was out.old → IfErr result (StopsWithin (IsSome N.disk) c limit v (bytes ++ piece.now) pass.new was out.new) }
    {
        let mut items = Vec::new(alloc);
        let goes_on = match framer.feed(piece, &mut items) {
            Ok(()) => true,
            Err(FrameError::TooLong) => false,
            Err(_) => return Err(FeedStop::Trouble(Trouble::OutOfMemory)),
        };
        self.take_all(rt, alloc, shared, pass, &items, out)?;
        Ok(goes_on)
    }

    /// Takes the records of all that a reader has left, or those before a Length above the limit.
    fn take_stream<A: Store, N: Named + OnDisk<A::Disk>, G: Gate + Drop, R: Read, W: Write>(
        &mut self,
        rt: &impl Wait,
        alloc: Global,
        shared: &Shared<A, N, G>,
        pass: &mut Pass<N>,
        framer: &mut Framer,
        reader: &mut R,
        out: &mut Output<W>,
    ) -> Result<(), FeedStop>
        ensures read { (c : ℕ) (limit : BatchLimits) (v : View) (bytes : List ℕ) (was : OutputState) → Reads (IsSome N.disk) c limit v bytes framer.old self.old pass.old was out.old → OnOk result ((more : List ℕ) × MayGive (R.remaining reader.old) more × IsReadOut (IsSome N.disk) c limit v (bytes ++ more) framer.new self.new pass.new was out.new) }
        ensures given_up { (c : ℕ) (limit : BatchLimits) (v : View) (bytes : List ℕ) (was : OutputState) → Reads (IsSome N.disk) c limit v bytes framer.old self.old pass.old was out.old → IfErr result (λ why. (more : List ℕ) × MayGive (R.remaining reader.old) more × StopsWithin (IsSome N.disk) c limit v (bytes ++ more) pass.new was out.new why) }
    {
        let mut piece = [0u8; PIECE];
        for _ in 0..u64::MAX {
            let count = match read_some(reader, &mut piece) {
                Some(count) => count,
                None => return Err(FeedStop::Outside),
            };
            if count == 0 {
                return Ok(());
            }
            let goes_on = self.take_piece(rt, alloc, shared, pass, framer, &piece[..count], out)?;
            if out.has_failed() {
                return Err(FeedStop::Outside);
            }
            if !goes_on {
                return Ok(());
            }
        }
        // No memory holds a count of that many pieces.
        Err(FeedStop::Trouble(Trouble::OutOfMemory))
    }
}

/// The most that a batch may have where rings have `ring` pages.
fn limits_of(records: u16, ring: u16) -> BatchLimits
    ensures limit { result ≡ limits_of records ring }
{
    BatchLimits {
        records: usize::from(records),
        octets: (usize::from(ring) * PAGE)
            .max(ONE_ADMISSION)
            .min(MAX_BATCH_LEN),
    }
}

/// Takes a feed in to its end. Returns why it is cut short, if it is.
fn take_in<A: Store, N: Named + OnDisk<A::Disk>, G: Gate + Drop, R: Read, W: Write>(
    rt: &impl Wait,
    alloc: Global,
    shared: &Shared<A, N, G>,
    pass: &mut Pass<N>,
    collector: u8,
    limit: u16,
    reader: &mut R,
    out: &mut Output<W>,
) -> Result<Option<FeedCut>, FeedStop>
    ensures fed { IfOk result (λ cut. (bytes : List ℕ) × MayGive (R.remaining reader.old) bytes × IsTakenIn (IsSome N.disk) collector (limits_of limit shared.now.ring) bytes cut pass.old out.old pass.new out.new) }
    ensures given_up { IfErr result (λ why. (bytes : List ℕ) × MayGive (R.remaining reader.old) bytes × StopsWithin (IsSome N.disk) collector (limits_of limit shared.now.ring) pass.old bytes pass.new out.old out.new why) }
{
    let mut feeding = Feeding::new(alloc, collector, limits_of(limit, shared.ring()));
    let mut framer = Framer::new(alloc);
    feeding.take_stream(rt, alloc, shared, pass, &mut framer, reader, out)?;
    feeding.offer_rest(rt, shared, pass, out)?;
    let cut = cut_of(&framer);
    report_end(&cut, &feeding.counts, out);
    Ok(cut)
}

/// Takes a feed of a collector into a shared archive. Its admissions are offered in batches, as soon as one has `limit`
/// admissions, before it would have more octets than the archive takes, and at the end. If the collector's ring is too
/// full for one, what may be applied is applied, and the batch offered once more. A refused record writes its line when it
/// is met, each batch what became of it, and the end the counts of the feed; if the feed ends inside a record or at a
/// Length above the limit, a line before them. Another refusal writes its line and ends the feed, as does a collector that
/// there isn't. Each line is written out at once. Each admission waits for the lock and lets it go; octets are waited for
/// without it.
pub fn feed<A: Store, N: Named + OnDisk<A::Disk>, G: Gate + Drop, R: Read, W: Write>(
    rt: &impl Wait,
    alloc: Global,
    shared: &Shared<A, N, G>,
    pass: &mut Pass<N>,
    collector: u8,
    limit: u16,
    reader: &mut R,
    out: &mut Output<W>,
) -> End
    ensures ended { (bytes : List ℕ) × MayGive (R.remaining reader.old) bytes × IsEnd (IsSome N.disk) shared.now.collectors collector (limits_of limit shared.now.ring) bytes result pass.old out.old pass.new out.new }
    ensures since { Since pass.old pass.new }
{
    if collector >= shared.collectors() {
        report_stop(FeedStop::NoCollector, out);
        return End::Refused(FeedStop::NoCollector);
    }
    match take_in(rt, alloc, shared, pass, collector, limit, reader, out) {
        Ok(None) => End::Well,
        Ok(Some(_)) => End::Cut,
        Err(why) => {
            report_stop(why, out);
            End::Refused(why)
        }
    }
}
