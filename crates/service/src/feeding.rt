//! A feed in progress: its records are resolved, and their admissions offered in batches.

ghost use Rattle.std.specs.Prelude.{◌≡◌, ◌≤◌, ◌∷◌, ◌++◌, ◌+◌, ltb, ℕ, List, [], Option, Some, Ok, map, OnOk, OnErr, IfErr};
ghost use Rattle.route_meaning.specs.History.{History};
ghost use Rattle.resolve.specs.declared.without_hop.WithoutHop.{WithoutHop};
ghost use Rattle.mrt_records.specs.Values.{Reported, reported};
ghost use Rattle.service.specs.Turns.{Turn, Offer, Refuse, offer_where, wait_unless, is_full, turns_at, waits_after, last_turns};
ghost use Rattle.service.specs.FeedTexts.{capped, intake_in};
ghost use Rattle.service.specs.Feeds.{limits_for};
ghost use Rattle.service.specs.declared.limits.BatchLimits.{BatchLimits};
ghost use Rattle.service.specs.FeedLines.{admitted_text};
ghost use Rattle.service.specs.Outputs.{OutputState, Reports};
ghost use Rattle.service.specs.Refusals.{refused_record_line};
ghost use Rattle.service.specs.Faults.{of_record};
ghost use Rattle.service.specs.inner.Feeding.{HasDone, IsSameFeed, IsCounted, IsAfter, GivesUp, StopsAmong};

use crate::faults::{FeedStop, stop_of};
use crate::feed_lines::{FeedCounts, write_admitted};
use crate::limits::BatchLimits;
use crate::making_room::admit_with_room;
use crate::output::Output;
use crate::refusal::{Refusal, write_refused_record};
use crate::resuming::read_next;
use crate::settings::FeedSettings;
use archive_calls::{RouteArchive, Trouble};
use interleaving_core::BatchReply;
use mrt_records::Item;
use resolve::{ResolveFault, Resolver, WithoutHop};
use route_model::Admission;
use std::alloc::{AllocError, Global};
use std::io::Write;

/// A feed in progress.
#[derive(Drop)]
pub(crate) struct Feeding {
    /// The collector that it feeds.
    pub(crate) collector: u8,
    /// How large a batch may be.
    pub(crate) limit: BatchLimits,
    /// What becomes of entries of RIB records without a next hop.
    pub(crate) rule: WithoutHop,
    /// The peer table of the feed, which later records need.
    pub(crate) resolver: Resolver,
    /// How many of the next admissions are dropped, since an earlier feed admitted them.
    pub(crate) dropping: u64,
    /// The pending batch: admissions that aren't offered yet.
    pub(crate) gathered: Vec<Admission>,
    /// How many octets the pending batch has.
    pub(crate) octets: usize,
    /// What became of the records until now.
    pub(crate) counts: FeedCounts,
}

/// Whether `octets` and `more` together exceed the limit.
fn is_over(octets: usize, more: usize, most: usize) -> bool
    ensures over { result ≡ ltb most (octets + more) }
{
    match octets.checked_add(more) {
        Some(sum) => sum > most,
        None => true,
    }
}

/// Writes what became of a batch, and writes out what is buffered: the batch is durable, and whoever reads the lines may
/// rely on it from now on, wherever the feed ends.
pub fn report_batch<W: Write>(out: &mut Output<W>, admitted: &BatchReply)
    ensures lines { Reports out.old out.new (admitted_text admitted.now) }
{
    write_admitted(out, admitted);
    out.flush();
}

/// Writes the line of a refused record, and flushes it: from a pipe the next record may come much later.
pub fn report_refused<W: Write>(out: &mut Output<W>, fault: ResolveFault, place: u64)
    ensures line { Reports out.old out.new (refused_record_line (of_record fault) place) }
{
    write_refused_record(out, &Refusal::from(fault), place);
    out.flush();
}

impl Feeding {
    /// Starts a feed into the archive that drops its first `dropping` admissions, which an earlier feed admitted.
    pub(crate) fn new<A: RouteArchive>(
        alloc: Global,
        archive: &A,
        how: FeedSettings,
        dropping: u64,
    ) -> Feeding
        ensures begins { (h : History) (was : OutputState) → A.represents archive.now h → IsAfter how.rule how.collector dropping (limits_for how (A.most archive.now)) h [] result (A.represents archive.now) was was }
    {
        let limit = BatchLimits {
            records: how.limit,
            octets: archive.batch_limit(),
        };
        Feeding {
            collector: how.collector,
            limit,
            rule: how.rule,
            resolver: Resolver::new(how.collector),
            dropping,
            gathered: Vec::new(alloc),
            octets: 0,
            counts: FeedCounts {
                records: 0,
                admitted: 0,
                late: 0,
                refused: 0,
                skipped: 0,
            },
        }
    }

    /// Offers the pending admissions as a batch, and writes what became of it.
    fn offer<A: RouteArchive, W: Write>(
        &mut self,
        archive: &mut A,
        out: &mut Output<W>,
    ) -> Result<(), FeedStop>
        ensures same { IsSameFeed self.old self.new }
        ensures gathered { OnOk result (self.new.gathered.items ≡ []) }
        ensures octets { OnOk result (self.new.octets ≡ 0) }
        ensures done { (c : ℕ) (h : History) (turns : List Turn) (was : OutputState) → self.old.collector ≡ c → HasDone c h turns self.old.counts (A.represents archive.old) was out.old → OnOk result (HasDone c h (turns ++ Offer self.old.gathered.items ∷ []) self.new.counts (A.represents archive.new) was out.new) }
        ensures most { A.most archive.new ≡ A.most archive.old }
        ensures inside { result ≡ Err FeedStop.Outside → ⊥ }
        ensures given_up { (c : ℕ) (h : History) (turns : List Turn) (was : OutputState) → self.old.collector ≡ c → IsCounted self.old → HasDone c h turns self.old.counts (A.represents archive.old) was out.old → IfErr result (GivesUp c h (turns ++ Offer self.old.gathered.items ∷ []) (A.represents archive.new) was out.new) }
    {
        let admitted = match admit_with_room(archive, self.collector, &self.gathered) {
            Ok(admitted) => admitted,
            Err(refusal) => return Err(stop_of(refusal)),
        };
        report_batch(out, &admitted);
        self.counts.count_batch(&admitted);
        self.gathered.clear();
        self.octets = 0;
        Ok(())
    }

    /// Offers the pending batch if `more` octets would make it too large.
    fn make_room<A: RouteArchive, W: Write>(
        &mut self,
        octets: usize,
        archive: &mut A,
        out: &mut Output<W>,
    ) -> Result<(), FeedStop>
        ensures same { IsSameFeed self.old self.new }
        ensures gathered { OnOk result (self.new.gathered.items ≡ wait_unless (ltb self.old.limit.octets (self.old.octets + octets)) self.old.gathered.items) }
        ensures counted { IsCounted self.old → OnOk result (IsCounted self.new) }
        ensures done { (c : ℕ) (h : History) (turns : List Turn) (was : OutputState) → self.old.collector ≡ c → HasDone c h turns self.old.counts (A.represents archive.old) was out.old → OnOk result (HasDone c h (turns ++ offer_where (ltb self.old.limit.octets (self.old.octets + octets)) self.old.gathered.items) self.new.counts (A.represents archive.new) was out.new) }
        ensures most { A.most archive.new ≡ A.most archive.old }
        ensures inside { result ≡ Err FeedStop.Outside → ⊥ }
        ensures given_up { (c : ℕ) (h : History) (turns : List Turn) (was : OutputState) → self.old.collector ≡ c → IsCounted self.old → HasDone c h turns self.old.counts (A.represents archive.old) was out.old → IfErr result (GivesUp c h (turns ++ offer_where (ltb self.old.limit.octets (self.old.octets + octets)) self.old.gathered.items) (A.represents archive.new) was out.new) }
    {
        if is_over(self.octets, octets, self.limit.octets) {
            return self.offer(archive, out);
        }
        Ok(())
    }

    /// Offers the pending batch if it has as many admissions as a batch may have.
    fn offer_full<A: RouteArchive, W: Write>(
        &mut self,
        archive: &mut A,
        out: &mut Output<W>,
    ) -> Result<(), FeedStop>
        ensures same { IsSameFeed self.old self.new }
        ensures gathered { OnOk result (self.new.gathered.items ≡ wait_unless (is_full self.old.limit self.old.gathered.items) self.old.gathered.items) }
        ensures counted { IsCounted self.old → OnOk result (IsCounted self.new) }
        ensures done { (c : ℕ) (h : History) (turns : List Turn) (was : OutputState) → self.old.collector ≡ c → HasDone c h turns self.old.counts (A.represents archive.old) was out.old → OnOk result (HasDone c h (turns ++ offer_where (is_full self.old.limit self.old.gathered.items) self.old.gathered.items) self.new.counts (A.represents archive.new) was out.new) }
        ensures most { A.most archive.new ≡ A.most archive.old }
        ensures inside { result ≡ Err FeedStop.Outside → ⊥ }
        ensures given_up { (c : ℕ) (h : History) (turns : List Turn) (was : OutputState) → self.old.collector ≡ c → IsCounted self.old → HasDone c h turns self.old.counts (A.represents archive.old) was out.old → IfErr result (GivesUp c h (turns ++ offer_where (is_full self.old.limit self.old.gathered.items) self.old.gathered.items) (A.represents archive.new) was out.new) }
    {
        if self.gathered.len() >= self.limit.records {
            return self.offer(archive, out);
        }
        Ok(())
    }

    /// Offers the pending batch, if it has any admission.
    pub(crate) fn offer_rest<A: RouteArchive, W: Write>(
        &mut self,
        archive: &mut A,
        out: &mut Output<W>,
    ) -> Result<(), FeedStop>
        ensures same { IsSameFeed self.old self.new }
        ensures done { (c : ℕ) (h : History) (turns : List Turn) (was : OutputState) → self.old.collector ≡ c → HasDone c h turns self.old.counts (A.represents archive.old) was out.old → OnOk result (HasDone c h (turns ++ last_turns self.old.gathered.items) self.new.counts (A.represents archive.new) was out.new) }
        ensures most { A.most archive.new ≡ A.most archive.old }
        ensures inside { result ≡ Err FeedStop.Outside → ⊥ }
        ensures given_up { (c : ℕ) (h : History) (turns : List Turn) (was : OutputState) → self.old.collector ≡ c → IsCounted self.old → HasDone c h turns self.old.counts (A.represents archive.old) was out.old → IfErr result (GivesUp c h (turns ++ last_turns self.old.gathered.items) (A.represents archive.new) was out.new) }
    {
        if self.gathered.is_empty() {
            return Ok(());
        }
        self.offer(archive, out)
    }

    /// Adds an admission of this many octets to the pending batch.
    fn push(&mut self, admission: Admission, octets: usize) -> Result<(), AllocError>
        ensures same { IsSameFeed self.old self.new }
        ensures counts { self.new.counts ≡ self.old.counts }
        ensures gathered { OnOk result (self.new.gathered.items ≡ self.old.gathered.items ++ admission ∷ []) }
        ensures octets { OnOk result (self.old.octets + octets ≤ 262144 → self.new.octets ≡ self.old.octets + octets) }
    {
        self.gathered.push(admission)?;
        self.octets = self.octets.saturating_add(octets);
        Ok(())
    }

    /// Adds an admission to the pending batch. The batch is offered first if it would become too large, and afterwards if it
    /// has as many admissions as a batch may have.
    fn gather<A: RouteArchive, W: Write>(
        &mut self,
        archive: &mut A,
        admission: Admission,
        out: &mut Output<W>,
    ) -> Result<(), FeedStop>
        ensures same { IsSameFeed self.old self.new }
        ensures gathered { IsCounted self.old → OnOk result (self.new.gathered.items ≡ waits_after self.old.limit self.old.gathered.items (Ok (Some admission))) }
        ensures counted { IsCounted self.old → OnOk result (IsCounted self.new) }
        ensures done { (c : ℕ) (h : History) (turns : List Turn) (was : OutputState) (place : ℕ) → IsCounted self.old → self.old.collector ≡ c → HasDone c h turns self.old.counts (A.represents archive.old) was out.old → OnOk result (HasDone c h (turns ++ turns_at self.old.limit place self.old.gathered.items (Ok (Some admission))) self.new.counts (A.represents archive.new) was out.new) }
        ensures most { A.most archive.new ≡ A.most archive.old }
        ensures inside { result ≡ Err FeedStop.Outside → ⊥ }
        ensures given_up { (c : ℕ) (h : History) (turns : List Turn) (was : OutputState) (place : ℕ) → self.old.collector ≡ c → IsCounted self.old → HasDone c h turns self.old.counts (A.represents archive.old) was out.old → IfErr result (GivesUp c h (turns ++ turns_at self.old.limit place self.old.gathered.items (Ok (Some admission))) (A.represents archive.new) was out.new) }
    {
        let octets = admission.encoded_len() + 4;
        self.make_room(octets, archive, out)?;
        match self.push(admission, octets) {
            Ok(()) => self.offer_full(archive, out),
            Err(_) => Err(FeedStop::Trouble(Trouble::OutOfMemory)),
        }
    }

    /// Counts a refused record, and writes its line. Out of memory is no fault of a record.
    fn refuse<W: Write>(
        &mut self,
        fault: ResolveFault,
        place: u64,
        out: &mut Output<W>,
    ) -> Result<(), FeedStop>
        ensures same { IsSameFeed self.old self.new }
        ensures gathered { self.new.gathered.items ≡ self.old.gathered.items }
        ensures octets { self.new.octets ≡ self.old.octets }
        ensures admitted { self.new.counts.admitted ≡ self.old.counts.admitted }
        ensures late { self.new.counts.late ≡ self.old.counts.late }
        ensures remembered { OnOk result (fault ≡ ResolveFault.OutOfMemory → ⊥) }
        ensures counted { OnOk result (self.new.counts.refused ≡ capped (self.old.counts.refused + 1)) }
        ensures reported { OnOk result (Reports out.old out.new (refused_record_line (of_record fault) place)) }
        ensures unreported { OnErr result (out.new ≡ out.old) }
        ensures uncounted { OnErr result (self.new.counts ≡ self.old.counts) }
        ensures lacking { IfErr result (λ why. why ≡ FeedStop.Trouble Trouble.OutOfMemory) }
    {
        if fault == ResolveFault::OutOfMemory {
            return Err(FeedStop::Trouble(Trouble::OutOfMemory));
        }
        self.counts.refused = self.counts.refused.saturating_add(1);
        report_refused(out, fault, place);
        Ok(())
    }

    /// Takes the next record of the feed.
    fn take<A: RouteArchive, W: Write>(
        &mut self,
        alloc: Global,
        archive: &mut A,
        item: &Item,
        out: &mut Output<W>,
    ) -> Result<(), FeedStop>
        ensures beyond { (rule : WithoutHop) (c dropped : ℕ) (limit : BatchLimits) (h : History) (records : List Reported) (was : OutputState) → IsAfter rule c dropped limit h records self.old (A.represents archive.old) was out.old → OnOk result (IsAfter rule c dropped limit h (records ++ reported item.now ∷ []) self.new (A.represents archive.new) was out.new) }
        ensures most { A.most archive.new ≡ A.most archive.old }
        ensures inside { result ≡ Err FeedStop.Outside → ⊥ }
        ensures given_up { (rule : WithoutHop) (c dropped : ℕ) (limit : BatchLimits) (h : History) (records : List Reported) (was : OutputState) → IsAfter rule c dropped limit h records self.old (A.represents archive.old) was out.old → IfErr result (StopsAmong rule c dropped limit h records (item.now ∷ []) (A.represents archive.new) was out.new) }
    {
        let place = self.counts.records;
        self.counts.count_record(item);
        match read_next(
            alloc,
            self.rule,
            &mut self.resolver,
            &mut self.dropping,
            item,
        ) {
            Ok(Some(admission)) => self.gather(archive, admission, out),
            Ok(None) => Ok(()),
            Err(fault) => self.refuse(fault, place, out),
        }
    }

    /// Takes the next records of the feed, in order.
    pub(crate) fn take_all<A: RouteArchive, W: Write>(
        &mut self,
        alloc: Global,
        archive: &mut A,
        items: &[Item],
        out: &mut Output<W>,
    ) -> Result<(), FeedStop>
        ensures beyond { (rule : WithoutHop) (c dropped : ℕ) (limit : BatchLimits) (h : History) (records : List Reported) (was : OutputState) → IsAfter rule c dropped limit h records self.old (A.represents archive.old) was out.old → OnOk result (IsAfter rule c dropped limit h (records ++ map reported items.now) self.new (A.represents archive.new) was out.new) }
        ensures most { A.most archive.new ≡ A.most archive.old }
        ensures inside { result ≡ Err FeedStop.Outside → ⊥ }
        ensures given_up { (rule : WithoutHop) (c dropped : ℕ) (limit : BatchLimits) (h : History) (records : List Reported) (was : OutputState) → IsAfter rule c dropped limit h records self.old (A.represents archive.old) was out.old → IfErr result (StopsAmong rule c dropped limit h records items.now (A.represents archive.new) was out.new) }
    {
        for item in items {
            self.take(alloc, archive, item, out)?;
        }
        Ok(())
    }
}
