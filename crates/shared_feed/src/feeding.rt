//! A feed into a shared archive under way: its records are resolved, and their admissions offered in batches.

ghost use Rattle.std.specs.Prelude.{◌≡◌, ◌≤◌, ◌∷◌, ◌++◌, ◌+◌, ltb, ℕ, List, [], None, Some, Ok, map, OnOk, OnErr, IfErr, IsSome};
ghost use Rattle.board.specs.Views.{View};
ghost use Rattle.mrt_records.specs.Values.{Reported, reported};
ghost use Rattle.service.specs.Turns.{Turn, Offer, offer_where, wait_unless, is_full, turns_at, waits_after, last_turns};
ghost use Rattle.service.specs.FeedTexts.{capped};
ghost use Rattle.service.specs.Outputs.{OutputState, Reports};
ghost use Rattle.service.specs.Refusals.{refused_record_line};
ghost use Rattle.service.specs.Faults.{of_record};
ghost use Rattle.service.specs.declared.limits.BatchLimits.{BatchLimits};
ghost use Rattle.shared_feed.specs.inner.Feeding.{HasDone, IsSameFeed, IsCounted, IsAfter, TakesNext, GivesUp, StopsAmong};

use crate::making_room::admit_with_room;
use archive_calls::Trouble;
use board::{Named, Pass};
use mrt_records::Item;
use query_threads::{Gate, OnDisk, Shared, Store};
use resolve::{ResolveFault, Resolver, WithoutHop};
use route_model::Admission;
use service::{BatchLimits, FeedCounts, FeedStop, Output, report_batch, report_refused};
use std::alloc::{AllocError, Global};
use std::io::Write;
use std::sync::Wait;

/// A feed under way: what later records need of earlier ones, the admissions that aren't offered yet, with how many octets
/// they have as a batch, and what became of the records.
#[derive(Drop)]
pub(crate) struct Feeding {
    pub(crate) collector: u8,
    pub(crate) limit: BatchLimits,
    pub(crate) resolver: Resolver,
    pub(crate) gathered: Vec<Admission>,
    pub(crate) octets: usize,
    pub(crate) counts: FeedCounts,
}

/// Whether `octets` and `more` octets together are more than `most`.
fn is_over(octets: usize, more: usize, most: usize) -> bool
    ensures over { result ≡ ltb most (octets + more) }
{
    match octets.checked_add(more) {
        Some(sum) => sum > most,
        None => true,
    }
}

/// What the next record of a feed means. An entry of a RIB record that has no next hop refuses its record.
fn read_next(
    alloc: Global,
    resolver: &mut Resolver,
    item: &Item,
) -> Result<Option<Admission>, ResolveFault>
    ensures takes { TakesNext resolver.old resolver.new (reported item.now) result }
{
    resolver.record(alloc, WithoutHop::Refused, item)
}

impl Feeding {
    /// The beginning of a feed of the collector, whose batches have at most this.
    pub(crate) fn new(alloc: Global, collector: u8, limit: BatchLimits) -> Feeding
        ensures collector { result.collector ≡ collector }
        ensures limit { result.limit ≡ limit }
        ensures fed { result.resolver.collector ≡ collector }
        ensures none { result.resolver.table ≡ None }
        ensures empty { result.gathered.items ≡ [] }
        ensures octets { result.octets ≡ 0 }
        ensures counts { result.counts ≡ record { records = 0; admitted = 0; late = 0; refused = 0; skipped = 0 } }
    {
        Feeding {
            collector,
            limit,
            resolver: Resolver::new(collector),
            gathered: Vec::new(alloc),
            octets: 0,
            counts: FeedCounts {
                records: 0,
                admitted: 0,
                late: 0,
                refused: 0,
                skipped: 0,
            },
        }
    }

    /// Offers what is gathered as a batch, and writes what became of it.
    fn offer<A: Store, N: Named + OnDisk<A::Disk>, G: Gate + Drop, W: Write>(
        &mut self,
        rt: &impl Wait,
        shared: &Shared<A, N, G>,
        pass: &mut Pass<N>,
        out: &mut Output<W>,
    ) -> Result<(), FeedStop>
        ensures same { IsSameFeed self.old self.new }
        ensures gathered { OnOk result (self.new.gathered.items ≡ []) }
        ensures octets { OnOk result (self.new.octets ≡ 0) }
        ensures done { (c : ℕ) (v : View) (turns : List Turn) (was : OutputState) → self.old.collector ≡ c → HasDone (IsSome N.disk) c v turns self.old.counts pass.old was out.old → OnOk result (HasDone (IsSome N.disk) c v (turns ++ Offer self.old.gathered.items ∷ []) self.new.counts pass.new was out.new) }
        ensures given_up { (c : ℕ) (v : View) (turns : List Turn) (was : OutputState) → self.old.collector ≡ c → IsCounted self.old → HasDone (IsSome N.disk) c v turns self.old.counts pass.old was out.old → IfErr result (GivesUp (IsSome N.disk) c v (turns ++ Offer self.old.gathered.items ∷ []) pass.new was out.new) }
    {
        let reply = admit_with_room(rt, shared, pass, self.collector, &self.gathered)?;
        report_batch(out, &reply);
        self.counts.count_batch(&reply);
        self.gathered.clear();
        self.octets = 0;
        Ok(())
    }

    /// Offers what is gathered where it would be too large with `octets` more octets.
    fn make_room<A: Store, N: Named + OnDisk<A::Disk>, G: Gate + Drop, W: Write>(
        &mut self,
        rt: &impl Wait,
        shared: &Shared<A, N, G>,
        pass: &mut Pass<N>,
        octets: usize,
        out: &mut Output<W>,
    ) -> Result<(), FeedStop>
        ensures same { IsSameFeed self.old self.new }
        ensures gathered { OnOk result (self.new.gathered.items ≡ wait_unless (ltb self.old.limit.octets (self.old.octets + octets)) self.old.gathered.items) }
        ensures counted { IsCounted self.old → OnOk result (IsCounted self.new) }
        ensures done { (c : ℕ) (v : View) (turns : List Turn) (was : OutputState) → self.old.collector ≡ c → HasDone (IsSome N.disk) c v turns self.old.counts pass.old was out.old → OnOk result (HasDone (IsSome N.disk) c v (turns ++ offer_where (ltb self.old.limit.octets (self.old.octets + octets)) self.old.gathered.items) self.new.counts pass.new was out.new) }
        ensures given_up { (c : ℕ) (v : View) (turns : List Turn) (was : OutputState) → self.old.collector ≡ c → IsCounted self.old → HasDone (IsSome N.disk) c v turns self.old.counts pass.old was out.old → IfErr result (GivesUp (IsSome N.disk) c v (turns ++ offer_where (ltb self.old.limit.octets (self.old.octets + octets)) self.old.gathered.items) pass.new was out.new) }
    {
        if is_over(self.octets, octets, self.limit.octets) {
            return self.offer(rt, shared, pass, out);
        }
        Ok(())
    }

    /// Offers what is gathered where it has as many admissions as a batch may have.
    fn offer_full<A: Store, N: Named + OnDisk<A::Disk>, G: Gate + Drop, W: Write>(
        &mut self,
        rt: &impl Wait,
        shared: &Shared<A, N, G>,
        pass: &mut Pass<N>,
        out: &mut Output<W>,
    ) -> Result<(), FeedStop>
        ensures same { IsSameFeed self.old self.new }
        ensures gathered { OnOk result (self.new.gathered.items ≡ wait_unless (is_full self.old.limit self.old.gathered.items) self.old.gathered.items) }
        ensures counted { IsCounted self.old → OnOk result (IsCounted self.new) }
        ensures done { (c : ℕ) (v : View) (turns : List Turn) (was : OutputState) → self.old.collector ≡ c → HasDone (IsSome N.disk) c v turns self.old.counts pass.old was out.old → OnOk result (HasDone (IsSome N.disk) c v (turns ++ offer_where (is_full self.old.limit self.old.gathered.items) self.old.gathered.items) self.new.counts pass.new was out.new) }
        ensures given_up { (c : ℕ) (v : View) (turns : List Turn) (was : OutputState) → self.old.collector ≡ c → IsCounted self.old → HasDone (IsSome N.disk) c v turns self.old.counts pass.old was out.old → IfErr result (GivesUp (IsSome N.disk) c v (turns ++ offer_where (is_full self.old.limit self.old.gathered.items) self.old.gathered.items) pass.new was out.new) }
    {
        if self.gathered.len() >= self.limit.records {
            return self.offer(rt, shared, pass, out);
        }
        Ok(())
    }

    /// Offers what is gathered, if there is any.
    pub(crate) fn offer_rest<A: Store, N: Named + OnDisk<A::Disk>, G: Gate + Drop, W: Write>(
        &mut self,
        rt: &impl Wait,
        shared: &Shared<A, N, G>,
        pass: &mut Pass<N>,
        out: &mut Output<W>,
    ) -> Result<(), FeedStop>
        ensures same { IsSameFeed self.old self.new }
        ensures done { (c : ℕ) (v : View) (turns : List Turn) (was : OutputState) → self.old.collector ≡ c → HasDone (IsSome N.disk) c v turns self.old.counts pass.old was out.old → OnOk result (HasDone (IsSome N.disk) c v (turns ++ last_turns self.old.gathered.items) self.new.counts pass.new was out.new) }
        ensures given_up { (c : ℕ) (v : View) (turns : List Turn) (was : OutputState) → self.old.collector ≡ c → IsCounted self.old → HasDone (IsSome N.disk) c v turns self.old.counts pass.old was out.old → IfErr result (GivesUp (IsSome N.disk) c v (turns ++ last_turns self.old.gathered.items) pass.new was out.new) }
    {
        if self.gathered.is_empty() {
            return Ok(());
        }
        self.offer(rt, shared, pass, out)
    }

    /// Adds an admission of `octets` octets to what is gathered.
    fn push(&mut self, admission: Admission, octets: usize) -> Result<(), AllocError>
        ensures same { IsSameFeed self.old self.new }
        ensures counts { self.new.counts ≡ self.old.counts }
        ensures gathered { OnOk result (self.new.gathered.items ≡ self.old.gathered.items ++ admission ∷ []) }
        ensures octets { OnOk result (self.old.octets + octets ≤ 262144 → self.new.octets ≡ self.old.octets + octets) }
    {
        self.gathered.push(admission)?;
        self.octets = self.octets.saturating_add(octets);
        Ok(())
    }

    /// Gathers one more admission. What was gathered is offered first where it would be too large with it, and all of
    /// it if it has as many admissions as a batch may have.
    fn gather<A: Store, N: Named + OnDisk<A::Disk>, G: Gate + Drop, W: Write>(
        &mut self,
        rt: &impl Wait,
        shared: &Shared<A, N, G>,
        pass: &mut Pass<N>,
        admission: Admission,
        out: &mut Output<W>,
    ) -> Result<(), FeedStop>
        ensures same { IsSameFeed self.old self.new }
        ensures gathered { IsCounted self.old → OnOk result (self.new.gathered.items ≡ waits_after self.old.limit self.old.gathered.items (Ok (Some admission))) }
        ensures counted { IsCounted self.old → OnOk result (IsCounted self.new) }
        ensures done { (c : ℕ) (v : View) (turns : List Turn) (was : OutputState) (place : ℕ) → IsCounted self.old → self.old.collector ≡ c → HasDone (IsSome N.disk) c v turns self.old.counts pass.old was out.old → OnOk result (HasDone (IsSome N.disk) c v (turns ++ turns_at self.old.limit place self.old.gathered.items (Ok (Some admission))) self.new.counts pass.new was out.new) }
        ensures given_up { (c : ℕ) (v : View) (turns : List Turn) (was : OutputState) (place : ℕ) → self.old.collector ≡ c → IsCounted self.old → HasDone (IsSome N.disk) c v turns self.old.counts pass.old was out.old → IfErr result (GivesUp (IsSome N.disk) c v (turns ++ turns_at self.old.limit place self.old.gathered.items (Ok (Some admission))) pass.new was out.new) }
    {
        let octets = admission.encoded_len() + 4;
        self.make_room(rt, shared, pass, octets, out)?;
        match self.push(admission, octets) {
            Ok(()) => self.offer_full(rt, shared, pass, out),
            Err(_) => Err(FeedStop::Trouble(Trouble::OutOfMemory)),
        }
    }

    /// Counts a refused record, and writes its line. Running out of memory is no fault of a record.
    fn refuse<W: Write>(
        &mut self,
        fault: ResolveFault,
        place: u64,
        out: &mut Output<W>,
    ) -> Result<(), FeedStop>
        ensures same { IsSameFeed self.old self.new }
        ensures gathered { self.new.gathered.items ≡ self.old.gathered.items }
        ensures octets { self.new.octets ≡ self.old.octets }
        ensures admitted { self.new.counts.admitted ≡ self.old.counts.admitted }
        ensures late { self.new.counts.late ≡ self.old.counts.late }
        ensures remembered { OnOk result (fault ≡ ResolveFault.OutOfMemory → ⊥) }
        ensures counted { OnOk result (self.new.counts.refused ≡ capped (self.old.counts.refused + 1)) }
        ensures reported { OnOk result (Reports out.old out.new (refused_record_line (of_record fault) place)) }
        ensures unreported { OnErr result (out.new ≡ out.old) }
        ensures uncounted { OnErr result (self.new.counts ≡ self.old.counts) }
        ensures lacking { IfErr result (λ why. why ≡ FeedStop.Trouble Trouble.OutOfMemory) }
    {
        if fault == ResolveFault::OutOfMemory {
            return Err(FeedStop::Trouble(Trouble::OutOfMemory));
        }
        self.counts.refused = self.counts.refused.saturating_add(1);
        report_refused(out, fault, place);
        Ok(())
    }

    /// Takes the next record of the feed.
    fn take<A: Store, N: Named + OnDisk<A::Disk>, G: Gate + Drop, W: Write>(
        &mut self,
        rt: &impl Wait,
        alloc: Global,
        shared: &Shared<A, N, G>,
        pass: &mut Pass<N>,
        item: &Item,
        out: &mut Output<W>,
    ) -> Result<(), FeedStop>
        ensures beyond { (c : ℕ) (limit : BatchLimits) (v : View) (records : List Reported) (was : OutputState) → IsAfter (IsSome N.disk) c limit v records self.old pass.old was out.old → OnOk result (IsAfter (IsSome N.disk) c limit v (records ++ reported item.now ∷ []) self.new pass.new was out.new) }
        ensures given_up { (c : ℕ) (limit : BatchLimits) (v : View) (records : List Reported) (was : OutputState) → IsAfter (IsSome N.disk) c limit v records self.old pass.old was out.old → IfErr result (StopsAmong (IsSome N.disk) c limit v records (item.now ∷ []) pass.new was out.new) }
    {
        let place = self.counts.records;
        self.counts.count_record(item);
        match read_next(alloc, &mut self.resolver, item) {
            Ok(Some(admission)) => self.gather(rt, shared, pass, admission, out),
            Ok(None) => Ok(()),
            Err(fault) => self.refuse(fault, place, out),
        }
    }

    /// Takes the next records of the feed, in their order.
    pub(crate) fn take_all<A: Store, N: Named + OnDisk<A::Disk>, G: Gate + Drop, W: Write>(
        &mut self,
        rt: &impl Wait,
        alloc: Global,
        shared: &Shared<A, N, G>,
        pass: &mut Pass<N>,
        items: &[Item],
        out: &mut Output<W>,
    ) -> Result<(), FeedStop>
        ensures beyond { (c : ℕ) (limit : BatchLimits) (v : View) (records : List Reported) (was : OutputState) → IsAfter (IsSome N.disk) c limit v records self.old pass.old was out.old → OnOk result (IsAfter (IsSome N.disk) c limit v (records ++ map reported items.now) self.new pass.new was out.new) }
        ensures given_up { (c : ℕ) (limit : BatchLimits) (v : View) (records : List Reported) (was : OutputState) → IsAfter (IsSome N.disk) c limit v records self.old pass.old was out.old → IfErr result (StopsAmong (IsSome N.disk) c limit v records items.now pass.new was out.new) }
    {
        for item in items {
            self.take(rt, alloc, shared, pass, item, out)?;
        }
        Ok(())
    }
}
