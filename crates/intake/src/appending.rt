//! Putting a batch into a ring.
ghost use Rattle.std.specs.Prelude.{◌≡◌, ◌<◌, ◌≤◌, ◌^◌, IfSome, IfNone};
ghost use Rattle.intake.specs.Ring.{octets_for};

use crate::drafting::draft;
use crate::error::IntakeError;
use crate::laws::rings_hold_one_list;
use crate::ring::Ring;
use page_tx::Pages;
use route_model::Admission;
use std::alloc::Global;

// How many octets a batch takes, if they are no more than those that are free.
fn octets_within(free: u64, batch: &[Admission]) -> Option<u64>
    requires { free < 2 ^ 40 }
    ensures octets { IfSome result (λ octets. octets ≡ octets_for batch.now) }
    ensures some { IfSome result (λ octets. octets ≤ free) }
    ensures none { IfNone result (free < octets_for batch.now) }
{
    let mut octets = 0;
    for admission in batch {
        octets += 4 + admission.encoded_len() as u64;
        if octets > free {
            return None;
        }
    }
    Some(octets)
}

impl Ring {
    ghost use Rattle.std.specs.Prelude.{◌≡◌, ◌≢◌, ◌<◌, ◌≤◌, ◌+◌, ◌++◌, ◌↔◌, ℕ, length, List, flat_map, sum_by, OnOk, OnErr, IfErr, Err};
    ghost use Rattle.page_tx.specs.Device.{KeepsDevice};
    ghost use Rattle.page_tx.specs.Start.{Start};
    ghost use Rattle.route_model.specs.Admission.{Admitted};
    ghost use Rattle.intake.specs.Ring.{entry, entry_octets, octets_for, size_of, IsRing, RingRepresents, Adds, Gains, ListsAfter, Crowds};
    ghost use Rattle.intake.specs.Calls.{OnlyReads, AppendRefusal, most_pages};
    ghost use Rattle.page_tx.specs.declared.error.PageError.TheVariants as pages_refusals;

    /// Appends a batch to what waits, if it fits: an admission takes 4 octets and those of its encoding. These are
    /// counted before any page is touched. The pages are set together, each once; a batch of at most 262,144 octets sets
    /// at most 17. After a refusal nothing is set.
    pub fn append<P: Pages>(
        &mut self,
        alloc: Global,
        pages: &mut P,
        batch: &[Admission],
    ) -> Result<(), IntakeError>
        requires ring { IsRing (P.homes pages.old) self.old }
        ensures appended { OnOk result ((start : Start) (shown : List (List ℕ)) (waits : List Admitted) → P.shows pages.old start shown → RingRepresents shown self.old waits → Gains (P.shows pages.new start) shown self.new (waits ++ batch.now)) }
        ensures added { OnOk result ((start : Start) (shown : List (List ℕ)) → P.shows pages.old start shown → Adds (P.shows pages.new start) shown self.old (flat_map entry batch.now)) }
        ensures place { OnOk result (self.new ≡ record self.old { used = self.old.used + octets_for batch.now }) }
        ensures full { (result ≡ Err IntakeError.IntakeFull) ↔ (size_of self.old < self.old.used + octets_for batch.now) }
        ensures untouched { result ≡ Err IntakeError.IntakeFull → pages.new ≡ pages.old }

        ensures as_before { OnErr result (self.new ≡ self.old) }
        ensures nothing { OnErr result (OnlyReads P.Pages pages.old pages.new (result ≡ Err (IntakeError.Pages pages_refusals.Fault))) }

        // Images are held of the pages that hold an octet of the batch, and of those held before. One transaction holds
        // images of at most 31 pages; a batch within its limit needs at most 17 more.
        ensures set { OnOk result (ListsAfter self.old (octets_for batch.now) (P.named pages.old) (P.named pages.new)) }
        ensures room { result ≡ Err (IntakeError.Pages pages_refusals.TooManyImages) → Crowds self.old (octets_for batch.now) (P.named pages.old) }
        ensures few { OnOk result (length (P.named pages.new) ≤ length (P.named pages.old) + most_pages (octets_for batch.now)) }
        ensures few_of_batch { sum_by entry_octets batch.now ≤ 262144 → OnOk result (length (P.named pages.new) ≤ length (P.named pages.old) + 17) }
        ensures room_of_batch { sum_by entry_octets batch.now ≤ 262144 → length (P.named pages.old) ≤ 14 → result ≢ Err (IntakeError.Pages pages_refusals.TooManyImages) }
        ensures refused { IfErr result (AppendRefusal (P.down pages.old) (P.homes pages.old) (P.next pages.old) (length (P.named pages.old) + most_pages (octets_for batch.now))) }

        ensures ring { IsRing (P.homes pages.new) self.new }
        ensures homes { P.homes pages.new ≡ P.homes pages.old }
        ensures next { P.next pages.new ≡ P.next pages.old }
        ensures down { P.down pages.new ≡ P.down pages.old }
        ensures device { KeepsDevice (P.honest pages.old) (P.honest pages.new) (P.faults pages.old) (P.faults pages.new) (result ≡ Err (IntakeError.Pages pages_refusals.Fault)) }
    {
        let Some(octets) = octets_within(self.free(), batch) else {
            return Err(IntakeError::IntakeFull);
        };
        let images = draft(alloc, pages, *self, octets, batch)?;
        let unused = pages.next_page();
        pages.lay(images, unused)?;
        self.used += octets;
        rings_hold_one_list();
        Ok(())
    }
}
