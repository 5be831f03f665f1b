//! All that waits in a ring is read.
ghost use Rattle.std.specs.Prelude.{◌≡◌, ◌<◌, ◌≤◌, ◌-◌, ℕ, length};

use crate::error::ReadError;
use crate::ring::Ring;
use page_tx::Pages;
use std::alloc::Global;

impl Ring {
    ghost use Rattle.std.specs.Prelude.{◌≡◌, ◌<◌, ◌+◌, ℕ, List, length, IfOk, IfErr, Err};
    ghost use Rattle.page_tx.specs.Start.{Start};
    ghost use Rattle.page_tx.specs.declared.error.PageError.TheVariants as pages_refusals;
    ghost use Rattle.route_model.specs.Admission.{Admitted};
    ghost use Rattle.intake.specs.Ring.{IsRing, RingRepresents};
    ghost use Rattle.intake.specs.Outlines.{BreaksOn};
    ghost use Rattle.intake.specs.Calls.{OnlyReads, ReadRefusal};

    /// How many admissions wait. Each is read and decoded, and none is kept. If the octets that are used aren't those of admissions,
    /// the error has the page on which the first that is none would begin. A failed read and running out of memory may come first.
    pub fn count<P: Pages>(&self, alloc: Global, pages: &mut P) -> Result<u64, ReadError>
        requires ring { IsRing (P.homes pages.old) self.now }
        ensures waits { IfOk result (λ n. (start : Start) (shown : List (List ℕ)) → P.shows pages.old start shown → (waits : List Admitted) × RingRepresents shown self.now waits × (n ≡ length waits)) }
        ensures breaks { (page : ℕ) → result ≡ Err (ReadError.BadNode page) → (start : Start) (shown : List (List ℕ)) → P.shows pages.old start shown → BreaksOn shown self.now page }
        ensures sound { (page : ℕ) → result ≡ Err (ReadError.BadNode page) → (start : Start) (shown : List (List ℕ)) (waits : List Admitted) → P.shows pages.old start shown → RingRepresents shown self.now waits → ⊥ }
        ensures refused { IfErr result (ReadRefusal (P.down pages.old)) }
        ensures same { OnlyReads P.Pages pages.old pages.new (result ≡ Err (ReadError.Pages pages_refusals.Fault)) }
    {
        let mut rest = *self;
        let mut count = 0;
        while let Some(first) = rest.front(alloc, pages, None)? {
            rest.pop(first.admission());
            count += 1;
        }
        Ok(count)
    }
}
