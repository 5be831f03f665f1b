//! Octets of a ring, and the admission that they encode.
ghost use Rattle.std.specs.Prelude.{◌≡◌, ◌<◌, ◌≤◌, ◌+◌, ◌++◌, ℕ, List, length, take, drop, OnOk, IfOk, IfErr, IsErrOf};
ghost use Rattle.std.specs.Int.{w32, from_be_bytes, to_be_bytes};
ghost use Rattle.page_tx.specs.Start.{Start};
ghost use Rattle.intake.specs.Ring.{IsRing, HasOctets};
ghost use Rattle.intake.specs.Calls.{OnlyReads, PageRefusal};

use crate::encoded::Encoded;
use crate::error::ReadError;
use crate::ring::{PAGE, Ring, wrap};
use page_tx::{PageError, Pages};
use route_model::MAX_ADMISSION_LEN;
use std::alloc::Global;

// Reads a first piece, within one page, of the `most` octets that begin `from` octets after the first used one.
fn read_piece<P: Pages>(
    pages: &mut P,
    ring: Ring,
    from: u64,
    most: usize,
    out: &mut Vec<u8>,
) -> Result<(), PageError>
    requires ring { IsRing (P.homes pages.old) ring }
    requires some { 0 < most }
    requires inside { from + most ≤ ring.used }
    ensures read { OnOk result ((n : ℕ) × (0 < n) × (n ≤ most) × (length out.new.items ≡ length out.old.items + n) × ((start : Start) (shown : List (List ℕ)) (stood : List ℕ) → P.shows pages.old start shown → length stood ≡ ring.used → HasOctets shown ring stood → out.new.items ≡ out.old.items ++ take n (drop from stood))) }
    ensures refused { IfErr result (PageRefusal (P.down pages.old)) }
    ensures same { OnlyReads P.Pages pages.old pages.new (IsErrOf result PageError.Fault) }
{
    let at = wrap(PAGE * ring.count, ring.first + from);
    let start = (at % PAGE) as usize;
    let len = most.min(16_384 - start);
    let number = ring.low + at / PAGE;
    pages.fetch(number)?;
    let Some(page) = pages.page(number) else {
        unreachable!();
    };
    let octets = page.octets();
    out.extend_from_slice(&octets[start..start + len])?;
    Ok(())
}

// Reads `len` octets, beginning `from` octets after the first used one.
pub fn read<P: Pages>(
    alloc: Global,
    pages: &mut P,
    ring: Ring,
    from: u64,
    len: usize,
) -> Result<Vec<u8>, PageError>
    requires ring { IsRing (P.homes pages.old) ring }
    requires inside { from + len ≤ ring.used }
    ensures len { IfOk result (λ octets. length octets.items ≡ len) }
    ensures read { IfOk result (λ octets. (start : Start) (shown : List (List ℕ)) (stood : List ℕ) → P.shows pages.old start shown → length stood ≡ ring.used → HasOctets shown ring stood → octets.items ≡ take len (drop from stood)) }
    ensures refused { IfErr result (PageRefusal (P.down pages.old)) }
    ensures same { OnlyReads P.Pages pages.old pages.new (IsErrOf result PageError.Fault) }
{
    let mut out = Vec::with_capacity(alloc, len)?;
    let mut done = 0;
    while done < len {
        read_piece(pages, ring, from + done as u64, len - done, &mut out)?;
        done = out.len();
    }
    Ok(out)
}

// The number in four octets.
pub fn number(octets: &[u8]) -> u32
    requires { length octets.now ≡ 4 }
    ensures number { result ≡ from_be_bytes w32 octets.now }
    ensures octets { octets.now ≡ to_be_bytes w32 result }
{
    u32::from_be_bytes([octets[0], octets[1], octets[2], octets[3]])
}

impl Ring {
    ghost use Rattle.std.specs.Prelude.{◌≡◌, ◌<◌, ◌≤◌, ◌+◌, ◌/◌, ℕ, List, length, slice_get, IfOk, IfErr, IfSome, IfNone, Ok, Err, None};
    ghost use Rattle.page_tx.specs.Start.{Start};
    ghost use Rattle.route_model.specs.Admission.{Admitted};
    ghost use Rattle.intake.specs.Ring.{entry, IsRing, RingRepresents};
    ghost use Rattle.intake.specs.Outlines.{IsFirst};
    ghost use Rattle.intake.specs.Calls.{OnlyReads, ReadRefusal};
    ghost use Rattle.page_tx.specs.declared.error.PageError.TheVariants as pages_refusals;

    /// The first admission that waits, none if nothing waits. If no admission is first, the error names the page on
    /// which it would begin. If no octet is used, or too few for a length, no page is read for it. Otherwise a failed
    /// read or running out of memory may refuse it before damage is found. One that is kept from an earlier read is
    /// returned where its octets still are the first: it isn't decoded again.
    pub fn front<P: Pages>(
        &self,
        alloc: Global,
        pages: &mut P,
        kept: Option<Encoded>,
    ) -> Result<Option<Encoded>, ReadError>
        requires ring { IsRing (P.homes pages.old) self.now }
        ensures front { IfOk result (λ front. (start : Start) (shown : List (List ℕ)) (waits : List Admitted) → P.shows pages.old start shown → RingRepresents shown self.now waits → front ≡ slice_get waits 0) }
        ensures none { IfOk result (λ front. IfNone front (self.now.used ≡ 0)) }
        ensures empty { self.now.used ≡ 0 → (result ≡ Ok None) × (pages.new ≡ pages.old) }
        ensures short { 0 < self.now.used → self.now.used < 4 → (result ≡ Err (ReadError.BadNode (self.now.low + self.now.first / 16384))) × (pages.new ≡ pages.old) }
        ensures first { IfOk result (λ front. IfSome front (λ a. (start : Start) (shown : List (List ℕ)) → P.shows pages.old start shown → IsFirst shown self.now a)) }
        ensures no_first { (page : ℕ) → result ≡ Err (ReadError.BadNode page) → (start : Start) (shown : List (List ℕ)) (a : Admitted) → P.shows pages.old start shown → IsFirst shown self.now a → ⊥ }
        ensures some { (page : ℕ) → result ≡ Err (ReadError.BadNode page) → 0 < self.now.used }
        ensures damaged { (page : ℕ) → result ≡ Err (ReadError.BadNode page) → (start : Start) (shown : List (List ℕ)) (waits : List Admitted) → P.shows pages.old start shown → RingRepresents shown self.now waits → ⊥ }
        ensures begins { (page : ℕ) → result ≡ Err (ReadError.BadNode page) → page ≡ self.now.low + self.now.first / 16384 }
        ensures fits { IfOk result (λ front. IfSome front (λ a. length (entry a) ≤ self.now.used)) }
        ensures refused { IfErr result (ReadRefusal (P.down pages.old)) }
        ensures same { OnlyReads P.Pages pages.old pages.new (result ≡ Err (ReadError.Pages pages_refusals.Fault)) }
    {
        let damaged = ReadError::BadNode(self.low + self.first / PAGE);
        if self.used == 0 {
            return Ok(None);
        }
        if self.used < 4 {
            return Err(damaged); // no length
        }
        let size = read(alloc, pages, *self, 0, 4)?;
        let len = number(&size);
        if u64::from(len) > (self.used - 4).min(MAX_ADMISSION_LEN as u64) {
            return Err(damaged); // a length that no admission here can have
        }
        let octets = read(alloc, pages, *self, 4, len as usize)?;
        let Some(admission) = Encoded::decode(alloc, octets, kept)? else {
            return Err(damaged); // octets that encode no admission
        };
        Ok(Some(admission))
    }
}
