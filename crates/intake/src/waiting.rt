//! The times of all that waits in a ring.
ghost use Rattle.std.specs.Prelude.{◌≡◌, ◌<◌, ◌≤◌, ◌+◌, ◌^◌, ◌++◌, ◌∷◌, [], ℕ, List, length, take, drop, OnOk, IfOk, IfErr, Err};
ghost use Rattle.std.specs.Int.{w32, w64, from_be_bytes, to_be_bytes};
ghost use Rattle.page_tx.specs.Start.{Start};
ghost use Rattle.page_tx.specs.declared.error.PageError.TheVariants as pages_refusals;
ghost use Rattle.intake.specs.Ring.{size_of, IsRing};
ghost use Rattle.intake.specs.Outlines.{page_of, ReportsTimes, BreaksAt};
ghost use Rattle.intake.specs.Calls.{OnlyReads, ReadRefusal};

use crate::error::ReadError;
use crate::reading::{number, read};
use crate::ring::{PAGE, Ring, wrap};
use page_tx::Pages;
use route_model::{MAX_ADMISSION_LEN, Moment};
use std::alloc::{AllocError, Global};

// The number in eight octets.
fn long_number(octets: &[u8]) -> u64
    requires { length octets.now ≡ 8 }
    ensures number { result ≡ from_be_bytes w64 octets.now }
    ensures octets { octets.now ≡ to_be_bytes w64 result }
{
    u64::from_be_bytes([
        octets[0], octets[1], octets[2], octets[3], octets[4], octets[5], octets[6], octets[7],
    ])
}

// The length of an entry's encoding, and the time that the encoding begins with.
fn length_and_time(front: &[u8]) -> (u32, u64)
    requires { length front.now ≡ 12 }
    ensures length { result.0 ≡ from_be_bytes w32 (take 4 front.now) }
    ensures time { result.1 ≡ from_be_bytes w64 (drop 4 front.now) }
    ensures length_octets { take 4 front.now ≡ to_be_bytes w32 result.0 }
    ensures time_octets { drop 4 front.now ≡ to_be_bytes w64 result.1 }
{
    let (length, time) = front.split_at(4);
    (number(length), long_number(time))
}

// Puts one more time at the end.
fn add_time(times: &mut Vec<Moment>, time: Moment) -> Result<(), AllocError>
    ensures { OnOk result (times.new.items ≡ times.old.items ++ time ∷ []) }
{
    times.push(time)?;
    Ok(())
}

// The page with the place `at` octets after the first used one.
fn page_under(ring: Ring, at: u64) -> u64
    requires small { ring.low + ring.count < 2 ^ 64 }
    requires few { ring.count ≤ 65535 }
    requires start { ring.first < size_of ring }
    requires at { at ≤ size_of ring }
    ensures page { result ≡ page_of ring at }
    ensures low { ring.low ≤ result }
    ensures high { result < ring.low + ring.count }
{
    ring.low + wrap(PAGE * ring.count, ring.first + at) / PAGE
}

// The time of the entry `at` octets after the first used one, and where the next one is.
fn time_at<P: Pages>(
    alloc: Global,
    pages: &mut P,
    ring: Ring,
    at: u64,
) -> Result<(Moment, u64), ReadError>
    requires ring { IsRing (P.homes pages.old) ring }
    requires some { at < ring.used }
    ensures reported { IfOk result (λ found. (start : Start) (shown : List (List ℕ)) (times : List ℕ) → P.shows pages.old start shown → ReportsTimes shown ring at times → ReportsTimes shown ring found.1 (times ++ found.0 ∷ [])) }
    ensures on { IfOk result (λ found. at < found.1) }
    ensures inside { IfOk result (λ found. found.1 ≤ ring.used) }
    ensures breaks { (page : ℕ) → result ≡ Err (ReadError.BadNode page) → (start : Start) (shown : List (List ℕ)) (times : List ℕ) → P.shows pages.old start shown → ReportsTimes shown ring at times → BreaksAt shown ring at }
    ensures page { (page : ℕ) → result ≡ Err (ReadError.BadNode page) → page ≡ page_of ring at }
    ensures inner { (page : ℕ) → result ≡ Err (ReadError.BadNode page) → (ring.low ≤ page) × (page < ring.low + ring.count) }
    ensures short { ring.used < at + 12 → (result ≡ Err (ReadError.BadNode (page_of ring at))) × (pages.new ≡ pages.old) }
    ensures refused { IfErr result (ReadRefusal (P.down pages.old)) }
    ensures same { OnlyReads P.Pages pages.old pages.new (result ≡ Err (ReadError.Pages pages_refusals.Fault)) }
{
    let damaged = ReadError::BadNode(page_under(ring, at));
    if ring.used - at < 12 {
        return Err(damaged);
    }
    let front = read(alloc, pages, ring, at, 12)?;
    let (len, time) = length_and_time(&front);
    let Some(moment) = Moment::new(time) else {
        return Err(damaged);
    };
    if len < 8 {
        return Err(damaged); // no room for a time
    }
    if u64::from(len) > (ring.used - at - 4).min(MAX_ADMISSION_LEN as u64) {
        return Err(damaged);
    }
    Ok((moment, at + 4 + u64::from(len)))
}

impl Ring {
    ghost use Rattle.std.specs.Prelude.{◌≡◌, ◌<◌, ◌≤◌, ◌+◌, ℕ, [], List, map, IfOk, IfErr, Err};
    ghost use Rattle.std.specs.Result.{IsOkAnd};
    ghost use Rattle.page_tx.specs.Start.{Start};
    ghost use Rattle.page_tx.specs.declared.error.PageError.TheVariants as pages_refusals;
    ghost use Rattle.route_model.specs.Admission.{Admitted};
    ghost use Rattle.intake.specs.Ring.{time_of, IsRing, RingRepresents};
    ghost use Rattle.intake.specs.Outlines.{page_of, ReportsTimes, BreaksAt};
    ghost use Rattle.intake.specs.Calls.{OnlyReads, ReadRefusal};

    /// The times of all that waits, in its order. Of each admission only its length and its time are read. If there is no
    /// length with a time after it, the error names the page on which it would begin. Changes aren't looked at. If no
    /// octet is used, or too few for a length and a time, no page is read. Otherwise a failed read or running out of memory
    /// may refuse it before damage is found.
    pub fn waiting_times<P: Pages>(
        &self,
        alloc: Global,
        pages: &mut P,
    ) -> Result<Vec<Moment>, ReadError>
        requires ring { IsRing (P.homes pages.old) self.now }
        ensures reported { IfOk result (λ times. (start : Start) (shown : List (List ℕ)) → P.shows pages.old start shown → ReportsTimes shown self.now self.now.used times.items) }
        ensures breaks { (page : ℕ) → result ≡ Err (ReadError.BadNode page) → (start : Start) (shown : List (List ℕ)) → P.shows pages.old start shown → (at : ℕ) × BreaksAt shown self.now at × (page ≡ page_of self.now at) }
        ensures none { (page : ℕ) → result ≡ Err (ReadError.BadNode page) → (start : Start) (shown : List (List ℕ)) (times : List ℕ) → P.shows pages.old start shown → ReportsTimes shown self.now self.now.used times → ⊥ }
        ensures times { IfOk result (λ times. (start : Start) (shown : List (List ℕ)) (waits : List Admitted) → P.shows pages.old start shown → RingRepresents shown self.now waits → times.items ≡ map time_of waits) }
        ensures damaged { (page : ℕ) → result ≡ Err (ReadError.BadNode page) → (start : Start) (shown : List (List ℕ)) (waits : List Admitted) → P.shows pages.old start shown → RingRepresents shown self.now waits → ⊥ }
        ensures page { (page : ℕ) → result ≡ Err (ReadError.BadNode page) → (self.now.low ≤ page) × (page < self.now.low + self.now.count) }
        ensures empty { self.now.used ≡ 0 → IsOkAnd result (λ times. times.items ≡ []) × (pages.new ≡ pages.old) }
        ensures short { 0 < self.now.used → self.now.used < 12 → (result ≡ Err (ReadError.BadNode (page_of self.now 0))) × (pages.new ≡ pages.old) }
        ensures refused { IfErr result (ReadRefusal (P.down pages.old)) }
        ensures same { OnlyReads P.Pages pages.old pages.new (result ≡ Err (ReadError.Pages pages_refusals.Fault)) }
    {
        let mut times = Vec::new(alloc);
        let mut at = 0;
        while at < self.used {
            let (time, next) = time_at(alloc, pages, *self, at)?;
            add_time(&mut times, time)?;
            at = next;
        }
        Ok(times)
    }
}
