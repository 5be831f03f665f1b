//! Reading the head: exactly the pages that encode one are accepted.

ghost use Rattle.std.specs.Prelude.{◌≡◌, ◌≤◌, ◌<◌, ◌+◌, ◌*◌, ℕ, length, IfOk, IfSome, IfNone, IsTrue, ◌↔◌};
ghost use Rattle.std.specs.List.{AllByRecursion};
ghost use Rattle.route_model.specs.declared.unit.Unit.{Unit as UnitValue};
ghost use Rattle.route_model.specs.Octets.{Encodes, number_at};
ghost use Rattle.route_model.specs.Units.{IsUnit, unit_number};
ghost use Rattle.archive_head.specs.Head.{Contents, IsLane, IsHead, octets_in};
ghost use Rattle.archive_head.specs.inner.Places.{lane_at, lanes_from, contents_at, IsNoMark, HasNoReading};

use crate::head::Head;
use crate::lane::Lane;
use crate::older::in_moments;
use disk_models::Page;
use route_model::octets::u64_at;
use route_model::{Mark, Moment, Unit};
use std::alloc::{AllocError, Global};

// What is kept of a collector at a place, or none if its mark is none.
fn read_lane(octets: &[u8], place: usize) -> Option<Lane>
    requires room { place + 64 ≤ length octets.now }
    ensures lane { IfSome result (λ lane. lane ≡ lane_at octets.now place) }
    ensures valid { IfSome result (λ lane. IsLane lane) }
    ensures none { IfNone result (IsNoMark octets.now place) }
{
    let mark = Mark::new(u64_at(octets, place + 16))?;
    Some(Lane {
        offered: u64_at(octets, place),
        admitted: u64_at(octets, place + 8),
        mark,
        first: u64_at(octets, place + 24),
        used: u64_at(octets, place + 32),
        since: u64_at(octets, place + 40),
    })
}

// What is kept of `count` collectors, or none if a mark is none.
fn read_lanes(alloc: Global, octets: &[u8], count: usize) -> Result<Option<Vec<Lane>>, AllocError>
    requires few { count ≤ 16 }
    requires room { length octets.now ≡ 16384 }
    ensures lanes { IfOk result (λ found. IfSome found (λ lanes. lanes.items ≡ lanes_from octets.now 0 count)) }
    ensures count { IfOk result (λ found. IfSome found (λ lanes. length lanes.items ≡ count)) }
    ensures valid { IfOk result (λ found. IfSome found (λ lanes. AllByRecursion IsLane lanes.items)) }
    ensures none { IfOk result (λ found. IfNone found ((i : ℕ) × (i < count) × IsNoMark octets.now (64 + 64 * i))) }
{
    let mut lanes = Vec::with_capacity(alloc, count)?;
    for i in 0..count {
        let Some(lane) = read_lane(octets, 64 + 64 * i) else {
            return Ok(None);
        };
        lanes.push(lane)?;
    }
    Ok(Some(lanes))
}

// What all places of a page say, or none if a mark or a time is none.
fn read_places(alloc: Global, octets: &[u8], count: usize) -> Result<Option<Head>, AllocError>
    requires few { count ≤ 16 }
    requires room { length octets.now ≡ 16384 }
    ensures head { IfOk result (λ found. IfSome found (λ head. head ≡ contents_at octets.now count)) }
    ensures count { IfOk result (λ found. IfSome found (λ head. length head.lanes ≡ count)) }
    ensures valid { IfOk result (λ found. IfSome found (λ head. IsHead head)) }
    ensures none { IfOk result (λ found. IfNone found (HasNoReading octets.now count)) }
{
    let Some(last) = Moment::new(u64_at(octets, 8)) else {
        return Ok(None);
    };
    let Some(lanes) = read_lanes(alloc, octets, count)? else {
        return Ok(None);
    };
    Ok(Some(Head {
        applied: u64_at(octets, 0),
        last,
        begun: u64_at(octets, 16),
        fresh: u64_at(octets, 24),
        block: u64_at(octets, 32),
        root: u64_at(octets, 40),
        lanes,
    }))
}

// The unit that a page names, if it is one.
fn unit_of(octets: &[u8]) -> Option<Unit>
    requires room { length octets.now ≡ 16384 }
    ensures unit { IfSome result IsUnit }
    ensures number { IfSome result (λ unit. unit_number unit ≡ number_at 8 48 octets.now) }
    ensures none { IfNone result ((unit : UnitValue) → IsUnit unit → unit_number unit ≡ number_at 8 48 octets.now → ⊥) }
{
    let number = u64_at(octets, 48);
    if number > 255 {
        return None;
    }
    Unit::of(number as u8)
}

// Whether a page is the encoding of the head in a unit.
fn is_encoded(alloc: Global, head: &Head, unit: Unit, page: &Page) -> Result<bool, AllocError>
    requires few { length head.now.lanes ≤ 16 }
    ensures encoded { IfOk result (λ is. IsTrue is ↔ (page.now ≡ octets_in unit head.now)) }
{
    let again = head.write_in(alloc, unit)?;
    Ok(again.octets() == page.octets())
}

// The head that the page encodes in a unit, its time and its marks as they are written.
fn read_in(
    alloc: Global,
    page: &Page,
    collectors: usize,
    unit: Unit,
) -> Result<Option<Head>, AllocError>
    requires few { collectors ≤ 16 }
    ensures head { IfOk result (λ found. IfSome found (λ head. Encodes IsHead (octets_in unit) head page.now)) }
    ensures collectors { IfOk result (λ found. IfSome found (λ head. length head.lanes ≡ collectors)) }
    ensures none { IfOk result (λ found. IfNone found ((head : Contents) → length head.lanes ≡ collectors → Encodes IsHead (octets_in unit) head page.now → ⊥)) }
    ensures one { IfOk result (λ found. IfSome found (λ head. (other : Contents) → length other.lanes ≡ collectors → Encodes IsHead (octets_in unit) other page.now → other ≡ head)) }
{
    let Some(head) = read_places(alloc, page.octets(), collectors)? else {
        return Ok(None);
    };
    if !is_encoded(alloc, &head, unit, page)? {
        return Ok(None);
    }
    Ok(Some(head))
}

impl Head {
    ghost use Rattle.std.specs.Prelude.{◌≡◌, ◌≤◌, length, IfOk, IfSome, IfNone};
    ghost use Rattle.archive_head.specs.Head.{Contents, EncodesHead, IsHead};

    /// The head of this many collectors that the page encodes, in moments. It is the only one; or none if the page encodes no such head.
    /// It fails if an allocation fails, and only then.
    pub fn read(alloc: Global, page: &Page, collectors: usize) -> Result<Option<Head>, AllocError>
        requires few { collectors ≤ 16 }
        ensures head { IfOk result (λ found. IfSome found (λ head. EncodesHead head page.now)) }
        ensures valid { IfOk result (λ found. IfSome found (λ head. IsHead head)) }
        ensures collectors { IfOk result (λ found. IfSome found (λ head. length head.lanes ≡ collectors)) }
        ensures none { IfOk result (λ found. IfNone found ((head : Contents) → length head.lanes ≡ collectors → EncodesHead head page.now → ⊥)) }
        ensures one { IfOk result (λ found. IfSome found (λ head. (other : Contents) → length other.lanes ≡ collectors → EncodesHead other page.now → other ≡ head)) }
    {
        let Some(unit) = unit_of(page.octets()) else {
            return Ok(None);
        };
        let Some(head) = read_in(alloc, page, collectors, unit)? else {
            return Ok(None);
        };
        if unit == Unit::written() {
            return Ok(Some(head));
        }
        in_moments(alloc, head, unit.moments())
    }
}
