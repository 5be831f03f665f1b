//! Writing the head: the one page that encodes it in a unit.

ghost use Rattle.std.specs.Prelude.{◌≡◌, ◌≤◌, ◌++◌, length, replicate, flat_map, OnOk, IfOk};
ghost use Rattle.archive_head.specs.Head.{number, lane_octets};

use crate::head::Head;
use crate::lane::Lane;
use disk_models::{PAGE_SIZE, Page};
use route_model::Unit;
use std::alloc::{AllocError, Global};

// The octets of the head before its first collector, and of each collector.
const BEFORE_LANES: usize = 64;

const LANE: usize = 64;

// A number in eight octets.
#[tactic(auto, unfolding(crate::specs::Head::number))]
fn number_octets(n: u64) -> [u8; 8]
    ensures octets { result ≡ number n }
{
    n.to_be_bytes()
}

// Puts numbers at the end.
fn put_numbers(out: &mut Vec<u8>, numbers: &[u64]) -> Result<(), AllocError>
    ensures put { OnOk result (out.new.items ≡ out.old.items ++ flat_map number numbers.now) }
{
    for n in numbers {
        out.extend_from_slice(&number_octets(*n))?;
    }
    Ok(())
}

// Puts what is kept of a collector at the end.
fn put_lane(out: &mut Vec<u8>, lane: &Lane) -> Result<(), AllocError>
    ensures put { OnOk result (out.new.items ≡ out.old.items ++ lane_octets lane.now) }
{
    let mark = lane.mark.number();
    put_numbers(
        out,
        &[
            lane.offered,
            lane.admitted,
            mark,
            lane.first,
            lane.used,
            lane.since,
            0,
            0,
        ],
    )
}

// Puts what is kept of each collector at the end.
fn put_lanes(out: &mut Vec<u8>, lanes: &[Lane]) -> Result<(), AllocError>
    ensures put { OnOk result (out.new.items ≡ out.old.items ++ flat_map lane_octets lanes.now) }
{
    for lane in lanes {
        put_lane(out, lane)?;
    }
    Ok(())
}

// Puts zeros at the end.
fn put_zeros(out: &mut Vec<u8>, count: usize) -> Result<(), AllocError>
    ensures put { OnOk result (out.new.items ≡ out.old.items ++ replicate count 0) }
{
    for _ in 0..count {
        out.push(0)?;
    }
    Ok(())
}

impl Head {
    ghost use Rattle.std.specs.Prelude.{◌≡◌, ◌≤◌, length, IfOk};
    ghost use Rattle.archive_head.specs.Head.{head_octets, octets_in};

    // The octets of the head's page, in a unit.
    fn encode(&self, alloc: Global, unit: Unit) -> Result<Vec<u8>, AllocError>
        requires few { length self.now.lanes ≤ 16 }
        ensures encoded { IfOk result (λ octets. octets.items ≡ octets_in unit self.now) }
    {
        let mut out = Vec::with_capacity(alloc, PAGE_SIZE)?;
        let last = self.last.number();
        put_numbers(
            &mut out,
            &[
                self.applied,
                last,
                self.begun,
                self.fresh,
                self.block,
                self.root,
                u64::from(unit.number()),
                0,
            ],
        )?;
        put_lanes(&mut out, &self.lanes)?;
        put_zeros(&mut out, PAGE_SIZE - BEFORE_LANES - LANE * self.lanes.len())?;
        Ok(out)
    }

    // The page of the head, in a unit.
    pub(crate) fn write_in(&self, alloc: Global, unit: Unit) -> Result<Page, AllocError>
        requires few { length self.now.lanes ≤ 16 }
        ensures page { IfOk result (λ page. page ≡ octets_in unit self.now) }
    {
        let octets = self.encode(alloc, unit)?;
        Page::from_slice(alloc, &octets)
    }

    /// The page of the head. It fails if an allocation fails, and only then.
    pub fn write(&self, alloc: Global) -> Result<Page, AllocError>
        requires few { length self.now.lanes ≤ 16 }
        ensures page { IfOk result (λ page. page ≡ head_octets self.now) }
    {
        self.write_in(alloc, Unit::written())
    }
}
