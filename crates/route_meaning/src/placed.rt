//! The admissions of several collectors in one order.

ghost use Rattle.std.specs.Prelude.{◌≡◌, ◌++◌, ◌≤◌, ◌&&◌, nat_le, map, length, IfOk, OnOk};
ghost use Rattle.route_meaning.specs.Merged.{placed, all_placed, merged};
ghost use Rattle.route_meaning.specs.Holds.{admitted_time, time_of};

use route_model::{Admission, Moment};
use std::alloc::{AllocError, Global};
use std::marker::Model;

/// An admission with the number of the collector that gave it.
#[derive(Debug, Drop)]
pub struct PlacedAdmission<'a> {
    collector: u8,
    admission: &'a Admission,
}

impl<'a> Model for PlacedAdmission<'a> {
    ghost use Rattle.route_model.specs.Admission.{Admitted};
    ghost use Rattle.route_meaning.specs.Merged.{Placed};

    ghost Value = { Placed Admitted };

    ghost view = { λ p. record { collector = p.collector; item = p.admission.now } };
}

impl<'a> PlacedAdmission<'a> {
    /// The admission of the collector with this number.
    pub fn new(collector: u8, admission: &'a Admission) -> PlacedAdmission<'a>
        ensures placed { result ≡ record { collector = collector; item = admission.now } }
    {
        PlacedAdmission {
            collector,
            admission,
        }
    }

    /// The number of the collector that gave it.
    pub fn collector(&self) -> u8
        ensures collector { result ≡ self.now.collector }
    {
        self.collector
    }

    /// The admission.
    pub fn admission(&self) -> &'a Admission
        ensures admission { result.now ≡ self.now.item }
    {
        self.admission
    }

    /// When it was admitted.
    pub fn time(&self) -> Moment
        ensures time { result ≡ self.now.item.time }
    {
        self.admission.time()
    }

    /// Does it count at the moment: is it of the moment, or of one before it?
    pub fn counts_at(&self, moment: Moment) -> bool
        ensures counts { result ≡ nat_le (time_of self.now) moment }
    {
        self.time() <= moment
    }

    /// Whether it is of a moment of the span from one moment to another, both included.
    pub fn is_between(&self, from: Moment, to: Moment) -> bool
        ensures between { result ≡ (nat_le from (time_of self.now) && nat_le (time_of self.now) to) }
    {
        from <= self.time() && self.counts_at(to)
    }
}

// Puts the admissions of one collector at the end.
fn place<'a>(
    all: &mut Vec<PlacedAdmission<'a>>,
    collector: u8,
    list: &'a [Admission],
) -> Result<(), AllocError>
    ensures { OnOk result (all.new.items ≡ all.old.items ++ map (placed collector) list.now) }
{
    for admission in list {
        all.push(PlacedAdmission::new(collector, admission))?;
    }
    Ok(())
}

// The admissions of one collector after another.
fn place_all<'a>(
    alloc: Global,
    lists: &[&'a [Admission]],
) -> Result<Vec<PlacedAdmission<'a>>, AllocError>
    requires { length lists.now ≤ 256 }
    ensures { IfOk result (λ all. all.items ≡ all_placed 0 (map (λ list. list.now) lists.now)) }
{
    let mut all = Vec::new(alloc);
    for (collector, list) in lists.iter().enumerate() {
        place(&mut all, collector as u8, list)?;
    }
    Ok(all)
}

/// The lists of the collectors 0, 1 and so on in one order: by time, then by collector, then as
/// they stand in the list of the collector. There are at most 256 collectors.
pub fn merge<'a>(
    alloc: Global,
    lists: &[&'a [Admission]],
) -> Result<Vec<PlacedAdmission<'a>>, AllocError>
    requires collectors { length lists.now ≤ 256 }
    ensures merged { IfOk result (λ all. all.items ≡ merged admitted_time (map (λ list. list.now) lists.now)) }
{
    let mut all = place_all(alloc, lists)?;
    all.sort_by_key(|placed| placed.time().number())?;
    Ok(all)
}
