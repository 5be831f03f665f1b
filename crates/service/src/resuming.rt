//! A feed that goes on where an earlier one of the same file ended.

ghost use Rattle.std.specs.Prelude.{◌≡◌, Ok, Some};
ghost use Rattle.route_meaning.specs.History.{History};
ghost use Rattle.mrt_records.specs.Values.{reported};
ghost use Rattle.service.specs.FeedTexts.{intake_in};
ghost use Rattle.service.specs.Resuming.{dropped_where, left_after, taken_at};
ghost use Rattle.service.specs.inner.Feeding.{TakesNext};

use archive_calls::RouteArchive;
use mrt_records::Item;
use resolve::{ResolveFault, Resolver, WithoutHop};
use route_model::Admission;
use std::alloc::Global;

/// How many admissions a feed of the collector drops: if it goes on, those that were offered until now.
pub(crate) fn dropped_where<A: RouteArchive>(archive: &A, collector: u8, resume: bool) -> u64
    ensures dropped { (h : History) → A.represents archive.now h → result ≡ dropped_where resume (intake_in h.intakes collector) }
{
    if !resume {
        return 0;
    }
    match archive.resume(collector) {
        Some(place) => place.offered,
        None => 0,
    }
}

/// The admission, unless it is among those that are still dropped.
fn keep(dropping: &mut u64, admission: Admission) -> Option<Admission>
    ensures kept { Ok result ≡ taken_at dropping.old (Ok (Some admission)) }
    ensures left { dropping.new ≡ left_after dropping.old (Ok (Some admission)) }
{
    if *dropping == 0 {
        return Some(admission);
    }
    *dropping -= 1;
    None
}

/// What is taken of the next record of a feed, if this many admissions are still dropped: what it means, but for an
/// admission that is dropped, which counts as none.
pub(crate) fn read_next(
    alloc: Global,
    rule: WithoutHop,
    resolver: &mut Resolver,
    dropping: &mut u64,
    item: &Item,
) -> Result<Option<Admission>, ResolveFault>
    ensures takes { TakesNext rule resolver.old resolver.new dropping.old dropping.new (reported item.now) result }
{
    match resolver.record(alloc, rule, item) {
        Ok(Some(admission)) => Ok(keep(dropping, admission)),
        Ok(None) => Ok(None),
        Err(fault) => Err(fault),
    }
}
