//! The lengths of encodings in octets, and that what is measured is a value of its type.

ghost use Rattle.std.specs.Prelude.{◌≡◌, ◌+◌, ◌*◌, ◌<◌, ◌≤◌, ◌^◌, IsTrue, IfSome, length};
ghost use Rattle.std.specs.List.{flat_map, AllByRecursion};
ghost use Rattle.route_model.specs.Encoding.{numbers_octets, segment, segments_octets, next_hop, optional, aggregator, attribute, attributes_octets, is_ascending, route_octets, AreNumbers, IsSegment, IsNextHop, IsAggregator, IsAttribute, IsRoute};

use crate::address::slice_of;
use crate::attribute::{Attribute, Attributes};
use crate::path::{AsNumbers, Path, Segment};
use crate::route::{Aggregator, NextHop, Route};

fn each_number(numbers: &[u32]) -> usize
    ensures count { result ≡ length numbers.now }
    ensures each { AllByRecursion (λ n. n < 2 ^ 32) numbers.now }
{
    numbers.len()
}

fn numbers_len(numbers: &AsNumbers) -> usize
    ensures len { result ≡ length (numbers_octets numbers.now) }
    ensures few { result ≤ 1021 }
    ensures valid { AreNumbers numbers.now }
{
    1 + 4 * each_number(numbers.as_slice())
}

fn segment_len(s: &Segment) -> usize
    ensures len { result ≡ length (segment s.now) }
    ensures few { result ≤ 1022 }
    ensures valid { IsSegment s.now }
{
    match s {
        Segment::Set(numbers) => 1 + numbers_len(numbers),
        Segment::Sequence(numbers) => 1 + numbers_len(numbers),
    }
}

fn each_segment_len(segments: &[Segment]) -> usize
    requires { length segments.now < 65536 }
    ensures len { result ≡ length (flat_map segment segments.now) }
    ensures few { result ≤ 1022 * length segments.now }
    ensures valid { AllByRecursion IsSegment segments.now }
{
    let mut len = 0;
    for s in segments {
        len += segment_len(s);
    }
    len
}

fn path_len(path: &Path) -> usize
    ensures len { result ≡ length (segments_octets path.now) }
    ensures few { result ≤ 67108864 }
    ensures count { length path.now < 2 ^ 16 }
    ensures valid { AllByRecursion IsSegment path.now }
{
    2 + each_segment_len(path.as_slice())
}

fn next_hop_len(hop: &NextHop) -> usize
    ensures len { result ≡ length (next_hop hop.now) }
    ensures few { result ≤ 33 }
    ensures valid { IsNextHop hop.now }
{
    match hop {
        NextHop::One(address) => 1 + address.as_slice().len(),
        NextHop::Pair(octets) => 1 + slice_of(octets).len(),
    }
}

fn optional_len(number: Option<u32>) -> usize
    ensures len { result ≡ length (optional number) }
    ensures few { result ≤ 4 }
    ensures valid { IfSome number (λ n. n < 2 ^ 32) }
{
    match number {
        Some(_n) => 4,
        None => 0,
    }
}

fn aggregator_len(of: &Option<Aggregator>) -> usize
    ensures len { result ≡ length (aggregator of.now) }
    ensures few { result ≤ 8 }
    ensures valid { IfSome of.now IsAggregator }
{
    match of {
        Some(a) => {
            let _number = a.as_number;
            4 + slice_of(&a.address).len()
        }
        None => 0,
    }
}

fn attribute_len(a: &Attribute) -> usize
    ensures len { result ≡ length (attribute a.now) }
    ensures few { result ≤ 65539 }
    ensures valid { IsAttribute a.now }
{
    let _kind = a.kind;
    let _flags = a.flags;
    4 + a.value.as_slice().len()
}

fn each_attribute_len(attributes: &[Attribute]) -> usize
    requires { length attributes.now < 65536 }
    ensures len { result ≡ length (flat_map attribute attributes.now) }
    ensures few { result ≤ 65539 * length attributes.now }
    ensures valid { AllByRecursion IsAttribute attributes.now }
{
    let mut len = 0;
    for a in attributes {
        len += attribute_len(a);
    }
    len
}

fn attributes_len(attributes: &Attributes) -> usize
    ensures len { result ≡ length (attributes_octets attributes.now) }
    ensures few { result ≤ 4296015872 }
    ensures count { length attributes.now < 2 ^ 16 }
    ensures valid { AllByRecursion IsAttribute attributes.now }
    ensures ascending { IsTrue (is_ascending attributes.now) }
{
    2 + each_attribute_len(attributes.as_slice())
}

/// The length in octets of a route's encoding.
#[tactic(auto, unfolding(crate::specs::Encoding::route_octets))]
pub(crate) fn route_len(r: &Route) -> usize
    ensures len { result ≡ length (route_octets r.now) }
    ensures valid { IsRoute r.now }
{
    2 + path_len(&r.path)
        + next_hop_len(&r.next_hop)
        + optional_len(r.med)
        + optional_len(r.local_pref)
        + aggregator_len(&r.aggregator)
        + attributes_len(&r.others)
}
