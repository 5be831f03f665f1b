//! AS paths of both widths.

use super::{fault_of, gives, joined, put, put_count, reported, update};
use crate::{be, octets};
use bgp_update::MessageFault;
use route_model::wire::AsWidth;
use std::alloc::Global;
use std::process::Abort;

/// ORIGIN and NEXT_HOP, an AS_PATH, and further attributes.
fn with_path(rt: &impl Abort, alloc: Global, own: &str, more: &str) -> String {
    joined(rt, alloc, &["40010100 400304C0000201 4002", own, more])
}

/// Whether the route of these attributes has the path that is encoded so.
fn has_path(rt: &impl Abort, alloc: Global, own: &str, longer: &str, path: &str) -> bool {
    let attributes = with_path(rt, alloc, own, longer);
    let route = joined(rt, alloc, &["00", path, "04C0000201 00 0000"]);
    gives(rt, alloc, &attributes, AsWidth::Two, &route)
}

/// AS_PATH, the attributes after it, and the path of the route.
const PATHS: [(&str, &str, &str); 12] = [
    (
        "080203FDE95BA0FDEB",
        "C0110A0202FA56EA010000FDEB",
        "0002 0201 0000FDE9 0202 FA56EA01 0000FDEB",
    ),
    (
        "060202FDE9FDEA",
        "C0110E0203FA56EA010000FDEA0000FDEB",
        "0001 0202 0000FDE9 0000FDEA",
    ),
    (
        "080203000100020003",
        "C0110A01020001117000011171",
        "0002 0202 00000001 00000002 0102 00011170 00011171",
    ),
    (
        "0C0102000100020202 00030004",
        "C011060201 00011170",
        "0003 0102 00000001 00000002 0201 00000003 0201 00011170",
    ),
    (
        "0C0202000100020202 00030004",
        "C011060201 00011170",
        "0003 0202 00000001 00000002 0201 00000003 0201 00011170",
    ),
    (
        "0602020001 0002",
        "C0110A020200011170 00011171",
        "0001 0202 00011170 00011171",
    ),
    ("0602020001 0002", "C01100", "0001 0202 00000001 00000002"),
    (
        "080103000100020003",
        "C0110A020200011170 00011171",
        "0001 0103 00000001 00000002 00000003",
    ),
    (
        "0602020001 0002",
        "C011060301 00011170",
        "0001 0202 00000001 00000002",
    ),
    (
        "0602020001 0002",
        "C011080200 0201 00011170",
        "0002 0201 00000001 0201 00011170",
    ),
    ("080200 02020001 0002", "", "0001 0202 00000001 00000002"),
    ("00", "", "0000"),
];

#[test]
fn as4_path_is_laid_over_as_path(rt: HostRuntime) {
    for (own, longer, path) in &PATHS {
        be(
            &rt,
            has_path(&rt, rt.alloc(), own, longer, path),
            "as4 path is laid over as path",
        );
    }
}

/// AGGREGATOR and AS4_AGGREGATOR, the path of the route, and its aggregator.
const AGGREGATORS: [(&str, &str, &str); 6] = [
    (
        "C00706FDE9C0000201",
        "0002 0201 0000FDE9 0201 FA56EA01",
        "0000FDE9C0000201",
    ),
    (
        "C00706FDE9C0000201 C01208FA56EA01C0000202",
        "0001 0202 0000FDE9 00005BA0",
        "0000FDE9C0000201",
    ),
    (
        "C007065BA0C0000201 C01208FA56EA01C0000202",
        "0002 0201 0000FDE9 0201 FA56EA01",
        "FA56EA01C0000202",
    ),
    (
        "C00706FDE9C0000201 C01207FA56EA01C00002",
        "0002 0201 0000FDE9 0201 FA56EA01",
        "0000FDE9C0000201",
    ),
    (
        "C007080000FDE9C0000201 C01208FA56EA01C0000202",
        "0001 0202 0000FDE9 00005BA0",
        "0000FDE9C0000201",
    ),
    (
        "C0070800005BA0C0000201 C01208FA56EA01C0000202",
        "0002 0201 0000FDE9 0201 FA56EA01",
        "FA56EA01C0000202",
    ),
];

#[test]
fn aggregators_decide_whether_as4_path_counts(rt: HostRuntime) {
    for (aggregators, path, aggregator) in &AGGREGATORS {
        let more = joined(&rt, rt.alloc(), &[*aggregators, "C011060201FA56EA01"]);
        let attributes = with_path(&rt, rt.alloc(), "060202FDE95BA0", &more);
        let route = joined(
            &rt,
            rt.alloc(),
            &["00", *path, "04C0000201 08", *aggregator, "0000"],
        );
        be(
            &rt,
            gives(&rt, rt.alloc(), &attributes, AsWidth::Two, &route),
            aggregators,
        );
    }
}

#[test]
fn as4_aggregator_alone_is_left_aside(rt: HostRuntime) {
    be(
        &rt,
        has_path(
            &rt,
            rt.alloc(),
            "060202FDE95BA0",
            "C01208FA56EA01C0000202 C011060201FA56EA01",
            "0002 0201 0000FDE9 0201 FA56EA01",
        ),
        "as4 aggregator alone is left aside",
    );
}

#[test]
fn at_width_four_as4_attributes_are_left_aside(rt: HostRuntime) {
    let more = "C00708 00005BA0C0000201 C01208FA56EA01C0000202 C011060201FA56EA01";
    let attributes = with_path(&rt, rt.alloc(), "0A0202 0000FDE9 00005BA0", more);
    be(
        &rt,
        gives(
            &rt,
            rt.alloc(),
            &attributes,
            AsWidth::Four,
            "00 0001 0202 0000FDE9 00005BA0 04C0000201 08 00005BA0C0000201 0000",
        ),
        "at width four as4 attributes are left aside",
    );
}

/// Puts a sequence of COUNT times 65001.
fn put_sequence(rt: &impl Abort, path: &mut Vec<u8>, count: u8) {
    put(rt, path, &[2, count]);
    for _ in 0..count {
        put(rt, path, &[0, 0, 253, 233]);
    }
}

/// An UPDATE at width four whose AS_PATH has sequences of 255, 255 and this many numbers.
fn long_path(rt: &impl Abort, alloc: Global, last: u8, nlri: &str) -> Vec<u8> {
    let mut path = Vec::new(alloc);
    put_sequence(rt, &mut path, 255);
    put_sequence(rt, &mut path, 255);
    put_sequence(rt, &mut path, last);
    let mut attributes = octets(rt, alloc, "40010100 400304C0000201 5002");
    put_count(rt, &mut attributes, path.len());
    put(rt, &mut attributes, &path);
    update(rt, alloc, &attributes, nlri)
}

/// Why such an UPDATE is no message, or none where it is one.
fn long_fault(rt: &impl Abort, alloc: Global, last: u8, nlri: &str) -> Option<MessageFault> {
    fault_of(alloc, &long_path(rt, alloc, last, nlri), AsWidth::Four)
}

#[test]
fn a_route_of_3073_octets_is_too_large(rt: HostRuntime) {
    let fits = long_fault(&rt, rt.alloc(), 253, "080A");
    be(&rt, fits == None, "763 numbers");
    let large = long_fault(&rt, rt.alloc(), 254, "080A");
    be(
        &rt,
        large == Some(MessageFault::RouteTooLarge),
        "764 numbers",
    );
    let silent = long_fault(&rt, rt.alloc(), 254, "");
    be(&rt, silent == None, "nothing announced");
    be(
        &rt,
        reported(&rt, rt.alloc(), "", "", AsWidth::Two)
            .announced
            .is_none(),
        "a route of 3073 octets is too large",
    );
}
