//! Examples from RFC 4291, RFC 5952 and the rows of a feed.

use crate::be;
use crate::model::routes::{encoded, route};
use route_model::{Address, Aggregator, Mark, Moment, Origin, Route, Segment};
use route_text::{
    BadText, TextError, read_address, read_ipv4, read_ipv6, read_mark, read_moment, read_number,
    read_prefix, read_route, write_address, write_mark, write_moment, write_number, write_prefix,
    write_route,
};
use std::alloc::Global;
use std::process::Abort;

fn number_text(rt: &impl Abort, alloc: Global, number: u64) -> String {
    let mut out = String::new(alloc);
    write_number(&mut out, number).expect(rt, "memory");
    out
}

fn address_text(rt: &impl Abort, alloc: Global, address: &Address) -> String {
    let mut out = String::new(alloc);
    write_address(&mut out, address).expect(rt, "memory");
    out
}

fn route_text(rt: &impl Abort, alloc: Global, route: &Route) -> String {
    let mut out = String::new(alloc);
    write_route(&mut out, route).expect(rt, "memory");
    out
}

#[test]
fn numbers_are_written_and_read(rt: HostRuntime) {
    let zero = number_text(&rt, rt.alloc(), 0);
    be(&rt, zero.as_str() == "0", "0 is written");
    let last = number_text(&rt, rt.alloc(), 18446744073709551615);
    be(
        &rt,
        last.as_str() == "18446744073709551615",
        "the last number is written",
    );
    be(&rt, read_number("0", 9) == Ok(0), "0 is read");
    let last = read_number("18446744073709551615", u64::MAX);
    be(&rt, last == Ok(u64::MAX), "the last number is read");
    be(&rt, read_number("10", 10) == Ok(10), "the limit is read");
}

/// Texts of no number up to 10.
const NO_NUMBERS: [&str; 7] = ["", "+1", "-1", "01", "00", "1 ", "11"];

#[test]
fn other_numbers_are_refused(rt: HostRuntime) {
    for text in &NO_NUMBERS {
        be(&rt, read_number(text, 10).is_err(), text);
    }
    be(
        &rt,
        read_number("18446744073709551616", u64::MAX) == Err(BadText),
        "other numbers are refused",
    );
}

/// The address of these eight groups.
fn of_groups(groups: [u16; 8]) -> Address {
    let [a, b, c, d, e, f, g, h] = groups;
    let [a0, a1] = a.to_be_bytes();
    let [b0, b1] = b.to_be_bytes();
    let [c0, c1] = c.to_be_bytes();
    let [d0, d1] = d.to_be_bytes();
    let [e0, e1] = e.to_be_bytes();
    let [f0, f1] = f.to_be_bytes();
    let [g0, g1] = g.to_be_bytes();
    let [h0, h1] = h.to_be_bytes();
    Address::V6([
        a0, a1, b0, b1, c0, c1, d0, d1, e0, e1, f0, f1, g0, g1, h0, h1,
    ])
}

/// IPv4 addresses and their texts.
const IPV4_TEXTS: [([u8; 4], &str); 3] = [
    ([192, 0, 2, 1], "192.0.2.1"),
    ([0, 0, 0, 0], "0.0.0.0"),
    ([255, 255, 255, 255], "255.255.255.255"),
];

/// The groups of IPv6 addresses and their texts: RFC 5952 section 4, and RFC 4291 section 2.2 in that form.
const IPV6_TEXTS: [([u16; 8], &str); 9] = [
    ([0x2001, 0xdb8, 0, 0, 0, 0, 2, 1], "2001:db8::2:1"),
    ([0x2001, 0xdb8, 0, 1, 1, 1, 1, 1], "2001:db8:0:1:1:1:1:1"),
    ([0x2001, 0, 0, 1, 0, 0, 0, 1], "2001:0:0:1::1"),
    ([0x2001, 0xdb8, 0, 0, 1, 0, 0, 1], "2001:db8::1:0:0:1"),
    (
        [0x2001, 0xdb8, 8, 0x800, 0x200c, 0x417a, 0, 1],
        "2001:db8:8:800:200c:417a:0:1",
    ),
    ([0xff01, 0, 0, 0, 0, 0, 0, 0x101], "ff01::101"),
    ([0, 0, 0, 0, 0, 0, 0, 1], "::1"),
    ([0, 0, 0, 0, 0, 0, 0, 0], "::"),
    ([0, 0, 0, 0, 0, 0xffff, 0xc000, 0x201], "::ffff:c000:201"),
];

/// Whether the address has this text, and the text this address.
fn same(rt: &impl Abort, alloc: Global, address: Address, text: &str) -> bool {
    address_text(rt, alloc, &address).as_str() == text && read_address(text) == Ok(address)
}

#[test]
fn addresses_have_one_written_text(rt: HostRuntime) {
    for (octets, text) in &IPV4_TEXTS {
        be(&rt, same(&rt, rt.alloc(), Address::V4(*octets), text), text);
    }
    for (groups, text) in &IPV6_TEXTS {
        be(&rt, same(&rt, rt.alloc(), of_groups(*groups), text), text);
    }
}

/// Texts of 2001:db8:0:0:1:0:0:1, as in RFC 5952 section 2.
const FURTHER_TEXTS: [&str; 7] = [
    "2001:db8:0:0:1:0:0:1",
    "2001:0db8:0:0:1:0:0:1",
    "2001:db8::1:0:0:1",
    "2001:db8::0:1:0:0:1",
    "2001:0db8::1:0:0:1",
    "2001:db8:0:0:1::1",
    "2001:DB8:0:0:1::1",
];

#[test]
fn addresses_are_read_from_other_texts(rt: HostRuntime) {
    let address = of_groups([0x2001, 0xdb8, 0, 0, 1, 0, 0, 1]);
    for text in &FURTHER_TEXTS {
        be(&rt, read_address(text) == Ok(address), text);
    }
    // RFC 4291 section 2.2.
    let unicast = of_groups([
        0xabcd, 0xef01, 0x2345, 0x6789, 0xabcd, 0xef01, 0x2345, 0x6789,
    ]);
    let read = read_address("ABCD:EF01:2345:6789:ABCD:EF01:2345:6789");
    be(&rt, read == Ok(unicast), "eight groups");
    be(
        &rt,
        read_ipv4("10.0.0.255") == Ok([10, 0, 0, 255]),
        "10.0.0.255",
    );
    let [.., last] = read_ipv6("::1").expect(&rt, "::1");
    be(&rt, last == 1, "::1");
}

/// Texts of no address.
const NO_ADDRESSES: [&str; 12] = [
    "192.0.2.01",
    "192.0.2.256",
    "192.0.2",
    "192.0.2.1 ",
    "::ffff:192.0.2.1",
    "0:0:0:0:0:0:13.1.68.3",
    "1::2::3",
    "1:2:3:4:5:6:7::8:9",
    "1:2:3:4:5:6:7",
    "02001:db8::",
    "g::",
    "",
];

#[test]
fn other_addresses_are_refused(rt: HostRuntime) {
    for text in &NO_ADDRESSES {
        be(&rt, read_address(text).is_err(), text);
    }
    be(
        &rt,
        read_ipv4("::") == Err(BadText),
        "other addresses are refused",
    );
    be(
        &rt,
        read_ipv6("192.0.2.1") == Err(BadText),
        "other addresses are refused",
    );
}

/// Texts of prefixes, and those that are written: RFC 4291 section 2.3 first.
const PREFIXES: [(&str, &str); 7] = [
    ("2001:0DB8:0:CD30::/60", "2001:db8:0:cd30::/60"),
    (
        "2001:0DB8:0000:CD30:0000:0000:0000:0000/60",
        "2001:db8:0:cd30::/60",
    ),
    (
        "2001:db8:0:cd30:123:4567:89ab:cdef/60",
        "2001:db8:0:cd30::/60",
    ),
    ("10.255.3.4/9", "10.128.0.0/9"),
    ("0.0.0.0/0", "0.0.0.0/0"),
    ("192.0.2.1/32", "192.0.2.1/32"),
    ("::/128", "::/128"),
];

/// The written text of the prefix of a text.
fn prefix_text(rt: &impl Abort, alloc: Global, text: &str) -> String {
    let prefix = read_prefix(text).expect(rt, text);
    let mut out = String::new(alloc);
    write_prefix(&mut out, &prefix).expect(rt, text);
    out
}

#[test]
fn prefixes_are_read_and_written(rt: HostRuntime) {
    for (text, written) in &PREFIXES {
        be(
            &rt,
            prefix_text(&rt, rt.alloc(), text).as_str() == *written,
            text,
        );
    }
    let nine = read_prefix("10.255.3.4/9").expect(&rt, "a prefix");
    be(&rt, nine.length() == 9, "the length of a prefix");
}

/// Texts of no prefix.
const NO_PREFIXES: [&str; 7] = [
    "10.0.0.0",
    "10.0.0.0/",
    "10.0.0.0/33",
    "10.0.0.0/08",
    "10.0.0.0/8/8",
    "10/8",
    "::/129",
];

#[test]
fn other_prefixes_are_refused(rt: HostRuntime) {
    for text in &NO_PREFIXES {
        be(&rt, read_prefix(text).is_err(), text);
    }
}

/// Texts of moments, and their seconds and microseconds, which are those of a calendar: 2024-01-01 is day 19,723, and
/// 2106-02-07T06:28:15Z the last second that 32 bits hold.
const MOMENTS: [(&str, u32, u32); 13] = [
    ("1704067200", 1704067200, 0),
    ("2024-01-01T00:00:00Z", 1704067200, 0),
    ("2024-01-01T01:00:00+01:00", 1704067200, 0),
    ("1970-01-01T00:00:00Z", 0, 0),
    ("2106-02-07T06:28:15Z", 4294967295, 0),
    ("1704067200.5", 1704067200, 500000),
    ("1704067200.500000", 1704067200, 500000),
    ("2024-01-01T00:00:00.5Z", 1704067200, 500000),
    ("2024-01-01T00:00:00.000001Z", 1704067200, 1),
    ("0.000005", 0, 5),
    ("0.05", 0, 50000),
    ("1704067200.0", 1704067200, 0),
    ("4294967295.999999", 4294967295, 999999),
];

fn moment_of(rt: &impl Abort, text: &str) -> Moment {
    read_moment(text).expect(rt, text)
}

fn mark_of(rt: &impl Abort, text: &str) -> Mark {
    read_mark(text).expect(rt, text)
}

#[test]
fn moments_and_marks_are_read(rt: HostRuntime) {
    for (text, second, micros) in &MOMENTS {
        if *micros <= 999_999 {
            let expected = Moment::within(*second, *micros);
            be(&rt, moment_of(&rt, text) == expected, text);
            be(&rt, mark_of(&rt, text) == Mark::at(expected), text);
        }
    }
    let above = mark_of(&rt, "2106-02-07T06:28:16Z");
    be(&rt, above.number() == Mark::LAST, "the last mark as a time");
    let above = mark_of(&rt, "4294967296");
    be(
        &rt,
        above.number() == Mark::LAST,
        "the last mark as a number",
    );
}

#[test]
fn moments_and_marks_are_written(rt: HostRuntime) {
    let mut out = String::new(rt.alloc());
    write_moment(&mut out, moment_of(&rt, "2024-01-01T00:00:00Z")).expect(&rt, "memory");
    out.push('|').expect(&rt, "memory");
    write_mark(&mut out, mark_of(&rt, "4294967296")).expect(&rt, "memory");
    be(
        &rt,
        out.as_str() == "1704067200|4294967296",
        "a moment and a mark",
    );
}

/// Moments and how they are written.
const WRITTEN: [(u32, u32, &str); 4] = [
    (1704067200, 500000, "1704067200.500000"),
    (1704067200, 5, "1704067200.000005"),
    (0, 999999, "0.999999"),
    (4294967295, 123456, "4294967295.123456"),
];

#[test]
fn fractions_are_written_with_six_digits(rt: HostRuntime) {
    for (second, micros, expected) in &WRITTEN {
        let mut out = String::new(rt.alloc());
        if *micros <= 999_999 {
            write_moment(&mut out, Moment::within(*second, *micros)).expect(&rt, "memory");
        }
        be(&rt, out.as_str() == *expected, expected);
    }
}

/// Texts of no moment.
const NO_MOMENTS: [&str; 17] = [
    "4294967296",
    "4294967296.0",
    "2106-02-07T06:28:16Z",
    "2024-01-01 00:00:00Z",
    "2024-01-01T00:00:00.0000005Z",
    "1704067200.",
    ".5",
    "01.5",
    "1.1234567",
    "1.1000000",
    "1.+5",
    "1,5",
    "-1.5",
    "1.5.5",
    "1969-12-31T23:59:59Z",
    "2024-01-01T00:00:00",
    "01704067200",
];

#[test]
fn other_moments_are_refused(rt: HostRuntime) {
    for text in &NO_MOMENTS {
        be(&rt, read_moment(text).is_err(), text);
    }
    be(
        &rt,
        read_mark("4294967297") == Err(BadText),
        "other moments are refused",
    );
    be(
        &rt,
        read_mark("4294967296.000001") == Err(BadText),
        "other moments are refused",
    );
    be(
        &rt,
        read_mark("2106-02-07T06:28:17Z") == Err(BadText),
        "other moments are refused",
    );
}

const ROW: &str = "65001 65002|IGP|192.0.2.1|||NAG||";

fn route_in(rt: &impl Abort, alloc: Global, text: &str) -> Route {
    read_route(alloc, text).expect(rt, text)
}

/// Whether the route has this text.
fn has_text(rt: &impl Abort, alloc: Global, route: &Route, text: &str) -> bool {
    route_text(rt, alloc, route).as_str() == text
}

#[test]
fn a_row_is_written_and_read(rt: HostRuntime) {
    let route = route(&rt, rt.alloc(), &[65001, 65002], 0);
    be(
        &rt,
        has_text(&rt, rt.alloc(), &route, ROW),
        "a row is written",
    );
    let read = route_in(&rt, rt.alloc(), ROW);
    let octets = encoded(&rt, rt.alloc(), &read);
    be(
        &rt,
        octets == encoded(&rt, rt.alloc(), &route),
        "a row is read",
    );
}

/// A route with every field.
const FULL: &str =
    "65001 {65002,65003} 4200000001|INCOMPLETE|2001:db8::1 fe80::1|10|4294967295|AG|64512 192.0.2.9|8/c0/fde90064 32/e0/";

/// Whether the fields of a route are those of [`FULL`], and it has as many segments and other attributes.
fn is_full(route: &Route) -> bool {
    let aggregator = Aggregator {
        as_number: 64512,
        address: [192, 0, 2, 9],
    };
    route.origin == Origin::Incomplete
        && route.med == Some(10)
        && route.local_pref == Some(4294967295)
        && route.atomic_aggregate
        && route.aggregator == Some(aggregator)
        && route.path.as_slice().len() == 3
        && route.others.as_slice().len() == 2
}

#[test]
fn a_route_with_every_field_is_read_and_written(rt: HostRuntime) {
    let alloc = rt.alloc();
    let route = route_in(&rt, alloc, FULL);
    be(
        &rt,
        has_text(&rt, alloc, &route, FULL),
        "every field is written",
    );
    be(&rt, is_full(&route), "every field is read");
    let empty = route_in(&rt, alloc, "-|EGP|::|||NAG||");
    be(&rt, empty.path.as_slice().len() == 0, "no path is read");
    be(
        &rt,
        has_text(&rt, alloc, &empty, "-|EGP|::|||NAG||"),
        "no path is written",
    );
}

/// A first piece, a further one COUNT times, and the other fields of a route.
fn repeated(
    rt: &impl Abort,
    alloc: Global,
    first: &str,
    further: &str,
    count: usize,
    end: &str,
) -> String {
    let mut text = String::from_str(alloc, first).expect(rt, "memory");
    for _ in 0..count {
        text.push_str(further).expect(rt, "memory");
    }
    text.push_str(end).expect(rt, "memory");
    text
}

/// A path of 300 numbers has a sequence of 255 and one of 45.
#[test]
fn a_long_path_is_read(rt: HostRuntime) {
    let alloc = rt.alloc();
    let text = repeated(&rt, alloc, "1", " 1", 299, "|IGP|192.0.2.1|||NAG||");
    let route = route_in(&rt, alloc, &text);
    let segments = route.path.as_slice();
    be(&rt, segments.len() == 2, "two sequences");
    be(
        &rt,
        numbers_in(segments.first()) == 255,
        "the first sequence",
    );
    be(
        &rt,
        numbers_in(segments.last()) == 45,
        "the second sequence",
    );
    be(
        &rt,
        has_text(&rt, alloc, &route, &text),
        "a long path is written",
    );
}

/// How many numbers a sequence has.
fn numbers_in(segment: Option<&Segment>) -> usize {
    match segment {
        Some(Segment::Sequence(numbers)) => numbers.as_slice().len(),
        _ => 0,
    }
}

fn is_refused(alloc: Global, text: &str) -> bool {
    match read_route(alloc, text) {
        Ok(_) => false,
        Err(fault) => fault == TextError::BadText,
    }
}

/// Texts of no route.
const NO_ROUTES: [&str; 24] = [
    "",
    "65001|IGP|192.0.2.1|||NAG|",
    "65001|IGP|192.0.2.1|||NAG|||",
    "|IGP|192.0.2.1|||NAG||",
    "65001  65002|IGP|192.0.2.1|||NAG||",
    "65001 |IGP|192.0.2.1|||NAG||",
    "065001|IGP|192.0.2.1|||NAG||",
    "4294967296|IGP|192.0.2.1|||NAG||",
    "{}|IGP|192.0.2.1|||NAG||",
    "{1,2|IGP|192.0.2.1|||NAG||",
    "1|igp|192.0.2.1|||NAG||",
    "1|IGP||||NAG||",
    "1|IGP|2001:DB8::1|||NAG||",
    "1|IGP|2001:db8:0::1|||NAG||",
    "1|IGP|192.0.2.1 192.0.2.2|||NAG||",
    "1|IGP|192.0.2.1|+1||NAG||",
    "1|IGP|192.0.2.1||4294967296|NAG||",
    "1|IGP|192.0.2.1||||||",
    "1|IGP|192.0.2.1|||NAG|65001|",
    "1|IGP|192.0.2.1|||NAG||8/c0/f",
    "1|IGP|192.0.2.1|||NAG||8/C0/ff",
    "1|IGP|192.0.2.1|||NAG||256/c0/ff",
    "1|IGP|192.0.2.1|||NAG||9/c0/ 8/c0/",
    "1|IGP|192.0.2.1|||NAG||8/c0/ 8/c0/",
];

#[test]
fn other_routes_are_refused(rt: HostRuntime) {
    for text in &NO_ROUTES {
        be(&rt, is_refused(rt.alloc(), text), text);
    }
}

/// A set of 256 numbers is none.
#[test]
fn a_set_that_is_too_long_is_refused(rt: HostRuntime) {
    let alloc = rt.alloc();
    let text = repeated(&rt, alloc, "{1", ",1", 254, "}|IGP|192.0.2.1|||NAG||");
    let long = repeated(&rt, alloc, "{1", ",1", 255, "}|IGP|192.0.2.1|||NAG||");
    let route = route_in(&rt, alloc, &text);
    be(
        &rt,
        has_text(&rt, alloc, &route, &text),
        "a set of 255 numbers is read",
    );
    be(
        &rt,
        is_refused(alloc, &long),
        "a set that is too long is refused",
    );
}
