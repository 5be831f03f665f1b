//! AS numbers and prefixes as records and messages have them: the octets are those of RFC 4271 section 4.3.

use crate::be;
use route_model::wire::{AsWidth, Family, as_number_at, octets_of, prefix_at};
use route_model::{Address, Prefix};

#[test]
fn as_numbers_have_two_widths(rt: HostRuntime) {
    let octets = [0, 0xFD, 0xE9, 0xFA, 0x56, 0xEA, 0];
    be(
        &rt,
        octets_of(AsWidth::Two) == 2,
        "as numbers have two widths",
    );
    be(
        &rt,
        octets_of(AsWidth::Four) == 4,
        "as numbers have two widths",
    );
    be(
        &rt,
        as_number_at(AsWidth::Two, &octets, 1) == 65001,
        "as numbers have two widths",
    );
    be(
        &rt,
        as_number_at(AsWidth::Four, &octets, 3) == 4_200_000_000,
        "as numbers have two widths",
    );
}

#[test]
fn prefixes_are_read_at_the_front(rt: HostRuntime) {
    let ten = Prefix::containing(Address::V4([10, 0, 0, 0]), 8);
    be(
        &rt,
        prefix_at(Family::Ipv4, &[8, 10, 9]) == Some((ten, 2)),
        "prefixes are read at the front",
    );
    let half = Prefix::containing(Address::V4([10, 128, 0, 0]), 9);
    be(
        &rt,
        prefix_at(Family::Ipv4, &[9, 10, 255]) == Some((half, 3)),
        "prefixes are read at the front",
    );
    let mut documented = [0u8; 16];
    documented[0..4].copy_from_slice(&[0x20, 0x01, 0x0D, 0xB8]);
    let wide = Prefix::containing(Address::V6(documented), 32);
    let octets = [32, 0x20, 0x01, 0x0D, 0xB8];
    be(
        &rt,
        prefix_at(Family::Ipv6, &octets) == Some((wide, 5)),
        "prefixes are read at the front",
    );
    be(
        &rt,
        prefix_at(Family::Ipv6, &octets[..4]) == None,
        "prefixes are read at the front",
    );
    be(
        &rt,
        prefix_at(Family::Ipv4, &[33, 10, 0, 0, 0, 0]) == None,
        "prefixes are read at the front",
    );
    be(
        &rt,
        prefix_at(Family::Ipv4, &[]) == None,
        "prefixes are read at the front",
    );
}
