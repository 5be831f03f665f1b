//! Keys.

use super::small::peer;
use crate::be;
use route_model::{Address, Key, KeyParts, Peer, Prefix};

/// The key of 10.0.0.0/8 of peer 192.0.2.1, AS 65001, at collector 0.
const KEY: [u8; 40] = [
    0, 4, 0xC0, 0, 2, 1, 0, 0, 0, 0, 0, 0, 0, 0, 0, 0, 0, 0, 0, 0, 0xFD, 0xE9, 4, 10, 0, 0, 0, 0,
    0, 0, 0, 0, 0, 0, 0, 0, 0, 0, 0, 8,
];

fn ten() -> Prefix {
    Prefix::containing(Address::V4([10, 0, 0, 0]), 8)
}

#[test]
fn keys_are_made_and_taken_apart(rt: HostRuntime) {
    let key = Key::prefix(&peer(), &ten());
    be(&rt, key.to_octets() == KEY, "keys are made and taken apart");
    be(
        &rt,
        Key::from_octets(&KEY) == key,
        "keys are made and taken apart",
    );
    be(
        &rt,
        key.parts() == Some(KeyParts::Prefix(peer(), ten())),
        "keys are made and taken apart",
    );
    be(
        &rt,
        KeyParts::Prefix(peer(), ten()).key() == key,
        "keys are made and taken apart",
    );
    let mut octets = [0u8; 40];
    octets[0..22].copy_from_slice(&KEY[..22]);
    let session = Key::session(&peer());
    be(
        &rt,
        session.to_octets() == octets,
        "keys are made and taken apart",
    );
    be(
        &rt,
        session.parts() == Some(KeyParts::Session(peer())),
        "keys are made and taken apart",
    );
}

#[test]
fn other_octets_are_no_key(rt: HostRuntime) {
    let mut octets = KEY;
    octets[22] = 5;
    be(&rt, Key::from_octets(&octets).parts() == None, "no kind");
    let mut octets = KEY;
    octets[22] = 0;
    be(
        &rt,
        Key::from_octets(&octets).parts() == None,
        "a session with a prefix",
    );
    let mut octets = KEY;
    octets[24] = 1;
    be(
        &rt,
        Key::from_octets(&octets).parts() == None,
        "bits past the length",
    );
    let mut octets = KEY;
    octets[39] = 33;
    be(
        &rt,
        Key::from_octets(&octets).parts() == None,
        "a length above 32",
    );
    let mut octets = KEY;
    octets[1] = 0;
    be(&rt, Key::from_octets(&octets).parts() == None, "no peer");
}

#[test]
fn keys_stand_in_the_order_of_rows(rt: HostRuntime) {
    let later = Peer {
        collector: 0,
        address: Address::V4([192, 0, 2, 1]),
        as_number: 65002,
    };
    let nine = Prefix::containing(Address::V4([9, 128, 0, 0]), 16);
    let longer = Prefix::containing(Address::V4([10, 0, 0, 0]), 9);
    let six = Prefix::containing(Address::V6([0; 16]), 0);
    be(
        &rt,
        Key::session(&peer()) < Key::prefix(&peer(), &nine),
        "keys stand in the order of rows",
    );
    be(
        &rt,
        Key::prefix(&peer(), &nine) < Key::prefix(&peer(), &ten()),
        "keys stand in the order of rows",
    );
    be(
        &rt,
        Key::prefix(&peer(), &ten()) < Key::prefix(&peer(), &longer),
        "keys stand in the order of rows",
    );
    be(
        &rt,
        Key::prefix(&peer(), &longer) < Key::prefix(&peer(), &six),
        "keys stand in the order of rows",
    );
    be(
        &rt,
        Key::prefix(&peer(), &six) < Key::session(&later),
        "keys stand in the order of rows",
    );
}
