//! Values from outside: worked examples by their octets, and records with one fault each.

mod faults;
mod framing;
mod records;

use crate::octets;
use mrt_records::{Framer, Item};
use std::alloc::Global;
use std::process::Abort;

/// A message of 192.0.2.1, AS 65001: an UPDATE that announces 10.0.0.0/8.
const MESSAGE: &str = "65920080 0010 0001 0000003D FDE9 FC00 0000 0001 C0000201 C0000202
    FFFFFFFFFFFFFFFFFFFFFFFFFFFFFFFF 002D 02 0000 0014 40010100 4002060202FDE9FDEA 400304C0000201 080A";

/// The session of 192.0.2.1, AS 65001, goes from Established to Idle.
const STATE_CHANGE: &str =
    "65920080 0010 0000 00000014 FDE9 FC00 0000 0001 C0000201 C0000202 0006 0001";

/// One peer: 192.0.2.1, AS 65001 in four octets.
const PEER_TABLE: &str =
    "65920080 000D 0001 00000015 C0000202 0000 0001 02 C0000201 C0000201 0000FDE9";

/// 10.0.0.0/8 by the first peer of the table.
const RIB: &str = "65920080 000D 0002 00000028 00000000 08 0A 0001 0000 65920000 0018 40010100
    40020A02020000FDE90000FDEA 400304C0000201";

/// A message of 192.0.2.1, AS 65001, with AS numbers of four octets: an UPDATE that announces 2001:db8::/32.
const MESSAGE_AS4: &str = "65920080 0010 0004 00000059 0000FDE9 0000FC00 0000 0001 C0000201 C0000202
    FFFFFFFFFFFFFFFFFFFFFFFFFFFFFFFF 0045 02 0000 002E 40010100 40020A02020000FDE90000FDEA
    800E1A 0002 01 10 20010DB8000000000000000000000001 00 20 20010DB8";

/// As `MESSAGE`, with microseconds.
const MESSAGE_ET: &str = "65920080 0011 0001 00000041 0007A120 FDE9 FC00 0000 0001 C0000201 C0000202
    FFFFFFFFFFFFFFFFFFFFFFFFFFFFFFFF 002D 02 0000 0014 40010100 4002060202FDE9FDEA 400304C0000201 080A";

/// A session with AS numbers of four octets and IPv6 addresses is established, with microseconds.
const STATE_CHANGE_AS4_ET: &str = "65920080 0011 0005 00000034 000F423F 0000FDE9 0000FC00 0000 0002
    20010DB8000000000000000000000001 20010DB8000000000000000000000002 0005 0006";

/// 2001:db8::/32 by the first peer of the table.
const RIB_IPV6: &str =
    "65920080 000D 0004 00000038 00000000 20 20010DB8 0001 0000 65920000 0025 40010100
    40020A02020000FDE90000FDEA 800E11 10 20010DB8000000000000000000000001";

/// A record of this type and subtype, of 1704067200, whose body is these octets.
fn record(rt: &impl Abort, alloc: Global, kind: u16, subtype: u16, body: &[u8]) -> Vec<u8> {
    let mut out = Vec::new(alloc);
    out.extend_from_slice(&1_704_067_200u32.to_be_bytes())
        .expect(rt, "memory");
    out.extend_from_slice(&kind.to_be_bytes())
        .expect(rt, "memory");
    out.extend_from_slice(&subtype.to_be_bytes())
        .expect(rt, "memory");
    let len = u32::try_from(body.len()).expect(rt, "long");
    out.extend_from_slice(&len.to_be_bytes())
        .expect(rt, "memory");
    out.extend_from_slice(body).expect(rt, "memory");
    out
}

/// The items of octets that are fed at once, and that end with a record's end.
fn items(rt: &impl Abort, alloc: Global, bytes: &[u8]) -> Vec<Item> {
    let mut out = Vec::new(alloc);
    let mut framer = Framer::new(alloc);
    framer.feed(bytes, &mut out).expect(rt, "a record");
    framer.finish().expect(rt, "a record");
    out
}

/// The item of a record alone.
fn item(rt: &impl Abort, alloc: Global, bytes: &[u8]) -> Item {
    let mut out = items(rt, alloc, bytes);
    if out.len() > 1 {
        panic!(rt; "more than one item");
    }
    let item = out.pop().expect(rt, "no item");
    item
}
