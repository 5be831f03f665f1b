//! Records as octets: the worked examples of feeds and loads.

use crate::gathered::Gathered;
use std::alloc::Global;

/// A message of 192.0.2.1, AS 65001: an UPDATE that announces 10.0.0.0/8 by 65001 65002, at 1704067200.
pub(crate) const UPDATE: &str = "65920080 0010 0001 0000003D FDE9 FC00 0000 0001 C0000201 C0000202
    FFFFFFFFFFFFFFFFFFFFFFFFFFFFFFFF 002D 02 0000 0014 40010100 4002060202FDE9FDEA 400304C0000201 080A";

/// The same a second before.
pub(crate) const EARLIER: &str = "6592007F 0010 0001 0000003D FDE9 FC00 0000 0001 C0000201 C0000202
    FFFFFFFFFFFFFFFFFFFFFFFFFFFFFFFF 002D 02 0000 0014 40010100 4002060202FDE9FDEA 400304C0000201 080A";

/// An UPDATE without prefixes.
pub(crate) const EMPTY: &str = "65920080 0010 0001 00000027 FDE9 FC00 0000 0001 C0000201 C0000202
    FFFFFFFFFFFFFFFFFFFFFFFFFFFFFFFF 0017 02 0000 0000";

/// A prefix of 33 bits in NLRI.
pub(crate) const LONG_PREFIX: &str =
    "65920080 0010 0001 00000041 FDE9 FC00 0000 0001 C0000201 C0000202
    FFFFFFFFFFFFFFFFFFFFFFFFFFFFFFFF 0031 02 0000 0014 40010100 4002060202FDE9FDEA 400304C0000201 210A00000000";

pub(crate) const NOTIFICATION: &str =
    "65920080 0010 0001 00000025 FDE9 FC00 0000 0001 C0000201 C0000202
    FFFFFFFFFFFFFFFFFFFFFFFFFFFFFFFF 0015 03 0602";

/// Two prefixes, 10.0.0.0/8 and 10.128.0.0/9; the bits of the second are set past its length.
pub(crate) const TWO_PREFIXES: &str =
    "65920080 0010 0001 00000040 FDE9 FC00 0000 0001 C0000201 C0000202
    FFFFFFFFFFFFFFFFFFFFFFFFFFFFFFFF 0030 02 0000 0014 40010100 4002060202FDE9FDEA 400304C0000201 080A 090AFF";

/// An UPDATE that announces 2001:db8::/32 by 65001 65002.
pub(crate) const IPV6: &str =
    "65920080 0010 0004 00000059 0000FDE9 0000FC00 0000 0001 C0000201 C0000202
    FFFFFFFFFFFFFFFFFFFFFFFFFFFFFFFF 0045 02 0000 002E 40010100 40020A02020000FDE90000FDEA
    800E1A 0002 01 10 20010DB8000000000000000000000001 00 20 20010DB8";

/// The session of the peer ends.
pub(crate) const SESSION_DOWN: &str =
    "65920080 0010 0000 00000014 FDE9 FC00 0000 0001 C0000201 C0000202 0006 0001";

/// An UPDATE that withdraws 10.0.0.0/8.
pub(crate) const WITHDRAWAL: &str =
    "65920080 0010 0001 00000029 FDE9 FC00 0000 0001 C0000201 C0000202
    FFFFFFFFFFFFFFFFFFFFFFFFFFFFFFFF 0019 02 0002 080A 0000";

/// The UPDATE with the path 65001 65003.
pub(crate) const OTHER_PATH: &str =
    "65920080 0010 0001 0000003D FDE9 FC00 0000 0001 C0000201 C0000202
    FFFFFFFFFFFFFFFFFFFFFFFFFFFFFFFF 002D 02 0000 0014 40010100 4002060202FDE9FDEB 400304C0000201 080A";

/// The first announcement without its time.
pub(crate) const AFTER_TIME: &str = "0010 0001 0000003D FDE9 FC00 0000 0001 C0000201 C0000202
    FFFFFFFFFFFFFFFFFFFFFFFFFFFFFFFF 002D 02 0000 0014 40010100 4002060202FDE9FDEA 400304C0000201 080A";

/// An UPDATE without prefixes, without its time.
pub(crate) const EMPTY_AFTER_TIME: &str = "0010 0001 00000027 FDE9 FC00 0000 0001 C0000201 C0000202
    FFFFFFFFFFFFFFFFFFFFFFFFFFFFFFFF 0017 02 0000 0000";

/// The first announcement without its last octet.
pub(crate) const CUT_UPDATE: &str =
    "65920080 0010 0001 0000003D FDE9 FC00 0000 0001 C0000201 C0000202
    FFFFFFFFFFFFFFFFFFFFFFFFFFFFFFFF 002D 02 0000 0014 40010100 4002060202FDE9FDEA 400304C0000201 08";

/// The first announcement, with 10.0.0.0/8 in the withdrawn field too.
pub(crate) const BOTH_PLACES: &str =
    "65920080 0010 0001 0000003F FDE9 FC00 0000 0001 C0000201 C0000202
    FFFFFFFFFFFFFFFFFFFFFFFFFFFFFFFF 002F 02 0002 080A 0014 40010100 4002060202FDE9FDEA 400304C0000201 080A";

/// AS_PATH is 65001 23456 65003, and AS4_PATH 4200000001 65003.
pub(crate) const JOINED: &str = "65920080 0010 0001 0000004C FDE9 FC00 0000 0001 C0000201 C0000202
    FFFFFFFFFFFFFFFFFFFFFFFFFFFFFFFF 003C 02 0000 0023 40010100 4002080203FDE95BA0FDEB 400304C0000201
    C0110A0202FA56EA010000FDEB 080A";

/// AS_PATH has two numbers, and AS4_PATH three.
pub(crate) const LONGER: &str = "65920080 0010 0001 0000004E FDE9 FC00 0000 0001 C0000201 C0000202
    FFFFFFFFFFFFFFFFFFFFFFFFFFFFFFFF 003E 02 0000 0025 40010100 4002060202FDE9FDEA 400304C0000201
    C0110E0203FA56EA010000FDEA0000FDEB 080A";

/// As `JOINED`, with AGGREGATOR, whose number has two octets, and no AS4_AGGREGATOR.
pub(crate) const AGGREGATED: &str =
    "65920080 0010 0001 00000055 FDE9 FC00 0000 0001 C0000201 C0000202
    FFFFFFFFFFFFFFFFFFFFFFFFFFFFFFFF 0045 02 0000 002C 40010100 4002080203FDE95BA0FDEB 400304C0000201
    C00706FDE9C0000201 C0110A0202FA56EA010000FDEB 080A";

/// The first announcement as type 17, after its microseconds.
pub(crate) const AFTER_MICROSECONDS: &str = "FDE9 FC00 0000 0001 C0000201 C0000202
    FFFFFFFFFFFFFFFFFFFFFFFFFFFFFFFF 002D 02 0000 0014 40010100 4002060202FDE9FDEA 400304C0000201 080A";

/// The end of the session as type 17, half a second and a microsecond after its time.
pub(crate) const EXTENDED_DOWN: &str =
    "65920080 0011 0000 00000018 0007A121 FDE9 FC00 0000 0001 C0000201 C0000202 0006 0001";

/// An UPDATE of 10.0.0.0/8 by a path of 763 numbers in three segments: up to the first of them.
pub(crate) const BEFORE_763: &str =
    "65920080 0010 0001 00000634 FDE9 FC00 0000 0001 C0000201 C0000202
    FFFFFFFFFFFFFFFFFFFFFFFFFFFFFFFF 0624 02 0000 060B 40010100 500205FC";

/// The same by a path of 764.
pub(crate) const BEFORE_764: &str =
    "65920080 0010 0001 00000636 FDE9 FC00 0000 0001 C0000201 C0000202
    FFFFFFFFFFFFFFFFFFFFFFFFFFFFFFFF 0626 02 0000 060D 40010100 500205FE";

/// An UPDATE of 256 prefixes, which are to follow: 10.0.0.0/24 to 10.0.255.0/24.
pub(crate) const BEFORE_256: &str =
    "65920080 0010 0001 0000043B FDE9 FC00 0000 0001 C0000201 C0000202
    FFFFFFFFFFFFFFFFFFFFFFFFFFFFFFFF 042B 02 0000 0014 40010100 4002060202FDE9FDEA 400304C0000201";

/// The same of 257, of which the last is 10.1.0.0/24.
pub(crate) const BEFORE_257: &str =
    "65920080 0010 0001 0000043F FDE9 FC00 0000 0001 C0000201 C0000202
    FFFFFFFFFFFFFFFFFFFFFFFFFFFFFFFF 042F 02 0000 0014 40010100 4002060202FDE9FDEA 400304C0000201";

/// A record of another type.
pub(crate) const SKIPPED: &str = "65920080 000B 0001 00000001 00";

/// One peer: 192.0.2.1, AS 65001.
pub(crate) const PEER_TABLE: &str =
    "65920080 000D 0001 00000015 C0000202 0000 0001 02 C0000201 C0000201 0000FDE9";

/// 10.0.0.0/8 by the first peer of the table.
pub(crate) const RIB: &str =
    "65920080 000D 0002 00000028 00000000 08 0A 0001 0000 65920000 0018 40010100
    40020A02020000FDE90000FDEA 400304C0000201";

/// The same by a second peer, whom the table hasn't.
pub(crate) const RIB_OF_SECOND: &str =
    "65920080 000D 0002 00000028 00000000 08 0A 0001 0001 65920000 0018 40010100
    40020A02020000FDE90000FDEA 400304C0000201";

/// An entry without a next hop.
pub(crate) const RIB_WITHOUT_HOP: &str =
    "65920080 000D 0002 00000021 00000000 08 0A 0001 0000 65920000 0011 40010100
    40020A02020000FDE90000FDEA";

/// Such an entry, that of `RIB`, and one without attributes.
pub(crate) const RIB_OF_THREE: &str =
    "65920080 000D 0002 00000049 00000000 08 0A 0003 0000 65920000 0011 40010100
    40020A02020000FDE90000FDEA 0000 65920000 0018 40010100 40020A02020000FDE90000FDEA 400304C0000201
    0000 65920000 0000";

/// 2001:db8::/32 by the first peer; MP_REACH_NLRI has the next hop alone.
pub(crate) const RIB_IPV6: &str =
    "65920080 000D 0004 00000038 00000000 20 20010DB8 0001 0000 65920000 0025 40010100
    40020A02020000FDE90000FDEA 800E11 10 20010DB8000000000000000000000001";

/// The same; MP_REACH_NLRI is as in an UPDATE.
pub(crate) const RIB_IPV6_FULL: &str =
    "65920080 000D 0004 0000003C 00000000 20 20010DB8 0001 0000 65920000 0029 40010100
    40020A02020000FDE90000FDEA 800E15 0002 01 10 20010DB8000000000000000000000001 00";

/// 10.0.0.0/8 without ORIGIN.
pub(crate) const RIB_WITHOUT_ORIGIN: &str =
    "65920080 000D 0002 00000026 00000000 08 0A 0001 0000 65920000 0016
    40020C 0200 02020000FDE90000FDEA 400304C0000201";

/// 10.0.0.0/8 with NEXT_HOP alone.
pub(crate) const RIB_OF_NEXT_HOP: &str =
    "65920080 000D 0002 00000017 00000000 08 0A 0001 0000 65920000 0007 400304C0000201";

/// The peer table without its last octet.
pub(crate) const CUT_PEER_TABLE: &str =
    "65920080 000D 0001 00000014 C0000202 0000 0001 02 C0000201 C0000201 0000FD";

/// Another peer: 10.0.0.0, AS 65001.
pub(crate) const OTHER_PEER_TABLE: &str =
    "65920080 000D 0001 00000015 C0000202 0000 0001 02 C0000201 0A000000 0000FDE9";

/// A peer table that counts 65,535 peers, and has one.
pub(crate) const PEERS_UNCOUNTED: &str =
    "65920080 000D 0001 00000015 C0000202 0000 FFFF 02 C0000201 0A000000 0000FDE9";

/// A RIB record that counts 65,535 entries, and has one.
pub(crate) const ENTRIES_UNCOUNTED: &str =
    "65920080 000D 0002 0000001E 00000000 08 0A FFFF 0000 65920000 000E 40010100 400200 400304C0000201";

/// A header whose Length is 131,073.
pub(crate) const TOO_LONG: &str = "65920080 0010 0001 00020001";

/// A peer table of 46 peers of AS 65001, which are to follow: 8 octets and 11 for each.
const MANY_PEERS: &str = "65920080 000D 0001 00000202 C0000202 0000 002E";

/// How many peers it has.
const PEERS: u16 = 46;

impl Gathered {
    /// Adds a peer table of 46 peers: 10.0.0.0 to 10.0.0.45.
    fn add_peers(&mut self) {
        self.add_hex(MANY_PEERS);
        for peer in 0..PEERS {
            self.add_hex("00 C0000201 0A00");
            self.add(&peer.to_be_bytes());
            self.add_hex("FDE9");
        }
    }

    /// Adds the RIB entry of a peer: an empty path by 192.0.2.1, and an attribute of type 99 with 2,802 octets and this many
    /// more, the peer's number at their front.
    fn add_entry(&mut self, peer: u16, more: u8) {
        self.add(&peer.to_be_bytes());
        self.add_hex("65920000");
        self.add(&(2820 + more as u16).to_be_bytes());
        self.add_hex("40010100 400200 400304C0000201 D063");
        self.add(&(2802 + more as u16).to_be_bytes());
        self.add(&peer.to_be_bytes());
        for _ in 0..2800 + more as u16 {
            self.add(&[0]);
        }
    }

    /// Adds a RIB record of 10.0.0.0/8 with an entry of each of the 46 peers, the last with this many octets more. Its
    /// admission has 14 octets and for each entry 22 for the peer, 2 and 2,817 for the route, and 8 for the change: 131,068
    /// and these.
    fn add_entries(&mut self, more: u8) {
        self.add_hex("65920080 000D 0002");
        // 8 octets, and 2,828 for each entry.
        self.add(&(130_096 + more as u32).to_be_bytes());
        self.add_hex("00000000 08 0A 002E");
        for peer in 0..PEERS - 1 {
            self.add_entry(peer, 0);
        }
        self.add_entry(PEERS - 1, more);
    }
}

/// The octets of records.
pub(crate) fn stream(alloc: Global, records: &[&str]) -> Option<Vec<u8>> {
    let mut out = Gathered::new(alloc);
    for record in records {
        out.add_hex(record);
    }
    out.end()
}

/// The octets of records, of which this many are left where the stream is cut.
pub(crate) fn cut_stream(alloc: Global, records: &[&str], cut: Option<usize>) -> Option<Vec<u8>> {
    let mut octets = stream(alloc, records)?;
    if let Some(cut) = cut {
        octets.truncate(cut);
    }
    Some(octets)
}

/// 3,693 records, of which each admission has 67 octets: 3,692 of them are a batch of 262,132.
pub(crate) fn many_updates(alloc: Global) -> Option<Vec<u8>> {
    let one = stream(alloc, &[UPDATE])?;
    let mut out = Gathered::new(alloc);
    for _ in 0..3693 {
        out.add(&one);
    }
    out.end()
}

/// Two tables, each of one admission of 131,068 octets and this many more.
pub(crate) fn two_tables(alloc: Global, first: u8, second: u8) -> Option<Vec<u8>> {
    let mut out = Gathered::new(alloc);
    out.add_peers();
    out.add_entries(first);
    out.add_entries(second);
    out.end()
}
