//! Peers.

ghost use Rattle.std.specs.Prelude.{◌≡◌, IfSome, Some, length};
ghost use Rattle.route_model.specs.Encoding.{peer_octets, IsPeer, EncodesPeer};

use crate::address::Address;
use crate::reading::read_peer;

/// A peer of a route collector.
#[derive(Clone, Copy, Debug, PartialEq, Eq, PartialOrd, Ord)]
pub struct Peer {
    /// The number of the collector, from 0.
    pub collector: u8,
    /// The address of the peer.
    pub address: Address,
    /// The peer's AS number, of four octets (RFC 6793).
    pub as_number: u32,
}

impl Peer {
    ghost use Rattle.route_model.specs.declared.peer.Peer.{Peer};

    /// The length in octets of a peer's encoding.
    pub const ENCODED_LEN: usize = 22;

    /// The length in octets of the peer's encoding: [`Peer::ENCODED_LEN`].
    pub fn encoded_len(&self) -> usize
        ensures len { result ≡ length (peer_octets self.now) }
        ensures valid { IsPeer self.now }
    {
        peer_len(self)
    }

    /// The unique encoding of the peer: collector, family, address (an IPv4 address followed by
    /// twelve zeros), AS number.
    pub fn encode(&self) -> [u8; 22]
        ensures encoding { EncodesPeer self.now result }
    {
        let _len = peer_len(self);
        let mut octets = [0u8; 22];
        octets[18..22].copy_from_slice(&self.as_number.to_be_bytes());
        octets[0] = self.collector;
        octets[1] = self.address.family();
        octets[2..18].copy_from_slice(&self.address.wide());
        octets
    }

    /// The peer that these octets encode, or none.
    pub fn decode(octets: &[u8]) -> Option<Peer>
        ensures found { IfSome result (λ p. EncodesPeer p octets.now) }
        ensures only { (p : Peer) → EncodesPeer p octets.now → result ≡ Some p }
    {
        let Ok((peer, _)) = read_peer(octets) else {
            return None;
        };
        if peer.encode().as_slice() == octets {
            Some(peer)
        } else {
            None
        }
    }
}

/// The length in octets of a peer's encoding.
pub(crate) fn peer_len(p: &Peer) -> usize
    ensures len { result ≡ length (peer_octets p.now) }
    ensures valid { IsPeer p.now }
{
    let _collector = p.collector;
    let _address = p.address.as_slice();
    let _number = p.as_number;
    Peer::ENCODED_LEN
}
