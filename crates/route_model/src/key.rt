//! Keys of forty octets: of a peer's session, or of a peer's prefix.

ghost use Rattle.std.specs.Prelude.{◌≡◌, ◌<◌, ◌==◌, ℕ, List, length};
ghost use Rattle.std.specs.Cmp.Lexicographic.{slice_cmp};
ghost use Rattle.std.specs.Cmp.{partial_order_from_own_ties};
ghost use Rattle.std.specs.Cmp.Rules.{comparing};
ghost use Rattle.std.specs.Ordering.{nat_cmp, ordering_then, as_partial_cmp};
ghost use Rattle.std.specs.declared.cmp.Ordering.TheVariants.{Less};
ghost use Rattle.std.proofs.Common.{rules};
ghost use Rattle.route_model.specs.Octets.{AreOctets};
ghost use Rattle.route_model.specs.inner.Codec.{Reads};
ghost use Rattle.route_model.specs.inner.Codec.Admissions.{parts_at};
ghost use Rattle.route_model.specs.Keys.{number_of, key_number, session_number, peer_order, prefix_order};
ghost use Rattle.route_model.specs.Prefix.{IpPrefix, IsPrefix};
ghost use Rattle.route_model.specs.Encoding.{IsPeer};
ghost use Rattle.route_model.specs.declared.peer.Peer.{Peer as PeerValue};

use crate::address::{Address, slice_of};
use crate::fault::NoEncoding;
use crate::octets::u64_at;
use crate::peer::{Peer, peer_len};
use crate::prefix::Prefix;
use crate::reading::{read_octet, read_octets, read_peer};
use std::cmp::Ordering;
use std::marker::Model;

/// A key of forty octets, held as five words, so that keys are compared and hashed by words. It is
/// ordered as its octets are, which is the order of the number that they are.
///
/// Its octets: those of the peer (22), the kind (0 for the session, else the family of the prefix, 4
/// or 6), the address of the prefix (16, an IPv4 address followed by zeros), its length (1); all
/// zeros after the kind 0.
#[derive(Clone, Copy, Debug, Hash)]
pub struct Key {
    first: u64,
    second: u64,
    third: u64,
    fourth: u64,
    fifth: u64,
}

impl Model for Key {
    ghost use Rattle.std.specs.Prelude.{ℕ};

    ghost Value = { ℕ };

    ghost use Rattle.route_model.specs.KeyWords.{number_of_words, AreWords, words_of, words_of-number_of_words};

    ghost view = { number_of_words };

    ghost invariant = { AreWords };

    ghost inverse = { words_of };

    ghost inverse_ok = { words_of-number_of_words };
}

/// What a key is made of.
#[derive(Clone, Copy, Debug, PartialEq, Eq)]
pub enum KeyParts {
    /// The session of a peer.
    Session(Peer),
    /// A prefix of a peer.
    Prefix(Peer, Prefix),
}

impl Key {
    ghost use Rattle.std.specs.Prelude.{IfSome, Some, None, suc, ◌≡◌, ◌↔◌, ◌+◌, ◌-◌, ◌%◌, ◌^◌, length};
    ghost use Rattle.route_model.specs.Octets.{AreOctets};
    ghost use Rattle.route_model.specs.PeerKeys.{first_key, last_key, tail};
    ghost use Rattle.route_model.specs.Keys.{number_of, key_number, session_number, key_of, IsKeyParts};
    ghost use Rattle.route_model.specs.declared.key.KeyParts.{KeyParts};

    /// The key of a peer's session.
    pub fn session(peer: &Peer) -> Key
        ensures key { result ≡ session_number peer.now }
    {
        let mut octets = [0u8; 40];
        octets[..22].copy_from_slice(&peer.encode());
        Key::from_octets(&octets)
    }

    /// The key of a peer's prefix.
    pub fn prefix(peer: &Peer, prefix: &Prefix) -> Key
        ensures key { result ≡ key_number peer.now prefix.now }
    {
        let mut octets = [0u8; 40];
        octets[39] = prefix.length();
        octets[23..39].copy_from_slice(&prefix.address().wide());
        octets[22] = prefix.address().family();
        octets[0..22].copy_from_slice(&peer.encode());
        Key::from_octets(&octets)
    }

    /// The key of these octets.
    pub fn from_octets(octets: &[u8; 40]) -> Key
        ensures key { result ≡ number_of octets.now }
    {
        let octets = slice_of(octets);
        Key {
            first: u64_at(octets, 0),
            second: u64_at(octets, 8),
            third: u64_at(octets, 16),
            fourth: u64_at(octets, 24),
            fifth: u64_at(octets, 32),
        }
    }

    /// The octets of the key.
    pub fn to_octets(self) -> [u8; 40]
        ensures number { number_of result ≡ self }
        ensures size { length result ≡ 40 }
        ensures each { AreOctets result }
    {
        let mut octets = [0u8; 40];
        octets[32..40].copy_from_slice(&self.fifth.to_be_bytes());
        octets[24..32].copy_from_slice(&self.fourth.to_be_bytes());
        octets[16..24].copy_from_slice(&self.third.to_be_bytes());
        octets[8..16].copy_from_slice(&self.second.to_be_bytes());
        octets[0..8].copy_from_slice(&self.first.to_be_bytes());
        let _octets = slice_of(&octets);
        octets
    }

    /// What the key is made of, or none if no session and no prefix has this key.
    pub fn parts(self) -> Option<KeyParts>
        ensures found { IfSome result (λ parts. IsKeyParts parts × (self ≡ key_of parts)) }
        ensures only { (parts : KeyParts) → IsKeyParts parts → self ≡ key_of parts → result ≡ Some parts }
    {
        let octets = self.to_octets();
        let Ok(parts) = read_parts(&octets) else {
            return None;
        };
        if parts.key() == self {
            Some(parts)
        } else {
            None
        }
    }

    /// The first key of the peer among whose keys this one stands: that of its session.
    pub fn first_of_peer(self) -> Key
        ensures key { result ≡ first_key self }
    {
        Key {
            first: self.first,
            second: self.second,
            third: self.third - self.third % 65_536,
            fourth: 0,
            fifth: 0,
        }
    }

    /// The last key of that peer.
    pub fn last_of_peer(self) -> Key
        ensures key { result ≡ last_key self }
    {
        Key {
            first: self.first,
            second: self.second,
            third: self.third - self.third % 65_536 + 65_535,
            fourth: 18_446_744_073_709_551_615,
            fifth: 18_446_744_073_709_551_615,
        }
    }

    /// The key of a prefix of that peer.
    pub fn of_prefix(self, prefix: &Prefix) -> Key
        ensures key { result ≡ first_key self + tail prefix.now }
    {
        let whole = self.to_octets();
        let mut octets = [0u8; 40];
        octets[39] = prefix.length();
        octets[23..39].copy_from_slice(&prefix.address().wide());
        octets[22] = prefix.address().family();
        octets[..22].copy_from_slice(&whole[..22]);
        Key::from_octets(&octets)
    }

    /// The key after this one, or none if this is the last of all.
    pub fn next(self) -> Option<Key>
        ensures next { IfSome result (λ next. next ≡ suc self) }
        ensures last { (result ≡ None) ↔ (suc self ≡ 2 ^ 320) }
    {
        let Some(fifth) = self.fifth.checked_add(1) else {
            return self.next_of_four();
        };
        Some(Key { fifth, ..self })
    }

    // The same where the fifth word is the last.
    fn next_of_four(self) -> Option<Key>
        requires full { self % 2 ^ 64 ≡ 2 ^ 64 - 1 }
        ensures next { IfSome result (λ next. next ≡ suc self) }
        ensures last { (result ≡ None) ↔ (suc self ≡ 2 ^ 320) }
    {
        let Some(fourth) = self.fourth.checked_add(1) else {
            return self.next_of_three();
        };
        Some(Key {
            fourth,
            fifth: 0,
            ..self
        })
    }

    // The same where the last two words are the last.
    fn next_of_three(self) -> Option<Key>
        requires full { self % 2 ^ 128 ≡ 2 ^ 128 - 1 }
        ensures next { IfSome result (λ next. next ≡ suc self) }
        ensures last { (result ≡ None) ↔ (suc self ≡ 2 ^ 320) }
    {
        let Some(third) = self.third.checked_add(1) else {
            return self.next_of_two();
        };
        Some(Key {
            third,
            fourth: 0,
            fifth: 0,
            ..self
        })
    }

    // The same where the last three words are the last.
    fn next_of_two(self) -> Option<Key>
        requires full { self % 2 ^ 192 ≡ 2 ^ 192 - 1 }
        ensures next { IfSome result (λ next. next ≡ suc self) }
        ensures last { (result ≡ None) ↔ (suc self ≡ 2 ^ 320) }
    {
        if self.second < u64::MAX {
            return Some(Key {
                first: self.first,
                second: self.second + 1,
                third: 0,
                fourth: 0,
                fifth: 0,
            });
        }
        let first = self.first.checked_add(1)?;
        Some(Key {
            first,
            second: 0,
            third: 0,
            fourth: 0,
            fifth: 0,
        })
    }
}

impl KeyParts {
    ghost use Rattle.route_model.specs.Keys.{key_of, IsKeyParts};

    /// The key that is made of these.
    pub fn key(&self) -> Key
        ensures key { result ≡ key_of self.now }
        ensures valid { IsKeyParts self.now }
    {
        match self {
            KeyParts::Session(peer) => {
                let _len = peer_len(peer);
                Key::session(peer)
            }
            KeyParts::Prefix(peer, prefix) => {
                let _len = peer_len(peer);
                let _front = prefix.front();
                Key::prefix(peer, prefix)
            }
        }
    }
}

/// What octets are read as, liberally: it is made into a key again.
#[tactic(auto, unfolding(crate::specs::inner::Codec::Admissions::parts_at))]
fn read_parts(octets: &[u8]) -> Result<KeyParts, NoEncoding>
    ensures { Reads (λ parts. parts) result (parts_at octets.now) }
{
    let (peer, rest) = read_peer(octets)?;
    let (kind, rest) = read_octet(rest)?;
    if kind == 0 {
        return Ok(KeyParts::Session(peer));
    }
    let (wide, rest) = read_octets(16, rest)?;
    let Some(address) = Address::from_wide(kind, wide) else {
        return Err(NoEncoding);
    };
    let (length, _) = read_octet(rest)?;
    if 8 * address.as_slice().len() < length as usize {
        return Err(NoEncoding);
    }
    Ok(KeyParts::Prefix(peer, Prefix::containing(address, length)))
}

/// The order of keys is that of peers (by collector, family, address, AS number) and then of prefixes
/// (by family, address, length). The key of a session is below the keys of its peer's prefixes, and
/// above all keys of lower peers. The number of octets is ordered as the octets are, and one number is
/// that of one list of its length.
pub fn keys_in_order()
    ensures prefixes { (p q : PeerValue) (x y : IpPrefix) → IsPeer p → IsPeer q → IsPrefix x → IsPrefix y → nat_cmp (key_number p x) (key_number q y) ≡ ordering_then (peer_order p q) (prefix_order x y) }
    ensures sessions { (p q : PeerValue) → IsPeer p → IsPeer q → nat_cmp (session_number p) (session_number q) ≡ peer_order p q }
    ensures below { (p : PeerValue) (x : IpPrefix) → IsPeer p → IsPrefix x → session_number p < key_number p x }
    ensures above { (p q : PeerValue) (x : IpPrefix) → IsPeer p → IsPeer q → IsPrefix x → peer_order p q ≡ Less → key_number p x < session_number q }
    ensures octets { (a b : List ℕ) → length a ≡ length b → AreOctets a → AreOctets b → nat_cmp (number_of a) (number_of b) ≡ slice_cmp nat_cmp a b }
    ensures one { (a b : List ℕ) → length a ≡ length b → AreOctets a → AreOctets b → number_of a ≡ number_of b → a ≡ b }
{}

impl PartialEq for Key {
    ghost eq = { ◌==◌ };

    ghost laws = { Prim.search (comparing, rules) };

    fn eq(&self, other: &Key) -> bool {
        self.first == other.first
            && self.second == other.second
            && self.third == other.third
            && self.fourth == other.fourth
            && self.fifth == other.fifth
    }
}

impl Eq for Key {
    ghost laws = { Prim.search (comparing, rules) };
}

impl Ord for Key {
    ghost cmp = { nat_cmp };

    ghost total = { Prim.search (comparing, rules) };

    ghost matches_partial_cmp = { Prim.search (comparing, rules) };

    ghost matches_eq = { Prim.search (comparing, rules) };

    fn cmp(&self, other: &Key) -> Ordering {
        self.first
            .cmp(&other.first)
            .then(self.second.cmp(&other.second))
            .then(self.third.cmp(&other.third))
            .then(self.fourth.cmp(&other.fourth))
            .then(self.fifth.cmp(&other.fifth))
    }
}

impl PartialOrd for Key {
    ghost partial_cmp = { as_partial_cmp nat_cmp };

    ghost laws = { partial_order_from_own_ties (Prim.search (comparing, rules)) (Prim.search (comparing, rules)) };

    fn partial_cmp(&self, other: &Key) -> Option<Ordering> {
        Some(self.cmp(other))
    }
}
