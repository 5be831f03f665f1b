//! Which prefixes are asked for, beside one that is named.

use route_meaning::{Select, Spot};
use route_model::{Address, Prefix};

/// Which prefixes are asked for, beside one that is named.
#[derive(Clone, Copy, Debug, PartialEq, Eq)]
pub enum Scope {
    /// This one alone.
    Exact(Prefix),
    /// All that lie inside it, itself included.
    More(Prefix),
    /// All that contain it, itself included.
    Less(Prefix),
}

/// Whether all addresses of the prefix are among those of the other one.
pub(crate) fn is_inside(prefix: &Prefix, outer: &Prefix) -> bool {
    let (address, outer_address) = (prefix.address(), outer.address());
    let length = outer.length();
    address.family() == outer_address.family()
        && length <= prefix.length()
        && Prefix::containing(address, length) == *outer
}

/// An octet whose first bits, this many, are zero, and all others are one.
fn ones_after(bits: u8) -> u8 {
    match bits {
        0 => 255,
        1 => 127,
        2 => 63,
        3 => 31,
        4 => 15,
        5 => 7,
        6 => 3,
        7 => 1,
        _ => 0,
    }
}

/// Sets all bits but the first of them, which are this many.
fn fill(octets: &mut [u8], length: u8) {
    let mut left = length;
    for octet in octets.iter_mut() {
        *octet |= ones_after(left);
        left = left.saturating_sub(8);
    }
}

/// The prefix of this one address.
fn of_one(address: Address) -> Prefix {
    let _octets = address.as_slice();
    match address {
        Address::V4(octets) => Prefix::containing(Address::V4(octets), 32),
        Address::V6(octets) => Prefix::containing(Address::V6(octets), 128),
    }
}

/// The last address whose first bits, this many, are those of the address, as a prefix: in the order of rows no prefix that begins with these
/// bits comes after it.
fn last_with(address: Address, length: u8) -> Prefix {
    match address {
        Address::V4(octets) => {
            let mut octets = octets;
            fill(&mut octets, length);
            of_one(Address::V4(octets))
        }
        Address::V6(octets) => {
            let mut octets = octets;
            fill(&mut octets, length);
            of_one(Address::V6(octets))
        }
    }
}

/// The last prefix inside this one, in the order of rows. Those inside it are the prefixes from itself to the last: any other one whose address
/// lies in it contains it, and so comes before it.
pub fn last_inside(prefix: &Prefix) -> Prefix {
    last_with(prefix.address(), prefix.length())
}

/// The first prefix of all, in the order of rows.
pub(crate) fn first_of_all() -> Prefix {
    Prefix::containing(Address::V4([0; 4]), 0)
}

/// The last prefix of all, in the order of rows.
pub(crate) fn last_of_all() -> Prefix {
    of_one(Address::V6([255; 16]))
}

/// The prefix right before this one, in the order of rows; none before `0.0.0.0/0`, the first of all.
fn right_before(prefix: &Prefix) -> Option<Prefix> {
    let (address, length) = (prefix.address(), prefix.length());
    let Some(shorter) = length.checked_sub(1) else {
        return match address {
            Address::V4(_) => None,
            Address::V6(_) => Some(of_one(Address::V4([255; 4]))),
        };
    };
    let parent = Prefix::containing(address, shorter);
    if parent.address() == address {
        return Some(parent);
    }
    // The last bit is one: before it lies the other half of the prefix that is shorter by one.
    Some(last_with(parent.address(), length))
}

/// The prefix of this length that contains the other one, or that one itself if it isn't longer.
pub(crate) fn shortened(prefix: &Prefix, length: u8) -> Prefix {
    Prefix::containing(prefix.address(), length.min(prefix.length()))
}

impl Scope {
    /// How its rows are asked for, of which some may be of other prefixes.
    pub(crate) fn select(&self) -> Select {
        match self {
            Scope::Exact(prefix) => Select::ByPrefix(*prefix),
            Scope::More(_) => Select::All,
            Scope::Less(prefix) => Select::Covering(prefix.address()),
        }
    }

    /// Whether the prefix is asked for.
    pub(crate) fn has(&self, prefix: &Prefix) -> bool {
        match self {
            Scope::Exact(named) => prefix == named,
            Scope::More(named) => is_inside(prefix, named),
            Scope::Less(named) => is_inside(named, prefix),
        }
    }

    /// A spot that isn't below this one, so that no row between them is asked for: the last one before the peer's first prefix that is, or,
    /// past the last one, before the next peer.
    pub(crate) fn leap(&self, spot: Spot) -> Spot {
        let Scope::More(named) = self else {
            return spot;
        };
        let reached = if spot.prefix < *named {
            right_before(named)
        } else if last_inside(named) <= spot.prefix {
            Some(last_of_all())
        } else {
            None
        };
        match reached {
            Some(prefix) => spot.max(Spot {
                peer: spot.peer,
                prefix,
            }),
            None => spot,
        }
    }
}
