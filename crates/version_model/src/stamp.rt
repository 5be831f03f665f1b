//! Stamps: a time, and an order number that distinguishes changes of one time.

ghost use Rattle.std.specs.Prelude.{◌≡◌, ◌==◌, ℕ};
ghost use Rattle.std.specs.Cmp.{partial_order_from_own_ties};
ghost use Rattle.std.specs.Cmp.Rules.{comparing};
ghost use Rattle.std.specs.Ordering.{nat_cmp, as_partial_cmp};
ghost use Rattle.std.proofs.Common.{rules};

use std::cmp::Ordering;
use std::marker::Model;

/// A time in microseconds since 1970, and the order number of a change: sixteen octets, each number in eight, the highest octet first.
/// Contracts see it as the number that these octets are.
#[derive(Clone, Copy, Debug)]
pub struct Stamp {
    time: u64,
    order: u64,
}

impl Model for Stamp {
    ghost use Rattle.std.specs.Prelude.{ℕ};

    ghost Value = { ℕ };

    ghost use Rattle.version_model.specs.StampWords.{number_of_stamp, AreWords, stamp_words, stamp_words-number};

    ghost view = { number_of_stamp };

    ghost invariant = { AreWords };

    ghost inverse = { stamp_words };

    ghost inverse_ok = { stamp_words-number };
}

impl Stamp {
    ghost use Rattle.std.specs.Prelude.{◌≡◌, ◌+◌, ◌*◌, ◌/◌, ◌%◌, ◌^◌, ◌<◌};

    /// The stamp of a time and an order number.
    pub fn new(time: u64, order: u64) -> Stamp
        ensures number { result ≡ time * 2 ^ 64 + order }
    {
        Stamp { time, order }
    }

    /// The number that its sixteen octets are.
    pub fn number(self) -> u128
        ensures number { result ≡ self }
        ensures fits { self < 2 ^ 128 }
    {
        u128::from(self.time) * (1 << 64) + u128::from(self.order)
    }

    /// Its time.
    pub fn time(self) -> u64
        ensures time { result ≡ self / 2 ^ 64 }
    {
        self.time
    }

    /// Its order number.
    pub fn order(self) -> u64
        ensures order { result ≡ self % 2 ^ 64 }
    {
        self.order
    }
}

impl PartialEq for Stamp {
    ghost eq = { ◌==◌ };

    ghost laws = { Prim.search (comparing, rules) };

    fn eq(&self, other: &Stamp) -> bool {
        self.time == other.time && self.order == other.order
    }
}

impl Eq for Stamp {
    ghost laws = { Prim.search (comparing, rules) };
}

impl Ord for Stamp {
    ghost cmp = { nat_cmp };

    ghost total = { Prim.search (comparing, rules) };

    ghost matches_partial_cmp = { Prim.search (comparing, rules) };

    ghost matches_eq = { Prim.search (comparing, rules) };

    fn cmp(&self, other: &Stamp) -> Ordering {
        self.time
            .cmp(&other.time)
            .then(self.order.cmp(&other.order))
    }
}

impl PartialOrd for Stamp {
    ghost partial_cmp = { as_partial_cmp nat_cmp };

    ghost laws = { partial_order_from_own_ties (Prim.search (comparing, rules)) (Prim.search (comparing, rules)) };

    fn partial_cmp(&self, other: &Stamp) -> Option<Ordering> {
        Some(self.cmp(other))
    }
}
