//! Marks: below which moment a collector's records are complete.

ghost use Rattle.std.specs.Prelude.{◌≡◌, ◌≤◌, ◌*◌, SomeIff};
ghost use Rattle.route_model.specs.Moments.{last_mark};

use crate::moment::Moment;
use std::marker::Model;

/// A mark: the moment below which a collector's records are complete, 0 to 4,294,967,296,000,000
/// microseconds since 1970-01-01T00:00:00Z. The last is above every moment.
#[derive(Clone, Copy, Debug, PartialEq, Eq, PartialOrd, Ord)]
pub struct Mark {
    number: u64,
}

impl Model for Mark {
    ghost use Rattle.std.specs.Prelude.{ℕ, ◌≤◌};
    ghost use Rattle.route_model.specs.Moments.{last_mark};

    ghost Value = { ℕ };

    ghost view = { λ a. a.number };

    ghost invariant = { λ a. a.number ≤ last_mark };

    ghost inverse = { λ n. record { number = n } };
}

impl Mark {
    /// The last mark, above every moment.
    pub const LAST: u64 = 4_294_967_296_000_000;

    /// The mark at this many microseconds, or none if they are above [`Mark::LAST`].
    pub fn new(number: u64) -> Option<Mark>
        ensures mark { SomeIff result (number ≤ last_mark) number }
    {
        if number <= Mark::LAST {
            Some(Mark { number })
        } else {
            None
        }
    }

    /// The mark at a moment.
    pub fn at(moment: Moment) -> Mark
        ensures mark { result ≡ moment }
    {
        let number = moment.number();
        Mark { number }
    }

    /// The mark of this multiple of this one's number, or none if that is above [`Mark::LAST`].
    pub fn scaled(self, moments: u64) -> Option<Mark>
        ensures mark { SomeIff result (self * moments ≤ last_mark) (self * moments) }
    {
        Mark::new(self.number.checked_mul(moments)?)
    }

    /// The microseconds since 1970-01-01T00:00:00Z.
    pub fn number(self) -> u64
        ensures number { result ≡ self }
        ensures in_range { result ≤ last_mark }
    {
        self.number
    }
}
