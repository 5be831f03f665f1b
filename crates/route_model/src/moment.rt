//! Moments, in microseconds since 1970-01-01T00:00:00Z.

ghost use Rattle.std.specs.Prelude.{◌≡◌, ◌<◌, ◌≤◌, ◌+◌, ◌*◌, SomeIff};
ghost use Rattle.route_model.specs.Moments.{latest_moment, micros_a_second};

use std::marker::Model;

/// A moment: 0 to 4,294,967,295,999,999 microseconds since 1970-01-01T00:00:00Z, which is what the
/// Timestamp and the Microsecond Timestamp of an MRT record can say (RFC 6396 sections 2 and 3).
#[derive(Clone, Copy, Debug, PartialEq, Eq, PartialOrd, Ord)]
pub struct Moment {
    number: u64,
}

impl Model for Moment {
    ghost use Rattle.std.specs.Prelude.{ℕ};
    ghost use Rattle.route_model.specs.Moments.{IsMoment};

    ghost Value = { ℕ };

    ghost view = { λ a. a.number };

    ghost invariant = { λ a. IsMoment a.number };

    ghost inverse = { λ n. record { number = n } };
}

impl Moment {
    /// The last moment.
    pub const LAST: u64 = 4_294_967_295_999_999;

    /// How many microseconds a second is.
    pub const SECOND: u64 = 1_000_000;

    /// The moment of this many microseconds, or none if they are above [`Moment::LAST`].
    pub fn new(number: u64) -> Option<Moment>
        ensures moment { SomeIff result (number ≤ latest_moment) number }
    {
        if number <= Moment::LAST {
            Some(Moment { number })
        } else {
            None
        }
    }

    /// The moment this number of microseconds, 0 to 999,999, after a whole second.
    pub fn within(second: u32, micros: u32) -> Moment
        requires { micros < micros_a_second }
        ensures { result ≡ second * micros_a_second + micros }
    {
        Moment {
            number: u64::from(second) * Moment::SECOND + u64::from(micros),
        }
    }

    /// The moment of this multiple of this one's number, or none if that is above [`Moment::LAST`].
    pub fn scaled(self, moments: u64) -> Option<Moment>
        ensures moment { SomeIff result (self * moments ≤ latest_moment) (self * moments) }
    {
        Moment::new(self.number.checked_mul(moments)?)
    }

    /// The microseconds since 1970-01-01T00:00:00Z.
    pub fn number(self) -> u64
        ensures number { result ≡ self }
        ensures in_range { result ≤ latest_moment }
    {
        self.number
    }
}

/// The moment of a whole second.
impl From<u32> for Moment {
    ghost use Rattle.std.specs.Prelude.{◌≡◌, ◌*◌};
    ghost use Rattle.route_model.specs.Moments.{micros_a_second};

    ghost from_gives = { λ second moment. moment ≡ second * micros_a_second };

    fn from(second: u32) -> Moment {
        Moment::within(second, 0)
    }
}
