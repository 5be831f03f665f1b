//! Units of the times in pages and blocks.

ghost use Rattle.std.specs.Prelude.{◌≡◌, ◌≤◌, IfSome, IfNone};
ghost use Rattle.route_model.specs.declared.unit.Unit.{Unit as UnitValue};
ghost use Rattle.route_model.specs.Units.{moments_in, written, IsUnit, unit_number};

use crate::moment::Moment;

/// A unit of the times in a page or a block, which names it by a number.
#[derive(Clone, Copy, Debug, PartialEq, Eq)]
pub enum Unit {
    /// Whole seconds, in which older archives were written.
    Seconds,
    /// Microseconds, in which all is written.
    Microseconds,
}

impl Unit {
    /// The unit in which all is written.
    #[tactic(auto, unfolding(crate::specs::Units::written))]
    pub fn written() -> Unit
        ensures { result ≡ written }
    {
        Unit::Microseconds
    }

    /// The unit of this number, or none if nothing that is read can be of such a unit.
    #[tactic(auto, unfolding(crate::specs::Units::IsUnit))]
    pub fn of(number: u8) -> Option<Unit>
        ensures found { IfSome result IsUnit }
        ensures number { IfSome result (λ unit. unit_number unit ≡ number) }
        ensures none { IfNone result ((unit : UnitValue) → IsUnit unit → unit_number unit ≡ number → ⊥) }
    {
        match number {
            0 => Some(Unit::Seconds),
            1 => Some(Unit::Microseconds),
            _ => None,
        }
    }

    /// The number that names the unit.
    pub fn number(self) -> u8
        ensures { result ≡ unit_number self }
    {
        match self {
            Unit::Seconds => 0,
            Unit::Microseconds => 1,
        }
    }

    /// How many moments one of the unit is.
    #[tactic(auto, unfolding(crate::specs::Units::moments_in))]
    pub fn moments(self) -> u64
        ensures { result ≡ moments_in self }
    {
        match self {
            Unit::Seconds => Moment::SECOND,
            Unit::Microseconds => 1,
        }
    }
}
