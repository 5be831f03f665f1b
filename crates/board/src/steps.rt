//! The rule of the board, and what each step on it shows.
use crate::view::SeatView;
use atomic_table::{Join, Play, Split, TableRule};
use std::marker::{Brand, PhantomData};

/// Which board it is. Each call of a program picks it.
pub trait Named {
    ghost use Rattle.atomic_table.specs.Seated.{TableId};

    ghost table: { TableId };
}

impl Named for Brand {
    ghost use Rattle.board.specs.inner.Rule.{no_table};

    ghost table = { no_table };
}

/// Which pasts the writing seat may go on to. Each call picks it.
pub trait Target {
    ghost use Rattle.board.specs.Past.{Past};

    ghost fits: { Past → Type 0 };
}

impl Target for Brand {
    ghost fits = { λ p. Unit {0} };
}

/// The rule, over the number of words.
pub struct OnePast;

impl TableRule<(), SeatView, usize> for OnePast {
    ghost use Rattle.board.specs.inner.Rule.{IsBoard, nothing, writer_of};

    ghost holds = { λ n s. IsBoard n s };

    ghost first = { λ n. writer_of nothing nothing };
}

pub struct Sees;

impl Play<(), SeatView> for Sees {
    ghost use Rattle.board.specs.inner.Steps.{Seen};

    ghost then = { Seen };
}

pub struct Raises;

impl Play<(), SeatView> for Raises {
    ghost use Rattle.board.specs.inner.Steps.{Raised};

    ghost then = { Raised };
}

pub struct Compares;

impl Play<(), SeatView> for Compares {
    ghost use Rattle.board.specs.inner.Steps.{Compared};

    ghost then = { Compared };
}

pub struct MovesTo<X> {
    of: PhantomData<X>,
}

impl<X: Target> Play<(), SeatView> for MovesTo<X> {
    ghost use Rattle.board.specs.inner.Steps.{MovedTo};

    ghost then = { MovedTo X.fits };
}

pub struct Same;

impl Split<SeatView> for Same {
    ghost use Rattle.board.specs.inner.Steps.{note_of};

    ghost left = { λ v. v };

    ghost right = { note_of };
}

pub struct Hears;

impl Join<SeatView> for Hears {
    ghost use Rattle.board.specs.inner.Steps.{hears, spent};

    ghost both = { hears };

    ghost spent = { spent };
}

pub struct Takes;

impl Join<SeatView> for Takes {
    ghost use Rattle.board.specs.inner.Steps.{takes, spent};

    ghost both = { takes };

    ghost spent = { spent };
}
