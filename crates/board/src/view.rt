//! What a seat of the board knows.
use std::marker::Model;

/// What a seat knows. It stands in proofs alone: no value of it is made.
pub struct SeatView {
    never: u8,
}

impl Model for SeatView {
    ghost use Rattle.board.specs.inner.Rule.{Sight, nothing, reader_of};

    ghost Value = { Sight };

    ghost view = { λ _. reader_of nothing };
}
