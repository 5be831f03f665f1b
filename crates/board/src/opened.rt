//! A board before it has a name.
ghost use Rattle.std.specs.Prelude.{◌≡◌, ◌+◌, []};
ghost use Rattle.board.specs.inner.Rule.{nothing, writer_of};

use crate::steps::OnePast;
use crate::view::SeatView;
use atomic_table::{Seat, Table};
use std::alloc::Global;

/// A board that has no name yet, with its writing seat, on which nothing is known.
pub struct Opened {
    /// For how many collectors it is.
    pub collectors: u8,
    pub(crate) table: Table<(), SeatView, usize, OnePast, Global>,
    pub(crate) seat: Seat<(), SeatView>,
    pub ghost one_table: { seat.table_id ≡ table.shared.table_id },
    pub ghost words: { table.shared.table_id.words ≡ collectors + 1 },
    pub ghost key: { table.shared.key ≡ collectors + 1 },
    pub ghost first: { seat.me ≡ (writer_of nothing nothing, []) },
}
