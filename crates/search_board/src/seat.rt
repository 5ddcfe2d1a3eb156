use crate::known::Known;
use atomic_table::Seat as TableSeat;
use std::marker::Model;

/// A worker's place at a board: what it drew, offered and saw there.
#[derive(Drop)]
pub struct Seat {
    pub(crate) seat: TableSeat<(), Known>,
    /// The number with which it was told that no ticket is left.
    pub(crate) spent: Option<u64>,
}

impl Model for Seat {
    ghost use Rattle.std.specs.Prelude.{◌≡◌, [], false};
    ghost use Rattle.search_board.specs.Seats.{SeatView, seat_coded, seat_view};

    ghost Value = { SeatView };

    ghost coded = { seat_coded };

    ghost view = { λ s. seat_view s.seat.table_id s.seat.me.0 };

    ghost invariant = { λ s. (s.seat.me.1 ≡ []) × (s.seat.me.0.gone ≡ false) × (s.seat.me.0.told ≡ s.spent) };
}
