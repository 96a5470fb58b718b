//! The seat of a worker.
ghost use Rattle.word_board.specs.Seats.{KeepsLeased, KeepsOwed};

use crate::view::View;
use atomic_table::Seat;

/// What a worker holds: a token of no bytes, and the number of the piece that it began last.
///
/// `end` and `count` aren't given a piece, so the seat keeps it: four bytes.
#[derive(Drop)]
pub struct WordSeat {
    pub(crate) token: Seat<u8, View>,
    pub(crate) piece: u32,
    pub(crate) ghost leased: { KeepsLeased token.me.0 piece },
    pub(crate) ghost owed: { KeepsOwed token.me.0 piece },
}
