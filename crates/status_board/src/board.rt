//! The board and its seats.
ghost use Rattle.std.specs.Prelude.{◌≡◌, length};
ghost use Rattle.status_board.specs.Standing.{Stands};

use crate::law::{Token, Words};
use crate::status::Status;
use thiserror::Error;

/// The number that a seat drew is no lane: 1,024 or more.
#[derive(Clone, Copy, Debug, Error, PartialEq, Eq)]
#[error("too many lanes")]
pub struct TooManyLanes {
    pub number: u64,
}

/// A capability for the board: for its own lane, the lanes that it drew, and those whose seats it
/// took in.
#[derive(Drop)]
pub struct BoardSeat {
    pub(crate) lane: u64,
    pub(crate) status: Status,
    pub(crate) over: u64,
    pub(crate) token: Token,
    ghost idle: { length token.me.1 ≡ 0 },
    ghost stands: { Stands lane status over token.me.0 },
}

/// The status of up to 1,024 lanes and the wish to cancel each, which any thread reads and writes
/// without waiting. Each call needs a seat of this board, and shows on it what was done and found.
#[derive(Drop)]
pub struct Board {
    pub(crate) table: Words,
    ghost size: { table.shared.table_id.words ≡ 2049 },
}
