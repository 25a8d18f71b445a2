//! The status of each lane and the wish to cancel it, as words that any thread reads and writes in
//! one step without a lock.
#![tactic(auto)]

mod board;
mod calls;
mod law;
mod status;
mod steps;
mod view;

pub use board::{Board, BoardSeat, TooManyLanes};
pub use status::{CancelKind, Status};
