//! The asks of the Lanes face, from the arguments of its functions, and the values that a reply
//! gives.
#![tactic(auto)]

mod arguments;
mod asks;
mod faults;
mod pieces;

pub use asks::ask_of;
pub use pieces::{Piece, piece_at, piece_count};
