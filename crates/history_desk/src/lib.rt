//! An object behind a lock, every change of which is one entry of a history that only grows, and
//! passes that show what their holders have seen of it and made.
#![tactic(auto)]

mod desk;
mod known;
mod law;
mod numbers;
mod pass;
mod slot;
mod turn;
mod turning;

pub use desk::Desk;
pub use desk_object::{Ending, Entry, Mode, Object};
pub use known::Known;
pub use pass::Pass;
pub use turn::{Closed, DeskFault, Turn};
