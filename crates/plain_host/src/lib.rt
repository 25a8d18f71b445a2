//! The host of one lane alone: it writes what the lane prints, and serves the lane's calls on a
//! bank of lindas of its own.
#![tactic(auto)]

mod plain;
mod writing;

pub use plain::Plain;
pub use writing::{tell, write_text};
