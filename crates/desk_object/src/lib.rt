//! What a desk can hold: an object, the calls on it and how they end, and the entries of a history.
#![tactic(auto)]

mod ending;
mod entry;
mod object;

pub use ending::{Ending, Mode};
pub use entry::Entry;
pub use object::Object;
