//! The Lanes face.
#![tactic(auto)]

mod ask;
mod fields;

pub use ask::{Answer, Ask, AskFault, LanesFn};
pub use fields::{RECEIVE, SEND, member};
