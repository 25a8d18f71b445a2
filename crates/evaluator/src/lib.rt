//! The evaluator: a function of a program is called in a state, and a host answers what the call
//! asks.
#![tactic(auto)]

mod knot;
mod load;
mod outcome;
mod whole;

pub use outcome::{End, Outcome};
pub use whole::run;
