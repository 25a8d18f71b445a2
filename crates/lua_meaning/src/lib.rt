//! What a program means: the definitions that the evaluator is proved against.
#![tactic(auto)]

mod fault;
mod library;

pub use fault::{Fault, Site};
pub use library::{Builtin, Library};
