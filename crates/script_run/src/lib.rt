//! Runs the program of a script, as one lane alone, in a new state in which the libraries are
//! opened.
#![tactic(auto)]

mod opening;
mod raised;
mod script;

pub use script::{ProgramEnd, RanProgram, run_program};
