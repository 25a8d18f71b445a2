//! The program's top call: it reads a script, runs it, and writes what the script prints.
#![tactic(auto)]

mod finish;
mod reading;
mod refusal;
mod run;
mod words;

pub use finish::{Finished, run_lanes};
pub use words::script_word;
