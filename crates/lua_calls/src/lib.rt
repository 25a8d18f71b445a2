//! Calls of values, over the functions of the level below (Lua 5.4 manual, sections 2.4, 3.4.10 and
//! 3.4.11).
#![tactic(auto)]

mod bodies;
mod callees;
mod calls;
mod parameters;

pub use bodies::run_function;
pub use callees::callee;
pub use calls::call_on;
pub use parameters::param_cells;
