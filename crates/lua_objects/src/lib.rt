//! Functions and tables that a script makes, over the functions of the level below.
#![tactic(auto)]

mod closures;
mod constructors;
mod fields;

pub use closures::function;
pub use constructors::constructed;
