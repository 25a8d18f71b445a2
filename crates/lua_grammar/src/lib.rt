//! The grammar of Lua scripts: which tokens spell a tree, and readers of tokens that a parser
//! follows.
#![tactic(auto)]

mod measured;

pub use measured::{Arguments, Ends, Measured, Prefix};
