//! Statements, over the functions of the level below (Lua 5.4 manual, section 3.3).
#![tactic(auto)]

mod blocks;
mod choice;
mod conditions;
mod generic;
mod locals;
mod loops;
mod numeric;

pub use blocks::block;
pub use choice::branches;
pub use conditions::test;
pub use generic::in_turns;
pub use locals::{declare_all, value_at};
pub use loops::{repeat_turns, while_turns};
pub use numeric::{Count, for_on, for_turns, numeric_for};
