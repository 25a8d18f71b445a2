//! What the operators of Lua give for values of any kind (Lua 5.4 manual, sections 2.4 and 3.4).
//! An operator answers a value, or it names the handler, a field of a metatable, whose call gives
//! the value.
#![tactic(auto)]

mod arithmetic;
mod calls;
mod chains;
mod comparison;
mod handlers;
mod indexing;
mod joining;
mod lengths;
mod setting;
mod step;

pub use arithmetic::{arith, operand};
pub use calls::callee;
pub use chains::CHAIN_LIMIT;
pub use comparison::compare;
pub use handlers::{handler, is_function, meta_of, raw_index, text_at};
pub use indexing::index;
pub use joining::{TEXT_LIMIT, concat, piece};
pub use lengths::len;
pub use setting::{raw_set, raw_set_here, set_index, set_target};
pub use step::{ArithOp, CompareOp, SetStep, Step, Target};
