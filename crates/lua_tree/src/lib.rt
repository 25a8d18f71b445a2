//! The tree of a Lua script: blocks, statements and expressions.
#![tactic(auto)]

mod expr;
mod operator;
mod stat;

pub use expr::{Expr, ExprKind, Field, Pair};
pub use operator::{Binary, Unary};
pub use stat::{Block, Body, Branch, Stat, Tree};
