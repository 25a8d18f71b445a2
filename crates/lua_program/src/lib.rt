//! A resolved program: a Lua script in which each name is a local's slot, a captured local or a
//! global, and each function body and text has a number.
#![tactic(auto)]

mod expr;
mod program;
mod stat;

pub use expr::{PlacedText, RExpr, RExprKind, RField, RPair, Ref};
pub use program::{Program, Proto, UpFrom};
pub use stat::{Jump, RBranch, RStat, Spot};
