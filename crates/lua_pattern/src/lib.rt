//! Patterns of Lua: reading them, and their matches in a subject (Lua manual, section 6.4.1).
#![tactic(auto)]

mod brackets;
mod bytes;
mod capture;
mod class;
mod fault;
mod item;
mod matching;
mod pattern;
mod places;
mod reading;
mod sets;
mod single;
mod steps;

pub use capture::Capture;
pub use class::Class;
pub use fault::PatternFault;
pub use item::{Bracket, Item, Repeat, Step};
pub use pattern::Pattern;
pub use places::{Match, find, matches_at};
pub use reading::{compile, compile_unanchored};
pub use single::{Part, Single};
