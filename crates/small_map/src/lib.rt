//! A map in the order of insertion: a few pairs in a list, and more of them in a table of hashes.
#![tactic(auto)]

mod few;
mod map;

pub use map::SmallMap;
