//! Tests of `lanes_arena`, and texts and rows that threads share.
#![tactic(auto)]

pub mod shared;
#[cfg(test)]
mod tests;
