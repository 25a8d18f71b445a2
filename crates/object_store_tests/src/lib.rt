//! Tests of `object_store`, and callers that keep a state closed.
#![tactic(auto)]

pub mod callers;
#[cfg(test)]
mod tests;
