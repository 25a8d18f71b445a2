//! Tests of `lanes_program`.
#![tactic(auto)]

#[cfg(test)]
mod runs;
