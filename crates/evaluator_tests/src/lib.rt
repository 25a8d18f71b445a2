//! Tests of `evaluator`.
#![tactic(auto)]

#[cfg(test)]
mod runs;
