//! Tests of `int_ops`.
#![tactic(auto)]

#[cfg(test)]
mod answers;
