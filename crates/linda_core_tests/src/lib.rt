//! Tests of `linda_core`.
#![tactic(auto)]

#[cfg(test)]
mod calls;
#[cfg(test)]
mod fixture;
