//! Tests of desks: their calls in order, and threads that share one.
#![tactic(auto)]

#[cfg(test)]
mod calls;
#[cfg(test)]
mod noted;
#[cfg(test)]
mod threads;
