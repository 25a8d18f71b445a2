//! Tests of the Lanes face: what each call asks, why a call asks nothing, the fields of handles,
//! and the values of replies.
#![tactic(auto)]

#[cfg(test)]
mod asks;
#[cfg(test)]
mod fields;
#[cfg(test)]
mod fixture;
#[cfg(test)]
mod pieces;
