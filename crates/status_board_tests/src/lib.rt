//! Tests of the board, over threads too.
#![tactic(auto)]

#[cfg(test)]
mod asks;
#[cfg(test)]
mod draws;
#[cfg(test)]
mod lanes;
#[cfg(test)]
mod statuses;
