//! Tests of `parcel`, `metatable_ids` and `graph_copy`, and a parcel that threads share.
#![tactic(auto)]

pub mod maker;
#[cfg(test)]
mod packs;
pub mod shared;
#[cfg(test)]
mod tests;
#[cfg(test)]
mod wanted;
