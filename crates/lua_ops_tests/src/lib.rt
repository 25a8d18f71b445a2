//! Tests of `lua_ops`.
#![tactic(auto)]

#[cfg(test)]
mod arithmetic;
#[cfg(test)]
mod calls;
#[cfg(test)]
mod comparison;
#[cfg(test)]
mod indexing;
#[cfg(test)]
mod joining;
#[cfg(test)]
mod setting;
#[cfg(test)]
mod world;
