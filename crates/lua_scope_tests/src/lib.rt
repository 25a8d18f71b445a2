//! Tests of `lua_scope`.
#![tactic(auto)]

#[cfg(test)]
mod bindings;
#[cfg(test)]
mod faults;
#[cfg(test)]
mod programs;
#[cfg(test)]
mod trees;
