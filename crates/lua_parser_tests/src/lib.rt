//! Tests of `lua_parser`.
#![tactic(auto)]

#[cfg(test)]
mod faults;
#[cfg(test)]
mod shown;
#[cfg(test)]
mod tokens;
#[cfg(test)]
mod trees;
