//! Tests of `lua_pattern`: each item alone and combined, and each fault, beside the reference Lua.
#![tactic(auto)]

#[cfg(test)]
mod faults;
#[cfg(test)]
mod rows;
#[cfg(test)]
mod tests;
#[cfg(test)]
mod wanted;
