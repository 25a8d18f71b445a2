//! Tests of `lua_tokens`.
#![tactic(auto)]

#[cfg(test)]
mod blocks;
