//! Tests of `lua_lexer`.
#![tactic(auto)]

#[cfg(test)]
mod scripts;
