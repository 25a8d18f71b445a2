//! Trees of scripts.

use lanes_arena::Bytes;
use lua_lexer::tokens;
use lua_parser::parse;
use lua_tree::Tree;
use std::alloc::Global;
use std::test::Fail;

/// The tree of a script, which has one.
pub fn tree_of(alloc: Global, script: &[u8]) -> Result<Tree, Fail> {
    let script = Bytes::of(alloc, script)?;
    let tree = parsed(alloc, &script).ok_or("a tree")?;
    Ok(tree)
}

/// The tree of a script, where it has one.
fn parsed(alloc: Global, script: &Bytes) -> Option<Tree> {
    match tokens(alloc, script) {
        Ok(found) => parse(alloc, found).ok(),
        Err(_) => None,
    }
}
