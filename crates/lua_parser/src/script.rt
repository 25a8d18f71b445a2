//! A whole script.
ghost use Rattle.lua_grammar.specs.Statements as spec;
ghost use Rattle.lua_parser.specs.Reads.{Reads};

use crate::cursor::Tokens;
use crate::knot::nested_block;
use crate::stop::Stop;
use lanes_arena::Row;
use lua_grammar::Measured;
use lua_tree::{Block, Stat, Tree};
use std::alloc::Global;

/// The greatest depth of a script that is accepted.
pub const DEEPEST: usize = 60;

/// A script of at most that depth.
#[tactic(auto, using(crate::proofs::ScriptEnds::script_rules))]
pub fn script(alloc: Global, tokens: &mut Tokens) -> Result<Tree, Stop>
    ensures { Reads (spec.script DEEPEST tokens.old) result tokens.new }
{
    let block = nested_block(alloc, tokens, DEEPEST)?;
    whole(tokens, block)
}

/// The end of a script, after its block.
#[tactic(auto, using(crate::proofs::ScriptEnds::whole_rules))]
fn whole(tokens: &mut Tokens, block: Measured<Row<Stat>>) -> Result<Tree, Stop>
    ensures { Reads (spec.whole block tokens.old) result tokens.new }
{
    if tokens.end().is_none() {
        return Err(Stop::Bad);
    }
    if !tokens.is_empty() {
        return Err(Stop::Bad);
    }
    Ok(Tree {
        block: Block {
            stats: block.into_what(),
        },
    })
}
