//! The functions that read the parts of each depth.

ghost use Rattle.std.specs.Prelude.{◌≡◌, ◌<◌, Err};
ghost use Rattle.lua_grammar.specs.Statements.{parts};
ghost use Rattle.lua_parser.specs.Nests.{part_of};
ghost use Rattle.lua_parser.specs.Reads.{Reads, why_of};

use crate::cursor::Tokens;
use crate::parts::{Part, Parts};
use crate::stop::Stop;
use lanes_arena::Row;
use lua_grammar::Measured;
use lua_tree::{Expr, Stat};
use std::alloc::Global;

/// Why no part of a depth of 0 comes next.
#[tactic(auto, using(crate::proofs::Knots::flat_rules))]
fn no_part(tokens: &Tokens, part: Part) -> Stop
    ensures { part_of 0 part tokens.now ≡ Err (why_of result, tokens.now) }
{
    let Part::Level(_) = part else {
        return Stop::Bad;
    };
    if tokens.begins_expr() {
        return Stop::Deep;
    }
    Stop::Bad
}

/// A part that is an expression of at most this depth.
#[cycle(nested)]
#[tactic(auto, using(crate::proofs::Knots::knot_rules))]
pub fn nested_part(
    alloc: Global,
    tokens: &mut Tokens,
    depth: usize,
    part: Part,
) -> Result<Measured<Expr>, Stop>
    requires { depth < 1000 }
    ensures { Reads (part_of depth part tokens.old) result tokens.new }
{
    if depth == 0 {
        return Err(no_part(tokens, part));
    }
    let parts = Parts {
        alloc,
        depth: depth - 1,
        parts: nested_part,
        blocks: nested_block,
    };
    match part {
        Part::Level(least) => parts.from_level(tokens, least),
        Part::Rest(first) => parts.rest_of(tokens, first),
        Part::Table(place) => parts.table(tokens, place),
    }
}

/// The statements of a block of at most this depth.
#[cycle(nested)]
#[tactic(auto, using(crate::proofs::Knots::knot_rules))]
pub fn nested_block(
    alloc: Global,
    tokens: &mut Tokens,
    depth: usize,
) -> Result<Measured<Row<Stat>>, Stop>
    requires { depth < 1000 }
    ensures { Reads ((parts depth).block tokens.old) result tokens.new }
{
    if depth == 0 {
        return Err(Stop::Bad);
    }
    let parts = Parts {
        alloc,
        depth: depth - 1,
        parts: nested_part,
        blocks: nested_block,
    };
    parts.block(tokens)
}
