//! Operators by their levels.

ghost use Rattle.std.specs.Prelude.{true};
ghost use Rattle.lua_grammar.specs.Expressions as spec;
ghost use Rattle.lua_grammar.specs.Statements.{parts};
ghost use Rattle.lua_parser.specs.Nests.{ReadsParts};
ghost use Rattle.lua_parser.specs.Reads.{Reads};

use crate::cursor::Tokens;
use crate::nodes;
use crate::parts::{Part, Parts};
use crate::stop::Stop;
use lanes_arena::Row;
use lua_grammar::Measured;
use lua_tree::{Expr, Stat};
use std::alloc::Global;

impl<E, B> Parts<E, B>
where
    E: Fn(Global, &mut Tokens, usize, Part) -> Result<Measured<Expr>, Stop> + Copy,
    B: Fn(Global, &mut Tokens, usize) -> Result<Measured<Row<Stat>>, Stop> + Copy,
{
    /// The operators from this level on that go on with an expression.
    #[inline(never)]
    #[tactic(auto, using(crate::proofs::OpTurns::climb_rules, crate::proofs::Low::right_low))]
    pub fn climb(
        &self,
        tokens: &mut Tokens,
        least: u8,
        first: Measured<Expr>,
    ) -> Result<Measured<Expr>, Stop>
        requires { ReadsParts self.now E.pre E.post B.pre B.post }
        ensures { Reads (spec.climb (parts self.now.depth) least first tokens.old)
            result tokens.new }
    {
        let mut found = first;
        'turns: loop {
            let room = found.depth <= self.depth;
            let Some((operator, place)) = tokens.operator_if(least, room)? else {
                return Ok(found);
            };
            let right = self.inner_expr(tokens, operator.right_level())?;
            found = nodes::binary_node(self.alloc, operator, place, found, right)?;
        }
    }

    /// An expression of operators from this level on.
    #[tactic(auto, using(crate::proofs::OpTurns::level_rules))]
    pub fn from_level(&self, tokens: &mut Tokens, least: u8) -> Result<Measured<Expr>, Stop>
        requires { ReadsParts self.now E.pre E.post B.pre B.post }
        ensures { Reads (spec.from_level (parts self.now.depth) true least tokens.old)
            result tokens.new }
    {
        let first = self.operand(tokens)?;
        if !tokens.has_operator(least) {
            return Ok(first);
        }
        self.climb(tokens, least, first)
    }

    /// What goes on with an expression.
    #[inline(never)]
    #[tactic(auto, unfolding(lua_grammar::specs::Expressions::rest_of))]
    pub fn rest_of(
        &self,
        tokens: &mut Tokens,
        first: Measured<Expr>,
    ) -> Result<Measured<Expr>, Stop>
        requires { ReadsParts self.now E.pre E.post B.pre B.post }
        ensures { Reads (spec.rest_of (parts self.now.depth) first tokens.old) result tokens.new }
    {
        let operand = self.suffixes(tokens, first)?;
        self.climb(tokens, 0, operand)
    }
}
