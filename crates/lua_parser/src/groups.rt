//! Expressions in parentheses.

ghost use Rattle.lua_grammar.specs.Expressions as spec;
ghost use Rattle.lua_grammar.specs.Statements.{parts};
ghost use Rattle.lua_parser.specs.Nests.{ReadsParts};
ghost use Rattle.lua_parser.specs.Reads.{Reads};

use crate::cursor::Tokens;
use crate::nodes;
use crate::parts::{Part, Parts};
use crate::stop::Stop;
use lanes_arena::Row;
use lua_grammar::Measured;
use lua_tokens::{Place, Sign};
use lua_tree::{Expr, Stat};
use std::alloc::Global;

impl<E, B> Parts<E, B>
where
    E: Fn(Global, &mut Tokens, usize, Part) -> Result<Measured<Expr>, Stop> + Copy,
    B: Fn(Global, &mut Tokens, usize) -> Result<Measured<Row<Stat>>, Stop> + Copy,
{
    /// An expression in parentheses after the parenthesis at this place.
    #[inline(never)]
    #[tactic(auto, using(crate::proofs::Low::first_low), unfolding(lua_grammar::specs::Expressions::group))]
    pub fn group(&self, tokens: &mut Tokens, place: Place) -> Result<Measured<Expr>, Stop>
        requires { ReadsParts self.now E.pre E.post B.pre B.post }
        ensures { Reads (spec.group (parts self.now.depth) place tokens.old) result tokens.new }
    {
        let inner = self.inner_expr(tokens, 0)?;
        tokens.expect_sign(Sign::CloseParen)?;
        Ok(nodes::grouped(self.alloc, place, inner)?)
    }
}
