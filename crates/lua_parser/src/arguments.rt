//! Arguments of calls.

ghost use Rattle.std.specs.Prelude.{◌≤◌, ◌<◌, IfOk, IfSome, IsTrue};
ghost use Rattle.lua_grammar.specs.Expressions as spec;
ghost use Rattle.lua_grammar.specs.Statements.{parts};
ghost use Rattle.lua_parser.specs.Nests.{ReadsParts};
ghost use Rattle.lua_parser.specs.Reads.{Reads};
ghost use Rattle.lua_parser.specs.Steps.{args_step};

use crate::cursor::Tokens;
use crate::parts::{Part, Parts};
use crate::stop::Stop;
use crate::{lists, nodes};
use lanes_arena::Row;
use lua_grammar::{Arguments, Measured};
use lua_tokens::{Place, Sign};
use lua_tree::{Expr, ExprKind, Stat};
use std::alloc::Global;

impl<E, B> Parts<E, B>
where
    E: Fn(Global, &mut Tokens, usize, Part) -> Result<Measured<Expr>, Stop> + Copy,
    B: Fn(Global, &mut Tokens, usize) -> Result<Measured<Row<Stat>>, Stop> + Copy,
{
    /// Arguments after the parenthesis at this place.
    #[tactic(auto, using(crate::proofs::ArgTurns::parens_rules))]
    pub fn in_parens(&self, tokens: &mut Tokens, place: Place) -> Result<Arguments, Stop>
        requires { ReadsParts self.now E.pre E.post B.pre B.post }
        ensures arguments { Reads (spec.in_parens (parts self.now.depth) place tokens.old)
            result tokens.new }
        ensures low { IfOk result (λ arguments. arguments.exprs.depth ≤ self.now.depth) }
    {
        if let Some(_) = tokens.sign(Sign::CloseParen) {
            return Ok(Arguments {
                exprs: lists::nothing(self.alloc),
                place,
            });
        }
        let exprs = self.list(tokens)?;
        tokens.expect_sign(Sign::CloseParen)?;
        Ok(Arguments { exprs, place })
    }

    /// Arguments, if some come next. They are refused as too deep where there is no room.
    #[tactic(auto, using(crate::proofs::ArgTurns::args_rules, crate::proofs::Low::table_low))]
    pub fn arguments(&self, tokens: &mut Tokens, room: bool) -> Result<Option<Arguments>, Stop>
        requires { ReadsParts self.now E.pre E.post B.pre B.post }
        ensures arguments { Reads (args_step (parts self.now.depth) room tokens.old)
            result tokens.new }
        ensures here { IfOk result (λ found. IfSome found (λ _. IsTrue room)) }
        ensures low { IfOk result
            (λ found. IfSome found (λ arguments. arguments.exprs.depth < 1000)) }
    {
        if let Some(place) = tokens.sign_if(Sign::OpenParen, room)? {
            let arguments = self.in_parens(tokens, place)?;
            return Ok(Some(arguments));
        }
        if let Some(place) = tokens.sign_if(Sign::OpenBrace, room)? {
            let table = self.inner_table(tokens, place)?;
            let exprs = lists::only(self.alloc, table)?;
            return Ok(Some(Arguments { exprs, place }));
        }
        let Some((text, place)) = tokens.text_if(room)? else {
            return Ok(None);
        };
        let exprs = lists::only(self.alloc, nodes::leaf(ExprKind::Text(text), place))?;
        Ok(Some(Arguments { exprs, place }))
    }
}
