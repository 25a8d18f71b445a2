//! Indexes and calls.

ghost use Rattle.std.specs.Prelude.{◌≤◌, IfOk};
ghost use Rattle.lua_grammar.specs.Expressions as spec;
ghost use Rattle.lua_grammar.specs.Statements.{parts};
ghost use Rattle.lua_parser.specs.Nests.{ReadsParts};
ghost use Rattle.lua_parser.specs.Reads.{Reads};
ghost use Rattle.lua_parser.specs.Steps.{index_step, call_step, bracketed};

use crate::cursor::Tokens;
use crate::nodes;
use crate::parts::{Part, Parts};
use crate::stop::Stop;
use lanes_arena::Row;
use lua_grammar::Measured;
use lua_tokens::Sign;
use lua_tree::{Expr, Stat};
use std::alloc::Global;

impl<E, B> Parts<E, B>
where
    E: Fn(Global, &mut Tokens, usize, Part) -> Result<Measured<Expr>, Stop> + Copy,
    B: Fn(Global, &mut Tokens, usize) -> Result<Measured<Row<Stat>>, Stop> + Copy,
{
    /// An expression in brackets after the bracket.
    #[tactic(auto, using(crate::proofs::Low::first_low), unfolding(crate::specs::Steps::bracketed))]
    fn bracketed(&self, tokens: &mut Tokens) -> Result<Measured<Expr>, Stop>
        requires { ReadsParts self.now E.pre E.post B.pre B.post }
        ensures key { Reads (bracketed (parts self.now.depth) tokens.old) result tokens.new }
        ensures low { IfOk result (λ key. key.depth ≤ self.now.depth) }
    {
        let key = self.inner_expr(tokens, 0)?;
        tokens.expect_sign(Sign::CloseBracket)?;
        Ok(key)
    }

    /// An index of this expression, if one comes next, and whether one did.
    #[inline(never)]
    #[tactic(auto, using(crate::proofs::SuffixTurns::index_rules))]
    pub fn index(
        &self,
        tokens: &mut Tokens,
        object: Measured<Expr>,
    ) -> Result<(Measured<Expr>, bool), Stop>
        requires { ReadsParts self.now E.pre E.post B.pre B.post }
        ensures { Reads (index_step (parts self.now.depth) object tokens.old) result tokens.new }
    {
        let room = object.depth <= self.depth;
        if let Some(place) = tokens.sign_if(Sign::Dot, room)? {
            let (name, name_place) = tokens.expect_name()?;
            let index = nodes::dotted(self.alloc, object, place, name, name_place)?;
            return Ok((index, true));
        }
        if let Some(place) = tokens.sign_if(Sign::OpenBracket, room)? {
            let key = self.bracketed(tokens)?;
            let index = nodes::indexed(self.alloc, object, place, key)?;
            return Ok((index, true));
        }
        Ok((object, false))
    }

    /// A call of this expression, if one comes next, and whether one did.
    #[inline(never)]
    #[tactic(auto, using(crate::proofs::SuffixTurns::call_rules))]
    pub fn call(
        &self,
        tokens: &mut Tokens,
        function: Measured<Expr>,
    ) -> Result<(Measured<Expr>, bool), Stop>
        requires { ReadsParts self.now E.pre E.post B.pre B.post }
        ensures { Reads (call_step (parts self.now.depth) function tokens.old) result tokens.new }
    {
        let room = function.depth <= self.depth;
        if let Some(_) = tokens.sign_if(Sign::Colon, room)? {
            let (name, _) = tokens.expect_name()?;
            let Some(arguments) = self.arguments(tokens, true)? else {
                return Err(Stop::Bad);
            };
            let call = nodes::method_called(self.alloc, function, name, arguments)?;
            return Ok((call, true));
        }
        let Some(arguments) = self.arguments(tokens, room)? else {
            return Ok((function, false));
        };
        let call = nodes::called(self.alloc, function, arguments)?;
        Ok((call, true))
    }

    /// The indexes and calls that go on with an expression.
    #[inline(never)]
    #[tactic(auto, using(crate::proofs::SuffixTurns::suffix_rules))]
    pub fn suffixes(
        &self,
        tokens: &mut Tokens,
        first: Measured<Expr>,
    ) -> Result<Measured<Expr>, Stop>
        requires { ReadsParts self.now E.pre E.post B.pre B.post }
        ensures { Reads (spec.suffixes (parts self.now.depth) first tokens.old) result tokens.new }
    {
        let mut found = first;
        'turns: while tokens.has_suffix() {
            let (object, is_index) = self.index(tokens, found)?;
            if is_index {
                found = object;
                continue;
            }
            let (function, is_call) = self.call(tokens, object)?;
            if !is_call {
                return Ok(function);
            }
            found = function;
        }
        Ok(found)
    }
}
