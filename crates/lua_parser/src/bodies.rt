//! Functions.

ghost use Rattle.std.specs.Prelude.{◌≤◌, IfOk};
ghost use Rattle.lua_grammar.specs.Expressions as spec;
ghost use Rattle.lua_grammar.specs.Statements.{parts};
ghost use Rattle.lua_parser.specs.Nests.{ReadsParts};
ghost use Rattle.lua_parser.specs.Reads.{Reads};
ghost use Rattle.lua_parser.specs.Steps.{more_params, dots_end};

use crate::cursor::Tokens;
use crate::parts::{Part, Parts};
use crate::stop::Stop;
use lanes_arena::{Bytes, Row};
use lua_grammar::Measured;
use lua_tokens::{Place, Sign, Word};
use lua_tree::{Block, Body, Expr, Stat};
use std::alloc::Global;

impl<E, B> Parts<E, B>
where
    E: Fn(Global, &mut Tokens, usize, Part) -> Result<Measured<Expr>, Stop> + Copy,
    B: Fn(Global, &mut Tokens, usize) -> Result<Measured<Row<Stat>>, Stop> + Copy,
{
    /// The parenthesis that closes parameters after `...`.
    #[tactic(auto, unfolding(crate::specs::Steps::dots_end))]
    fn dots_end(
        &self,
        tokens: &mut Tokens,
        found: Row<(Bytes, Place)>,
    ) -> Result<(Row<(Bytes, Place)>, bool), Stop>
        ensures { Reads (dots_end self.now.depth found tokens.old) result tokens.new }
    {
        tokens.expect_sign(Sign::CloseParen)?;
        Ok((found, true))
    }

    /// Further parameters, up to the parenthesis that closes them.
    #[tactic(auto, using(crate::proofs::ParamTurns::more_rules))]
    fn more_params(
        &self,
        tokens: &mut Tokens,
        first: Row<(Bytes, Place)>,
    ) -> Result<(Row<(Bytes, Place)>, bool), Stop>
        ensures { Reads (more_params self.now.depth first tokens.old) result tokens.new }
    {
        let mut found = first.into_vec();
        'turns: while let Some(_) = tokens.sign(Sign::Comma) {
            match tokens.name_if(true)? {
                Some((name, place)) => found.push((name, place))?,
                None => {
                    if let Some(_) = tokens.sign(Sign::DotDotDot) {
                        return self.dots_end(tokens, Row::of(found));
                    }
                    return Err(Stop::Bad);
                }
            }
        }
        if let Some(_) = tokens.sign(Sign::CloseParen) {
            return Ok((Row::of(found), false));
        }
        Err(Stop::Bad)
    }

    /// Parameters after the parenthesis, up to the one that closes them, after these, and whether
    /// `...` is the last of them.
    #[tactic(auto, using(crate::proofs::ParamTurns::first_rules))]
    pub fn parameters(
        &self,
        tokens: &mut Tokens,
        first: Row<(Bytes, Place)>,
    ) -> Result<(Row<(Bytes, Place)>, bool), Stop>
        ensures { Reads (spec.parameters (parts self.now.depth) first tokens.old)
            result tokens.new }
    {
        if let Some((name, place)) = tokens.name_if(true)? {
            let mut found = first.into_vec();
            found.push((name, place))?;
            return self.more_params(tokens, Row::of(found));
        }
        if let Some(_) = tokens.sign(Sign::DotDotDot) {
            return self.dots_end(tokens, first);
        }
        if let Some(_) = tokens.sign(Sign::CloseParen) {
            return Ok((first, false));
        }
        Err(Stop::Bad)
    }

    /// What follows the word `function` at this place, and a name. These parameters come before its
    /// own.
    #[inline(never)]
    #[tactic(auto, using(crate::proofs::Low::block_low), unfolding(lua_grammar::specs::Expressions::function_body))]
    pub fn function_body(
        &self,
        tokens: &mut Tokens,
        at: Place,
        first: Row<(Bytes, Place)>,
    ) -> Result<Measured<Body>, Stop>
        requires { ReadsParts self.now E.pre E.post B.pre B.post }
        ensures body { Reads (spec.function_body (parts self.now.depth) at first tokens.old)
            result tokens.new }
        ensures low { IfOk result (λ body. body.depth ≤ self.now.depth) }
    {
        tokens.expect_sign(Sign::OpenParen)?;
        let (params, vararg) = self.parameters(tokens, first)?;
        let (what, depth) = self.inner_block(tokens)?.into_parts();
        tokens.expect_word(Word::End)?;
        let body = Body {
            params,
            vararg,
            block: Block { stats: what },
            line: at.line,
        };
        Ok(Measured::new(body, depth))
    }
}
