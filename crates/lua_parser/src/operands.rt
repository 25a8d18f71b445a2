//! Operands.

ghost use Rattle.std.specs.Prelude.{◌≡◌, true, None};
ghost use Rattle.lua_grammar.specs.Expressions as spec;
ghost use Rattle.lua_grammar.specs.Statements.{parts};
ghost use Rattle.lua_tokens.specs.declared.token.Lexeme.TheVariants as l;
ghost use Rattle.lua_tokens.specs.declared.sign.Sign.TheVariants as s;
ghost use Rattle.lua_parser.specs.Looks.{kind_at, name_at, place_of};
ghost use Rattle.lua_parser.specs.Nests.{ReadsParts};
ghost use Rattle.lua_parser.specs.Reads.{Reads};

use crate::cursor::Tokens;
use crate::nodes;
use crate::parts::{Part, Parts};
use crate::stop::Stop;
use lanes_arena::Row;
use lua_grammar::Measured;
use lua_tokens::{Sign, Word};
use lua_tree::{Expr, Stat};
use std::alloc::Global;

/// The level of the operands of unary operators.
const UNARY: u8 = 11;

impl<E, B> Parts<E, B>
where
    E: Fn(Global, &mut Tokens, usize, Part) -> Result<Measured<Expr>, Stop> + Copy,
    B: Fn(Global, &mut Tokens, usize) -> Result<Measured<Row<Stat>>, Stop> + Copy,
{
    /// An expression without a binary operator.
    #[tactic(auto, using(crate::proofs::OperandTurns::rules))]
    pub fn operand(&self, tokens: &mut Tokens) -> Result<Measured<Expr>, Stop>
        requires { ReadsParts self.now E.pre E.post B.pre B.post }
        ensures { Reads (spec.operand (parts self.now.depth) true tokens.old) result tokens.new }
    {
        if let Some((kind, place)) = tokens.atom()? {
            return Ok(nodes::leaf(kind, place));
        }
        let Some((name, place)) = tokens.name_if(true)? else {
            return self.other_operand(tokens);
        };
        let leaf = nodes::name_leaf(name, place);
        if !tokens.has_suffix() {
            return Ok(leaf);
        }
        self.suffixes(tokens, leaf)
    }

    /// An operand that begins with neither an atom nor a name.
    #[inline(never)]
    #[tactic(auto, using(crate::proofs::OperandTurns::rules, crate::proofs::Low::unary_low))]
    fn other_operand(&self, tokens: &mut Tokens) -> Result<Measured<Expr>, Stop>
        requires nests { ReadsParts self.now E.pre E.post B.pre B.post }
        requires no_atom { kind_at tokens.old ≡ None }
        requires no_name { name_at tokens.old ≡ None }
        ensures { Reads (spec.operand (parts self.now.depth) true tokens.old) result tokens.new }
    {
        let room = 1 <= self.depth;
        if let Some(place) = tokens.sign_if(Sign::OpenParen, room)? {
            let group = self.group(tokens, place)?;
            return self.suffixes(tokens, group);
        }
        if let Some(place) = tokens.sign(Sign::OpenBrace) {
            return self.table(tokens, place);
        }
        self.last_operand(tokens)
    }

    /// A function, or an operand of a unary operator.
    #[tactic(auto, using(crate::proofs::OperandTurns::rules, crate::proofs::Low::unary_low))]
    fn last_operand(&self, tokens: &mut Tokens) -> Result<Measured<Expr>, Stop>
        requires parts { ReadsParts self.now E.pre E.post B.pre B.post }
        requires no_atom { kind_at tokens.old ≡ None }
        requires no_name { name_at tokens.old ≡ None }
        requires no_parenthesis { place_of (l.Sign s.OpenParen) tokens.old ≡ None }
        requires no_brace { place_of (l.Sign s.OpenBrace) tokens.old ≡ None }
        ensures { Reads (spec.operand (parts self.now.depth) true tokens.old) result tokens.new }
    {
        let room = 1 <= self.depth;
        if let Some(place) = tokens.word_if(Word::Function, room)? {
            let params = Row::of(Vec::new(self.alloc));
            let body = self.function_body(tokens, place, params)?;
            return Ok(nodes::function_node(self.alloc, place, body)?);
        }
        let Some((operator, place)) = tokens.unary_if(room)? else {
            return Err(Stop::Bad);
        };
        let inner = self.inner_expr(tokens, UNARY)?;
        Ok(nodes::unary_node(self.alloc, operator, place, inner)?)
    }
}
