//! Functions that read the parts of something.

ghost use Rattle.std.specs.Prelude.{◌≡◌, ◌<◌, ◌≤◌, ◌-◌};
ghost use Rattle.lua_grammar.specs.Statements.{parts};
ghost use Rattle.lua_parser.specs.Reads.{Reads};

use crate::cursor::Tokens;
use crate::stop::Stop;
use lanes_arena::Row;
use lua_grammar::Measured;
use lua_tokens::Place;
use lua_tree::{Expr, Stat};
use std::alloc::Global;

/// A part that is an expression.
#[derive(Drop)]
pub enum Part {
    /// One of operators from this level on.
    Level(u8),
    /// What goes on with an expression.
    Rest(Measured<Expr>),
    /// A table constructor after the brace at this place.
    Table(Place),
}

/// The functions that read the parts of something, where the parts have at most this depth.
#[derive(Drop)]
pub struct Parts<E, B> {
    pub alloc: Global,
    pub depth: usize,
    pub parts: E,
    pub blocks: B,
    ghost small: { depth < 1000 },
}

impl<E, B> Parts<E, B>
where
    E: Fn(Global, &mut Tokens, usize, Part) -> Result<Measured<Expr>, Stop> + Copy,
    B: Fn(Global, &mut Tokens, usize) -> Result<Measured<Row<Stat>>, Stop> + Copy,
{
    ghost use Rattle.lua_parser.specs.Nests.{ReadsParts};

    /// Those of a depth less by this, or of 0.
    pub fn below(&self, less: usize) -> Parts<E, B>
        ensures depth { result.depth ≡ self.now.depth - less }
        ensures parts { result.parts ≡ self.now.parts }
        ensures blocks { result.blocks ≡ self.now.blocks }
    {
        Parts {
            alloc: self.alloc,
            depth: self.depth.saturating_sub(less),
            parts: self.parts,
            blocks: self.blocks,
        }
    }

    /// An expression of operators from this level on.
    pub fn inner_expr(&self, tokens: &mut Tokens, least: u8) -> Result<Measured<Expr>, Stop>
        requires { ReadsParts self.now E.pre E.post B.pre B.post }
        ensures { Reads ((parts self.now.depth).expr least tokens.old) result tokens.new }
    {
        (self.parts)(self.alloc, tokens, self.depth, Part::Level(least))
    }

    /// What goes on with an expression.
    pub fn inner_rest(
        &self,
        tokens: &mut Tokens,
        first: Measured<Expr>,
    ) -> Result<Measured<Expr>, Stop>
        requires { ReadsParts self.now E.pre E.post B.pre B.post }
        ensures { Reads ((parts self.now.depth).rest first tokens.old) result tokens.new }
    {
        (self.parts)(self.alloc, tokens, self.depth, Part::Rest(first))
    }

    /// A table constructor after the brace at this place.
    pub fn inner_table(&self, tokens: &mut Tokens, place: Place) -> Result<Measured<Expr>, Stop>
        requires { ReadsParts self.now E.pre E.post B.pre B.post }
        ensures { Reads ((parts self.now.depth).table place tokens.old) result tokens.new }
    {
        (self.parts)(self.alloc, tokens, self.depth, Part::Table(place))
    }

    /// The statements of a block.
    pub fn inner_block(&self, tokens: &mut Tokens) -> Result<Measured<Row<Stat>>, Stop>
        requires { ReadsParts self.now E.pre E.post B.pre B.post }
        ensures { Reads ((parts self.now.depth).block tokens.old) result tokens.new }
    {
        (self.blocks)(self.alloc, tokens, self.depth)
    }
}
