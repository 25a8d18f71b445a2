//! `if` statements.

ghost use Rattle.lua_grammar.specs.Statements as spec;
ghost use Rattle.lua_parser.specs.Nests.{ReadsParts};
ghost use Rattle.lua_parser.specs.Reads.{Reads};
ghost use Rattle.lua_parser.specs.Steps.{over};

use crate::cursor::Tokens;
use crate::lists::{only, push};
use crate::parts::{Part, Parts};
use crate::stop::Stop;
use lanes_arena::Row;
use lua_grammar::Measured;
use lua_tokens::Word;
use lua_tree::{Block, Branch, Expr, Stat};
use std::alloc::Global;

impl<E, B> Parts<E, B>
where
    E: Fn(Global, &mut Tokens, usize, Part) -> Result<Measured<Expr>, Stop> + Copy,
    B: Fn(Global, &mut Tokens, usize) -> Result<Measured<Row<Stat>>, Stop> + Copy,
{
    /// A condition and its block.
    #[tactic(auto, unfolding(lua_grammar::specs::Statements::condition))]
    pub fn condition(&self, tokens: &mut Tokens) -> Result<Measured<Branch>, Stop>
        requires { ReadsParts self.now E.pre E.post B.pre B.post }
        ensures { Reads (over self.now.depth spec.condition tokens.old) result tokens.new }
    {
        let condition = self.inner_expr(tokens, 0)?;
        tokens.expect_word(Word::Then)?;
        let block = self.inner_block(tokens)?;
        let depth = condition.depth.max(block.depth);
        Ok(Measured::new(
            Branch {
                condition: condition.into_what(),
                block: Block {
                    stats: block.into_what(),
                },
            },
            depth,
        ))
    }

    /// The block after `else`, with the branches before it.
    #[tactic(auto, unfolding(lua_grammar::specs::Statements::after_else))]
    pub fn after_else(
        &self,
        tokens: &mut Tokens,
        found: Measured<Row<Branch>>,
    ) -> Result<Measured<Stat>, Stop>
        requires { ReadsParts self.now E.pre E.post B.pre B.post }
        ensures { Reads (over self.now.depth spec.after_else found tokens.old) result tokens.new }
    {
        let block = self.inner_block(tokens)?;
        tokens.expect_word(Word::End)?;
        let depth = found.depth.max(block.depth);
        let last = Block {
            stats: block.into_what(),
        };
        Ok(Measured::new(Stat::If(found.into_what(), Some(last)), depth))
    }

    /// What goes on with an `if` statement after these branches.
    #[tactic(auto, using(crate::proofs::ArmTurns::arm_rules))]
    pub fn more_arms(
        &self,
        tokens: &mut Tokens,
        found: Measured<Row<Branch>>,
    ) -> Result<Measured<Stat>, Stop>
        requires { ReadsParts self.now E.pre E.post B.pre B.post }
        ensures { Reads (over self.now.depth spec.more_arms found tokens.old) result tokens.new }
    {
        let mut arms = found;
        while let Some(_) = tokens.word(Word::Elseif) {
            push(self.alloc, &mut arms, self.condition(tokens)?)?;
        }
        if let Some(_) = tokens.word(Word::Else) {
            return self.after_else(tokens, arms);
        }
        tokens.expect_word(Word::End)?;
        let (arms, depth) = arms.into_parts();
        Ok(Measured::new(Stat::If(arms, None), depth))
    }

    /// An `if` statement after its word.
    #[tactic(auto, unfolding(lua_grammar::specs::Statements::after_if))]
    pub fn after_if(&self, tokens: &mut Tokens) -> Result<Measured<Stat>, Stop>
        requires { ReadsParts self.now E.pre E.post B.pre B.post }
        ensures { Reads (over self.now.depth spec.after_if tokens.old) result tokens.new }
    {
        let first = self.condition(tokens)?;
        self.more_arms(tokens, only(self.alloc, first)?)
    }
}
