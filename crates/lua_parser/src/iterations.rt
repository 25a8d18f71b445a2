//! Loops.

ghost use Rattle.std.specs.Prelude.{◌≡◌};
ghost use Rattle.lua_grammar.specs.Statements as spec;
ghost use Rattle.lua_grammar.specs.Statements.{parts};
ghost use Rattle.lua_parser.specs.ForBlocks.{loop_block, numbers_stat, numbers_block, numbers_from, each_block};
ghost use Rattle.lua_parser.specs.Nests.{ReadsParts};
ghost use Rattle.lua_parser.specs.Reads.{Reads};
ghost use Rattle.lua_parser.specs.Steps.{over};

use crate::cursor::Tokens;
use crate::parts::{Part, Parts};
use crate::rows::single;
use crate::stop::Stop;
use lanes_arena::{Bytes, Row};
use lua_grammar::Measured;
use lua_tokens::{Place, Sign, Word};
use lua_tree::{Block, Expr, Stat};
use sqlite_items::Boxed;
use std::alloc::Global;

/// A numerical `for` of these parts.
#[tactic(auto, unfolding(crate::specs::ForBlocks::numbers_stat))]
fn numbers_stat(
    name: Bytes,
    place: Place,
    start: Measured<Boxed<Expr>>,
    limit: Measured<Boxed<Expr>>,
    step: Measured<Option<Boxed<Expr>>>,
    block: Measured<Row<Stat>>,
) -> Measured<Stat>
    ensures { result ≡ numbers_stat name place start limit step block }
{
    let bounds = start.depth.max(limit.depth);
    let depth = bounds.max(step.depth.max(block.depth));
    let repeated = Block {
        stats: block.into_what(),
    };
    let what = Stat::ForNum(
        name,
        place,
        start.into_what(),
        limit.into_what(),
        step.into_what(),
        repeated,
    );
    Measured::new(what, depth)
}

impl<E, B> Parts<E, B>
where
    E: Fn(Global, &mut Tokens, usize, Part) -> Result<Measured<Expr>, Stop> + Copy,
    B: Fn(Global, &mut Tokens, usize) -> Result<Measured<Row<Stat>>, Stop> + Copy,
{
    /// A `while` statement after its word.
    #[tactic(auto, unfolding(lua_grammar::specs::Statements::after_while))]
    pub fn after_while(&self, tokens: &mut Tokens) -> Result<Measured<Stat>, Stop>
        requires { ReadsParts self.now E.pre E.post B.pre B.post }
        ensures { Reads (over self.now.depth spec.after_while tokens.old) result tokens.new }
    {
        let condition = self.inner_expr(tokens, 0)?;
        tokens.expect_word(Word::Do)?;
        let block = self.inner_block(tokens)?;
        tokens.expect_word(Word::End)?;
        let depth = condition.depth.max(block.depth);
        let repeated = Block {
            stats: block.into_what(),
        };
        Ok(Measured::new(Stat::While(condition.into_what(), repeated), depth))
    }

    /// A `repeat` statement after its word.
    #[tactic(auto, unfolding(lua_grammar::specs::Statements::after_repeat))]
    pub fn after_repeat(&self, tokens: &mut Tokens) -> Result<Measured<Stat>, Stop>
        requires { ReadsParts self.now E.pre E.post B.pre B.post }
        ensures { Reads (over self.now.depth spec.after_repeat tokens.old) result tokens.new }
    {
        let block = self.inner_block(tokens)?;
        tokens.expect_word(Word::Until)?;
        let condition = self.inner_expr(tokens, 0)?;
        let depth = block.depth.max(condition.depth);
        let repeated = Block {
            stats: block.into_what(),
        };
        Ok(Measured::new(Stat::Repeat(repeated, condition.into_what()), depth))
    }

    /// The block of a `for`, from `do` to `end`.
    #[tactic(auto, unfolding(crate::specs::ForBlocks::loop_block))]
    fn loop_block(&self, tokens: &mut Tokens) -> Result<Measured<Row<Stat>>, Stop>
        requires { ReadsParts self.now E.pre E.post B.pre B.post }
        ensures { Reads (loop_block (parts self.now.depth) tokens.old) result tokens.new }
    {
        tokens.expect_word(Word::Do)?;
        let block = self.inner_block(tokens)?;
        tokens.expect_word(Word::End)?;
        Ok(block)
    }

    /// The start, the limit or the step of a numerical `for`.
    fn bound(&self, tokens: &mut Tokens) -> Result<Measured<Boxed<Expr>>, Stop>
        requires { ReadsParts self.now E.pre E.post B.pre B.post }
        ensures { Reads ((parts self.now.depth).expr 0 tokens.old) result tokens.new }
    {
        let (what, depth) = self.inner_expr(tokens, 0)?.into_parts();
        Ok(Measured::new(Boxed::new(self.alloc, what)?, depth))
    }

    /// The step of a numerical `for`.
    #[tactic(auto, using(crate::proofs::ForSteps::step_rules))]
    pub fn for_step(&self, tokens: &mut Tokens) -> Result<Measured<Option<Boxed<Expr>>>, Stop>
        requires { ReadsParts self.now E.pre E.post B.pre B.post }
        ensures { Reads (over self.now.depth spec.for_step tokens.old) result tokens.new }
    {
        let Some(_) = tokens.sign(Sign::Comma) else {
            return Ok(Measured::new(None, 0));
        };
        let step = self.bound(tokens)?;
        let (step, depth) = step.into_parts();
        Ok(Measured::new(Some(step), depth))
    }

    /// A numerical `for` after its equals sign.
    #[tactic(auto, using(crate::proofs::ForBlockSteps::numbers_rules))]
    pub fn for_numbers(
        &self,
        tokens: &mut Tokens,
        name: Bytes,
        place: Place,
    ) -> Result<Measured<Stat>, Stop>
        requires { ReadsParts self.now E.pre E.post B.pre B.post }
        ensures { Reads (over self.now.depth spec.for_numbers name place tokens.old)
            result tokens.new }
    {
        let start = self.bound(tokens)?;
        tokens.expect_sign(Sign::Comma)?;
        self.numbers_from(tokens, name, place, start)
    }

    /// A numerical `for` after the comma that follows its start.
    #[tactic(auto, using(crate::proofs::ForBlockSteps::from_rules))]
    fn numbers_from(
        &self,
        tokens: &mut Tokens,
        name: Bytes,
        place: Place,
        start: Measured<Boxed<Expr>>,
    ) -> Result<Measured<Stat>, Stop>
        requires { ReadsParts self.now E.pre E.post B.pre B.post }
        ensures { Reads (numbers_from self.now.depth name place start tokens.old)
            result tokens.new }
    {
        let limit = self.bound(tokens)?;
        let step = self.for_step(tokens)?;
        self.numbers_block(tokens, name, place, start, limit, step)
    }

    /// A numerical `for` after its step.
    #[tactic(auto, using(crate::proofs::ForBlockSteps::numbers_block_rules))]
    fn numbers_block(
        &self,
        tokens: &mut Tokens,
        name: Bytes,
        place: Place,
        start: Measured<Boxed<Expr>>,
        limit: Measured<Boxed<Expr>>,
        step: Measured<Option<Boxed<Expr>>>,
    ) -> Result<Measured<Stat>, Stop>
        requires { ReadsParts self.now E.pre E.post B.pre B.post }
        ensures { Reads (numbers_block
            (parts self.now.depth) name place start limit step tokens.old) result tokens.new }
    {
        let block = self.loop_block(tokens)?;
        Ok(numbers_stat(name, place, start, limit, step, block))
    }

    /// The names that go on with those of a `for`, up to its word `in`.
    #[tactic(auto, using(crate::proofs::NameTurns::name_rules))]
    pub fn for_names(
        &self,
        tokens: &mut Tokens,
        found: Row<(Bytes, Place)>,
    ) -> Result<Row<(Bytes, Place)>, Stop>
        requires { ReadsParts self.now E.pre E.post B.pre B.post }
        ensures { Reads (over self.now.depth spec.for_names found tokens.old) result tokens.new }
    {
        let mut names = found.into_vec();
        'names: while let Some(_) = tokens.sign(Sign::Comma) {
            let (name, place) = tokens.expect_name()?;
            names.push((name, place))?;
        }
        tokens.expect_word(Word::In)?;
        Ok(Row::of(names))
    }

    /// A generic `for` after its first name.
    #[tactic(auto, using(crate::proofs::ForBlockSteps::each_rules))]
    pub fn for_each(
        &self,
        tokens: &mut Tokens,
        name: Bytes,
        place: Place,
    ) -> Result<Measured<Stat>, Stop>
        requires { ReadsParts self.now E.pre E.post B.pre B.post }
        ensures { Reads (over self.now.depth spec.for_each name place tokens.old)
            result tokens.new }
    {
        let first = single(self.alloc, (name, place))?;
        let names = self.for_names(tokens, first)?;
        let values = self.list(tokens)?;
        self.each_block(tokens, names, values)
    }

    /// A generic `for` after its values.
    #[tactic(auto, unfolding(crate::specs::ForBlocks::each_block))]
    fn each_block(
        &self,
        tokens: &mut Tokens,
        names: Row<(Bytes, Place)>,
        values: Measured<Row<Expr>>,
    ) -> Result<Measured<Stat>, Stop>
        requires { ReadsParts self.now E.pre E.post B.pre B.post }
        ensures { Reads (each_block (parts self.now.depth) names values tokens.old)
            result tokens.new }
    {
        tokens.expect_word(Word::Do)?;
        let block = self.inner_block(tokens)?;
        tokens.expect_word(Word::End)?;
        let depth = values.depth.max(block.depth);
        let repeated = Block {
            stats: block.into_what(),
        };
        Ok(Measured::new(Stat::ForIn(names, values.into_what(), repeated), depth))
    }

    /// A `for` statement after its word.
    #[tactic(auto, using(crate::proofs::ForSteps::for_rules))]
    pub fn after_for(&self, tokens: &mut Tokens) -> Result<Measured<Stat>, Stop>
        requires { ReadsParts self.now E.pre E.post B.pre B.post }
        ensures { Reads (over self.now.depth spec.after_for tokens.old) result tokens.new }
    {
        let (name, place) = tokens.expect_name()?;
        if let Some(_) = tokens.sign(Sign::Equal) {
            return self.for_numbers(tokens, name, place);
        }
        self.for_each(tokens, name, place)
    }
}
