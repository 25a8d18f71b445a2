//! Blocks.

ghost use Rattle.std.specs.Prelude.{◌≤◌, length};
ghost use Rattle.lua_grammar.specs.Statements as spec;
ghost use Rattle.lua_parser.specs.OneStat.{after_kind, one_stat};
ghost use Rattle.lua_parser.specs.Nests.{ReadsParts};
ghost use Rattle.lua_parser.specs.Reads.{Reads};
ghost use Rattle.lua_parser.specs.Steps.{over};

use crate::cursor::Tokens;
use crate::jumps::{after_colons, after_goto};
use crate::lists::{nothing, push};
use crate::parts::{Part, Parts};
use crate::start::{Kind, Start};
use crate::stop::Stop;
use lanes_arena::Row;
use lua_grammar::Measured;
use lua_tokens::{Place, Sign, Word};
use lua_tree::{Block, Expr, Stat};
use std::alloc::Global;

impl<E, B> Parts<E, B>
where
    E: Fn(Global, &mut Tokens, usize, Part) -> Result<Measured<Expr>, Stop> + Copy,
    B: Fn(Global, &mut Tokens, usize) -> Result<Measured<Row<Stat>>, Stop> + Copy,
{
    /// A `do` statement after its word.
    #[tactic(auto, unfolding(lua_grammar::specs::Statements::after_do))]
    pub fn after_do(&self, tokens: &mut Tokens) -> Result<Measured<Stat>, Stop>
        requires { ReadsParts self.now E.pre E.post B.pre B.post }
        ensures { Reads (over self.now.depth spec.after_do tokens.old) result tokens.new }
    {
        let block = self.inner_block(tokens)?;
        tokens.expect_word(Word::End)?;
        let (stats, depth) = block.into_parts();
        Ok(Measured::new(Stat::Do(Block { stats }), depth))
    }

    /// The values of a `return` statement.
    #[tactic(auto, using(crate::proofs::StatTurns::returned_rules))]
    pub fn returned(&self, tokens: &mut Tokens) -> Result<Measured<Row<Expr>>, Stop>
        requires { ReadsParts self.now E.pre E.post B.pre B.post }
        ensures { Reads (over self.now.depth spec.returned tokens.old) result tokens.new }
    {
        if tokens.ends_return() {
            return Ok(nothing(self.alloc));
        }
        self.list(tokens)
    }

    /// A `return` statement after its word.
    #[tactic(auto, using(crate::proofs::StatTurns::return_rules))]
    pub fn after_return(&self, tokens: &mut Tokens) -> Result<Measured<Stat>, Stop>
        requires { ReadsParts self.now E.pre E.post B.pre B.post }
        ensures { Reads (over self.now.depth spec.after_return tokens.old) result tokens.new }
    {
        let values = self.returned(tokens)?;
        let _ = tokens.sign(Sign::Semicolon);
        let (values, depth) = values.into_parts();
        Ok(Measured::new(Stat::Return(values), depth))
    }

    /// A statement after the token here that begins it.
    #[tactic(auto, using(crate::proofs::OneStats::kind_rules))]
    fn after_kind(
        &self,
        tokens: &mut Tokens,
        kind: Kind,
        place: Place,
    ) -> Result<Measured<Stat>, Stop>
        requires { ReadsParts self.now E.pre E.post B.pre B.post }
        ensures { Reads (after_kind self.now.depth kind place tokens.old) result tokens.new }
    {
        match kind {
            Kind::Break => Ok(Measured::new(Stat::Break(place), 0)),
            Kind::Goto => after_goto(tokens),
            Kind::Label => after_colons(tokens),
            Kind::Paren => self.after_open(tokens, place),
            Kind::Local => self.after_local(tokens),
            Kind::If => self.after_if(tokens),
            Kind::For => self.after_for(tokens),
            Kind::Function => self.after_function(tokens, place),
            Kind::While => self.after_while(tokens),
            Kind::Repeat => self.after_repeat(tokens),
            Kind::Do => self.after_do(tokens),
        }
    }

    /// A statement that the next token begins, where there is room for it.
    #[tactic(auto, using(crate::proofs::OneStats::one_rules))]
    fn one_stat(&self, tokens: &mut Tokens, kind: Kind) -> Result<Measured<Stat>, Stop>
        requires parts { ReadsParts self.now E.pre E.post B.pre B.post }
        requires begins { 1 ≤ length tokens.old }
        ensures { Reads (one_stat self.now.depth kind tokens.old) result tokens.new }
    {
        let has_room = kind.room() <= self.depth;
        if !has_room {
            return Err(Stop::Deep);
        }
        let place = tokens.take_place();
        self.after_kind(tokens, kind, place)
    }

    /// The statements that go on with a block.
    #[tactic(auto, using(crate::proofs::StatTurns::stats_rules))]
    pub fn more_stats(
        &self,
        tokens: &mut Tokens,
        found: Measured<Row<Stat>>,
    ) -> Result<Measured<Row<Stat>>, Stop>
        requires { ReadsParts self.now E.pre E.post B.pre B.post }
        ensures { Reads (over self.now.depth spec.more_stats found tokens.old) result tokens.new }
    {
        let mut stats = found;
        'stats: loop {
            match tokens.start() {
                Start::Semicolon => tokens.take(),
                Start::Return => {
                    tokens.take();
                    push(self.alloc, &mut stats, self.after_return(tokens)?)?;
                    return Ok(stats);
                }
                Start::Name => push(self.alloc, &mut stats, self.name_stat(tokens)?)?,
                Start::Stat(kind) => push(self.alloc, &mut stats, self.one_stat(tokens, kind)?)?,
                Start::End => return Ok(stats),
            }
        }
    }

    /// The statements of a block.
    #[tactic(auto, using(crate::proofs::BlockDepths::stats_low), unfolding(lua_grammar::specs::Statements::block))]
    pub fn block(&self, tokens: &mut Tokens) -> Result<Measured<Row<Stat>>, Stop>
        requires { ReadsParts self.now E.pre E.post B.pre B.post }
        ensures { Reads (over self.now.depth spec.block tokens.old) result tokens.new }
    {
        let (what, depth) = self.more_stats(tokens, nothing(self.alloc))?.into_parts();
        Ok(Measured::new(what, depth + 1))
    }
}
