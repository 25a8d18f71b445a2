//! Assignments and calls.

ghost use Rattle.lua_grammar.specs.Statements as spec;
ghost use Rattle.lua_parser.specs.Nests.{ReadsParts};
ghost use Rattle.lua_parser.specs.OneStat.{name_stat};
ghost use Rattle.lua_parser.specs.Reads.{Reads};
ghost use Rattle.lua_parser.specs.Steps.{over};

use crate::cursor::Tokens;
use crate::lists::{only, push};
use crate::nodes::name_leaf;
use crate::parts::{Part, Parts};
use crate::stop::Stop;
use lanes_arena::Row;
use lua_grammar::{Ends, Measured, Prefix};
use lua_tokens::{Place, Sign};
use lua_tree::{Expr, Stat};
use std::alloc::Global;

impl<E, B> Parts<E, B>
where
    E: Fn(Global, &mut Tokens, usize, Part) -> Result<Measured<Expr>, Stop> + Copy,
    B: Fn(Global, &mut Tokens, usize) -> Result<Measured<Row<Stat>>, Stop> + Copy,
{
    /// A target that goes on with this.
    #[tactic(auto, using(crate::proofs::PrefixTurns::target_from_rules))]
    pub fn target_from(&self, tokens: &mut Tokens, first: Prefix) -> Result<Measured<Expr>, Stop>
        requires { ReadsParts self.now E.pre E.post B.pre B.post }
        ensures { Reads (over self.now.depth spec.target_from first tokens.old) result tokens.new }
    {
        let Prefix { mut expr, mut ends } = first;
        'from: loop {
            let (indexed, is_index) = self.below(1).index(tokens, expr)?;
            if is_index {
                expr = indexed;
                ends = Ends::Variable;
                continue;
            }
            let (called, is_call) = self.below(2).call(tokens, indexed)?;
            if is_call {
                expr = called;
                ends = Ends::Call;
                continue;
            }
            return match ends {
                Ends::Variable => Ok(called),
                _ => Err(Stop::Bad),
            };
        }
    }

    /// A target after a comma.
    #[tactic(auto, using(crate::proofs::TargetSteps::target_rules))]
    pub fn target(&self, tokens: &mut Tokens) -> Result<Measured<Expr>, Stop>
        requires { ReadsParts self.now E.pre E.post B.pre B.post }
        ensures { Reads (over self.now.depth spec.target tokens.old) result tokens.new }
    {
        if let Some((name, place)) = tokens.name_if(true)? {
            return self.target_from(
                tokens,
                Prefix {
                    expr: name_leaf(name, place),
                    ends: Ends::Variable,
                },
            );
        }
        let Some(place) = tokens.sign_if(Sign::OpenParen, 3 <= self.depth)? else {
            return Err(Stop::Bad);
        };
        let expr = self.below(2).group(tokens, place)?;
        self.target_from(
            tokens,
            Prefix {
                expr,
                ends: Ends::Group,
            },
        )
    }

    /// An assignment after these targets.
    #[tactic(auto, using(crate::proofs::TargetsTurns::targets_rules))]
    pub fn assigned(
        &self,
        tokens: &mut Tokens,
        found: Measured<Row<Expr>>,
    ) -> Result<Measured<Stat>, Stop>
        requires { ReadsParts self.now E.pre E.post B.pre B.post }
        ensures { Reads (over self.now.depth spec.assigned found tokens.old) result tokens.new }
    {
        let mut targets = found;
        'targets: while let Some(_) = tokens.sign(Sign::Comma) {
            push(self.alloc, &mut targets, self.target(tokens)?)?;
        }
        tokens.expect_sign(Sign::Equal)?;
        let values = self.list(tokens)?;
        let depth = targets.depth.max(values.depth);
        Ok(Measured::new(Stat::Assign(targets.into_what(), values.into_what()), depth))
    }

    /// The indexes and calls that go on with what begins a statement.
    #[tactic(auto, using(crate::proofs::PrefixTurns::prefix_rules))]
    pub fn prefixes(&self, tokens: &mut Tokens, first: Prefix) -> Result<Prefix, Stop>
        requires { ReadsParts self.now E.pre E.post B.pre B.post }
        ensures { Reads (over self.now.depth spec.prefixes first tokens.old) result tokens.new }
    {
        let Prefix { mut expr, mut ends } = first;
        let below = self.below(1);
        'prefix: while tokens.has_suffix() {
            let (indexed, is_index) = below.index(tokens, expr)?;
            if is_index {
                expr = indexed;
                ends = Ends::Variable;
                continue;
            }
            let (called, is_call) = below.call(tokens, indexed)?;
            if !is_call {
                return Ok(Prefix { expr: called, ends });
            }
            expr = called;
            ends = Ends::Call;
        }
        Ok(Prefix { expr, ends })
    }

    /// A statement that begins with this.
    #[tactic(auto, using(crate::proofs::PrefixTurns::begun_rules))]
    pub fn begun(&self, tokens: &mut Tokens, first: Prefix) -> Result<Measured<Stat>, Stop>
        requires { ReadsParts self.now E.pre E.post B.pre B.post }
        ensures { Reads (over self.now.depth spec.begun first tokens.old) result tokens.new }
    {
        let begin = self.prefixes(tokens, first)?;
        match begin.ends {
            Ends::Variable => {
                let targets = only(self.alloc, begin.expr)?;
                self.assigned(tokens, targets)
            }
            Ends::Call => {
                let (what, depth) = begin.expr.into_parts();
                Ok(Measured::new(Stat::Call(what), depth))
            }
            Ends::Group => Err(Stop::Bad),
        }
    }

    /// A statement that a name begins.
    #[tactic(auto, using(crate::proofs::OneStats::name_rules))]
    pub fn name_stat(&self, tokens: &mut Tokens) -> Result<Measured<Stat>, Stop>
        requires { ReadsParts self.now E.pre E.post B.pre B.post }
        ensures { Reads (name_stat self.now.depth tokens.old) result tokens.new }
    {
        let (name, place) = tokens.need_name(1 <= self.depth)?;
        self.begun(
            tokens,
            Prefix {
                expr: name_leaf(name, place),
                ends: Ends::Variable,
            },
        )
    }

    /// A statement after the parenthesis at this place.
    #[tactic(auto, unfolding(lua_grammar::specs::Statements::after_open))]
    pub fn after_open(&self, tokens: &mut Tokens, place: Place) -> Result<Measured<Stat>, Stop>
        requires { ReadsParts self.now E.pre E.post B.pre B.post }
        ensures { Reads (over self.now.depth spec.after_open place tokens.old) result tokens.new }
    {
        let expr = self.below(2).group(tokens, place)?;
        self.begun(
            tokens,
            Prefix {
                expr,
                ends: Ends::Group,
            },
        )
    }
}
