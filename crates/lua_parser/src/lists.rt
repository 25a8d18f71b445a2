//! Lists of expressions.

ghost use Rattle.std.specs.Prelude.{◌≡◌, ◌≤◌, IfOk, OnOk};
ghost use Rattle.lua_grammar.specs.Expressions as spec;
ghost use Rattle.lua_grammar.specs.Statements.{parts};
ghost use Rattle.lua_parser.specs.Nests.{ReadsParts};
ghost use Rattle.lua_parser.specs.Reads.{Reads};

use crate::cursor::Tokens;
use crate::parts::{Part, Parts};
use crate::stop::Stop;
use lanes_arena::Row;
use lua_grammar::Measured;
use lua_tokens::Sign;
use lua_tree::{Expr, Stat};
use std::alloc::{AllocError, Global};

/// A list of nothing.
pub fn nothing<T>(alloc: Global) -> Measured<Row<T>>
    ensures { result ≡ spec.nothing }
{
    Measured::new(Row::new(alloc), 0)
}

/// Puts this at the end of a list. The first gets room for itself alone, since most lists have one.
pub fn push<T: Drop>(
    alloc: Global,
    list: &mut Measured<Row<T>>,
    one: Measured<T>,
) -> Result<(), AllocError>
    ensures { OnOk result (list.new ≡ spec.with_one list.old one) }
{
    let (what, depth) = one.into_parts();
    if list.what.is_empty() {
        let mut items = Vec::with_capacity(alloc, 1)?;
        items.push_reserved(what);
        list.what = Row::of(items);
    } else {
        list.what.push(what)?;
    }
    list.depth = list.depth.max(depth);
    Ok(())
}

/// A list of this alone.
pub fn only<T: Drop>(alloc: Global, one: Measured<T>) -> Result<Measured<Row<T>>, AllocError>
    ensures { IfOk result (λ list. list ≡ spec.only one) }
{
    let (what, depth) = one.into_parts();
    let mut list = Vec::with_capacity(alloc, 1)?;
    list.push_reserved(what);
    Ok(Measured::new(Row::of(list), depth))
}

impl<E, B> Parts<E, B>
where
    E: Fn(Global, &mut Tokens, usize, Part) -> Result<Measured<Expr>, Stop> + Copy,
    B: Fn(Global, &mut Tokens, usize) -> Result<Measured<Row<Stat>>, Stop> + Copy,
{
    /// The expressions that go on with a list.
    #[tactic(auto, using(crate::proofs::ListTurns::list_rules))]
    pub fn more_exprs(
        &self,
        tokens: &mut Tokens,
        first: Measured<Row<Expr>>,
    ) -> Result<Measured<Row<Expr>>, Stop>
        requires { ReadsParts self.now E.pre E.post B.pre B.post }
        ensures { Reads (spec.more_exprs (parts self.now.depth) first tokens.old)
            result tokens.new }
    {
        let mut found = first;
        'more: while let Some(_) = tokens.sign(Sign::Comma) {
            push(self.alloc, &mut found, self.inner_expr(tokens, 0)?)?;
        }
        Ok(found)
    }

    /// A list of expressions.
    #[tactic(auto, using(crate::proofs::Low::exprs_low), unfolding(lua_grammar::specs::Expressions::list))]
    pub fn list(&self, tokens: &mut Tokens) -> Result<Measured<Row<Expr>>, Stop>
        requires { ReadsParts self.now E.pre E.post B.pre B.post }
        ensures list { Reads (spec.list (parts self.now.depth) tokens.old) result tokens.new }
        ensures low { IfOk result (λ list. list.depth ≤ self.now.depth) }
    {
        let first = self.inner_expr(tokens, 0)?;
        let begun = only(self.alloc, first)?;
        let list = self.more_exprs(tokens, begun)?;
        Ok(list)
    }
}
