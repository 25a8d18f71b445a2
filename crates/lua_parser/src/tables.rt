//! Table constructors.

ghost use Rattle.std.specs.Prelude.{◌≤◌, IfOk};
ghost use Rattle.lua_grammar.specs.Expressions as spec;
ghost use Rattle.lua_grammar.specs.Statements.{parts};
ghost use Rattle.lua_parser.specs.Fields as fields;
ghost use Rattle.lua_parser.specs.Nests.{ReadsParts};
ghost use Rattle.lua_parser.specs.Reads.{Reads};

use crate::cursor::Tokens;
use crate::parts::{Part, Parts};
use crate::stop::Stop;
use crate::{lists, nodes};
use lanes_arena::{Bytes, Row};
use lua_grammar::Measured;
use lua_tokens::{Place, Sign};
use lua_tree::{Expr, Field, Stat};
use std::alloc::Global;

/// What follows a field: whether another one may come after it, or the table ends.
#[tactic(auto, using(crate::proofs::FieldTurns::separator_rules))]
fn separated(tokens: &mut Tokens) -> Result<bool, Stop>
    ensures { Reads (fields.separator tokens.old) result tokens.new }
{
    if let Some(_) = tokens.sign(Sign::Comma) {
        return Ok(true);
    }
    if let Some(_) = tokens.sign(Sign::Semicolon) {
        return Ok(true);
    }
    if let Some(_) = tokens.sign(Sign::CloseBrace) {
        return Ok(false);
    }
    Err(Stop::Bad)
}

impl<E, B> Parts<E, B>
where
    E: Fn(Global, &mut Tokens, usize, Part) -> Result<Measured<Expr>, Stop> + Copy,
    B: Fn(Global, &mut Tokens, usize) -> Result<Measured<Row<Stat>>, Stop> + Copy,
{
    /// A field after the name that begins it.
    #[tactic(auto, using(crate::proofs::FieldTurns::name_rules, crate::proofs::Low::first_low, crate::proofs::Low::rest_low))]
    fn named_field(
        &self,
        tokens: &mut Tokens,
        name: Bytes,
        place: Place,
    ) -> Result<Measured<Field>, Stop>
        requires { ReadsParts self.now E.pre E.post B.pre B.post }
        ensures field { Reads (fields.name_field (parts self.now.depth) name place tokens.old)
            result tokens.new }
        ensures low { IfOk result (λ field. field.depth ≤ self.now.depth) }
    {
        if let Some(_) = tokens.sign(Sign::Equal) {
            let (what, depth) = self.inner_expr(tokens, 0)?.into_parts();
            return Ok(Measured::new(Field::Named(name, what), depth));
        }
        let rest = self.inner_rest(tokens, nodes::name_leaf(name, place))?;
        let (what, depth) = rest.into_parts();
        Ok(Measured::new(Field::Item(what), depth))
    }

    /// A field after the bracket that begins it.
    #[tactic(auto, using(crate::proofs::Low::first_low), unfolding(crate::specs::Fields::key_field))]
    fn keyed_field(&self, tokens: &mut Tokens) -> Result<Measured<Field>, Stop>
        requires { ReadsParts self.now E.pre E.post B.pre B.post }
        ensures field { Reads (fields.key_field (parts self.now.depth) tokens.old)
            result tokens.new }
        ensures low { IfOk result (λ field. field.depth ≤ self.now.depth) }
    {
        let key = self.inner_expr(tokens, 0)?;
        tokens.expect_sign(Sign::CloseBracket)?;
        tokens.expect_sign(Sign::Equal)?;
        let value = self.inner_expr(tokens, 0)?;
        let depth = key.depth.max(value.depth);
        Ok(Measured::new(Field::Keyed(key.into_what(), value.into_what()), depth))
    }

    #[tactic(auto, using(crate::proofs::FieldTurns::field_rules, crate::proofs::Low::first_low))]
    fn field(&self, tokens: &mut Tokens) -> Result<Measured<Field>, Stop>
        requires { ReadsParts self.now E.pre E.post B.pre B.post }
        ensures field { Reads (fields.one_field (parts self.now.depth) tokens.old)
            result tokens.new }
        ensures low { IfOk result (λ field. field.depth ≤ self.now.depth) }
    {
        let room = 1 <= self.depth;
        if let Some((name, place)) = tokens.name_if(room)? {
            let field = self.named_field(tokens, name, place)?;
            return Ok(field);
        }
        if let Some(_) = tokens.sign_if(Sign::OpenBracket, room)? {
            let field = self.keyed_field(tokens)?;
            return Ok(field);
        }
        let (what, depth) = self.inner_expr(tokens, 0)?.into_parts();
        Ok(Measured::new(Field::Item(what), depth))
    }

    /// A table constructor after the brace at this place.
    #[inline(never)]
    #[tactic(auto, using(crate::proofs::FieldTurns::table_rules))]
    pub fn table(&self, tokens: &mut Tokens, place: Place) -> Result<Measured<Expr>, Stop>
        requires { ReadsParts self.now E.pre E.post B.pre B.post }
        ensures { Reads (spec.table (parts self.now.depth) place tokens.old) result tokens.new }
    {
        let mut found = lists::nothing(self.alloc);
        'fields: loop {
            if let Some(_) = tokens.sign(Sign::CloseBrace) {
                return Ok(nodes::table_node(place, found));
            }
            let field = self.field(tokens)?;
            lists::push(self.alloc, &mut found, field)?;
            if !separated(tokens)? {
                return Ok(nodes::table_node(place, found));
            }
        }
    }
}
