//! Declarations.

ghost use Rattle.lua_grammar.specs.Statements as spec;
ghost use Rattle.lua_parser.specs.Nests.{ReadsParts};
ghost use Rattle.lua_parser.specs.Reads.{Reads};
ghost use Rattle.lua_parser.specs.Steps.{over};

use crate::cursor::Tokens;
use crate::lists::{nothing, only};
use crate::nodes::{dotted, function_node, name_leaf};
use crate::parts::{Part, Parts};
use crate::rows::single;
use crate::stop::Stop;
use lanes_arena::{Bytes, Row};
use lua_grammar::Measured;
use lua_tokens::{Place, Sign, Word};
use lua_tree::{Expr, Stat};
use std::alloc::Global;

impl<E, B> Parts<E, B>
where
    E: Fn(Global, &mut Tokens, usize, Part) -> Result<Measured<Expr>, Stop> + Copy,
    B: Fn(Global, &mut Tokens, usize) -> Result<Measured<Row<Stat>>, Stop> + Copy,
{
    /// Whether a declared name has an attribute, which is `const`.
    #[tactic(auto, using(crate::proofs::LocalSteps::attrib_rules))]
    pub fn attrib(&self, tokens: &mut Tokens) -> Result<bool, Stop>
        requires { ReadsParts self.now E.pre E.post B.pre B.post }
        ensures { Reads (over self.now.depth spec.attrib tokens.old) result tokens.new }
    {
        let Some(_) = tokens.sign(Sign::Less) else {
            return Ok(false);
        };
        tokens.attribute()?;
        tokens.expect_sign(Sign::Greater)?;
        Ok(true)
    }

    /// The names that go on with a declaration.
    #[tactic(auto, using(crate::proofs::DeclaredTurns::declared_rules))]
    pub fn more_declared(
        &self,
        tokens: &mut Tokens,
        found: Row<(Bytes, bool, Place)>,
    ) -> Result<Row<(Bytes, bool, Place)>, Stop>
        requires { ReadsParts self.now E.pre E.post B.pre B.post }
        ensures { Reads (over self.now.depth spec.more_declared found tokens.old)
            result tokens.new }
    {
        let mut names = found.into_vec();
        'names: while let Some(_) = tokens.sign(Sign::Comma) {
            let (name, place) = tokens.expect_name()?;
            let constant = self.attrib(tokens)?;
            names.push((name, constant, place))?;
        }
        Ok(Row::of(names))
    }

    /// The values of a declaration.
    #[tactic(auto, using(crate::proofs::LocalSteps::values_rules))]
    pub fn values(&self, tokens: &mut Tokens) -> Result<Measured<Row<Expr>>, Stop>
        requires { ReadsParts self.now E.pre E.post B.pre B.post }
        ensures { Reads (over self.now.depth spec.values tokens.old) result tokens.new }
    {
        let Some(_) = tokens.sign_if(Sign::Equal, 1 <= self.depth)? else {
            return Ok(nothing(self.alloc));
        };
        self.list(tokens)
    }

    /// A declaration after its first name.
    #[tactic(auto, unfolding(lua_grammar::specs::Statements::local_names))]
    pub fn local_names(
        &self,
        tokens: &mut Tokens,
        name: Bytes,
        place: Place,
    ) -> Result<Measured<Stat>, Stop>
        requires { ReadsParts self.now E.pre E.post B.pre B.post }
        ensures { Reads (over self.now.depth spec.local_names name place tokens.old)
            result tokens.new }
    {
        let constant = self.attrib(tokens)?;
        let first = single(self.alloc, (name, constant, place))?;
        let names = self.more_declared(tokens, first)?;
        let values = self.values(tokens)?;
        let (values, depth) = values.into_parts();
        Ok(Measured::new(Stat::Local(names, values), depth))
    }

    /// A `local function` statement whose word `function` is at this place, after that word.
    #[tactic(auto, using(crate::proofs::LocalSteps::local_function_rules))]
    pub fn local_function(&self, tokens: &mut Tokens, at: Place) -> Result<Measured<Stat>, Stop>
        requires { ReadsParts self.now E.pre E.post B.pre B.post }
        ensures { Reads (over self.now.depth spec.local_function at tokens.old) result tokens.new }
    {
        let (name, place) = tokens.expect_name()?;
        let body = self.function_body(tokens, at, Row::of(Vec::new(self.alloc)))?;
        let depth = body.depth;
        Ok(Measured::new(Stat::LocalFunction(name, place, body.into_what()), depth))
    }

    /// A statement after the word `local`.
    #[tactic(auto, using(crate::proofs::LocalSteps::local_rules))]
    pub fn after_local(&self, tokens: &mut Tokens) -> Result<Measured<Stat>, Stop>
        requires { ReadsParts self.now E.pre E.post B.pre B.post }
        ensures { Reads (over self.now.depth spec.after_local tokens.old) result tokens.new }
    {
        if let Some(at) = tokens.word_if(Word::Function, 1 <= self.depth)? {
            return self.local_function(tokens, at);
        }
        let (name, place) = tokens.expect_name()?;
        self.local_names(tokens, name, place)
    }

    /// The names that go on with the path of a function.
    #[tactic(auto, using(crate::proofs::PathTurns::path_rules))]
    pub fn path(&self, tokens: &mut Tokens, first: Measured<Expr>) -> Result<Measured<Expr>, Stop>
        requires { ReadsParts self.now E.pre E.post B.pre B.post }
        ensures { Reads (over self.now.depth spec.path first tokens.old) result tokens.new }
    {
        let limit = self.depth.saturating_sub(1);
        let mut path = first;
        'path: while let Some(dot) = tokens.sign_if(Sign::Dot, path.depth <= limit)? {
            let (name, place) = tokens.expect_name()?;
            path = dotted(self.alloc, path, dot, name, place)?;
        }
        Ok(path)
    }

    /// A `function` statement after its path.
    #[tactic(auto, unfolding(lua_grammar::specs::Statements::defined))]
    pub fn defined(
        &self,
        tokens: &mut Tokens,
        at: Place,
        target: Measured<Expr>,
        first: Row<(Bytes, Place)>,
    ) -> Result<Measured<Stat>, Stop>
        requires { ReadsParts self.now E.pre E.post B.pre B.post }
        ensures { Reads (over self.now.depth spec.defined at target first tokens.old)
            result tokens.new }
    {
        let body = self.below(1).function_body(tokens, at, first)?;
        let function = function_node(self.alloc, at, body)?;
        let depth = target.depth.max(function.depth);
        let targets = only(self.alloc, target)?;
        let values = only(self.alloc, function)?;
        Ok(Measured::new(Stat::Assign(targets.into_what(), values.into_what()), depth))
    }

    /// A `function` statement after the names that are joined by dots.
    #[tactic(auto, using(crate::proofs::FunctionSteps::method_rules))]
    pub fn after_path(
        &self,
        tokens: &mut Tokens,
        at: Place,
        target: Measured<Expr>,
    ) -> Result<Measured<Stat>, Stop>
        requires { ReadsParts self.now E.pre E.post B.pre B.post }
        ensures { Reads (over self.now.depth spec.after_path at target tokens.old)
            result tokens.new }
    {
        let limit = self.depth.saturating_sub(1);
        let Some(colon) = tokens.sign_if(Sign::Colon, target.depth <= limit)? else {
            return self.defined(tokens, at, target, Row::of(Vec::new(self.alloc)));
        };
        let (name, place) = tokens.expect_name()?;
        let method = dotted(self.alloc, target, colon, name, place)?;
        let first = single(self.alloc, (Bytes::of(self.alloc, b"self")?, place))?;
        self.defined(tokens, at, method, first)
    }

    /// A `function` statement whose word is at this place, after that word.
    #[tactic(auto, using(crate::proofs::FunctionSteps::function_rules))]
    pub fn after_function(&self, tokens: &mut Tokens, at: Place) -> Result<Measured<Stat>, Stop>
        requires { ReadsParts self.now E.pre E.post B.pre B.post }
        ensures { Reads (over self.now.depth spec.after_function at tokens.old) result tokens.new }
    {
        let (name, place) = tokens.expect_name()?;
        let path = self.path(tokens, name_leaf(name, place))?;
        self.after_path(tokens, at, path)
    }
}
