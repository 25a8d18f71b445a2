//! The parser of Lua scripts: the tree that their tokens spell, or the first token that no script
//! goes on with.
#![tactic(auto)]

mod arguments;
mod assignments;
mod blocks;
mod bodies;
mod branches;
mod cursor;
mod declarations;
mod fault;
mod groups;
mod iterations;
mod jumps;
mod knot;
mod levels;
mod lists;
mod nodes;
mod operands;
mod operator;
mod parts;
mod rows;
mod script;
mod start;
mod stop;
mod suffixes;
mod tables;

ghost use Rattle.std.specs.Prelude.{◌≡◌, ◌≤◌, List};
ghost use Rattle.lua_tokens.specs.declared.token.Token as token;
ghost use Rattle.lua_tree.specs.declared.stat.Tree as tree;
ghost use Rattle.lua_grammar.specs.Depth.{depth_of};
ghost use Rattle.lua_grammar.specs.Grammar.{Spells};
ghost use Rattle.lua_parser.specs.Answers.{EndsWithEnd, Answers, Finds, OneAnswer};

use cursor::Tokens;
pub use fault::ParseFault;
use fault::fault_at;
use lua_tokens::TokenList;
use lua_tree::Tree;
pub use script::DEEPEST;
use script::script;
use std::alloc::Global;
use stop::Stop;

/// The tree that a script's tokens spell (manual, section 9), the last of which is `End`. It is at
/// most `DEEPEST` deep: an expression is one deeper than the deepest of its parts, and a block than
/// the deepest expression, block or function body in its statements. Else the fault comes of the
/// first token with which those up to it begin no such script.
pub fn parse(alloc: Global, tokens: TokenList) -> Result<Tree, ParseFault>
    requires { EndsWithEnd tokens }
    ensures answers { Answers tokens result }
    ensures only { (it : tree.Tree) → Spells it tokens → depth_of it ≤ DEEPEST → Finds result it }
{
    let mut left = Tokens::new(tokens);
    match script(alloc, &mut left) {
        Ok(found) => Ok(found),
        Err(Stop::Memory) => Err(ParseFault::Memory),
        Err(Stop::Bad) => Err(fault_at(left.first())),
        Err(Stop::Deep) => Err(ParseFault::TooDeep(left.first().place)),
        Err(Stop::Attribute) => Err(ParseFault::BadAttribute(left.first().place)),
    }
}

/// At most one tree spells a list of tokens.
pub fn one_tree()
    ensures { (a b : tree.Tree) (tokens : List token.Token) → Spells a tokens
        → Spells b tokens → a ≡ b }
{}

/// Each list of tokens that ends with `End` has one tree of a depth of at most `DEEPEST` and no
/// fault, or one fault and no such tree.
pub fn one_answer()
    ensures { (tokens : List token.Token) → EndsWithEnd tokens → OneAnswer tokens }
{}
