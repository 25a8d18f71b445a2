//! `goto` and labels.

ghost use Rattle.lua_grammar.specs.Statements as spec;
ghost use Rattle.lua_parser.specs.Reads.{Reads};

use crate::cursor::Tokens;
use crate::stop::Stop;
use lua_grammar::Measured;
use lua_tokens::Sign;
use lua_tree::Stat;

/// A `goto` statement after its word.
#[tactic(auto, using(crate::proofs::JumpSteps::goto_rules))]
pub fn after_goto(tokens: &mut Tokens) -> Result<Measured<Stat>, Stop>
    ensures { Reads (spec.after_goto tokens.old) result tokens.new }
{
    let (name, place) = tokens.expect_name()?;
    Ok(Measured::new(Stat::Goto(name, place), 0))
}

/// A label after its first `::`.
#[tactic(auto, using(crate::proofs::JumpSteps::label_rules))]
pub fn after_colons(tokens: &mut Tokens) -> Result<Measured<Stat>, Stop>
    ensures { Reads (spec.after_colons tokens.old) result tokens.new }
{
    let (name, place) = tokens.expect_name()?;
    tokens.expect_sign(Sign::ColonColon)?;
    Ok(Measured::new(Stat::Label(name, place), 0))
}
