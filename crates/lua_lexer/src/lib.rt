//! The tokens of a script: names, reserved words, numerals, strings and signs, with their places,
//! or the fault at the first place where none stands (Lua manual, section 3.1).
#![tactic(auto)]

mod bytes;
mod escape;
mod fault;
mod gap;
mod limit;
mod numeral;
mod script;
mod sign;
mod spelling;
mod stop;
mod text;
mod token;
mod word;

ghost use Rattle.std.specs.Prelude.{◌≡◌, ◌<◌, ◌↔◌, ℕ, List, length, IfOk, IfErr, IsErrOf};
ghost use Rattle.lua_lexer.specs.Tokens.{Lexes, OneAnswer};
ghost use Rattle.lua_lexer.specs.View.{marks, placed, IsFault};

use bytes::line_ends;
pub use fault::LexFault;
use lanes_arena::Bytes;
pub use limit::LONGEST;
pub use lua_tokens::{Lexeme, Place, Sign, Token, TokenList, Word};
use std::alloc::Global;
use stop::{Stop, Why};
pub use token::token_bytes;

/// The fault at this place.
fn fault_at(why: Why, place: Place) -> LexFault
    ensures { result ≡ placed why place }
{
    match why {
        Why::BadByte => LexFault::BadByte(place),
        Why::BadNumeral => LexFault::BadNumeral(place),
        Why::FloatNumeral => LexFault::FloatNumeral(place),
        Why::BadEscape => LexFault::BadEscape(place),
        Why::OpenString => LexFault::OpenString(place),
        Why::OpenComment => LexFault::OpenComment(place),
    }
}

/// The tokens of a script, in order, with `End` last. Each has the place of its first byte: its
/// offset from 0, and its line from 1, where LF, CR, CR LF and LF CR end a line, inside strings and
/// comments too. A text has its escapes and line ends already turned into bytes. Names, and strings
/// without an escape, share the bytes of the script. `TooLong` comes exactly where the script has
/// more than `LONGEST` bytes, and first of all. Else the fault is answered of the first place where
/// a token must begin and none does (manual, section 3.1).
#[tactic(auto, using(crate::proofs::Turns::fault_rules))]
pub fn tokens(alloc: Global, script: &Bytes) -> Result<TokenList, LexFault>
    ensures tokens { IfOk result (λ found. Lexes script.now (marks found)) }
    ensures fault { IfErr result (λ fault. IsFault script.now fault) }
    ensures too_long { IsErrOf result LexFault.TooLong ↔ (LONGEST < length script.now) }
{
    let bytes = script.as_slice();
    if bytes.len() > LONGEST {
        return Err(LexFault::TooLong);
    }
    match script::all(alloc, script, bytes) {
        Ok(found) => Ok(found),
        Err(Stop::Memory) => Err(LexFault::Memory),
        Err(Stop::At(why, rest)) => {
            let at = bytes.len().saturating_sub(rest.len());
            let (before, _) = bytes.split_at(at);
            let line = 1 + line_ends(before) as u32;
            Err(fault_at(
                why,
                Place {
                    at: at as u32,
                    line,
                },
            ))
        }
    }
}

/// Each script has one list of tokens and no fault, or one fault and no list of tokens.
#[tactic(auto, using(crate::proofs::Exact::one_answer))]
pub fn one_answer()
    ensures { (script : List ℕ) → OneAnswer script }
{}
