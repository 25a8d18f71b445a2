//! All tokens of a script.

ghost use Rattle.std.specs.Prelude.{◌≡◌, ◌≤◌, ◌+◌, length, Ok};
ghost use Rattle.lua_lexer.specs.Bytes as byte;
ghost use Rattle.lua_lexer.specs.Tokens as spec;
ghost use Rattle.lua_lexer.specs.Reading as read;
ghost use Rattle.lua_lexer.specs.View.{Answers, lex};

use crate::bytes::{line_ends, next, past_line};
use crate::gap::gap;
use crate::limit::LONGEST;
use crate::spelling::spelling;
use crate::stop::Stop;
use lanes_arena::Bytes;
use lua_tokens::{Lexeme, Place, Token, TokenList};
use std::alloc::Global;

/// The script without a first line that begins with `#`.
fn past_first(script: &[u8]) -> &[u8]
    ensures { result.now ≡ spec.past_first script.now }
{
    match next(script) {
        None => script,
        Some((b'#', rest)) => past_line(rest),
        Some(_) => script,
    }
}

/// How many line ends there are in the token that stands here.
#[tactic(auto, using(crate::proofs::Places::lines_rules))]
fn lines(what: &Lexeme, here: &[u8], rest: &[u8]) -> usize
    requires { read.spelling here.now ≡ Ok (lex what.now, rest.now) }
    ensures { result + byte.line_ends rest.now ≡ byte.line_ends here.now }
{
    match what {
        Lexeme::Text(_) => {
            let (text, _) = here.split_at(here.len() - rest.len());
            line_ends(text)
        }
        _ => 0,
    }
}

/// The tokens of a script, or why there are none. The names share the bytes of the text, which is
/// the script.
pub fn all<'a>(alloc: Global, text: &Bytes, script: &'a [u8]) -> Result<TokenList, Stop<'a>>
    requires same { text.now ≡ script.now }
    requires within { length script.now ≤ LONGEST }
    ensures { Answers script.now result }
{
    let mut found = TokenList::new(alloc);
    let mut left = past_first(script);
    let mut line: u32 = 1;
    loop {
        let here = gap(left);
        let (blanks, _) = left.split_at(left.len() - here.len());
        line += line_ends(blanks) as u32;
        let place = Place {
            at: (script.len() - here.len()) as u32,
            line,
        };
        let (what, rest) = spelling(alloc, text, here)?;
        let last = what.is_end();
        line += lines(&what, here, rest) as u32;
        found.push(Token { what, place })?;
        if last {
            return Ok(found);
        }
        left = rest;
    }
}
