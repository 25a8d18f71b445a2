//! The token that stands at a place.

ghost use Rattle.std.specs.Prelude.{◌≡◌, ◌∷◌};
ghost use Rattle.lua_lexer.specs.Bytes.{EndsWith};
ghost use Rattle.lua_lexer.specs.Spellings as spell;
ghost use Rattle.lua_lexer.specs.Reading as spec;
ghost use Rattle.lua_lexer.specs.View.{Reads, lex};

use crate::bytes::{is_digit, is_letter, is_quote, next};
use crate::gap::{dashes, opens};
use crate::numeral::numeral_at;
use crate::sign::sign_at;
use crate::stop::{Stop, Why};
use crate::text::{bracket_at, string_at};
use crate::word::word_at;
use lanes_arena::Bytes;
use lua_tokens::Lexeme;
use std::alloc::Global;

/// Whether a numeral begins here: a digit, or a point and a digit.
fn begins_numeral(first: u8, rest: &[u8]) -> bool
    ensures { result ≡ spell.begins_numeral (first ∷ rest.now) }
{
    if is_digit(first) {
        return true;
    }
    if first != b'.' {
        return false;
    }
    match next(rest) {
        None => false,
        Some((second, _)) => is_digit(second),
    }
}

/// The sign that stands here, where no comment does.
fn dashed_or_signed<'a>(
    at: &'a [u8],
    first: u8,
    rest: &'a [u8],
) -> Result<(Lexeme, &'a [u8]), Stop<'a>>
    requires { at.now ≡ first ∷ rest.now }
    ensures { Reads lex (spec.dashed_or_signed first rest.now (spell.dashes at.now)) result }
{
    if let Some(_) = dashes(at) {
        return Err(Stop::At(Why::OpenComment, at));
    }
    match sign_at(first, rest) {
        None => Err(Stop::At(Why::BadByte, at)),
        Some((sign, behind)) => Ok((Lexeme::Sign(sign), behind)),
    }
}

/// The long bracket or the sign that stands here.
fn bracketed<'a>(
    alloc: Global,
    at: &'a [u8],
    first: u8,
    rest: &'a [u8],
) -> Result<(Lexeme, &'a [u8]), Stop<'a>>
    requires { at.now ≡ first ∷ rest.now }
    ensures { Reads lex (spec.bracketed first rest.now (spell.opens at.now)) result }
{
    match opens(at) {
        Some((level, inside)) => bracket_at(alloc, at, level, inside),
        None => dashed_or_signed(at, first, rest),
    }
}

/// The token that stands here, the end included, or why none does. The bytes are the end of the
/// script.
#[inline(always)]
#[tactic(auto, using(crate::proofs::Fronts::rules), unfolding(crate::specs::Reading::spelling))]
pub fn spelling<'a>(
    alloc: Global,
    script: &Bytes,
    bytes: &'a [u8],
) -> Result<(Lexeme, &'a [u8]), Stop<'a>>
    requires { EndsWith script.now bytes.now }
    ensures { Reads lex (spec.spelling bytes.now) result }
{
    let Some((first, rest)) = next(bytes) else {
        return Ok((Lexeme::End, bytes));
    };
    if is_letter(first) {
        word_at(script, bytes)
    } else if begins_numeral(first, rest) {
        numeral_at(bytes)
    } else if is_quote(first) {
        string_at(alloc, script, bytes, first, rest)
    } else {
        bracketed(alloc, bytes, first, rest)
    }
}
