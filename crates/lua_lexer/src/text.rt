//! Strings.

ghost use Rattle.std.specs.Prelude.{◌≡◌, true};
ghost use Rattle.lua_lexer.specs.Bytes as byte;
ghost use Rattle.lua_lexer.specs.Spellings as spell;
ghost use Rattle.lua_lexer.specs.Reading as spec;
ghost use Rattle.lua_lexer.specs.View.{Reads, ReadsString, Stores, lex};

use crate::bytes::{is_line_end, next, past_line_end};
use crate::escape::{escape, put};
use crate::gap::up_to_close;
use crate::stop::{Stop, Why};
use crate::word::shared;
use lanes_arena::Bytes;
use lua_tokens::Lexeme;
use std::alloc::Global;

fn is_plain(quote: u8, b: u8) -> bool
    ensures { result ≡ spell.is_plain quote b }
{
    !(b == quote || b == b'\\' || is_line_end(b))
}

/// What stands after the plain bytes.
fn past_plain(quote: u8, bytes: &[u8]) -> &[u8]
    ensures { result.now ≡ byte.past (spell.is_plain quote) bytes.now }
{
    let mut left = bytes;
    while let Some((first, rest)) = next(left) {
        if !is_plain(quote, first) {
            break;
        }
        left = rest;
    }
    left
}

/// The plain bytes, and what stands after them.
#[tactic(auto, using(crate::proofs::Runs::run_rules))]
fn split_plain(quote: u8, bytes: &[u8]) -> (&[u8], &[u8])
    ensures run { result.0.now ≡ byte.run (spell.is_plain quote) bytes.now }
    ensures rest { result.1.now ≡ byte.past (spell.is_plain quote) bytes.now }
{
    let rest = past_plain(quote, bytes);
    let (run, behind) = bytes.split_at(bytes.len() - rest.len());
    (run, behind)
}

/// A string, after its quote. `at` is the script from the quote on. Room is made for this many
/// bytes of it at first.
fn string<'a>(
    alloc: Global,
    at: &'a [u8],
    quote: u8,
    bytes: &'a [u8],
    room: usize,
) -> Result<(Vec<u8>, &'a [u8]), Stop<'a>>
    ensures { ReadsString at.now quote bytes.now result }
{
    let mut found = Vec::with_capacity(alloc, room)?;
    let mut left = bytes;
    loop {
        let (run, rest) = split_plain(quote, left);
        found.extend_from_slice(run)?;
        let Some((first, behind)) = next(rest) else {
            return Err(Stop::At(Why::OpenString, at));
        };
        if first == quote {
            return Ok((found, behind));
        }
        if first != b'\\' {
            return Err(Stop::At(Why::OpenString, at));
        }
        let Some((piece, after)) = escape(behind) else {
            return Err(Stop::At(Why::BadEscape, rest));
        };
        put(&mut found, piece)?;
        left = after;
    }
}

/// The string, whose bytes are stored apart from the script.
#[tactic(auto, using(crate::proofs::Strings::texted_rules))]
fn stored<'a>(
    alloc: Global,
    at: &'a [u8],
    quote: u8,
    bytes: &'a [u8],
    room: usize,
) -> Result<(Lexeme, &'a [u8]), Stop<'a>>
    requires { byte.is_quote quote ≡ true }
    ensures { Reads lex (spec.texted (spec.string at.now quote bytes.now)) result }
{
    match string(alloc, at, quote, bytes, room) {
        Ok((text, rest)) => Ok((Lexeme::Text(Bytes::from_vec(text)?), rest)),
        Err(stop) => Err(stop),
    }
}

/// The string that begins with this quote. It shares the bytes of the script where no escape stands
/// in it.
#[tactic(auto, using(crate::proofs::Strings::plain_front))]
pub fn string_at<'a>(
    alloc: Global,
    script: &Bytes,
    at: &'a [u8],
    quote: u8,
    bytes: &'a [u8],
) -> Result<(Lexeme, &'a [u8]), Stop<'a>>
    requires quote { byte.is_quote quote ≡ true }
    requires stands { byte.EndsWith script.now bytes.now }
    ensures { Reads lex (spec.texted (spec.string at.now quote bytes.now)) result }
{
    let (run, rest) = split_plain(quote, bytes);
    if let Some((first, behind)) = next(rest)
        && first == quote
    {
        return Ok((Lexeme::Text(shared(script, bytes, run)?), behind));
    }
    stored(alloc, at, quote, bytes, run.len() + 8)
}

/// The bytes with each line end as one line feed.
#[tactic(auto, using(crate::proofs::LineEnds::feed_rules))]
fn line_feeds(alloc: Global, bytes: &[u8]) -> Result<Vec<u8>, Stop<'_>>
    ensures { Stores (byte.line_feeds bytes.now) result }
{
    let mut found = Vec::with_capacity(alloc, bytes.len())?;
    let mut left = bytes;
    while let Some((first, rest)) = next(left) {
        if is_line_end(first) {
            found.push(b'\n')?;
            left = past_line_end(left);
        } else {
            found.push(first)?;
            left = rest;
        }
    }
    Ok(found)
}

/// The string in a long bracket of this level, of the bytes after its opening.
pub fn bracket_at<'a>(
    alloc: Global,
    at: &'a [u8],
    level: usize,
    bytes: &'a [u8],
) -> Result<(Lexeme, &'a [u8]), Stop<'a>>
    ensures { Reads lex (spec.bracket_end at.now (spell.up_to_close level bytes.now)) result }
{
    match up_to_close(level, bytes) {
        None => Err(Stop::At(Why::OpenString, at)),
        Some((content, rest)) => {
            let text = line_feeds(alloc, past_line_end(content))?;
            Ok((Lexeme::Text(Bytes::from_vec(text)?), rest))
        }
    }
}
