//! Numerals.

ghost use Rattle.std.specs.Prelude.{◌≡◌, Bool};
ghost use Rattle.std.specs.List.{list_all};
ghost use Rattle.lua_lexer.specs.Bytes as byte;
ghost use Rattle.lua_lexer.specs.Spellings as spell;
ghost use Rattle.lua_lexer.specs.Reading as spec;
ghost use Rattle.lua_lexer.specs.View.{Reads, lex};

use crate::bytes::{is_digit, is_hex_digit, is_word, next};
use crate::stop::{Stop, Why};
use int_ops::read_integer;
use lua_tokens::Lexeme;

fn is_exponent(hex: bool, b: u8) -> bool
    ensures { result ≡ spell.is_exponent hex b }
{
    if hex {
        b == b'P' || b == b'p'
    } else {
        b == b'E' || b == b'e'
    }
}

fn is_plus_minus(b: u8) -> bool
    ensures { result ≡ spell.is_plus_minus b }
{
    b == b'+' || b == b'-'
}

fn is_digit_of(hex: bool, b: u8) -> bool
    ensures { result ≡ spell.is_digit_of hex b }
{
    if hex { is_hex_digit(b) } else { is_digit(b) }
}

fn in_run(hex: bool, before: u8, b: u8) -> bool
    ensures { result ≡ spell.in_run hex before b }
{
    is_word(b) || b == b'.' || (is_plus_minus(b) && is_exponent(hex, before))
}

fn is_hex(bytes: &[u8]) -> bool
    ensures { result ≡ spell.is_hex bytes.now }
{
    match bytes {
        [b'0', second, ..] => *second == b'x' || *second == b'X',
        _ => false,
    }
}

fn past_run(hex: bool, bytes: &[u8]) -> &[u8]
    ensures { result.now ≡ spell.past_from hex 0 bytes.now }
{
    let mut left = bytes;
    let mut before = 0;
    while let Some((first, rest)) = next(left) {
        if !in_run(hex, before, first) {
            break;
        }
        before = first;
        left = rest;
    }
    left
}

/// The run of a numeral, and what stands after it.
#[tactic(auto, using(crate::proofs::Runs::numeral_rules))]
fn split_run(bytes: &[u8]) -> (&[u8], &[u8])
    ensures run { result.0.now ≡ spell.numeral_run bytes.now }
    ensures rest { result.1.now ≡ spell.past_numeral bytes.now }
{
    let rest = past_run(is_hex(bytes), bytes);
    let (run, behind) = bytes.split_at(bytes.len() - rest.len());
    (run, behind)
}

fn past_digits(hex: bool, bytes: &[u8]) -> &[u8]
    ensures { result.now ≡ byte.past (spell.is_digit_of hex) bytes.now }
{
    let mut left = bytes;
    while let Some((first, rest)) = next(left) {
        if !is_digit_of(hex, first) {
            break;
        }
        left = rest;
    }
    left
}

fn all_digits(text: &[u8]) -> bool
    ensures { result ≡ list_all byte.is_digit text.now }
{
    let mut left = text;
    while let Some((first, rest)) = next(left) {
        if !is_digit(first) {
            return false;
        }
        left = rest;
    }
    true
}

fn are_digits(text: &[u8]) -> bool
    ensures { result ≡ spell.are_digits text.now }
{
    match next(text) {
        None => false,
        Some((first, rest)) => is_digit(first) && all_digits(rest),
    }
}

/// Whether this is nothing, or an exponent.
fn is_power(hex: bool, text: &[u8]) -> bool
    ensures { result ≡ spell.is_power hex text.now }
{
    let Some((first, rest)) = next(text) else {
        return true;
    };
    if !is_exponent(hex, first) {
        return false;
    }
    match next(rest) {
        None => false,
        Some((sign, digits)) => {
            if is_plus_minus(sign) {
                are_digits(digits)
            } else {
                are_digits(rest)
            }
        }
    }
}

fn begins_with_digit(hex: bool, text: &[u8]) -> bool
    ensures { result ≡ spell.begins_with (spell.is_digit_of hex) text.now }
{
    match next(text) {
        None => false,
        Some((first, _)) => is_digit_of(hex, first),
    }
}

/// Whether this may follow the digits before the point, of which there are some or not.
fn is_fraction(hex: bool, some: bool, text: &[u8]) -> bool
    ensures { result ≡ spell.is_fraction hex some text.now }
{
    let Some((first, rest)) = next(text) else {
        return some;
    };
    if first == b'.' {
        (some || begins_with_digit(hex, rest)) && is_power(hex, past_digits(hex, rest))
    } else {
        some && is_power(hex, text)
    }
}

fn is_digits_form(hex: bool, text: &[u8]) -> bool
    ensures { result ≡ spell.is_digits_form hex text.now }
{
    is_fraction(hex, begins_with_digit(hex, text), past_digits(hex, text))
}

/// Whether the text has the form of a float numeral.
fn is_float(text: &[u8]) -> bool
    ensures { result ≡ spell.is_float text.now }
{
    if !is_hex(text) {
        return is_digits_form(false, text);
    }
    match text {
        [_, _, digits @ ..] => is_digits_form(true, digits),
        _ => false,
    }
}

fn all_word(text: &[u8]) -> bool
    ensures { result ≡ list_all byte.is_word text.now }
{
    let mut left = text;
    while let Some((first, rest)) = next(left) {
        if !is_word(first) {
            return false;
        }
        left = rest;
    }
    true
}

/// Whether these are letters and digits from a digit on.
fn is_numeral(text: &[u8]) -> bool
    ensures { result ≡ spell.is_numeral text.now }
{
    match next(text) {
        None => false,
        Some((first, rest)) => is_digit(first) && all_word(rest),
    }
}

fn integer_run(text: &[u8]) -> Option<i64>
    ensures { result ≡ spec.integer_run text.now }
{
    if is_numeral(text) {
        read_integer(text)
    } else {
        None
    }
}

/// The integer that the whole run of the numeral reads as, or what is wrong with it.
#[tactic(auto, unfolding(crate::specs::Reading::numeral_at))]
pub fn numeral_at(bytes: &[u8]) -> Result<(Lexeme, &[u8]), Stop<'_>>
    ensures { Reads lex (spec.numeral_at bytes.now) result }
{
    let (text, rest) = split_run(bytes);
    match integer_run(text) {
        Some(n) => Ok((Lexeme::Int(n), rest)),
        None => {
            if is_float(text) {
                Err(Stop::At(Why::FloatNumeral, bytes))
            } else {
                Err(Stop::At(Why::BadNumeral, bytes))
            }
        }
    }
}
