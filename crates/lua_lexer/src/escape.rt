//! Escapes in strings.

ghost use Rattle.std.specs.Prelude.{◌≡◌, ◌+◌, ◌<◌, ◌++◌, OnOk, true, ◌∷◌};
ghost use Rattle.std.specs.List.{list_all};
ghost use Rattle.lua_lexer.specs.Bytes as byte;
ghost use Rattle.lua_lexer.specs.Spellings as spec;
ghost use Rattle.lua_lexer.specs.View.{seen_piece, piece_bytes, IsCode};

use crate::bytes::{
    is_digit, is_hex_digit, is_line_end, is_quote, next, past_blanks, past_line_end,
};
use std::alloc::AllocError;

/// What an escape stands for: nothing, a byte, or the UTF-8 of a number.
#[derive(Clone, Copy, Debug, PartialEq, Eq)]
pub enum Piece {
    Nothing,
    Byte(u8),
    Point(u32),
}

/// The byte for which one letter stands after a backslash.
fn letter_escape(letter: u8) -> Option<u8>
    ensures { result ≡ spec.letter_escape letter }
{
    match letter {
        b'a' => Some(7),
        b'b' => Some(8),
        b'f' => Some(12),
        b'n' => Some(b'\n'),
        b'r' => Some(b'\r'),
        b't' => Some(b'\t'),
        b'v' => Some(11),
        b'\\' => Some(b'\\'),
        _ => { if is_quote(letter) { Some(letter) } else { None } }
    }
}

/// The value of up to three digits.
fn decimal(bytes: &[u8]) -> (u16, &[u8])
    ensures value { (result.0, result.1.now) ≡ spec.decimal 3 0 bytes.now }
{
    let Some((a, rest)) = next(bytes) else {
        return (0, bytes);
    };
    if !is_digit(a) {
        return (0, bytes);
    }
    let first = (a - b'0') as u16;
    let Some((b, rest2)) = next(rest) else {
        return (first, rest);
    };
    if !is_digit(b) {
        return (first, rest);
    }
    let second = first * 10 + (b - b'0') as u16;
    let Some((c, rest3)) = next(rest2) else {
        return (second, rest2);
    };
    if !is_digit(c) {
        return (second, rest2);
    }
    (second * 10 + (c - b'0') as u16, rest3)
}

fn decimal_escape(bytes: &[u8]) -> Option<(Piece, &[u8])>
    ensures { seen_piece result ≡ spec.decimal_escape (spec.decimal 3 0 bytes.now) }
{
    let (value, rest) = decimal(bytes);
    if value <= 255 {
        Some((Piece::Byte(value as u8), rest))
    } else {
        None
    }
}

/// The value of a hexadecimal digit.
fn hex_value(digit: u8) -> u8
    requires { byte.is_hex_digit digit ≡ true }
    ensures value { result ≡ spec.hex_value digit }
    ensures small { result < 16 }
{
    if is_digit(digit) {
        digit - b'0'
    } else if b'a' <= digit {
        digit - 87
    } else {
        digit - 55
    }
}

fn hex_escape(bytes: &[u8]) -> Option<(Piece, &[u8])>
    ensures { seen_piece result ≡ spec.hex_escape bytes.now }
{
    let (first, rest) = next(bytes)?;
    let (second, behind) = next(rest)?;
    if is_hex_digit(first) && is_hex_digit(second) {
        Some((
            Piece::Byte(hex_value(first) * 16 + hex_value(second)),
            behind,
        ))
    } else {
        None
    }
}

fn past_hex_digits(bytes: &[u8]) -> &[u8]
    ensures { result.now ≡ byte.past byte.is_hex_digit bytes.now }
{
    let mut left = bytes;
    while let Some((first, rest)) = next(left) {
        if !is_hex_digit(first) {
            break;
        }
        left = rest;
    }
    left
}

/// The hexadecimal digits at the front, and what stands after them.
#[tactic(auto, using(crate::proofs::Runs::run_rules))]
fn split_hex_digits(bytes: &[u8]) -> (&[u8], &[u8])
    ensures run { result.0.now ≡ byte.run byte.is_hex_digit bytes.now }
    ensures rest { result.1.now ≡ byte.past byte.is_hex_digit bytes.now }
{
    let rest = past_hex_digits(bytes);
    let (run, behind) = bytes.split_at(bytes.len() - rest.len());
    (run, behind)
}

/// The number that hexadecimal digits write, if it is below 2^31.
#[tactic(auto, using(crate::proofs::Codes::code_rules))]
fn code_number(digits: &[u8]) -> Option<u32>
    requires { list_all byte.is_hex_digit digits.now ≡ true }
    ensures { IsCode (spec.hex_number 0 digits.now) result }
{
    let mut left = digits;
    let mut number: u32 = 0;
    while let Some((first, rest)) = next(left) {
        if number >= 1 << 27 {
            return None;
        }
        number = number * 16 + u32::from(hex_value(first));
        left = rest;
    }
    Some(number)
}

/// The digits between the braces, and what stands after them.
#[tactic(auto, using(crate::proofs::Codes::point_rules))]
fn code_point<'a>(digits: &[u8], bytes: &'a [u8]) -> Option<(Piece, &'a [u8])>
    requires { list_all byte.is_hex_digit digits.now ≡ true }
    ensures { seen_piece result ≡ spec.code_point digits.now bytes.now }
{
    if digits.is_empty() {
        return None;
    }
    let (first, behind) = next(bytes)?;
    if first != b'}' {
        return None;
    }
    match code_number(digits) {
        Some(number) => Some((Piece::Point(number), behind)),
        None => None,
    }
}

#[tactic(auto, using(crate::proofs::Codes::run_digits))]
fn unicode_escape(bytes: &[u8]) -> Option<(Piece, &[u8])>
    ensures { seen_piece result ≡ spec.unicode_escape bytes.now }
{
    let (first, rest) = next(bytes)?;
    if first != b'{' {
        return None;
    }
    let (digits, behind) = split_hex_digits(rest);
    code_point(digits, behind)
}

/// An escape that is no single letter: `bytes` are those after the backslash, `rest` those after
/// their first one.
fn other_escape<'a>(first: u8, rest: &'a [u8], bytes: &'a [u8]) -> Option<(Piece, &'a [u8])>
    requires { bytes.now ≡ first ∷ rest.now }
    ensures { seen_piece result ≡ spec.other_escape first rest.now }
{
    if is_line_end(first) {
        Some((Piece::Byte(b'\n'), past_line_end(bytes)))
    } else if first == b'z' {
        Some((Piece::Nothing, past_blanks(rest)))
    } else if first == b'x' {
        hex_escape(rest)
    } else if first == b'u' {
        unicode_escape(rest)
    } else if is_digit(first) {
        decimal_escape(bytes)
    } else {
        None
    }
}

/// What the escape stands for that begins after a backslash, and what stands after it; none where
/// it is no escape.
#[tactic(auto, unfolding(crate::specs::Spellings::escape))]
pub fn escape(bytes: &[u8]) -> Option<(Piece, &[u8])>
    ensures { seen_piece result ≡ spec.escape bytes.now }
{
    let Some((first, rest)) = next(bytes) else {
        return None;
    };
    match letter_escape(first) {
        Some(byte) => Some((Piece::Byte(byte), rest)),
        None => other_escape(first, rest, bytes),
    }
}

/// A byte of UTF-8 after the first one, for the six bits from this unit on.
fn tail_byte(number: u32, unit: u32) -> u8
    requires { 0 < unit }
    ensures { result ≡ spec.tail_byte number unit }
{
    (128 + number / unit % 64) as u8
}

/// Adds the UTF-8 of a number, in its older form of up to six bytes.
fn put_point(found: &mut Vec<u8>, n: u32) -> Result<(), AllocError>
    ensures { OnOk result (found.new.items ≡ found.old.items ++ spec.utf8 n) }
{
    if n < 0x80 {
        found.extend_from_slice(&[n as u8])
    } else if n < 0x800 {
        found.extend_from_slice(&[(192 + n / 64) as u8, tail_byte(n, 1)])
    } else if n < 0x10000 {
        found.extend_from_slice(&[(224 + n / 4096) as u8, tail_byte(n, 64), tail_byte(n, 1)])
    } else if n < 0x200000 {
        found.extend_from_slice(&[
            (240 + n / 262144) as u8,
            tail_byte(n, 4096),
            tail_byte(n, 64),
            tail_byte(n, 1),
        ])
    } else if n < 0x4000000 {
        found.extend_from_slice(&[
            (248 + n / 16777216) as u8,
            tail_byte(n, 262144),
            tail_byte(n, 4096),
            tail_byte(n, 64),
            tail_byte(n, 1),
        ])
    } else {
        found.extend_from_slice(&[
            (252 + n / 1073741824) as u8,
            tail_byte(n, 16777216),
            tail_byte(n, 262144),
            tail_byte(n, 4096),
            tail_byte(n, 64),
            tail_byte(n, 1),
        ])
    }
}

/// Adds the bytes of an escape.
pub fn put(found: &mut Vec<u8>, piece: Piece) -> Result<(), AllocError>
    ensures { OnOk result (found.new.items ≡ found.old.items ++ piece_bytes piece) }
{
    match piece {
        Piece::Nothing => Ok(()),
        Piece::Byte(byte) => {
            found.push(byte)?;
            Ok(())
        }
        Piece::Point(number) => put_point(found, number),
    }
}
