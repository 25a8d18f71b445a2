//! Reading sets, and single items.
ghost use Rattle.std.specs.Prelude.{◌≡◌, length};
ghost use Rattle.lua_pattern.specs.View.{Reads};
ghost use Rattle.lua_pattern.specs.Reading as spec;

use crate::bytes::{next, past_bracket};
use crate::class::{is_alphanumeric, is_upper};
use crate::{Class, Part, PatternFault, Single};
use lanes_arena::Row;
use std::alloc::Global;

fn lower(b: u8) -> u8
    ensures { result ≡ spec.lower b }
{
    if is_upper(b) { b + 32 } else { b }
}

/// The class that a letter in lower case names.
fn class_of(b: u8) -> Option<Class>
    ensures { result ≡ spec.class_of b }
{
    match b {
        b'a' => Some(Class::Letter),
        b'c' => Some(Class::Control),
        b'd' => Some(Class::Digit),
        b'g' => Some(Class::Printed),
        b'l' => Some(Class::Lower),
        b'p' => Some(Class::Punctuation),
        b's' => Some(Class::Space),
        b'u' => Some(Class::Upper),
        b'w' => Some(Class::Alphanumeric),
        b'x' => Some(Class::HexDigit),
        _ => None,
    }
}

/// What the byte means after `%`: a class, or itself where it is no letter and no digit.
pub fn escaped(b: u8) -> Option<Part>
    ensures { result ≡ spec.escaped b }
{
    match class_of(lower(b)) {
        Some(class) => {
            if is_upper(b) {
                Some(Part::NotIn(class))
            } else {
                Some(Part::In(class))
            }
        }
        None => {
            if is_alphanumeric(b) {
                None
            } else {
                Some(Part::Byte(b))
            }
        }
    }
}

/// The part that `%` and the byte after it name in a set.
fn escaped_part(bytes: &[u8]) -> Result<(Part, &[u8]), PatternFault>
    ensures { Reads (spec.escaped_part bytes.now) result }
{
    let [b, rest @ ..] = bytes else {
        return Err(PatternFault::OpenSet);
    };
    match escaped(*b) {
        Some(part) => Ok((part, rest)),
        None => Err(PatternFault::BadItem),
    }
}

/// Two bytes with a `-` between them, or the byte alone. `]` and `%` end no range.
fn range_or_byte(first: u8, bytes: &[u8]) -> Result<(Part, &[u8]), PatternFault>
    ensures { Reads (spec.range_or_byte first bytes.now) result }
{
    if let [hyphen, last, rest @ ..] = bytes {
        if *hyphen == b'-' && !(*last == b']' || *last == b'%') {
            return Ok((Part::Range(first, *last), rest));
        }
    }
    Ok((Part::Byte(first), bytes))
}

fn set_part(bytes: &[u8]) -> Result<(Part, &[u8]), PatternFault>
    ensures { Reads (spec.set_part bytes.now) result }
{
    match next(bytes) {
        None => Err(PatternFault::OpenSet),
        Some((b'%', rest)) => escaped_part(rest),
        Some((first, rest)) => range_or_byte(first, rest),
    }
}

/// The parts of a set up to its `]`. Each takes a byte at least.
fn set_parts(alloc: Global, bytes: &[u8]) -> Result<(Row<Part>, &[u8]), PatternFault>
    ensures { Reads (spec.set_parts (length bytes.now) bytes.now) result }
{
    let mut parts = Vec::new(alloc);
    let mut left = bytes;
    for _turn in 0..bytes.len() {
        match set_part(left) {
            Ok((part, rest)) => {
                parts.push(part)?;
                if let Some(behind) = past_bracket(rest) {
                    return Ok((Row::of(parts), behind));
                }
                left = rest;
            }
            Err(fault) => return Err(fault),
        }
    }
    Err(PatternFault::OpenSet)
}

/// A set, from the byte after its `[` on.
pub fn set_single(alloc: Global, bytes: &[u8]) -> Result<(Single, &[u8]), PatternFault>
    ensures { Reads (spec.set_single bytes.now) result }
{
    match next(bytes) {
        None => Err(PatternFault::OpenSet),
        Some((b'^', rest)) => match set_parts(alloc, rest) {
            Ok((parts, behind)) => Ok((Single::NotSet(parts), behind)),
            Err(fault) => Err(fault),
        },
        Some(_) => match set_parts(alloc, bytes) {
            Ok((parts, behind)) => Ok((Single::Set(parts), behind)),
            Err(fault) => Err(fault),
        },
    }
}

/// A class or a byte, where this byte stands after `%`.
pub fn escaped_single(b: u8, rest: &[u8]) -> Result<(Single, &[u8]), PatternFault>
    ensures { Reads (spec.escaped_single b rest.now) result }
{
    match escaped(b) {
        Some(part) => Ok((Single::Of(part), rest)),
        None => Err(PatternFault::BadItem),
    }
}

/// A single item that begins with this byte.
pub fn plain_single(alloc: Global, b: u8, rest: &[u8]) -> Result<(Single, &[u8]), PatternFault>
    ensures { Reads (spec.plain_single b rest.now) result }
{
    match b {
        b'.' => Ok((Single::Any, rest)),
        b'[' => set_single(alloc, rest),
        _ => Ok((Single::Of(Part::Byte(b)), rest)),
    }
}
