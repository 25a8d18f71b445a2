//! What each function makes of its arguments.
ghost use Rattle.std.specs.Prelude.{◌≡◌, false, slice_get, codes};
ghost use Rattle.std.specs.Option.{unwrap_or, option_copied};
ghost use Rattle.lua_ops.specs.Metamethods.{operand as operand_in};
ghost use Rattle.string_lib.specs.Given.{Makes};
ghost use Rattle.string_lib.specs.String as spec;

use crate::copies::{is_too_long, repeated};
use crate::functions::StringFn;
use crate::letters::{lowered, raised, reversed};
use crate::made::Made;
use crate::parts::part;
use crate::refusal::Refusal;
use itoa::Buffer;
use lua_ops::{operand, piece};
use object_store::{State, Value};
use std::alloc::Global;

/// The argument, or `Nil` where it isn't there, by its place from 0.
pub fn at_or_nil(args: &[Value], i: usize) -> Value
    ensures { result ≡ unwrap_or (slice_get args.now i) Value.Nil }
{
    match args.get(i) {
        Some(value) => *value,
        None => Value::Nil,
    }
}

/// `len`: how many bytes there are.
pub fn len(state: &State, args: &[Value]) -> Result<Made, Refusal>
    ensures { Makes (codes "len")
        (spec.string_step state.now.texts StringFn.Len args.now) result }
{
    let mut buffer = Buffer::new();
    match piece(state, &mut buffer, at_or_nil(args, 0)) {
        Some(text) => Ok(Made::Value(Value::Int(text.len() as i64))),
        None => Err(Refusal::BadArgument(1)),
    }
}

/// `lower`: the ASCII letters in lower case.
pub fn lower(alloc: Global, state: &State, args: &[Value]) -> Result<Made, Refusal>
    ensures { Makes (codes "lower")
        (spec.string_step state.now.texts StringFn.Lower args.now) result }
{
    let mut buffer = Buffer::new();
    match piece(state, &mut buffer, at_or_nil(args, 0)) {
        Some(text) => match lowered(alloc, text) {
            Ok(made) => Ok(Made::Text(made)),
            Err(_) => Err(Refusal::Memory),
        },
        None => Err(Refusal::BadArgument(1)),
    }
}

/// `upper`: the ASCII letters in upper case.
pub fn upper(alloc: Global, state: &State, args: &[Value]) -> Result<Made, Refusal>
    ensures { Makes (codes "upper")
        (spec.string_step state.now.texts StringFn.Upper args.now) result }
{
    let mut buffer = Buffer::new();
    match piece(state, &mut buffer, at_or_nil(args, 0)) {
        Some(text) => match raised(alloc, text) {
            Ok(made) => Ok(Made::Text(made)),
            Err(_) => Err(Refusal::Memory),
        },
        None => Err(Refusal::BadArgument(1)),
    }
}

/// `reverse`: the bytes from the last to the first.
pub fn reverse(alloc: Global, state: &State, args: &[Value]) -> Result<Made, Refusal>
    ensures { Makes (codes "reverse")
        (spec.string_step state.now.texts StringFn.Reverse args.now) result }
{
    let mut buffer = Buffer::new();
    match piece(state, &mut buffer, at_or_nil(args, 0)) {
        Some(text) => match reversed(alloc, text) {
            Ok(made) => Ok(Made::Text(made)),
            Err(_) => Err(Refusal::Memory),
        },
        None => Err(Refusal::BadArgument(1)),
    }
}

/// The integer that may be left out.
pub fn integer_or(state: &State, default: i64, value: Value) -> Option<i64>
    ensures { result ≡ spec.integer_or_none state.now.texts default value }
{
    match value {
        Value::Nil => Some(default),
        _ => operand(state, false, value),
    }
}

/// `sub`: the bytes from one place up to another.
pub fn sub(alloc: Global, state: &State, args: &[Value]) -> Result<Made, Refusal>
    ensures { Makes (codes "sub")
        (spec.string_step state.now.texts StringFn.Sub args.now) result }
{
    let mut buffer = Buffer::new();
    let Some(text) = piece(state, &mut buffer, at_or_nil(args, 0)) else {
        return Err(Refusal::BadArgument(1));
    };
    let Some(first) = operand(state, false, at_or_nil(args, 1)) else {
        return Err(Refusal::BadArgument(2));
    };
    let Some(last) = integer_or(state, -1, at_or_nil(args, 2)) else {
        return Err(Refusal::BadArgument(3));
    };
    match part(text, first, last).to_vec(alloc) {
        Ok(made) => Ok(Made::Text(made)),
        Err(_) => Err(Refusal::Memory),
    }
}

/// The text that may be left out.
fn text_or_empty<'a>(state: &'a State, buffer: &'a mut Buffer, value: Value) -> Option<&'a [u8]>
    ensures { option_copied result ≡ spec.string_or_none state.now.texts value }
{
    match value {
        Value::Nil => Some(b""),
        _ => piece(state, buffer, value),
    }
}

/// How many copies a number asks for.
fn count_of(n: i64) -> u64
    ensures { result ≡ spec.count_of n }
{
    if n > 0 { n as u64 } else { 0 }
}

/// `rep`: copies of a text with a separator between them. `TextTooLong` comes above `TEXT_LIMIT`
/// bytes, before anything is built.
pub fn rep(alloc: Global, state: &State, args: &[Value]) -> Result<Made, Refusal>
    ensures { Makes (codes "rep")
        (spec.string_step state.now.texts StringFn.Rep args.now) result }
{
    let mut first = Buffer::new();
    let mut third = Buffer::new();
    let Some(text) = piece(state, &mut first, at_or_nil(args, 0)) else {
        return Err(Refusal::BadArgument(1));
    };
    let Some(n) = operand(state, false, at_or_nil(args, 1)) else {
        return Err(Refusal::BadArgument(2));
    };
    let Some(separator) = text_or_empty(state, &mut third, at_or_nil(args, 2)) else {
        return Err(Refusal::BadArgument(3));
    };
    let count = count_of(n);
    if is_too_long(text.len(), count, separator.len()) {
        return Err(Refusal::TextTooLong);
    }
    match repeated(alloc, text, count, separator) {
        Ok(made) => Ok(Made::Text(made)),
        Err(_) => Err(Refusal::Memory),
    }
}

/// The byte that a value is the code of.
fn byte_of(state: &State, value: Value) -> Option<u8>
    ensures { result ≡ spec.code_of (operand_in state.now.texts false value) }
{
    match operand(state, false, value) {
        Some(n) => {
            if 0 <= n && n <= 255 {
                Some(n as u8)
            } else {
                None
            }
        }
        None => None,
    }
}

/// `char`: the text of these bytes.
pub fn char(alloc: Global, state: &State, args: &[Value]) -> Result<Made, Refusal>
    ensures { Makes (codes "char")
        (spec.string_step state.now.texts StringFn.Char args.now) result }
{
    let mut made = Vec::with_capacity(alloc, args.len())?;
    for (i, value) in args.iter().enumerate() {
        let Some(b) = byte_of(state, *value) else {
            return Err(Refusal::BadArgument(i as u64 + 1));
        };
        if made.push(b).is_err() {
            return Err(Refusal::Memory);
        }
    }
    Ok(Made::Text(made))
}
