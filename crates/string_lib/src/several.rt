//! What each function of several values makes of its arguments.
ghost use Rattle.std.specs.Prelude.{◌≡◌, codes, IfOk};
ghost use Rattle.string_lib.specs.View.{IsDoneAll, MakesAll};
ghost use Rattle.string_lib.specs.Several as spec;

use crate::one::{at_or_nil, integer_or};
use crate::parts::part;
use crate::piece::{Piece, interned};
use crate::refusal::{Refusal, fault};
use itoa::Buffer;
use lanes_arena::Memory;
use lua_ops::piece;
use object_store::{LuaFault, State, Value};
use std::alloc::Global;

/// The most values that a call gives.
const MOST_VALUES: usize = 1_048_576;

/// The codes of the bytes.
fn byte_codes(alloc: Global, bytes: &[u8]) -> Result<Vec<Piece>, Memory>
    ensures { IfOk result (λ made. made.items ≡ spec.byte_codes bytes.now) }
{
    let mut made = Vec::with_capacity(alloc, bytes.len())?;
    for b in bytes {
        made.push(Piece::Value(Value::Int(*b as i64)))?;
    }
    Ok(made)
}

/// The codes of the bytes from one place up to another.
fn bytes(alloc: Global, state: &State, args: &[Value]) -> Result<Vec<Piece>, Refusal>
    ensures { MakesAll (codes "byte") (spec.byte_step state.now.texts args.now) result }
{
    let mut buffer = Buffer::new();
    let Some(text) = piece(state, &mut buffer, at_or_nil(args, 0)) else {
        return Err(Refusal::BadArgument(1));
    };
    let Some(first) = integer_or(state, 1, at_or_nil(args, 1)) else {
        return Err(Refusal::BadArgument(2));
    };
    let Some(last) = integer_or(state, first, at_or_nil(args, 2)) else {
        return Err(Refusal::BadArgument(3));
    };
    let bytes = part(text, first, last);
    if bytes.len() > MOST_VALUES {
        return Err(Refusal::TooManyValues);
    }
    match byte_codes(alloc, bytes) {
        Ok(made) => Ok(made),
        Err(_) => Err(Refusal::Memory),
    }
}

/// `string.byte`: the codes of the bytes from one place of a text up to another. A missing argument
/// or one of another kind is `BadArgument` with its number from 1; `TooManyValues` comes above
/// 1,048,576 bytes, and want of memory last.
pub fn byte(alloc: Global, state: &mut State, args: &[Value]) -> Result<Vec<Value>, LuaFault>
    ensures { IsDoneAll state.old (spec.byte_step state.old.texts args.now) result state.new }
{
    match bytes(alloc, state, args) {
        Ok(pieces) => match interned(alloc, state, &pieces) {
            Ok(values) => Ok(values),
            Err(_) => Err(LuaFault::Memory),
        },
        Err(why) => Err(fault(alloc, why, "byte")),
    }
}
