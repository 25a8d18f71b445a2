//! `a .. b` (Lua 5.4 manual, section 3.4.6).
ghost use Rattle.std.specs.Prelude.{◌≡◌, ◌⊎◌, ◌++◌, ◌≤◌, length, nat_lt, Result, Ok, Err, Some, None, IsTrue, IfOk, OnOk, OnErr};
ghost use Rattle.std.specs.Option.{option_copied};
ghost use Rattle.lua_ops.specs.Metamethods as spec;
ghost use Rattle.lua_ops.specs.Joining as join;

use crate::handlers::{handler_call, text_at};
use crate::step::Step;
use itoa::Buffer;
use lanes_arena::Memory;
use object_store::{Event, LuaFault, State, Value};
use std::alloc::Global;

/// The most bytes that a joined text has.
pub const TEXT_LIMIT: usize = 67_108_864;

/// The text that an operand counts as: that of a string, and the decimal text of an integer,
/// which is written into the buffer.
#[inline]
pub fn piece<'a>(state: &'a State, buffer: &'a mut Buffer, value: Value) -> Option<&'a [u8]>
    ensures { option_copied result ≡ spec.piece state.now.texts value }
{
    match value {
        Value::Str(id) => Some(text_at(state, id)),
        Value::Int(n) => Some(buffer.format(n).as_bytes()),
        _ => None,
    }
}

/// Whether two texts have more than `TEXT_LIMIT` bytes together.
#[inline]
fn is_too_long(x: &[u8], y: &[u8]) -> bool
    ensures { result ≡ nat_lt spec.text_limit (length (x.now ++ y.now)) }
{
    x.len() > TEXT_LIMIT || y.len() > TEXT_LIMIT - x.len()
}

/// Two texts, one after the other.
fn joined(alloc: Global, x: &[u8], y: &[u8]) -> Result<Vec<u8>, Memory>
    requires { length (x.now ++ y.now) ≤ spec.text_limit }
    ensures { IfOk result (λ text. text.items ≡ x.now ++ y.now) }
{
    let mut text = Vec::with_capacity(alloc, x.len() + y.len())?;
    text.extend_from_slice(x)?;
    text.extend_from_slice(y)?;
    Ok(text)
}

/// The string of the texts of two strings or integers, or the call of a handler. `NotConcat`
/// names the kind of the first operand that is neither, where neither has a handler.
/// `TextTooLong` comes above `TEXT_LIMIT` bytes, and then `Memory`.
#[tactic(auto, unfolding(crate::specs::Metamethods::concat_step))]
pub fn concat(alloc: Global, state: &mut State, a: Value, b: Value) -> Result<Step, LuaFault>
    ensures answer { (result ≡ join.answer state.old a b) ⊎ (result ≡ Err LuaFault.Memory) }
    ensures texts { OnOk result (state.new.texts ≡ join.texts_after state.old a b) }
    ensures heap { state.new.heap ≡ state.old.heap }
    ensures room { state.new.room ≡ state.old.room }
    ensures err { OnErr result (state.new ≡ state.old) }
    ensures memory { result ≡ Err LuaFault.Memory → IsTrue (join.makes_text state.old a b) }
{
    let mut first = Buffer::new();
    let mut second = Buffer::new();
    let left = piece(state, &mut first, a);
    let right = piece(state, &mut second, b);
    if let Some(x) = left
        && let Some(y) = right
    {
        if is_too_long(x, y) {
            return Err(LuaFault::TextTooLong);
        }
        let text = joined(alloc, x, y)?;
        return Ok(Step::Raw(state.intern(text.as_slice())?));
    }
    let faulty = if left.is_some() { b } else { a };
    match handler_call(state, Event::Concat, a, b) {
        Some(step) => Ok(step),
        None => Err(LuaFault::NotConcat(faulty.kind())),
    }
}
