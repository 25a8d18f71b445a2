//! Texts, raw values, metatables and their handlers.
ghost use Rattle.std.specs.Prelude.{◌≡◌};
ghost use Rattle.std.specs.Option.{ok_or};
ghost use Rattle.object_store.specs.declared.fault.LuaFault.{LuaFault as Fault};
ghost use Rattle.lua_ops.specs.Metamethods as spec;

use crate::step::Step;
use object_store::{Event, State, StrId, TableId, Value};

/// The bytes of a string, none where the state has no such string.
#[inline]
pub fn text_at(state: &State, id: StrId) -> &[u8]
    ensures { result.now ≡ spec.text_at state.now.texts id.number }
{
    match state.text_of(id) {
        Some(text) => text,
        None => b"",
    }
}

/// The value of a key in a table, `Nil` where there is none. No metatable is asked.
#[inline]
pub fn raw_index(state: &State, id: TableId, key: Value) -> Value
    ensures { result ≡ spec.raw_get state.now.heap id.number key }
{
    match state.table_of(id) {
        Some(table) => table.get(key),
        None => Value::Nil,
    }
}

/// The metatable of a value: only tables and strings have one (manual, section 2.4).
pub fn meta_of(state: &State, value: Value) -> Option<TableId>
    ensures { result ≡ spec.meta_of state.now.heap value }
{
    match value {
        Value::Table(id) => match state.table_of(id) {
            Some(table) => table.meta(),
            None => None,
        },
        Value::Str(_) => state.string_meta(),
        _ => None,
    }
}

/// The field of the value's metatable that has the event's name, read raw, `Nil` where there is
/// none (manual, section 2.4).
pub fn handler(state: &State, event: Event, value: Value) -> Value
    ensures { result ≡ spec.handler state.now.heap event value }
{
    match meta_of(state, value) {
        Some(id) => raw_index(state, id, event.key()),
        None => Value::Nil,
    }
}

/// Whether the value is a function, of a script or of the libraries.
#[inline]
pub fn is_function(value: Value) -> bool
    ensures { result ≡ spec.is_function value }
{
    matches!(value, Value::Func(_) | Value::Lib(_))
}

/// The handler of the first operand, or else the second's.
pub(crate) fn either_handler(state: &State, event: Event, a: Value, b: Value) -> Value
    ensures { result ≡ spec.either_handler state.now.heap event a b }
{
    let first = handler(state, event, a);
    if first.is_nil() {
        handler(state, event, b)
    } else {
        first
    }
}

/// The call of an operand's handler, where one has it.
pub(crate) fn handler_call(state: &State, event: Event, a: Value, b: Value) -> Option<Step>
    ensures { (fault : Fault) →
        ok_or result fault ≡ spec.with_handler state.now.heap event a b fault }
{
    let function = either_handler(state, event, a, b);
    if function.is_nil() {
        return None;
    }
    Some(Step::Handler {
        function,
        first: a,
        second: b,
    })
}
