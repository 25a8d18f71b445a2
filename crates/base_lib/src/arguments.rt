//! The arguments of a call, by their places from 0.
ghost use Rattle.std.specs.Prelude.{◌≡◌, slice_get};
ghost use Rattle.std.specs.Option.{unwrap_or, option_copied};
ghost use Rattle.base_lib.specs.Base.{table_in, string_in};

use lua_ops::text_at;
use object_store::{State, TableId, Value};

/// The argument, where it is there.
#[inline]
pub fn at(args: &[Value], i: usize) -> Option<Value>
    ensures { result ≡ slice_get args.now i }
{
    args.get(i).copied()
}

/// The argument, or `Nil` where it isn't there.
#[inline]
pub fn at_or_nil(args: &[Value], i: usize) -> Value
    ensures { result ≡ unwrap_or (slice_get args.now i) Value.Nil }
{
    match args.get(i) {
        Some(value) => *value,
        None => Value::Nil,
    }
}

/// The table that the value is.
#[inline]
pub fn table_id(value: Value) -> Option<TableId>
    ensures { result ≡ table_in value }
{
    match value {
        Value::Table(id) => Some(id),
        _ => None,
    }
}

/// The bytes of the value, where it is a string.
#[inline]
pub fn string(state: &State, value: Value) -> Option<&[u8]>
    ensures { option_copied result ≡ string_in state.now.texts value }
{
    match value {
        Value::Str(id) => Some(text_at(state, id)),
        _ => None,
    }
}
