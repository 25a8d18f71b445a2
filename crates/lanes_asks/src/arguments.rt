//! The arguments of the face's functions.
ghost use Rattle.std.specs.Prelude.{◌≡◌, drop, Ok};
ghost use Rattle.lanes_lib.specs.Face as face;
ghost use Rattle.lanes_asks.specs.Asks.{Says, map_ok};
ghost use Rattle.linda_core.specs.Items.{leaf_item};

use crate::faults::{bad_handle, no_memory};
use lanes_arena::{Bytes, Row};
use lanes_lib::AskFault;
use linda_core::{Item, Key};
use lua_ops::text_at;
use object_store::{LuaFault, State, Value};
use parcel::Leaf;
use std::alloc::Global;

/// The number of the linda that the first argument of a function of this name is.
pub fn handle(alloc: Global, name: &[u8], object: Option<Value>) -> Result<u64, AskFault>
    ensures { Says (face.handle name.now object) result }
{
    match object {
        Some(Value::Linda(number)) => Ok(number),
        Some(_) => Err(bad_handle(alloc, name)),
        None => Err(bad_handle(alloc, name)),
    }
}

/// The arguments after the first.
pub fn after_first(args: &[Value]) -> &[Value]
    ensures { result.now ≡ drop 1 args.now }
{
    match args.split_first() {
        Some((_, rest)) => rest,
        None => args,
    }
}

/// Whether a timeout stands first, and the arguments after it.
pub fn timed(args: &[Value]) -> Result<(bool, &[Value]), AskFault>
    ensures { map_ok (λ t. (t.0, t.1.now)) result ≡ face.timed args.now }
{
    let Some((first, rest)) = args.split_first() else {
        return Ok((false, args));
    };
    match *first {
        Value::Int(n) => {
            if n < 0 {
                Err(AskFault::Lua(LuaFault::BadCount))
            } else {
                Ok((true, rest))
            }
        }
        Value::Nil => Ok((true, rest)),
        _ => Ok((false, args)),
    }
}

/// The key that a value is: an integer, a string or a boolean.
pub fn key_of(alloc: Global, state: &State, value: Value) -> Result<Key, AskFault>
    ensures { Says (face.key_of state.now.texts value) result }
{
    match value {
        Value::Int(n) => Ok(Key::Int(n)),
        Value::Str(id) => match Bytes::of(alloc, text_at(state, id)) {
            Ok(text) => Ok(Key::Text(text)),
            Err(_) => Err(no_memory()),
        },
        Value::False => Ok(Key::Bool(false)),
        Value::True => Ok(Key::Bool(true)),
        _ => Err(AskFault::Lua(LuaFault::BadKey)),
    }
}

/// The keys that the values are.
fn keys_of(alloc: Global, state: &State, values: &[Value]) -> Result<Row<Key>, AskFault>
    ensures { Says (face.keys_of state.now.texts values.now) result }
{
    let mut keys = Row::new(alloc);
    for value in values {
        let key = key_of(alloc, state, *value)?;
        match keys.push(key) {
            Ok(()) => {}
            Err(_) => return Err(no_memory()),
        }
    }
    Ok(keys)
}

/// The keys that the values are, of which there must be one.
pub fn some_keys(alloc: Global, state: &State, values: &[Value]) -> Result<Row<Key>, AskFault>
    ensures { Says (face.some_keys state.now.texts values.now) result }
{
    if values.is_empty() {
        return Err(AskFault::Lua(LuaFault::BadKey));
    }
    keys_of(alloc, state, values)
}

/// The key that the first argument is, and the arguments after it.
pub fn first_key<'a>(
    alloc: Global,
    state: &State,
    args: &'a [Value],
) -> Result<(Key, &'a [Value]), AskFault>
    ensures { Says (face.first_key state.now.texts args.now) (map_ok (λ k. (k.0, k.1.now)) result) }
{
    match args.split_first() {
        Some((first, rest)) => Ok((key_of(alloc, state, *first)?, rest)),
        None => Err(AskFault::Lua(LuaFault::BadKey)),
    }
}

/// What is sent of a value without parts.
fn item_of_leaf(alloc: Global, leaf: Leaf) -> Result<Item, AskFault>
    ensures { Says (Ok (leaf_item leaf)) result }
{
    match Item::of_leaf(alloc, leaf) {
        Ok(item) => Ok(item),
        Err(_) => Err(no_memory()),
    }
}

/// What is sent of a value: an integer or the bytes of a string. No other kind is sent yet.
fn item_of(alloc: Global, state: &State, value: Value) -> Result<Item, AskFault>
    ensures { Says (face.item_of state.now.texts value) result }
{
    match value {
        Value::Int(n) => item_of_leaf(alloc, Leaf::Int(n)),
        Value::Str(id) => match Bytes::of(alloc, text_at(state, id)) {
            Ok(text) => item_of_leaf(alloc, Leaf::Text(text)),
            Err(_) => Err(no_memory()),
        },
        _ => Err(AskFault::NotBuilt),
    }
}

/// What is sent of the values.
fn items_of(alloc: Global, state: &State, values: &[Value]) -> Result<Row<Item>, AskFault>
    ensures { Says (face.items_of state.now.texts values.now) result }
{
    let mut items = Row::new(alloc);
    for value in values {
        let item = item_of(alloc, state, *value)?;
        match items.push(item) {
            Ok(()) => {}
            Err(_) => return Err(no_memory()),
        }
    }
    Ok(items)
}

/// What is sent of the values, of which there must be one.
pub fn some_items(alloc: Global, state: &State, values: &[Value]) -> Result<Row<Item>, AskFault>
    ensures { Says (face.some_items state.now.texts values.now) result }
{
    if values.is_empty() {
        return Err(AskFault::Lua(LuaFault::NoData));
    }
    items_of(alloc, state, values)
}
