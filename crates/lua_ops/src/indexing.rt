//! `object[key]` (Lua 5.4 manual, sections 2.4 and 3.2).
ghost use Rattle.std.specs.Prelude.{◌≡◌, Result, Ok};
ghost use Rattle.lua_ops.specs.Metamethods as spec;
ghost use Rattle.lua_ops.specs.Turns.{link_of, turn_or};

use crate::chains::{CHAIN_LIMIT, Turn, by_handler};
use crate::handlers::{handler, raw_index};
use crate::step::Step;
use object_store::{Event, LuaFault, State, Value};

/// What the handler of an object says.
fn handler_turn(state: &State, object: Value, key: Value) -> Option<Turn<Step>>
    ensures { (absent : Result Step LuaFault) →
        turn_or result absent ≡ spec.index_by state.now.heap key object absent }
{
    let function = handler(state, Event::Index, object);
    let call = Step::Handler {
        function,
        first: object,
        second: key,
    };
    by_handler(function, call)
}

/// What a table without a raw value says.
#[inline(never)]
fn table_turn(state: &State, object: Value, key: Value) -> Turn<Step>
    ensures { link_of (Ok result) ≡
        spec.index_by state.now.heap key object (Ok (Step.Raw Value.Nil)) }
{
    match handler_turn(state, object, key) {
        Some(turn) => turn,
        None => Turn::Ends(Step::Raw(Value::Nil)),
    }
}

/// What a string says.
#[inline(never)]
fn string_turn(state: &State, object: Value, key: Value) -> Result<Turn<Step>, LuaFault>
    ensures { link_of result ≡ spec.index_by state.now.heap key object (spec.not_indexable object) }
{
    match handler_turn(state, object, key) {
        Some(turn) => Ok(turn),
        None => Err(LuaFault::NotIndexable(object.kind())),
    }
}

/// What one value of the chain says.
#[inline]
fn index_turn(state: &State, object: Value, key: Value) -> Result<Turn<Step>, LuaFault>
    ensures { link_of result ≡ spec.index_link state.now.heap key object }
{
    match object {
        Value::Table(id) => {
            let value = raw_index(state, id, key);
            if value.is_nil() {
                Ok(table_turn(state, object, key))
            } else {
                Ok(Turn::Ends(Step::Raw(value)))
            }
        }
        Value::Str(_) => string_turn(state, object, key),
        Value::Linda(_) | Value::Lane(_) => Ok(Turn::Ends(Step::Handle(object))),
        _ => Err(LuaFault::NotIndexable(object.kind())),
    }
}

/// The value of `object[key]`, or the call that gives it. A handler that is no function is
/// indexed in the object's place, and at most `CHAIN_LIMIT` values are indexed: `LongChain`
/// stands for the next one. `NotIndexable` names the kind of the value that has no fields.
#[inline]
pub fn index(state: &State, object: Value, key: Value) -> Result<Step, LuaFault>
    ensures { result ≡ spec.index_step state.now.heap object key }
{
    let mut asked = object;
    for _ in 0..CHAIN_LIMIT {
        match index_turn(state, asked, key)? {
            Turn::Ends(step) => return Ok(step),
            Turn::Goes(next) => asked = next,
        }
    }
    Err(LuaFault::LongChain)
}
