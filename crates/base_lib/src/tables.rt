//! Tables without their metatables.
ghost use Rattle.std.specs.Prelude.{◌≡◌, pos, IfOk, IfErr, OnErr, Some, None};
ghost use Rattle.object_store.specs.Pairs.{border_of, next_pair};
ghost use Rattle.base_lib.specs.Base.{pairs_at};
ghost use Rattle.base_lib.specs.Given.{Reads};

use crate::arguments::{at, at_or_nil, table_id};
use crate::functions::BaseFn;
use crate::given::Given;
use crate::refusal::Refusal;
use lua_ops::{raw_index, text_at};
use object_store::{LibId, State, TableId, Value};

/// The step function of `ipairs`.
const IPAIRS_STEP: Value = Value::Lib(LibId { number: 4 });

/// `ipairs`: the step function, the value and 0.
pub fn ipairs(state: &State, args: &[Value]) -> Result<Given, Refusal>
    ensures { Reads state.now BaseFn.Ipairs args.now result }
{
    let _state = state;
    match at(args, 0) {
        Some(value) => Ok(Given::Three(IPAIRS_STEP, value, Value::Int(0))),
        None => Err(Refusal::BadArgument(1)),
    }
}

/// The first live pair after the key's. A table that isn't there has no pairs.
fn pair_after(state: &State, id: TableId, key: Value) -> Result<Option<(Value, Value)>, Refusal>
    ensures pair { IfOk result (λ pair. next_pair (pairs_at state.now.heap id) key ≡ Some pair) }
    ensures dead_key { IfErr result (λ why. why ≡ Refusal.DeadKey) }
    ensures no_pair { OnErr result (next_pair (pairs_at state.now.heap id) key ≡ None) }
{
    match state.table_of(id) {
        Some(table) => match table.next(key) {
            Ok(pair) => Ok(pair),
            Err(_) => Err(Refusal::DeadKey),
        },
        None if key.is_nil() => Ok(None),
        None => Err(Refusal::DeadKey),
    }
}

/// `next`: the first live pair after the key's, or `Nil`.
pub fn next(state: &State, args: &[Value]) -> Result<Given, Refusal>
    ensures { Reads state.now BaseFn.Next args.now result }
{
    let Some(id) = table_id(at_or_nil(args, 0)) else {
        return Err(Refusal::BadArgument(1));
    };
    match pair_after(state, id, at_or_nil(args, 1)) {
        Ok(Some((key, value))) => Ok(Given::Two(key, value)),
        Ok(None) => Ok(Given::One(Value::Nil)),
        Err(why) => Err(why),
    }
}

/// `rawequal`.
pub fn raw_equal(state: &State, args: &[Value]) -> Result<Given, Refusal>
    ensures { Reads state.now BaseFn.RawEqual args.now result }
{
    let _state = state;
    let Some(a) = at(args, 0) else {
        return Err(Refusal::BadArgument(1));
    };
    let Some(b) = at(args, 1) else {
        return Err(Refusal::BadArgument(2));
    };
    Ok(Given::One(Value::from_bool(a == b)))
}

/// `rawget`.
pub fn raw_get(state: &State, args: &[Value]) -> Result<Given, Refusal>
    ensures { Reads state.now BaseFn.RawGet args.now result }
{
    let Some(id) = table_id(at_or_nil(args, 0)) else {
        return Err(Refusal::BadArgument(1));
    };
    let Some(key) = at(args, 1) else {
        return Err(Refusal::BadArgument(2));
    };
    Ok(Given::One(raw_index(state, id, key)))
}

/// The border of a table.
fn border(state: &State, id: TableId) -> i64
    ensures { result ≡ pos (border_of (pairs_at state.now.heap id)) }
{
    match state.table_of(id) {
        Some(table) => table.border(),
        None => 0,
    }
}

/// `rawlen`: the number of a string's bytes, or a table's border.
pub fn raw_len(state: &State, args: &[Value]) -> Result<Given, Refusal>
    ensures { Reads state.now BaseFn.RawLen args.now result }
{
    match at_or_nil(args, 0) {
        Value::Str(id) => Ok(Given::One(Value::Int(text_at(state, id).len() as i64))),
        Value::Table(id) => Ok(Given::One(Value::Int(border(state, id)))),
        _ => Err(Refusal::BadArgument(1)),
    }
}
