//! Functions that change the state.
ghost use Rattle.std.specs.Prelude.{◌≡◌, ◌≢◌, false, OnOk, OnErr, IfOk, IfErr, IsTrue, Err};
ghost use Rattle.lanes_arena.specs.Names.{named};
ghost use Rattle.object_store.specs.Closed.{IsClosed, Belongs};
ghost use Rattle.object_store.specs.Value.{is_nil};
ghost use Rattle.lua_ops.specs.Setting.{adds_pair};
ghost use Rattle.base_lib.specs.Base.{with_meta, with_pair};
ghost use Rattle.base_lib.specs.Given.{interned, takes_memory, Does};

use crate::arguments::{at, at_or_nil, table_id};
use crate::functions::BaseFn;
use crate::given::Given;
use crate::refusal::Refusal;
use lanes_arena::Memory;
use lua_ops::handler;
use object_store::{Event, State, TableId, Value};

/// Sets a key that isn't `Nil` in a table, no metatable being asked. A table that isn't there stays
/// so.
pub fn set_pair(state: &mut State, id: TableId, key: Value, value: Value) -> Result<(), Memory>
    requires { is_nil key ≡ false }
    ensures ok { OnOk result (
        state.new ≡ record state.old { heap = with_pair state.old.heap id.number key value }) }
    ensures err { OnErr result (state.new ≡ state.old) }
    ensures memory { OnErr result (IsTrue (adds_pair state.old.heap id.number key value)) }
    ensures closed { IsClosed state.old →
        Belongs state.old key → Belongs state.old value → IsClosed state.new }
{
    match state.table_of_mut(id) {
        Some(table) => match table.set(key, value) {
            Ok(()) => Ok(()),
            Err(_) => Err(Memory),
        },
        None => Ok(()),
    }
}

/// `rawset`: the table.
pub fn raw_set(state: &mut State, args: &[Value]) -> Result<Given, Refusal>
    ensures done { Does state.old BaseFn.RawSet args.now result state.new }
    ensures memory { result ≡ Err Refusal.Memory →
        IsTrue (takes_memory state.old BaseFn.RawSet args.now) }
{
    let Some(id) = table_id(at_or_nil(args, 0)) else {
        return Err(Refusal::BadArgument(1));
    };
    let Some(key) = at(args, 1) else {
        return Err(Refusal::BadArgument(2));
    };
    let Some(value) = at(args, 2) else {
        return Err(Refusal::BadArgument(3));
    };
    if key.is_nil() {
        return Err(Refusal::NilKey);
    }
    match set_pair(state, id, key, value) {
        Ok(()) => Ok(Given::One(Value::Table(id))),
        Err(_) => Err(Refusal::Memory),
    }
}

/// Makes a table the metatable of another, or takes its metatable away.
fn set_meta(state: &mut State, id: TableId, meta: Option<TableId>)
    ensures { state.new ≡ record state.old { heap = with_meta state.old.heap id.number meta } }
{
    match state.table_of_mut(id) {
        Some(table) => table.set_meta(meta),
        None => {}
    }
}

/// `setmetatable`: the table.
pub fn set_metatable(state: &mut State, args: &[Value]) -> Result<Given, Refusal>
    ensures done { Does state.old BaseFn.SetMetatable args.now result state.new }
    ensures memory { result ≢ Err Refusal.Memory }
{
    let Some(id) = table_id(at_or_nil(args, 0)) else {
        return Err(Refusal::BadArgument(1));
    };
    let meta = match at(args, 1) {
        Some(Value::Nil) => None,
        Some(Value::Table(meta)) => Some(meta),
        _ => return Err(Refusal::BadArgument(2)),
    };
    if !handler(state, Event::Metatable, Value::Table(id)).is_nil() {
        return Err(Refusal::Protected);
    }
    set_meta(state, id, meta);
    Ok(Given::One(Value::Table(id)))
}

/// The string of a text.
fn string_of(state: &mut State, text: &'static str) -> Result<Given, Refusal>
    ensures ok { IfOk result (λ given. given ≡ Given.One (interned state.old.texts text.now)) }
    ensures texts { OnOk result (
        state.new ≡ record state.old { texts = named state.old.texts text.now }) }
    ensures memory { IfErr result (λ why. why ≡ Refusal.Memory) }
    ensures err { OnErr result (state.new ≡ state.old) }
{
    match state.intern(text.as_bytes()) {
        Ok(value) => Ok(Given::One(value)),
        Err(_) => Err(Refusal::Memory),
    }
}

/// `type`: the name of the value's type.
pub fn type_name(state: &mut State, args: &[Value]) -> Result<Given, Refusal>
    ensures done { Does state.old BaseFn.Type args.now result state.new }
    ensures memory { result ≡ Err Refusal.Memory →
        IsTrue (takes_memory state.old BaseFn.Type args.now) }
{
    match at(args, 0) {
        Some(value) => string_of(state, value.kind().name()),
        None => Err(Refusal::BadArgument(1)),
    }
}

/// `math.type`: `integer` for an integer, else `Nil`.
pub fn number_type(state: &mut State, args: &[Value]) -> Result<Given, Refusal>
    ensures done { Does state.old BaseFn.MathType args.now result state.new }
    ensures memory { result ≡ Err Refusal.Memory →
        IsTrue (takes_memory state.old BaseFn.MathType args.now) }
{
    match at(args, 0) {
        Some(Value::Int(_)) => string_of(state, "integer"),
        Some(_) => Ok(Given::One(Value::Nil)),
        None => Err(Refusal::BadArgument(1)),
    }
}
