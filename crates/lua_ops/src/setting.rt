//! `object[key] = value` (Lua 5.4 manual, section 2.4).
ghost use Rattle.std.specs.Prelude.{◌≡◌, ◌⊎◌, ◌↔◌, not, Result, Ok, Err, IsTrue, IsFalse, OnOk, OnErr};
ghost use Rattle.object_store.specs.Value.{is_nil};
ghost use Rattle.lua_ops.specs.Metamethods as spec;
ghost use Rattle.lua_ops.specs.Setting as set;
ghost use Rattle.lua_ops.specs.Turns.{link_of, turn_or};

use crate::chains::{CHAIN_LIMIT, Turn, by_handler};
use crate::handlers::{handler, raw_index};
use crate::step::{SetStep, Target};
use object_store::{Event, LuaFault, State, TableId, Value};

/// What the handler of an object says.
fn handler_turn(state: &State, object: Value) -> Option<Turn<Target>>
    ensures { (absent : Result Target LuaFault) →
        turn_or result absent ≡ spec.set_by state.now.heap object absent }
{
    let function = handler(state, Event::NewIndex, object);
    by_handler(function, Target::Handler { function, object })
}

/// What a table without a live key says.
#[inline(never)]
fn table_turn(state: &State, id: TableId) -> Turn<Target>
    ensures { link_of (Ok result) ≡
        spec.set_by state.now.heap (Value.Table id) (Ok (Target.Table id)) }
{
    match handler_turn(state, Value::Table(id)) {
        Some(turn) => turn,
        None => Turn::Ends(Target::Table(id)),
    }
}

/// What a string says.
#[inline(never)]
fn string_turn(state: &State, object: Value) -> Result<Turn<Target>, LuaFault>
    ensures { link_of result ≡ spec.set_by state.now.heap object (spec.not_indexable object) }
{
    match handler_turn(state, object) {
        Some(turn) => Ok(turn),
        None => Err(LuaFault::NotIndexable(object.kind())),
    }
}

/// Whether the table has no metatable.
#[inline]
fn is_plain(state: &State, id: TableId) -> bool
    ensures { result ≡ set.is_plain state.now.heap id.number }
{
    match state.table_of(id) {
        Some(table) => table.meta().is_none(),
        None => true,
    }
}

/// What one value of the chain says.
#[inline]
fn set_turn(state: &State, object: Value, key: Value) -> Result<Turn<Target>, LuaFault>
    ensures { link_of result ≡ spec.set_link state.now.heap key object }
{
    match object {
        Value::Table(id) => {
            if is_plain(state, id) || !raw_index(state, id, key).is_nil() {
                Ok(Turn::Ends(Target::Table(id)))
            } else {
                Ok(table_turn(state, id))
            }
        }
        Value::Str(_) => string_turn(state, object),
        _ => Err(LuaFault::NotIndexable(object.kind())),
    }
}

/// The table whose key `object[key] = value` sets, or the handler that is called. A handler that
/// is no function is set in the object's place, and at most `CHAIN_LIMIT` values are asked:
/// `LongChain` stands for the next one. `NotIndexable` names the kind of the value that has no
/// fields.
#[inline]
pub fn set_target(state: &State, object: Value, key: Value) -> Result<Target, LuaFault>
    ensures { result ≡ spec.set_target state.now.heap object key }
{
    let mut asked = object;
    for _ in 0..CHAIN_LIMIT {
        match set_turn(state, asked, key)? {
            Turn::Ends(target) => return Ok(target),
            Turn::Goes(next) => asked = next,
        }
    }
    Err(LuaFault::LongChain)
}

/// Sets the key of a table, no metatable being asked. Nothing is set where the state has no such
/// table. `NilKey` stands for a nil key, and `Memory` comes only where a pair would be added.
#[inline]
#[tactic(auto, using(crate::proofs::TableLemmas::table_rules))]
pub fn raw_set(state: &mut State, id: TableId, key: Value, value: Value) -> Result<(), LuaFault>
    ensures set { OnOk result (state.new ≡ set.with_pair state.old id.number key value) }
    ensures err { OnErr result (state.new ≡ state.old) }
    ensures nil_key { (result ≡ Err LuaFault.NilKey) ↔ (key ≡ Value.Nil) }
    ensures faults { OnErr result
        ((result ≡ Err LuaFault.NilKey) ⊎ (result ≡ Err LuaFault.Memory)) }
    ensures memory { result ≡ Err LuaFault.Memory →
        IsTrue (set.adds_pair state.old.heap id.number key value) }
{
    if key.is_nil() {
        return Err(LuaFault::NilKey);
    }
    let Some(table) = state.table_of_mut(id) else {
        return Ok(());
    };
    table.set(key, value)?;
    Ok(())
}

/// Carries out `object[key] = value`, or names the call that does, as `set_target` says. `NilKey`
/// stands for a nil key of a table that would be set, and `Memory` comes only where a pair would
/// be added.
#[inline]
#[tactic(auto, using(crate::proofs::TargetLemmas::target_rules))]
pub fn set_index(
    state: &mut State,
    object: Value,
    key: Value,
    value: Value,
) -> Result<SetStep, LuaFault>
    ensures answer { (result ≡ set.answer state.old.heap object key)
        ⊎ (result ≡ Err LuaFault.Memory) }
    ensures set { OnOk result (state.new ≡ set.after state.old object key value) }
    ensures err { OnErr result (state.new ≡ state.old) }
    ensures memory { result ≡ Err LuaFault.Memory →
        IsTrue (set.adds state.old.heap object key value) }
{
    match set_target(state, object, key)? {
        Target::Table(id) => {
            raw_set(state, id, key, value)?;
            Ok(SetStep::Done)
        }
        Target::Handler { function, object } => Ok(SetStep::Handler { function, object }),
    }
}

/// Sets a key that has a live value, and answers whether it had one; else nothing is done. No
/// metatable is asked, and no memory is taken.
#[inline]
#[tactic(auto, using(crate::proofs::TableLemmas::table_rules))]
pub fn raw_set_here(state: &mut State, id: TableId, key: Value, value: Value) -> bool
    ensures live { result ≡ not (is_nil (spec.raw_get state.old.heap id.number key)) }
    ensures set { IsTrue result → state.new ≡ set.with_pair state.old id.number key value }
    ensures absent { IsFalse result → state.new ≡ state.old }
{
    let Some(table) = state.table_of_mut(id) else {
        return false;
    };
    if table.get(key).is_nil() {
        return false;
    }
    table.set(key, value).is_ok()
}
