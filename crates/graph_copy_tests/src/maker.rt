//! Steps that build the objects of a state. Each looks whether what it is given belongs to the
//! state, and leaves the state closed.
ghost use Rattle.std.specs.Prelude.{◌<◌, length, IsTrue};
ghost use Rattle.object_store.specs.Closed.{Belongs, IsClosed};

use lanes_arena::{Code, Row};
use object_store::{Cell, CellId, FuncId, Function, State, Table, TableId, Value};
use std::alloc::Global;

/// Whether a value belongs to the state.
#[tactic(auto, using(std::proofs::lemmas::Option::slice_get_within))]
pub fn belongs(state: &State, value: Value) -> bool
    ensures { IsTrue result → Belongs state.now value }
{
    match value {
        Value::Str(id) => match state.text_of(id) {
            Some(_) => true,
            None => false,
        },
        Value::Table(id) => id.number() < state.table_ahead(0).number(),
        Value::Func(id) => id.number() < state.function_ahead(0).number(),
        _ => true,
    }
}

/// Sets a key of a table, where the table belongs to the state.
fn set_field(state: &mut State, id: TableId, key: Value, value: Value) -> bool
    requires closed { IsClosed state.old }
    requires key { Belongs state.old key }
    requires value { Belongs state.old value }
    ensures closed { IsClosed state.new }
{
    match state.table_of_mut(id) {
        Some(table) => table.set(key, value).is_ok(),
        None => false,
    }
}

/// Gives a table a metatable.
fn give_meta(state: &mut State, id: TableId, meta: TableId)
    requires closed { IsClosed state.old }
    requires id { id.number < length state.old.heap.tables }
    requires meta { meta.number < length state.old.heap.tables }
    ensures closed { IsClosed state.new }
{
    state.table_mut(id).set_meta(Some(meta));
}

/// Sets a key of a table.
pub fn put(state: &mut State, id: TableId, key: Value, value: Value) -> bool
    requires { IsClosed state.old }
    ensures { IsClosed state.new }
{
    if belongs(state, key) {
        if belongs(state, value) {
            return set_field(state, id, key, value);
        }
    }
    false
}

/// Sets a key of a table by its text.
pub fn put_named(state: &mut State, id: TableId, name: &[u8], value: Value) -> bool
    requires { IsClosed state.old }
    ensures { IsClosed state.new }
{
    match state.intern(name) {
        Ok(key) => put(state, id, key, value),
        Err(_) => false,
    }
}

/// Gives a table a metatable.
pub fn set_meta(state: &mut State, id: TableId, meta: TableId) -> bool
    requires { IsClosed state.old }
    ensures { IsClosed state.new }
{
    let count = state.table_ahead(0).number();
    if id.number() < count {
        if meta.number() < count {
            give_meta(state, id, meta);
            return true;
        }
    }
    false
}

/// Adds an empty table.
pub fn table(alloc: Global, state: &mut State) -> Option<TableId>
    requires { IsClosed state.old }
    ensures { IsClosed state.new }
{
    if state.reserve(1, 0, 0).is_err() {
        return None;
    }
    Some(state.add_table(Table::new(alloc)))
}

/// Adds a cell.
pub fn cell(state: &mut State, content: Value) -> Option<CellId>
    requires { IsClosed state.old }
    ensures { IsClosed state.new }
{
    if state.reserve(0, 0, 1).is_err() {
        return None;
    }
    if belongs(state, content) {
        return Some(state.add_cell(Cell { content }));
    }
    None
}

/// Adds a function of one cell.
pub fn function(alloc: Global, state: &mut State, code: Code, cell: CellId) -> Option<FuncId>
    requires { IsClosed state.old }
    ensures { IsClosed state.new }
{
    if state.reserve(0, 1, 0).is_err() {
        return None;
    }
    let mut cells = Row::new(alloc);
    if cells.push(cell).is_err() {
        return None;
    }
    if cell.number() < state.cell_ahead(0).number() {
        return Some(state.add_function(Function { code, cells }));
    }
    None
}
