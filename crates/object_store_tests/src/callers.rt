//! Callers of a state, each proved to keep it closed.
ghost use Rattle.std.specs.Prelude.{◌<◌, length, IfOk};
ghost use Rattle.object_store.specs.Closed.{Bounds, Belongs, IsClosed, IsWithin, IsTableWithin};
ghost use Rattle.object_store.specs.Table.{contents_of};

use lanes_arena::{Code, Row};
use object_store::{Cell, CellId, FuncId, Function, LuaFault, State, Table, TableId, Value};
use std::alloc::Global;

/// Sets a key of a table, where the table belongs to the state.
pub fn set_field(state: &mut State, id: TableId, key: Value, value: Value) -> bool
    requires closed { IsClosed state.old }
    requires key { Belongs state.old key }
    requires value { Belongs state.old value }
    ensures closed { IsClosed state.new }
{
    match state.table_of_mut(id) {
        Some(table) => table.set(key, value).is_ok(),
        None => false,
    }
}

/// Gives a table a metatable.
pub fn give_meta(state: &mut State, id: TableId, meta: TableId)
    requires closed { IsClosed state.old }
    requires id { id.number < length state.old.heap.tables }
    requires meta { meta.number < length state.old.heap.tables }
    ensures closed { IsClosed state.new }
{
    state.table_mut(id).set_meta(Some(meta));
}

/// Writes the content of a cell.
pub fn write_cell(state: &mut State, id: CellId, content: Value)
    requires closed { IsClosed state.old }
    requires id { id.number < length state.old.heap.cells }
    requires content { Belongs state.old content }
    ensures closed { IsClosed state.new }
{
    state.cell_mut(id).content = content;
}

/// Copies the value of one key to another key of the same table.
pub fn copy_field(state: &mut State, id: TableId, from: Value, to: Value) -> bool
    requires closed { IsClosed state.old }
    requires to { Belongs state.old to }
    ensures closed { IsClosed state.new }
{
    let Some(table) = state.table_of(id) else {
        return false;
    };
    let value = table.get(from);
    set_field(state, id, to, value)
}

/// Sets a field by its name.
pub fn set_named(
    state: &mut State,
    id: TableId,
    name: &[u8],
    value: Value,
) -> Result<bool, LuaFault>
    requires closed { IsClosed state.old }
    requires value { Belongs state.old value }
    ensures closed { IsClosed state.new }
{
    let key = state.intern(name)?;
    Ok(set_field(state, id, key, value))
}

/// Adds two tables, each the value of the other at 1. Nothing is added where there is no room for
/// both.
pub fn add_circle(alloc: Global, state: &mut State) -> Result<TableId, LuaFault>
    requires closed { IsClosed state.old }
    ensures closed { IsClosed state.new }
    ensures belongs { IfOk result (λ id. Belongs state.new (Value.Table id)) }
{
    let first = state.table_ahead(0);
    let second = state.table_ahead(1);
    let one = single(alloc, Value::Table(second))?;
    let two = single(alloc, Value::Table(first))?;
    state.reserve(2, 0, 0)?;
    state.add_table(one);
    state.add_table(two);
    Ok(first)
}

/// A table with one value, at 1. It belongs where the value does.
fn single(alloc: Global, value: Value) -> Result<Table, LuaFault>
    ensures { IfOk result (λ table. (bounds : Bounds) → IsWithin bounds value
        → IsTableWithin bounds (contents_of table)) }
{
    let mut table = Table::new(alloc);
    table.reserve(1)?;
    table.set(Value::Int(1), value)?;
    Ok(table)
}

/// Adds a cell with this content.
pub fn add_variable(state: &mut State, content: Value) -> Result<CellId, LuaFault>
    requires closed { IsClosed state.old }
    requires content { Belongs state.old content }
    ensures closed { IsClosed state.new }
    ensures belongs { IfOk result (λ id. id.number < length state.new.heap.cells) }
{
    state.reserve(0, 0, 1)?;
    Ok(state.add_cell(Cell { content }))
}

/// Adds a function that has this cell.
pub fn add_closure(alloc: Global, state: &mut State, cell: CellId) -> Result<FuncId, LuaFault>
    requires closed { IsClosed state.old }
    requires cell { cell.number < length state.old.heap.cells }
    ensures closed { IsClosed state.new }
    ensures belongs { IfOk result (λ id. Belongs state.new (Value.Func id)) }
{
    let mut cells = Row::new(alloc);
    cells.push(cell)?;
    state.reserve(0, 1, 0)?;
    Ok(state.add_function(Function {
        code: Code::Script(0),
        cells,
    }))
}

/// Adds a function that names itself: its only cell has the function. Nothing is added where there
/// is no room for both.
pub fn add_recursive(alloc: Global, state: &mut State) -> Result<FuncId, LuaFault>
    requires closed { IsClosed state.old }
    ensures closed { IsClosed state.new }
    ensures belongs { IfOk result (λ id. Belongs state.new (Value.Func id)) }
{
    let function = state.function_ahead(0);
    let mut cells = Row::new(alloc);
    cells.push(state.cell_ahead(0))?;
    state.reserve(0, 1, 1)?;
    state.add_cell(Cell {
        content: Value::Func(function),
    });
    state.add_function(Function {
        code: Code::Script(0),
        cells,
    });
    Ok(function)
}
