//! A state with some tables, for each row anew.
use base_lib::{BASE, Given, open_libs};
use lanes_arena::Memory;
use object_store::{Event, LibId, LightId, LuaFault, State, Table, TableId, Value};
use std::alloc::Global;

/// A value of a row.
#[derive(Clone, Copy)]
pub enum Item {
    Nil,
    Yes,
    No,
    Int(i64),
    Text(&'static str),
    Lib(u64),
    Linda(u64),
    Lane(u64),
    Light(u64),
    /// A table with the pairs 1: 10, 2: 20, 3: 30 and "k": true, without a metatable.
    List,
    /// A table without pairs, whose metatable is `Meta`.
    Object,
    /// A table without pairs.
    Meta,
    /// A table whose metatable has the field `__metatable`, the string "locked".
    Guarded,
}

/// The tables of a row.
#[derive(Clone, Copy)]
struct Tables {
    list: TableId,
    object: TableId,
    meta: TableId,
    guarded: TableId,
}

/// A state, and its tables.
#[derive(Drop)]
pub struct Fixture {
    pub state: State,
    tables: Tables,
}

fn add(alloc: Global, state: &mut State) -> Result<TableId, LuaFault> {
    state.reserve(1, 0, 0)?;
    Ok(state.add_table(Table::new(alloc)))
}

fn set(state: &mut State, id: TableId, key: Value, value: Value) -> Result<(), LuaFault> {
    if let Some(table) = state.table_of_mut(id) {
        table.set(key, value)?;
    }
    Ok(())
}

fn set_meta(state: &mut State, id: TableId, meta: TableId) {
    if let Some(table) = state.table_of_mut(id) {
        table.set_meta(Some(meta));
    }
}

fn fill(state: &mut State, list: TableId) -> Result<(), LuaFault> {
    set(state, list, Value::Int(1), Value::Int(10))?;
    set(state, list, Value::Int(2), Value::Int(20))?;
    set(state, list, Value::Int(3), Value::Int(30))?;
    let key = state.intern(b"k")?;
    set(state, list, key, Value::True)
}

/// A table whose metatable has a field `__metatable`.
fn add_guarded(alloc: Global, state: &mut State) -> Result<TableId, LuaFault> {
    let guarded = add(alloc, state)?;
    let lock = add(alloc, state)?;
    let locked = state.intern(b"locked")?;
    set(state, lock, Event::Metatable.key(), locked)?;
    set_meta(state, guarded, lock);
    Ok(guarded)
}

fn add_tables(alloc: Global, state: &mut State) -> Result<Tables, LuaFault> {
    open_libs(alloc, state, BASE)?;
    let list = add(alloc, state)?;
    fill(state, list)?;
    let object = add(alloc, state)?;
    let meta = add(alloc, state)?;
    set_meta(state, object, meta);
    let guarded = add_guarded(alloc, state)?;
    Ok(Tables {
        list,
        object,
        meta,
        guarded,
    })
}

impl Fixture {
    pub fn new(alloc: Global) -> Result<Fixture, LuaFault> {
        let mut state = State::new(alloc, 7)?;
        let tables = add_tables(alloc, &mut state)?;
        Ok(Fixture { state, tables })
    }

    pub fn value(&mut self, item: Item) -> Result<Value, Memory> {
        Ok(match item {
            Item::Nil => Value::Nil,
            Item::Yes => Value::True,
            Item::No => Value::False,
            Item::Int(n) => Value::Int(n),
            Item::Text(text) => return self.state.intern(text.as_bytes()),
            Item::Lib(number) => Value::Lib(LibId { number }),
            Item::Linda(number) => Value::Linda(number),
            Item::Lane(number) => Value::Lane(number),
            Item::Light(number) => Value::Light(LightId { number }),
            Item::List => Value::Table(self.tables.list),
            Item::Object => Value::Table(self.tables.object),
            Item::Meta => Value::Table(self.tables.meta),
            Item::Guarded => Value::Table(self.tables.guarded),
        })
    }

    pub fn values(&mut self, alloc: Global, items: &[Item]) -> Result<Vec<Value>, Memory> {
        let mut values = Vec::new(alloc);
        for item in items {
            let value = self.value(*item)?;
            values.push(value)?;
        }
        Ok(values)
    }
}

/// The values that an answer stands for.
pub fn listed(alloc: Global, given: Given, args: &[Value]) -> Result<Vec<Value>, Memory> {
    let mut values = Vec::new(alloc);
    match given {
        Given::Nothing => {}
        Given::One(a) => values.push(a)?,
        Given::Two(a, b) => {
            values.push(a)?;
            values.push(b)?;
        }
        Given::Three(a, b, c) => {
            values.push(a)?;
            values.push(b)?;
            values.push(c)?;
        }
        Given::From(place) => {
            for value in args.iter().skip(place) {
                values.push(*value)?;
            }
        }
    }
    Ok(values)
}
