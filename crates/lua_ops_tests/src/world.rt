//! A state in which tests make tables, texts and metatables.

use lua_ops::Step;
use object_store::{Event, LibId, LuaFault, State, Table, TableId, Value};
use std::alloc::Global;
use std::process::Abort;

/// A function of the libraries, which stands for a handler.
pub fn lib(number: u64) -> Value {
    Value::Lib(LibId { number })
}

/// A call of the library function with two arguments.
pub fn call(number: u64, first: Value, second: Value) -> Step {
    Step::Handler {
        function: lib(number),
        first,
        second,
    }
}

/// Whether the answer is a fault of this text.
pub fn is_fault<T: Drop>(alloc: Global, answer: Result<T, LuaFault>, text: &str) -> bool {
    match answer {
        Ok(_) => false,
        Err(fault) => match fault.text(alloc) {
            Ok(shown) => shown.as_slice() == text.as_bytes(),
            Err(_) => false,
        },
    }
}

/// Whether the answer is this step.
pub fn is_step(answer: Result<Step, LuaFault>, step: Step) -> bool {
    match answer {
        Ok(found) => found == step,
        Err(_) => false,
    }
}

/// Whether the answer is this value.
pub fn is_value(answer: Result<Step, LuaFault>, value: Value) -> bool {
    is_step(answer, Step::Raw(value))
}

/// A state, and what makes its objects.
pub struct World {
    pub alloc: Global,
    pub state: State,
}

impl Drop for World {
    fn drop(self) {
        let World { alloc: _, state: _ } = self;
    }
}

impl World {
    pub fn new(alloc: Global, rt: &impl Abort) -> World {
        let state = State::new(alloc, 1).expect(rt, "there is memory");
        World { alloc, state }
    }

    /// A new table without pairs.
    pub fn table(&mut self, rt: &impl Abort) -> TableId {
        self.state.reserve(1, 0, 0).expect(rt, "there is memory");
        self.state.add_table(Table::new(self.alloc))
    }

    /// Sets a key, without metatables.
    pub fn set(&mut self, rt: &impl Abort, id: TableId, key: Value, value: Value) {
        if let Some(table) = self.state.table_of_mut(id) {
            table.set(key, value).expect(rt, "there is memory");
        }
    }

    /// Makes a new metatable with one handler the table's.
    pub fn give_handler(&mut self, rt: &impl Abort, id: TableId, event: Event, handler: Value) {
        let meta = self.table(rt);
        self.set(rt, meta, event.key(), handler);
        if let Some(table) = self.state.table_of_mut(id) {
            table.set_meta(Some(meta));
        }
    }

    /// A new table whose metatable has one handler.
    pub fn handled(&mut self, rt: &impl Abort, event: Event, handler: Value) -> Value {
        let id = self.table(rt);
        self.give_handler(rt, id, event, handler);
        Value::Table(id)
    }

    /// The first of so many tables, each the handler of the one before it, and the last of them,
    /// which has no handler.
    pub fn linked(&mut self, rt: &impl Abort, event: Event, n: u32) -> (Value, TableId) {
        let last = self.table(rt);
        let mut first = Value::Table(last);
        for _ in 1..n {
            first = self.handled(rt, event, first);
        }
        (first, last)
    }

    /// The string of a text.
    pub fn text(&mut self, rt: &impl Abort, text: &[u8]) -> Value {
        self.state.intern(text).expect(rt, "there is memory")
    }

    /// Makes a new table with one handler the metatable of all strings.
    pub fn string_handler(&mut self, rt: &impl Abort, event: Event, handler: Value) {
        let meta = self.table(rt);
        self.set(rt, meta, event.key(), handler);
        if self.state.table_of(meta).is_some() {
            self.state.set_string_meta(meta);
        }
    }
}
