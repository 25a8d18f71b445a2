//! What a script sees of a table, row by row, and what a state keeps.
mod rows;

use crate::callers::{add_circle, copy_field, set_field, set_named};
use lanes_arena::{ArenaFault, Bytes, Memory};
use object_store::{Cell, Event, Kind, LibId, LightId, LuaFault, SetFault, State, Table, Value};
use rows::{BORDER_ROWS, Item, KEY_ROWS, PURGE_ROWS, Row, Step};
use std::alloc::Global;
use std::mem::size_of;

/// The values that a row's letters stand for.
#[derive(Drop)]
struct Named {
    globals: Value,
    a: Value,
    a_again: Value,
    b: Value,
    c: Value,
    d: Value,
}

impl Named {
    fn new(alloc: Global) -> Result<Named, Memory> {
        let mut state = State::new(alloc, 1)?;
        let globals = Value::Table(state.globals());
        let a = state.intern(b"a")?;
        let b = state.intern(b"b")?;
        let c = state.intern(b"c")?;
        let d = state.intern(b"d")?;
        let a_again = state.intern(b"a")?;
        Ok(Named {
            globals,
            a,
            a_again,
            b,
            c,
            d,
        })
    }

    fn value(&self, item: Item) -> Value {
        match item {
            Item::Nil => Value::Nil,
            Item::Yes => Value::True,
            Item::No => Value::False,
            Item::Int(n) => Value::Int(n),
            Item::Lib(n) => Value::Lib(LibId { number: n }),
            Item::Linda(n) => Value::Linda(n),
            Item::Lane(n) => Value::Lane(n),
            Item::Light(n) => Value::Light(LightId { number: n }),
            Item::Globals => self.globals,
            Item::A => self.a,
            Item::AAgain => self.a_again,
            Item::B => self.b,
            Item::C => self.c,
            Item::D => self.d,
        }
    }

    /// Whether the step's call answers so.
    fn answers(&self, table: &mut Table, step: Step) -> bool {
        match step {
            Step::Set(key, value) => table.set(self.value(key), self.value(value)).is_ok(),
            Step::NilKey(value) => {
                table.set(Value::Nil, self.value(value)) == Err(SetFault::NilKey)
            }
            Step::Get(key, value) => table.get(self.value(key)) == self.value(value),
            Step::Next(key, next) => match table.next(self.value(key)) {
                Ok(Some((found, _))) => found == self.value(next),
                _ => false,
            },
            Step::Ends(key) => matches!(table.next(self.value(key)), Ok(None)),
            Step::Dead(key) => table.next(self.value(key)).is_err(),
            Step::Border(border) => table.border() == border,
        }
    }

    /// Whether each step of a row answers so, on a table of its own.
    fn holds(&self, alloc: Global, steps: &[Step]) -> bool {
        let mut table = Table::new(alloc);
        for step in steps {
            if !self.answers(&mut table, *step) {
                return false;
            }
        }
        true
    }

    /// What the first row shows that does not hold.
    fn first_wrong(&self, alloc: Global, rows: &[Row]) -> Option<&'static str> {
        for row in rows {
            if !self.holds(alloc, row.1) {
                return Some(row.0);
            }
        }
        None
    }
}

#[test]
fn each_row_of_a_table_holds(rt: HostRuntime) {
    let named = Named::new(rt.alloc()).expect(&rt, "there is memory");
    for rows in [PURGE_ROWS, KEY_ROWS, BORDER_ROWS] {
        assert!(rt; named.first_wrong(rt.alloc(), rows).is_none());
    }
}

/// Whether `n` appends and as many removals from the end leave an empty table.
fn undoes_appends(alloc: Global, n: u32) -> bool {
    let mut table = Table::new(alloc);
    for i in 0..n {
        if table
            .set(Value::Int(i as i64 + 1), Value::Int(i as i64))
            .is_err()
        {
            return false;
        }
    }
    if table.border() != n as i64 {
        return false;
    }
    for _ in 0..n {
        let last = table.border();
        if table.set(Value::Int(last), Value::Nil).is_err() {
            return false;
        }
    }
    table.border() == 0 && matches!(table.next(Value::Nil), Ok(None))
}

#[test]
fn ten_thousand_appends_and_removals_are_undone(rt: HostRuntime) {
    assert!(rt; undoes_appends(rt.alloc(), 10_000));
}

#[test]
fn a_value_has_sixteen_bytes(rt: HostRuntime) {
    assert!(rt; size_of::<Value>() == 16);
}

#[test]
fn a_state_keeps_its_objects(rt: HostRuntime) {
    let mut state = State::new(rt.alloc(), 5).expect(&rt, "there is memory");
    assert!(rt; state.number() == 5 && state.globals().number() == 0);
    assert!(rt; state.lanes_table().is_none() && state.string_meta().is_none());
    assert!(rt; state.reserve(1, 1, 1) == Ok(()));
    assert!(rt; state.reserve(usize::MAX, 0, 0) == Err(ArenaFault::Full));
    let one = state.intern(b"one").expect(&rt, "there is memory");
    let again = state.intern(b"one").expect(&rt, "there is memory");
    let two = state.intern(b"two").expect(&rt, "there is memory");
    assert!(rt; one == again && one != two);
    assert!(rt; one.kind() == Kind::Text && one.kind().name() == "string");
}

#[test]
fn each_event_has_its_string(rt: HostRuntime) {
    let state = State::new(rt.alloc(), 1).expect(&rt, "there is memory");
    for event in Event::ALL {
        assert!(rt; state.find(event.name()) == Some(event.key()));
    }
    assert!(rt; state.find(b"__gc").is_none());
    assert!(rt; Event::IDiv.name() == b"__idiv".as_slice());
}

#[test]
fn truth_is_all_but_nil_and_false(rt: HostRuntime) {
    assert!(rt; !Value::Nil.is_truthy() && !Value::from_bool(false).is_truthy());
    assert!(rt; Value::from_bool(true).is_truthy() && Value::Int(0).is_truthy());
    assert!(rt; LightId::CANCEL_ERROR.number == 0 && LightId::BATCHED.number == 1);
}

#[test]
fn getters_answer_what_belongs(rt: HostRuntime) {
    let mut state = State::new(rt.alloc(), 1).expect(&rt, "there is memory");
    assert!(rt; state.reserve(0, 0, 1) == Ok(()));
    let cell = state.add_cell(Cell {
        content: Value::Nil,
    });
    assert!(rt; state.set_cell(cell, Value::Int(7)));
    assert!(rt;
        state.cell_of(cell)
            == Some(&Cell {
                content: Value::Int(7)
            })
    );
    assert!(rt; !state.set_cell(state.cell_ahead(3), Value::Nil));
    assert!(rt; state.table_of(state.table_ahead(0)).is_none());
    assert!(rt; state.function_of(state.function_ahead(0)).is_none());
    assert!(rt; state.table_of(state.globals()).is_some());
    assert!(rt; state.table_of_mut(state.globals()).is_some());
}

#[test]
fn callers_keep_their_state(rt: HostRuntime) -> Result<(), LuaFault> {
    let mut state = State::new(rt.alloc(), 1)?;
    let globals = state.globals();
    let circle = add_circle(rt.alloc(), &mut state)?;
    assert!(rt; set_named(&mut state, globals, b"c", Value::Table(circle))?);
    let name = state.find(b"c").unwrap_or(Value::Nil);
    assert!(rt; copy_field(&mut state, globals, name, Value::Int(1)));
    assert!(rt; set_field(&mut state, circle, Value::Int(2), Value::True));
    let copied = state
        .table_of(globals)
        .map(|table| table.get(Value::Int(1)));
    assert!(rt; copied == Some(Value::Table(circle)));
    if circle.number() == 1 && globals.number() == 0 {
        give_meta_of_first(&mut state);
    }
    Ok(())
}

/// Makes the globals their own metatable.
fn give_meta_of_first(state: &mut State) {
    let globals = state.globals();
    if let Some(table) = state.table_of_mut(globals) {
        table.set_meta(Some(globals));
    }
}

#[test]
fn pairs_lie_at_their_places(rt: HostRuntime) -> Result<(), LuaFault> {
    let mut table = Table::new(rt.alloc());
    table.reserve(20)?;
    for i in 0..12u8 {
        let n = i as i64;
        table.set(Value::Int(n + 100), Value::Int(n))?;
    }
    table.set(Value::Int(101), Value::Nil)?;
    assert!(rt; table.len() == 12);
    assert!(rt; table.pair(0) == Some((Value::Int(100), Value::Int(0))));
    assert!(rt; table.pair(1) == Some((Value::Int(101), Value::Nil)));
    assert!(rt; table.pair(11) == Some((Value::Int(111), Value::Int(11))));
    assert!(rt; table.pair(12).is_none());
    Ok(())
}

#[test]
fn faults_have_their_texts(rt: HostRuntime) -> Result<(), Memory> {
    let alloc = rt.alloc();
    let function = Bytes::of(alloc, b"insert")?;
    let argument = LuaFault::BadArgument { at: 12, function };
    assert!(rt; argument.text(alloc)?.as_slice() == b"bad argument #12 to 'insert'".as_slice());
    let call = LuaFault::NotCallable(Kind::Nil).text(alloc)?;
    assert!(rt; call.as_slice() == b"attempt to call a nil value".as_slice());
    let order = LuaFault::NotOrdered(Kind::Number, Kind::Text).text(alloc)?;
    assert!(rt; order.as_slice() == b"attempt to compare number with string".as_slice());
    let division = LuaFault::ZeroDivisor.text(alloc)?;
    assert!(rt; division.as_slice() == b"division by zero".as_slice());
    Ok(())
}
