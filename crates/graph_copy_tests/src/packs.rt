//! What packing gives, with ample memory.
ghost use Rattle.object_store.specs.Closed.{IsClosed};

use crate::maker::{cell, function, put, put_named, set_meta, table};
use crate::wanted::{is_refused_so, is_right, marks_wanted};
use graph_copy::pack;
use lanes_arena::Code;
use metatable_ids::Marks;
use object_store::{State, Value};
use std::alloc::Global;

/// A value that is packed, twice as a root, from a state of number 0.
#[derive(Clone, Copy, PartialEq, Eq)]
pub enum Case {
    /// A table that has itself at `x`.
    Circle,
    /// A table that is its own metatable and has itself at `__index`.
    Class,
    /// Two functions that share a cell, in a table with a dead pair.
    SharedCell,
    /// A table that two fields of another reach.
    Diamond,
    /// A table as the key of another.
    TableAsKey,
    /// Values that are no objects, and two equal texts.
    Leaves,
    /// A lane handle in a table that has a metatable.
    LaneHandle,
}

pub const CASES: &[Case] = &[
    Case::Circle,
    Case::Class,
    Case::SharedCell,
    Case::Diamond,
    Case::TableAsKey,
    Case::Leaves,
    Case::LaneHandle,
];

fn made(root: Value, done: bool) -> Option<Value> {
    if done { Some(root) } else { None }
}

fn circle(alloc: Global, state: &mut State) -> Option<Value>
    requires { IsClosed state.old }
    ensures { IsClosed state.new }
{
    let t = table(alloc, state)?;
    let done = put_named(state, t, b"x", Value::Table(t));
    made(Value::Table(t), done)
}

fn class(alloc: Global, state: &mut State) -> Option<Value>
    requires { IsClosed state.old }
    ensures { IsClosed state.new }
{
    let _other = table(alloc, state)?;
    let c = table(alloc, state)?;
    let done = put_named(state, c, b"__index", Value::Table(c)) && set_meta(state, c, c);
    made(Value::Table(c), done)
}

fn shared_cell(alloc: Global, state: &mut State) -> Option<Value>
    requires { IsClosed state.old }
    ensures { IsClosed state.new }
{
    let t = table(alloc, state)?;
    let variable = cell(state, Value::Int(-1))?;
    let f = function(alloc, state, Code::Script(4), variable)?;
    let g = function(alloc, state, Code::Walker, variable)?;
    let done = put(state, t, Value::Int(1), Value::Func(g))
        && put(state, t, Value::Int(2), Value::True)
        && put(state, t, Value::Int(2), Value::Nil)
        && put(state, t, Value::Func(f), Value::Int(i64::MIN));
    made(Value::Table(t), done)
}

fn diamond(alloc: Global, state: &mut State) -> Option<Value>
    requires { IsClosed state.old }
    ensures { IsClosed state.new }
{
    let t = table(alloc, state)?;
    let shared = table(alloc, state)?;
    let done = put_named(state, t, b"left", Value::Table(shared))
        && put_named(state, t, b"right", Value::Table(shared));
    made(Value::Table(t), done)
}

fn table_as_key(alloc: Global, state: &mut State) -> Option<Value>
    requires { IsClosed state.old }
    ensures { IsClosed state.new }
{
    let t = table(alloc, state)?;
    let key = table(alloc, state)?;
    let done = put(state, t, Value::Table(key), Value::False);
    made(Value::Table(t), done)
}

fn leaves(alloc: Global, state: &mut State) -> Option<Value>
    requires { IsClosed state.old }
    ensures { IsClosed state.new }
{
    let t = table(alloc, state)?;
    let Ok(text) = state.intern(b"") else {
        return None;
    };
    let done = put(state, t, Value::Int(i64::MAX), text)
        && put(state, t, text, Value::True)
        && put(state, t, Value::False, Value::Linda(9));
    made(Value::Table(t), done)
}

fn lane_handle(alloc: Global, state: &mut State) -> Option<Value>
    requires { IsClosed state.old }
    ensures { IsClosed state.new }
{
    let t = table(alloc, state)?;
    let meta = table(alloc, state)?;
    let done = set_meta(state, t, meta) && put(state, t, Value::Int(1), Value::Lane(5));
    made(Value::Table(t), done)
}

fn value_of(alloc: Global, state: &mut State, case: Case) -> Option<Value>
    requires { IsClosed state.old }
    ensures { IsClosed state.new }
{
    match case {
        Case::Circle => circle(alloc, state),
        Case::Class => class(alloc, state),
        Case::SharedCell => shared_cell(alloc, state),
        Case::Diamond => diamond(alloc, state),
        Case::TableAsKey => table_as_key(alloc, state),
        Case::Leaves => leaves(alloc, state),
        Case::LaneHandle => lane_handle(alloc, state),
    }
}

/// Whether the value is packed as is wanted of the case.
fn is_packed(alloc: Global, state: &State, marks: &mut Marks, root: Value, case: Case) -> bool
    requires { IsClosed state.now }
{
    match pack(alloc, state, marks, &[root, root]) {
        Ok(parcel) => is_right(&parcel, case),
        Err(fault) => is_refused_so(fault, case),
    }
}

/// And whether so many marks are known afterwards as are wanted.
fn is_marked(alloc: Global, state: &State, root: Value, case: Case) -> bool
    requires { IsClosed state.now }
{
    let mut marks = Marks::new(alloc, 0);
    is_packed(alloc, state, &mut marks, root, case) && marks.count() == marks_wanted(case)
}

fn packs_in(alloc: Global, state: &mut State, case: Case) -> bool
    requires { IsClosed state.old }
{
    match value_of(alloc, state, case) {
        Some(root) => is_marked(alloc, state, root, case),
        None => false,
    }
}

/// Whether packing does what is wanted of the case.
pub fn packs_so(alloc: Global, case: Case) -> bool {
    match State::new(alloc, 0) {
        Ok(mut state) => packs_in(alloc, &mut state, case),
        Err(_) => false,
    }
}
