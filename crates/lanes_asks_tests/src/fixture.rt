//! The arguments of a call, as data.
use lanes_arena::Memory;
use object_store::{LibId, State, Value};
use std::alloc::Global;

/// An argument of a call.
#[derive(Clone, Copy)]
pub enum Argument {
    Nil,
    Yes,
    No,
    Int(i64),
    Text(&'static str),
    Lib(u64),
    Linda(u64),
}

pub fn value(state: &mut State, argument: Argument) -> Result<Value, Memory> {
    Ok(match argument {
        Argument::Nil => Value::Nil,
        Argument::Yes => Value::True,
        Argument::No => Value::False,
        Argument::Int(n) => Value::Int(n),
        Argument::Text(text) => return state.intern(text.as_bytes()),
        Argument::Lib(number) => Value::Lib(LibId { number }),
        Argument::Linda(number) => Value::Linda(number),
    })
}

pub fn values(
    alloc: Global,
    state: &mut State,
    arguments: &[Argument],
) -> Result<Vec<Value>, Memory> {
    let mut values = Vec::new(alloc);
    for argument in arguments {
        let value = value(state, *argument)?;
        values.push(value)?;
    }
    Ok(values)
}
