//! The fields of handles.
use crate::fixture::{Argument, value};
use lanes_arena::Memory;
use lanes_lib::{RECEIVE, SEND, member};
use object_store::{State, Value};
use std::alloc::Global;
use std::test::Fail;

/// The number of the library function that is this field, if it is one.
fn field_number(alloc: Global, object: Argument, key: Argument) -> Result<Option<u64>, Memory> {
    let mut state = State::new(alloc, 7)?;
    let object = value(&mut state, object)?;
    let key = value(&mut state, key)?;
    match member(&state, object, key) {
        Value::Lib(id) => Ok(Some(id.number)),
        _ => Ok(None),
    }
}

#[test]
fn lindas_have_functions(rt: HostRuntime) -> Result<(), Fail> {
    let alloc = rt.alloc();
    for (object, key, wanted) in [
        (Argument::Linda(3), Argument::Text("send"), Some(SEND)),
        (Argument::Linda(3), Argument::Text("receive"), Some(RECEIVE)),
        (Argument::Linda(3), Argument::Text("other"), None),
        (Argument::Linda(3), Argument::Int(1), None),
        (Argument::Text("send"), Argument::Text("send"), None),
    ] {
        assert_eq!(rt; field_number(alloc, object, key)?, wanted);
    }
    Ok(())
}
