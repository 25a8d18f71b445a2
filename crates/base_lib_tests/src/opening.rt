//! What the globals have once the libraries are open.
use base_lib::{BASE, MATH, library_name, open_libs};
use object_store::{LuaFault, State, TableId, Value};
use std::alloc::Global;
use std::test::Fail;

/// The names that base adds to the globals, in their order.
const BASE_NAMES: &[&str] = &[
    "_G",
    "_VERSION",
    "assert",
    "error",
    "getmetatable",
    "ipairs",
    "next",
    "pairs",
    "pcall",
    "print",
    "rawequal",
    "rawget",
    "rawlen",
    "rawset",
    "require",
    "select",
    "setmetatable",
    "tonumber",
    "tostring",
    "type",
    "xpcall",
];

/// The names of math in their order.
const MATH_NAMES: &[&str] = &[
    "abs",
    "floor",
    "max",
    "maxinteger",
    "min",
    "mininteger",
    "tointeger",
    "type",
    "ult",
];

/// The key after this one, where the names of the table go on so, and under each a function of that
/// name, or a value that is none.
fn after_names(state: &State, id: TableId, from: Value, names: &[&str]) -> Option<Value> {
    let table = state.table_of(id)?;
    let mut key = from;
    for name in names {
        let Ok(Some((next, value))) = table.next(key) else {
            return None;
        };
        if state.find(name.as_bytes()) != Some(next) {
            return None;
        }
        if let Value::Lib(function) = value
            && library_name(function) != *name
        {
            return None;
        }
        key = next;
    }
    Some(key)
}

/// Whether the table has no pair after this key.
fn ends_at(state: &State, id: TableId, key: Value) -> bool {
    match state.table_of(id) {
        Some(table) => matches!(table.next(key), Ok(None)),
        None => false,
    }
}

/// The value of a field.
fn field(state: &State, id: TableId, name: &str) -> Value {
    match (state.table_of(id), state.find(name.as_bytes())) {
        (Some(table), Some(key)) => table.get(key),
        _ => Value::Nil,
    }
}

/// The last of base's names among the globals where base is open, else nil.
fn after_base(state: &State, globals: TableId, base: bool) -> Option<Value> {
    if base {
        return after_names(state, globals, Value::Nil, BASE_NAMES);
    }
    Some(Value::Nil)
}

/// The name after `cancel_test` where math is open, else that name.
fn after_math(state: &State, globals: TableId, key: Value, math: bool) -> Option<Value> {
    let key = after_names(state, globals, key, CANCEL_TEST)?;
    if math {
        return after_names(state, globals, key, MATH_TABLE);
    }
    Some(key)
}

/// Whether the globals have the names of base, `cancel_test` and math, each where its library is
/// open, and no other.
fn has_globals(state: &State, base: bool, math: bool) -> bool {
    let globals = state.globals();
    let Some(key) = after_base(state, globals, base) else {
        return false;
    };
    match after_math(state, globals, key, math) {
        Some(last) => ends_at(state, globals, last),
        None => false,
    }
}

/// Whether base's fields that are no functions are as they should be.
fn has_base_values(state: &mut State) -> Result<bool, LuaFault> {
    let version = state.intern(b"Lua 5.4")?;
    let globals = state.globals();
    Ok(
        field(state, globals, "_G") == Value::Table(globals)
            && field(state, globals, "_VERSION") == version,
    )
}

/// Whether math is as it should be.
fn has_math(state: &State) -> bool {
    let Value::Table(math) = field(state, state.globals(), "math") else {
        return false;
    };
    let Some(last) = after_names(state, math, Value::Nil, MATH_NAMES) else {
        return false;
    };
    math.number() == 1
        && ends_at(state, math, last)
        && field(state, math, "maxinteger") == Value::Int(i64::MAX)
        && field(state, math, "mininteger") == Value::Int(i64::MIN)
}

const CANCEL_TEST: &[&str] = &["cancel_test"];

const MATH_TABLE: &[&str] = &["math"];

/// Some bits, and whether base and math are open then.
const OPENINGS: &[(u8, bool, bool)] = &[
    (0, false, false),
    (BASE, true, false),
    (MATH, false, true),
    (BASE + MATH, true, true),
    (64, false, false),
    (128 + BASE, true, false),
    (255, true, true),
];

/// Whether base's fields are as they should be, where base is open.
fn base_is_right(state: &mut State, base: bool) -> Result<bool, LuaFault> {
    if base {
        return has_base_values(state);
    }
    Ok(true)
}

/// Whether a new state is as it should be once the libraries of these bits are open.
fn opens_so(alloc: Global, opening: (u8, bool, bool)) -> Result<bool, LuaFault> {
    let (libs, base, math) = opening;
    let mut state = State::new(alloc, 1)?;
    open_libs(alloc, &mut state, libs)?;
    if !has_globals(&state, base, math) {
        return Ok(false);
    }
    if !base_is_right(&mut state, base)? {
        return Ok(false);
    }
    Ok(!math || has_math(&state))
}

#[test]
fn each_set_of_bits_opens_its_libraries(rt: HostRuntime) -> Result<(), Fail> {
    for opening in OPENINGS {
        assert!(rt; opens_so(rt.alloc(), *opening)?);
    }
    Ok(())
}
