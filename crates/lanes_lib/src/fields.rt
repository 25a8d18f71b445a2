//! The fields of linda and lane handles.
ghost use Rattle.std.specs.Prelude.{◌≡◌};
ghost use Rattle.lanes_lib.specs.Face as face;

use lua_ops::text_at;
use object_store::{LibId, State, Value};

/// The number of `send` among the library functions.
pub const SEND: u64 = 53;

/// The number of `receive` among the library functions.
pub const RECEIVE: u64 = 54;

/// The field of a linda of this name.
fn field_named(name: &[u8]) -> Value
    ensures { result ≡ face.field_named name.now }
{
    if name == b"send".as_slice() {
        Value::Lib(LibId { number: SEND })
    } else if name == b"receive".as_slice() {
        Value::Lib(LibId { number: RECEIVE })
    } else {
        Value::Nil
    }
}

/// The field of a handle: of a linda its functions, nil for any other key.
pub fn member(state: &State, object: Value, key: Value) -> Value
    ensures { result ≡ face.member state.now.texts object key }
{
    let Value::Linda(_) = object else {
        return Value::Nil;
    };
    match key {
        Value::Str(id) => field_named(text_at(state, id)),
        _ => Value::Nil,
    }
}
