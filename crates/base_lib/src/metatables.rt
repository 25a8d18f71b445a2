//! Metatables.
ghost use Rattle.std.specs.Prelude.{◌≡◌};
ghost use Rattle.base_lib.specs.Base.{meta_value};
ghost use Rattle.base_lib.specs.Given.{Reads};

use crate::arguments::at;
use crate::functions::BaseFn;
use crate::given::Given;
use crate::refusal::Refusal;
use lua_ops::{handler, meta_of};
use object_store::{Event, State, TableId, Value};

/// A metatable as a value.
fn meta_as_value(meta: Option<TableId>) -> Value
    ensures { result ≡ meta_value meta }
{
    match meta {
        Some(id) => Value::Table(id),
        None => Value::Nil,
    }
}

/// `getmetatable`.
pub fn get_metatable(state: &State, args: &[Value]) -> Result<Given, Refusal>
    ensures { Reads state.now BaseFn.GetMetatable args.now result }
{
    let Some(value) = at(args, 0) else {
        return Err(Refusal::BadArgument(1));
    };
    let shown = handler(state, Event::Metatable, value);
    if shown.is_nil() {
        Ok(Given::One(meta_as_value(meta_of(state, value))))
    } else {
        Ok(Given::One(shown))
    }
}
