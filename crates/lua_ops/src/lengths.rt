//! `#a` (Lua 5.4 manual, section 3.4.7).
ghost use Rattle.std.specs.Prelude.{◌≡◌, pos, slice_get};
ghost use Rattle.object_store.specs.Pairs.{border_of};
ghost use Rattle.lua_ops.specs.Metamethods as spec;

use crate::handlers::{handler, text_at};
use crate::step::Step;
use object_store::{Event, LuaFault, State, TableId, Value};

/// The border of a table, 0 where the state has no such table.
#[inline]
fn border_at(state: &State, id: TableId) -> i64
    ensures { result ≡ pos (border_of (spec.pairs_in (slice_get state.now.heap.tables id.number))) }
{
    match state.table_of(id) {
        Some(table) => table.border(),
        None => 0,
    }
}

/// The length of a string in bytes; or the call of the handler, with the value twice; or the
/// border of a table, the least there is. `NotLength` names the kind of another value.
#[tactic(auto, unfolding(crate::specs::Metamethods::len_step))]
pub fn len(state: &State, a: Value) -> Result<Step, LuaFault>
    ensures { result ≡ spec.len_step state.now.texts state.now.heap a }
{
    match a {
        Value::Str(id) => Ok(Step::Raw(Value::Int(text_at(state, id).len() as i64))),
        Value::Table(id) => {
            let function = handler(state, Event::Len, a);
            if function.is_nil() {
                Ok(Step::Raw(Value::Int(border_at(state, id))))
            } else {
                Ok(Step::Handler {
                    function,
                    first: a,
                    second: a,
                })
            }
        }
        _ => Err(LuaFault::NotLength(a.kind())),
    }
}
