//! Which value a call calls (Lua 5.4 manual, section 2.4).
ghost use Rattle.std.specs.Prelude.{◌≡◌};
ghost use Rattle.lua_ops.specs.Metamethods as spec;

use crate::handlers::{handler, is_function};
use object_store::{Event, LuaFault, State, Value};

/// None for a function, which is called itself. For another value its handler, which is called in
/// its place with the value before the arguments; where that is no function either, it is asked
/// again. `NotCallable` names the kind of the value that has no handler.
#[tactic(auto, unfolding(crate::specs::Metamethods::callee_step))]
#[inline]
pub fn callee(state: &State, f: Value) -> Result<Option<Value>, LuaFault>
    ensures { result ≡ spec.callee_step state.now.heap f }
{
    if is_function(f) {
        Ok(None)
    } else {
        called_handler(state, f)
    }
}

/// The handler of a value that is no function.
#[inline(never)]
fn called_handler(state: &State, f: Value) -> Result<Option<Value>, LuaFault>
    ensures { result ≡ spec.called_handler f (spec.handler state.now.heap Event.Call f) }
{
    let handler = handler(state, Event::Call, f);
    if handler.is_nil() {
        Err(LuaFault::NotCallable(f.kind()))
    } else {
        Ok(Some(handler))
    }
}
