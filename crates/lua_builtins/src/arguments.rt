//! The arguments of a call, which stand on the stack from a place on; their places are counted from
//! 0, their numbers in faults from 1.
ghost use Rattle.std.specs.Prelude.{◌≡◌, ◌<◌, ◌≤◌, length, drop, slice_get};
ghost use Rattle.std.specs.Option.{unwrap_or};
ghost use Rattle.object_store.specs.declared.fault.LuaFault.TheVariants as lua;
ghost use Rattle.lua_machine.specs.Failing.{FailingAt};

use lanes_arena::Bytes;
use lua_machine::{Host, Loaded, Machine};
use object_store::{LuaFault, Value};

/// The argument of this place, where it is there.
#[inline]
pub fn argument<H: Host>(m: &Machine<H>, at: usize, i: usize) -> Option<Value>
    requires { at ≤ length m.now.stack.values }
    ensures { result ≡ slice_get (drop at m.now.stack.values) i }
{
    m.stack.from(at).get(i).copied()
}

/// The argument of this place, nil where it isn't there.
#[inline]
pub fn argument_or_nil<H: Host>(m: &Machine<H>, at: usize, i: usize) -> Value
    requires { at ≤ length m.now.stack.values }
    ensures { result ≡ unwrap_or (slice_get (drop at m.now.stack.values) i) Value.Nil }
{
    match m.stack.from(at).get(i) {
        Some(value) => *value,
        None => Value::Nil,
    }
}

/// Raises that the argument of this number of a function is missing or of another kind than is
/// wanted.
#[cold]
#[inline(never)]
pub fn bad_argument<H: Host>(
    m: &mut Machine<H>,
    p: &Loaded,
    line: u32,
    number: u64,
    name: &'static str,
)
    ensures { FailingAt p.now line (lua.BadArgument number name.now) m.old m.new }
{
    match Bytes::of(m.alloc, name.as_bytes()) {
        Ok(function) => {
            let at = number;
            m.fault_at(p, line, LuaFault::BadArgument { at, function });
        }
        Err(_) => m.lose(),
    }
}
