//! Which function is called in a value's place (Lua 5.4 manual, section 2.4, `__call`).
ghost use Rattle.std.specs.Prelude.{◌≡◌, ◌≤◌, ◌-◌, length, drop};
ghost use Rattle.lua_ops.specs.Metamethods.{chain_limit};
ghost use Rattle.lua_meaning.specs.Calls.{callee_of};
ghost use Rattle.lua_machine.specs.Does.{world};
ghost use Rattle.lua_calls.specs.Callees.{CalleeOf, Inserted, callee_or_fault};

use lua_machine::{Done, Host, Loaded, Machine};
use lua_meaning::Site;
use lua_ops::CHAIN_LIMIT;
use object_store::LuaFault;

/// Puts the value onto the stack at a place, before the values that stand from there on.
fn insert<H: Host>(m: &mut Machine<H>, at: usize) -> Done
    requires { at ≤ length m.old.stack.values }
    ensures { Inserted m.old at result m.new }
{
    let top = m.stack.len();
    match m.push() {
        Done::Well => {}
        Done::Failed => return Done::Failed,
    }
    match m.stack.again(at, top) {
        Ok(()) => {
            m.stack.lower(at, top);
            Done::Well
        }
        Err(_) => {
            m.stack.cut(top);
            m.lose();
            Done::Failed
        }
    }
}

/// Brings the function that is called in the place of `value` into it, and its arguments onto the
/// stack from a place on: each value that is no function is put before the arguments of its
/// handler. Where there is no handler, or too many one after another, it is a fault of the site's
/// line.
#[cold]
#[inline(never)]
pub fn callee<H: Host>(m: &mut Machine<H>, p: &Loaded, site: Site, at: usize) -> Done
    requires { at ≤ length m.old.stack.values }
    ensures { CalleeOf H.asked (callee_or_fault p.now site.line (callee_of m.old.state.heap
        chain_limit m.old.value (drop at m.old.stack.values)) (world m.old)) m.old at result m.new }
{
    for turn in 0..CHAIN_LIMIT {
        match lua_ops::callee(&m.state, m.value) {
            Ok(next) => match next {
                None => return Done::Well,
                Some(handler) => match insert(m, at) {
                    Done::Well => m.value = handler,
                    Done::Failed => return Done::Failed,
                },
            },
            Err(fault) => {
                m.fault_at(p, site.line, fault);
                return Done::Failed;
            }
        }
    }
    m.fault_at(p, site.line, LuaFault::LongChain);
    Done::Failed
}
