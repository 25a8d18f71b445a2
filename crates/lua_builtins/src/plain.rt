//! Functions that call nothing back.
ghost use Rattle.std.specs.Prelude.{◌≤◌, length, drop};
ghost use Rattle.base_lib.specs.Base.{base_step};
ghost use Rattle.base_lib.specs.Given.{IsDone, step_of};
ghost use Rattle.lua_meaning.specs.Library as spec;
ghost use Rattle.lua_meaning.specs.Level.{Level};
ghost use Rattle.lua_machine.specs.Does.{ManyOf, world};

use crate::given::give;
use base_lib::{BaseFn, Given};
use lua_machine::{Got, Host, Loaded, Machine, Stack};
use lua_meaning::Site;
use object_store::{LuaFault, State};
use std::alloc::Global;

/// What the function gives for the arguments from a place of the stack on.
fn call(
    alloc: Global,
    state: &mut State,
    stack: &Stack,
    function: BaseFn,
    at: usize,
) -> Result<Given, LuaFault>
    requires { at ≤ length stack.now.values }
    ensures { IsDone state.old (drop at stack.now.values) (step_of state.old function (drop at
        stack.now.values)) result state.new }
{
    base_lib::call(alloc, state, function, stack.from(at))
}

/// A call of a function that calls nothing back.
pub fn plain<H: Host>(
    m: &mut Machine<H>,
    p: &Loaded,
    site: Site,
    function: BaseFn,
    at: usize,
) -> Got
    requires { at ≤ length m.old.stack.values }
    ensures { (l : Level) → ManyOf H.asked (spec.plain p.now l site (base_step m.old.state.texts
        m.old.state.heap function (drop at m.old.stack.values)) (world m.old)) m.old at result
        m.new }
{
    match call(m.alloc, &mut m.state, &m.stack, function, at) {
        Ok(given) => give(m, at, given),
        Err(fault) => {
            m.fault_at(p, site.line, fault);
            Got::Failed
        }
    }
}
