//! Calls of values of any kind (Lua 5.4 manual, sections 2.4 and 3.4.10).
ghost use Rattle.std.specs.Prelude.{◌≡◌, ◌≤◌, length, drop};
ghost use Rattle.lua_ops.specs.Metamethods.{chain_limit};
ghost use Rattle.lua_meaning.specs.Levels.{level};
ghost use Rattle.lua_meaning.specs.Calls.{by_handler, call_on, callee_of, function_call};
ghost use Rattle.lua_machine.specs.Does.{Stands, ManyOf, world};

use crate::bodies::run_function;
use crate::callees::callee;
use lua_builtins::library_call;
use lua_lists::limited;
use lua_machine::{Below, Done, FlowTag, Got, Host, Loaded, Machine, Window};
use lua_meaning::Site;
use lua_program::{RExpr, RStat};
use object_store::Value;

/// A call of a function, with the arguments from a place of the stack on.
#[inline]
fn call_function<H, E, M, C, S>(
    b: &Below<H, E, M, C, S>,
    m: &mut Machine<H>,
    p: &Loaded,
    site: Site,
    function: Value,
    at: usize,
) -> Got
where
    H: Host,
    E: Fn(&mut Machine<H>, &Loaded, &Window, &RExpr, u32) -> Done + Copy,
    M: Fn(&mut Machine<H>, &Loaded, &Window, &RExpr, u32) -> Got + Copy,
    C: Fn(&mut Machine<H>, &Loaded, Site, usize, u32) -> Got + Copy,
    S: Fn(&mut Machine<H>, &Loaded, &Window, &RStat, u32) -> FlowTag + Copy,
    requires stands { Stands H.asked p.now b.now.level (E.pre b.now.expr) (E.post b.now.expr)
        (M.pre b.now.multi) (M.post b.now.multi) (C.pre b.now.call) (C.post b.now.call)
        (S.pre b.now.stmt) (S.post b.now.stmt) }
    requires within { at ≤ length m.old.stack.values }
    ensures { ManyOf H.asked (function_call p.now (level p.now b.now.level) site function (drop at
        m.old.stack.values) (world m.old)) m.old at result m.new }
{
    match function {
        Value::Func(id) => run_function(b, m, p, site, id, at),
        Value::Lib(id) => library_call(b, m, p, site, id, at),
        _ => {
            m.broken();
            Got::Failed
        }
    }
}

/// A call of a value that is no function, by its handler.
#[cold]
#[inline(never)]
fn call_handler<H, E, M, C, S>(
    b: &Below<H, E, M, C, S>,
    m: &mut Machine<H>,
    p: &Loaded,
    site: Site,
    at: usize,
) -> Got
where
    H: Host,
    E: Fn(&mut Machine<H>, &Loaded, &Window, &RExpr, u32) -> Done + Copy,
    M: Fn(&mut Machine<H>, &Loaded, &Window, &RExpr, u32) -> Got + Copy,
    C: Fn(&mut Machine<H>, &Loaded, Site, usize, u32) -> Got + Copy,
    S: Fn(&mut Machine<H>, &Loaded, &Window, &RStat, u32) -> FlowTag + Copy,
    requires stands { Stands H.asked p.now b.now.level (E.pre b.now.expr) (E.post b.now.expr)
        (M.pre b.now.multi) (M.post b.now.multi) (C.pre b.now.call) (C.post b.now.call)
        (S.pre b.now.stmt) (S.post b.now.stmt) }
    requires within { at ≤ length m.old.stack.values }
    ensures { ManyOf H.asked (by_handler p.now (level p.now b.now.level) site (callee_of
        m.old.state.heap chain_limit m.old.value (drop at m.old.stack.values)) (world m.old)) m.old
        at result m.new }
{
    match callee(m, p, site, at) {
        Done::Well => {}
        Done::Failed => return Got::Failed,
    }
    let function = m.value;
    match limited(m, p, site.line, at) {
        Done::Well => call_function(b, m, p, site, function, at),
        Done::Failed => Got::Failed,
    }
}

/// A call of the value in `value`, with the arguments from a place of the stack on.
#[inline]
pub fn call_on<H, E, M, C, S>(
    b: &Below<H, E, M, C, S>,
    m: &mut Machine<H>,
    p: &Loaded,
    site: Site,
    at: usize,
) -> Got
where
    H: Host,
    E: Fn(&mut Machine<H>, &Loaded, &Window, &RExpr, u32) -> Done + Copy,
    M: Fn(&mut Machine<H>, &Loaded, &Window, &RExpr, u32) -> Got + Copy,
    C: Fn(&mut Machine<H>, &Loaded, Site, usize, u32) -> Got + Copy,
    S: Fn(&mut Machine<H>, &Loaded, &Window, &RStat, u32) -> FlowTag + Copy,
    requires stands { Stands H.asked p.now b.now.level (E.pre b.now.expr) (E.post b.now.expr)
        (M.pre b.now.multi) (M.post b.now.multi) (C.pre b.now.call) (C.post b.now.call)
        (S.pre b.now.stmt) (S.post b.now.stmt) }
    requires within { at ≤ length m.old.stack.values }
    ensures { ManyOf H.asked (call_on p.now (level p.now b.now.level) site m.old.value (drop at
        m.old.stack.values) (world m.old)) m.old at result m.new }
{
    match m.value {
        Value::Func(id) => run_function(b, m, p, site, id, at),
        Value::Lib(id) => library_call(b, m, p, site, id, at),
        _ => call_handler(b, m, p, site, at),
    }
}
