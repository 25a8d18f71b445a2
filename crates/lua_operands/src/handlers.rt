//! Calls of handlers, and the ends of operators.
ghost use Rattle.std.specs.Prelude.{◌≡◌, ◌≤◌, ◌-◌, [], ◌∷◌, length, Ok};
ghost use Rattle.lua_meaning.specs.Levels.{level};
ghost use Rattle.lua_meaning.specs.Operate as spec;
ghost use Rattle.lua_machine.specs.Does.{Fits, Stands, OneOf, world};

use lua_machine::{Below, Done, FlowTag, Got, Host, Loaded, Machine, Window};
use lua_meaning::Site;
use lua_ops::Step;
use lua_program::{RExpr, RStat};
use object_store::{LuaFault, Value};

/// The first value of a call of a handler with two arguments.
#[cold]
#[inline(never)]
pub fn handled<H, E, M, C, S>(
    b: &Below<H, E, M, C, S>,
    m: &mut Machine<H>,
    p: &Loaded,
    line: u32,
    from: Site,
    function: Value,
    first: Value,
    second: Value,
) -> Done
where
    H: Host,
    E: Fn(&mut Machine<H>, &Loaded, &Window, &RExpr, u32) -> Done + Copy,
    M: Fn(&mut Machine<H>, &Loaded, &Window, &RExpr, u32) -> Got + Copy,
    C: Fn(&mut Machine<H>, &Loaded, Site, usize, u32) -> Got + Copy,
    S: Fn(&mut Machine<H>, &Loaded, &Window, &RStat, u32) -> FlowTag + Copy,
    requires stands { Stands H.asked p.now b.now.level (E.pre b.now.expr) (E.post b.now.expr)
        (M.pre b.now.multi) (M.post b.now.multi) (C.pre b.now.call) (C.post b.now.call)
        (S.pre b.now.stmt) (S.post b.now.stmt) }
    ensures { OneOf H.asked (spec.handled p.now (level p.now b.now.level) line from function (first
        ∷ second ∷ []) (world m.old)) m.old result m.new }
{
    let at = m.stack.len();
    m.value = first;
    well!(m.push());
    m.value = second;
    well!(m.push());
    m.value = function;
    match b.invoke(m, p, from, at) {
        Got::One => Done::Well,
        Got::Many => {
            m.take_first(at);
            Done::Well
        }
        Got::Failed => Done::Failed,
    }
}

/// The value of an operator, or the first value of its handler.
#[inline]
pub fn finish_step<H, E, M, C, S>(
    b: &Below<H, E, M, C, S>,
    m: &mut Machine<H>,
    p: &Loaded,
    line: u32,
    from: Site,
    step: Step,
) -> Done
where
    H: Host,
    E: Fn(&mut Machine<H>, &Loaded, &Window, &RExpr, u32) -> Done + Copy,
    M: Fn(&mut Machine<H>, &Loaded, &Window, &RExpr, u32) -> Got + Copy,
    C: Fn(&mut Machine<H>, &Loaded, Site, usize, u32) -> Got + Copy,
    S: Fn(&mut Machine<H>, &Loaded, &Window, &RStat, u32) -> FlowTag + Copy,
    requires stands { Stands H.asked p.now b.now.level (E.pre b.now.expr) (E.post b.now.expr)
        (M.pre b.now.multi) (M.post b.now.multi) (C.pre b.now.call) (C.post b.now.call)
        (S.pre b.now.stmt) (S.post b.now.stmt) }
    ensures { OneOf H.asked (spec.on_step p.now (level p.now b.now.level) line from (Ok step)
        (world m.old)) m.old result m.new }
{
    match step {
        Step::Raw(value) => {
            m.value = value;
            Done::Well
        }
        Step::Handler {
            function,
            first,
            second,
        } => handled(b, m, p, line, from, function, first, second),
        Step::Handle(_) => {
            m.broken();
            Done::Failed
        }
    }
}

/// The end of an operator: its value, or the first value of its handler.
#[inline]
pub fn finish<H, E, M, C, S>(
    b: &Below<H, E, M, C, S>,
    m: &mut Machine<H>,
    p: &Loaded,
    line: u32,
    from: Site,
    step: Result<Step, LuaFault>,
) -> Done
where
    H: Host,
    E: Fn(&mut Machine<H>, &Loaded, &Window, &RExpr, u32) -> Done + Copy,
    M: Fn(&mut Machine<H>, &Loaded, &Window, &RExpr, u32) -> Got + Copy,
    C: Fn(&mut Machine<H>, &Loaded, Site, usize, u32) -> Got + Copy,
    S: Fn(&mut Machine<H>, &Loaded, &Window, &RStat, u32) -> FlowTag + Copy,
    requires stands { Stands H.asked p.now b.now.level (E.pre b.now.expr) (E.post b.now.expr)
        (M.pre b.now.multi) (M.post b.now.multi) (C.pre b.now.call) (C.post b.now.call)
        (S.pre b.now.stmt) (S.post b.now.stmt) }
    ensures { OneOf H.asked (spec.on_step p.now (level p.now b.now.level) line from step (world
        m.old)) m.old result m.new }
{
    match step {
        Ok(step) => finish_step(b, m, p, line, from, step),
        Err(fault) => {
            m.fault_at(p, line, fault);
            Done::Failed
        }
    }
}
