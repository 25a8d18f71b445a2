//! Operators of two operands.
ghost use Rattle.std.specs.Prelude.{◌≡◌, ◌≤◌, ◌-◌, [], ◌∷◌, length, Ok};
ghost use Rattle.lua_meaning.specs.Levels.{level};
ghost use Rattle.lua_meaning.specs.Operate as spec;
ghost use Rattle.lua_machine.specs.Does.{Fits, Stands, OneOf, world};
ghost use Rattle.object_store.specs.Value.{value_of_bool};

use crate::handlers::{finish, handled};
use lua_machine::{Below, Done, FlowTag, Got, Host, Loaded, Machine, Window};
use lua_meaning::Site;
use lua_ops::{ArithOp, CompareOp, Step};
use lua_program::{RExpr, RStat};
use object_store::{LuaFault, Value};

/// An operator of arithmetic or bits, of a first operand and the one in `value`.
#[inline]
pub fn arith<H, E, M, C, S>(
    b: &Below<H, E, M, C, S>,
    m: &mut Machine<H>,
    p: &Loaded,
    line: u32,
    from: Site,
    op: ArithOp,
    x: Value,
) -> Done
where
    H: Host,
    E: Fn(&mut Machine<H>, &Loaded, &Window, &RExpr, u32) -> Done + Copy,
    M: Fn(&mut Machine<H>, &Loaded, &Window, &RExpr, u32) -> Got + Copy,
    C: Fn(&mut Machine<H>, &Loaded, Site, usize, u32) -> Got + Copy,
    S: Fn(&mut Machine<H>, &Loaded, &Window, &RStat, u32) -> FlowTag + Copy,
    requires stands { Stands H.asked p.now b.now.level (E.pre b.now.expr) (E.post b.now.expr)
        (M.pre b.now.multi) (M.post b.now.multi) (C.pre b.now.call) (C.post b.now.call)
        (S.pre b.now.stmt) (S.post b.now.stmt) }
    ensures { OneOf H.asked (spec.arith p.now (level p.now b.now.level) line from op x m.old.value
        (world m.old)) m.old result m.new }
{
    let step = lua_ops::arith(&m.state, op, x, m.value);
    finish(b, m, p, line, from, step)
}

/// A comparison of a first operand and the one in `value`.
#[inline]
pub fn compare<H, E, M, C, S>(
    b: &Below<H, E, M, C, S>,
    m: &mut Machine<H>,
    p: &Loaded,
    line: u32,
    from: Site,
    op: CompareOp,
    x: Value,
) -> Done
where
    H: Host,
    E: Fn(&mut Machine<H>, &Loaded, &Window, &RExpr, u32) -> Done + Copy,
    M: Fn(&mut Machine<H>, &Loaded, &Window, &RExpr, u32) -> Got + Copy,
    C: Fn(&mut Machine<H>, &Loaded, Site, usize, u32) -> Got + Copy,
    S: Fn(&mut Machine<H>, &Loaded, &Window, &RStat, u32) -> FlowTag + Copy,
    requires stands { Stands H.asked p.now b.now.level (E.pre b.now.expr) (E.post b.now.expr)
        (M.pre b.now.multi) (M.post b.now.multi) (C.pre b.now.call) (C.post b.now.call)
        (S.pre b.now.stmt) (S.post b.now.stmt) }
    ensures { OneOf H.asked (spec.compare p.now (level p.now b.now.level) line from op x m.old.value
        (world m.old)) m.old result m.new }
{
    match lua_ops::compare(&m.state, op, x, m.value) {
        Ok(step) => compare_step(b, m, p, line, from, op, step),
        Err(fault) => {
            m.fault_at(p, line, fault);
            Done::Failed
        }
    }
}

/// The value of a comparison, or that of its handler as a boolean.
#[inline]
fn compare_step<H, E, M, C, S>(
    b: &Below<H, E, M, C, S>,
    m: &mut Machine<H>,
    p: &Loaded,
    line: u32,
    from: Site,
    op: CompareOp,
    step: Step,
) -> Done
where
    H: Host,
    E: Fn(&mut Machine<H>, &Loaded, &Window, &RExpr, u32) -> Done + Copy,
    M: Fn(&mut Machine<H>, &Loaded, &Window, &RExpr, u32) -> Got + Copy,
    C: Fn(&mut Machine<H>, &Loaded, Site, usize, u32) -> Got + Copy,
    S: Fn(&mut Machine<H>, &Loaded, &Window, &RStat, u32) -> FlowTag + Copy,
    requires stands { Stands H.asked p.now b.now.level (E.pre b.now.expr) (E.post b.now.expr)
        (M.pre b.now.multi) (M.post b.now.multi) (C.pre b.now.call) (C.post b.now.call)
        (S.pre b.now.stmt) (S.post b.now.stmt) }
    ensures { OneOf H.asked (spec.on_compare p.now (level p.now b.now.level) line from op (Ok step)
        (world m.old)) m.old result m.new }
{
    match step {
        Step::Raw(value) => {
            m.value = value;
            Done::Well
        }
        Step::Handler {
            function,
            first,
            second,
        } => decided(b, m, p, line, from, op, function, first, second),
        Step::Handle(_) => {
            m.broken();
            Done::Failed
        }
    }
}

/// The value of a handler as a boolean, negated for `Ne`.
#[cold]
#[inline(never)]
fn decided<H, E, M, C, S>(
    b: &Below<H, E, M, C, S>,
    m: &mut Machine<H>,
    p: &Loaded,
    line: u32,
    from: Site,
    op: CompareOp,
    function: Value,
    first: Value,
    second: Value,
) -> Done
where
    H: Host,
    E: Fn(&mut Machine<H>, &Loaded, &Window, &RExpr, u32) -> Done + Copy,
    M: Fn(&mut Machine<H>, &Loaded, &Window, &RExpr, u32) -> Got + Copy,
    C: Fn(&mut Machine<H>, &Loaded, Site, usize, u32) -> Got + Copy,
    S: Fn(&mut Machine<H>, &Loaded, &Window, &RStat, u32) -> FlowTag + Copy,
    requires stands { Stands H.asked p.now b.now.level (E.pre b.now.expr) (E.post b.now.expr)
        (M.pre b.now.multi) (M.post b.now.multi) (C.pre b.now.call) (C.post b.now.call)
        (S.pre b.now.stmt) (S.post b.now.stmt) }
    ensures { OneOf H.asked (spec.decided_by p.now (level p.now b.now.level) line from op function
        first second (world m.old)) m.old result m.new }
{
    well!(handled(b, m, p, line, from, function, first, second));
    let truth = m.value.is_truthy();
    m.value = Value::from_bool(as_asked(op, truth));
    Done::Well
}

/// The truth of a comparison, which `Ne` negates.
fn as_asked(op: CompareOp, truth: bool) -> bool
    ensures { value_of_bool result ≡ spec.decided op truth }
{
    match op {
        CompareOp::Ne => !truth,
        _ => truth,
    }
}
