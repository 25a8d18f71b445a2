//! Lists whose last expression gives all its values.
ghost use Rattle.std.specs.Prelude.{◌+◌, ◌≤◌, length, drop};
ghost use Rattle.lua_meaning.specs.Levels.{level};
ghost use Rattle.lua_meaning.specs.Expressions as spec;
ghost use Rattle.lua_machine.specs.Does.{Above, Fits, LeadsTo, OnWell, PushedOf, Stands, frame, pushed, world};
ghost use Rattle.lua_lists.specs.Ones as parts;

use lua_machine::{Below, Done, FlowTag, Got, Host, Loaded, Machine, Window};
use lua_meaning::Site;
use lua_program::{RExpr, RStat};

/// One value of each expression, onto the stack.
#[inline]
pub(crate) fn ones<H, E, M, C, S>(
    b: &Below<H, E, M, C, S>,
    m: &mut Machine<H>,
    p: &Loaded,
    f: &Window,
    es: &[RExpr],
    at: usize,
) -> Done
where
    H: Host,
    E: Fn(&mut Machine<H>, &Loaded, &Window, &RExpr, u32) -> Done + Copy,
    M: Fn(&mut Machine<H>, &Loaded, &Window, &RExpr, u32) -> Got + Copy,
    C: Fn(&mut Machine<H>, &Loaded, Site, usize, u32) -> Got + Copy,
    S: Fn(&mut Machine<H>, &Loaded, &Window, &RStat, u32) -> FlowTag + Copy,
    requires stands { Stands H.asked p.now b.now.level (E.pre b.now.expr) (E.post b.now.expr)
        (M.pre b.now.multi) (M.post b.now.multi) (C.pre b.now.call) (C.post b.now.call)
        (S.pre b.now.stmt) (S.post b.now.stmt) }
    requires fits { Fits f.now m.old.stack }
    requires within { at ≤ length m.old.stack.values }
    ensures leads { LeadsTo H.asked m.old (parts.ones (level p.now b.now.level) (drop at
        m.old.stack.values) es.now (frame f.now m.old.stack) (world m.old)) m.new (pushed result at
        m.new) }
    ensures stack { OnWell result (Above (length m.old.stack.values) m.old.stack m.new.stack) }
{
    for e in es {
        well!(b.one(m, p, f, e));
        well!(m.push());
    }
    Done::Well
}

/// All values of an expression, onto the stack.
#[inline]
pub fn all_values<H, E, M, C, S>(
    b: &Below<H, E, M, C, S>,
    m: &mut Machine<H>,
    p: &Loaded,
    f: &Window,
    e: &RExpr,
) -> Done
where
    H: Host,
    E: Fn(&mut Machine<H>, &Loaded, &Window, &RExpr, u32) -> Done + Copy,
    M: Fn(&mut Machine<H>, &Loaded, &Window, &RExpr, u32) -> Got + Copy,
    C: Fn(&mut Machine<H>, &Loaded, Site, usize, u32) -> Got + Copy,
    S: Fn(&mut Machine<H>, &Loaded, &Window, &RStat, u32) -> FlowTag + Copy,
    requires stands { Stands H.asked p.now b.now.level (E.pre b.now.expr) (E.post b.now.expr)
        (M.pre b.now.multi) (M.post b.now.multi) (C.pre b.now.call) (C.post b.now.call)
        (S.pre b.now.stmt) (S.post b.now.stmt) }
    requires fits { Fits f.now m.old.stack }
    ensures { PushedOf H.asked ((level p.now b.now.level).multi e.now (frame f.now m.old.stack)
        (world m.old)) m.old (length m.old.stack.values) result m.new }
{
    match b.many(m, p, f, e) {
        Got::One => m.push(),
        Got::Many => Done::Well,
        Got::Failed => Done::Failed,
    }
}

/// The values of a list of expressions, onto the stack, behind those that stand there from `at` on.
/// The last expression gives all its values.
#[inline]
pub fn list<H, E, M, C, S>(
    b: &Below<H, E, M, C, S>,
    m: &mut Machine<H>,
    p: &Loaded,
    f: &Window,
    es: &[RExpr],
    at: usize,
) -> Done
where
    H: Host,
    E: Fn(&mut Machine<H>, &Loaded, &Window, &RExpr, u32) -> Done + Copy,
    M: Fn(&mut Machine<H>, &Loaded, &Window, &RExpr, u32) -> Got + Copy,
    C: Fn(&mut Machine<H>, &Loaded, Site, usize, u32) -> Got + Copy,
    S: Fn(&mut Machine<H>, &Loaded, &Window, &RStat, u32) -> FlowTag + Copy,
    requires stands { Stands H.asked p.now b.now.level (E.pre b.now.expr) (E.post b.now.expr)
        (M.pre b.now.multi) (M.post b.now.multi) (C.pre b.now.call) (C.post b.now.call)
        (S.pre b.now.stmt) (S.post b.now.stmt) }
    requires fits { Fits f.now m.old.stack }
    requires above { f.now.base + f.now.size ≤ at }
    requires within { at ≤ length m.old.stack.values }
    ensures { PushedOf H.asked (spec.list (level p.now b.now.level) (drop at m.old.stack.values)
        es.now (frame f.now m.old.stack) (world m.old)) m.old at result m.new }
{
    match es.split_last() {
        None => Done::Well,
        Some((last, front)) => {
            well!(ones(b, m, p, f, front, at));
            all_values(b, m, p, f, last)
        }
    }
}
