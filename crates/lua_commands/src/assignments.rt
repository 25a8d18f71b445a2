//! Assignment (Lua 5.4 manual, section 3.3.3): the objects and the keys of the targets, the values,
//! then the stores in order.
ghost use Rattle.std.specs.Prelude.{◌≤◌, ◌+◌, ◌*◌, length, drop};
ghost use Rattle.lua_meaning.specs.Levels.{level};
ghost use Rattle.lua_meaning.specs.Expressions.{key_at};
ghost use Rattle.lua_meaning.specs.Statements.{Local, assigned, global_target, name_target, stores};
ghost use Rattle.lua_machine.specs.Piled.{cut};
ghost use Rattle.lua_machine.specs.Does.{Fits, Stands, frame, world};
ghost use Rattle.lua_machine.specs.Moved.{LocalsOf};
ghost use Rattle.lua_commands.specs.Assigned.{assigned_field, assigned_one, stored, stored_in};
ghost use Rattle.lua_commands.specs.Targets.{targets_of};

use crate::stores::{set_field, store};
use crate::targets::push_targets;
use lua_lists::exactly;
use lua_machine::{Below, Done, FlowTag, Got, Host, Loaded, Machine, Window};
use lua_meaning::Site;
use lua_program::{RExpr, RExprKind, RStat, Ref};
use lua_statements::value_at;
use object_store::Value;

/// The values from one place of the stack on come into the targets from another on, and all are
/// dropped.
fn store_all<H, E, M, C, S>(
    b: &Below<H, E, M, C, S>,
    m: &mut Machine<H>,
    p: &Loaded,
    f: &Window,
    ts: &[RExpr],
    at: usize,
    from: usize,
) -> Done
where
    H: Host,
    E: Fn(&mut Machine<H>, &Loaded, &Window, &RExpr, u32) -> Done + Copy,
    M: Fn(&mut Machine<H>, &Loaded, &Window, &RExpr, u32) -> Got + Copy,
    C: Fn(&mut Machine<H>, &Loaded, Site, usize, u32) -> Got + Copy,
    S: Fn(&mut Machine<H>, &Loaded, &Window, &RStat, u32) -> FlowTag + Copy,
    requires stands { Stands H.asked p.now b.now.level (E.pre b.now.expr) (E.post b.now.expr)
        (M.pre b.now.multi) (M.post b.now.multi) (C.pre b.now.call) (C.post b.now.call)
        (S.pre b.now.stmt) (S.post b.now.stmt) }
    requires fits { Fits f.now m.old.stack }
    requires above { f.now.base + f.now.size ≤ at }
    requires targets { at + 2 * length ts.now ≤ from }
    requires within { from ≤ length m.old.stack.values }
    ensures { LocalsOf H.asked (stores p.now (level p.now b.now.level) (targets_of ts.now (drop at
        m.old.stack.values)) (drop from m.old.stack.values) (frame f.now m.old.stack) (world
        m.old)) (record m.old { stack = cut at m.old.stack }) f.now result m.new }
{
    for (i, t) in ts.iter().enumerate() {
        let object = value_at(m, at, 2 * i);
        let key = value_at(m, at, 2 * i + 1);
        m.value = value_at(m, from, i);
        match store(b, m, p, f, t, object, key) {
            Done::Well => {}
            Done::Failed => return Done::Failed,
        }
    }
    m.stack.cut(at);
    Done::Well
}

/// Any numbers of expressions and targets.
#[inline(never)]
fn assign_all<H, E, M, C, S>(
    b: &Below<H, E, M, C, S>,
    m: &mut Machine<H>,
    p: &Loaded,
    f: &Window,
    ts: &[RExpr],
    es: &[RExpr],
) -> Done
where
    H: Host,
    E: Fn(&mut Machine<H>, &Loaded, &Window, &RExpr, u32) -> Done + Copy,
    M: Fn(&mut Machine<H>, &Loaded, &Window, &RExpr, u32) -> Got + Copy,
    C: Fn(&mut Machine<H>, &Loaded, Site, usize, u32) -> Got + Copy,
    S: Fn(&mut Machine<H>, &Loaded, &Window, &RStat, u32) -> FlowTag + Copy,
    requires stands { Stands H.asked p.now b.now.level (E.pre b.now.expr) (E.post b.now.expr)
        (M.pre b.now.multi) (M.post b.now.multi) (C.pre b.now.call) (C.post b.now.call)
        (S.pre b.now.stmt) (S.post b.now.stmt) }
    requires fits { Fits f.now m.old.stack }
    ensures { LocalsOf H.asked (assigned p.now (level p.now b.now.level) ts.now es.now (frame f.now
        m.old.stack) (world m.old)) m.old f.now result m.new }
{
    let at = m.stack.len();
    well!(push_targets(b, m, p, f, ts));
    let from = m.stack.len();
    well!(exactly(b, m, p, f, es, ts.len()));
    store_all(b, m, p, f, ts, at, from)
}

/// A global, of the key of this place, has the value of an expression.
#[inline]
fn assign_global<H, E, M, C, S>(
    b: &Below<H, E, M, C, S>,
    m: &mut Machine<H>,
    p: &Loaded,
    f: &Window,
    line: u32,
    place: u32,
    e: &RExpr,
) -> Done
where
    H: Host,
    E: Fn(&mut Machine<H>, &Loaded, &Window, &RExpr, u32) -> Done + Copy,
    M: Fn(&mut Machine<H>, &Loaded, &Window, &RExpr, u32) -> Got + Copy,
    C: Fn(&mut Machine<H>, &Loaded, Site, usize, u32) -> Got + Copy,
    S: Fn(&mut Machine<H>, &Loaded, &Window, &RStat, u32) -> FlowTag + Copy,
    requires stands { Stands H.asked p.now b.now.level (E.pre b.now.expr) (E.post b.now.expr)
        (M.pre b.now.multi) (M.post b.now.multi) (C.pre b.now.call) (C.post b.now.call)
        (S.pre b.now.stmt) (S.post b.now.stmt) }
    requires fits { Fits f.now m.old.stack }
    ensures { LocalsOf H.asked (λ k. stored_in p.now (level p.now b.now.level) (frame f.now
        m.old.stack) e.now k (global_target line (key_at p.now place)) (world m.old)) m.old f.now
        result m.new }
{
    let Some(key) = p.key(place) else {
        m.broken();
        return Done::Failed;
    };
    let globals = Value::Table(m.state.globals());
    well!(b.one(m, p, f, e));
    set_field(b, m, p, f, line, globals, key)
}

/// A local or an upvalue has the value of an expression.
#[inline(always)]
fn assign_local<H, E, M, C, S>(
    b: &Below<H, E, M, C, S>,
    m: &mut Machine<H>,
    p: &Loaded,
    f: &Window,
    r: &Ref,
    e: &RExpr,
) -> Done
where
    H: Host,
    E: Fn(&mut Machine<H>, &Loaded, &Window, &RExpr, u32) -> Done + Copy,
    M: Fn(&mut Machine<H>, &Loaded, &Window, &RExpr, u32) -> Got + Copy,
    C: Fn(&mut Machine<H>, &Loaded, Site, usize, u32) -> Got + Copy,
    S: Fn(&mut Machine<H>, &Loaded, &Window, &RStat, u32) -> FlowTag + Copy,
    requires stands { Stands H.asked p.now b.now.level (E.pre b.now.expr) (E.post b.now.expr)
        (M.pre b.now.multi) (M.post b.now.multi) (C.pre b.now.call) (C.post b.now.call)
        (S.pre b.now.stmt) (S.post b.now.stmt) }
    requires fits { Fits f.now m.old.stack }
    ensures { LocalsOf H.asked (stored p.now (level p.now b.now.level) (frame f.now m.old.stack)
        e.now (Local r.now) (world m.old)) m.old f.now result m.new }
{
    well!(b.one(m, p, f, e));
    m.assign(f, r)
}

/// A name has the value of an expression.
#[inline(always)]
fn assign_name<H, E, M, C, S>(
    b: &Below<H, E, M, C, S>,
    m: &mut Machine<H>,
    p: &Loaded,
    f: &Window,
    line: u32,
    r: &Ref,
    e: &RExpr,
) -> Done
where
    H: Host,
    E: Fn(&mut Machine<H>, &Loaded, &Window, &RExpr, u32) -> Done + Copy,
    M: Fn(&mut Machine<H>, &Loaded, &Window, &RExpr, u32) -> Got + Copy,
    C: Fn(&mut Machine<H>, &Loaded, Site, usize, u32) -> Got + Copy,
    S: Fn(&mut Machine<H>, &Loaded, &Window, &RStat, u32) -> FlowTag + Copy,
    requires stands { Stands H.asked p.now b.now.level (E.pre b.now.expr) (E.post b.now.expr)
        (M.pre b.now.multi) (M.post b.now.multi) (C.pre b.now.call) (C.post b.now.call)
        (S.pre b.now.stmt) (S.post b.now.stmt) }
    requires fits { Fits f.now m.old.stack }
    ensures { LocalsOf H.asked (λ k. stored_in p.now (level p.now b.now.level) (frame f.now
        m.old.stack) e.now k (name_target p.now line r.now) (world m.old)) m.old f.now result
        m.new }
{
    match r {
        Ref::Slot(_) => assign_local(b, m, p, f, r, e),
        Ref::CellSlot(_) => assign_local(b, m, p, f, r, e),
        Ref::Up(_) => assign_local(b, m, p, f, r, e),
        Ref::Global(text) => assign_global(b, m, p, f, line, text.get().place, e),
    }
}

/// `object[key]` has the value of an expression.
#[inline]
fn assign_field<H, E, M, C, S>(
    b: &Below<H, E, M, C, S>,
    m: &mut Machine<H>,
    p: &Loaded,
    f: &Window,
    line: u32,
    object: &RExpr,
    key: &RExpr,
    e: &RExpr,
) -> Done
where
    H: Host,
    E: Fn(&mut Machine<H>, &Loaded, &Window, &RExpr, u32) -> Done + Copy,
    M: Fn(&mut Machine<H>, &Loaded, &Window, &RExpr, u32) -> Got + Copy,
    C: Fn(&mut Machine<H>, &Loaded, Site, usize, u32) -> Got + Copy,
    S: Fn(&mut Machine<H>, &Loaded, &Window, &RStat, u32) -> FlowTag + Copy,
    requires stands { Stands H.asked p.now b.now.level (E.pre b.now.expr) (E.post b.now.expr)
        (M.pre b.now.multi) (M.post b.now.multi) (C.pre b.now.call) (C.post b.now.call)
        (S.pre b.now.stmt) (S.post b.now.stmt) }
    requires fits { Fits f.now m.old.stack }
    ensures { LocalsOf H.asked (assigned_field p.now (level p.now b.now.level) (frame f.now
        m.old.stack) line object.now key.now e.now (world m.old)) m.old f.now result m.new }
{
    well!(b.one(m, p, f, object));
    let object = m.value;
    well!(b.one(m, p, f, key));
    let key = m.value;
    well!(b.one(m, p, f, e));
    set_field(b, m, p, f, line, object, key)
}

/// One target has the value of one expression. What is neither a name nor an index is no target;
/// then the fault is `Broken`.
#[inline(always)]
fn assign_one<H, E, M, C, S>(
    b: &Below<H, E, M, C, S>,
    m: &mut Machine<H>,
    p: &Loaded,
    f: &Window,
    t: &RExpr,
    e: &RExpr,
) -> Done
where
    H: Host,
    E: Fn(&mut Machine<H>, &Loaded, &Window, &RExpr, u32) -> Done + Copy,
    M: Fn(&mut Machine<H>, &Loaded, &Window, &RExpr, u32) -> Got + Copy,
    C: Fn(&mut Machine<H>, &Loaded, Site, usize, u32) -> Got + Copy,
    S: Fn(&mut Machine<H>, &Loaded, &Window, &RStat, u32) -> FlowTag + Copy,
    requires stands { Stands H.asked p.now b.now.level (E.pre b.now.expr) (E.post b.now.expr)
        (M.pre b.now.multi) (M.post b.now.multi) (C.pre b.now.call) (C.post b.now.call)
        (S.pre b.now.stmt) (S.post b.now.stmt) }
    requires fits { Fits f.now m.old.stack }
    ensures { LocalsOf H.asked (assigned_one p.now (level p.now b.now.level) (frame f.now
        m.old.stack) t.now e.now (world m.old)) m.old f.now result m.new }
{
    match &t.what {
        RExprKind::Name(r, _) => assign_name(b, m, p, f, t.line, r, e),
        RExprKind::Index(two) => {
            assign_field(b, m, p, f, t.line, &two.get().left, &two.get().right, e)
        }
        _ => {
            m.broken();
            Done::Failed
        }
    }
}

/// The values of expressions come into targets.
#[inline]
pub fn assign<H, E, M, C, S>(
    b: &Below<H, E, M, C, S>,
    m: &mut Machine<H>,
    p: &Loaded,
    f: &Window,
    ts: &[RExpr],
    es: &[RExpr],
) -> Done
where
    H: Host,
    E: Fn(&mut Machine<H>, &Loaded, &Window, &RExpr, u32) -> Done + Copy,
    M: Fn(&mut Machine<H>, &Loaded, &Window, &RExpr, u32) -> Got + Copy,
    C: Fn(&mut Machine<H>, &Loaded, Site, usize, u32) -> Got + Copy,
    S: Fn(&mut Machine<H>, &Loaded, &Window, &RStat, u32) -> FlowTag + Copy,
    requires stands { Stands H.asked p.now b.now.level (E.pre b.now.expr) (E.post b.now.expr)
        (M.pre b.now.multi) (M.post b.now.multi) (C.pre b.now.call) (C.post b.now.call)
        (S.pre b.now.stmt) (S.post b.now.stmt) }
    requires fits { Fits f.now m.old.stack }
    ensures { LocalsOf H.asked (assigned p.now (level p.now b.now.level) ts.now es.now (frame f.now
        m.old.stack) (world m.old)) m.old f.now result m.new }
{
    if ts.len() == 1 && es.len() == 1 {
        return assign_one(b, m, p, f, &ts[0], &es[0]);
    }
    assign_all(b, m, p, f, ts, es)
}
