//! Local declarations (Lua 5.4 manual, section 3.3.7).
ghost use Rattle.std.specs.Prelude.{◌≡◌, ◌≤◌, ◌+◌, length, drop, slice_get};
ghost use Rattle.object_store.specs.declared.fault.LuaFault.TheVariants as lua;
ghost use Rattle.lua_meaning.specs.Faults.{fault_at};
ghost use Rattle.lua_meaning.specs.Level.{Level};
ghost use Rattle.lua_meaning.specs.Levels.{level};
ghost use Rattle.lua_meaning.specs.Statements.{declare, declare_all, in_cell, line_of, local, local_function, refs_of};
ghost use Rattle.lua_machine.specs.Piled.{cut};
ghost use Rattle.lua_machine.specs.Does.{Fits, OnWell, Stands, frame, world};
ghost use Rattle.lua_machine.specs.Moved.{LocalsOf};
ghost use Rattle.lua_statements.specs.Locals.{past};
ghost use Rattle.lua_commands.specs.Assigned.{declared_one};

use crate::stores::put;
use lua_lists::exactly;
use lua_machine::{Below, Done, FlowTag, Got, Host, Loaded, Machine, Window};
use lua_meaning::Site;
use lua_objects::function;
use lua_program::{RExpr, RStat, Ref};
use lua_statements::value_at;
use object_store::Value;

/// The value becomes that of a captured local, in a new cell, and the values past the window stay.
#[inline(never)]
fn put_in_cell<H: Host>(m: &mut Machine<H>, p: &Loaded, f: &Window, i: u16) -> Done
    requires { Fits f.now m.old.stack }
    ensures locals { LocalsOf H.asked (in_cell (fault_at p.now 0 lua.Full) i m.old.value (frame
        f.now m.old.stack) (world m.old)) m.old f.now result m.new }
    ensures past { OnWell result (past f.now m.new.stack ≡ past f.now m.old.stack) }
{
    let Some(cell) = m.enclose(p, 0) else {
        return Done::Failed;
    };
    match m.stack.put_cell(f.cells, i as usize, cell) {
        Ok(()) => Done::Well,
        Err(_) => {
            m.lose();
            Done::Failed
        }
    }
}

/// A local is declared with the value, and the values past the window stay.
fn declare<H: Host>(m: &mut Machine<H>, p: &Loaded, f: &Window, r: &Ref) -> Done
    requires { Fits f.now m.old.stack }
    ensures locals { LocalsOf H.asked (declare p.now (frame f.now m.old.stack) r.now m.old.value
        (world m.old)) m.old f.now result m.new }
    ensures past { OnWell result (past f.now m.new.stack ≡ past f.now m.old.stack) }
{
    match r {
        Ref::Slot(i) => put(m, f, *i),
        Ref::CellSlot(i) => put_in_cell(m, p, f, *i),
        Ref::Up(_) => {
            m.broken();
            Done::Failed
        }
        Ref::Global(_) => {
            m.broken();
            Done::Failed
        }
    }
}

/// Locals are declared with the values from a place of the stack on, which are dropped.
fn declare_all<H: Host>(
    m: &mut Machine<H>,
    p: &Loaded,
    f: &Window,
    ls: &[(Ref, bool)],
    at: usize,
) -> Done
    requires fits { Fits f.now m.old.stack }
    requires above { f.now.base + f.now.size ≤ at }
    requires within { at ≤ length m.old.stack.values }
    ensures { LocalsOf H.asked (declare_all p.now (refs_of ls.now) (drop at m.old.stack.values)
        (frame f.now m.old.stack) (world m.old)) (record m.old {
          stack =
              cut at m.old.stack;
        }) f.now result m.new }
{
    for (i, l) in ls.iter().enumerate() {
        m.value = value_at(m, at, i);
        match declare(m, p, f, &l.0) {
            Done::Well => {}
            Done::Failed => return Done::Failed,
        }
    }
    m.stack.cut(at);
    Done::Well
}

/// One local with the value of one expression.
#[inline(always)]
fn local_one<H, E, M, C, S>(
    b: &Below<H, E, M, C, S>,
    m: &mut Machine<H>,
    p: &Loaded,
    f: &Window,
    r: &Ref,
    e: &RExpr,
) -> Done
where
    H: Host,
    E: Fn(&mut Machine<H>, &Loaded, &Window, &RExpr, u32) -> Done + Copy,
    M: Fn(&mut Machine<H>, &Loaded, &Window, &RExpr, u32) -> Got + Copy,
    C: Fn(&mut Machine<H>, &Loaded, Site, usize, u32) -> Got + Copy,
    S: Fn(&mut Machine<H>, &Loaded, &Window, &RStat, u32) -> FlowTag + Copy,
    requires stands { Stands H.asked p.now b.now.level (E.pre b.now.expr) (E.post b.now.expr)
        (M.pre b.now.multi) (M.post b.now.multi) (C.pre b.now.call) (C.post b.now.call)
        (S.pre b.now.stmt) (S.post b.now.stmt) }
    requires fits { Fits f.now m.old.stack }
    ensures { LocalsOf H.asked (declared_one p.now (level p.now b.now.level) (frame f.now
        m.old.stack) r.now e.now (world m.old)) m.old f.now result m.new }
{
    well!(b.one(m, p, f, e));
    m.declare(p, f, r)
}

/// Any numbers of locals and expressions.
#[inline(never)]
fn local_all<H, E, M, C, S>(
    b: &Below<H, E, M, C, S>,
    m: &mut Machine<H>,
    p: &Loaded,
    f: &Window,
    ls: &[(Ref, bool)],
    es: &[RExpr],
) -> Done
where
    H: Host,
    E: Fn(&mut Machine<H>, &Loaded, &Window, &RExpr, u32) -> Done + Copy,
    M: Fn(&mut Machine<H>, &Loaded, &Window, &RExpr, u32) -> Got + Copy,
    C: Fn(&mut Machine<H>, &Loaded, Site, usize, u32) -> Got + Copy,
    S: Fn(&mut Machine<H>, &Loaded, &Window, &RStat, u32) -> FlowTag + Copy,
    requires stands { Stands H.asked p.now b.now.level (E.pre b.now.expr) (E.post b.now.expr)
        (M.pre b.now.multi) (M.post b.now.multi) (C.pre b.now.call) (C.post b.now.call)
        (S.pre b.now.stmt) (S.post b.now.stmt) }
    requires fits { Fits f.now m.old.stack }
    ensures { LocalsOf H.asked (local p.now (level p.now b.now.level) ls.now es.now (frame f.now
        m.old.stack) (world m.old)) m.old f.now result m.new }
{
    let at = m.stack.len();
    well!(exactly(b, m, p, f, es, ls.len()));
    declare_all(m, p, f, ls, at)
}

/// Locals with the values of expressions.
#[inline]
pub fn local<H, E, M, C, S>(
    b: &Below<H, E, M, C, S>,
    m: &mut Machine<H>,
    p: &Loaded,
    f: &Window,
    ls: &[(Ref, bool)],
    es: &[RExpr],
) -> Done
where
    H: Host,
    E: Fn(&mut Machine<H>, &Loaded, &Window, &RExpr, u32) -> Done + Copy,
    M: Fn(&mut Machine<H>, &Loaded, &Window, &RExpr, u32) -> Got + Copy,
    C: Fn(&mut Machine<H>, &Loaded, Site, usize, u32) -> Got + Copy,
    S: Fn(&mut Machine<H>, &Loaded, &Window, &RStat, u32) -> FlowTag + Copy,
    requires stands { Stands H.asked p.now b.now.level (E.pre b.now.expr) (E.post b.now.expr)
        (M.pre b.now.multi) (M.post b.now.multi) (C.pre b.now.call) (C.post b.now.call)
        (S.pre b.now.stmt) (S.post b.now.stmt) }
    requires fits { Fits f.now m.old.stack }
    ensures { LocalsOf H.asked (local p.now (level p.now b.now.level) ls.now es.now (frame f.now
        m.old.stack) (world m.old)) m.old f.now result m.new }
{
    if ls.len() == 1 && es.len() == 1 {
        return local_one(b, m, p, f, &ls[0].0, &es[0]);
    }
    local_all(b, m, p, f, ls, es)
}

/// The line of the word `function` of the body of this number, 0 where there is none.
fn line_of(p: &Loaded, n: u32) -> u32
    ensures { (l : Level) → result ≡ line_of p.now l (slice_get p.now.program.protos n) }
{
    match p.proto(n) {
        Some(proto) => proto.line,
        None => 0,
    }
}

/// A local with a function that sees it.
#[inline(never)]
pub fn local_function<H, E, M, C, S>(
    b: &Below<H, E, M, C, S>,
    m: &mut Machine<H>,
    p: &Loaded,
    f: &Window,
    r: &Ref,
    n: u32,
) -> Done
where
    H: Host,
    E: Fn(&mut Machine<H>, &Loaded, &Window, &RExpr, u32) -> Done + Copy,
    M: Fn(&mut Machine<H>, &Loaded, &Window, &RExpr, u32) -> Got + Copy,
    C: Fn(&mut Machine<H>, &Loaded, Site, usize, u32) -> Got + Copy,
    S: Fn(&mut Machine<H>, &Loaded, &Window, &RStat, u32) -> FlowTag + Copy,
    requires stands { Stands H.asked p.now b.now.level (E.pre b.now.expr) (E.post b.now.expr)
        (M.pre b.now.multi) (M.post b.now.multi) (C.pre b.now.call) (C.post b.now.call)
        (S.pre b.now.stmt) (S.post b.now.stmt) }
    requires fits { Fits f.now m.old.stack }
    ensures { LocalsOf H.asked (local_function p.now (level p.now b.now.level) r.now n (frame f.now
        m.old.stack) (world m.old)) m.old f.now result m.new }
{
    m.value = Value::Nil;
    well!(m.declare(p, f, r));
    let line = line_of(p, n);
    well!(function(b, m, p, f, line, n));
    m.assign(f, r)
}
