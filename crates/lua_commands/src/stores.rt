//! Values that come into targets (Lua 5.4 manual, section 3.3.3).
ghost use Rattle.std.specs.Prelude.{◌≡◌};
ghost use Rattle.lua_meaning.specs.Levels.{level};
ghost use Rattle.lua_meaning.specs.Names.{put_slot};
ghost use Rattle.lua_meaning.specs.Statements.{assign, store};
ghost use Rattle.lua_machine.specs.Does.{Fits, OnWell, Stands, frame, locals, world};
ghost use Rattle.lua_machine.specs.Moved.{LocalsOf};
ghost use Rattle.lua_statements.specs.Locals.{past};
ghost use Rattle.lua_commands.specs.Assigned.{field_set};
ghost use Rattle.lua_commands.specs.Targets.{named, target_of};

use lua_machine::{Below, Done, FlowTag, Got, Host, Loaded, Machine, Window};
use lua_meaning::Site;
use lua_operands::set;
use lua_program::{RExpr, RExprKind, RStat, Ref};
use object_store::Value;

/// The value becomes that of a slot, and the values past the window stay.
#[inline(always)]
pub fn put<H: Host>(m: &mut Machine<H>, f: &Window, i: u16) -> Done
    requires { Fits f.now m.old.stack }
    ensures locals { LocalsOf H.asked (λ k. k (put_slot i m.old.value (locals f.now m.old.stack))
        (world m.old)) m.old f.now result m.new }
    ensures past { OnWell result (past f.now m.new.stack ≡ past f.now m.old.stack) }
{
    let i = i as usize;
    if i < f.size {
        m.stack.put(f.base, i, m.value);
        return Done::Well;
    }
    m.broken();
    Done::Failed
}

/// The value becomes that of a local or an upvalue, and the values past the window stay.
#[inline(always)]
fn assign<H: Host>(m: &mut Machine<H>, f: &Window, r: &Ref) -> Done
    requires { Fits f.now m.old.stack }
    ensures locals { LocalsOf H.asked (assign (frame f.now m.old.stack) r.now m.old.value (world
        m.old)) m.old f.now result m.new }
    ensures past { OnWell result (past f.now m.new.stack ≡ past f.now m.old.stack) }
{
    match r {
        Ref::Slot(i) => put(m, f, *i),
        Ref::CellSlot(i) => {
            let cell = m.stack.cell(f.cells, *i as usize);
            m.set_cell(cell)
        }
        Ref::Up(j) => {
            let cell = m.up_cell(f, *j);
            m.set_cell(cell)
        }
        Ref::Global(_) => {
            m.broken();
            Done::Failed
        }
    }
}

/// `object[key] = value`, with the value in `value`. The values past the window stay.
#[inline]
pub fn set_field<H, E, M, C, S>(
    b: &Below<H, E, M, C, S>,
    m: &mut Machine<H>,
    p: &Loaded,
    f: &Window,
    line: u32,
    object: Value,
    key: Value,
) -> Done
where
    H: Host,
    E: Fn(&mut Machine<H>, &Loaded, &Window, &RExpr, u32) -> Done + Copy,
    M: Fn(&mut Machine<H>, &Loaded, &Window, &RExpr, u32) -> Got + Copy,
    C: Fn(&mut Machine<H>, &Loaded, Site, usize, u32) -> Got + Copy,
    S: Fn(&mut Machine<H>, &Loaded, &Window, &RStat, u32) -> FlowTag + Copy,
    requires stands { Stands H.asked p.now b.now.level (E.pre b.now.expr) (E.post b.now.expr)
        (M.pre b.now.multi) (M.post b.now.multi) (C.pre b.now.call) (C.post b.now.call)
        (S.pre b.now.stmt) (S.post b.now.stmt) }
    requires fits { Fits f.now m.old.stack }
    ensures locals { LocalsOf H.asked (field_set p.now (level p.now b.now.level) (frame f.now
        m.old.stack) line object key m.old.value (world m.old)) m.old f.now result m.new }
    ensures past { OnWell result (past f.now m.new.stack ≡ past f.now m.old.stack) }
{
    let from = Site {
        line: 0,
        outer: f.from,
    };
    set(b, m, p, line, from, object, key)
}

/// The value comes into a name, which of a global has these two values. The values past the window
/// stay.
fn store_name<H, E, M, C, S>(
    b: &Below<H, E, M, C, S>,
    m: &mut Machine<H>,
    p: &Loaded,
    f: &Window,
    line: u32,
    r: &Ref,
    object: Value,
    key: Value,
) -> Done
where
    H: Host,
    E: Fn(&mut Machine<H>, &Loaded, &Window, &RExpr, u32) -> Done + Copy,
    M: Fn(&mut Machine<H>, &Loaded, &Window, &RExpr, u32) -> Got + Copy,
    C: Fn(&mut Machine<H>, &Loaded, Site, usize, u32) -> Got + Copy,
    S: Fn(&mut Machine<H>, &Loaded, &Window, &RStat, u32) -> FlowTag + Copy,
    requires stands { Stands H.asked p.now b.now.level (E.pre b.now.expr) (E.post b.now.expr)
        (M.pre b.now.multi) (M.post b.now.multi) (C.pre b.now.call) (C.post b.now.call)
        (S.pre b.now.stmt) (S.post b.now.stmt) }
    requires fits { Fits f.now m.old.stack }
    ensures locals { LocalsOf H.asked (store p.now (level p.now b.now.level) (frame f.now
        m.old.stack) (named line r.now object key) m.old.value (world m.old)) m.old f.now result
        m.new }
    ensures past { OnWell result (past f.now m.new.stack ≡ past f.now m.old.stack) }
{
    match r {
        Ref::Slot(_) => assign(m, f, r),
        Ref::CellSlot(_) => assign(m, f, r),
        Ref::Up(_) => assign(m, f, r),
        Ref::Global(_) => set_field(b, m, p, f, line, object, key),
    }
}

/// The value comes into the target of an expression with these two values. The values past the
/// window stay.
pub fn store<H, E, M, C, S>(
    b: &Below<H, E, M, C, S>,
    m: &mut Machine<H>,
    p: &Loaded,
    f: &Window,
    e: &RExpr,
    object: Value,
    key: Value,
) -> Done
where
    H: Host,
    E: Fn(&mut Machine<H>, &Loaded, &Window, &RExpr, u32) -> Done + Copy,
    M: Fn(&mut Machine<H>, &Loaded, &Window, &RExpr, u32) -> Got + Copy,
    C: Fn(&mut Machine<H>, &Loaded, Site, usize, u32) -> Got + Copy,
    S: Fn(&mut Machine<H>, &Loaded, &Window, &RStat, u32) -> FlowTag + Copy,
    requires stands { Stands H.asked p.now b.now.level (E.pre b.now.expr) (E.post b.now.expr)
        (M.pre b.now.multi) (M.post b.now.multi) (C.pre b.now.call) (C.post b.now.call)
        (S.pre b.now.stmt) (S.post b.now.stmt) }
    requires fits { Fits f.now m.old.stack }
    ensures locals { LocalsOf H.asked (store p.now (level p.now b.now.level) (frame f.now
        m.old.stack) (target_of e.now object key) m.old.value (world m.old)) m.old f.now result
        m.new }
    ensures past { OnWell result (past f.now m.new.stack ≡ past f.now m.old.stack) }
{
    match &e.what {
        RExprKind::Name(r, _) => store_name(b, m, p, f, e.line, r, object, key),
        _ => set_field(b, m, p, f, e.line, object, key),
    }
}
