//! The objects and the keys of targets (Lua 5.4 manual, section 3.3.3).
ghost use Rattle.std.specs.Prelude.{ℕ, [], Ok};
ghost use Rattle.lua_meaning.specs.Levels.{level};
ghost use Rattle.lua_meaning.specs.Expressions.{key_at};
ghost use Rattle.lua_meaning.specs.Statements.{Target, Field, global_target, name_target, target, targets};
ghost use Rattle.lua_machine.specs.Does.{Fits, Stands, frame, world};
ghost use Rattle.lua_commands.specs.Assigned.{pair_target};
ghost use Rattle.lua_commands.specs.Targets.{TargetOf, TargetsOf, named, target_of};

use lua_machine::{Below, Done, FlowTag, Got, Host, Loaded, Machine, Window};
use lua_meaning::Site;
use lua_program::{RExpr, RExprKind, RStat, Ref};
use object_store::Value;

/// Two values come onto the stack, whatever target they are of.
fn push_two<H: Host>(m: &mut Machine<H>, first: Value, second: Value) -> Done
    ensures { (of : Value → Value → Target) → TargetOf H.asked (λ k. k (Ok (of first second)) (world
        m.old)) of m.old result m.new }
{
    m.value = first;
    well!(m.push());
    m.value = second;
    m.push()
}

/// A name as a target, on whatever line. A global is a key of the table of the globals, which the
/// program may be without; then the fault is `Broken`.
fn push_name<H: Host>(m: &mut Machine<H>, p: &Loaded, r: &Ref) -> Done
    ensures { (line : ℕ) → TargetOf H.asked (λ k. k (name_target p.now line r.now) (world m.old))
        (named line r.now) m.old result m.new }
{
    match r {
        Ref::Slot(_) => push_two(m, Value::Nil, Value::Nil),
        Ref::CellSlot(_) => push_two(m, Value::Nil, Value::Nil),
        Ref::Up(_) => push_two(m, Value::Nil, Value::Nil),
        Ref::Global(text) => push_global(m, p, text.get().place),
    }
}

/// The table of the globals, and the key of this place.
fn push_global<H: Host>(m: &mut Machine<H>, p: &Loaded, place: u32) -> Done
    ensures { (line : ℕ) → TargetOf H.asked (λ k. k (global_target line (key_at p.now place))
        (world m.old)) (λ object key. Field object key line) m.old result m.new }
{
    let Some(key) = p.key(place) else {
        m.broken();
        return Done::Failed;
    };
    let globals = Value::Table(m.state.globals());
    push_two(m, globals, key)
}

/// The values of two expressions, an object and a key, whose target is on whatever line.
fn push_pair<H, E, M, C, S>(
    b: &Below<H, E, M, C, S>,
    m: &mut Machine<H>,
    p: &Loaded,
    f: &Window,
    object: &RExpr,
    key: &RExpr,
) -> Done
where
    H: Host,
    E: Fn(&mut Machine<H>, &Loaded, &Window, &RExpr, u32) -> Done + Copy,
    M: Fn(&mut Machine<H>, &Loaded, &Window, &RExpr, u32) -> Got + Copy,
    C: Fn(&mut Machine<H>, &Loaded, Site, usize, u32) -> Got + Copy,
    S: Fn(&mut Machine<H>, &Loaded, &Window, &RStat, u32) -> FlowTag + Copy,
    requires stands { Stands H.asked p.now b.now.level (E.pre b.now.expr) (E.post b.now.expr)
        (M.pre b.now.multi) (M.post b.now.multi) (C.pre b.now.call) (C.post b.now.call)
        (S.pre b.now.stmt) (S.post b.now.stmt) }
    requires fits { Fits f.now m.old.stack }
    ensures { (line : ℕ) → TargetOf H.asked (pair_target p.now (level p.now b.now.level) (frame
        f.now m.old.stack) line object.now key.now (world m.old)) (λ object key. Field object key
        line) m.old result m.new }
{
    well!(b.one(m, p, f, object));
    let object = m.value;
    well!(b.one(m, p, f, key));
    let key = m.value;
    push_two(m, object, key)
}

/// A target comes onto the stack. What is neither a name nor an index is no target; then the fault
/// is `Broken`.
fn push_target<H, E, M, C, S>(
    b: &Below<H, E, M, C, S>,
    m: &mut Machine<H>,
    p: &Loaded,
    f: &Window,
    e: &RExpr,
) -> Done
where
    H: Host,
    E: Fn(&mut Machine<H>, &Loaded, &Window, &RExpr, u32) -> Done + Copy,
    M: Fn(&mut Machine<H>, &Loaded, &Window, &RExpr, u32) -> Got + Copy,
    C: Fn(&mut Machine<H>, &Loaded, Site, usize, u32) -> Got + Copy,
    S: Fn(&mut Machine<H>, &Loaded, &Window, &RStat, u32) -> FlowTag + Copy,
    requires stands { Stands H.asked p.now b.now.level (E.pre b.now.expr) (E.post b.now.expr)
        (M.pre b.now.multi) (M.post b.now.multi) (C.pre b.now.call) (C.post b.now.call)
        (S.pre b.now.stmt) (S.post b.now.stmt) }
    requires fits { Fits f.now m.old.stack }
    ensures { TargetOf H.asked (target p.now (level p.now b.now.level) e.now (frame f.now
        m.old.stack) (world m.old)) (target_of e.now) m.old result m.new }
{
    match &e.what {
        RExprKind::Name(r, _) => push_name(m, p, r),
        RExprKind::Index(two) => push_pair(b, m, p, f, &two.get().left, &two.get().right),
        _ => {
            m.broken();
            Done::Failed
        }
    }
}

/// Targets come onto the stack, from left to right.
pub fn push_targets<H, E, M, C, S>(
    b: &Below<H, E, M, C, S>,
    m: &mut Machine<H>,
    p: &Loaded,
    f: &Window,
    es: &[RExpr],
) -> Done
where
    H: Host,
    E: Fn(&mut Machine<H>, &Loaded, &Window, &RExpr, u32) -> Done + Copy,
    M: Fn(&mut Machine<H>, &Loaded, &Window, &RExpr, u32) -> Got + Copy,
    C: Fn(&mut Machine<H>, &Loaded, Site, usize, u32) -> Got + Copy,
    S: Fn(&mut Machine<H>, &Loaded, &Window, &RStat, u32) -> FlowTag + Copy,
    requires stands { Stands H.asked p.now b.now.level (E.pre b.now.expr) (E.post b.now.expr)
        (M.pre b.now.multi) (M.post b.now.multi) (C.pre b.now.call) (C.post b.now.call)
        (S.pre b.now.stmt) (S.post b.now.stmt) }
    requires fits { Fits f.now m.old.stack }
    ensures { TargetsOf H.asked (targets p.now (level p.now b.now.level) [] es.now (frame f.now
        m.old.stack) (world m.old)) es.now m.old result m.new }
{
    for e in es {
        match push_target(b, m, p, f, e) {
            Done::Well => {}
            Done::Failed => return Done::Failed,
        }
    }
    Done::Well
}
