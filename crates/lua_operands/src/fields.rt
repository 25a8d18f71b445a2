//! `object[key]` and `object[key] = value`.
ghost use Rattle.std.specs.Prelude.{◌≡◌, ◌≢◌, ◌≤◌, ◌-◌, [], ◌∷◌, length, Ok, IsTrue, IsFalse, not};
ghost use Rattle.object_store.specs.Value.{is_nil};
ghost use Rattle.lua_ops.specs.Metamethods.{raw_get};
ghost use Rattle.lua_ops.specs.Setting as setting;
ghost use Rattle.lua_meaning.specs.Levels.{level};
ghost use Rattle.lua_meaning.specs.Operate as spec;
ghost use Rattle.lua_machine.specs.Does.{Fits, Stands, OneOf, UnitOf, world};

use crate::handlers::handled;
use lanes_lib::member;
use lua_machine::{Below, Done, FlowTag, Got, Host, Loaded, Machine, Window};
use lua_meaning::Site;
use lua_ops::{Step, Target, raw_index};
use lua_program::{RExpr, RStat};
use object_store::{LuaFault, TableId, Value};

/// `object[key]` of any kind, with the key in `value`.
#[inline(never)]
fn any_index<H, E, M, C, S>(
    b: &Below<H, E, M, C, S>,
    m: &mut Machine<H>,
    p: &Loaded,
    line: u32,
    from: Site,
    object: Value,
) -> Done
where
    H: Host,
    E: Fn(&mut Machine<H>, &Loaded, &Window, &RExpr, u32) -> Done + Copy,
    M: Fn(&mut Machine<H>, &Loaded, &Window, &RExpr, u32) -> Got + Copy,
    C: Fn(&mut Machine<H>, &Loaded, Site, usize, u32) -> Got + Copy,
    S: Fn(&mut Machine<H>, &Loaded, &Window, &RStat, u32) -> FlowTag + Copy,
    requires stands { Stands H.asked p.now b.now.level (E.pre b.now.expr) (E.post b.now.expr)
        (M.pre b.now.multi) (M.post b.now.multi) (C.pre b.now.call) (C.post b.now.call)
        (S.pre b.now.stmt) (S.post b.now.stmt) }
    ensures { OneOf H.asked (spec.index p.now (level p.now b.now.level) line from object m.old.value
        (world m.old)) m.old result m.new }
{
    let key = m.value;
    match lua_ops::index(&m.state, object, key) {
        Ok(step) => index_step(b, m, p, line, from, key, step),
        Err(fault) => {
            m.fault_at(p, line, fault);
            Done::Failed
        }
    }
}

/// `object[key]`, with the key in `value`. Most are values that a table has.
#[inline]
pub fn index<H, E, M, C, S>(
    b: &Below<H, E, M, C, S>,
    m: &mut Machine<H>,
    p: &Loaded,
    line: u32,
    from: Site,
    object: Value,
) -> Done
where
    H: Host,
    E: Fn(&mut Machine<H>, &Loaded, &Window, &RExpr, u32) -> Done + Copy,
    M: Fn(&mut Machine<H>, &Loaded, &Window, &RExpr, u32) -> Got + Copy,
    C: Fn(&mut Machine<H>, &Loaded, Site, usize, u32) -> Got + Copy,
    S: Fn(&mut Machine<H>, &Loaded, &Window, &RStat, u32) -> FlowTag + Copy,
    requires stands { Stands H.asked p.now b.now.level (E.pre b.now.expr) (E.post b.now.expr)
        (M.pre b.now.multi) (M.post b.now.multi) (C.pre b.now.call) (C.post b.now.call)
        (S.pre b.now.stmt) (S.post b.now.stmt) }
    ensures { OneOf H.asked (spec.index p.now (level p.now b.now.level) line from object m.old.value
        (world m.old)) m.old result m.new }
{
    if let Value::Table(id) = object {
        let value = raw_index(&m.state, id, m.value);
        if !value.is_nil() {
            m.value = value;
            return Done::Well;
        }
    }
    any_index(b, m, p, line, from, object)
}

/// The value of an index, or the first value of its handler, or a field of a handle.
#[inline]
fn index_step<H, E, M, C, S>(
    b: &Below<H, E, M, C, S>,
    m: &mut Machine<H>,
    p: &Loaded,
    line: u32,
    from: Site,
    key: Value,
    step: Step,
) -> Done
where
    H: Host,
    E: Fn(&mut Machine<H>, &Loaded, &Window, &RExpr, u32) -> Done + Copy,
    M: Fn(&mut Machine<H>, &Loaded, &Window, &RExpr, u32) -> Got + Copy,
    C: Fn(&mut Machine<H>, &Loaded, Site, usize, u32) -> Got + Copy,
    S: Fn(&mut Machine<H>, &Loaded, &Window, &RStat, u32) -> FlowTag + Copy,
    requires stands { Stands H.asked p.now b.now.level (E.pre b.now.expr) (E.post b.now.expr)
        (M.pre b.now.multi) (M.post b.now.multi) (C.pre b.now.call) (C.post b.now.call)
        (S.pre b.now.stmt) (S.post b.now.stmt) }
    ensures { OneOf H.asked (spec.on_index p.now (level p.now b.now.level) line from key (Ok step)
        (world m.old)) m.old result m.new }
{
    match step {
        Step::Raw(value) => {
            m.value = value;
            Done::Well
        }
        Step::Handler {
            function,
            first,
            second,
        } => handled(b, m, p, line, from, function, first, second),
        Step::Handle(object) => {
            m.value = member(&m.state, object, key);
            Done::Well
        }
    }
}

/// `object[key] = value` of any kind, with the value in `value`.
#[inline(never)]
fn any_set<H, E, M, C, S>(
    b: &Below<H, E, M, C, S>,
    m: &mut Machine<H>,
    p: &Loaded,
    line: u32,
    from: Site,
    object: Value,
    key: Value,
) -> Done
where
    H: Host,
    E: Fn(&mut Machine<H>, &Loaded, &Window, &RExpr, u32) -> Done + Copy,
    M: Fn(&mut Machine<H>, &Loaded, &Window, &RExpr, u32) -> Got + Copy,
    C: Fn(&mut Machine<H>, &Loaded, Site, usize, u32) -> Got + Copy,
    S: Fn(&mut Machine<H>, &Loaded, &Window, &RStat, u32) -> FlowTag + Copy,
    requires stands { Stands H.asked p.now b.now.level (E.pre b.now.expr) (E.post b.now.expr)
        (M.pre b.now.multi) (M.post b.now.multi) (C.pre b.now.call) (C.post b.now.call)
        (S.pre b.now.stmt) (S.post b.now.stmt) }
    ensures { UnitOf H.asked (spec.set p.now (level p.now b.now.level) line from object key
        m.old.value (world m.old)) m.old result m.new }
{
    match lua_ops::set_target(&m.state, object, key) {
        Ok(target) => set_at(b, m, p, line, from, key, target),
        Err(fault) => {
            m.fault_at(p, line, fault);
            Done::Failed
        }
    }
}

/// `object[key] = value`, with the value in `value`. Most set a key that a table has, or a table
/// without a metatable.
#[inline]
pub fn set<H, E, M, C, S>(
    b: &Below<H, E, M, C, S>,
    m: &mut Machine<H>,
    p: &Loaded,
    line: u32,
    from: Site,
    object: Value,
    key: Value,
) -> Done
where
    H: Host,
    E: Fn(&mut Machine<H>, &Loaded, &Window, &RExpr, u32) -> Done + Copy,
    M: Fn(&mut Machine<H>, &Loaded, &Window, &RExpr, u32) -> Got + Copy,
    C: Fn(&mut Machine<H>, &Loaded, Site, usize, u32) -> Got + Copy,
    S: Fn(&mut Machine<H>, &Loaded, &Window, &RStat, u32) -> FlowTag + Copy,
    requires stands { Stands H.asked p.now b.now.level (E.pre b.now.expr) (E.post b.now.expr)
        (M.pre b.now.multi) (M.post b.now.multi) (C.pre b.now.call) (C.post b.now.call)
        (S.pre b.now.stmt) (S.post b.now.stmt) }
    ensures { UnitOf H.asked (spec.set p.now (level p.now b.now.level) line from object key
        m.old.value (world m.old)) m.old result m.new }
{
    if let Value::Table(id) = object {
        if is_plain(m, id) {
            return set_raw(m, p, line, id, key);
        }
        if !key.is_nil() && put_here(m, id, key) {
            return Done::Well;
        }
    }
    any_set(b, m, p, line, from, object, key)
}

/// Whether the table has no metatable.
#[inline(always)]
fn is_plain<H: Host>(m: &Machine<H>, id: TableId) -> bool
    ensures { result ≡ setting.is_plain m.now.state.heap id.number }
{
    match m.state.table_of(id) {
        Some(table) => table.meta().is_none(),
        None => true,
    }
}

/// A key that has a live value in a table is set to the value; else nothing is done.
fn put_here<H: Host>(m: &mut Machine<H>, id: TableId, key: Value) -> bool
    ensures live { result ≡ not (is_nil (raw_get m.old.state.heap id.number key)) }
    ensures put { IsTrue result → UnitOf H.asked (spec.put id key m.old.value (world m.old)) m.old
        Done.Well m.new }
    ensures refused { IsFalse result → m.new ≡ m.old }
{
    let value = m.value;
    lua_ops::raw_set_here(&mut m.state, id, key, value)
}

/// A table is set, or a handler is called.
#[inline]
fn set_at<H, E, M, C, S>(
    b: &Below<H, E, M, C, S>,
    m: &mut Machine<H>,
    p: &Loaded,
    line: u32,
    from: Site,
    key: Value,
    target: Target,
) -> Done
where
    H: Host,
    E: Fn(&mut Machine<H>, &Loaded, &Window, &RExpr, u32) -> Done + Copy,
    M: Fn(&mut Machine<H>, &Loaded, &Window, &RExpr, u32) -> Got + Copy,
    C: Fn(&mut Machine<H>, &Loaded, Site, usize, u32) -> Got + Copy,
    S: Fn(&mut Machine<H>, &Loaded, &Window, &RStat, u32) -> FlowTag + Copy,
    requires stands { Stands H.asked p.now b.now.level (E.pre b.now.expr) (E.post b.now.expr)
        (M.pre b.now.multi) (M.post b.now.multi) (C.pre b.now.call) (C.post b.now.call)
        (S.pre b.now.stmt) (S.post b.now.stmt) }
    ensures { UnitOf H.asked (spec.on_set p.now (level p.now b.now.level) line from key m.old.value
        (Ok target) (world m.old)) m.old result m.new }
{
    match target {
        Target::Table(id) => set_raw(m, p, line, id, key),
        Target::Handler { function, object } => set_by(b, m, p, line, from, function, object, key),
    }
}

/// A handler is called with an object, a key and the value.
#[cold]
#[inline(never)]
fn set_by<H, E, M, C, S>(
    b: &Below<H, E, M, C, S>,
    m: &mut Machine<H>,
    p: &Loaded,
    line: u32,
    from: Site,
    function: Value,
    object: Value,
    key: Value,
) -> Done
where
    H: Host,
    E: Fn(&mut Machine<H>, &Loaded, &Window, &RExpr, u32) -> Done + Copy,
    M: Fn(&mut Machine<H>, &Loaded, &Window, &RExpr, u32) -> Got + Copy,
    C: Fn(&mut Machine<H>, &Loaded, Site, usize, u32) -> Got + Copy,
    S: Fn(&mut Machine<H>, &Loaded, &Window, &RStat, u32) -> FlowTag + Copy,
    requires stands { Stands H.asked p.now b.now.level (E.pre b.now.expr) (E.post b.now.expr)
        (M.pre b.now.multi) (M.post b.now.multi) (C.pre b.now.call) (C.post b.now.call)
        (S.pre b.now.stmt) (S.post b.now.stmt) }
    ensures { UnitOf H.asked (spec.set_handled p.now (level p.now b.now.level) line from function
        object key m.old.value (world m.old)) m.old result m.new }
{
    let at = m.stack.len();
    let value = m.value;
    m.value = object;
    well!(m.push());
    m.value = key;
    well!(m.push());
    m.value = value;
    well!(m.push());
    m.value = function;
    match b.invoke(m, p, from, at) {
        Got::One => Done::Well,
        Got::Many => {
            m.stack.cut(at);
            Done::Well
        }
        Got::Failed => Done::Failed,
    }
}

/// The key of a table is set to the value, no metatable being asked. A nil key is a fault of this
/// line.
#[inline]
pub fn set_raw<H: Host>(m: &mut Machine<H>, p: &Loaded, line: u32, id: TableId, key: Value) -> Done
    ensures { UnitOf H.asked (spec.raw_set p.now line id key m.old.value (world m.old)) m.old result
        m.new }
{
    if key.is_nil() {
        m.fault_at(p, line, LuaFault::NilKey);
        return Done::Failed;
    }
    put(m, id, key)
}

/// A key that isn't nil is set to the value.
#[inline]
pub fn put<H: Host>(m: &mut Machine<H>, id: TableId, key: Value) -> Done
    requires { key ≢ Value.Nil }
    ensures { UnitOf H.asked (spec.put id key m.old.value (world m.old)) m.old result m.new }
{
    let value = m.value;
    let refused = lua_ops::raw_set(&mut m.state, id, key, value).is_err();
    if refused {
        m.lose();
        return Done::Failed;
    }
    Done::Well
}
