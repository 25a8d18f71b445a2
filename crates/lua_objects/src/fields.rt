//! Fields of table constructors, which are set without a metatable being asked (Lua 5.4 manual,
//! section 3.4.9).
ghost use Rattle.std.specs.Prelude.{◌≡◌, ◌≤◌, ◌+◌, ◌<◌, ℕ, length, drop};
ghost use Rattle.lua_program.specs.declared.expr.RField.{out-RField};
ghost use Rattle.lua_meaning.specs.Level.{Level, Frame, Loaded as Program};
ghost use Rattle.lua_meaning.specs.Levels.{level};
ghost use Rattle.lua_meaning.specs.Expressions as spec;
ghost use Rattle.lua_machine.specs.Piled.{cut};
ghost use Rattle.lua_machine.specs.Does.{Fits, Stands, UnitOf, frame, world};
ghost use Rattle.lua_objects.specs.Found.{FoundOf};
ghost use Rattle.lua_objects.specs.Fields.{next_key, set_keyed, last_item};

use int_ops::add;
use lua_machine::{Below, Done, FlowTag, Got, Host, Loaded, Machine, Window};
use lua_meaning::Site;
use lua_operands::{put, set_raw};
use lua_program::{RExpr, RField, RStat};
use object_store::{TableId, Value};

/// A key is set to the value of an expression. A nil key is a fault of this line.
fn set_value<H, E, M, C, S>(
    b: &Below<H, E, M, C, S>,
    m: &mut Machine<H>,
    p: &Loaded,
    f: &Window,
    line: u32,
    id: TableId,
    key: Value,
    e: &RExpr,
) -> Done
where
    H: Host,
    E: Fn(&mut Machine<H>, &Loaded, &Window, &RExpr, u32) -> Done + Copy,
    M: Fn(&mut Machine<H>, &Loaded, &Window, &RExpr, u32) -> Got + Copy,
    C: Fn(&mut Machine<H>, &Loaded, Site, usize, u32) -> Got + Copy,
    S: Fn(&mut Machine<H>, &Loaded, &Window, &RStat, u32) -> FlowTag + Copy,
    requires stands { Stands H.asked p.now b.now.level (E.pre b.now.expr) (E.post b.now.expr)
        (M.pre b.now.multi) (M.post b.now.multi) (C.pre b.now.call) (C.post b.now.call)
        (S.pre b.now.stmt) (S.post b.now.stmt) }
    requires fits { Fits f.now m.old.stack }
    ensures { UnitOf H.asked (spec.set_value p.now (level p.now b.now.level) (frame f.now
        m.old.stack) line id key e.now (world m.old)) m.old result m.new }
{
    match b.one(m, p, f, e) {
        Done::Well => set_raw(m, p, line, id, key),
        Done::Failed => Done::Failed,
    }
}

/// An item is set to the value of an expression.
fn set_item<H, E, M, C, S>(
    b: &Below<H, E, M, C, S>,
    m: &mut Machine<H>,
    p: &Loaded,
    f: &Window,
    id: TableId,
    i: i64,
    e: &RExpr,
) -> Done
where
    H: Host,
    E: Fn(&mut Machine<H>, &Loaded, &Window, &RExpr, u32) -> Done + Copy,
    M: Fn(&mut Machine<H>, &Loaded, &Window, &RExpr, u32) -> Got + Copy,
    C: Fn(&mut Machine<H>, &Loaded, Site, usize, u32) -> Got + Copy,
    S: Fn(&mut Machine<H>, &Loaded, &Window, &RStat, u32) -> FlowTag + Copy,
    requires stands { Stands H.asked p.now b.now.level (E.pre b.now.expr) (E.post b.now.expr)
        (M.pre b.now.multi) (M.post b.now.multi) (C.pre b.now.call) (C.post b.now.call)
        (S.pre b.now.stmt) (S.post b.now.stmt) }
    requires fits { Fits f.now m.old.stack }
    ensures { (line : ℕ) → UnitOf H.asked (spec.set_value p.now (level p.now b.now.level) (frame
        f.now m.old.stack) line id (Value.Int i) e.now (world m.old)) m.old result m.new }
{
    match b.one(m, p, f, e) {
        Done::Well => put(m, id, Value::Int(i)),
        Done::Failed => Done::Failed,
    }
}

/// The key that is a text of the program is set to the value of an expression.
fn set_named<H, E, M, C, S>(
    b: &Below<H, E, M, C, S>,
    m: &mut Machine<H>,
    p: &Loaded,
    f: &Window,
    line: u32,
    id: TableId,
    place: u32,
    e: &RExpr,
) -> Done
where
    H: Host,
    E: Fn(&mut Machine<H>, &Loaded, &Window, &RExpr, u32) -> Done + Copy,
    M: Fn(&mut Machine<H>, &Loaded, &Window, &RExpr, u32) -> Got + Copy,
    C: Fn(&mut Machine<H>, &Loaded, Site, usize, u32) -> Got + Copy,
    S: Fn(&mut Machine<H>, &Loaded, &Window, &RStat, u32) -> FlowTag + Copy,
    requires stands { Stands H.asked p.now b.now.level (E.pre b.now.expr) (E.post b.now.expr)
        (M.pre b.now.multi) (M.post b.now.multi) (C.pre b.now.call) (C.post b.now.call)
        (S.pre b.now.stmt) (S.post b.now.stmt) }
    requires fits { Fits f.now m.old.stack }
    ensures { UnitOf H.asked (spec.set_named p.now (level p.now b.now.level) (frame f.now
        m.old.stack) line id (spec.key_at p.now place) e.now (world m.old)) m.old result m.new }
{
    match p.key(place) {
        Some(key) => set_value(b, m, p, f, line, id, key, e),
        None => {
            m.broken();
            Done::Failed
        }
    }
}

/// The value of one expression is set to that of another. A nil key is a fault of this line.
fn set_keyed<H, E, M, C, S>(
    b: &Below<H, E, M, C, S>,
    m: &mut Machine<H>,
    p: &Loaded,
    f: &Window,
    line: u32,
    id: TableId,
    key: &RExpr,
    e: &RExpr,
) -> Done
where
    H: Host,
    E: Fn(&mut Machine<H>, &Loaded, &Window, &RExpr, u32) -> Done + Copy,
    M: Fn(&mut Machine<H>, &Loaded, &Window, &RExpr, u32) -> Got + Copy,
    C: Fn(&mut Machine<H>, &Loaded, Site, usize, u32) -> Got + Copy,
    S: Fn(&mut Machine<H>, &Loaded, &Window, &RStat, u32) -> FlowTag + Copy,
    requires stands { Stands H.asked p.now b.now.level (E.pre b.now.expr) (E.post b.now.expr)
        (M.pre b.now.multi) (M.post b.now.multi) (C.pre b.now.call) (C.post b.now.call)
        (S.pre b.now.stmt) (S.post b.now.stmt) }
    requires fits { Fits f.now m.old.stack }
    ensures { UnitOf H.asked (set_keyed p.now (level p.now b.now.level) (frame f.now m.old.stack)
        line id key.now e.now (world m.old)) m.old result m.new }
{
    match b.one(m, p, f, key) {
        Done::Well => {
            let key = m.value;
            set_value(b, m, p, f, line, id, key, e)
        }
        Done::Failed => Done::Failed,
    }
}

/// The key of the next item, where a part did its work.
#[inline(always)]
fn next_key(done: Done, i: i64) -> Option<i64>
    ensures { result ≡ next_key done i }
{
    match done {
        Done::Well => Some(i),
        Done::Failed => None,
    }
}

/// One field, and the key of the next item.
pub fn set_field<H, E, M, C, S>(
    b: &Below<H, E, M, C, S>,
    m: &mut Machine<H>,
    p: &Loaded,
    f: &Window,
    line: u32,
    id: TableId,
    i: i64,
    field: &RField,
) -> Option<i64>
where
    H: Host,
    E: Fn(&mut Machine<H>, &Loaded, &Window, &RExpr, u32) -> Done + Copy,
    M: Fn(&mut Machine<H>, &Loaded, &Window, &RExpr, u32) -> Got + Copy,
    C: Fn(&mut Machine<H>, &Loaded, Site, usize, u32) -> Got + Copy,
    S: Fn(&mut Machine<H>, &Loaded, &Window, &RStat, u32) -> FlowTag + Copy,
    requires stands { Stands H.asked p.now b.now.level (E.pre b.now.expr) (E.post b.now.expr)
        (M.pre b.now.multi) (M.post b.now.multi) (C.pre b.now.call) (C.post b.now.call)
        (S.pre b.now.stmt) (S.post b.now.stmt) }
    requires fits { Fits f.now m.old.stack }
    ensures { FoundOf H.asked (spec.set_field p.now (level p.now b.now.level) (frame f.now
        m.old.stack) line id i (out-RField field.now) (world m.old)) m.old result m.new }
{
    match field {
        RField::Item(e) => next_key(set_item(b, m, p, f, id, i, e), add(i, 1)),
        RField::Named(_, place, e) => next_key(set_named(b, m, p, f, line, id, *place, e), i),
        RField::Keyed(key, e) => next_key(set_keyed(b, m, p, f, line, id, key, e), i),
    }
}

/// Items from this key on are set to the values from a place of the stack on, which are dropped.
fn set_items<H: Host>(m: &mut Machine<H>, id: TableId, first: i64, at: usize) -> Done
    requires { at ≤ length m.old.stack.values }
    ensures { (p : Program) (l : Level) (f : Frame) (line : ℕ) → UnitOf H.asked (spec.items p l
        f line id first (drop at m.old.stack.values) (world m.old)) (record m.old {
          stack =
              cut at m.old.stack;
        }) result m.new }
{
    let mut key = first;
    for place in at..m.stack.len() {
        m.value = m.stack.at(place, 0);
        match put(m, id, Value::Int(key)) {
            Done::Well => key = add(key, 1),
            Done::Failed => return Done::Failed,
        }
    }
    m.stack.cut(at);
    Done::Well
}

/// The last item, which gives all its values.
fn last_item<H, E, M, C, S>(
    b: &Below<H, E, M, C, S>,
    m: &mut Machine<H>,
    p: &Loaded,
    f: &Window,
    id: TableId,
    i: i64,
    e: &RExpr,
) -> Done
where
    H: Host,
    E: Fn(&mut Machine<H>, &Loaded, &Window, &RExpr, u32) -> Done + Copy,
    M: Fn(&mut Machine<H>, &Loaded, &Window, &RExpr, u32) -> Got + Copy,
    C: Fn(&mut Machine<H>, &Loaded, Site, usize, u32) -> Got + Copy,
    S: Fn(&mut Machine<H>, &Loaded, &Window, &RStat, u32) -> FlowTag + Copy,
    requires stands { Stands H.asked p.now b.now.level (E.pre b.now.expr) (E.post b.now.expr)
        (M.pre b.now.multi) (M.post b.now.multi) (C.pre b.now.call) (C.post b.now.call)
        (S.pre b.now.stmt) (S.post b.now.stmt) }
    requires fits { Fits f.now m.old.stack }
    ensures { (line : ℕ) → UnitOf H.asked (last_item p.now (level p.now b.now.level) (frame f.now
        m.old.stack) line id i e.now (world m.old)) m.old result m.new }
{
    let at = m.stack.len();
    match b.many(m, p, f, e) {
        Got::One => put(m, id, Value::Int(i)),
        Got::Many => set_items(m, id, i, at),
        Got::Failed => Done::Failed,
    }
}

/// The last field, which as an item gives all its values.
pub fn last_field<H, E, M, C, S>(
    b: &Below<H, E, M, C, S>,
    m: &mut Machine<H>,
    p: &Loaded,
    f: &Window,
    line: u32,
    id: TableId,
    i: i64,
    field: &RField,
) -> Done
where
    H: Host,
    E: Fn(&mut Machine<H>, &Loaded, &Window, &RExpr, u32) -> Done + Copy,
    M: Fn(&mut Machine<H>, &Loaded, &Window, &RExpr, u32) -> Got + Copy,
    C: Fn(&mut Machine<H>, &Loaded, Site, usize, u32) -> Got + Copy,
    S: Fn(&mut Machine<H>, &Loaded, &Window, &RStat, u32) -> FlowTag + Copy,
    requires stands { Stands H.asked p.now b.now.level (E.pre b.now.expr) (E.post b.now.expr)
        (M.pre b.now.multi) (M.post b.now.multi) (C.pre b.now.call) (C.post b.now.call)
        (S.pre b.now.stmt) (S.post b.now.stmt) }
    requires fits { Fits f.now m.old.stack }
    ensures { UnitOf H.asked (spec.last_field p.now (level p.now b.now.level) (frame f.now
        m.old.stack) line id i (out-RField field.now) (world m.old)) m.old result m.new }
{
    match field {
        RField::Item(e) => last_item(b, m, p, f, id, i, e),
        RField::Named(_, place, e) => set_named(b, m, p, f, line, id, *place, e),
        RField::Keyed(key, e) => set_keyed(b, m, p, f, line, id, key, e),
    }
}
