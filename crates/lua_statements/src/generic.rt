//! The generic `for` (Lua 5.4 manual, section 3.3.5): a function is called with a state and the
//! value before.
ghost use Rattle.std.specs.Prelude.{◌≡◌, ◌≤◌, ◌+◌, [], ◌∷◌, length, drop};
ghost use Rattle.lua_meaning.specs.Level.{no_site};
ghost use Rattle.lua_meaning.specs.Levels.{level};
ghost use Rattle.lua_meaning.specs.Statements.{in_turn, in_turns};
ghost use Rattle.lua_machine.specs.Piled.{cut};
ghost use Rattle.lua_machine.specs.Does.{Fits, FlowOf, PushedOf, Stands, frame, world};

use crate::blocks::block;
use crate::locals::{declare_all, value_at};
use lua_machine::{Below, Done, FlowTag, Got, Host, Loaded, Machine, Window};
use lua_meaning::Site;
use lua_program::{RExpr, RStat, Ref};
use object_store::Value;

/// What the function gives for a state and the value before, onto the stack.
#[inline(always)]
fn next_values<H, E, M, C, S>(
    b: &Below<H, E, M, C, S>,
    m: &mut Machine<H>,
    p: &Loaded,
    f: &Window,
    go: Value,
    state: Value,
    control: Value,
) -> Done
where
    H: Host,
    E: Fn(&mut Machine<H>, &Loaded, &Window, &RExpr, u32) -> Done + Copy,
    M: Fn(&mut Machine<H>, &Loaded, &Window, &RExpr, u32) -> Got + Copy,
    C: Fn(&mut Machine<H>, &Loaded, Site, usize, u32) -> Got + Copy,
    S: Fn(&mut Machine<H>, &Loaded, &Window, &RStat, u32) -> FlowTag + Copy,
    requires stands { Stands H.asked p.now b.now.level (E.pre b.now.expr) (E.post b.now.expr)
        (M.pre b.now.multi) (M.post b.now.multi) (C.pre b.now.call) (C.post b.now.call)
        (S.pre b.now.stmt) (S.post b.now.stmt) }
    requires fits { Fits f.now m.old.stack }
    ensures { PushedOf H.asked ((level p.now b.now.level).call go (state ∷ control ∷ [])
        (no_site (frame f.now m.old.stack)) (world m.old)) m.old (length m.old.stack.values) result
        m.new }
{
    let at = m.stack.len();
    m.value = state;
    match m.push() {
        Done::Well => {}
        Done::Failed => return Done::Failed,
    }
    m.value = control;
    match m.push() {
        Done::Well => {}
        Done::Failed => return Done::Failed,
    }
    m.value = go;
    let site = Site {
        line: 0,
        outer: f.from,
    };
    match b.invoke(m, p, site, at) {
        Got::One => m.push(),
        Got::Many => Done::Well,
        Got::Failed => Done::Failed,
    }
}

/// One turn, with the values from a place of the stack on, which are dropped. Each turn has fresh
/// locals.
#[inline(always)]
fn in_turn<H, E, M, C, S>(
    b: &Below<H, E, M, C, S>,
    m: &mut Machine<H>,
    p: &Loaded,
    f: &Window,
    rs: &[Ref],
    at: usize,
    body: &[RStat],
) -> FlowTag
where
    H: Host,
    E: Fn(&mut Machine<H>, &Loaded, &Window, &RExpr, u32) -> Done + Copy,
    M: Fn(&mut Machine<H>, &Loaded, &Window, &RExpr, u32) -> Got + Copy,
    C: Fn(&mut Machine<H>, &Loaded, Site, usize, u32) -> Got + Copy,
    S: Fn(&mut Machine<H>, &Loaded, &Window, &RStat, u32) -> FlowTag + Copy,
    requires stands { Stands H.asked p.now b.now.level (E.pre b.now.expr) (E.post b.now.expr)
        (M.pre b.now.multi) (M.post b.now.multi) (C.pre b.now.call) (C.post b.now.call)
        (S.pre b.now.stmt) (S.post b.now.stmt) }
    requires fits { Fits f.now m.old.stack }
    requires above { f.now.base + f.now.size ≤ at }
    requires within { at ≤ length m.old.stack.values }
    ensures { FlowOf H.asked (in_turn p.now (level p.now b.now.level) rs.now (drop at
        m.old.stack.values) body.now (frame f.now m.old.stack) (world m.old))
        (record m.old { stack = cut at m.old.stack }) f.now result m.new }
{
    match m.tick() {
        Done::Well => {}
        Done::Failed => return FlowTag::Fails,
    }
    match declare_all(m, p, f, rs, at) {
        Done::Well => block(b, m, p, f, body),
        Done::Failed => FlowTag::Fails,
    }
}

/// The turns. They end where the first value of a call is nil.
#[inline(never)]
pub fn in_turns<H, E, M, C, S>(
    b: &Below<H, E, M, C, S>,
    m: &mut Machine<H>,
    p: &Loaded,
    f: &Window,
    rs: &[Ref],
    go: Value,
    state: Value,
    control: Value,
    body: &[RStat],
) -> FlowTag
where
    H: Host,
    E: Fn(&mut Machine<H>, &Loaded, &Window, &RExpr, u32) -> Done + Copy,
    M: Fn(&mut Machine<H>, &Loaded, &Window, &RExpr, u32) -> Got + Copy,
    C: Fn(&mut Machine<H>, &Loaded, Site, usize, u32) -> Got + Copy,
    S: Fn(&mut Machine<H>, &Loaded, &Window, &RStat, u32) -> FlowTag + Copy,
    requires stands { Stands H.asked p.now b.now.level (E.pre b.now.expr) (E.post b.now.expr)
        (M.pre b.now.multi) (M.post b.now.multi) (C.pre b.now.call) (C.post b.now.call)
        (S.pre b.now.stmt) (S.post b.now.stmt) }
    requires fits { Fits f.now m.old.stack }
    ensures { FlowOf H.asked (in_turns p.now (level p.now b.now.level) m.old.left go state control
        rs.now body.now (frame f.now m.old.stack) (world m.old)) m.old f.now result m.new }
{
    let at = m.stack.len();
    let mut before = control;
    for turned in 0..m.left {
        match next_values(b, m, p, f, go, state, before) {
            Done::Well => {}
            Done::Failed => return FlowTag::Fails,
        }
        before = value_at(m, at, 0);
        if before.is_nil() {
            m.stack.cut(at);
            return FlowTag::Goes;
        }
        match in_turn(b, m, p, f, rs, at, body) {
            FlowTag::Goes => {}
            FlowTag::Breaks => return FlowTag::Goes,
            other => return other,
        }
    }
    m.spend();
    FlowTag::Fails
}
