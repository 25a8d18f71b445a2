//! The numeric `for` (Lua 5.4 manual, section 3.3.5): the number of turns is fixed before the
//! first.
ghost use Rattle.std.specs.Prelude.{◌≡◌, ◌≢◌, ◌<◌, pos};
ghost use Rattle.object_store.specs.declared.value.Value.TheVariants as V;
ghost use Rattle.object_store.specs.declared.fault.LuaFault.TheVariants as lua;
ghost use Rattle.lua_meaning.specs.Levels.{level};
ghost use Rattle.lua_meaning.specs.Statements.{steps_between, more_turns, for_turn, for_turns, for_on, for_step, numeric_for};
ghost use Rattle.lua_machine.specs.Failing.{FailingAt};
ghost use Rattle.lua_machine.specs.Does.{Fits, FlowOf, OneOf, Stands, frame, world};

use crate::blocks::block;
use int_ops::add;
use lua_machine::{Below, Done, FlowTag, Got, Host, Loaded, Machine, Window};
use lua_meaning::Site;
use lua_program::{RExpr, RStat, Ref};
use object_store::{LuaFault, Value};
use sqlite_items::Boxed;

/// The numbers of a loop: the first one, the step between them, and how many follow the first.
#[derive(Clone, Copy)]
pub struct Count {
    pub start: i64,
    pub step: i64,
    pub more: u64,
}

impl Count {
    ghost use Rattle.std.specs.Prelude.{◌-◌, ◌+ℤ◌};
    ghost use Rattle.int_ops.specs.Wrapping.{wrapped};

    /// The numbers without the first.
    #[inline(always)]
    fn rest(self) -> Count
        requires { 0 < self.more }
        ensures { result ≡ record {
          start = wrapped (self.start +ℤ self.step);
          step =
              self.step;
          more = self.more - 1;
        } }
    {
        Count {
            start: add(self.start, self.step),
            step: self.step,
            more: self.more - 1,
        }
    }
}

/// How many turns follow the first, from the lower of two numbers to the higher; none where there
/// is no first.
fn steps_between(low: i64, high: i64, size: u64) -> Option<u64>
    requires { 0 < size }
    ensures { result ≡ steps_between low high size }
{
    if high < low {
        return None;
    }
    Some(high.abs_diff(low) / size)
}

/// How many turns follow the first; none where there is no first.
fn more_turns(start: i64, limit: i64, step: i64) -> Option<u64>
    requires { step ≢ pos 0 }
    ensures { result ≡ more_turns start limit step }
{
    if step < 0 {
        return steps_between(limit, start, step.unsigned_abs());
    }
    steps_between(start, limit, step.unsigned_abs())
}

/// One turn, for the first of the numbers. Each turn has a fresh local.
#[inline(always)]
fn for_turn<H, E, M, C, S>(
    b: &Below<H, E, M, C, S>,
    m: &mut Machine<H>,
    p: &Loaded,
    f: &Window,
    count: Count,
    r: &Ref,
    body: &[RStat],
) -> FlowTag
where
    H: Host,
    E: Fn(&mut Machine<H>, &Loaded, &Window, &RExpr, u32) -> Done + Copy,
    M: Fn(&mut Machine<H>, &Loaded, &Window, &RExpr, u32) -> Got + Copy,
    C: Fn(&mut Machine<H>, &Loaded, Site, usize, u32) -> Got + Copy,
    S: Fn(&mut Machine<H>, &Loaded, &Window, &RStat, u32) -> FlowTag + Copy,
    requires stands { Stands H.asked p.now b.now.level (E.pre b.now.expr) (E.post b.now.expr)
        (M.pre b.now.multi) (M.post b.now.multi) (C.pre b.now.call) (C.post b.now.call)
        (S.pre b.now.stmt) (S.post b.now.stmt) }
    requires fits { Fits f.now m.old.stack }
    ensures { FlowOf H.asked (for_turn p.now (level p.now b.now.level) r.now (V.Int count.start)
        body.now (frame f.now m.old.stack) (world m.old)) m.old f.now result m.new }
{
    match m.tick() {
        Done::Well => {}
        Done::Failed => return FlowTag::Fails,
    }
    m.value = Value::Int(count.start);
    match m.declare(p, f, r) {
        Done::Well => block(b, m, p, f, body),
        Done::Failed => FlowTag::Fails,
    }
}

/// The turns.
#[inline(never)]
pub fn for_turns<H, E, M, C, S>(
    b: &Below<H, E, M, C, S>,
    m: &mut Machine<H>,
    p: &Loaded,
    f: &Window,
    count: Count,
    r: &Ref,
    body: &[RStat],
) -> FlowTag
where
    H: Host,
    E: Fn(&mut Machine<H>, &Loaded, &Window, &RExpr, u32) -> Done + Copy,
    M: Fn(&mut Machine<H>, &Loaded, &Window, &RExpr, u32) -> Got + Copy,
    C: Fn(&mut Machine<H>, &Loaded, Site, usize, u32) -> Got + Copy,
    S: Fn(&mut Machine<H>, &Loaded, &Window, &RStat, u32) -> FlowTag + Copy,
    requires stands { Stands H.asked p.now b.now.level (E.pre b.now.expr) (E.post b.now.expr)
        (M.pre b.now.multi) (M.post b.now.multi) (C.pre b.now.call) (C.post b.now.call)
        (S.pre b.now.stmt) (S.post b.now.stmt) }
    requires fits { Fits f.now m.old.stack }
    ensures { FlowOf H.asked (for_turns p.now (level p.now b.now.level) m.old.left count.more
        count.start count.step r.now body.now (frame f.now m.old.stack)
        (world m.old)) m.old f.now result m.new }
{
    let mut now = count;
    for turned in 0..m.left {
        match for_turn(b, m, p, f, now, r, body) {
            FlowTag::Goes => {}
            FlowTag::Breaks => return FlowTag::Goes,
            other => return other,
        }
        if now.more == 0 {
            return FlowTag::Goes;
        }
        now = now.rest();
    }
    m.spend();
    FlowTag::Fails
}

/// A value that is no integer.
#[cold]
fn not_integer<H: Host>(m: &mut Machine<H>, p: &Loaded) -> FlowTag
    ensures tag { result ≡ FlowTag.Fails }
    ensures fault { FailingAt p.now 0 lua.NotInteger m.old m.new }
{
    m.fault_at(p, 0, LuaFault::NotInteger);
    FlowTag::Fails
}

/// A loop over the numbers from a start to a limit by a step. The faults have no position.
pub fn for_on<H, E, M, C, S>(
    b: &Below<H, E, M, C, S>,
    m: &mut Machine<H>,
    p: &Loaded,
    f: &Window,
    start: Value,
    limit: Value,
    step: Value,
    r: &Ref,
    body: &[RStat],
) -> FlowTag
where
    H: Host,
    E: Fn(&mut Machine<H>, &Loaded, &Window, &RExpr, u32) -> Done + Copy,
    M: Fn(&mut Machine<H>, &Loaded, &Window, &RExpr, u32) -> Got + Copy,
    C: Fn(&mut Machine<H>, &Loaded, Site, usize, u32) -> Got + Copy,
    S: Fn(&mut Machine<H>, &Loaded, &Window, &RStat, u32) -> FlowTag + Copy,
    requires stands { Stands H.asked p.now b.now.level (E.pre b.now.expr) (E.post b.now.expr)
        (M.pre b.now.multi) (M.post b.now.multi) (C.pre b.now.call) (C.post b.now.call)
        (S.pre b.now.stmt) (S.post b.now.stmt) }
    requires fits { Fits f.now m.old.stack }
    ensures { FlowOf H.asked (for_on p.now (level p.now b.now.level) start limit step r.now body.now
        (frame f.now m.old.stack) (world m.old)) m.old f.now result m.new }
{
    let Value::Int(start) = start else {
        return not_integer(m, p);
    };
    let Value::Int(limit) = limit else {
        return not_integer(m, p);
    };
    let Value::Int(step) = step else {
        return not_integer(m, p);
    };
    if step == 0 {
        m.fault_at(p, 0, LuaFault::ZeroStep);
        return FlowTag::Fails;
    }
    match more_turns(start, limit, step) {
        Some(more) => for_turns(b, m, p, f, Count { start, step, more }, r, body),
        None => FlowTag::Goes,
    }
}

/// The step, 1 where there is none.
fn for_step<H, E, M, C, S>(
    b: &Below<H, E, M, C, S>,
    m: &mut Machine<H>,
    p: &Loaded,
    f: &Window,
    step: &Option<Boxed<RExpr>>,
) -> Done
where
    H: Host,
    E: Fn(&mut Machine<H>, &Loaded, &Window, &RExpr, u32) -> Done + Copy,
    M: Fn(&mut Machine<H>, &Loaded, &Window, &RExpr, u32) -> Got + Copy,
    C: Fn(&mut Machine<H>, &Loaded, Site, usize, u32) -> Got + Copy,
    S: Fn(&mut Machine<H>, &Loaded, &Window, &RStat, u32) -> FlowTag + Copy,
    requires stands { Stands H.asked p.now b.now.level (E.pre b.now.expr) (E.post b.now.expr)
        (M.pre b.now.multi) (M.post b.now.multi) (C.pre b.now.call) (C.post b.now.call)
        (S.pre b.now.stmt) (S.post b.now.stmt) }
    requires fits { Fits f.now m.old.stack }
    ensures { OneOf H.asked (for_step p.now (level p.now b.now.level) step.now (frame f.now
        m.old.stack) (world m.old)) m.old result m.new }
{
    match step {
        Some(e) => b.one(m, p, f, e.get()),
        None => {
            m.value = Value::Int(1);
            Done::Well
        }
    }
}

/// A numeric `for`.
#[inline(never)]
pub fn numeric_for<H, E, M, C, S>(
    b: &Below<H, E, M, C, S>,
    m: &mut Machine<H>,
    p: &Loaded,
    f: &Window,
    r: &Ref,
    start: &RExpr,
    limit: &RExpr,
    step: &Option<Boxed<RExpr>>,
    body: &[RStat],
) -> FlowTag
where
    H: Host,
    E: Fn(&mut Machine<H>, &Loaded, &Window, &RExpr, u32) -> Done + Copy,
    M: Fn(&mut Machine<H>, &Loaded, &Window, &RExpr, u32) -> Got + Copy,
    C: Fn(&mut Machine<H>, &Loaded, Site, usize, u32) -> Got + Copy,
    S: Fn(&mut Machine<H>, &Loaded, &Window, &RStat, u32) -> FlowTag + Copy,
    requires stands { Stands H.asked p.now b.now.level (E.pre b.now.expr) (E.post b.now.expr)
        (M.pre b.now.multi) (M.post b.now.multi) (C.pre b.now.call) (C.post b.now.call)
        (S.pre b.now.stmt) (S.post b.now.stmt) }
    requires fits { Fits f.now m.old.stack }
    ensures { FlowOf H.asked (numeric_for p.now (level p.now b.now.level) r.now start.now limit.now
        step.now body.now (frame f.now m.old.stack) (world m.old)) m.old f.now result m.new }
{
    match b.one(m, p, f, start) {
        Done::Well => {}
        Done::Failed => return FlowTag::Fails,
    }
    let start = m.value;
    match b.one(m, p, f, limit) {
        Done::Well => {}
        Done::Failed => return FlowTag::Fails,
    }
    let limit = m.value;
    match for_step(b, m, p, f, step) {
        Done::Well => {}
        Done::Failed => return FlowTag::Fails,
    }
    let step = m.value;
    for_on(b, m, p, f, start, limit, step, r, body)
}
