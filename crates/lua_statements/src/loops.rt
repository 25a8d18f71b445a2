//! Loops with a condition (Lua 5.4 manual, section 3.3.4).
ghost use Rattle.lua_meaning.specs.Levels.{level};
ghost use Rattle.lua_meaning.specs.Statements.{turn, while_turns, repeat_turns};
ghost use Rattle.lua_machine.specs.Does.{Fits, FlowOf, Stands, frame, world};

use crate::blocks::block;
use crate::conditions::test;
use lua_machine::{Below, Done, FlowTag, Got, Host, Loaded, Machine, Test, Window};
use lua_meaning::Site;
use lua_program::{RExpr, RStat};

/// One turn: a step, and the body.
#[inline(always)]
fn turn<H, E, M, C, S>(
    b: &Below<H, E, M, C, S>,
    m: &mut Machine<H>,
    p: &Loaded,
    f: &Window,
    body: &[RStat],
) -> FlowTag
where
    H: Host,
    E: Fn(&mut Machine<H>, &Loaded, &Window, &RExpr, u32) -> Done + Copy,
    M: Fn(&mut Machine<H>, &Loaded, &Window, &RExpr, u32) -> Got + Copy,
    C: Fn(&mut Machine<H>, &Loaded, Site, usize, u32) -> Got + Copy,
    S: Fn(&mut Machine<H>, &Loaded, &Window, &RStat, u32) -> FlowTag + Copy,
    requires stands { Stands H.asked p.now b.now.level (E.pre b.now.expr) (E.post b.now.expr)
        (M.pre b.now.multi) (M.post b.now.multi) (C.pre b.now.call) (C.post b.now.call)
        (S.pre b.now.stmt) (S.post b.now.stmt) }
    requires fits { Fits f.now m.old.stack }
    ensures { FlowOf H.asked (turn (level p.now b.now.level) body.now (frame f.now m.old.stack)
        (world m.old)) m.old f.now result m.new }
{
    match m.tick() {
        Done::Well => block(b, m, p, f, body),
        Done::Failed => FlowTag::Fails,
    }
}

/// The turns of a `while` loop.
#[inline(never)]
pub fn while_turns<H, E, M, C, S>(
    b: &Below<H, E, M, C, S>,
    m: &mut Machine<H>,
    p: &Loaded,
    f: &Window,
    e: &RExpr,
    body: &[RStat],
) -> FlowTag
where
    H: Host,
    E: Fn(&mut Machine<H>, &Loaded, &Window, &RExpr, u32) -> Done + Copy,
    M: Fn(&mut Machine<H>, &Loaded, &Window, &RExpr, u32) -> Got + Copy,
    C: Fn(&mut Machine<H>, &Loaded, Site, usize, u32) -> Got + Copy,
    S: Fn(&mut Machine<H>, &Loaded, &Window, &RStat, u32) -> FlowTag + Copy,
    requires stands { Stands H.asked p.now b.now.level (E.pre b.now.expr) (E.post b.now.expr)
        (M.pre b.now.multi) (M.post b.now.multi) (C.pre b.now.call) (C.post b.now.call)
        (S.pre b.now.stmt) (S.post b.now.stmt) }
    requires fits { Fits f.now m.old.stack }
    ensures { FlowOf H.asked (while_turns (level p.now b.now.level) m.old.left e.now body.now (frame
        f.now m.old.stack) (world m.old)) m.old f.now result m.new }
{
    for turned in 0..m.left {
        match test(b, m, p, f, e) {
            Test::Yes => {}
            Test::No => return FlowTag::Goes,
            Test::Failed => return FlowTag::Fails,
        }
        match turn(b, m, p, f, body) {
            FlowTag::Goes => {}
            FlowTag::Breaks => return FlowTag::Goes,
            other => return other,
        }
    }
    m.spend();
    FlowTag::Fails
}

/// The turns of a `repeat` loop. The condition sees the locals of the body.
#[inline(never)]
pub fn repeat_turns<H, E, M, C, S>(
    b: &Below<H, E, M, C, S>,
    m: &mut Machine<H>,
    p: &Loaded,
    f: &Window,
    body: &[RStat],
    e: &RExpr,
) -> FlowTag
where
    H: Host,
    E: Fn(&mut Machine<H>, &Loaded, &Window, &RExpr, u32) -> Done + Copy,
    M: Fn(&mut Machine<H>, &Loaded, &Window, &RExpr, u32) -> Got + Copy,
    C: Fn(&mut Machine<H>, &Loaded, Site, usize, u32) -> Got + Copy,
    S: Fn(&mut Machine<H>, &Loaded, &Window, &RStat, u32) -> FlowTag + Copy,
    requires stands { Stands H.asked p.now b.now.level (E.pre b.now.expr) (E.post b.now.expr)
        (M.pre b.now.multi) (M.post b.now.multi) (C.pre b.now.call) (C.post b.now.call)
        (S.pre b.now.stmt) (S.post b.now.stmt) }
    requires fits { Fits f.now m.old.stack }
    ensures { FlowOf H.asked (repeat_turns (level p.now b.now.level) m.old.left e.now body.now
        (frame f.now m.old.stack) (world m.old)) m.old f.now result m.new }
{
    for turned in 0..m.left {
        match turn(b, m, p, f, body) {
            FlowTag::Goes => {}
            FlowTag::Breaks => return FlowTag::Goes,
            other => return other,
        }
        match test(b, m, p, f, e) {
            Test::Yes => return FlowTag::Goes,
            Test::No => {}
            Test::Failed => return FlowTag::Fails,
        }
    }
    m.spend();
    FlowTag::Fails
}
