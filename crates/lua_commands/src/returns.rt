//! The `return` statement (Lua 5.4 manual, section 3.3.4).
ghost use Rattle.lua_meaning.specs.Levels.{level};
ghost use Rattle.lua_meaning.specs.Statements.{return};
ghost use Rattle.lua_machine.specs.Does.{Fits, FlowOf, Stands, frame, world};
ghost use Rattle.lua_commands.specs.Assigned.{returned_one};

use lua_lists::{limited, list};
use lua_machine::{Below, Done, FlowTag, Got, Host, Loaded, Machine, Window};
use lua_meaning::Site;
use lua_program::{RExpr, RStat};

/// The values of one expression.
#[inline]
fn give_one<H, E, M, C, S>(
    b: &Below<H, E, M, C, S>,
    m: &mut Machine<H>,
    p: &Loaded,
    f: &Window,
    e: &RExpr,
) -> FlowTag
where
    H: Host,
    E: Fn(&mut Machine<H>, &Loaded, &Window, &RExpr, u32) -> Done + Copy,
    M: Fn(&mut Machine<H>, &Loaded, &Window, &RExpr, u32) -> Got + Copy,
    C: Fn(&mut Machine<H>, &Loaded, Site, usize, u32) -> Got + Copy,
    S: Fn(&mut Machine<H>, &Loaded, &Window, &RStat, u32) -> FlowTag + Copy,
    requires stands { Stands H.asked p.now b.now.level (E.pre b.now.expr) (E.post b.now.expr)
        (M.pre b.now.multi) (M.post b.now.multi) (C.pre b.now.call) (C.post b.now.call)
        (S.pre b.now.stmt) (S.post b.now.stmt) }
    requires fits { Fits f.now m.old.stack }
    ensures { FlowOf H.asked (returned_one p.now (level p.now b.now.level) (frame f.now m.old.stack)
        e.now (world m.old)) m.old f.now result m.new }
{
    let at = m.stack.len();
    match b.many(m, p, f, e) {
        Got::One => FlowTag::ReturnsOne,
        Got::Many => match limited(m, p, 0, at) {
            Done::Well => FlowTag::ReturnsMany,
            Done::Failed => FlowTag::Fails,
        },
        Got::Failed => FlowTag::Fails,
    }
}

/// The values of any number of expressions.
#[inline(never)]
fn give_all<H, E, M, C, S>(
    b: &Below<H, E, M, C, S>,
    m: &mut Machine<H>,
    p: &Loaded,
    f: &Window,
    es: &[RExpr],
) -> FlowTag
where
    H: Host,
    E: Fn(&mut Machine<H>, &Loaded, &Window, &RExpr, u32) -> Done + Copy,
    M: Fn(&mut Machine<H>, &Loaded, &Window, &RExpr, u32) -> Got + Copy,
    C: Fn(&mut Machine<H>, &Loaded, Site, usize, u32) -> Got + Copy,
    S: Fn(&mut Machine<H>, &Loaded, &Window, &RStat, u32) -> FlowTag + Copy,
    requires stands { Stands H.asked p.now b.now.level (E.pre b.now.expr) (E.post b.now.expr)
        (M.pre b.now.multi) (M.post b.now.multi) (C.pre b.now.call) (C.post b.now.call)
        (S.pre b.now.stmt) (S.post b.now.stmt) }
    requires fits { Fits f.now m.old.stack }
    ensures { FlowOf H.asked (return p.now (level p.now b.now.level) es.now (frame f.now
        m.old.stack) (world m.old)) m.old f.now result m.new }
{
    let at = m.stack.len();
    match list(b, m, p, f, es, at) {
        Done::Well => {}
        Done::Failed => return FlowTag::Fails,
    }
    match limited(m, p, 0, at) {
        Done::Well => FlowTag::ReturnsMany,
        Done::Failed => FlowTag::Fails,
    }
}

/// The values of a list are returned. Too many of them are a fault without a position.
#[inline]
pub fn give_back<H, E, M, C, S>(
    b: &Below<H, E, M, C, S>,
    m: &mut Machine<H>,
    p: &Loaded,
    f: &Window,
    es: &[RExpr],
) -> FlowTag
where
    H: Host,
    E: Fn(&mut Machine<H>, &Loaded, &Window, &RExpr, u32) -> Done + Copy,
    M: Fn(&mut Machine<H>, &Loaded, &Window, &RExpr, u32) -> Got + Copy,
    C: Fn(&mut Machine<H>, &Loaded, Site, usize, u32) -> Got + Copy,
    S: Fn(&mut Machine<H>, &Loaded, &Window, &RStat, u32) -> FlowTag + Copy,
    requires stands { Stands H.asked p.now b.now.level (E.pre b.now.expr) (E.post b.now.expr)
        (M.pre b.now.multi) (M.post b.now.multi) (C.pre b.now.call) (C.post b.now.call)
        (S.pre b.now.stmt) (S.post b.now.stmt) }
    requires fits { Fits f.now m.old.stack }
    ensures { FlowOf H.asked (return p.now (level p.now b.now.level) es.now (frame f.now
        m.old.stack) (world m.old)) m.old f.now result m.new }
{
    if es.len() == 1 {
        return give_one(b, m, p, f, &es[0]);
    }
    give_all(b, m, p, f, es)
}
