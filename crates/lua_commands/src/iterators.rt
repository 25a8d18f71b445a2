//! The values of a generic `for` (Lua 5.4 manual, section 3.3.5).
ghost use Rattle.lua_meaning.specs.Levels.{level};
ghost use Rattle.lua_meaning.specs.Statements.{generic_for};
ghost use Rattle.lua_machine.specs.Does.{Fits, FlowOf, Stands, frame, world};

use lua_lists::exactly;
use lua_machine::{Below, Done, FlowTag, Got, Host, Loaded, Machine, Window};
use lua_meaning::Site;
use lua_program::{RExpr, RStat, Ref};
use lua_statements::{in_turns, value_at};

/// A generic `for`: the function, the state and the first value before, then the turns.
#[inline(never)]
pub fn generic_for<H, E, M, C, S>(
    b: &Below<H, E, M, C, S>,
    m: &mut Machine<H>,
    p: &Loaded,
    f: &Window,
    rs: &[Ref],
    es: &[RExpr],
    body: &[RStat],
) -> FlowTag
where
    H: Host,
    E: Fn(&mut Machine<H>, &Loaded, &Window, &RExpr, u32) -> Done + Copy,
    M: Fn(&mut Machine<H>, &Loaded, &Window, &RExpr, u32) -> Got + Copy,
    C: Fn(&mut Machine<H>, &Loaded, Site, usize, u32) -> Got + Copy,
    S: Fn(&mut Machine<H>, &Loaded, &Window, &RStat, u32) -> FlowTag + Copy,
    requires stands { Stands H.asked p.now b.now.level (E.pre b.now.expr) (E.post b.now.expr)
        (M.pre b.now.multi) (M.post b.now.multi) (C.pre b.now.call) (C.post b.now.call)
        (S.pre b.now.stmt) (S.post b.now.stmt) }
    requires fits { Fits f.now m.old.stack }
    ensures { FlowOf H.asked (generic_for p.now (level p.now b.now.level) rs.now es.now body.now
        (frame f.now m.old.stack) (world m.old)) m.old f.now result m.new }
{
    let at = m.stack.len();
    match exactly(b, m, p, f, es, 3) {
        Done::Well => {}
        Done::Failed => return FlowTag::Fails,
    }
    let go = value_at(m, at, 0);
    let state = value_at(m, at, 1);
    let control = value_at(m, at, 2);
    m.stack.cut(at);
    in_turns(b, m, p, f, rs, go, state, control, body)
}
