//! The `if` statement (Lua 5.4 manual, section 3.3.4).
ghost use Rattle.lua_meaning.specs.Levels.{level};
ghost use Rattle.lua_meaning.specs.Statements.{otherwise, branches};
ghost use Rattle.lua_machine.specs.Does.{Fits, FlowOf, Stands, frame, world};

use crate::blocks::block;
use crate::conditions::test;
use lanes_arena::Row;
use lua_machine::{Below, Done, FlowTag, Got, Host, Loaded, Machine, Test, Window};
use lua_meaning::Site;
use lua_program::{RBranch, RExpr, RStat};

/// The statements of `else`, where it has some.
fn otherwise<H, E, M, C, S>(
    b: &Below<H, E, M, C, S>,
    m: &mut Machine<H>,
    p: &Loaded,
    f: &Window,
    last: &Option<Row<RStat>>,
) -> FlowTag
where
    H: Host,
    E: Fn(&mut Machine<H>, &Loaded, &Window, &RExpr, u32) -> Done + Copy,
    M: Fn(&mut Machine<H>, &Loaded, &Window, &RExpr, u32) -> Got + Copy,
    C: Fn(&mut Machine<H>, &Loaded, Site, usize, u32) -> Got + Copy,
    S: Fn(&mut Machine<H>, &Loaded, &Window, &RStat, u32) -> FlowTag + Copy,
    requires stands { Stands H.asked p.now b.now.level (E.pre b.now.expr) (E.post b.now.expr)
        (M.pre b.now.multi) (M.post b.now.multi) (C.pre b.now.call) (C.post b.now.call)
        (S.pre b.now.stmt) (S.post b.now.stmt) }
    requires fits { Fits f.now m.old.stack }
    ensures { FlowOf H.asked (otherwise p.now (level p.now b.now.level) last.now (frame f.now
        m.old.stack) (world m.old)) m.old f.now result m.new }
{
    match last {
        Some(ss) => block(b, m, p, f, ss.as_slice()),
        None => FlowTag::Goes,
    }
}

/// The first branch whose condition is true, or `else`.
#[inline(never)]
pub fn branches<H, E, M, C, S>(
    b: &Below<H, E, M, C, S>,
    m: &mut Machine<H>,
    p: &Loaded,
    f: &Window,
    bs: &[RBranch],
    last: &Option<Row<RStat>>,
) -> FlowTag
where
    H: Host,
    E: Fn(&mut Machine<H>, &Loaded, &Window, &RExpr, u32) -> Done + Copy,
    M: Fn(&mut Machine<H>, &Loaded, &Window, &RExpr, u32) -> Got + Copy,
    C: Fn(&mut Machine<H>, &Loaded, Site, usize, u32) -> Got + Copy,
    S: Fn(&mut Machine<H>, &Loaded, &Window, &RStat, u32) -> FlowTag + Copy,
    requires stands { Stands H.asked p.now b.now.level (E.pre b.now.expr) (E.post b.now.expr)
        (M.pre b.now.multi) (M.post b.now.multi) (C.pre b.now.call) (C.post b.now.call)
        (S.pre b.now.stmt) (S.post b.now.stmt) }
    requires fits { Fits f.now m.old.stack }
    ensures { FlowOf H.asked (branches p.now (level p.now b.now.level) bs.now last.now (frame f.now
        m.old.stack) (world m.old)) m.old f.now result m.new }
{
    for branch in bs {
        match test(b, m, p, f, &branch.condition) {
            Test::Yes => return block(b, m, p, f, branch.block.as_slice()),
            Test::No => {}
            Test::Failed => return FlowTag::Fails,
        }
    }
    otherwise(b, m, p, f, last)
}
