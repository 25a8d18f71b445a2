//! Blocks (Lua 5.4 manual, sections 3.3.1 and 3.3.4).
ghost use Rattle.std.specs.Prelude.{◌≡◌, ◌≤◌, drop, suc, Ok};
ghost use Rattle.lua_meaning.specs.Level.{Jumps};
ghost use Rattle.lua_meaning.specs.Levels.{level};
ghost use Rattle.lua_meaning.specs.Statements.{block};
ghost use Rattle.lua_machine.specs.Does.{Fits, FlowOf, Stands, frame, locals, world};
ghost use Rattle.lua_statements.specs.Blocks.{SequenceOf, landed};

use lua_machine::{Below, Done, FlowTag, Got, Host, Loaded, Machine, Window};
use lua_meaning::Site;
use lua_program::{RExpr, RStat};

/// Statements one after another, until one doesn't go on.
#[inline(always)]
fn sequence<H, E, M, C, S>(
    b: &Below<H, E, M, C, S>,
    m: &mut Machine<H>,
    p: &Loaded,
    f: &Window,
    ss: &[RStat],
) -> FlowTag
where
    H: Host,
    E: Fn(&mut Machine<H>, &Loaded, &Window, &RExpr, u32) -> Done + Copy,
    M: Fn(&mut Machine<H>, &Loaded, &Window, &RExpr, u32) -> Got + Copy,
    C: Fn(&mut Machine<H>, &Loaded, Site, usize, u32) -> Got + Copy,
    S: Fn(&mut Machine<H>, &Loaded, &Window, &RStat, u32) -> FlowTag + Copy,
    requires stands { Stands H.asked p.now b.now.level (E.pre b.now.expr) (E.post b.now.expr)
        (M.pre b.now.multi) (M.post b.now.multi) (C.pre b.now.call) (C.post b.now.call)
        (S.pre b.now.stmt) (S.post b.now.stmt) }
    requires fits { Fits f.now m.old.stack }
    ensures { SequenceOf H.asked (level p.now b.now.level) ss.now m.old f.now result m.new }
{
    for s in ss {
        match b.step(m, p, f, s) {
            FlowTag::Goes => {}
            FlowTag::Breaks => return FlowTag::Breaks,
            FlowTag::Jumps => return FlowTag::Jumps,
            FlowTag::ReturnsOne => return FlowTag::ReturnsOne,
            FlowTag::ReturnsMany => return FlowTag::ReturnsMany,
            FlowTag::Fails => return FlowTag::Fails,
        }
    }
    FlowTag::Goes
}

/// The statements after that of this number, none where there are no more.
fn past(ss: &[RStat], n: u32) -> &[RStat]
    ensures { result.now ≡ drop (suc n) ss.now }
{
    let first = n as usize + 1;
    if first < ss.len() {
        return &ss[first..];
    }
    &ss[..0]
}

/// Goes on after a goto. One to a label of this block goes on after the label; any other leaves
/// this block.
#[cold]
#[inline(never)]
fn after_jump<H, E, M, C, S>(
    b: &Below<H, E, M, C, S>,
    m: &mut Machine<H>,
    p: &Loaded,
    f: &Window,
    ss: &[RStat],
) -> FlowTag
where
    H: Host,
    E: Fn(&mut Machine<H>, &Loaded, &Window, &RExpr, u32) -> Done + Copy,
    M: Fn(&mut Machine<H>, &Loaded, &Window, &RExpr, u32) -> Got + Copy,
    C: Fn(&mut Machine<H>, &Loaded, Site, usize, u32) -> Got + Copy,
    S: Fn(&mut Machine<H>, &Loaded, &Window, &RStat, u32) -> FlowTag + Copy,
    requires stands { Stands H.asked p.now b.now.level (E.pre b.now.expr) (E.post b.now.expr)
        (M.pre b.now.multi) (M.post b.now.multi) (C.pre b.now.call) (C.post b.now.call)
        (S.pre b.now.stmt) (S.post b.now.stmt) }
    requires fits { Fits f.now m.old.stack }
    ensures { FlowOf H.asked (landed (level p.now b.now.level) ss.now (frame f.now m.old.stack)
        (Ok (Jumps m.old.leaves m.old.statement (locals f.now m.old.stack)))
        (world m.old)) m.old f.now result m.new }
{
    if m.leaves > 0 {
        m.leaves -= 1;
        return FlowTag::Jumps;
    }
    for turn in 0..m.left {
        match sequence(b, m, p, f, past(ss, m.statement)) {
            FlowTag::Goes => return FlowTag::Goes,
            FlowTag::Breaks => return FlowTag::Breaks,
            FlowTag::Jumps => {
                if m.leaves > 0 {
                    m.leaves -= 1;
                    return FlowTag::Jumps;
                }
            }
            FlowTag::ReturnsOne => return FlowTag::ReturnsOne,
            FlowTag::ReturnsMany => return FlowTag::ReturnsMany,
            FlowTag::Fails => return FlowTag::Fails,
        }
    }
    m.spend();
    FlowTag::Fails
}

/// A block.
#[inline]
pub fn block<H, E, M, C, S>(
    b: &Below<H, E, M, C, S>,
    m: &mut Machine<H>,
    p: &Loaded,
    f: &Window,
    ss: &[RStat],
) -> FlowTag
where
    H: Host,
    E: Fn(&mut Machine<H>, &Loaded, &Window, &RExpr, u32) -> Done + Copy,
    M: Fn(&mut Machine<H>, &Loaded, &Window, &RExpr, u32) -> Got + Copy,
    C: Fn(&mut Machine<H>, &Loaded, Site, usize, u32) -> Got + Copy,
    S: Fn(&mut Machine<H>, &Loaded, &Window, &RStat, u32) -> FlowTag + Copy,
    requires stands { Stands H.asked p.now b.now.level (E.pre b.now.expr) (E.post b.now.expr)
        (M.pre b.now.multi) (M.post b.now.multi) (C.pre b.now.call) (C.post b.now.call)
        (S.pre b.now.stmt) (S.post b.now.stmt) }
    requires fits { Fits f.now m.old.stack }
    ensures { FlowOf H.asked (block (level p.now b.now.level) ss.now (frame f.now m.old.stack)
        (world m.old)) m.old f.now result m.new }
{
    match sequence(b, m, p, f, ss) {
        FlowTag::Goes => FlowTag::Goes,
        FlowTag::Breaks => FlowTag::Breaks,
        FlowTag::Jumps => after_jump(b, m, p, f, ss),
        FlowTag::ReturnsOne => FlowTag::ReturnsOne,
        FlowTag::ReturnsMany => FlowTag::ReturnsMany,
        FlowTag::Fails => FlowTag::Fails,
    }
}
