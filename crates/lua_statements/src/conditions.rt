//! Conditions (Lua 5.4 manual, section 3.3.4).
ghost use Rattle.std.specs.Prelude.{true, false};
ghost use Rattle.lua_program.specs.declared.expr.RPair.{out-RPair};
ghost use Rattle.lua_meaning.specs.Levels.{level};
ghost use Rattle.lua_meaning.specs.Statements.{tested};
ghost use Rattle.lua_machine.specs.Does.{Fits, Stands, TestOf, frame, world};
ghost use Rattle.lua_statements.specs.Conditions.{operator_tested, either_tested};

use lua_machine::{Below, Done, FlowTag, Got, Host, Loaded, Machine, Test, Window};
use lua_meaning::Site;
use lua_operands::binary;
use lua_program::{RExpr, RExprKind, RPair, RStat};
use lua_tree::Binary;

/// A condition of any form.
#[tactic(auto, unfolding(lua_meaning::specs::Statements::tested))]
#[inline(never)]
fn any_test<H, E, M, C, S>(
    b: &Below<H, E, M, C, S>,
    m: &mut Machine<H>,
    p: &Loaded,
    f: &Window,
    e: &RExpr,
) -> Test
where
    H: Host,
    E: Fn(&mut Machine<H>, &Loaded, &Window, &RExpr, u32) -> Done + Copy,
    M: Fn(&mut Machine<H>, &Loaded, &Window, &RExpr, u32) -> Got + Copy,
    C: Fn(&mut Machine<H>, &Loaded, Site, usize, u32) -> Got + Copy,
    S: Fn(&mut Machine<H>, &Loaded, &Window, &RStat, u32) -> FlowTag + Copy,
    requires stands { Stands H.asked p.now b.now.level (E.pre b.now.expr) (E.post b.now.expr)
        (M.pre b.now.multi) (M.post b.now.multi) (C.pre b.now.call) (C.post b.now.call)
        (S.pre b.now.stmt) (S.post b.now.stmt) }
    requires fits { Fits f.now m.old.stack }
    ensures { TestOf H.asked (tested (level p.now b.now.level) e.now (frame f.now m.old.stack)
        (world m.old)) m.old result m.new }
{
    match b.one(m, p, f, e) {
        Done::Well => m.judge(),
        Done::Failed => Test::Failed,
    }
}

/// Whether an operator of two operands gives a true value.
#[inline(always)]
fn operator_test<H, E, M, C, S>(
    b: &Below<H, E, M, C, S>,
    m: &mut Machine<H>,
    p: &Loaded,
    f: &Window,
    line: u32,
    op: Binary,
    pair: &RPair,
) -> Test
where
    H: Host,
    E: Fn(&mut Machine<H>, &Loaded, &Window, &RExpr, u32) -> Done + Copy,
    M: Fn(&mut Machine<H>, &Loaded, &Window, &RExpr, u32) -> Got + Copy,
    C: Fn(&mut Machine<H>, &Loaded, Site, usize, u32) -> Got + Copy,
    S: Fn(&mut Machine<H>, &Loaded, &Window, &RStat, u32) -> FlowTag + Copy,
    requires stands { Stands H.asked p.now b.now.level (E.pre b.now.expr) (E.post b.now.expr)
        (M.pre b.now.multi) (M.post b.now.multi) (C.pre b.now.call) (C.post b.now.call)
        (S.pre b.now.stmt) (S.post b.now.stmt) }
    requires fits { Fits f.now m.old.stack }
    ensures { TestOf H.asked (operator_tested p.now (level p.now b.now.level) (frame f.now
        m.old.stack) line op (out-RPair pair.now) (world m.old)) m.old result m.new }
{
    match b.one(m, p, f, &pair.left) {
        Done::Well => {}
        Done::Failed => return Test::Failed,
    }
    let left = m.value;
    match b.one(m, p, f, &pair.right) {
        Done::Well => {}
        Done::Failed => return Test::Failed,
    }
    let site = Site {
        line: 0,
        outer: f.from,
    };
    match binary(b, m, p, line, site, op, left) {
        Done::Well => m.judge(),
        Done::Failed => Test::Failed,
    }
}

/// A condition. An operator of two operands is evaluated in place.
#[inline(always)]
fn simple_test<H, E, M, C, S>(
    b: &Below<H, E, M, C, S>,
    m: &mut Machine<H>,
    p: &Loaded,
    f: &Window,
    e: &RExpr,
) -> Test
where
    H: Host,
    E: Fn(&mut Machine<H>, &Loaded, &Window, &RExpr, u32) -> Done + Copy,
    M: Fn(&mut Machine<H>, &Loaded, &Window, &RExpr, u32) -> Got + Copy,
    C: Fn(&mut Machine<H>, &Loaded, Site, usize, u32) -> Got + Copy,
    S: Fn(&mut Machine<H>, &Loaded, &Window, &RStat, u32) -> FlowTag + Copy,
    requires stands { Stands H.asked p.now b.now.level (E.pre b.now.expr) (E.post b.now.expr)
        (M.pre b.now.multi) (M.post b.now.multi) (C.pre b.now.call) (C.post b.now.call)
        (S.pre b.now.stmt) (S.post b.now.stmt) }
    requires fits { Fits f.now m.old.stack }
    ensures { TestOf H.asked (tested (level p.now b.now.level) e.now (frame f.now m.old.stack)
        (world m.old)) m.old result m.new }
{
    if b.level == 0 {
        return any_test(b, m, p, f, e);
    }
    match &e.what {
        RExprKind::Binary(op, pair) => match m.tick() {
            Done::Well => operator_test(&b.lower(), m, p, f, e.line, *op, pair.get()),
            Done::Failed => Test::Failed,
        },
        _ => any_test(b, m, p, f, e),
    }
}

/// `left and right`.
#[inline(always)]
fn both<H, E, M, C, S>(
    b: &Below<H, E, M, C, S>,
    m: &mut Machine<H>,
    p: &Loaded,
    f: &Window,
    pair: &RPair,
) -> Test
where
    H: Host,
    E: Fn(&mut Machine<H>, &Loaded, &Window, &RExpr, u32) -> Done + Copy,
    M: Fn(&mut Machine<H>, &Loaded, &Window, &RExpr, u32) -> Got + Copy,
    C: Fn(&mut Machine<H>, &Loaded, Site, usize, u32) -> Got + Copy,
    S: Fn(&mut Machine<H>, &Loaded, &Window, &RStat, u32) -> FlowTag + Copy,
    requires stands { Stands H.asked p.now b.now.level (E.pre b.now.expr) (E.post b.now.expr)
        (M.pre b.now.multi) (M.post b.now.multi) (C.pre b.now.call) (C.post b.now.call)
        (S.pre b.now.stmt) (S.post b.now.stmt) }
    requires fits { Fits f.now m.old.stack }
    ensures { TestOf H.asked (either_tested p.now (level p.now b.now.level) (frame f.now
        m.old.stack) false (out-RPair pair.now) (world m.old)) m.old result m.new }
{
    match simple_test(b, m, p, f, &pair.left) {
        Test::Yes => simple_test(b, m, p, f, &pair.right),
        Test::No => Test::No,
        Test::Failed => Test::Failed,
    }
}

/// `left or right`.
#[inline(always)]
fn either<H, E, M, C, S>(
    b: &Below<H, E, M, C, S>,
    m: &mut Machine<H>,
    p: &Loaded,
    f: &Window,
    pair: &RPair,
) -> Test
where
    H: Host,
    E: Fn(&mut Machine<H>, &Loaded, &Window, &RExpr, u32) -> Done + Copy,
    M: Fn(&mut Machine<H>, &Loaded, &Window, &RExpr, u32) -> Got + Copy,
    C: Fn(&mut Machine<H>, &Loaded, Site, usize, u32) -> Got + Copy,
    S: Fn(&mut Machine<H>, &Loaded, &Window, &RStat, u32) -> FlowTag + Copy,
    requires stands { Stands H.asked p.now b.now.level (E.pre b.now.expr) (E.post b.now.expr)
        (M.pre b.now.multi) (M.post b.now.multi) (C.pre b.now.call) (C.post b.now.call)
        (S.pre b.now.stmt) (S.post b.now.stmt) }
    requires fits { Fits f.now m.old.stack }
    ensures { TestOf H.asked (either_tested p.now (level p.now b.now.level) (frame f.now
        m.old.stack) true (out-RPair pair.now) (world m.old)) m.old result m.new }
{
    match simple_test(b, m, p, f, &pair.left) {
        Test::Yes => Test::Yes,
        Test::No => simple_test(b, m, p, f, &pair.right),
        Test::Failed => Test::Failed,
    }
}

/// A condition. No value is made of an operator of two operands, nor of `and` and `or` of such.
#[inline(always)]
pub fn test<H, E, M, C, S>(
    b: &Below<H, E, M, C, S>,
    m: &mut Machine<H>,
    p: &Loaded,
    f: &Window,
    e: &RExpr,
) -> Test
where
    H: Host,
    E: Fn(&mut Machine<H>, &Loaded, &Window, &RExpr, u32) -> Done + Copy,
    M: Fn(&mut Machine<H>, &Loaded, &Window, &RExpr, u32) -> Got + Copy,
    C: Fn(&mut Machine<H>, &Loaded, Site, usize, u32) -> Got + Copy,
    S: Fn(&mut Machine<H>, &Loaded, &Window, &RStat, u32) -> FlowTag + Copy,
    requires stands { Stands H.asked p.now b.now.level (E.pre b.now.expr) (E.post b.now.expr)
        (M.pre b.now.multi) (M.post b.now.multi) (C.pre b.now.call) (C.post b.now.call)
        (S.pre b.now.stmt) (S.post b.now.stmt) }
    requires fits { Fits f.now m.old.stack }
    ensures { TestOf H.asked (tested (level p.now b.now.level) e.now (frame f.now m.old.stack)
        (world m.old)) m.old result m.new }
{
    if b.level == 0 {
        return any_test(b, m, p, f, e);
    }
    match &e.what {
        RExprKind::And(pair) => match m.tick() {
            Done::Well => both(&b.lower(), m, p, f, pair.get()),
            Done::Failed => Test::Failed,
        },
        RExprKind::Or(pair) => match m.tick() {
            Done::Well => either(&b.lower(), m, p, f, pair.get()),
            Done::Failed => Test::Failed,
        },
        _ => simple_test(b, m, p, f, e),
    }
}
