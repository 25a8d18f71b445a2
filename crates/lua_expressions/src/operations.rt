//! Operators with their operands (Lua 5.4 manual, sections 3.4.1 to 3.4.7): both operands come
//! first, but `and` and `or` evaluate the second one only where the first does not decide.
ghost use Rattle.std.specs.Prelude.{true, false};
ghost use Rattle.lua_program.specs.declared.expr.RPair.{out-RPair};
ghost use Rattle.lua_meaning.specs.Run.{and_then};
ghost use Rattle.lua_meaning.specs.Level.{no_site};
ghost use Rattle.lua_meaning.specs.Levels.{level};
ghost use Rattle.lua_meaning.specs.Operate.{binary, index, unary};
ghost use Rattle.lua_meaning.specs.Expressions as spec;
ghost use Rattle.lua_machine.specs.Does.{Fits, OneOf, Stands, frame, world};

use lua_machine::{Below, Done, FlowTag, Got, Host, Loaded, Machine, Window};
use lua_meaning::Site;
use lua_program::{RExpr, RPair, RStat};
use lua_tree::{Binary, Unary};

/// An operator of two operands.
#[inline]
pub fn binary_of<H, E, M, C, S>(
    b: &Below<H, E, M, C, S>,
    m: &mut Machine<H>,
    p: &Loaded,
    f: &Window,
    line: u32,
    op: Binary,
    pair: &RPair,
) -> Done
where
    H: Host,
    E: Fn(&mut Machine<H>, &Loaded, &Window, &RExpr, u32) -> Done + Copy,
    M: Fn(&mut Machine<H>, &Loaded, &Window, &RExpr, u32) -> Got + Copy,
    C: Fn(&mut Machine<H>, &Loaded, Site, usize, u32) -> Got + Copy,
    S: Fn(&mut Machine<H>, &Loaded, &Window, &RStat, u32) -> FlowTag + Copy,
    requires stands { Stands H.asked p.now b.now.level (E.pre b.now.expr) (E.post b.now.expr)
        (M.pre b.now.multi) (M.post b.now.multi) (C.pre b.now.call) (C.post b.now.call)
        (S.pre b.now.stmt) (S.post b.now.stmt) }
    requires fits { Fits f.now m.old.stack }
    ensures { OneOf H.asked (spec.operated p.now (level p.now b.now.level) (frame f.now m.old.stack)
        line (out-RPair pair.now) (binary p.now (level p.now b.now.level) line (no_site (frame f.now
        m.old.stack)) op) (world m.old)) m.old result m.new }
{
    well!(b.one(m, p, f, &pair.left));
    let left = m.value;
    well!(b.one(m, p, f, &pair.right));
    let site = Site {
        line: 0,
        outer: f.from,
    };
    lua_operands::binary(b, m, p, line, site, op, left)
}

/// `left[right]`
#[inline]
pub fn index_of<H, E, M, C, S>(
    b: &Below<H, E, M, C, S>,
    m: &mut Machine<H>,
    p: &Loaded,
    f: &Window,
    line: u32,
    pair: &RPair,
) -> Done
where
    H: Host,
    E: Fn(&mut Machine<H>, &Loaded, &Window, &RExpr, u32) -> Done + Copy,
    M: Fn(&mut Machine<H>, &Loaded, &Window, &RExpr, u32) -> Got + Copy,
    C: Fn(&mut Machine<H>, &Loaded, Site, usize, u32) -> Got + Copy,
    S: Fn(&mut Machine<H>, &Loaded, &Window, &RStat, u32) -> FlowTag + Copy,
    requires stands { Stands H.asked p.now b.now.level (E.pre b.now.expr) (E.post b.now.expr)
        (M.pre b.now.multi) (M.post b.now.multi) (C.pre b.now.call) (C.post b.now.call)
        (S.pre b.now.stmt) (S.post b.now.stmt) }
    requires fits { Fits f.now m.old.stack }
    ensures { OneOf H.asked (spec.operated p.now (level p.now b.now.level) (frame f.now m.old.stack)
        line (out-RPair pair.now) (index p.now (level p.now b.now.level) line (no_site (frame f.now
        m.old.stack))) (world m.old)) m.old result m.new }
{
    well!(b.one(m, p, f, &pair.left));
    let left = m.value;
    well!(b.one(m, p, f, &pair.right));
    let site = Site {
        line: 0,
        outer: f.from,
    };
    lua_operands::index(b, m, p, line, site, left)
}

/// An operator of one operand.
#[inline]
pub fn unary_of<H, E, M, C, S>(
    b: &Below<H, E, M, C, S>,
    m: &mut Machine<H>,
    p: &Loaded,
    f: &Window,
    line: u32,
    op: Unary,
    e: &RExpr,
) -> Done
where
    H: Host,
    E: Fn(&mut Machine<H>, &Loaded, &Window, &RExpr, u32) -> Done + Copy,
    M: Fn(&mut Machine<H>, &Loaded, &Window, &RExpr, u32) -> Got + Copy,
    C: Fn(&mut Machine<H>, &Loaded, Site, usize, u32) -> Got + Copy,
    S: Fn(&mut Machine<H>, &Loaded, &Window, &RStat, u32) -> FlowTag + Copy,
    requires stands { Stands H.asked p.now b.now.level (E.pre b.now.expr) (E.post b.now.expr)
        (M.pre b.now.multi) (M.post b.now.multi) (C.pre b.now.call) (C.post b.now.call)
        (S.pre b.now.stmt) (S.post b.now.stmt) }
    requires fits { Fits f.now m.old.stack }
    ensures { OneOf H.asked (λ k. (level p.now b.now.level).expr e.now (frame f.now m.old.stack)
        (world m.old) (and_then k (λ v w. unary p.now (level p.now b.now.level) line (no_site (frame
        f.now m.old.stack)) op v w k))) m.old result m.new }
{
    well!(b.one(m, p, f, e));
    let site = Site {
        line: 0,
        outer: f.from,
    };
    lua_operands::unary(b, m, p, line, site, op)
}

/// `left and right`: the first operand where it is false or nil.
#[inline]
pub fn and<H, E, M, C, S>(
    b: &Below<H, E, M, C, S>,
    m: &mut Machine<H>,
    p: &Loaded,
    f: &Window,
    pair: &RPair,
) -> Done
where
    H: Host,
    E: Fn(&mut Machine<H>, &Loaded, &Window, &RExpr, u32) -> Done + Copy,
    M: Fn(&mut Machine<H>, &Loaded, &Window, &RExpr, u32) -> Got + Copy,
    C: Fn(&mut Machine<H>, &Loaded, Site, usize, u32) -> Got + Copy,
    S: Fn(&mut Machine<H>, &Loaded, &Window, &RStat, u32) -> FlowTag + Copy,
    requires stands { Stands H.asked p.now b.now.level (E.pre b.now.expr) (E.post b.now.expr)
        (M.pre b.now.multi) (M.post b.now.multi) (C.pre b.now.call) (C.post b.now.call)
        (S.pre b.now.stmt) (S.post b.now.stmt) }
    requires fits { Fits f.now m.old.stack }
    ensures { OneOf H.asked (spec.either p.now (level p.now b.now.level) (frame f.now m.old.stack) 0
        false (out-RPair pair.now) (world m.old)) m.old result m.new }
{
    well!(b.one(m, p, f, &pair.left));
    if !m.value.is_truthy() {
        return Done::Well;
    }
    b.one(m, p, f, &pair.right)
}

/// `left or right`: the first operand where it is neither false nor nil.
#[inline]
pub fn or<H, E, M, C, S>(
    b: &Below<H, E, M, C, S>,
    m: &mut Machine<H>,
    p: &Loaded,
    f: &Window,
    pair: &RPair,
) -> Done
where
    H: Host,
    E: Fn(&mut Machine<H>, &Loaded, &Window, &RExpr, u32) -> Done + Copy,
    M: Fn(&mut Machine<H>, &Loaded, &Window, &RExpr, u32) -> Got + Copy,
    C: Fn(&mut Machine<H>, &Loaded, Site, usize, u32) -> Got + Copy,
    S: Fn(&mut Machine<H>, &Loaded, &Window, &RStat, u32) -> FlowTag + Copy,
    requires stands { Stands H.asked p.now b.now.level (E.pre b.now.expr) (E.post b.now.expr)
        (M.pre b.now.multi) (M.post b.now.multi) (C.pre b.now.call) (C.post b.now.call)
        (S.pre b.now.stmt) (S.post b.now.stmt) }
    requires fits { Fits f.now m.old.stack }
    ensures { OneOf H.asked (spec.either p.now (level p.now b.now.level) (frame f.now m.old.stack) 0
        true (out-RPair pair.now) (world m.old)) m.old result m.new }
{
    well!(b.one(m, p, f, &pair.left));
    if m.value.is_truthy() {
        return Done::Well;
    }
    b.one(m, p, f, &pair.right)
}
