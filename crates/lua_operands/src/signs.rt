//! Operators by their sign.
ghost use Rattle.std.specs.Prelude.{◌≡◌, ◌≤◌, ◌-◌, [], ◌∷◌, length, Ok, not};
ghost use Rattle.lua_meaning.specs.Levels.{level};
ghost use Rattle.lua_meaning.specs.Operate as spec;
ghost use Rattle.lua_machine.specs.Does.{Fits, Stands, OneOf, world};
ghost use Rattle.lua_meaning.specs.Names.{is_true};
ghost use Rattle.object_store.specs.Value.{value_of_bool};

use crate::handlers::finish;
use crate::integers::plain;
use crate::joining::concat;
use crate::operators::{arith, compare};
use lua_machine::{Below, Done, FlowTag, Got, Host, Loaded, Machine, Window};
use lua_meaning::Site;
use lua_ops::{ArithOp, CompareOp};
use lua_program::{RExpr, RStat};
use lua_tree::{Binary, Unary};
use object_store::Value;

/// An operator of a first operand and the one in `value`, of any kind.
#[inline(never)]
fn general<H, E, M, C, S>(
    b: &Below<H, E, M, C, S>,
    m: &mut Machine<H>,
    p: &Loaded,
    line: u32,
    from: Site,
    op: Binary,
    x: Value,
) -> Done
where
    H: Host,
    E: Fn(&mut Machine<H>, &Loaded, &Window, &RExpr, u32) -> Done + Copy,
    M: Fn(&mut Machine<H>, &Loaded, &Window, &RExpr, u32) -> Got + Copy,
    C: Fn(&mut Machine<H>, &Loaded, Site, usize, u32) -> Got + Copy,
    S: Fn(&mut Machine<H>, &Loaded, &Window, &RStat, u32) -> FlowTag + Copy,
    requires stands { Stands H.asked p.now b.now.level (E.pre b.now.expr) (E.post b.now.expr)
        (M.pre b.now.multi) (M.post b.now.multi) (C.pre b.now.call) (C.post b.now.call)
        (S.pre b.now.stmt) (S.post b.now.stmt) }
    ensures { OneOf H.asked (spec.binary p.now (level p.now b.now.level) line from op x m.old.value
        (world m.old)) m.old result m.new }
{
    match op {
        Binary::Lt => compare(b, m, p, line, from, CompareOp::Lt, x),
        Binary::Gt => compare(b, m, p, line, from, CompareOp::Gt, x),
        Binary::Le => compare(b, m, p, line, from, CompareOp::Le, x),
        Binary::Ge => compare(b, m, p, line, from, CompareOp::Ge, x),
        Binary::Ne => compare(b, m, p, line, from, CompareOp::Ne, x),
        Binary::Eq => compare(b, m, p, line, from, CompareOp::Eq, x),
        Binary::BitOr => arith(b, m, p, line, from, ArithOp::BitOr, x),
        Binary::BitXor => arith(b, m, p, line, from, ArithOp::BitXor, x),
        Binary::BitAnd => arith(b, m, p, line, from, ArithOp::BitAnd, x),
        Binary::ShiftLeft => arith(b, m, p, line, from, ArithOp::ShiftLeft, x),
        Binary::ShiftRight => arith(b, m, p, line, from, ArithOp::ShiftRight, x),
        Binary::Concat => concat(b, m, p, line, from, x),
        Binary::Add => arith(b, m, p, line, from, ArithOp::Add, x),
        Binary::Sub => arith(b, m, p, line, from, ArithOp::Sub, x),
        Binary::Mul => arith(b, m, p, line, from, ArithOp::Mul, x),
        Binary::FloorDiv => arith(b, m, p, line, from, ArithOp::FloorDiv, x),
        Binary::Mod => arith(b, m, p, line, from, ArithOp::Mod, x),
    }
}

/// An operator of a first operand and the one in `value`. Most have two integers.
#[inline(always)]
pub fn binary<H, E, M, C, S>(
    b: &Below<H, E, M, C, S>,
    m: &mut Machine<H>,
    p: &Loaded,
    line: u32,
    from: Site,
    op: Binary,
    x: Value,
) -> Done
where
    H: Host,
    E: Fn(&mut Machine<H>, &Loaded, &Window, &RExpr, u32) -> Done + Copy,
    M: Fn(&mut Machine<H>, &Loaded, &Window, &RExpr, u32) -> Got + Copy,
    C: Fn(&mut Machine<H>, &Loaded, Site, usize, u32) -> Got + Copy,
    S: Fn(&mut Machine<H>, &Loaded, &Window, &RStat, u32) -> FlowTag + Copy,
    requires stands { Stands H.asked p.now b.now.level (E.pre b.now.expr) (E.post b.now.expr)
        (M.pre b.now.multi) (M.post b.now.multi) (C.pre b.now.call) (C.post b.now.call)
        (S.pre b.now.stmt) (S.post b.now.stmt) }
    ensures { OneOf H.asked (spec.binary p.now (level p.now b.now.level) line from op x m.old.value
        (world m.old)) m.old result m.new }
{
    if let Value::Int(first) = x
        && let Value::Int(second) = m.value
        && let Some(value) = plain(op, first, second)
    {
        m.value = value;
        return Done::Well;
    }
    general(b, m, p, line, from, op, x)
}

/// An operator of the one operand in `value`.
#[inline(never)]
pub fn unary<H, E, M, C, S>(
    b: &Below<H, E, M, C, S>,
    m: &mut Machine<H>,
    p: &Loaded,
    line: u32,
    from: Site,
    op: Unary,
) -> Done
where
    H: Host,
    E: Fn(&mut Machine<H>, &Loaded, &Window, &RExpr, u32) -> Done + Copy,
    M: Fn(&mut Machine<H>, &Loaded, &Window, &RExpr, u32) -> Got + Copy,
    C: Fn(&mut Machine<H>, &Loaded, Site, usize, u32) -> Got + Copy,
    S: Fn(&mut Machine<H>, &Loaded, &Window, &RStat, u32) -> FlowTag + Copy,
    requires stands { Stands H.asked p.now b.now.level (E.pre b.now.expr) (E.post b.now.expr)
        (M.pre b.now.multi) (M.post b.now.multi) (C.pre b.now.call) (C.post b.now.call)
        (S.pre b.now.stmt) (S.post b.now.stmt) }
    ensures { OneOf H.asked (spec.unary p.now (level p.now b.now.level) line from op m.old.value
        (world m.old)) m.old result m.new }
{
    match op {
        Unary::Not => {
            negate(m);
            Done::Well
        }
        Unary::Len => {
            let step = lua_ops::len(&m.state, m.value);
            finish(b, m, p, line, from, step)
        }
        Unary::Neg => {
            let x = m.value;
            arith(b, m, p, line, from, ArithOp::Neg, x)
        }
        Unary::BitNot => {
            let x = m.value;
            arith(b, m, p, line, from, ArithOp::BitNot, x)
        }
    }
}

/// `not` of the value.
fn negate<H: Host>(m: &mut Machine<H>)
    ensures { m.new ≡ record m.old { value = value_of_bool (not (is_true m.old.value)) } }
{
    let truth = m.value.is_truthy();
    m.value = Value::from_bool(!truth);
}
