//! Expressions by their form.
ghost use Rattle.std.specs.Prelude.{[], ◌∷◌, Ok, length};
ghost use Rattle.lua_meaning.specs.Run.{and_then};
ghost use Rattle.lua_program.specs.declared.expr.RExprKind.{out-RExprKind};
ghost use Rattle.lua_meaning.specs.Levels.{level, expr_at, multi_at};
ghost use Rattle.lua_meaning.specs.Expressions as spec;
ghost use Rattle.lua_machine.specs.Does.{Fits, ManyOf, OneOf, Stands, frame, world};

use crate::calls::{call_one, called, method, method_one};
use crate::names::{name, text};
use crate::operations::{and, binary_of, index_of, or, unary_of};
use lua_machine::{Below, Done, FlowTag, Got, Host, Loaded, Machine, Window};
use lua_meaning::Site;
use lua_objects::{constructed, function};
use lua_program::{RExpr, RExprKind, RStat};
use object_store::Value;

/// Gives a value.
#[inline(always)]
fn gives<H: Host>(m: &mut Machine<H>, value: Value) -> Done
    ensures { OneOf H.asked (λ k. k (Ok value) (world m.old)) m.old result m.new }
{
    m.value = value;
    Done::Well
}

/// The value of an expression of this form, whose parts stand below.
#[inline(always)]
fn value_of<H, E, M, C, S>(
    b: &Below<H, E, M, C, S>,
    m: &mut Machine<H>,
    p: &Loaded,
    f: &Window,
    line: u32,
    what: &RExprKind,
) -> Done
where
    H: Host,
    E: Fn(&mut Machine<H>, &Loaded, &Window, &RExpr, u32) -> Done + Copy,
    M: Fn(&mut Machine<H>, &Loaded, &Window, &RExpr, u32) -> Got + Copy,
    C: Fn(&mut Machine<H>, &Loaded, Site, usize, u32) -> Got + Copy,
    S: Fn(&mut Machine<H>, &Loaded, &Window, &RStat, u32) -> FlowTag + Copy,
    requires stands { Stands H.asked p.now b.now.level (E.pre b.now.expr) (E.post b.now.expr)
        (M.pre b.now.multi) (M.post b.now.multi) (C.pre b.now.call) (C.post b.now.call)
        (S.pre b.now.stmt) (S.post b.now.stmt) }
    requires fits { Fits f.now m.old.stack }
    ensures { OneOf H.asked (spec.expr_on p.now (level p.now b.now.level) (frame f.now m.old.stack)
        line (out-RExprKind what.now) (world m.old)) m.old result m.new }
{
    match what {
        RExprKind::Nil => gives(m, Value::Nil),
        RExprKind::True => gives(m, Value::True),
        RExprKind::False => gives(m, Value::False),
        RExprKind::Int(n) => gives(m, Value::Int(*n)),
        RExprKind::Text(_, place) => text(m, p, *place),
        RExprKind::Dots(_) => {
            m.first_dot(f);
            Done::Well
        }
        RExprKind::Name(r, _) => name(b, m, p, f, line, r),
        RExprKind::Index(pair) => index_of(b, m, p, f, line, pair.get()),
        RExprKind::Call(e, es) => call_one(b, m, p, f, line, e.get(), es.get().as_slice()),
        RExprKind::Method(e, key, es) => {
            let place = key.get().place;
            method_one(b, m, p, f, line, e.get(), place, es.get().as_slice())
        }
        RExprKind::Function(n) => function(b, m, p, f, line, *n),
        RExprKind::Binary(op, pair) => binary_of(b, m, p, f, line, *op, pair.get()),
        RExprKind::Unary(op, e) => unary_of(b, m, p, f, line, *op, e.get()),
        RExprKind::And(pair) => and(b, m, p, f, pair.get()),
        RExprKind::Or(pair) => or(b, m, p, f, pair.get()),
        RExprKind::Paren(e) => b.one(m, p, f, e.get()),
        RExprKind::Table(fields) => constructed(b, m, p, f, line, fields.as_slice()),
    }
}

/// The value of an expression, whose parts stand below.
#[inline(always)]
pub fn expr_on<H, E, M, C, S>(
    b: &Below<H, E, M, C, S>,
    m: &mut Machine<H>,
    p: &Loaded,
    f: &Window,
    e: &RExpr,
) -> Done
where
    H: Host,
    E: Fn(&mut Machine<H>, &Loaded, &Window, &RExpr, u32) -> Done + Copy,
    M: Fn(&mut Machine<H>, &Loaded, &Window, &RExpr, u32) -> Got + Copy,
    C: Fn(&mut Machine<H>, &Loaded, Site, usize, u32) -> Got + Copy,
    S: Fn(&mut Machine<H>, &Loaded, &Window, &RStat, u32) -> FlowTag + Copy,
    requires stands { Stands H.asked p.now b.now.level (E.pre b.now.expr) (E.post b.now.expr)
        (M.pre b.now.multi) (M.post b.now.multi) (C.pre b.now.call) (C.post b.now.call)
        (S.pre b.now.stmt) (S.post b.now.stmt) }
    requires fits { Fits f.now m.old.stack }
    ensures { OneOf H.asked (expr_at p.now (level p.now b.now.level) e.now (frame f.now m.old.stack)
        (world m.old)) m.old result m.new }
{
    value_of(b, m, p, f, e.line, &e.what)
}

/// The values of `...`, onto the stack.
fn dots<H: Host>(m: &mut Machine<H>, f: &Window) -> Got
    requires { Fits f.now m.old.stack }
    ensures { ManyOf H.asked (λ k. k (Ok (frame f.now m.old.stack).dots) (world m.old)) m.old
        (length m.old.stack.values) result m.new }
{
    match m.stack.again(f.dots, f.base) {
        Ok(()) => Got::Many,
        Err(_) => {
            m.lose();
            Got::Failed
        }
    }
}

/// The one value of an expression.
#[inline(never)]
fn single<H, E, M, C, S>(
    b: &Below<H, E, M, C, S>,
    m: &mut Machine<H>,
    p: &Loaded,
    f: &Window,
    line: u32,
    what: &RExprKind,
) -> Got
where
    H: Host,
    E: Fn(&mut Machine<H>, &Loaded, &Window, &RExpr, u32) -> Done + Copy,
    M: Fn(&mut Machine<H>, &Loaded, &Window, &RExpr, u32) -> Got + Copy,
    C: Fn(&mut Machine<H>, &Loaded, Site, usize, u32) -> Got + Copy,
    S: Fn(&mut Machine<H>, &Loaded, &Window, &RStat, u32) -> FlowTag + Copy,
    requires stands { Stands H.asked p.now b.now.level (E.pre b.now.expr) (E.post b.now.expr)
        (M.pre b.now.multi) (M.post b.now.multi) (C.pre b.now.call) (C.post b.now.call)
        (S.pre b.now.stmt) (S.post b.now.stmt) }
    requires fits { Fits f.now m.old.stack }
    ensures { ManyOf H.asked (λ k. spec.expr_on p.now (level p.now b.now.level) (frame f.now
        m.old.stack) line (out-RExprKind what.now) (world m.old) (and_then k (λ v w. k (Ok (v ∷ []))
        w))) m.old (length m.old.stack.values) result m.new }
{
    match value_of(b, m, p, f, line, what) {
        Done::Well => Got::One,
        Done::Failed => Got::Failed,
    }
}

/// All values of an expression of this form, whose parts stand below.
#[inline(always)]
fn values_of<H, E, M, C, S>(
    b: &Below<H, E, M, C, S>,
    m: &mut Machine<H>,
    p: &Loaded,
    f: &Window,
    line: u32,
    what: &RExprKind,
) -> Got
where
    H: Host,
    E: Fn(&mut Machine<H>, &Loaded, &Window, &RExpr, u32) -> Done + Copy,
    M: Fn(&mut Machine<H>, &Loaded, &Window, &RExpr, u32) -> Got + Copy,
    C: Fn(&mut Machine<H>, &Loaded, Site, usize, u32) -> Got + Copy,
    S: Fn(&mut Machine<H>, &Loaded, &Window, &RStat, u32) -> FlowTag + Copy,
    requires stands { Stands H.asked p.now b.now.level (E.pre b.now.expr) (E.post b.now.expr)
        (M.pre b.now.multi) (M.post b.now.multi) (C.pre b.now.call) (C.post b.now.call)
        (S.pre b.now.stmt) (S.post b.now.stmt) }
    requires fits { Fits f.now m.old.stack }
    ensures { ManyOf H.asked (spec.multi_on p.now (level p.now b.now.level) (frame f.now
        m.old.stack) line (out-RExprKind what.now) (world m.old)) m.old (length m.old.stack.values)
        result m.new }
{
    match what {
        RExprKind::Dots(_) => dots(m, f),
        RExprKind::Call(e, es) => called(b, m, p, f, line, e.get(), es.get().as_slice()),
        RExprKind::Method(e, key, es) => {
            let place = key.get().place;
            method(b, m, p, f, line, e.get(), place, es.get().as_slice())
        }
        _ => single(b, m, p, f, line, what),
    }
}

/// All values of an expression, whose parts stand below.
#[inline(always)]
pub fn multi_on<H, E, M, C, S>(
    b: &Below<H, E, M, C, S>,
    m: &mut Machine<H>,
    p: &Loaded,
    f: &Window,
    e: &RExpr,
) -> Got
where
    H: Host,
    E: Fn(&mut Machine<H>, &Loaded, &Window, &RExpr, u32) -> Done + Copy,
    M: Fn(&mut Machine<H>, &Loaded, &Window, &RExpr, u32) -> Got + Copy,
    C: Fn(&mut Machine<H>, &Loaded, Site, usize, u32) -> Got + Copy,
    S: Fn(&mut Machine<H>, &Loaded, &Window, &RStat, u32) -> FlowTag + Copy,
    requires stands { Stands H.asked p.now b.now.level (E.pre b.now.expr) (E.post b.now.expr)
        (M.pre b.now.multi) (M.post b.now.multi) (C.pre b.now.call) (C.post b.now.call)
        (S.pre b.now.stmt) (S.post b.now.stmt) }
    requires fits { Fits f.now m.old.stack }
    ensures { ManyOf H.asked (multi_at p.now (level p.now b.now.level) e.now (frame f.now
        m.old.stack) (world m.old)) m.old (length m.old.stack.values) result m.new }
{
    values_of(b, m, p, f, e.line, &e.what)
}
