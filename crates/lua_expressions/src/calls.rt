//! Calls (Lua 5.4 manual, section 3.4.10): the function first, and then its arguments.
ghost use Rattle.std.specs.Prelude.{◌+◌, ◌≤◌, [], ◌∷◌, Ok, length, drop};
ghost use Rattle.lua_meaning.specs.Run.{and_then};
ghost use Rattle.lua_meaning.specs.Levels.{level};
ghost use Rattle.lua_meaning.specs.Names.{first};
ghost use Rattle.lua_meaning.specs.Expressions as spec;
ghost use Rattle.lua_machine.specs.Does.{Fits, ManyOf, OneOf, Stands, frame, world};

use crate::names::field;
use lua_lists::{limited, list};
use lua_machine::{Below, Done, FlowTag, Got, Host, Loaded, Machine, Window};
use lua_meaning::Site;
use lua_program::{RExpr, RStat};
use object_store::Value;

/// A call of a function with the arguments from `at` on.
#[inline]
fn invoked<H, E, M, C, S>(
    b: &Below<H, E, M, C, S>,
    m: &mut Machine<H>,
    p: &Loaded,
    f: &Window,
    line: u32,
    function: Value,
    at: usize,
) -> Got
where
    H: Host,
    E: Fn(&mut Machine<H>, &Loaded, &Window, &RExpr, u32) -> Done + Copy,
    M: Fn(&mut Machine<H>, &Loaded, &Window, &RExpr, u32) -> Got + Copy,
    C: Fn(&mut Machine<H>, &Loaded, Site, usize, u32) -> Got + Copy,
    S: Fn(&mut Machine<H>, &Loaded, &Window, &RStat, u32) -> FlowTag + Copy,
    requires stands { Stands H.asked p.now b.now.level (E.pre b.now.expr) (E.post b.now.expr)
        (M.pre b.now.multi) (M.post b.now.multi) (C.pre b.now.call) (C.post b.now.call)
        (S.pre b.now.stmt) (S.post b.now.stmt) }
    requires fits { Fits f.now m.old.stack }
    requires within { at ≤ length m.old.stack.values }
    ensures { ManyOf H.asked (spec.invoked p.now (level p.now b.now.level) (frame f.now m.old.stack)
        line function (drop at m.old.stack.values) (world m.old)) m.old at result m.new }
{
    goes!(limited(m, p, line, at));
    m.value = function;
    let site = Site {
        line,
        outer: f.from,
    };
    b.invoke(m, p, site, at)
}

/// A call of a function with the arguments from `at` on and those of a list of expressions.
#[inline]
fn applied<H, E, M, C, S>(
    b: &Below<H, E, M, C, S>,
    m: &mut Machine<H>,
    p: &Loaded,
    f: &Window,
    line: u32,
    function: Value,
    es: &[RExpr],
    at: usize,
) -> Got
where
    H: Host,
    E: Fn(&mut Machine<H>, &Loaded, &Window, &RExpr, u32) -> Done + Copy,
    M: Fn(&mut Machine<H>, &Loaded, &Window, &RExpr, u32) -> Got + Copy,
    C: Fn(&mut Machine<H>, &Loaded, Site, usize, u32) -> Got + Copy,
    S: Fn(&mut Machine<H>, &Loaded, &Window, &RStat, u32) -> FlowTag + Copy,
    requires stands { Stands H.asked p.now b.now.level (E.pre b.now.expr) (E.post b.now.expr)
        (M.pre b.now.multi) (M.post b.now.multi) (C.pre b.now.call) (C.post b.now.call)
        (S.pre b.now.stmt) (S.post b.now.stmt) }
    requires fits { Fits f.now m.old.stack }
    requires above { f.now.base + f.now.size ≤ at }
    requires within { at ≤ length m.old.stack.values }
    ensures { ManyOf H.asked (λ k. spec.list (level p.now b.now.level) (drop at m.old.stack.values)
        es.now (frame f.now m.old.stack) (world m.old) (and_then k (λ args w. spec.invoked p.now
        (level p.now b.now.level) (frame f.now m.old.stack) line function args w k))) m.old at
        result m.new }
{
    goes!(list(b, m, p, f, es, at));
    invoked(b, m, p, f, line, function, at)
}

/// The values of `e(es)`.
#[inline]
pub fn called<H, E, M, C, S>(
    b: &Below<H, E, M, C, S>,
    m: &mut Machine<H>,
    p: &Loaded,
    f: &Window,
    line: u32,
    e: &RExpr,
    es: &[RExpr],
) -> Got
where
    H: Host,
    E: Fn(&mut Machine<H>, &Loaded, &Window, &RExpr, u32) -> Done + Copy,
    M: Fn(&mut Machine<H>, &Loaded, &Window, &RExpr, u32) -> Got + Copy,
    C: Fn(&mut Machine<H>, &Loaded, Site, usize, u32) -> Got + Copy,
    S: Fn(&mut Machine<H>, &Loaded, &Window, &RStat, u32) -> FlowTag + Copy,
    requires stands { Stands H.asked p.now b.now.level (E.pre b.now.expr) (E.post b.now.expr)
        (M.pre b.now.multi) (M.post b.now.multi) (C.pre b.now.call) (C.post b.now.call)
        (S.pre b.now.stmt) (S.post b.now.stmt) }
    requires fits { Fits f.now m.old.stack }
    ensures { ManyOf H.asked (spec.called p.now (level p.now b.now.level) (frame f.now m.old.stack)
        line e.now es.now (world m.old)) m.old (length m.old.stack.values) result m.new }
{
    goes!(b.one(m, p, f, e));
    let function = m.value;
    let at = m.stack.len();
    applied(b, m, p, f, line, function, es, at)
}

/// A call of a method with its object, which is in `value`, and the arguments of a list of
/// expressions.
fn sent<H, E, M, C, S>(
    b: &Below<H, E, M, C, S>,
    m: &mut Machine<H>,
    p: &Loaded,
    f: &Window,
    line: u32,
    function: Value,
    es: &[RExpr],
) -> Got
where
    H: Host,
    E: Fn(&mut Machine<H>, &Loaded, &Window, &RExpr, u32) -> Done + Copy,
    M: Fn(&mut Machine<H>, &Loaded, &Window, &RExpr, u32) -> Got + Copy,
    C: Fn(&mut Machine<H>, &Loaded, Site, usize, u32) -> Got + Copy,
    S: Fn(&mut Machine<H>, &Loaded, &Window, &RStat, u32) -> FlowTag + Copy,
    requires stands { Stands H.asked p.now b.now.level (E.pre b.now.expr) (E.post b.now.expr)
        (M.pre b.now.multi) (M.post b.now.multi) (C.pre b.now.call) (C.post b.now.call)
        (S.pre b.now.stmt) (S.post b.now.stmt) }
    requires fits { Fits f.now m.old.stack }
    ensures { ManyOf H.asked (λ k. spec.list (level p.now b.now.level) (m.old.value ∷ []) es.now
        (frame f.now m.old.stack) (world m.old) (and_then k (λ args w. spec.invoked p.now (level
        p.now b.now.level) (frame f.now m.old.stack) line function args w k))) m.old (length
        m.old.stack.values) result m.new }
{
    let at = m.stack.len();
    goes!(m.push());
    applied(b, m, p, f, line, function, es, at)
}

/// The values of `e:name(es)`, by the place of the text of the name. The object is evaluated once,
/// and is the first argument.
#[inline(never)]
pub fn method<H, E, M, C, S>(
    b: &Below<H, E, M, C, S>,
    m: &mut Machine<H>,
    p: &Loaded,
    f: &Window,
    line: u32,
    e: &RExpr,
    place: u32,
    es: &[RExpr],
) -> Got
where
    H: Host,
    E: Fn(&mut Machine<H>, &Loaded, &Window, &RExpr, u32) -> Done + Copy,
    M: Fn(&mut Machine<H>, &Loaded, &Window, &RExpr, u32) -> Got + Copy,
    C: Fn(&mut Machine<H>, &Loaded, Site, usize, u32) -> Got + Copy,
    S: Fn(&mut Machine<H>, &Loaded, &Window, &RStat, u32) -> FlowTag + Copy,
    requires stands { Stands H.asked p.now b.now.level (E.pre b.now.expr) (E.post b.now.expr)
        (M.pre b.now.multi) (M.post b.now.multi) (C.pre b.now.call) (C.post b.now.call)
        (S.pre b.now.stmt) (S.post b.now.stmt) }
    requires fits { Fits f.now m.old.stack }
    ensures { ManyOf H.asked (spec.method p.now (level p.now b.now.level) (frame f.now m.old.stack)
        line e.now place es.now (world m.old)) m.old (length m.old.stack.values) result m.new }
{
    goes!(b.one(m, p, f, e));
    let object = m.value;
    goes!(field(b, m, p, f, line, object, place));
    let function = m.value;
    m.value = object;
    sent(b, m, p, f, line, function, es)
}

/// The first value of `e(es)`.
#[inline(never)]
pub fn call_one<H, E, M, C, S>(
    b: &Below<H, E, M, C, S>,
    m: &mut Machine<H>,
    p: &Loaded,
    f: &Window,
    line: u32,
    e: &RExpr,
    es: &[RExpr],
) -> Done
where
    H: Host,
    E: Fn(&mut Machine<H>, &Loaded, &Window, &RExpr, u32) -> Done + Copy,
    M: Fn(&mut Machine<H>, &Loaded, &Window, &RExpr, u32) -> Got + Copy,
    C: Fn(&mut Machine<H>, &Loaded, Site, usize, u32) -> Got + Copy,
    S: Fn(&mut Machine<H>, &Loaded, &Window, &RStat, u32) -> FlowTag + Copy,
    requires stands { Stands H.asked p.now b.now.level (E.pre b.now.expr) (E.post b.now.expr)
        (M.pre b.now.multi) (M.post b.now.multi) (C.pre b.now.call) (C.post b.now.call)
        (S.pre b.now.stmt) (S.post b.now.stmt) }
    requires fits { Fits f.now m.old.stack }
    ensures { OneOf H.asked (λ k. spec.called p.now (level p.now b.now.level) (frame f.now
        m.old.stack) line e.now es.now (world m.old) (and_then k (λ vs w. k (Ok (first vs)) w)))
        m.old result m.new }
{
    let at = m.stack.len();
    match called(b, m, p, f, line, e, es) {
        Got::One => Done::Well,
        Got::Many => {
            m.take_first(at);
            Done::Well
        }
        Got::Failed => Done::Failed,
    }
}

/// The first value of `e:name(es)`.
#[inline(never)]
pub fn method_one<H, E, M, C, S>(
    b: &Below<H, E, M, C, S>,
    m: &mut Machine<H>,
    p: &Loaded,
    f: &Window,
    line: u32,
    e: &RExpr,
    place: u32,
    es: &[RExpr],
) -> Done
where
    H: Host,
    E: Fn(&mut Machine<H>, &Loaded, &Window, &RExpr, u32) -> Done + Copy,
    M: Fn(&mut Machine<H>, &Loaded, &Window, &RExpr, u32) -> Got + Copy,
    C: Fn(&mut Machine<H>, &Loaded, Site, usize, u32) -> Got + Copy,
    S: Fn(&mut Machine<H>, &Loaded, &Window, &RStat, u32) -> FlowTag + Copy,
    requires stands { Stands H.asked p.now b.now.level (E.pre b.now.expr) (E.post b.now.expr)
        (M.pre b.now.multi) (M.post b.now.multi) (C.pre b.now.call) (C.post b.now.call)
        (S.pre b.now.stmt) (S.post b.now.stmt) }
    requires fits { Fits f.now m.old.stack }
    ensures { OneOf H.asked (λ k. spec.method p.now (level p.now b.now.level) (frame f.now
        m.old.stack) line e.now place es.now (world m.old) (and_then k (λ vs w. k (Ok (first vs))
        w))) m.old result m.new }
{
    let at = m.stack.len();
    match method(b, m, p, f, line, e, place, es) {
        Got::One => Done::Well,
        Got::Many => {
            m.take_first(at);
            Done::Well
        }
        Got::Failed => Done::Failed,
    }
}
