//! `pcall` and `xpcall` (Lua 5.4 manual, section 6.1).
ghost use Rattle.std.specs.Prelude.{◌≡◌, ◌≤◌, ◌∷◌, length, drop};
ghost use Rattle.lua_meaning.specs.Level.{Level};
ghost use Rattle.lua_meaning.specs.Levels.{level};
ghost use Rattle.lua_meaning.specs.Library as spec;
ghost use Rattle.lua_machine.specs.Does.{Stands, ManyOf, world};
ghost use Rattle.lua_builtins.specs.Parts.{handling, protected};

use crate::apart::{apart, first_of, inner};
use crate::arguments::{argument, bad_argument};
use crate::given::give_two;
use lua_lists::limited;
use lua_machine::{Below, Done, FlowTag, Got, Host, Loaded, Machine, Stack, Window};
use lua_meaning::{Fault, Site};
use lua_program::{RExpr, RStat};
use object_store::Value;

/// True and the values of another stack, unless they are too many.
fn give_all<H: Host>(m: &mut Machine<H>, p: &Loaded, site: Site, at: usize, values: Stack) -> Got
    requires { at ≡ length m.old.stack.values }
    ensures { (l : Level) → ManyOf H.asked (spec.results p.now l site (Value.True ∷ values.values)
        (world m.old)) m.old at result m.new }
{
    m.value = Value::True;
    well!(m.push());
    if m.stack.append(values).is_err() {
        m.lose();
        return Got::Failed;
    }
    well!(limited(m, p, site.line, at));
    Got::Many
}

/// `pcall`: true and the values of a call, or false and its error.
pub fn pcall<H, E, M, C, S>(
    b: &Below<H, E, M, C, S>,
    m: &mut Machine<H>,
    p: &Loaded,
    site: Site,
    at: usize,
) -> Got
where
    H: Host,
    E: Fn(&mut Machine<H>, &Loaded, &Window, &RExpr, u32) -> Done + Copy,
    M: Fn(&mut Machine<H>, &Loaded, &Window, &RExpr, u32) -> Got + Copy,
    C: Fn(&mut Machine<H>, &Loaded, Site, usize, u32) -> Got + Copy,
    S: Fn(&mut Machine<H>, &Loaded, &Window, &RStat, u32) -> FlowTag + Copy,
    requires stands { Stands H.asked p.now b.now.level (E.pre b.now.expr) (E.post b.now.expr)
        (M.pre b.now.multi) (M.post b.now.multi) (C.pre b.now.call) (C.post b.now.call)
        (S.pre b.now.stmt) (S.post b.now.stmt) }
    requires within { at ≤ length m.old.stack.values }
    ensures { ManyOf H.asked (spec.pcall p.now (level p.now b.now.level) site (drop at
        m.old.stack.values) (world m.old)) m.old at result m.new }
{
    let Some(function) = argument(m, at, 0) else {
        bad_argument(m, p, site.line, 1, "pcall");
        return Got::Failed;
    };
    let (got, values) = apart(b, m, p, inner(site), function, at, 1);
    match got {
        Got::One => {
            let value = m.value;
            give_two(m, at, Value::True, value)
        }
        Got::Many => give_all(m, p, site, at, values),
        Got::Failed => match m.fault {
            Fault::Raised(error) => give_two(m, at, Value::False, error),
            _ => Got::Failed,
        },
    }
}

/// False and the first value of a handler for this error, or the error of the handler.
#[cold]
fn handle<H, E, M, C, S>(
    b: &Below<H, E, M, C, S>,
    m: &mut Machine<H>,
    p: &Loaded,
    site: Site,
    handler: Value,
    error: Value,
    at: usize,
) -> Got
where
    H: Host,
    E: Fn(&mut Machine<H>, &Loaded, &Window, &RExpr, u32) -> Done + Copy,
    M: Fn(&mut Machine<H>, &Loaded, &Window, &RExpr, u32) -> Got + Copy,
    C: Fn(&mut Machine<H>, &Loaded, Site, usize, u32) -> Got + Copy,
    S: Fn(&mut Machine<H>, &Loaded, &Window, &RStat, u32) -> FlowTag + Copy,
    requires stands { Stands H.asked p.now b.now.level (E.pre b.now.expr) (E.post b.now.expr)
        (M.pre b.now.multi) (M.post b.now.multi) (C.pre b.now.call) (C.post b.now.call)
        (S.pre b.now.stmt) (S.post b.now.stmt) }
    requires within { at ≡ length m.old.stack.values }
    ensures { ManyOf H.asked (handling p.now (level p.now b.now.level) site handler error (world
        m.old)) m.old at result m.new }
{
    m.value = error;
    well!(m.push());
    let (got, values) = apart(b, m, p, inner(site), handler, at, 0);
    match got {
        Got::One => {
            let value = m.value;
            give_two(m, at, Value::False, value)
        }
        Got::Many => give_two(m, at, Value::False, first_of(&values)),
        Got::Failed => match m.fault {
            Fault::Raised(error) => give_two(m, at, Value::False, error),
            _ => Got::Failed,
        },
    }
}

/// Calls a function, and a handler for its error.
fn protect<H, E, M, C, S>(
    b: &Below<H, E, M, C, S>,
    m: &mut Machine<H>,
    p: &Loaded,
    site: Site,
    function: Value,
    handler: Value,
    at: usize,
) -> Got
where
    H: Host,
    E: Fn(&mut Machine<H>, &Loaded, &Window, &RExpr, u32) -> Done + Copy,
    M: Fn(&mut Machine<H>, &Loaded, &Window, &RExpr, u32) -> Got + Copy,
    C: Fn(&mut Machine<H>, &Loaded, Site, usize, u32) -> Got + Copy,
    S: Fn(&mut Machine<H>, &Loaded, &Window, &RStat, u32) -> FlowTag + Copy,
    requires stands { Stands H.asked p.now b.now.level (E.pre b.now.expr) (E.post b.now.expr)
        (M.pre b.now.multi) (M.post b.now.multi) (C.pre b.now.call) (C.post b.now.call)
        (S.pre b.now.stmt) (S.post b.now.stmt) }
    requires within { at ≤ length m.old.stack.values }
    ensures { ManyOf H.asked (protected p.now (level p.now b.now.level) site function handler
        (drop 2 (drop at m.old.stack.values)) (world m.old)) m.old at result m.new }
{
    let (got, values) = apart(b, m, p, inner(site), function, at, 2);
    match got {
        Got::One => {
            let value = m.value;
            give_two(m, at, Value::True, value)
        }
        Got::Many => give_all(m, p, site, at, values),
        Got::Failed => match m.fault {
            Fault::Raised(error) => handle(b, m, p, site, handler, error, at),
            _ => Got::Failed,
        },
    }
}

/// `xpcall`: `pcall` with a handler of errors.
pub fn xpcall<H, E, M, C, S>(
    b: &Below<H, E, M, C, S>,
    m: &mut Machine<H>,
    p: &Loaded,
    site: Site,
    at: usize,
) -> Got
where
    H: Host,
    E: Fn(&mut Machine<H>, &Loaded, &Window, &RExpr, u32) -> Done + Copy,
    M: Fn(&mut Machine<H>, &Loaded, &Window, &RExpr, u32) -> Got + Copy,
    C: Fn(&mut Machine<H>, &Loaded, Site, usize, u32) -> Got + Copy,
    S: Fn(&mut Machine<H>, &Loaded, &Window, &RStat, u32) -> FlowTag + Copy,
    requires stands { Stands H.asked p.now b.now.level (E.pre b.now.expr) (E.post b.now.expr)
        (M.pre b.now.multi) (M.post b.now.multi) (C.pre b.now.call) (C.post b.now.call)
        (S.pre b.now.stmt) (S.post b.now.stmt) }
    requires within { at ≤ length m.old.stack.values }
    ensures { ManyOf H.asked (spec.xpcall p.now (level p.now b.now.level) site (drop at
        m.old.stack.values) (world m.old)) m.old at result m.new }
{
    let Some(function) = argument(m, at, 0) else {
        bad_argument(m, p, site.line, 1, "xpcall");
        return Got::Failed;
    };
    let Some(handler) = argument(m, at, 1) else {
        bad_argument(m, p, site.line, 2, "xpcall");
        return Got::Failed;
    };
    protect(b, m, p, site, function, handler, at)
}
