//! Lists of a number of values, and the limit of a call's values.
ghost use Rattle.std.specs.Prelude.{◌+◌, ◌≤◌, [], ◌∷◌, length, drop, Ok};
ghost use Rattle.lua_meaning.specs.Levels.{level};
ghost use Rattle.lua_meaning.specs.Names.{filled};
ghost use Rattle.lua_meaning.specs.Expressions as spec;
ghost use Rattle.lua_machine.specs.Does.{Fits, PushedOf, Stands, frame, world};

use crate::lists::{all_values, ones};
use lua_machine::{Below, Done, FlowTag, Got, Host, Loaded, Machine, Window};
use lua_meaning::Site;
use lua_program::{RExpr, RStat};
use object_store::LuaFault;

/// How many arguments or results a call may have.
pub const VALUE_LIMIT: usize = 1_048_576;

/// The values from `at` on, unless they are too many for a call; then a fault of this line.
#[inline]
pub fn limited<H: Host>(m: &mut Machine<H>, p: &Loaded, line: u32, at: usize) -> Done
    requires within { at ≤ length m.old.stack.values }
    ensures { PushedOf H.asked (spec.limited p.now line (drop at m.old.stack.values) (world m.old))
        m.old at result m.new }
{
    if m.stack.len() - at > VALUE_LIMIT {
        m.fault_at(p, line, LuaFault::TooManyValues);
        return Done::Failed;
    }
    Done::Well
}

/// So many values from `at` on: further ones are dropped, and nil stands for those that there are
/// none of (Lua 5.4 manual, section 3.3.3).
#[inline]
fn fill<H: Host>(m: &mut Machine<H>, at: usize, n: usize) -> Done
    requires within { at ≤ length m.old.stack.values }
    ensures { PushedOf H.asked (λ k. k (Ok (filled n (drop at m.old.stack.values))) (world m.old))
        m.old at result m.new }
{
    match m.stack.open(at, n, n) {
        Ok(()) => Done::Well,
        Err(_) => {
            m.lose();
            Done::Failed
        }
    }
}

/// The values of the last expression behind those from `at` on, and then so many of all of them. It
/// gives one value where no more are wanted.
#[inline]
fn finished<H, E, M, C, S>(
    b: &Below<H, E, M, C, S>,
    m: &mut Machine<H>,
    p: &Loaded,
    f: &Window,
    last: &RExpr,
    at: usize,
    n: usize,
) -> Done
where
    H: Host,
    E: Fn(&mut Machine<H>, &Loaded, &Window, &RExpr, u32) -> Done + Copy,
    M: Fn(&mut Machine<H>, &Loaded, &Window, &RExpr, u32) -> Got + Copy,
    C: Fn(&mut Machine<H>, &Loaded, Site, usize, u32) -> Got + Copy,
    S: Fn(&mut Machine<H>, &Loaded, &Window, &RStat, u32) -> FlowTag + Copy,
    requires stands { Stands H.asked p.now b.now.level (E.pre b.now.expr) (E.post b.now.expr)
        (M.pre b.now.multi) (M.post b.now.multi) (C.pre b.now.call) (C.post b.now.call)
        (S.pre b.now.stmt) (S.post b.now.stmt) }
    requires fits { Fits f.now m.old.stack }
    requires within { at ≤ length m.old.stack.values }
    ensures { PushedOf H.asked (spec.exactly (level p.now b.now.level) n (drop at
        m.old.stack.values) (last.now ∷ []) (frame f.now m.old.stack) (world m.old)) m.old at result
        m.new }
{
    let wanted = n.saturating_sub(m.stack.len() - at);
    if wanted <= 1 {
        well!(b.one(m, p, f, last));
        well!(m.push());
        return fill(m, at, n);
    }
    well!(all_values(b, m, p, f, last));
    fill(m, at, n)
}

/// So many values of a list of expressions, onto the stack. The last expression gives as many as
/// are wanted (Lua 5.4 manual, sections 3.3.3 and 3.3.7).
pub fn exactly<H, E, M, C, S>(
    b: &Below<H, E, M, C, S>,
    m: &mut Machine<H>,
    p: &Loaded,
    f: &Window,
    es: &[RExpr],
    n: usize,
) -> Done
where
    H: Host,
    E: Fn(&mut Machine<H>, &Loaded, &Window, &RExpr, u32) -> Done + Copy,
    M: Fn(&mut Machine<H>, &Loaded, &Window, &RExpr, u32) -> Got + Copy,
    C: Fn(&mut Machine<H>, &Loaded, Site, usize, u32) -> Got + Copy,
    S: Fn(&mut Machine<H>, &Loaded, &Window, &RStat, u32) -> FlowTag + Copy,
    requires stands { Stands H.asked p.now b.now.level (E.pre b.now.expr) (E.post b.now.expr)
        (M.pre b.now.multi) (M.post b.now.multi) (C.pre b.now.call) (C.post b.now.call)
        (S.pre b.now.stmt) (S.post b.now.stmt) }
    requires fits { Fits f.now m.old.stack }
    ensures { PushedOf H.asked (spec.exactly (level p.now b.now.level) n [] es.now (frame f.now
        m.old.stack) (world m.old)) m.old (length m.old.stack.values) result m.new }
{
    let at = m.stack.len();
    match es.split_last() {
        None => fill(m, at, n),
        Some((last, front)) => {
            well!(ones(b, m, p, f, front, at));
            finished(b, m, p, f, last, at, n)
        }
    }
}
