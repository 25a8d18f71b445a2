//! Calls on a stack of their own, so that a failure leaves the stack before as it was.
ghost use Rattle.std.specs.Prelude.{◌≡◌, drop};
ghost use Rattle.lua_meaning.specs.Levels.{level};
ghost use Rattle.lua_meaning.specs.Names.{first};
ghost use Rattle.lua_machine.specs.Does.{Stands, world};
ghost use Rattle.lua_builtins.specs.Apart.{ApartOf};

use lua_machine::{Below, Done, FlowTag, Got, Host, Loaded, Machine, Stack, Window};
use lua_meaning::Site;
use lua_program::{RExpr, RStat};
use object_store::Value;
use std::mem::replace;

/// The site of a call that the library function of this site makes.
#[inline]
pub fn inner(site: Site) -> Site
    ensures { result ≡ record { line = 0; outer = site.line } }
{
    Site {
        line: 0,
        outer: site.line,
    }
}

/// Calls a function with the arguments from a place of the stack on, without the first `skip`. The
/// stack is cut to the place. The values, where they are many, are those of the stack that is
/// given.
pub fn apart<H, E, M, C, S>(
    b: &Below<H, E, M, C, S>,
    m: &mut Machine<H>,
    p: &Loaded,
    site: Site,
    function: Value,
    at: usize,
    skip: usize,
) -> (Got, Stack)
where
    H: Host,
    E: Fn(&mut Machine<H>, &Loaded, &Window, &RExpr, u32) -> Done + Copy,
    M: Fn(&mut Machine<H>, &Loaded, &Window, &RExpr, u32) -> Got + Copy,
    C: Fn(&mut Machine<H>, &Loaded, Site, usize, u32) -> Got + Copy,
    S: Fn(&mut Machine<H>, &Loaded, &Window, &RStat, u32) -> FlowTag + Copy,
    requires stands { Stands H.asked p.now b.now.level (E.pre b.now.expr) (E.post b.now.expr)
        (M.pre b.now.multi) (M.post b.now.multi) (C.pre b.now.call) (C.post b.now.call)
        (S.pre b.now.stmt) (S.post b.now.stmt) }
    ensures { ApartOf H.asked ((level p.now b.now.level).call function (drop skip (drop at
        m.old.stack.values)) site (world m.old)) m.old at result.0 result.1 m.new }
{
    let Ok(arguments) = m.stack.beyond(m.alloc, at, skip) else {
        m.stack.cut(at);
        m.lose();
        return (Got::Failed, Stack::new(m.alloc));
    };
    m.stack.cut(at);
    m.value = function;
    let outer = replace(&mut m.stack, arguments);
    let got = b.invoke(m, p, site, 0);
    let values = replace(&mut m.stack, outer);
    (got, values)
}

/// The first value of a stack, nil where it has none.
#[inline]
pub fn first_of(stack: &Stack) -> Value
    ensures { result ≡ first stack.now.values }
{
    if stack.len() > 0 {
        return stack.at(0, 0);
    }
    Value::Nil
}
