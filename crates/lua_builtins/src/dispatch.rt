//! All library functions by their numbers.
ghost use Rattle.std.specs.Prelude.{◌≤◌, length, drop};
ghost use Rattle.lua_meaning.specs.Levels.{level};
ghost use Rattle.lua_meaning.specs.Library as spec;
ghost use Rattle.lua_machine.specs.Does.{Stands, ManyOf, world};

use crate::asking::lanes_call;
use crate::errors::{assert, error};
use crate::lanes_table::require;
use crate::plain::plain;
use crate::printing::print;
use crate::protected::{pcall, xpcall};
use crate::table::function_of;
use crate::texts::to_string;
use crate::walks::{ipairs_step, pairs};
use lua_machine::{Below, Done, FlowTag, Got, Host, Loaded, Machine, Window};
use lua_meaning::{Builtin, Library, Site};
use lua_program::{RExpr, RStat};
use object_store::{Kind, LibId, LuaFault};

/// A call of a function that calls functions, raises errors or asks the host.
fn builtin_call<H, E, M, C, S>(
    b: &Below<H, E, M, C, S>,
    m: &mut Machine<H>,
    p: &Loaded,
    site: Site,
    builtin: Builtin,
    at: usize,
) -> Got
where
    H: Host,
    E: Fn(&mut Machine<H>, &Loaded, &Window, &RExpr, u32) -> Done + Copy,
    M: Fn(&mut Machine<H>, &Loaded, &Window, &RExpr, u32) -> Got + Copy,
    C: Fn(&mut Machine<H>, &Loaded, Site, usize, u32) -> Got + Copy,
    S: Fn(&mut Machine<H>, &Loaded, &Window, &RStat, u32) -> FlowTag + Copy,
    requires stands { Stands H.asked p.now b.now.level (E.pre b.now.expr) (E.post b.now.expr)
        (M.pre b.now.multi) (M.post b.now.multi) (C.pre b.now.call) (C.post b.now.call)
        (S.pre b.now.stmt) (S.post b.now.stmt) }
    requires within { at ≤ length m.old.stack.values }
    ensures { ManyOf H.asked (spec.builtin_call p.now (level p.now b.now.level) site builtin
        (drop at m.old.stack.values) (world m.old)) m.old at result m.new }
{
    match builtin {
        Builtin::Assert => assert(m, p, site, at),
        Builtin::Error => error(m, p, site, at),
        Builtin::IpairsStep => ipairs_step(b, m, p, site, at),
        Builtin::Pairs => pairs(b, m, p, site, at),
        Builtin::Pcall => pcall(b, m, p, site, at),
        Builtin::Print => print(b, m, p, site, at),
        Builtin::Require => require(m, p, site, at),
        Builtin::ToString => to_string(b, m, p, site, at),
        Builtin::Xpcall => xpcall(b, m, p, site, at),
    }
}

/// A call of the library function of this number, with the arguments from a place of the stack on.
/// A number of no function is `NotCallable`. The faults have the position of the call expression
/// at the site.
#[inline(never)]
pub fn library_call<H, E, M, C, S>(
    b: &Below<H, E, M, C, S>,
    m: &mut Machine<H>,
    p: &Loaded,
    site: Site,
    id: LibId,
    at: usize,
) -> Got
where
    H: Host,
    E: Fn(&mut Machine<H>, &Loaded, &Window, &RExpr, u32) -> Done + Copy,
    M: Fn(&mut Machine<H>, &Loaded, &Window, &RExpr, u32) -> Got + Copy,
    C: Fn(&mut Machine<H>, &Loaded, Site, usize, u32) -> Got + Copy,
    S: Fn(&mut Machine<H>, &Loaded, &Window, &RStat, u32) -> FlowTag + Copy,
    requires stands { Stands H.asked p.now b.now.level (E.pre b.now.expr) (E.post b.now.expr)
        (M.pre b.now.multi) (M.post b.now.multi) (C.pre b.now.call) (C.post b.now.call)
        (S.pre b.now.stmt) (S.post b.now.stmt) }
    requires within { at ≤ length m.old.stack.values }
    ensures { ManyOf H.asked (spec.library_call p.now (level p.now b.now.level) site
        (spec.function_of id.number) (drop at m.old.stack.values) (world m.old)) m.old at result
        m.new }
{
    match function_of(id) {
        Some(Library::Plain(function)) => plain(m, p, site, function, at),
        Some(Library::Builtin(builtin)) => builtin_call(b, m, p, site, builtin, at),
        Some(Library::Lanes(function)) => lanes_call(m, p, site, function, at),
        None => {
            m.fault_at(p, site.line, LuaFault::NotCallable(Kind::Function));
            Got::Failed
        }
    }
}
