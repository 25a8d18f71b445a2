//! `a .. b`.
ghost use Rattle.std.specs.Prelude.{◌≡◌, ◌≤◌, ◌↔◌, ◌-◌, [], ◌∷◌, length, Err, IsTrue};
ghost use Rattle.lua_meaning.specs.Levels.{level};
ghost use Rattle.lua_meaning.specs.Operate as spec;
ghost use Rattle.lua_machine.specs.Does.{Fits, Stands, OneOf, world};

use crate::handlers::finish;
use lua_machine::{Below, Done, FlowTag, Got, Host, Loaded, Machine, Window};
use lua_meaning::Site;
use lua_ops::Step;
use lua_program::{RExpr, RStat};
use object_store::{LuaFault, Value};

/// The concatenation of a first operand and the one in `value`.
pub fn concat<H, E, M, C, S>(
    b: &Below<H, E, M, C, S>,
    m: &mut Machine<H>,
    p: &Loaded,
    line: u32,
    from: Site,
    x: Value,
) -> Done
where
    H: Host,
    E: Fn(&mut Machine<H>, &Loaded, &Window, &RExpr, u32) -> Done + Copy,
    M: Fn(&mut Machine<H>, &Loaded, &Window, &RExpr, u32) -> Got + Copy,
    C: Fn(&mut Machine<H>, &Loaded, Site, usize, u32) -> Got + Copy,
    S: Fn(&mut Machine<H>, &Loaded, &Window, &RStat, u32) -> FlowTag + Copy,
    requires stands { Stands H.asked p.now b.now.level (E.pre b.now.expr) (E.post b.now.expr)
        (M.pre b.now.multi) (M.post b.now.multi) (C.pre b.now.call) (C.post b.now.call)
        (S.pre b.now.stmt) (S.post b.now.stmt) }
    ensures { OneOf H.asked (spec.concat p.now (level p.now b.now.level) line from x m.old.value
        (world m.old)) m.old result m.new }
{
    let y = m.value;
    let step = lua_ops::concat(m.alloc, &mut m.state, x, y);
    if is_lost(&step) {
        m.lose();
        return Done::Failed;
    }
    finish(b, m, p, line, from, step)
}

/// Whether memory ran out.
fn is_lost(step: &Result<Step, LuaFault>) -> bool
    ensures { IsTrue result ↔ (step.now ≡ Err LuaFault.Memory) }
{
    matches!(step, Err(LuaFault::Memory))
}
