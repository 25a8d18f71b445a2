//! Asks of the host.
ghost use Rattle.std.specs.Prelude.{◌≡◌, ◌≤◌, length, drop};
ghost use Rattle.lanes_lib.specs.Face as face;
ghost use Rattle.lua_meaning.specs.Level.{Level};
ghost use Rattle.lua_meaning.specs.Library as spec;
ghost use Rattle.lua_machine.specs.Does.{ManyOf, world};
ghost use Rattle.lua_builtins.specs.Asking.{Refusing, kind_is};

use crate::answers::{took_linda, took_new, took_print};
use lanes_asks::ask_of;
use lanes_lib::{Ask, AskFault, LanesFn};
use lua_machine::{Got, Host, Loaded, Machine};
use lua_meaning::Site;

/// Which answers an ask may have.
#[derive(Clone, Copy)]
pub enum AskKind {
    Print,
    NewLinda,
    Linda,
}

/// Which answers an ask may have.
fn kind_of(ask: &Ask) -> AskKind
    ensures { result ≡ kind_is ask.now }
{
    match ask {
        Ask::Print(_) => AskKind::Print,
        Ask::NewLinda => AskKind::NewLinda,
        Ask::Linda { .. } => AskKind::Linda,
    }
}

/// Asks the host, and gives what its answer gives in place of the arguments from a place of the
/// stack on.
pub fn asked<H: Host>(m: &mut Machine<H>, p: &Loaded, site: Site, ask: Ask, at: usize) -> Got
    requires { at ≤ length m.old.stack.values }
    ensures { (l : Level) → ManyOf H.asked (spec.asked p.now l site ask (world m.old)) m.old at
        result m.new }
{
    let kind = kind_of(&ask);
    let answer = m.host.ask(ask);
    match kind {
        AskKind::Print => took_print(m, p, site, &answer, at),
        AskKind::NewLinda => took_new(m, p, site, &answer, at),
        AskKind::Linda => took_linda(m, p, site, &answer, at),
    }
}

/// Raises why a call of the Lanes face has no answer.
#[cold]
pub fn refuse<H: Host>(m: &mut Machine<H>, p: &Loaded, line: u32, fault: AskFault)
    ensures { Refusing p.now line fault m.old m.new }
{
    match fault {
        AskFault::Lua(fault) => m.fault_at(p, line, fault),
        AskFault::TooManyLindas => m.raise_at(p, line, b"too many lindas"),
        AskFault::NotBuilt => m.raise_at(p, line, b"not built yet"),
    }
}

/// A call of a function of the Lanes face.
pub fn lanes_call<H: Host>(
    m: &mut Machine<H>,
    p: &Loaded,
    site: Site,
    function: LanesFn,
    at: usize,
) -> Got
    requires { at ≤ length m.old.stack.values }
    ensures { (l : Level) → ManyOf H.asked (spec.asking p.now l site (face.ask_of
        m.old.state.texts function (drop at m.old.stack.values)) (world m.old)) m.old at result
        m.new }
{
    match ask_of(m.alloc, &m.state, function, m.stack.from(at)) {
        Ok(ask) => asked(m, p, site, ask, at),
        Err(fault) => {
            refuse(m, p, site.line, fault);
            Got::Failed
        }
    }
}
