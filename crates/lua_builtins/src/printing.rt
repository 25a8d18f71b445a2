//! `print` (Lua 5.4 manual, section 6.1).
ghost use Rattle.std.specs.Prelude.{◌≤◌, ◌++◌, length, drop, codes};
ghost use Rattle.lanes_lib.specs.declared.ask.Ask.TheVariants as ask;
ghost use Rattle.lua_meaning.specs.Level.{Level};
ghost use Rattle.lua_meaning.specs.Levels.{level};
ghost use Rattle.lua_meaning.specs.Library as spec;
ghost use Rattle.lua_machine.specs.Does.{Stands, ManyOf, world};
ghost use Rattle.lua_builtins.specs.Gives.{RestOf};

use crate::arguments::argument;
use crate::asking::asked;
use crate::texts::add_text;
use lanes_arena::Bytes;
use lanes_lib::Ask;
use lua_machine::{Below, Done, FlowTag, Got, Host, Loaded, Machine, Window};
use lua_meaning::Site;
use lua_program::{RExpr, RStat};

/// Adds the texts of the arguments from a place of the stack on to the end of a line, each after a
/// tab.
fn add_rest<H, E, M, C, S>(
    b: &Below<H, E, M, C, S>,
    m: &mut Machine<H>,
    p: &Loaded,
    site: Site,
    from: usize,
    line: &mut Vec<u8>,
) -> Done
where
    H: Host,
    E: Fn(&mut Machine<H>, &Loaded, &Window, &RExpr, u32) -> Done + Copy,
    M: Fn(&mut Machine<H>, &Loaded, &Window, &RExpr, u32) -> Got + Copy,
    C: Fn(&mut Machine<H>, &Loaded, Site, usize, u32) -> Got + Copy,
    S: Fn(&mut Machine<H>, &Loaded, &Window, &RStat, u32) -> FlowTag + Copy,
    requires stands { Stands H.asked p.now b.now.level (E.pre b.now.expr) (E.post b.now.expr)
        (M.pre b.now.multi) (M.post b.now.multi) (C.pre b.now.call) (C.post b.now.call)
        (S.pre b.now.stmt) (S.post b.now.stmt) }
    requires within { from ≤ length m.old.stack.values }
    ensures { RestOf H.asked p.now (level p.now b.now.level) site (drop from m.old.stack.values)
        m.old line.old.items result line.new.items m.new }
{
    for place in from..m.stack.len() {
        let value = m.stack.at(place, 0);
        if line.push(b'\t').is_err() {
            m.lose();
            return Done::Failed;
        }
        match add_text(b, m, p, site, value, line) {
            Done::Well => {}
            Done::Failed => return Done::Failed,
        }
    }
    Done::Well
}

/// Asks the host to print a line.
fn print_line<H: Host>(
    m: &mut Machine<H>,
    p: &Loaded,
    site: Site,
    mut line: Vec<u8>,
    at: usize,
) -> Got
    requires { at ≤ length m.old.stack.values }
    ensures { (l : Level) → ManyOf H.asked (spec.asked p.now l site (ask.Print (line.items ++ codes
        "\n")) (world m.old)) m.old at result m.new }
{
    if line.push(b'\n').is_err() {
        m.lose();
        return Got::Failed;
    }
    match Bytes::from_vec(line) {
        Ok(text) => asked(m, p, site, Ask::Print(text), at),
        Err(_) => {
            m.lose();
            Got::Failed
        }
    }
}

/// `print`: one line, the texts of the arguments with tabs between them.
pub fn print<H, E, M, C, S>(
    b: &Below<H, E, M, C, S>,
    m: &mut Machine<H>,
    p: &Loaded,
    site: Site,
    at: usize,
) -> Got
where
    H: Host,
    E: Fn(&mut Machine<H>, &Loaded, &Window, &RExpr, u32) -> Done + Copy,
    M: Fn(&mut Machine<H>, &Loaded, &Window, &RExpr, u32) -> Got + Copy,
    C: Fn(&mut Machine<H>, &Loaded, Site, usize, u32) -> Got + Copy,
    S: Fn(&mut Machine<H>, &Loaded, &Window, &RStat, u32) -> FlowTag + Copy,
    requires stands { Stands H.asked p.now b.now.level (E.pre b.now.expr) (E.post b.now.expr)
        (M.pre b.now.multi) (M.post b.now.multi) (C.pre b.now.call) (C.post b.now.call)
        (S.pre b.now.stmt) (S.post b.now.stmt) }
    requires within { at ≤ length m.old.stack.values }
    ensures { ManyOf H.asked (spec.print p.now (level p.now b.now.level) site (drop at
        m.old.stack.values) (world m.old)) m.old at result m.new }
{
    let mut line = Vec::new(m.alloc);
    let Some(value) = argument(m, at, 0) else {
        return print_line(m, p, site, line, at);
    };
    let _count = m.stack.len();
    let next = at + 1;
    well!(add_text(b, m, p, site, value, &mut line));
    well!(add_rest(b, m, p, site, next, &mut line));
    print_line(m, p, site, line, at)
}
