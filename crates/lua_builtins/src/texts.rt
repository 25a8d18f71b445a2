//! Texts of values, and `tostring` (Lua 5.4 manual, section 6.1).
ghost use Rattle.std.specs.Prelude.{◌≤◌, length, drop, Ok};
ghost use Rattle.base_lib.specs.Shown.{shown};
ghost use Rattle.lua_meaning.specs.Level.{Level};
ghost use Rattle.lua_meaning.specs.Levels.{level};
ghost use Rattle.lua_meaning.specs.Library as spec;
ghost use Rattle.lua_machine.specs.Does.{Stands, ManyOf, world};
ghost use Rattle.lua_builtins.specs.Gives.{TextOf};
ghost use Rattle.lua_builtins.specs.Parts.{called_text};

use crate::apart::inner;
use crate::arguments::{argument, bad_argument};
use base_lib::push_shown;
use lua_machine::{Below, Done, FlowTag, Got, Host, Loaded, Machine, Window};
use lua_meaning::Site;
use lua_ops::{handler, text_at};
use lua_program::{RExpr, RStat};
use object_store::{Event, LuaFault, Value};

/// Adds the text of a value that has no handler to the end of a line.
fn add_shown<H: Host>(m: &mut Machine<H>, value: Value, line: &mut Vec<u8>) -> Done
    ensures { TextOf H.asked (λ k. k (Ok (shown m.old.state.texts value)) (world m.old)) m.old
        line.old.items result line.new.items m.new }
{
    if push_shown(&m.state, value, line).is_err() {
        m.lose();
        return Done::Failed;
    }
    Done::Well
}

/// Adds the bytes of the value, which must be a string, to the end of a line.
fn add_string<H: Host>(m: &mut Machine<H>, p: &Loaded, site: Site, line: &mut Vec<u8>) -> Done
    ensures { (l : Level) → TextOf H.asked (spec.text_of p.now l site m.old.value (world m.old))
        m.old line.old.items result line.new.items m.new }
{
    let Value::Str(id) = m.value else {
        m.fault_at(p, site.line, LuaFault::BadToString);
        return Done::Failed;
    };
    if line.extend_from_slice(text_at(&m.state, id)).is_err() {
        m.lose();
        return Done::Failed;
    }
    Done::Well
}

/// Adds the string that a handler gives for a value to the end of a line.
#[cold]
fn add_by_handler<H, E, M, C, S>(
    b: &Below<H, E, M, C, S>,
    m: &mut Machine<H>,
    p: &Loaded,
    site: Site,
    function: Value,
    value: Value,
    line: &mut Vec<u8>,
) -> Done
where
    H: Host,
    E: Fn(&mut Machine<H>, &Loaded, &Window, &RExpr, u32) -> Done + Copy,
    M: Fn(&mut Machine<H>, &Loaded, &Window, &RExpr, u32) -> Got + Copy,
    C: Fn(&mut Machine<H>, &Loaded, Site, usize, u32) -> Got + Copy,
    S: Fn(&mut Machine<H>, &Loaded, &Window, &RStat, u32) -> FlowTag + Copy,
    requires stands { Stands H.asked p.now b.now.level (E.pre b.now.expr) (E.post b.now.expr)
        (M.pre b.now.multi) (M.post b.now.multi) (C.pre b.now.call) (C.post b.now.call)
        (S.pre b.now.stmt) (S.post b.now.stmt) }
    ensures { TextOf H.asked (called_text p.now (level p.now b.now.level) site function value (world
        m.old)) m.old line.old.items result line.new.items m.new }
{
    let at = m.stack.len();
    m.value = value;
    match m.push() {
        Done::Well => {}
        Done::Failed => return Done::Failed,
    }
    m.value = function;
    match b.invoke(m, p, inner(site), at) {
        Got::One => add_string(m, p, site, line),
        Got::Many => {
            m.take_first(at);
            add_string(m, p, site, line)
        }
        Got::Failed => Done::Failed,
    }
}

/// Adds the text of a value to the end of a line.
pub fn add_text<H, E, M, C, S>(
    b: &Below<H, E, M, C, S>,
    m: &mut Machine<H>,
    p: &Loaded,
    site: Site,
    value: Value,
    line: &mut Vec<u8>,
) -> Done
where
    H: Host,
    E: Fn(&mut Machine<H>, &Loaded, &Window, &RExpr, u32) -> Done + Copy,
    M: Fn(&mut Machine<H>, &Loaded, &Window, &RExpr, u32) -> Got + Copy,
    C: Fn(&mut Machine<H>, &Loaded, Site, usize, u32) -> Got + Copy,
    S: Fn(&mut Machine<H>, &Loaded, &Window, &RStat, u32) -> FlowTag + Copy,
    requires stands { Stands H.asked p.now b.now.level (E.pre b.now.expr) (E.post b.now.expr)
        (M.pre b.now.multi) (M.post b.now.multi) (C.pre b.now.call) (C.post b.now.call)
        (S.pre b.now.stmt) (S.post b.now.stmt) }
    ensures { TextOf H.asked (spec.to_text p.now (level p.now b.now.level) site value (world m.old))
        m.old line.old.items result line.new.items m.new }
{
    let function = handler(&m.state, Event::ToString, value);
    if function.is_nil() {
        return add_shown(m, value, line);
    }
    add_by_handler(b, m, p, site, function, value, line)
}

/// `tostring`.
pub fn to_string<H, E, M, C, S>(
    b: &Below<H, E, M, C, S>,
    m: &mut Machine<H>,
    p: &Loaded,
    site: Site,
    at: usize,
) -> Got
where
    H: Host,
    E: Fn(&mut Machine<H>, &Loaded, &Window, &RExpr, u32) -> Done + Copy,
    M: Fn(&mut Machine<H>, &Loaded, &Window, &RExpr, u32) -> Got + Copy,
    C: Fn(&mut Machine<H>, &Loaded, Site, usize, u32) -> Got + Copy,
    S: Fn(&mut Machine<H>, &Loaded, &Window, &RStat, u32) -> FlowTag + Copy,
    requires stands { Stands H.asked p.now b.now.level (E.pre b.now.expr) (E.post b.now.expr)
        (M.pre b.now.multi) (M.post b.now.multi) (C.pre b.now.call) (C.post b.now.call)
        (S.pre b.now.stmt) (S.post b.now.stmt) }
    requires within { at ≤ length m.old.stack.values }
    ensures { ManyOf H.asked (spec.to_string p.now (level p.now b.now.level) site (drop at
        m.old.stack.values) (world m.old)) m.old at result m.new }
{
    let Some(value) = argument(m, at, 0) else {
        bad_argument(m, p, site.line, 1, "tostring");
        return Got::Failed;
    };
    let mut text = Vec::new(m.alloc);
    well!(add_text(b, m, p, site, value, &mut text));
    well!(m.intern(text.as_slice()));
    m.stack.cut(at);
    Got::One
}
