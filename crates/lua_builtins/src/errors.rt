//! `assert` and `error` (Lua 5.4 manual, sections 2.3 and 6.1).
ghost use Rattle.std.specs.Prelude.{◌≡◌, ◌≤◌, ◌++◌, length, drop, codes};
ghost use Rattle.base_lib.specs.Base.{or_bad};
ghost use Rattle.lua_meaning.specs.Library as spec;
ghost use Rattle.lua_meaning.specs.Level.{Level, Loaded as Script};
ghost use Rattle.lua_machine.specs.Does.{ManyOf, world};
ghost use Rattle.lua_ops.specs.Metamethods.{text_at};
ghost use Rattle.lua_meaning.specs.Faults.{position};
ghost use Rattle.lua_machine.specs.Failing.{Failing};
ghost use Rattle.lua_builtins.specs.Gives.{FailsAs};

use crate::arguments::{argument, argument_or_nil, bad_argument};
use lua_machine::{Got, Host, Loaded, Machine, with_position};
use lua_meaning::{Fault, Site};
use lua_ops::{operand, text_at};
use object_store::{StrId, Value};

/// Raises the second argument of `assert`, or its own message where it is nil.
#[cold]
fn raise_failed<H: Host>(m: &mut Machine<H>, p: &Loaded, message: Value)
    ensures { (l : Level) (s : Site) → FailsAs H.asked (spec.failed p.now l s message (world m.old))
        m.old m.new }
{
    match message {
        Value::Nil => m.raise_at(p, 0, b"assertion failed!"),
        _ => m.fault = Fault::Raised(message),
    }
}

/// `assert`: all its arguments, where the first is true.
pub fn assert<H: Host>(m: &mut Machine<H>, p: &Loaded, site: Site, at: usize) -> Got
    requires { at ≤ length m.old.stack.values }
    ensures { (l : Level) → ManyOf H.asked (spec.assert p.now l site (drop at m.old.stack.values)
        (world m.old)) m.old at result m.new }
{
    let Some(value) = argument(m, at, 0) else {
        bad_argument(m, p, site.line, 1, "assert");
        return Got::Failed;
    };
    if value.is_truthy() {
        return Got::Many;
    }
    let message = argument_or_nil(m, at, 1);
    raise_failed(m, p, message);
    Got::Failed
}

/// The level of an error, 1 where none is given.
fn level_of<H: Host>(m: &Machine<H>, at: usize) -> Option<i64>
    requires { at ≤ length m.now.stack.values }
    ensures { (p : Script) (l : Level) (s : Site) → spec.level_of p l s (world m.now) (drop at
        m.now.stack.values) ≡ or_bad (codes "error") 2 result }
{
    let level = argument_or_nil(m, at, 1);
    if level.is_nil() {
        return Some(1);
    }
    operand(&m.state, false, level)
}

/// The line that an error of this level gets, 0 where it gets none.
fn line_of(site: Site, level: i64) -> u32
    ensures { (p : Script) (l : Level) → result ≡ spec.line_of p l site level }
{
    match level {
        1 => site.line,
        2 => site.outer,
        _ => 0,
    }
}

/// Raises a string after a position.
#[cold]
fn raise_string<H: Host>(m: &mut Machine<H>, p: &Loaded, line: u32, id: StrId)
    ensures { Failing (position p.now line ++ text_at m.old.state.texts id.number) m.old m.new }
{
    match with_position(m.alloc, p, line, text_at(&m.state, id)) {
        Ok(bytes) => m.raise(bytes.as_slice()),
        Err(_) => m.lose(),
    }
}

/// Raises a value; a string gets a position where there is one.
#[cold]
fn raise_positioned<H: Host>(m: &mut Machine<H>, p: &Loaded, line: u32, value: Value)
    ensures { (l : Level) (s : Site) → FailsAs H.asked (spec.positioned p.now l s line value (world
        m.old)) m.old m.new }
{
    if line == 0 {
        m.fault = Fault::Raised(value);
        return;
    }
    match value {
        Value::Str(id) => raise_string(m, p, line, id),
        _ => m.fault = Fault::Raised(value),
    }
}

/// `error`.
pub fn error<H: Host>(m: &mut Machine<H>, p: &Loaded, site: Site, at: usize) -> Got
    requires { at ≤ length m.old.stack.values }
    ensures { (l : Level) → ManyOf H.asked (spec.error p.now l site (drop at m.old.stack.values)
        (world m.old)) m.old at result m.new }
{
    let Some(value) = argument(m, at, 0) else {
        bad_argument(m, p, site.line, 1, "error");
        return Got::Failed;
    };
    let Some(level) = level_of(m, at) else {
        bad_argument(m, p, site.line, 2, "error");
        return Got::Failed;
    };
    raise_positioned(m, p, line_of(site, level), value);
    Got::Failed
}
