//! Walks over tables: `pairs`, and the step function of `ipairs` (Lua 5.4 manual, section 6.1).
ghost use Rattle.std.specs.Prelude.{◌≤◌, length, drop};
ghost use Rattle.lua_meaning.specs.Level.{Level, Loaded as Script};
ghost use Rattle.lua_meaning.specs.Levels.{level};
ghost use Rattle.lua_meaning.specs.Names.{filled};
ghost use Rattle.lua_meaning.specs.Library as spec;
ghost use Rattle.lua_machine.specs.Does.{Stands, ManyOf, world};
ghost use Rattle.lua_builtins.specs.Gives.{Gives};
ghost use Rattle.lua_builtins.specs.Parts.{called_three};

use crate::apart::inner;
use crate::arguments::{argument, argument_or_nil, bad_argument};
use crate::given::{give_one, give_three, give_two};
use int_ops::add;
use lua_machine::{Below, Done, FlowTag, Got, Host, Loaded, Machine, Window};
use lua_meaning::Site;
use lua_operands::index;
use lua_ops::{handler, operand};
use lua_program::{RExpr, RStat};
use object_store::{Event, LibId, Value};

/// The function `next`.
const NEXT: Value = Value::Lib(LibId { number: 5 });

/// An index and its value, which is in `value`; nil alone for a nil.
fn give_item<H: Host>(m: &mut Machine<H>, at: usize, place: i64) -> Got
    requires { at ≤ length m.old.stack.values }
    ensures { (p : Script) (l : Level) (s : Site) → Gives H.asked (spec.item_values p l s place
        m.old.value) m.old at result m.new }
{
    let value = m.value;
    if value.is_nil() {
        return give_one(m, at, Value::Nil);
    }
    give_two(m, at, Value::Int(place), value)
}

/// The step function of `ipairs`: the next index and its value.
pub fn ipairs_step<H, E, M, C, S>(
    b: &Below<H, E, M, C, S>,
    m: &mut Machine<H>,
    p: &Loaded,
    site: Site,
    at: usize,
) -> Got
where
    H: Host,
    E: Fn(&mut Machine<H>, &Loaded, &Window, &RExpr, u32) -> Done + Copy,
    M: Fn(&mut Machine<H>, &Loaded, &Window, &RExpr, u32) -> Got + Copy,
    C: Fn(&mut Machine<H>, &Loaded, Site, usize, u32) -> Got + Copy,
    S: Fn(&mut Machine<H>, &Loaded, &Window, &RStat, u32) -> FlowTag + Copy,
    requires stands { Stands H.asked p.now b.now.level (E.pre b.now.expr) (E.post b.now.expr)
        (M.pre b.now.multi) (M.post b.now.multi) (C.pre b.now.call) (C.post b.now.call)
        (S.pre b.now.stmt) (S.post b.now.stmt) }
    requires within { at ≤ length m.old.stack.values }
    ensures { ManyOf H.asked (spec.ipairs_step p.now (level p.now b.now.level) site (drop at
        m.old.stack.values) (world m.old)) m.old at result m.new }
{
    let Some(object) = argument(m, at, 0) else {
        bad_argument(m, p, site.line, 1, "ipairs_step");
        return Got::Failed;
    };
    let Some(before) = operand(&m.state, false, argument_or_nil(m, at, 1)) else {
        bad_argument(m, p, site.line, 2, "ipairs_step");
        return Got::Failed;
    };
    let place = add(before, 1);
    m.value = Value::Int(place);
    well!(index(b, m, p, site.line, inner(site), object));
    give_item(m, at, place)
}

/// `pairs` where there is no handler: `next`, the table and nil.
fn pairs_of<H: Host>(m: &mut Machine<H>, p: &Loaded, site: Site, value: Value, at: usize) -> Got
    requires { at ≤ length m.old.stack.values }
    ensures { (l : Level) → ManyOf H.asked (spec.pairs_of p.now l site value (world m.old)) m.old at
        result m.new }
{
    match value {
        Value::Table(_) => give_three(m, at, NEXT, value, Value::Nil),
        _ => {
            bad_argument(m, p, site.line, 1, "pairs");
            Got::Failed
        }
    }
}

/// The first three of the values from a place of the stack on.
fn give_first_three<H: Host>(m: &mut Machine<H>, at: usize) -> Got
    requires { at ≤ length m.old.stack.values }
    ensures { Gives H.asked (filled 3 (drop at m.old.stack.values)) m.old at result m.new }
{
    match m.stack.open(at, 3, 3) {
        Ok(()) => Got::Many,
        Err(_) => {
            m.lose();
            Got::Failed
        }
    }
}

/// The first three values of a handler for a value.
#[cold]
fn pairs_handled<H, E, M, C, S>(
    b: &Below<H, E, M, C, S>,
    m: &mut Machine<H>,
    p: &Loaded,
    site: Site,
    function: Value,
    value: Value,
    at: usize,
) -> Got
where
    H: Host,
    E: Fn(&mut Machine<H>, &Loaded, &Window, &RExpr, u32) -> Done + Copy,
    M: Fn(&mut Machine<H>, &Loaded, &Window, &RExpr, u32) -> Got + Copy,
    C: Fn(&mut Machine<H>, &Loaded, Site, usize, u32) -> Got + Copy,
    S: Fn(&mut Machine<H>, &Loaded, &Window, &RStat, u32) -> FlowTag + Copy,
    requires stands { Stands H.asked p.now b.now.level (E.pre b.now.expr) (E.post b.now.expr)
        (M.pre b.now.multi) (M.post b.now.multi) (C.pre b.now.call) (C.post b.now.call)
        (S.pre b.now.stmt) (S.post b.now.stmt) }
    requires within { at ≤ length m.old.stack.values }
    ensures { ManyOf H.asked (called_three p.now (level p.now b.now.level) site function value
        (world m.old)) m.old at result m.new }
{
    m.stack.cut(at);
    m.value = value;
    well!(m.push());
    m.value = function;
    match b.invoke(m, p, inner(site), at) {
        Got::One => {
            let first = m.value;
            give_three(m, at, first, Value::Nil, Value::Nil)
        }
        Got::Many => give_first_three(m, at),
        Got::Failed => Got::Failed,
    }
}

/// `pairs`.
pub fn pairs<H, E, M, C, S>(
    b: &Below<H, E, M, C, S>,
    m: &mut Machine<H>,
    p: &Loaded,
    site: Site,
    at: usize,
) -> Got
where
    H: Host,
    E: Fn(&mut Machine<H>, &Loaded, &Window, &RExpr, u32) -> Done + Copy,
    M: Fn(&mut Machine<H>, &Loaded, &Window, &RExpr, u32) -> Got + Copy,
    C: Fn(&mut Machine<H>, &Loaded, Site, usize, u32) -> Got + Copy,
    S: Fn(&mut Machine<H>, &Loaded, &Window, &RStat, u32) -> FlowTag + Copy,
    requires stands { Stands H.asked p.now b.now.level (E.pre b.now.expr) (E.post b.now.expr)
        (M.pre b.now.multi) (M.post b.now.multi) (C.pre b.now.call) (C.post b.now.call)
        (S.pre b.now.stmt) (S.post b.now.stmt) }
    requires within { at ≤ length m.old.stack.values }
    ensures { ManyOf H.asked (spec.pairs p.now (level p.now b.now.level) site (drop at
        m.old.stack.values) (world m.old)) m.old at result m.new }
{
    let Some(value) = argument(m, at, 0) else {
        bad_argument(m, p, site.line, 1, "pairs");
        return Got::Failed;
    };
    let function = handler(&m.state, Event::Pairs, value);
    if function.is_nil() {
        return pairs_of(m, p, site, value, at);
    }
    pairs_handled(b, m, p, site, function, value, at)
}
