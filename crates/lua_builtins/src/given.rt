//! Values that a call gives in place of its arguments, which stand on the stack from a place on.
ghost use Rattle.std.specs.Prelude.{◌≤◌, [], ◌∷◌, length, drop};
ghost use Rattle.base_lib.specs.Given.{given_values};
ghost use Rattle.lua_builtins.specs.Gives.{Gives};

use base_lib::Given;
use lua_machine::{Done, Got, Host, Machine};
use object_store::Value;

/// No value.
#[inline]
pub fn give_none<H: Host>(m: &mut Machine<H>, at: usize) -> Got
    requires { at ≤ length m.old.stack.values }
    ensures { Gives H.asked [] m.old at result m.new }
{
    m.stack.cut(at);
    Got::Many
}

/// One value.
#[inline]
pub fn give_one<H: Host>(m: &mut Machine<H>, at: usize, value: Value) -> Got
    requires { at ≤ length m.old.stack.values }
    ensures { Gives H.asked (value ∷ []) m.old at result m.new }
{
    m.stack.cut(at);
    m.value = value;
    Got::One
}

/// Two values.
#[inline]
pub fn give_two<H: Host>(m: &mut Machine<H>, at: usize, first: Value, second: Value) -> Got
    requires { at ≤ length m.old.stack.values }
    ensures { Gives H.asked (first ∷ second ∷ []) m.old at result m.new }
{
    m.stack.cut(at);
    m.value = first;
    well!(m.push());
    m.value = second;
    well!(m.push());
    Got::Many
}

/// Three values.
#[inline]
pub fn give_three<H: Host>(
    m: &mut Machine<H>,
    at: usize,
    first: Value,
    second: Value,
    third: Value,
) -> Got
    requires { at ≤ length m.old.stack.values }
    ensures { Gives H.asked (first ∷ second ∷ third ∷ []) m.old at result m.new }
{
    m.stack.cut(at);
    m.value = first;
    well!(m.push());
    m.value = second;
    well!(m.push());
    m.value = third;
    well!(m.push());
    Got::Many
}

/// The arguments from a place on, counted from 0.
#[inline]
pub fn give_from<H: Host>(m: &mut Machine<H>, at: usize, place: usize) -> Got
    requires { at ≤ length m.old.stack.values }
    ensures { Gives H.asked (drop place (drop at m.old.stack.values)) m.old at result m.new }
{
    if place > m.stack.len() - at {
        m.stack.cut(at);
        return Got::Many;
    }
    m.stack.lower(at, at + place);
    Got::Many
}

/// What a library function gives.
#[inline]
pub fn give<H: Host>(m: &mut Machine<H>, at: usize, given: Given) -> Got
    requires { at ≤ length m.old.stack.values }
    ensures { Gives H.asked (given_values given (drop at m.old.stack.values)) m.old at result
        m.new }
{
    match given {
        Given::Nothing => give_none(m, at),
        Given::One(value) => give_one(m, at, value),
        Given::Two(first, second) => give_two(m, at, first, second),
        Given::Three(first, second, third) => give_three(m, at, first, second, third),
        Given::From(place) => give_from(m, at, place),
    }
}
