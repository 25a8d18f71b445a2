//! Comparison (Lua 5.4 manual, section 3.4.4).
ghost use Rattle.std.specs.Prelude.{◌≡◌};
ghost use Rattle.object_store.specs.Kind.{kind_of};
ghost use Rattle.lua_ops.specs.Metamethods as spec;

use crate::handlers::{either_handler, handler_call, text_at};
use crate::step::{CompareOp, Step};
use object_store::{Event, LuaFault, State, Value};

/// Whether a text is before another, byte by byte.
#[tactic(auto, using(crate::proofs::TextOrder::text_rules))]
fn text_lt(a: &[u8], b: &[u8]) -> bool
    ensures { result ≡ spec.text_lt a.now b.now }
{
    a < b
}

/// Whether an integer or a string is less than another.
#[inline]
fn directly_less(state: &State, a: Value, b: Value) -> Option<bool>
    ensures { result ≡ spec.directly_less state.now.texts a b }
{
    match a {
        Value::Int(m) => match b {
            Value::Int(n) => Some(m < n),
            _ => None,
        },
        Value::Str(s) => match b {
            Value::Str(t) => Some(text_lt(text_at(state, s), text_at(state, t))),
            _ => None,
        },
        _ => None,
    }
}

/// The handler's answer for an order of values that are not compared themselves.
#[inline(never)]
fn ordered_by_handler(state: &State, event: Event, a: Value, b: Value) -> Result<Step, LuaFault>
    ensures { result ≡
        spec.with_handler state.now.heap event a b (LuaFault.NotOrdered (kind_of a) (kind_of b)) }
{
    match handler_call(state, event, a, b) {
        Some(step) => Ok(step),
        None => Err(LuaFault::NotOrdered(a.kind(), b.kind())),
    }
}

/// `a < b`.
#[inline]
fn less(state: &State, a: Value, b: Value) -> Result<Step, LuaFault>
    ensures { let less = spec.directly_less state.now.texts a b in
        result ≡ spec.less_on state.now.heap Event.Lt a b less }
{
    match directly_less(state, a, b) {
        Some(is_less) => Ok(Step::Raw(Value::from_bool(is_less))),
        None => ordered_by_handler(state, Event::Lt, a, b),
    }
}

/// `a <= b`.
#[inline]
fn at_most(state: &State, a: Value, b: Value) -> Result<Step, LuaFault>
    ensures { let greater = spec.directly_less state.now.texts b a in
        result ≡ spec.less_on state.now.heap Event.Le a b (spec.negated greater) }
{
    match directly_less(state, b, a) {
        Some(is_greater) => Ok(Step::Raw(Value::from_bool(!is_greater))),
        None => ordered_by_handler(state, Event::Le, a, b),
    }
}

/// `a == b` for two different tables.
#[inline(never)]
fn equal_tables(state: &State, a: Value, b: Value) -> Step
    ensures { result ≡ spec.equal_on a b (spec.either_handler state.now.heap Event.Eq a b) }
{
    let function = either_handler(state, Event::Eq, a, b);
    if function.is_nil() {
        return Step::Raw(Value::False);
    }
    Step::Handler {
        function,
        first: a,
        second: b,
    }
}

/// `a == b`.
#[inline]
fn equal(state: &State, a: Value, b: Value) -> Step
    ensures { result ≡ spec.equal_step state.now.heap a b }
{
    if a == b {
        return Step::Raw(Value::True);
    }
    if let Value::Table(_) = a
        && let Value::Table(_) = b
    {
        return equal_tables(state, a, b);
    }
    Step::Raw(Value::False)
}

/// The negation of an answer that is a boolean. A call stays.
#[inline]
fn opposite(step: Step) -> Step
    ensures { result ≡ spec.opposite step }
{
    match step {
        Step::Raw(Value::True) => Step::Raw(Value::False),
        Step::Raw(Value::False) => Step::Raw(Value::True),
        _ => step,
    }
}

/// The boolean that a comparison gives, or the call of a handler, whose value the caller makes a
/// boolean, and negates for `Ne`. A handler of `Gt` and `Ge` is called with the operands swapped.
/// `NotOrdered` names the kinds of the operands as the handler would get them.
#[tactic(auto, unfolding(crate::specs::Metamethods::compare_step))]
#[inline]
pub fn compare(state: &State, op: CompareOp, a: Value, b: Value) -> Result<Step, LuaFault>
    ensures { result ≡ spec.compare_step state.now.texts state.now.heap op a b }
{
    match op {
        CompareOp::Eq => Ok(equal(state, a, b)),
        CompareOp::Ne => Ok(opposite(equal(state, a, b))),
        CompareOp::Lt => less(state, a, b),
        CompareOp::Le => at_most(state, a, b),
        CompareOp::Gt => less(state, b, a),
        CompareOp::Ge => at_most(state, b, a),
    }
}
