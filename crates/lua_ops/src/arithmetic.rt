//! Arithmetic and bits (Lua 5.4 manual, sections 3.4.1 to 3.4.3).
ghost use Rattle.std.specs.Prelude.{◌≡◌, Some};
ghost use Rattle.lua_ops.specs.Metamethods as spec;

use crate::handlers::{handler_call, text_at};
use crate::step::{ArithOp, Step};
use int_ops::{
    add, bit_and, bit_not, bit_or, bit_xor, floor_div, floor_mod, mul, neg, read_integer,
    shift_left, shift_right, sub,
};
use object_store::{Event, Kind, LuaFault, State, Value};

/// The metamethod of an operator.
fn event_of(op: ArithOp) -> Event
    ensures { result ≡ spec.event_of op }
{
    match op {
        ArithOp::Add => Event::Add,
        ArithOp::Sub => Event::Sub,
        ArithOp::Mul => Event::Mul,
        ArithOp::FloorDiv => Event::IDiv,
        ArithOp::Mod => Event::Mod,
        ArithOp::Neg => Event::Unm,
        ArithOp::BitAnd => Event::BAnd,
        ArithOp::BitOr => Event::BOr,
        ArithOp::BitXor => Event::BXor,
        ArithOp::BitNot => Event::BNot,
        ArithOp::ShiftLeft => Event::Shl,
        ArithOp::ShiftRight => Event::Shr,
    }
}

/// Whether the operator takes integers alone.
fn is_bitwise(op: ArithOp) -> bool
    ensures { result ≡ spec.is_bitwise op }
{
    matches!(
        op,
        ArithOp::BitAnd
            | ArithOp::BitOr
            | ArithOp::BitXor
            | ArithOp::BitNot
            | ArithOp::ShiftLeft
            | ArithOp::ShiftRight
    )
}

/// The integer that an operand counts as: an integer itself, and for an operator that isn't
/// bitwise a string that reads as one.
pub fn operand(state: &State, bitwise: bool, value: Value) -> Option<i64>
    ensures { result ≡ spec.operand state.now.texts bitwise value }
{
    match value {
        Value::Int(n) => Some(n),
        Value::Str(id) => {
            if bitwise {
                None
            } else {
                read_integer(text_at(state, id))
            }
        }
        _ => None,
    }
}

/// The floor of a quotient.
#[inline]
fn quotient(a: i64, b: i64) -> Result<i64, LuaFault>
    ensures { result ≡ spec.computed ArithOp.FloorDiv a b }
{
    match floor_div(a, b) {
        Ok(n) => Ok(n),
        Err(_) => Err(LuaFault::ZeroDivisor),
    }
}

/// What is left of a division whose quotient is its floor.
#[inline]
fn remainder(a: i64, b: i64) -> Result<i64, LuaFault>
    ensures { result ≡ spec.computed ArithOp.Mod a b }
{
    match floor_mod(a, b) {
        Ok(n) => Ok(n),
        Err(_) => Err(LuaFault::ZeroDivisor),
    }
}

/// The operator on integers.
#[inline]
fn computed(op: ArithOp, a: i64, b: i64) -> Result<i64, LuaFault>
    ensures { result ≡ spec.computed op a b }
{
    match op {
        ArithOp::Add => Ok(add(a, b)),
        ArithOp::Sub => Ok(sub(a, b)),
        ArithOp::Mul => Ok(mul(a, b)),
        ArithOp::FloorDiv => quotient(a, b),
        ArithOp::Mod => remainder(a, b),
        ArithOp::Neg => Ok(neg(a)),
        ArithOp::BitAnd => Ok(bit_and(a, b)),
        ArithOp::BitOr => Ok(bit_or(a, b)),
        ArithOp::BitXor => Ok(bit_xor(a, b)),
        ArithOp::BitNot => Ok(bit_not(a)),
        ArithOp::ShiftLeft => Ok(shift_left(a, b)),
        ArithOp::ShiftRight => Ok(shift_right(a, b)),
    }
}

/// The operator on integers, as an answer.
#[inline]
fn integer_step(op: ArithOp, a: i64, b: i64) -> Result<Step, LuaFault>
    ensures { result ≡ spec.integer_step (spec.computed op a b) }
{
    let n = computed(op, a, b)?;
    Ok(Step::Raw(Value::Int(n)))
}

/// The fault of an operand that counts as no integer.
fn not_number(bitwise: bool, value: Value) -> LuaFault
    ensures { result ≡ spec.not_number bitwise value }
{
    if bitwise {
        LuaFault::NotBits(value.kind())
    } else {
        LuaFault::NotArith(value.kind())
    }
}

/// The operator on operands that are not both integers.
#[tactic(auto, unfolding(crate::specs::Metamethods::arith_step))]
#[inline(never)]
fn converted(state: &State, op: ArithOp, a: Value, b: Value) -> Result<Step, LuaFault>
    ensures { result ≡ spec.arith_step state.now.texts state.now.heap op a b }
{
    let bitwise = is_bitwise(op);
    let first = operand(state, bitwise, a);
    if let Some(m) = first
        && let Some(n) = operand(state, bitwise, b)
    {
        return integer_step(op, m, n);
    }
    if let Some(step) = handler_call(state, event_of(op), a, b) {
        return Ok(step);
    }
    let faulty = if first.is_some() { b } else { a };
    Err(not_number(bitwise, faulty))
}

/// The integer that an operator of arithmetic or bits gives, or the call of a handler. An
/// operator of one operand is given it twice. Arithmetic takes also strings that read as
/// integers. `ZeroDivisor` comes for `//` and `%` alone; `NotArith` and `NotBits` name the kind
/// of the first operand that counts as no integer, where neither has a handler.
#[tactic(auto, unfolding(crate::specs::Metamethods::arith_step))]
#[inline]
pub fn arith(state: &State, op: ArithOp, a: Value, b: Value) -> Result<Step, LuaFault>
    ensures { result ≡ spec.arith_step state.now.texts state.now.heap op a b }
{
    if let Value::Int(m) = a
        && let Value::Int(n) = b
    {
        return integer_step(op, m, n);
    }
    converted(state, op, a, b)
}
