//! Operators of two integers (Lua 5.4 manual, sections 3.4.1 to 3.4.4).
ghost use Rattle.std.specs.Prelude.{◌≡◌};
ghost use Rattle.lua_operands.specs.Plain as spec;

use int_ops::{
    add, bit_and, bit_or, bit_xor, floor_div, floor_mod, mul, shift_left, shift_right, sub,
};
use lua_tree::Binary;
use object_store::Value;

/// The quotient of two integers, none for a divisor of 0.
#[inline(always)]
fn quotient(a: i64, b: i64) -> Option<Value>
    ensures { result ≡ spec.plain Binary.FloorDiv a b }
{
    match floor_div(a, b) {
        Ok(n) => Some(Value::Int(n)),
        Err(_) => None,
    }
}

/// The remainder of two integers, none for a divisor of 0.
#[inline(always)]
fn remainder(a: i64, b: i64) -> Option<Value>
    ensures { result ≡ spec.plain Binary.Mod a b }
{
    match floor_mod(a, b) {
        Ok(n) => Some(Value::Int(n)),
        Err(_) => None,
    }
}

/// What an operator gives of two integers. None where it gives a string or a fault.
#[inline(always)]
pub fn plain(op: Binary, a: i64, b: i64) -> Option<Value>
    ensures { result ≡ spec.plain op a b }
{
    match op {
        Binary::Lt => Some(Value::from_bool(a < b)),
        Binary::Gt => Some(Value::from_bool(b < a)),
        Binary::Le => Some(Value::from_bool(!(b < a))),
        Binary::Ge => Some(Value::from_bool(!(a < b))),
        Binary::Ne => Some(Value::from_bool(a != b)),
        Binary::Eq => Some(Value::from_bool(a == b)),
        Binary::BitOr => Some(Value::Int(bit_or(a, b))),
        Binary::BitXor => Some(Value::Int(bit_xor(a, b))),
        Binary::BitAnd => Some(Value::Int(bit_and(a, b))),
        Binary::ShiftLeft => Some(Value::Int(shift_left(a, b))),
        Binary::ShiftRight => Some(Value::Int(shift_right(a, b))),
        Binary::Concat => None,
        Binary::Add => Some(Value::Int(add(a, b))),
        Binary::Sub => Some(Value::Int(sub(a, b))),
        Binary::Mul => Some(Value::Int(mul(a, b))),
        Binary::FloorDiv => quotient(a, b),
        Binary::Mod => remainder(a, b),
    }
}
