//! Arithmetic and bits. The integers are what the reference Lua gives.

use crate::world::{World, call, is_fault, is_step, is_value, lib};
use lua_ops::{ArithOp, arith};
use object_store::{Event, State, Value};

/// An operator, two operands, and what it gives.
const ROWS: [(ArithOp, i64, i64, i64); 16] = [
    (ArithOp::Add, i64::MAX, 1, i64::MIN),
    (ArithOp::Sub, 7, 10, -3),
    (ArithOp::Mul, -7, 3, -21),
    (ArithOp::FloorDiv, -7, 2, -4),
    (ArithOp::FloorDiv, i64::MIN, -1, i64::MIN),
    (ArithOp::Mod, -7, 2, 1),
    (ArithOp::Mod, 7, -2, -1),
    (ArithOp::Neg, 5, 5, -5),
    (ArithOp::Neg, i64::MIN, i64::MIN, i64::MIN),
    (ArithOp::BitAnd, -7, 3, 1),
    (ArithOp::BitOr, -7, 3, -5),
    (ArithOp::BitXor, -7, 3, -6),
    (ArithOp::BitNot, 5, 5, -6),
    (ArithOp::ShiftLeft, -1, 63, i64::MIN),
    (ArithOp::ShiftLeft, 1, 64, 0),
    (ArithOp::ShiftRight, -1, 63, 1),
];

/// Whether an operator gives an integer for two others.
fn gives(state: &State, op: ArithOp, a: i64, b: i64, wanted: i64) -> bool {
    let answer = arith(state, op, Value::Int(a), Value::Int(b));
    is_value(answer, Value::Int(wanted))
}

#[test]
fn integers_are_computed(rt: HostRuntime) {
    let world = World::new(rt.alloc(), &rt);
    for (op, a, b, wanted) in ROWS {
        assert!(rt; gives(&world.state, op, a, b, wanted));
    }
}

#[test]
fn a_divisor_of_zero_is_refused(rt: HostRuntime) {
    let world = World::new(rt.alloc(), &rt);
    let (one, zero) = (Value::Int(1), Value::Int(0));
    let quotient = arith(&world.state, ArithOp::FloorDiv, one, zero);
    assert!(rt; is_fault(rt.alloc(), quotient, "division by zero"));
    let remainder = arith(&world.state, ArithOp::Mod, one, zero);
    assert!(rt; is_fault(rt.alloc(), remainder, "division by zero"));
}

#[test]
fn a_string_counts_in_arithmetic_alone(rt: HostRuntime) {
    let mut world = World::new(rt.alloc(), &rt);
    let ten = world.text(&rt, b" 0xA ");
    let one = Value::Int(1);
    let sum = arith(&world.state, ArithOp::Add, ten, one);
    assert!(rt; is_value(sum, Value::Int(11)));
    let negated = arith(&world.state, ArithOp::Neg, ten, ten);
    assert!(rt; is_value(negated, Value::Int(-10)));
    let refused = arith(&world.state, ArithOp::BitAnd, ten, one);
    let text = "attempt to perform bitwise operation on a string value";
    assert!(rt; is_fault(rt.alloc(), refused, text));
}

#[test]
fn the_first_operand_without_a_number_is_named(rt: HostRuntime) {
    let mut world = World::new(rt.alloc(), &rt);
    let word = world.text(&rt, b"ten");
    let both = arith(&world.state, ArithOp::Sub, Value::Nil, word);
    let text = "attempt to perform arithmetic on a nil value";
    assert!(rt; is_fault(rt.alloc(), both, text));
    let second = arith(&world.state, ArithOp::Sub, Value::Int(1), word);
    let text = "attempt to perform arithmetic on a string value";
    assert!(rt; is_fault(rt.alloc(), second, text));
}

#[test]
fn the_first_handler_is_asked_first(rt: HostRuntime) {
    let mut world = World::new(rt.alloc(), &rt);
    let a = world.handled(&rt, Event::Add, lib(1));
    let b = world.handled(&rt, Event::Add, lib(2));
    let one = Value::Int(1);
    assert!(rt; is_step(arith(&world.state, ArithOp::Add, a, b), call(1, a, b)));
    assert!(rt; is_step(arith(&world.state, ArithOp::Add, one, b), call(2, one, b)));
    let other = arith(&world.state, ArithOp::Sub, a, b);
    let text = "attempt to perform arithmetic on a table value";
    assert!(rt; is_fault(rt.alloc(), other, text));
}
