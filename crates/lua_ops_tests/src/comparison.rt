//! Comparison. What is wanted comes from the manual's section 3.4.4.

use crate::world::{World, call, is_fault, is_step, is_value, lib};
use lua_ops::{CompareOp, compare};
use object_store::{Event, State, Value};

/// Two integers, and what `== < <= > >=` give.
const INTEGERS: [(i64, i64, [bool; 5]); 3] = [
    (1, 2, [false, true, true, false, false]),
    (2, 2, [true, false, true, false, true]),
    (2, -2, [false, false, false, true, true]),
];

/// Two texts, and what `== < <= > >=` give.
const TEXTS: [(&[u8], &[u8], [bool; 5]); 4] = [
    (b"a", b"b", [false, true, true, false, false]),
    (b"", b"\x00", [false, true, true, false, false]),
    (b"ab", b"ab", [true, false, true, false, true]),
    (b"\xff", b"ab", [false, false, false, true, true]),
];

/// Whether a comparison gives a boolean.
fn gives(state: &State, op: CompareOp, a: Value, b: Value, wanted: bool) -> bool {
    is_value(compare(state, op, a, b), Value::from_bool(wanted))
}

/// Whether each comparison gives its boolean.
fn give(state: &State, a: Value, b: Value, wanted: [bool; 5]) -> bool {
    let [equal, less, at_most, greater, at_least] = wanted;
    gives(state, CompareOp::Eq, a, b, equal)
        && gives(state, CompareOp::Ne, a, b, !equal)
        && gives(state, CompareOp::Lt, a, b, less)
        && gives(state, CompareOp::Le, a, b, at_most)
        && gives(state, CompareOp::Gt, a, b, greater)
        && gives(state, CompareOp::Ge, a, b, at_least)
}

#[test]
fn integers_are_compared(rt: HostRuntime) {
    let world = World::new(rt.alloc(), &rt);
    for (a, b, wanted) in INTEGERS {
        assert!(rt; give(&world.state, Value::Int(a), Value::Int(b), wanted));
    }
}

#[test]
fn strings_are_compared_by_bytes(rt: HostRuntime) {
    let mut world = World::new(rt.alloc(), &rt);
    for (a, b, wanted) in TEXTS {
        let first = world.text(&rt, a);
        let second = world.text(&rt, b);
        assert!(rt; give(&world.state, first, second, wanted));
    }
}

#[test]
fn values_of_two_kinds_have_no_order(rt: HostRuntime) {
    let mut world = World::new(rt.alloc(), &rt);
    let text = world.text(&rt, b"1");
    let one = Value::Int(1);
    let less = compare(&world.state, CompareOp::Lt, one, text);
    assert!(rt; is_fault(rt.alloc(), less, "attempt to compare number with string"));
    let greater = compare(&world.state, CompareOp::Gt, one, text);
    assert!(rt; is_fault(rt.alloc(), greater, "attempt to compare string with number"));
    assert!(rt; gives(&world.state, CompareOp::Eq, one, text, false));
}

#[test]
fn a_handler_orders_and_its_operands_are_swapped(rt: HostRuntime) {
    let mut world = World::new(rt.alloc(), &rt);
    let a = world.handled(&rt, Event::Lt, lib(1));
    let b = world.handled(&rt, Event::Lt, lib(2));
    assert!(rt; is_step(compare(&world.state, CompareOp::Lt, a, b), call(1, a, b)));
    assert!(rt; is_step(compare(&world.state, CompareOp::Gt, a, b), call(2, b, a)));
    let nil = Value::Nil;
    assert!(rt;
        is_step(
            compare(&world.state, CompareOp::Lt, nil, b),
            call(2, nil, b)
        )
    );
    let at_most = compare(&world.state, CompareOp::Le, a, b);
    assert!(rt; is_fault(rt.alloc(), at_most, "attempt to compare table with table"));
}

#[test]
fn two_different_tables_ask_for_equality(rt: HostRuntime) {
    let mut world = World::new(rt.alloc(), &rt);
    let plain = Value::Table(world.table(&rt));
    let a = world.handled(&rt, Event::Eq, lib(1));
    let wanted = call(1, plain, a);
    assert!(rt; is_step(compare(&world.state, CompareOp::Eq, plain, a), wanted));
    assert!(rt; is_step(compare(&world.state, CompareOp::Ne, plain, a), wanted));
    assert!(rt; gives(&world.state, CompareOp::Eq, a, a, true));
    assert!(rt; gives(&world.state, CompareOp::Eq, a, Value::Nil, false));
}
