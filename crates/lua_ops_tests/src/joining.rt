//! `..` and `#`. What is wanted comes from the manual's sections 3.4.6 and 3.4.7.

use crate::world::{World, call, is_fault, is_step, is_value, lib};
use lua_ops::{concat, len};
use object_store::{Event, Value};

#[test]
fn strings_and_integers_are_joined(rt: HostRuntime) {
    let mut world = World::new(rt.alloc(), &rt);
    let text = world.text(&rt, b"a");
    let number = Value::Int(-12);
    let joined = concat(rt.alloc(), &mut world.state, text, number);
    assert!(rt; is_value(joined, world.text(&rt, b"a-12")));
    let numbers = concat(rt.alloc(), &mut world.state, number, Value::Int(0));
    assert!(rt; is_value(numbers, world.text(&rt, b"-120")));
}

#[test]
fn other_values_are_joined_by_a_handler(rt: HostRuntime) {
    let mut world = World::new(rt.alloc(), &rt);
    let one = Value::Int(1);
    let table = world.handled(&rt, Event::Concat, lib(1));
    let joined = concat(rt.alloc(), &mut world.state, one, table);
    assert!(rt; is_step(joined, call(1, one, table)));
    let second = concat(rt.alloc(), &mut world.state, one, Value::Nil);
    assert!(rt; is_fault(rt.alloc(), second, "attempt to concatenate a nil value"));
    let both = concat(rt.alloc(), &mut world.state, Value::True, Value::Nil);
    assert!(rt; is_fault(rt.alloc(), both, "attempt to concatenate a boolean value"));
}

#[test]
fn a_string_and_a_table_have_a_length(rt: HostRuntime) {
    let mut world = World::new(rt.alloc(), &rt);
    let text = world.text(&rt, b"abc");
    assert!(rt; is_value(len(&world.state, text), Value::Int(3)));
    let id = world.table(&rt);
    let table = Value::Table(id);
    world.set(&rt, id, Value::Int(1), Value::True);
    assert!(rt; is_value(len(&world.state, table), Value::Int(1)));
    world.give_handler(&rt, id, Event::Len, lib(1));
    assert!(rt; is_step(len(&world.state, table), call(1, table, table)));
    let refused = len(&world.state, Value::Int(1));
    assert!(rt;
        is_fault(
            rt.alloc(),
            refused,
            "attempt to get length of a number value"
        )
    );
}
