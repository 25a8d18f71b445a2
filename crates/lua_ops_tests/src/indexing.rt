//! `object[key]`. What is wanted comes from the manual's section 2.4.

use crate::world::{World, call, is_fault, is_step, is_value, lib};
use lua_ops::{Step, index};
use object_store::{Event, Value};

const KEY: Value = Value::Int(7);

#[test]
fn a_raw_value_comes_before_the_handler(rt: HostRuntime) {
    let mut world = World::new(rt.alloc(), &rt);
    let id = world.table(&rt);
    world.give_handler(&rt, id, Event::Index, lib(1));
    world.set(&rt, id, KEY, Value::False);
    let object = Value::Table(id);
    assert!(rt; is_value(index(&world.state, object, KEY), Value::False));
    let other = index(&world.state, object, Value::True);
    assert!(rt; is_step(other, call(1, object, Value::True)));
}

#[test]
fn an_absent_field_is_nil(rt: HostRuntime) {
    let mut world = World::new(rt.alloc(), &rt);
    let plain = Value::Table(world.table(&rt));
    assert!(rt; is_value(index(&world.state, plain, KEY), Value::Nil));
    let other = world.handled(&rt, Event::Len, lib(1));
    assert!(rt; is_value(index(&world.state, other, KEY), Value::Nil));
}

#[test]
fn a_handler_is_called_with_the_value_that_has_it(rt: HostRuntime) {
    let mut world = World::new(rt.alloc(), &rt);
    let inner = world.handled(&rt, Event::Index, lib(1));
    let outer = world.handled(&rt, Event::Index, inner);
    assert!(rt; is_step(index(&world.state, outer, KEY), call(1, inner, KEY)));
}

#[test]
fn a_string_has_the_fields_of_its_metatable(rt: HostRuntime) {
    let mut world = World::new(rt.alloc(), &rt);
    let text = world.text(&rt, b"text");
    let refused = index(&world.state, text, KEY);
    assert!(rt; is_fault(rt.alloc(), refused, "attempt to index a string value"));
    let library = world.table(&rt);
    world.set(&rt, library, KEY, lib(3));
    world.string_handler(&rt, Event::Index, Value::Table(library));
    assert!(rt; is_value(index(&world.state, text, KEY), lib(3)));
}

#[test]
fn other_values_have_no_fields(rt: HostRuntime) {
    let world = World::new(rt.alloc(), &rt);
    let linda = Value::Linda(4);
    assert!(rt; is_step(index(&world.state, linda, KEY), Step::Handle(linda)));
    let nil = index(&world.state, Value::Nil, KEY);
    assert!(rt; is_fault(rt.alloc(), nil, "attempt to index a nil value"));
}

#[test]
fn a_hundred_tables_are_asked(rt: HostRuntime) {
    let mut world = World::new(rt.alloc(), &rt);
    let (first, last) = world.linked(&rt, Event::Index, 100);
    assert!(rt; is_value(index(&world.state, first, KEY), Value::Nil));
    world.set(&rt, last, KEY, Value::True);
    assert!(rt; is_value(index(&world.state, first, KEY), Value::True));
    world.set(&rt, last, KEY, Value::Nil);
    world.give_handler(&rt, last, Event::Index, lib(2));
    let wanted = call(2, Value::Table(last), KEY);
    assert!(rt; is_step(index(&world.state, first, KEY), wanted));
}

#[test]
fn a_hundred_and_one_tables_are_too_many(rt: HostRuntime) {
    let mut world = World::new(rt.alloc(), &rt);
    let (first, last) = world.linked(&rt, Event::Index, 101);
    world.set(&rt, last, KEY, Value::True);
    let refused = index(&world.state, first, KEY);
    assert!(rt; is_fault(rt.alloc(), refused, "metatable chain too long"));
}
