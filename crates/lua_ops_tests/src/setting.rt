//! `object[key] = value`. What is wanted comes from the manual's section 2.4.

use crate::world::{World, is_fault, lib};
use lua_ops::{SetStep, Target, raw_index, raw_set_here, set_index, set_target};
use object_store::{Event, LuaFault, Value};

const KEY: Value = Value::Int(7);

/// Whether the answer is this step.
fn is_set(answer: Result<SetStep, LuaFault>, step: SetStep) -> bool {
    match answer {
        Ok(found) => found == step,
        Err(_) => false,
    }
}

#[test]
fn a_new_key_is_set(rt: HostRuntime) {
    let mut world = World::new(rt.alloc(), &rt);
    let id = world.table(&rt);
    let set = set_index(&mut world.state, Value::Table(id), KEY, Value::True);
    assert!(rt; is_set(set, SetStep::Done));
    assert!(rt; raw_index(&world.state, id, KEY) == Value::True);
    let refused = set_index(&mut world.state, Value::Table(id), Value::Nil, Value::True);
    assert!(rt; is_fault(rt.alloc(), refused, "index is nil"));
}

#[test]
fn a_live_key_is_set_and_another_goes_to_the_handler(rt: HostRuntime) {
    let mut world = World::new(rt.alloc(), &rt);
    let id = world.table(&rt);
    let object = Value::Table(id);
    world.give_handler(&rt, id, Event::NewIndex, lib(1));
    world.set(&rt, id, KEY, Value::True);
    let set = set_index(&mut world.state, object, KEY, Value::False);
    assert!(rt; is_set(set, SetStep::Done));
    assert!(rt; raw_index(&world.state, id, KEY) == Value::False);
    let call = SetStep::Handler {
        function: lib(1),
        object,
    };
    let nil_key = set_index(&mut world.state, object, Value::Nil, Value::True);
    assert!(rt; is_set(nil_key, call));
    let new_key = set_index(&mut world.state, object, Value::True, Value::True);
    assert!(rt; is_set(new_key, call));
    assert!(rt; raw_index(&world.state, id, Value::True).is_nil());
}

#[test]
fn only_a_table_is_set(rt: HostRuntime) {
    let mut world = World::new(rt.alloc(), &rt);
    let text = world.text(&rt, b"text");
    let string = set_index(&mut world.state, text, KEY, Value::True);
    assert!(rt; is_fault(rt.alloc(), string, "attempt to index a string value"));
    let linda = set_index(&mut world.state, Value::Linda(1), KEY, Value::True);
    assert!(rt; is_fault(rt.alloc(), linda, "attempt to index a userdata value"));
    let id = world.table(&rt);
    world.string_handler(&rt, Event::NewIndex, Value::Table(id));
    let set = set_index(&mut world.state, text, KEY, Value::True);
    assert!(rt; is_set(set, SetStep::Done));
    assert!(rt; raw_index(&world.state, id, KEY) == Value::True);
}

#[test]
fn a_hundred_tables_are_asked(rt: HostRuntime) {
    let mut world = World::new(rt.alloc(), &rt);
    let (first, last) = world.linked(&rt, Event::NewIndex, 100);
    let target = set_target(&world.state, first, KEY);
    assert!(rt; target.expect(&rt, "there is one") == Target::Table(last));
    let set = set_index(&mut world.state, first, KEY, Value::True);
    assert!(rt; is_set(set, SetStep::Done));
    assert!(rt; raw_index(&world.state, last, KEY) == Value::True);
}

#[test]
fn a_hundred_and_one_tables_are_too_many(rt: HostRuntime) {
    let mut world = World::new(rt.alloc(), &rt);
    let (first, last) = world.linked(&rt, Event::NewIndex, 101);
    let refused = set_index(&mut world.state, first, KEY, Value::True);
    assert!(rt; is_fault(rt.alloc(), refused, "metatable chain too long"));
    assert!(rt; raw_index(&world.state, last, KEY).is_nil());
}

#[test]
fn a_live_key_is_set_raw(rt: HostRuntime) {
    let mut world = World::new(rt.alloc(), &rt);
    let id = world.table(&rt);
    assert!(rt; !raw_set_here(&mut world.state, id, KEY, Value::True));
    assert!(rt; raw_index(&world.state, id, KEY).is_nil());
    world.set(&rt, id, KEY, Value::False);
    assert!(rt; raw_set_here(&mut world.state, id, KEY, Value::True));
    assert!(rt; raw_index(&world.state, id, KEY) == Value::True);
}
