//! Which value a call calls. What is wanted comes from the manual's section 2.4.

use crate::world::{World, is_fault, lib};
use lua_ops::callee;
use object_store::{Event, LuaFault, Value};

/// Whether the answer is this callee.
fn is_callee(answer: Result<Option<Value>, LuaFault>, callee: Option<Value>) -> bool {
    match answer {
        Ok(found) => found == callee,
        Err(_) => false,
    }
}

#[test]
fn a_handler_is_called_in_the_place_of_a_value(rt: HostRuntime) {
    let mut world = World::new(rt.alloc(), &rt);
    let inner = world.handled(&rt, Event::Call, lib(1));
    let outer = world.handled(&rt, Event::Call, inner);
    assert!(rt; is_callee(callee(&world.state, outer), Some(inner)));
    assert!(rt; is_callee(callee(&world.state, inner), Some(lib(1))));
    assert!(rt; is_callee(callee(&world.state, lib(1)), None));
    let refused = callee(&world.state, Value::Nil);
    assert!(rt; is_fault(rt.alloc(), refused, "attempt to call a nil value"));
}
