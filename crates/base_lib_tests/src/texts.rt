//! The texts of values.
use crate::fixture::{Fixture, Item};
use base_lib::{library_name, push_shown};
use object_store::{LibId, LuaFault};
use std::alloc::Global;
use std::test::Fail;

/// A value, and its text behind a text that was there.
const TEXTS: &[(Item, &str)] = &[
    (Item::Nil, "> nil"),
    (Item::Yes, "> true"),
    (Item::No, "> false"),
    (Item::Int(0), "> 0"),
    (Item::Int(-17), "> -17"),
    (Item::Int(i64::MAX), "> 9223372036854775807"),
    (Item::Int(i64::MIN), "> -9223372036854775808"),
    (Item::Text(""), "> "),
    (Item::Text("two words"), "> two words"),
    (Item::List, "> table: 1"),
    (Item::Object, "> table: 2"),
    (Item::Guarded, "> table: 4"),
    (Item::Lib(0), "> function: assert"),
    (Item::Lib(4), "> function: ipairs_step"),
    (Item::Lib(25), "> function: type"),
    (Item::Lib(29), "> function: find"),
    (Item::Lib(34), "> function: lower"),
    (Item::Lib(35), "> function: reverse"),
    (Item::Lib(39), "> function: sub"),
    (Item::Lib(52), "> function: cancel_test"),
    (Item::Lib(60), "> function: cancel"),
    (Item::Lib(61), "> function: "),
    (Item::Linda(0), "> linda: 0"),
    (Item::Linda(12), "> linda: 12"),
    (Item::Lane(3), "> lane: 3"),
    (Item::Light(0), "> light: cancel_error"),
    (Item::Light(1), "> light: batched"),
    (Item::Light(2), "> light: "),
];

/// Whether the value's text is added so.
fn shows(alloc: Global, store: &mut Fixture, item: Item, wanted: &str) -> Result<bool, LuaFault> {
    let value = store.value(item)?;
    let mut out = Vec::from_slice(alloc, b"> ")?;
    push_shown(&store.state, value, &mut out)?;
    Ok(out.as_slice() == wanted.as_bytes())
}

/// The number of the first value whose text is another.
fn first_wrong(alloc: Global, store: &mut Fixture) -> Result<Option<usize>, LuaFault> {
    for (i, (item, wanted)) in TEXTS.iter().enumerate() {
        if !shows(alloc, store, *item, wanted)? {
            return Ok(Some(i));
        }
    }
    Ok(None)
}

#[test]
fn each_value_has_its_text(rt: HostRuntime) -> Result<(), Fail> {
    let mut store = Fixture::new(rt.alloc())?;
    assert_eq!(rt; first_wrong(rt.alloc(), &mut store)?, None);
    Ok(())
}

#[test]
fn the_last_function_has_a_name(rt: HostRuntime) {
    assert_eq!(rt; library_name(LibId { number: 16 }), "tonumber");
    assert_eq!(rt; library_name(LibId { number: 61 }), "");
}
