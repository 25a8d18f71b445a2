//! Each row's call on a state of its own.
use crate::fixture::{Fixture, Item, listed};
use crate::number_rows::{MATH_ROWS, NUMBER_ROWS};
use crate::rows::{Row, VALUE_ROWS, Wanted};
use crate::table_rows::{CHANGES, TABLE_ROWS};
use base_lib::{BaseFn, Given, call};
use object_store::{LuaFault, Value};
use std::alloc::Global;
use std::test::Fail;

/// Whether the answer is the one that is wanted.
fn is_given(
    alloc: Global,
    store: &mut Fixture,
    given: Given,
    args: &[Value],
    items: &[Item],
) -> Result<bool, LuaFault> {
    let wanted = store.values(alloc, items)?;
    Ok(listed(alloc, given, args)?.as_slice() == wanted.as_slice())
}

/// Whether the fault is the one that is wanted, under this name.
fn is_fault(fault: &LuaFault, wanted: Wanted, name: &str) -> bool {
    match (fault, wanted) {
        (LuaFault::BadArgument { at, function }, Wanted::Bad(number)) => {
            *at == number && function.as_slice() == name.as_bytes()
        }
        (LuaFault::NilKey, Wanted::NilKey) => true,
        (LuaFault::DeadKey, Wanted::DeadKey) => true,
        (LuaFault::Protected, Wanted::Protected) => true,
        _ => false,
    }
}

/// Whether a call on this state answers so.
fn answers(alloc: Global, store: &mut Fixture, row: Row) -> Result<bool, LuaFault> {
    let args = store.values(alloc, row.1)?;
    match call(alloc, &mut store.state, row.0, args.as_slice()) {
        Ok(given) => match row.2 {
            Wanted::Gives(items) => is_given(alloc, store, given, args.as_slice(), items),
            _ => Ok(false),
        },
        Err(fault) => Ok(is_fault(&fault, row.2, row.0.name())),
    }
}

/// The number of the first row that does not hold, each on a state of its own.
fn first_wrong(alloc: Global, rows: &[Row]) -> Result<Option<usize>, LuaFault> {
    for (i, row) in rows.iter().enumerate() {
        let mut store = Fixture::new(alloc)?;
        if !answers(alloc, &mut store, *row)? {
            return Ok(Some(i));
        }
    }
    Ok(None)
}

/// The same, all on one state.
fn first_wrong_in_one(alloc: Global, rows: &[Row]) -> Result<Option<usize>, LuaFault> {
    let mut store = Fixture::new(alloc)?;
    for (i, row) in rows.iter().enumerate() {
        if !answers(alloc, &mut store, *row)? {
            return Ok(Some(i));
        }
    }
    Ok(None)
}

#[test]
fn values_are_answered_by_their_rows(rt: HostRuntime) -> Result<(), Fail> {
    assert_eq!(rt; first_wrong(rt.alloc(), VALUE_ROWS)?, None);
    Ok(())
}

#[test]
fn tables_are_answered_by_their_rows(rt: HostRuntime) -> Result<(), Fail> {
    assert_eq!(rt; first_wrong(rt.alloc(), TABLE_ROWS)?, None);
    Ok(())
}

#[test]
fn numbers_are_answered_by_their_rows(rt: HostRuntime) -> Result<(), Fail> {
    assert_eq!(rt; first_wrong(rt.alloc(), NUMBER_ROWS)?, None);
    Ok(())
}

#[test]
fn math_is_answered_by_its_rows(rt: HostRuntime) -> Result<(), Fail> {
    assert_eq!(rt; first_wrong(rt.alloc(), MATH_ROWS)?, None);
    Ok(())
}

#[test]
fn changes_last(rt: HostRuntime) -> Result<(), Fail> {
    assert_eq!(rt; first_wrong_in_one(rt.alloc(), CHANGES)?, None);
    Ok(())
}
