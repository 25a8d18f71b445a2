//! Whole runs of programs that are built by hand.

use evaluator::{End, Outcome, run};
use lanes_arena::{Bytes, Code, Row};
use lua_program::{Program, Proto, RExpr, RExprKind, RStat};
use object_store::{Function, State, Value};
use outside::BytesOut;
use plain_host::Plain;
use sqlite_items::Items;
use std::alloc::{AllocError, Global};
use std::sync::Arc;
use std::test::Fail;

/// An expression of this form, on line 1.
fn expr(what: RExprKind) -> RExpr {
    RExpr { line: 1, what }
}

/// The run of a main body of this statement with so many steps.
fn ran(
    alloc: Global,
    statement: RStat,
    budget: u64,
) -> Result<Outcome<Plain<BytesOut>>, AllocError> {
    let main = Proto {
        params: 0,
        cells: Row::new(alloc),
        vararg: true,
        slots: 0,
        ups: Row::new(alloc),
        body: Row::of(vec![in alloc; statement]?),
        line: 1,
    };
    let program = Program {
        name: Bytes::of(alloc, b"t.lua")?,
        texts: Row::new(alloc),
        protos: Items::from_vec(vec![in alloc; main]?),
    };
    let mut state = State::new(alloc, 0)?;
    if state.reserve(0, 1, 0).is_err() {
        return Err(AllocError);
    }
    let function = Value::Func(state.add_function(Function {
        code: Code::Script(0),
        cells: Row::new(alloc),
    }));
    let host = Plain::of(alloc, BytesOut::new(alloc, Vec::new(alloc)));
    Ok(run(
        alloc,
        Arc::new(alloc, program)?,
        state,
        function,
        &[Value::Int(7), Value::True],
        host,
        budget,
    ))
}

#[test]
fn a_loop_without_end_spends_its_budget(rt: HostRuntime) -> Result<(), AllocError> {
    let alloc = rt.alloc();
    let endless = RStat::While(expr(RExprKind::True), Row::new(alloc));
    let outcome = ran(alloc, endless, 1000)?;
    assert!(rt; matches!(outcome.end, End::BudgetSpent(1000)));
    assert_eq!(rt; outcome.steps, 1000);
    Ok(())
}

#[test]
fn the_arguments_are_returned(rt: HostRuntime) -> Result<(), AllocError> {
    let alloc = rt.alloc();
    let place = lua_tokens::Place { at: 0, line: 1 };
    let dots = expr(RExprKind::Dots(place));
    let back = RStat::Return(Row::of(vec![in alloc; dots]?));
    let outcome = ran(alloc, back, 1000)?;
    let End::Returned(values) = &outcome.end else {
        assert!(rt; false);
        return Ok(());
    };
    assert!(rt; matches!(values.as_slice(), [Value::Int(7), Value::True]));
    assert_eq!(rt; outcome.steps, 2);
    Ok(())
}

#[test]
fn a_missing_place_is_no_value(rt: HostRuntime) -> Result<(), AllocError> {
    let alloc = rt.alloc();
    let outcome = ran(
        alloc,
        RStat::LocalFunction(lua_program::Ref::Slot(5), 9),
        1000,
    )?;
    assert!(rt; matches!(outcome.end, End::Memory));
    Ok(())
}
