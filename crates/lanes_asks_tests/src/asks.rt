//! What each call asks, and why it asks nothing.
use crate::fixture::{Argument, values};
use lanes_arena::Memory;
use lanes_asks::ask_of;
use lanes_lib::{Ask, AskFault, LanesFn};
use linda_core::{Key, LindaOp};
use object_store::{LuaFault, State};
use parcel::Leaf;
use std::alloc::Global;
use std::test::Fail;

/// What a call on a state of its own asks.
fn asked(
    alloc: Global,
    function: LanesFn,
    arguments: &[Argument],
) -> Result<Result<Ask, AskFault>, Memory> {
    let mut state = State::new(alloc, 7)?;
    let args = values(alloc, &mut state, arguments)?;
    Ok(ask_of(alloc, &state, function, args.as_slice()))
}

/// Whether this is a send to linda 3 of 5 and "x" under the key "k", without a timeout.
fn is_wanted_send(ask: &Ask) -> bool {
    let Ask::Linda {
        call,
        seconds: None,
    } = ask
    else {
        return false;
    };
    let LindaOp::Send { key, values } = &call.op else {
        return false;
    };
    let Key::Text(name) = key else {
        return false;
    };
    let [number, word] = values.as_slice() else {
        return false;
    };
    match (number.only_root(), word.only_root()) {
        (Some(Leaf::Int(5)), Some(Leaf::Text(text))) => {
            call.linda == 3
                && name.as_slice() == b"k".as_slice()
                && text.as_slice() == b"x".as_slice()
        }
        _ => false,
    }
}

/// Whether this is a receive from linda 3 by the keys "k", 5, false and true, without a timeout.
fn is_wanted_receive(ask: &Ask) -> bool {
    let Ask::Linda {
        call,
        seconds: None,
    } = ask
    else {
        return false;
    };
    let LindaOp::Receive { keys } = &call.op else {
        return false;
    };
    match keys.as_slice() {
        [
            Key::Text(name),
            Key::Int(5),
            Key::Bool(false),
            Key::Bool(true),
        ] => call.linda == 3 && name.as_slice() == b"k".as_slice(),
        _ => false,
    }
}

#[test]
fn linda_asks_for_a_new_linda(rt: HostRuntime) -> Result<(), Fail> {
    let ask = asked(rt.alloc(), LanesFn::Linda, &[Argument::Int(1)])?;
    assert!(rt; matches!(&ask, Ok(Ask::NewLinda)));
    Ok(())
}

#[test]
fn send_asks_for_its_operation(rt: HostRuntime) -> Result<(), Fail> {
    let arguments = [
        Argument::Linda(3),
        Argument::Text("k"),
        Argument::Int(5),
        Argument::Text("x"),
    ];
    match asked(rt.alloc(), LanesFn::Send, &arguments)? {
        Ok(ask) => assert!(rt; is_wanted_send(&ask)),
        Err(_) => assert!(rt; false),
    }
    Ok(())
}

#[test]
fn receive_asks_for_its_operation(rt: HostRuntime) -> Result<(), Fail> {
    let arguments = [
        Argument::Linda(3),
        Argument::Text("k"),
        Argument::Int(5),
        Argument::No,
        Argument::Yes,
    ];
    match asked(rt.alloc(), LanesFn::Receive, &arguments)? {
        Ok(ask) => assert!(rt; is_wanted_receive(&ask)),
        Err(_) => assert!(rt; false),
    }
    Ok(())
}

/// Why a call asks nothing.
#[derive(Clone, Copy)]
enum Why {
    /// The first argument is no linda.
    BadHandle,
    BadCount,
    BadKey,
    NoData,
    NotBuilt,
}

/// The function, its arguments, and why it asks nothing.
type Refusal = (LanesFn, &'static [Argument], Why);

const REFUSALS: &[Refusal] = &[
    (LanesFn::Send, &[], Why::BadHandle),
    (
        LanesFn::Send,
        &[Argument::Text("k"), Argument::Text("k"), Argument::Int(5)],
        Why::BadHandle,
    ),
    (
        LanesFn::Send,
        &[
            Argument::Linda(3),
            Argument::Int(-1),
            Argument::Text("k"),
            Argument::Int(5),
        ],
        Why::BadCount,
    ),
    (LanesFn::Send, &[Argument::Linda(3)], Why::BadKey),
    (
        LanesFn::Send,
        &[Argument::Linda(3), Argument::Int(2)],
        Why::BadKey,
    ),
    (
        LanesFn::Send,
        &[Argument::Linda(3), Argument::Lib(0), Argument::Int(5)],
        Why::BadKey,
    ),
    (
        LanesFn::Send,
        &[Argument::Linda(3), Argument::Text("k")],
        Why::NoData,
    ),
    (
        LanesFn::Send,
        &[Argument::Linda(3), Argument::Text("k"), Argument::Nil],
        Why::NotBuilt,
    ),
    (
        LanesFn::Send,
        &[
            Argument::Linda(3),
            Argument::Nil,
            Argument::Text("k"),
            Argument::Int(5),
        ],
        Why::NotBuilt,
    ),
    (LanesFn::Receive, &[Argument::Int(3)], Why::BadHandle),
    (
        LanesFn::Receive,
        &[Argument::Linda(3), Argument::Int(-1), Argument::Text("k")],
        Why::BadCount,
    ),
    (LanesFn::Receive, &[Argument::Linda(3)], Why::BadKey),
    (
        LanesFn::Receive,
        &[Argument::Linda(3), Argument::Text("k"), Argument::Nil],
        Why::BadKey,
    ),
    (
        LanesFn::Receive,
        &[Argument::Linda(3), Argument::Int(2), Argument::Text("k")],
        Why::NotBuilt,
    ),
];

fn name_of(function: LanesFn) -> &'static [u8] {
    match function {
        LanesFn::Linda => b"linda",
        LanesFn::Send => b"send",
        LanesFn::Receive => b"receive",
    }
}

/// Whether the fault is this one, by a function of this name.
fn is_fault(fault: &LuaFault, why: Why, name: &[u8]) -> bool {
    match (fault, why) {
        (LuaFault::BadArgument { at, function }, Why::BadHandle) => {
            *at == 1 && function.as_slice() == name
        }
        (LuaFault::BadCount, Why::BadCount) => true,
        (LuaFault::BadKey, Why::BadKey) => true,
        (LuaFault::NoData, Why::NoData) => true,
        _ => false,
    }
}

/// Whether the call asks nothing, for this reason.
fn is_refused(answer: &Result<Ask, AskFault>, why: Why, name: &[u8]) -> bool {
    match answer {
        Err(AskFault::Lua(fault)) => is_fault(fault, why, name),
        Err(AskFault::NotBuilt) => matches!(why, Why::NotBuilt),
        _ => false,
    }
}

/// The number of the first row that does not hold.
fn first_wrong(alloc: Global, rows: &[Refusal]) -> Result<Option<usize>, Memory> {
    for (i, row) in rows.iter().enumerate() {
        let answer = asked(alloc, row.0, row.1)?;
        if !is_refused(&answer, row.2, name_of(row.0)) {
            return Ok(Some(i));
        }
    }
    Ok(None)
}

#[test]
fn refusals_are_told(rt: HostRuntime) -> Result<(), Fail> {
    assert_eq!(rt; first_wrong(rt.alloc(), REFUSALS)?, None);
    Ok(())
}
