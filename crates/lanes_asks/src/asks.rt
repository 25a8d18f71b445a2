//! The ask of each function of the face.
ghost use Rattle.std.specs.Prelude.{◌≡◌};
ghost use Rattle.lanes_lib.specs.Face as face;
ghost use Rattle.lanes_asks.specs.Asks.{Says, send_op, receive_op};

use crate::arguments::{after_first, first_key, handle, some_items, some_keys, timed};
use lanes_lib::{Ask, AskFault, LanesFn};
use linda_core::{BankCall, LindaOp};
use object_store::{State, Value};
use std::alloc::Global;

/// The ask of an operation on a linda. One with a timeout isn't built.
fn linda_ask(timed: bool, linda: u64, op: LindaOp) -> Result<Ask, AskFault>
    ensures { result ≡ face.unless_timed timed (face.linda_ask linda op) }
{
    if timed {
        return Err(AskFault::NotBuilt);
    }
    Ok(Ask::Linda {
        call: BankCall { linda, op },
        seconds: None,
    })
}

/// The operation of a `send`, from what follows its timeout.
fn send_op(alloc: Global, state: &State, args: &[Value]) -> Result<LindaOp, AskFault>
    ensures { Says (send_op state.now.texts args.now) result }
{
    let (key, rest) = first_key(alloc, state, args)?;
    let values = some_items(alloc, state, rest)?;
    Ok(LindaOp::Send { key, values })
}

/// The operation of a `receive`, from what follows its timeout.
fn receive_op(alloc: Global, state: &State, args: &[Value]) -> Result<LindaOp, AskFault>
    ensures { Says (receive_op state.now.texts args.now) result }
{
    let keys = some_keys(alloc, state, args)?;
    Ok(LindaOp::Receive { keys })
}

/// The ask of `send`.
fn send_ask(alloc: Global, state: &State, args: &[Value]) -> Result<Ask, AskFault>
    ensures { Says (face.send_ask state.now.texts args.now) result }
{
    let linda = handle(alloc, b"send", args.first().copied())?;
    let (timed, rest) = timed(after_first(args))?;
    let op = send_op(alloc, state, rest)?;
    linda_ask(timed, linda, op)
}

/// The ask of `receive`.
fn receive_ask(alloc: Global, state: &State, args: &[Value]) -> Result<Ask, AskFault>
    ensures { Says (face.receive_ask state.now.texts args.now) result }
{
    let linda = handle(alloc, b"receive", args.first().copied())?;
    let (timed, rest) = timed(after_first(args))?;
    let op = receive_op(alloc, state, rest)?;
    linda_ask(timed, linda, op)
}

/// What a call of the function with these arguments asks of the host. `Memory` is want of memory. A
/// script sees the other faults: `BadArgument` where the first argument of `send` or `receive` is
/// no linda, `BadCount` at a negative timeout, `BadKey` where a key is missing or is no integer,
/// string or boolean, `NoData` where there is no value to send, and `NotBuilt` at a timeout and at
/// a value that is neither an integer nor a string.
pub fn ask_of(
    alloc: Global,
    state: &State,
    function: LanesFn,
    args: &[Value],
) -> Result<Ask, AskFault>
    ensures { Says (face.ask_of state.now.texts function args.now) result }
{
    match function {
        LanesFn::Linda => Ok(Ask::NewLinda),
        LanesFn::Send => send_ask(alloc, state, args),
        LanesFn::Receive => receive_ask(alloc, state, args),
    }
}
