//! What a linda replies, call by call.
use crate::fixture::{Do, op_of, reply_of, shown};
use desk_object::Ending;
use lanes_arena::{Bytes, Memory, Row};
use linda_core::{BankCall, Item, Key, Linda, LindaOp, LindaReply, Side, check_op};
use parcel::Leaf;
use std::alloc::Global;

const MOST: u64 = 0xffff_ffff_ffff_ffff;

/// The first operation of which a linda, new at first, replies otherwise than is written beside it.
fn first_other(
    alloc: Global,
    rows: &[(Do, &'static str)],
) -> Result<Option<(usize, String)>, Memory> {
    let mut linda = Linda::new(alloc);
    for (at, (what, wanted)) in rows.iter().enumerate() {
        let reply = reply_of(alloc, &mut linda, *what)?;
        if reply.as_str() != *wanted {
            return Ok(Some((at, reply)));
        }
    }
    Ok(None)
}

const QUEUES: [(Do, &str); 33] = [
    (Do::Receive(&[1, 2]), "short"),
    (Do::Send(1, &[10, 11, 12]), "sent"),
    (Do::Send(2, &[20]), "sent"),
    (Do::Receive(&[2, 1]), "got Int(2): 20"),
    (Do::Receive(&[2, 1]), "got Int(1): 10"),
    (Do::Receive(&[3, 1, 1]), "got Int(1): 11"),
    (Do::Get(1, 1), "values 12"),
    (Do::Get(1, MOST), "values 12"),
    (Do::Get(7, 3), "values"),
    (Do::Count(&[]), "counts Int(1)=1 Int(2)=0"),
    (Do::Count(&[2, 1, 2, 9]), "counts Int(2)=0 Int(1)=1"),
    (Do::Count(&[9]), "counts"),
    (Do::Batch(1, 2, 5), "short"),
    (Do::Batch(1, 1, MOST), "got Int(1): 12"),
    (Do::Batch(1, 1, 1), "short"),
    (Do::Batch(9, 1, 1), "short"),
    (Do::Batch(9, 0, 1), "bad count"),
    (Do::Batch(9, 0, 0), "bad count"),
    (Do::Batch(9, 2, 1), "bad count"),
    (Do::Batch(9, MOST, MOST), "short"),
    (Do::Get(1, 0), "bad count"),
    (Do::Send(1, &[]), "no data"),
    (Do::Receive(&[]), "bad key"),
    (Do::Set(3, &[30, 31, 32]), "done"),
    (Do::Batch(3, 2, 2), "got Int(3): 30 31"),
    (Do::Send(3, &[33]), "sent"),
    (Do::Get(3, 2), "values 32 33"),
    (Do::Set(3, &[]), "done"),
    (Do::Receive(&[3]), "short"),
    (Do::Set(3, &[34]), "done"),
    (Do::Receive(&[3]), "got Int(3): 34"),
    (Do::Set(4, &[]), "done"),
    (Do::Count(&[]), "counts Int(1)=0 Int(2)=0 Int(3)=0 Int(4)=0"),
];

const LIMITS: [(Do, &str); 27] = [
    (Do::Limit(1, Some(2)), "room false"),
    (Do::Count(&[1]), "counts Int(1)=0"),
    (Do::Send(1, &[1, 2, 3]), "full"),
    (Do::Send(1, &[1, 2]), "sent"),
    (Do::Send(1, &[3]), "full"),
    (Do::Get(1, 9), "values 1 2"),
    (Do::Limit(1, Some(2)), "room false"),
    (Do::Limit(1, Some(3)), "room true"),
    (Do::Send(1, &[3]), "sent"),
    (Do::Limit(1, None), "room true"),
    (Do::Limit(1, None), "room false"),
    (Do::Send(1, &[4, 5]), "sent"),
    (Do::Limit(1, Some(1)), "room false"),
    (Do::Send(1, &[6]), "full"),
    (Do::Limit(1, Some(5)), "room false"),
    (Do::Limit(1, Some(6)), "room true"),
    (Do::Limit(1, Some(0)), "room false"),
    (Do::Batch(1, 5, 5), "got Int(1): 1 2 3 4 5"),
    (Do::Send(1, &[7]), "full"),
    (Do::Set(1, &[7, 8]), "done"),
    (Do::Send(1, &[9]), "full"),
    (Do::Limit(1, Some(MOST)), "room true"),
    (Do::Send(1, &[9]), "sent"),
    (Do::Get(1, 2), "values 7 8"),
    (Do::Limit(2, None), "room false"),
    (Do::Limit(3, Some(0)), "room false"),
    (Do::Count(&[]), "counts Int(1)=3 Int(2)=0 Int(3)=0"),
];

const GATES: [(Do, &str); 25] = [
    (Do::Gate(Side::Read), "done"),
    (Do::Send(1, &[1, 2, 3, 4]), "sent"),
    (Do::Receive(&[1]), "barred"),
    (Do::Receive(&[2]), "barred"),
    (Do::Batch(1, 1, 2), "barred"),
    (Do::Get(1, 4), "values 1 2 3 4"),
    (Do::Gate(Side::Write), "done"),
    (Do::Send(1, &[5]), "barred"),
    (Do::Receive(&[1]), "got Int(1): 1"),
    (Do::Batch(1, 1, 1), "got Int(1): 2"),
    (Do::Limit(1, Some(2)), "room false"),
    (Do::Set(1, &[6, 7]), "done"),
    (Do::Gate(Side::Both), "done"),
    (Do::Send(1, &[8]), "barred"),
    (Do::Receive(&[1]), "barred"),
    (Do::Batch(1, 9, 9), "barred"),
    (Do::Count(&[]), "counts Int(1)=2"),
    (Do::Set(1, &[9]), "done"),
    (Do::Get(1, 1), "values 9"),
    (Do::Limit(1, None), "room false"),
    (Do::Gate(Side::Both), "done"),
    (Do::Gate(Side::Neither), "done"),
    (Do::Send(1, &[10]), "sent"),
    (Do::Receive(&[1]), "got Int(1): 9"),
    (Do::Batch(1, 1, 1), "got Int(1): 10"),
];

#[test]
fn each_reply_is_the_one_beside_it(rt: HostRuntime) -> Result<(), Memory> {
    let alloc = rt.alloc();
    for rows in [QUEUES.as_slice(), LIMITS.as_slice(), GATES.as_slice()] {
        assert!(rt; first_other(alloc, rows)?.is_none());
    }
    Ok(())
}

/// Sends a number and receives one, at a limit of 3.
fn turns_once(alloc: Global, linda: &mut Linda, number: i64) -> Result<bool, Memory> {
    let values = vec![in alloc; Item::of_leaf(alloc, Leaf::Int(number))?]?;
    let send = LindaOp::Send {
        key: Key::Int(1),
        values: Row::of(values),
    };
    if check_op(&send).is_err() || !linda.ready(&send) {
        return Ok(false);
    }
    let room = linda.reserve(alloc, &send)?;
    let _ = linda.apply(&send, Ending::Served, room);
    let wanted = format!(in alloc; "got Int(1): {}", number.wrapping_sub(2))?;
    let got = reply_of(alloc, linda, Do::Receive(&[1]))?;
    Ok(got.as_str() == wanted.as_str())
}

#[test]
fn a_ring_wraps_a_thousand_times(rt: HostRuntime) -> Result<(), Memory> {
    let alloc = rt.alloc();
    let mut linda = Linda::new(alloc);
    let _ = reply_of(alloc, &mut linda, Do::Limit(1, Some(3)))?;
    let _ = reply_of(alloc, &mut linda, Do::Send(1, &[1, 2]))?;
    for number in 3..3003i64 {
        assert!(rt; turns_once(alloc, &mut linda, number)?);
    }
    let rest = reply_of(alloc, &mut linda, Do::Get(1, 9))?;
    assert_eq!(rt; rest.as_str(), "values 3001 3002");
    Ok(())
}

#[test]
fn a_withdrawn_call_changes_nothing(rt: HostRuntime) -> Result<(), Memory> {
    let alloc = rt.alloc();
    let mut linda = Linda::new(alloc);
    for what in [Do::Send(1, &[1]), Do::Gate(Side::Both), Do::Set(2, &[3])] {
        let op = op_of(alloc, what)?;
        if check_op(&op).is_ok() {
            let room = linda.reserve(alloc, &op)?;
            let reply = linda.apply(&op, Ending::Withdrawn, room);
            assert_eq!(rt; shown(alloc, &reply)?.as_str(), "withdrawn");
        }
    }
    let counts = reply_of(alloc, &mut linda, Do::Count(&[]))?;
    assert_eq!(rt; counts.as_str(), "counts");
    let sent = reply_of(alloc, &mut linda, Do::Send(1, &[1]))?;
    assert_eq!(rt; sent.as_str(), "sent");
    Ok(())
}

fn text_row(alloc: Global, text: &[u8]) -> Result<Row<Item>, Memory> {
    let text = Leaf::Text(Bytes::of(alloc, text)?);
    Ok(Row::of(vec![in alloc; Item::of_leaf(alloc, text)?]?))
}

/// Whether a copy of a call with these values shows them.
#[test]
fn copies_show_the_same(rt: HostRuntime) -> Result<(), Memory> {
    let alloc = rt.alloc();
    let counts = Row::of(vec![in alloc; (Key::Int(2), 3)]?);
    for (reply, wanted) in [
        (LindaReply::Values(text_row(alloc, b"v")?), "values [118]"),
        (LindaReply::Counts(counts), "counts Int(2)=3"),
        (LindaReply::Room(true), "room true"),
        (LindaReply::Barred, "barred"),
    ] {
        let copy = reply.copy(alloc)?;
        assert_eq!(rt; shown(alloc, &copy)?.as_str(), wanted);
    }
    for what in [Do::Send(1, &[4, 5]), Do::Set(1, &[6]), Do::Gate(Side::Read)] {
        let call = BankCall {
            linda: 11,
            op: op_of(alloc, what)?,
        };
        let copy = call.copy(alloc)?;
        assert_eq!(rt; copy.linda, 11);
        assert_eq!(rt; check_op(&copy.op), Ok(()));
    }
    Ok(())
}
