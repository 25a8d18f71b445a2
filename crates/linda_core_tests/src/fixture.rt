//! Operations in short, and replies as texts.
use desk_object::Ending;
use lanes_arena::{Memory, Row};
use linda_core::{Item, Key, Linda, LindaOp, LindaReply, OpFault, Side, check_op};
use parcel::Leaf;
use std::alloc::Global;

/// An operation, whose keys and values are numbers.
#[derive(Clone, Copy)]
pub enum Do {
    Send(i64, &'static [i64]),
    Receive(&'static [i64]),
    Batch(i64, u64, u64),
    Limit(i64, Option<u64>),
    Set(i64, &'static [i64]),
    Get(i64, u64),
    Count(&'static [i64]),
    Gate(Side),
}

fn items(alloc: Global, numbers: &[i64]) -> Result<Row<Item>, Memory> {
    let mut items = Row::new(alloc);
    for number in numbers {
        items.push(Item::of_leaf(alloc, Leaf::Int(*number))?)?;
    }
    Ok(items)
}

fn keys(alloc: Global, numbers: &[i64]) -> Result<Row<Key>, Memory> {
    let mut keys = Row::new(alloc);
    for number in numbers {
        keys.push(Key::Int(*number))?;
    }
    Ok(keys)
}

/// The operation itself.
pub fn op_of(alloc: Global, what: Do) -> Result<LindaOp, Memory> {
    match what {
        Do::Send(key, values) => {
            let values = items(alloc, values)?;
            let key = Key::Int(key);
            Ok(LindaOp::Send { key, values })
        }
        Do::Receive(listed) => Ok(LindaOp::Receive {
            keys: keys(alloc, listed)?,
        }),
        Do::Batch(key, min, max) => Ok(LindaOp::Batch {
            key: Key::Int(key),
            min,
            max,
        }),
        Do::Limit(key, limit) => Ok(LindaOp::Limit {
            key: Key::Int(key),
            limit,
        }),
        Do::Set(key, values) => {
            let values = items(alloc, values)?;
            let key = Key::Int(key);
            Ok(LindaOp::Set { key, values })
        }
        Do::Get(key, count) => Ok(LindaOp::Get {
            key: Key::Int(key),
            count,
        }),
        Do::Count(listed) => Ok(LindaOp::Count {
            keys: keys(alloc, listed)?,
        }),
        Do::Gate(side) => Ok(LindaOp::Gate { side }),
    }
}

fn show_items(alloc: Global, text: &mut String, items: &[Item]) -> Result<(), Memory> {
    for item in items {
        match item.only_root() {
            Some(Leaf::Int(number)) => {
                let shown = format!(in alloc; " {number}")?;
                text.push_str(shown.as_str())?;
            }
            Some(Leaf::Text(bytes)) => {
                let shown = format!(in alloc; " {bytes:?}")?;
                text.push_str(shown.as_str())?;
            }
            _ => text.push_str(" other")?,
        }
    }
    Ok(())
}

/// The reply as a text.
pub fn shown(alloc: Global, reply: &LindaReply) -> Result<String, Memory> {
    let mut text = String::new(alloc);
    match reply {
        LindaReply::Sent => text.push_str("sent")?,
        LindaReply::Full => text.push_str("full")?,
        LindaReply::Got { key, values } => {
            let shown = format!(in alloc; "got {key:?}:")?;
            text.push_str(shown.as_str())?;
            show_items(alloc, &mut text, values.as_slice())?;
        }
        LindaReply::Short => text.push_str("short")?,
        LindaReply::Values(values) => {
            text.push_str("values")?;
            show_items(alloc, &mut text, values.as_slice())?;
        }
        LindaReply::Room(room) => {
            let shown = format!(in alloc; "room {room}")?;
            text.push_str(shown.as_str())?;
        }
        LindaReply::Counts(counts) => {
            text.push_str("counts")?;
            for (key, count) in counts.as_slice() {
                let shown = format!(in alloc; " {key:?}={count}")?;
                text.push_str(shown.as_str())?;
            }
        }
        LindaReply::Done => text.push_str("done")?,
        LindaReply::Withdrawn => text.push_str("withdrawn")?,
        LindaReply::Barred => text.push_str("barred")?,
    }
    Ok(text)
}

/// What a linda replies to an operation that is served where it fits and gives up where it does
/// not.
pub fn reply_of(alloc: Global, linda: &mut Linda, what: Do) -> Result<String, Memory> {
    let op = op_of(alloc, what)?;
    match check_op(&op) {
        Ok(()) => {
            let fits = linda.ready(&op);
            let room = linda.reserve(alloc, &op)?;
            let reply = if fits {
                linda.apply(&op, Ending::Served, room)
            } else {
                linda.apply(&op, Ending::GaveUp, room)
            };
            shown(alloc, &reply)
        }
        Err(OpFault::BadKey) => format!(in alloc; "bad key"),
        Err(OpFault::NoData) => format!(in alloc; "no data"),
        Err(OpFault::BadCount) => format!(in alloc; "bad count"),
    }
}
