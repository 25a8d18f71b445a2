//! What is asked of a linda, and what it replies.
ghost use Rattle.std.specs.Prelude.{◌≡◌, IfOk};

use crate::copies::{copy_counts, copy_items, copy_keys};
use crate::item::Item;
use crate::key::Key;
use lanes_arena::{Memory, Row};
use std::alloc::Global;

/// A side of a linda that a gate bars: reading is to receive, writing is to send.
#[derive(Clone, Copy, Debug, PartialEq, Eq)]
pub enum Side {
    Neither,
    Read,
    Write,
    Both,
}

/// An operation on a linda, after the methods of that name in Lua Lanes.
#[derive(Drop)]
pub enum LindaOp {
    /// Puts the values last in the key's queue, all or none.
    Send { key: Key, values: Row<Item> },
    /// Takes the first value of the first of these keys that has one.
    Receive { keys: Row<Key> },
    /// Takes at least `min` and at most `max` values of the key.
    Batch { key: Key, min: u64, max: u64 },
    /// Sets the greatest number of values that a Send may leave in the key's queue, or none.
    Limit { key: Key, limit: Option<u64> },
    /// Makes these values the key's queue.
    Set { key: Key, values: Row<Item> },
    /// Shows the first values of the key, at most `count`.
    Get { key: Key, count: u64 },
    /// Shows the lengths of these keys' queues, of all keys where none is listed.
    Count { keys: Row<Key> },
    /// Bars this side from now on, and no other.
    Gate { side: Side },
}

/// What a linda replies to an operation.
#[derive(Drop)]
pub enum LindaReply {
    /// To a Send that was served.
    Sent,
    /// To a Send that gave up.
    Full,
    /// To a Receive or a Batch that was served.
    Got { key: Key, values: Row<Item> },
    /// To a Receive or a Batch that gave up.
    Short,
    /// To a Get.
    Values(Row<Item>),
    /// To a Limit: whether a key that was at its limit has room now.
    Room(bool),
    /// To a Count.
    Counts(Row<(Key, u64)>),
    /// To a Set and to a Gate.
    Done,
    /// To an operation that was withdrawn.
    Withdrawn,
    /// To a Send, a Receive or a Batch that the gate bars.
    Barred,
}

/// An operation, with the number of the linda that it is for.
#[derive(Drop)]
pub struct BankCall {
    pub linda: u64,
    pub op: LindaOp,
}

impl LindaOp {
    /// A second operation that shows the same. The only refusal is want of memory.
    pub fn copy(&self, alloc: Global) -> Result<LindaOp, Memory>
        ensures { IfOk result (λ op. op ≡ self.now) }
    {
        match self {
            LindaOp::Send { key, values } => Ok(LindaOp::Send {
                key: key.copy()?,
                values: Row::of(copy_items(alloc, values.as_slice())?),
            }),
            LindaOp::Receive { keys } => Ok(LindaOp::Receive {
                keys: Row::of(copy_keys(alloc, keys.as_slice())?),
            }),
            LindaOp::Batch { key, min, max } => Ok(LindaOp::Batch {
                key: key.copy()?,
                min: *min,
                max: *max,
            }),
            LindaOp::Limit { key, limit } => Ok(LindaOp::Limit {
                key: key.copy()?,
                limit: *limit,
            }),
            LindaOp::Set { key, values } => Ok(LindaOp::Set {
                key: key.copy()?,
                values: Row::of(copy_items(alloc, values.as_slice())?),
            }),
            LindaOp::Get { key, count } => Ok(LindaOp::Get {
                key: key.copy()?,
                count: *count,
            }),
            LindaOp::Count { keys } => Ok(LindaOp::Count {
                keys: Row::of(copy_keys(alloc, keys.as_slice())?),
            }),
            LindaOp::Gate { side } => Ok(LindaOp::Gate { side: *side }),
        }
    }
}

impl LindaReply {
    /// A second reply that shows the same. The only refusal is want of memory.
    pub fn copy(&self, alloc: Global) -> Result<LindaReply, Memory>
        ensures { IfOk result (λ reply. reply ≡ self.now) }
    {
        match self {
            LindaReply::Sent => Ok(LindaReply::Sent),
            LindaReply::Full => Ok(LindaReply::Full),
            LindaReply::Got { key, values } => Ok(LindaReply::Got {
                key: key.copy()?,
                values: Row::of(copy_items(alloc, values.as_slice())?),
            }),
            LindaReply::Short => Ok(LindaReply::Short),
            LindaReply::Values(values) => Ok(LindaReply::Values(Row::of(copy_items(
                alloc,
                values.as_slice(),
            )?))),
            LindaReply::Room(room) => Ok(LindaReply::Room(*room)),
            LindaReply::Counts(counts) => Ok(LindaReply::Counts(Row::of(copy_counts(
                alloc,
                counts.as_slice(),
            )?))),
            LindaReply::Done => Ok(LindaReply::Done),
            LindaReply::Withdrawn => Ok(LindaReply::Withdrawn),
            LindaReply::Barred => Ok(LindaReply::Barred),
        }
    }
}

impl BankCall {
    /// A second call that shows the same. The only refusal is want of memory.
    pub fn copy(&self, alloc: Global) -> Result<BankCall, Memory>
        ensures { IfOk result (λ call. call ≡ self.now) }
    {
        Ok(BankCall {
            linda: self.linda,
            op: self.op.copy(alloc)?,
        })
    }
}
