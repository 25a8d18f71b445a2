//! The room that an operation needs.
ghost use Rattle.std.specs.Prelude.{◌≡◌, ◌<◌, [], Ok, IfOk, OnOk};
ghost use Rattle.indexmap.specs.IndexMap.{spare};
ghost use Rattle.linda_core.specs.Holding.{known_of, seen};
ghost use Rattle.linda_core.specs.Lawful.{fault_of};
ghost use Rattle.linda_core.specs.Rooms.{IsPreparedFor};
ghost use Rattle.linda_core.specs.declared.call.LindaOp.TheVariants as op;
ghost use Rattle.linda_core.specs.declared.prepared.Prepared.TheVariants.{Replies};

use crate::call::{LindaOp, LindaReply};
use crate::copies::copy_items;
use crate::counts::{counts_of_all, counts_of_listed};
use crate::item::Item;
use crate::key::Key;
use crate::prepared::Prepared;
use crate::queue::{Queue, ring_of};
use crate::queues::{
    first_ready, first_values, has_at_least, length_at_most, makes_room, reserve_at,
};
use indexmap::IndexMap;
use lanes_arena::{Memory, Row};
use std::alloc::Global;
use std::collections::VecDeque;

/// The memory that was taken for one operation on one linda.
#[derive(Drop)]
pub struct Room {
    pub(crate) prepared: Prepared,
}

impl Room {
    /// The room for an operation that is barred.
    pub(crate) fn barred() -> Room
        ensures { result.prepared ≡ Replies LindaReply.Barred }
    {
        Room {
            prepared: Prepared::Replies(LindaReply::Barred),
        }
    }
}

/// A queue of these values for a key that becomes known, and a copy of the key. There is a place
/// for it then.
fn to_begin(
    queues: &mut IndexMap<Key, Queue>,
    alloc: Global,
    key: &Key,
    values: VecDeque<Item>,
    limit: Option<u64>,
) -> Result<(Key, Queue), Memory>
    ensures key { IfOk result (λ new. new.0 ≡ key.now) }
    ensures queue { IfOk result (λ new. known_of new.1
        ≡ record { queue = values.items; limit = limit }) }
    ensures room { OnOk result (0 < spare queues.new) }
    ensures same { queues.new.entries ≡ queues.old.entries }
{
    queues.reserve(1)?;
    let ring = ring_of(alloc, values)?;
    Ok((key.copy()?, Queue::of(ring, limit)))
}

/// For a Send of these values.
fn to_send(
    queues: &mut IndexMap<Key, Queue>,
    alloc: Global,
    key: &Key,
    values: &[Item],
) -> Result<Prepared, Memory>
    ensures room { IfOk result
        (IsPreparedFor queues.new.entries (spare queues.new) (op.Send key.now values.now)) }
    ensures seen { seen queues.new.entries ≡ seen queues.old.entries }
{
    let copies = VecDeque::from_vec(copy_items(alloc, values)?);
    match queues.get_index_of(key) {
        Some(place) => {
            reserve_at(queues, place, values.len())?;
            Ok(Prepared::Appends {
                place,
                values: copies,
            })
        }
        None => {
            let (key, queue) = to_begin(queues, alloc, key, copies, None)?;
            Ok(Prepared::Begins {
                key,
                queue,
                reply: LindaReply::Sent,
            })
        }
    }
}

/// For a Receive from these keys.
fn to_receive(
    queues: &IndexMap<Key, Queue>,
    alloc: Global,
    keys: &[Key],
) -> Result<Prepared, Memory>
    ensures { IfOk result
        (IsPreparedFor queues.now.entries (spare queues.now) (op.Receive keys.now)) }
{
    match first_ready(queues, keys) {
        Some((place, key)) => {
            let values = Vec::with_capacity(alloc, 1)?;
            let key = key.copy()?;
            Ok(Prepared::Takes {
                place,
                count: 1,
                key,
                values,
            })
        }
        None => Ok(Prepared::Replies(LindaReply::Short)),
    }
}

/// For a Batch from this key.
fn to_batch(
    queues: &IndexMap<Key, Queue>,
    alloc: Global,
    key: &Key,
    min: u64,
    max: u64,
) -> Result<Prepared, Memory>
    requires { 0 < min }
    ensures { IfOk result
        (IsPreparedFor queues.now.entries (spare queues.now) (op.Batch key.now min max)) }
{
    if !has_at_least(queues, key, min) {
        return Ok(Prepared::Replies(LindaReply::Short));
    }
    match queues.get_index_of(key) {
        Some(place) => {
            let count = length_at_most(queues, key, max);
            let values = Vec::with_capacity(alloc, count)?;
            let key = key.copy()?;
            Ok(Prepared::Takes {
                place,
                count,
                key,
                values,
            })
        }
        None => Ok(Prepared::Replies(LindaReply::Short)),
    }
}

/// For a Limit of this key.
fn to_limit(
    queues: &mut IndexMap<Key, Queue>,
    alloc: Global,
    key: &Key,
    limit: Option<u64>,
) -> Result<Prepared, Memory>
    ensures room { IfOk result
        (IsPreparedFor queues.new.entries (spare queues.new) (op.Limit key.now limit)) }
    ensures seen { seen queues.new.entries ≡ seen queues.old.entries }
{
    match queues.get_index_of(key) {
        Some(place) => Ok(Prepared::Bounds {
            place,
            limit,
            room: makes_room(queues, key, limit),
        }),
        None => {
            let (key, queue) = to_begin(queues, alloc, key, VecDeque::new(alloc), limit)?;
            Ok(Prepared::Begins {
                key,
                queue,
                reply: LindaReply::Room(false),
            })
        }
    }
}

/// For a Set of this key.
fn to_set(
    queues: &mut IndexMap<Key, Queue>,
    alloc: Global,
    key: &Key,
    values: &[Item],
) -> Result<Prepared, Memory>
    ensures room { IfOk result
        (IsPreparedFor queues.new.entries (spare queues.new) (op.Set key.now values.now)) }
    ensures seen { seen queues.new.entries ≡ seen queues.old.entries }
{
    let copies = VecDeque::from_vec(copy_items(alloc, values)?);
    match queues.get_index_of(key) {
        Some(place) => {
            let ring = ring_of(alloc, copies)?;
            Ok(Prepared::Replaces { place, ring })
        }
        None => {
            let (key, queue) = to_begin(queues, alloc, key, copies, None)?;
            Ok(Prepared::Begins {
                key,
                queue,
                reply: LindaReply::Done,
            })
        }
    }
}

/// For a Get of this key.
fn to_get(
    queues: &IndexMap<Key, Queue>,
    alloc: Global,
    key: &Key,
    count: u64,
) -> Result<Prepared, Memory>
    ensures { IfOk result
        (IsPreparedFor queues.now.entries (spare queues.now) (op.Get key.now count)) }
{
    let values = first_values(queues, alloc, key, count)?;
    Ok(Prepared::Replies(LindaReply::Values(Row::of(values))))
}

/// For a Count of these keys.
fn to_count(queues: &IndexMap<Key, Queue>, alloc: Global, keys: &[Key]) -> Result<Prepared, Memory>
    ensures { IfOk result
        (IsPreparedFor queues.now.entries (spare queues.now) (op.Count keys.now)) }
{
    let counts = if keys.is_empty() {
        counts_of_all(queues, alloc)?
    } else {
        counts_of_listed(queues, alloc, keys)?
    };
    Ok(Prepared::Replies(LindaReply::Counts(Row::of(counts))))
}

/// For an operation that isn't barred.
pub(crate) fn prepare(
    queues: &mut IndexMap<Key, Queue>,
    alloc: Global,
    op: &LindaOp,
) -> Result<Prepared, Memory>
    requires { fault_of op.now ≡ Ok tt }
    ensures room { IfOk result (IsPreparedFor queues.new.entries (spare queues.new) op.now) }
    ensures seen { seen queues.new.entries ≡ seen queues.old.entries }
{
    match op {
        LindaOp::Send { key, values } => to_send(queues, alloc, key, values.as_slice()),
        LindaOp::Receive { keys } => to_receive(queues, alloc, keys.as_slice()),
        LindaOp::Batch { key, min, max } => to_batch(queues, alloc, key, *min, *max),
        LindaOp::Limit { key, limit } => to_limit(queues, alloc, key, *limit),
        LindaOp::Set { key, values } => to_set(queues, alloc, key, values.as_slice()),
        LindaOp::Get { key, count } => to_get(queues, alloc, key, *count),
        LindaOp::Count { keys } => to_count(queues, alloc, keys.as_slice()),
        LindaOp::Gate { side } => Ok(Prepared::Opens(*side)),
    }
}
