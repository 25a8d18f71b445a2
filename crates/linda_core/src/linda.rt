//! A linda.
ghost use Rattle.std.specs.Prelude.{◌≡◌, Bool, Ok, IfOk};
ghost use Rattle.desk_object.specs.Endings.{MayEnd};
ghost use Rattle.linda_core.specs.Holding.{content, seen};
ghost use Rattle.linda_core.specs.Lawful.{fault_of};
ghost use Rattle.linda_core.specs.Rooms.{IsRoomFor};
ghost use Rattle.linda_core.specs.SequentialLinda as linda;

use crate::call::{LindaOp, LindaReply, Side};
use crate::key::Key;
use crate::prepared::use_room;
use crate::queue::Queue;
use crate::queues::{first_ready, has_at_least, has_room};
use crate::room::{Room, prepare};
use desk_object::Ending;
use indexmap::IndexMap;
use lanes_arena::Memory;
use std::alloc::Global;
use std::marker::Model;

/// A gate, and queues of values by key in the order in which the keys became known.
#[derive(Drop)]
pub struct Linda {
    gate: Side,
    queues: IndexMap<Key, Queue>,
}

impl Model for Linda {
    ghost use Rattle.indexmap.specs.IndexMap.{spare};
    ghost use Rattle.linda_core.specs.Holding.{Holding};

    ghost Value = { Holding };

    ghost view = { λ linda. record {
      gate = linda.gate;
      queues = linda.queues.entries;
      spare = spare linda.queues;
    } };
}

/// Whether the gate bars the operation.
fn is_barred(gate: Side, op: &LindaOp) -> bool
    ensures { result ≡ linda.is_barred gate op.now }
{
    match op {
        LindaOp::Send { .. } => matches!(gate, Side::Write | Side::Both),
        LindaOp::Receive { .. } => matches!(gate, Side::Read | Side::Both),
        LindaOp::Batch { .. } => matches!(gate, Side::Read | Side::Both),
        _ => false,
    }
}

/// Whether the operation fits where it isn't barred.
fn fits_keys(queues: &IndexMap<Key, Queue>, op: &LindaOp) -> bool
    ensures { result ≡ linda.fits_keys (seen queues.now.entries) op.now }
{
    match op {
        LindaOp::Send { key, values } => has_room(queues, key, values.as_slice().len()),
        LindaOp::Receive { keys } => first_ready(queues, keys.as_slice()).is_some(),
        LindaOp::Batch { key, min, .. } => has_at_least(queues, key, *min),
        _ => true,
    }
}

impl Linda {
    /// A linda without known keys, whose gate bars nothing. It takes no memory.
    pub fn new(alloc: Global) -> Linda
        ensures { content result ≡ linda.empty_linda }
    {
        Linda {
            gate: Side::Neither,
            queues: IndexMap::new(alloc),
        }
    }

    /// Whether the operation fits now. A barred one does.
    pub fn ready(&self, op: &LindaOp) -> bool
        requires { fault_of op.now ≡ Ok tt }
        ensures { result ≡ linda.fits (content self.now) op.now }
    {
        is_barred(self.gate, op) || fits_keys(&self.queues, op)
    }

    /// Takes the memory that the operation needs, whatever its ending. Nothing that a linda shows
    /// changes. The only refusal is want of memory.
    pub fn reserve(&mut self, alloc: Global, op: &LindaOp) -> Result<Room, Memory>
        requires { fault_of op.now ≡ Ok tt }
        ensures room { IfOk result (λ room. IsRoomFor self.new op.now room) }
        ensures content { content self.new ≡ content self.old }
    {
        if is_barred(self.gate, op) {
            return Ok(Room::barred());
        }
        let prepared = prepare(&mut self.queues, alloc, op)?;
        Ok(Room { prepared })
    }

    /// Ends the operation so, in the room that was reserved for it, and takes no memory.
    pub fn apply(&mut self, op: &LindaOp, ending: Ending, room: Room) -> LindaReply
        requires lawful { fault_of op.now ≡ Ok tt }
        requires room { IsRoomFor self.old op.now room }
        requires ending { MayEnd ending (linda.fits (content self.old) op.now) }
        ensures reply { result ≡ linda.reply_to (content self.old) op.now ending }
        ensures content { content self.new ≡ linda.linda_after (content self.old) op.now ending }
    {
        match ending {
            Ending::Served => use_room(&mut self.gate, &mut self.queues, room.prepared),
            Ending::GaveUp => match op {
                LindaOp::Send { .. } => LindaReply::Full,
                _ => LindaReply::Short,
            },
            Ending::Withdrawn => LindaReply::Withdrawn,
        }
    }
}
