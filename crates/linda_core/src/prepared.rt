//! What is done with the memory that was taken for an operation.
ghost use Rattle.std.specs.Prelude.{◌≡◌};
ghost use Rattle.indexmap.specs.IndexMap.{spare};
ghost use Rattle.linda_core.specs.Holding.{seen};
ghost use Rattle.linda_core.specs.Rooms.{IsUsable, gate_with, keys_with, reply_with};

use crate::call::{LindaReply, Side};
use crate::item::Item;
use crate::key::Key;
use crate::queue::{Queue, Ring};
use crate::queues::{append_at, begin, limit_at, replace_at, take_at};
use indexmap::IndexMap;
use lanes_arena::Row;
use std::collections::VecDeque;

/// What is done when an operation is served, with the memory for it.
#[derive(Drop)]
pub(crate) enum Prepared {
    /// This is replied, and nothing changes.
    Replies(LindaReply),
    /// The values are put last in the queue at this place, which has room for them.
    Appends {
        place: usize,
        values: VecDeque<Item>,
    },
    /// The key becomes known with this queue, and this is replied.
    Begins {
        key: Key,
        queue: Queue,
        reply: LindaReply,
    },
    /// The first values of the key at this place are moved to the list, which has room for them.
    Takes {
        place: usize,
        count: usize,
        key: Key,
        values: Vec<Item>,
    },
    /// The key at this place gets this limit; whether there is room now is replied.
    Bounds {
        place: usize,
        limit: Option<u64>,
        room: bool,
    },
    /// These values become the queue at this place.
    Replaces {
        place: usize,
        ring: Ring,
    },
    /// The gate bars this side.
    Opens(Side),
}

/// Uses the room, and takes no memory.
pub(crate) fn use_room(
    gate: &mut Side,
    queues: &mut IndexMap<Key, Queue>,
    prepared: Prepared,
) -> LindaReply
    requires { IsUsable queues.old.entries (spare queues.old) prepared }
    ensures reply { result ≡ reply_with prepared (seen queues.old.entries) }
    ensures keys { seen queues.new.entries ≡ keys_with prepared (seen queues.old.entries) }
    ensures gate { gate.new ≡ gate_with prepared gate.old }
{
    match prepared {
        Prepared::Replies(reply) => reply,
        Prepared::Appends { place, values } => {
            append_at(queues, place, values);
            LindaReply::Sent
        }
        Prepared::Begins { key, queue, reply } => {
            begin(queues, key, queue);
            reply
        }
        Prepared::Takes {
            place,
            count,
            key,
            mut values,
        } => {
            take_at(queues, place, count, &mut values);
            LindaReply::Got {
                key,
                values: Row::of(values),
            }
        }
        Prepared::Bounds { place, limit, room } => {
            limit_at(queues, place, limit);
            LindaReply::Room(room)
        }
        Prepared::Replaces { place, ring } => {
            replace_at(queues, place, ring);
            LindaReply::Done
        }
        Prepared::Opens(side) => {
            *gate = side;
            LindaReply::Done
        }
    }
}
