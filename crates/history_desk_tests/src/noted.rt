//! A queue that notes its calls, so that a test can see the history of a desk.
use desk_object::{Ending, Object};
use desk_queue::{Op, Queue, Reply};
use lanes_arena::Memory;
use std::alloc::Global;
use std::collections::LinkedList;

/// A call, and the number of the pass that makes it.
#[derive(Clone, Copy, Drop)]
pub struct Asked {
    pub from: u64,
    pub op: Op,
}

/// A call that was made.
#[derive(Clone, Copy, Drop, PartialEq, Eq)]
pub struct Note {
    pub from: u64,
    pub op: Op,
    pub ending: Ending,
    pub reply: Reply,
}

/// A queue, with its calls in the order in which they were made.
#[derive(Drop)]
pub struct Noted {
    pub queue: Queue,
    pub notes: Vec<Note>,
}

impl Noted {
    ghost use Rattle.std.specs.Prelude.{◌≡◌, []};

    /// An empty queue.
    pub fn new(alloc: Global) -> Noted
        ensures { result.queue.items.items ≡ [] }
    {
        Noted {
            queue: Queue::new(alloc),
            notes: Vec::new(alloc),
        }
    }
}

impl Object for Noted {
    type Call = Asked;

    type Reply = Reply;

    type Room = ();

    type Content = LinkedList<u64>;

    type CallData = Op;

    type ReplyData = Reply;

    ghost use Rattle.std.specs.Prelude.{◌<◌, vec_len, vec_capacity};
    ghost use Rattle.std.specs.VecDeque.{deque_len, deque_capacity};
    ghost use Rattle.desk_queue.specs.Queues.{queue_means, HasRoom, determined_steps};

    ghost means = { queue_means };

    ghost content = { λ noted. noted.queue.items.items };

    ghost call_data = { λ asked. asked.op };

    ghost reply_data = { λ reply. reply };

    ghost is_room_for = { λ noted room asked.
        HasRoom (deque_len noted.queue.items) (deque_capacity noted.queue.items) asked.op
        × (vec_len noted.notes < vec_capacity noted.notes) };

    fn ready(&self, call: &Asked) -> bool {
        self.queue.ready(&call.op)
    }

    fn reserve(&mut self, alloc: Global, call: &Asked) -> Result<(), Memory> {
        self.notes.reserve(1)?;
        self.queue.reserve(alloc, &call.op)
    }

    fn apply(&mut self, call: &Asked, ending: Ending, room: ()) -> Reply {
        let reply = self.queue.apply(&call.op, ending, room);
        self.notes.push_reserved(Note {
            from: call.from,
            op: call.op,
            ending,
            reply,
        });
        reply
    }

    ghost determined = { determined_steps };
}
