//! A queue of numbers that a desk can hold, for tests and measurements.
#![tactic(auto)]

ghost use Rattle.std.specs.Prelude.{◌≡◌, [], length};

use desk_object::{Ending, Object};
use lanes_arena::Memory;
use std::alloc::Global;
use std::collections::{LinkedList, VecDeque};

/// A call on a queue.
#[derive(Clone, Copy, Debug, Drop, PartialEq, Eq)]
pub enum Op {
    /// Puts the number last.
    Send(u64),
    /// Takes the first number. It fits where there is one.
    Receive,
}

/// What a queue replies.
#[derive(Clone, Copy, Debug, Drop, PartialEq, Eq)]
pub enum Reply {
    /// To a Send that was served.
    Sent,
    /// To a Receive that was served.
    Got(u64),
    /// To a call that gave up.
    Short,
    /// To a call that was withdrawn.
    TakenBack,
}

/// Numbers, first in first out.
#[derive(Drop)]
pub struct Queue {
    items: VecDeque<u64>,
}

impl Queue {
    /// An empty queue, which takes no memory.
    pub fn new(alloc: Global) -> Queue
        ensures { result.items.items ≡ [] }
    {
        Queue {
            items: VecDeque::new(alloc),
        }
    }

    /// How many numbers it has.
    pub fn len(&self) -> usize
        ensures { result ≡ length self.now.items.items }
    {
        self.items.len()
    }
}

impl Object for Queue {
    type Call = Op;

    type Reply = Reply;

    type Room = ();

    type Content = LinkedList<u64>;

    type CallData = Op;

    type ReplyData = Reply;

    ghost use Rattle.desk_queue.specs.Queues.{queue_means, HasRoom, determined_steps};
    ghost use Rattle.std.specs.VecDeque.{deque_len, deque_capacity};

    ghost means = { queue_means };

    ghost content = { λ queue. queue.items.items };

    ghost call_data = { λ op. op };

    ghost reply_data = { λ reply. reply };

    ghost is_room_for = { λ queue room op.
        HasRoom (deque_len queue.items) (deque_capacity queue.items) op };

    fn ready(&self, call: &Op) -> bool {
        match *call {
            Op::Send(_) => true,
            Op::Receive => !self.items.is_empty(),
        }
    }

    fn reserve(&mut self, _alloc: Global, call: &Op) -> Result<(), Memory> {
        match *call {
            Op::Send(_) => self.items.reserve(1),
            Op::Receive => Ok(()),
        }
    }

    fn apply(&mut self, call: &Op, ending: Ending, _room: ()) -> Reply {
        match ending {
            Ending::Served => match *call {
                Op::Send(number) => {
                    self.items.push_back_reserved(number);
                    Reply::Sent
                }
                Op::Receive => match self.items.pop_front() {
                    Some(number) => Reply::Got(number),
                    None => Reply::Short,
                },
            },
            Ending::GaveUp => Reply::Short,
            Ending::Withdrawn => Reply::TakenBack,
        }
    }

    ghost determined = { determined_steps };
}
