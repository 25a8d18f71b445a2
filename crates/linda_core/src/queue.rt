//! What a known key has.
ghost use Rattle.std.specs.Prelude.{◌≡◌, ◌+◌, ◌<◌, ◌≤◌, ◌∷◌, ◌++◌, [], drop, take, min, length, IfOk, OnErr, OnOk};
ghost use Rattle.std.specs.Vec.{vec_capacity};
ghost use Rattle.circular_buffer.specs.Buffer.{buffer};

use crate::item::Item;
use circular_buffer::HeapCircularBuffer;
use lanes_arena::Memory;
use std::alloc::Global;
use std::collections::VecDeque;
use std::marker::Model;

/// Values, first in first out, in one block.
pub type Ring = HeapCircularBuffer<Item>;

/// The values of a key, first in first out, and the key's limit where it has one.
#[derive(Drop)]
pub struct Queue {
    ring: Ring,
    limit: Option<u64>,
}

impl Model for Queue {
    ghost use Rattle.linda_core.specs.Queue.{Queued};

    ghost Value = { Queued };

    ghost view = { λ queue. record {
      items = queue.ring.items;
      limit = queue.limit;
      capacity = queue.ring.capacity;
    } };
}

/// A full ring of these values.
pub fn ring_of(alloc: Global, values: VecDeque<Item>) -> Result<Ring, Memory>
    ensures { IfOk result (λ ring. ring.items ≡ values.items) }
{
    let mut ring = Ring::with_capacity(alloc, values.len())?;
    push_all(&mut ring, values);
    Ok(ring)
}

/// Puts the values last, for which there is room.
fn push_all(ring: &mut Ring, mut values: VecDeque<Item>)
    requires { length ring.old.items + length values.items ≤ ring.old.capacity }
    ensures { ring.new ≡ buffer (ring.old.items ++ values.items) ring.old.capacity }
{
    while let Some(value) = values.pop_front() {
        push_one(ring, value);
    }
}

/// Puts a value last, for which there is room.
fn push_one(ring: &mut Ring, value: Item)
    requires { length ring.old.items < ring.old.capacity }
    ensures { ring.new ≡ buffer (ring.old.items ++ value ∷ []) ring.old.capacity }
{
    match ring.try_push_back(value) {
        Ok(()) => {}
        Err(_) => unreachable!(),
    }
}

impl Queue {
    /// A queue of these values.
    pub fn of(ring: Ring, limit: Option<u64>) -> Queue
        ensures items { result.items ≡ ring.items }
        ensures limit { result.limit ≡ limit }
    {
        Queue { ring, limit }
    }

    pub fn len(&self) -> usize
        ensures { result ≡ length self.now.items }
    {
        self.ring.len()
    }

    pub fn limit(&self) -> Option<u64>
        ensures { result ≡ self.now.limit }
    {
        self.limit
    }

    /// Makes room for more values. The values and the limit stay, at a refusal too. The ring at
    /// least doubles where it grows.
    pub fn reserve(&mut self, more: usize) -> Result<(), Memory>
        ensures room { OnOk result (length self.old.items + more ≤ self.new.capacity) }
        ensures items { self.new.items ≡ self.old.items }
        ensures limit { self.new.limit ≡ self.old.limit }
    {
        let capacity = self.ring.capacity();
        let len = self.ring.len();
        if more <= capacity - len {
            return Ok(());
        }
        let Some(wanted) = len.checked_add(more) else {
            return Err(Memory);
        };
        self.ring.resize(wanted.max(2 * capacity))
    }

    /// Puts the values last, which takes no memory.
    pub fn append(&mut self, values: VecDeque<Item>)
        requires { length self.old.items + length values.items ≤ self.old.capacity }
        ensures items { self.new.items ≡ self.old.items ++ values.items }
        ensures limit { self.new.limit ≡ self.old.limit }
    {
        push_all(&mut self.ring, values);
    }

    /// Takes the first values into a list with room for them, which takes no memory.
    pub fn take(&mut self, count: usize, values: &mut Vec<Item>)
        requires count { count ≤ length self.old.items }
        requires room { count ≤ vec_capacity values.old }
        requires empty { values.old.items ≡ [] }
        ensures taken { values.new.items ≡ take count self.old.items }
        ensures items { self.new.items ≡ drop count self.old.items }
        ensures limit { self.new.limit ≡ self.old.limit }
    {
        take_first(&mut self.ring, count, values);
    }

    /// Sets the limit.
    pub fn set_limit(&mut self, limit: Option<u64>)
        ensures items { self.new.items ≡ self.old.items }
        ensures limit { self.new.limit ≡ limit }
    {
        self.limit = limit;
    }

    /// Makes these values the queue. The limit stays.
    pub fn replace(&mut self, ring: Ring)
        ensures items { self.new.items ≡ ring.items }
        ensures limit { self.new.limit ≡ self.old.limit }
    {
        self.ring = ring;
    }

    /// Copies of the first values, at most so many.
    pub fn first(&self, alloc: Global, count: u64) -> Result<Vec<Item>, Memory>
        ensures { IfOk result (λ copies. copies.items ≡ take count self.now.items) }
    {
        let most = self.at_most(count);
        let mut copies = Vec::with_capacity(alloc, most)?;
        for at in 0..most {
            if let Some(item) = self.ring.get(at) {
                copies.push(item.copy()?)?;
            }
        }
        Ok(copies)
    }

    /// The lesser of the length and this number.
    pub fn at_most(&self, count: u64) -> usize
        ensures within { result ≤ length self.now.items }
        ensures least { result ≡ min count (length self.now.items) }
    {
        let len = self.ring.len();
        if count < len as u64 {
            count as usize
        } else {
            len
        }
    }
}

/// Moves the first values of a ring into a list with room for them.
fn take_first(ring: &mut Ring, count: usize, values: &mut Vec<Item>)
    requires count { count ≤ length ring.old.items }
    requires room { count ≤ vec_capacity values.old }
    requires empty { values.old.items ≡ [] }
    ensures taken { values.new.items ≡ take count ring.old.items }
    ensures items { ring.new.items ≡ drop count ring.old.items }
    ensures capacity { ring.new.capacity ≡ ring.old.capacity }
{
    for _ in 0..count {
        if let Some(item) = ring.pop_front() {
            values.push_reserved(item);
        }
    }
}
