//! What a linda does with its map of queues.
ghost use Rattle.std.specs.Prelude.{◌≡◌, ◌<◌, ◌≤◌, ◌+◌, [], length, take, min, nat_le, find, position, Some, IfSome, IfOk, OnOk};
ghost use Rattle.std.specs.Option.{option_map};
ghost use Rattle.std.specs.Vec.{vec_capacity};
ghost use Rattle.indexmap.specs.IndexMap.{index_map_len, keys, spare};
ghost use Rattle.linda_core.specs.SequentialLinda.{key_eq, has_new_room, has_value, held_by, is_within, queue_of, with_held};
ghost use Rattle.linda_core.specs.Holding.{known_of, seen};
ghost use Rattle.linda_core.specs.Rooms.{appended, bounded, changed_at, queue_at, replaced, shortened, HasRoomAt, HasValuesAt};

use crate::item::Item;
use crate::key::Key;
use crate::queue::{Queue, Ring};
use indexmap::IndexMap;
use lanes_arena::Memory;
use std::alloc::Global;
use std::collections::VecDeque;

/// Whether so many more values stay within the key's limit.
pub fn has_room(queues: &IndexMap<Key, Queue>, key: &Key, more: usize) -> bool
    ensures { result ≡ is_within (held_by (seen queues.now.entries) key.now).limit
        (length (queue_of (seen queues.now.entries) key.now) + more) }
{
    match queues.get(key) {
        Some(queue) => match queue.limit() {
            Some(limit) => more as u64 <= limit && queue.len() as u64 <= limit - more as u64,
            None => true,
        },
        None => true,
    }
}

/// Whether the key has so many values.
pub fn has_at_least(queues: &IndexMap<Key, Queue>, key: &Key, count: u64) -> bool
    ensures { result ≡ nat_le count (length (queue_of (seen queues.now.entries) key.now)) }
{
    match queues.get(key) {
        Some(queue) => count <= queue.len() as u64,
        None => count == 0,
    }
}

/// Whether a key that was at its limit has room under this one.
pub fn makes_room(queues: &IndexMap<Key, Queue>, key: &Key, limit: Option<u64>) -> bool
    ensures { result ≡ has_new_room (held_by (seen queues.now.entries) key.now).limit limit
        (length (queue_of (seen queues.now.entries) key.now)) }
{
    match queues.get(key) {
        Some(queue) => has_new_room(queue.limit(), limit, queue.len() as u64),
        None => false,
    }
}

fn has_new_room(old: Option<u64>, new: Option<u64>, count: u64) -> bool
    ensures { result ≡ has_new_room old new count }
{
    match (old, new) {
        (None, _) => false,
        (Some(old), None) => old <= count,
        (Some(old), Some(new)) => old <= count && count < new,
    }
}

/// The lesser of this number and the length of the key's queue.
pub fn length_at_most(queues: &IndexMap<Key, Queue>, key: &Key, count: u64) -> usize
    ensures { result ≡ min count (length (queue_of (seen queues.now.entries) key.now)) }
{
    match queues.get(key) {
        Some(queue) => queue.at_most(count),
        None => 0,
    }
}

/// Copies of the first values of the key, at most so many.
pub fn first_values(
    queues: &IndexMap<Key, Queue>,
    alloc: Global,
    key: &Key,
    count: u64,
) -> Result<Vec<Item>, Memory>
    ensures { IfOk result (λ copies. copies.items
        ≡ take count (queue_of (seen queues.now.entries) key.now)) }
{
    match queues.get(key) {
        Some(queue) => queue.first(alloc, count),
        None => Ok(Vec::new(alloc)),
    }
}

/// The first listed key that has a value, with its place in the map.
pub fn first_ready<'k>(queues: &IndexMap<Key, Queue>, listed: &'k [Key]) -> Option<(usize, &'k Key)>
    ensures key { option_map (λ found. found.1.now) result
        ≡ find (has_value (seen queues.now.entries)) listed.now }
    ensures place { IfSome result
        (λ found. position (key_eq found.1.now) (keys queues.now) ≡ Some found.0) }
{
    for key in listed {
        if let Some((place, _, queue)) = queues.get_full(key) {
            if 0 < queue.len() {
                return Some((place, key));
            }
        }
    }
    None
}

/// Makes room for more values in the queue at a place.
pub fn reserve_at(
    queues: &mut IndexMap<Key, Queue>,
    place: usize,
    more: usize,
) -> Result<(), Memory>
    requires { place < index_map_len queues.old }
    ensures keys { keys queues.new ≡ keys queues.old }
    ensures seen { seen queues.new.entries ≡ seen queues.old.entries }
    ensures room { OnOk result (HasRoomAt queues.new.entries place more) }
{
    match queues.get_index_mut(place) {
        Some(queue) => queue.reserve(more),
        None => Ok(()),
    }
}

/// Puts the values last in the queue at a place.
pub fn append_at(queues: &mut IndexMap<Key, Queue>, place: usize, values: VecDeque<Item>)
    requires { HasRoomAt queues.old.entries place (length values.items) }
    ensures { seen queues.new.entries
        ≡ changed_at place (appended values.items) (seen queues.old.entries) }
{
    queues.get_index_mut(place).unwrap().append(values);
}

/// Makes a key known, with this queue.
pub fn begin(queues: &mut IndexMap<Key, Queue>, key: Key, queue: Queue)
    requires { 0 < spare queues.old }
    ensures { seen queues.new.entries
        ≡ with_held (seen queues.old.entries) key (known_of queue) }
{
    let _ = queues.insert(key, queue);
}

/// Moves the first values of the queue at a place to a list.
pub fn take_at(
    queues: &mut IndexMap<Key, Queue>,
    place: usize,
    count: usize,
    values: &mut Vec<Item>,
)
    requires there { HasValuesAt queues.old.entries place count }
    requires room { count ≤ vec_capacity values.old }
    requires empty { values.old.items ≡ [] }
    ensures taken { values.new.items
        ≡ take count (queue_at place (seen queues.old.entries)) }
    ensures rest { seen queues.new.entries
        ≡ changed_at place (shortened count) (seen queues.old.entries) }
{
    queues.get_index_mut(place).unwrap().take(count, values);
}

/// Sets the limit of the key at a place.
pub fn limit_at(queues: &mut IndexMap<Key, Queue>, place: usize, limit: Option<u64>)
    requires { place < length queues.old.entries }
    ensures { seen queues.new.entries
        ≡ changed_at place (bounded limit) (seen queues.old.entries) }
{
    queues.get_index_mut(place).unwrap().set_limit(limit);
}

/// Makes these values the queue at a place.
pub fn replace_at(queues: &mut IndexMap<Key, Queue>, place: usize, ring: Ring)
    requires { place < length queues.old.entries }
    ensures { seen queues.new.entries
        ≡ changed_at place (replaced ring.items) (seen queues.old.entries) }
{
    queues.get_index_mut(place).unwrap().replace(ring);
}
