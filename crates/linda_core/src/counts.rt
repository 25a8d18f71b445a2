//! The lengths of queues.
ghost use Rattle.std.specs.Prelude.{◌≡◌, [], IfOk};
ghost use Rattle.std.specs.List.{filter_map};
ghost use Rattle.linda_core.specs.SequentialLinda.{count_of, counts_of, once};
ghost use Rattle.linda_core.specs.Holding.{seen};

use crate::key::Key;
use crate::queue::Queue;
use indexmap::{IndexMap, IndexSet};
use lanes_arena::Memory;
use std::alloc::Global;

/// The length of each known key's queue, in their order.
pub fn counts_of_all(
    queues: &IndexMap<Key, Queue>,
    alloc: Global,
) -> Result<Vec<(Key, u64)>, Memory>
    ensures { IfOk result (λ counts. counts.items ≡ counts_of (seen queues.now.entries) []) }
{
    let mut counts = Vec::with_capacity(alloc, queues.len())?;
    for place in 0..queues.len() {
        if let Some((key, queue)) = queues.get_index(place) {
            counts.push((key.copy()?, queue.len() as u64))?;
        }
    }
    Ok(counts)
}

/// The keys, each once, at its first place.
fn each_once(alloc: Global, listed: &[Key]) -> Result<IndexSet<Key>, Memory>
    ensures { IfOk result (λ set. set.keys ≡ once listed.now) }
{
    let mut set = IndexSet::new(alloc);
    for key in listed {
        let copy = key.copy()?;
        match set.insert(copy) {
            Ok(_) => {}
            Err(_) => return Err(Memory),
        }
    }
    Ok(set)
}

/// The lengths of the queues of those keys that are known.
fn counts_of_known(
    queues: &IndexMap<Key, Queue>,
    alloc: Global,
    keys: &[Key],
) -> Result<Vec<(Key, u64)>, Memory>
    ensures { IfOk result
        (λ counts. counts.items ≡ filter_map (count_of (seen queues.now.entries)) keys.now) }
{
    let mut counts = Vec::with_capacity(alloc, keys.len())?;
    for key in keys {
        if let Some(queue) = queues.get(key) {
            counts.push((key.copy()?, queue.len() as u64))?;
        }
    }
    Ok(counts)
}

/// The lengths of the queues of the known ones among these keys, each once, at its first place.
pub fn counts_of_listed(
    queues: &IndexMap<Key, Queue>,
    alloc: Global,
    listed: &[Key],
) -> Result<Vec<(Key, u64)>, Memory>
    ensures { IfOk result (λ counts. counts.items
        ≡ filter_map (count_of (seen queues.now.entries)) (once listed.now)) }
{
    let keys = each_once(alloc, listed)?;
    counts_of_known(queues, alloc, keys.as_slice())
}
