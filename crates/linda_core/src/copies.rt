//! Copies of lists.
ghost use Rattle.std.specs.Prelude.{◌≡◌, IfOk};

use crate::item::Item;
use crate::key::Key;
use lanes_arena::Memory;
use std::alloc::Global;

pub fn copy_items(alloc: Global, items: &[Item]) -> Result<Vec<Item>, Memory>
    ensures { IfOk result (λ copies. copies.items ≡ items.now) }
{
    let mut copies = Vec::with_capacity(alloc, items.len())?;
    for item in items {
        copies.push(item.copy()?)?;
    }
    Ok(copies)
}

pub fn copy_keys(alloc: Global, keys: &[Key]) -> Result<Vec<Key>, Memory>
    ensures { IfOk result (λ copies. copies.items ≡ keys.now) }
{
    let mut copies = Vec::with_capacity(alloc, keys.len())?;
    for key in keys {
        copies.push(key.copy()?)?;
    }
    Ok(copies)
}

pub fn copy_counts(alloc: Global, counts: &[(Key, u64)]) -> Result<Vec<(Key, u64)>, Memory>
    ensures { IfOk result (λ copies. copies.items ≡ counts.now) }
{
    let mut copies = Vec::with_capacity(alloc, counts.len())?;
    for (key, count) in counts {
        copies.push((key.copy()?, *count))?;
    }
    Ok(copies)
}
