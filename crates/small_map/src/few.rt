//! A list of few pairs.
ghost use Rattle.std.specs.Prelude.{◌≡◌, ◌≤◌, ◌<◌, ◌++◌, ◌∷◌, [], None, length, position, IfOk, IfSome};
ghost use Rattle.std.specs.List.{IsDistinct};
ghost use Rattle.std.specs.Map.{lookup, keys_of};
ghost use Rattle.indexmap.specs.IndexMap.{spare};

use indexmap::IndexMap;
use std::alloc::{AllocError, Global};
use std::hash::Hash;

/// The place of a key among few pairs.
#[inline]
pub fn place_in<K: Copy + Eq + Hash, V: Copy>(few: &[(K, V)], key: K) -> Option<usize>
    ensures place { result ≡ position (λ pair. K.eq key pair.0) few.now }
    ensures within { IfSome result (λ i. i < length few.now) }
{
    few.iter().position(|pair| key == pair.0)
}

/// A map of these pairs, with room for so many more.
#[cold]
pub fn map_of<K: Copy + Eq + Hash, V: Copy>(
    alloc: Global,
    few: &[(K, V)],
    more: usize,
) -> Result<IndexMap<K, V>, AllocError>
    requires distinct { IsDistinct K.eq (keys_of few.now) }
    requires small { length few.now ≤ 8 }
    ensures entries { IfOk result (λ map. map.entries ≡ few.now) }
    ensures room { IfOk result (λ map. more ≤ spare map) }
{
    let Some(all) = more.checked_add(few.len()) else {
        return Err(AllocError);
    };
    let mut map = IndexMap::with_capacity(alloc, all)?;
    for i in 0..few.len() {
        let pair = few[i];
        map.insert(pair.0, pair.1)?;
    }
    Ok(map)
}

/// The same, boxed, with the pair of a new key last.
#[cold]
pub fn map_with<K: Copy + Eq + Hash, V: Copy>(
    alloc: Global,
    few: &[(K, V)],
    key: K,
    value: V,
) -> Result<Box<IndexMap<K, V>>, AllocError>
    requires absent { lookup (K.eq key) few.now ≡ None }
    requires distinct { IsDistinct K.eq (keys_of few.now) }
    requires small { length few.now ≤ 8 }
    ensures { IfOk result (λ map. map.value.entries ≡ few.now ++ (key, value) ∷ []) }
{
    let mut map = map_of(alloc, few, 1)?;
    map.insert(key, value)?;
    Ok(Box::new(alloc, map)?)
}

/// The pairs in a box, with room for so many more.
#[cold]
pub fn boxed_map<K: Copy + Eq + Hash, V: Copy>(
    alloc: Global,
    few: &[(K, V)],
    more: usize,
) -> Result<Box<IndexMap<K, V>>, AllocError>
    requires distinct { IsDistinct K.eq (keys_of few.now) }
    requires small { length few.now ≤ 8 }
    ensures entries { IfOk result (λ map. map.value.entries ≡ few.now) }
    ensures room { IfOk result (λ map. more ≤ spare map.value) }
{
    Ok(Box::new(alloc, map_of(alloc, few, more)?)?)
}
