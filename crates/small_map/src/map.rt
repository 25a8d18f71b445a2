//! The map.
ghost use Rattle.std.specs.Prelude.{◌≡◌, ◌↔◌, ◌+◌, ◌<◌, ◌≤◌, ◌^◌, ◌++◌, ◌∷◌, [], length, position, is_some, slice_get, IsTrue, IsOk, None, IfOk, OnOk, OnErr, OnSome, IfNone};
ghost use Rattle.std.specs.List.{IsDistinct};
ghost use Rattle.std.specs.Map.{lookup, keys_of, set_value};
ghost use Rattle.indexmap.specs.IndexMap.{spare};

use crate::few::{boxed_map, map_with, place_in};
use indexmap::IndexMap;
use std::alloc::{AllocError, Global};
use std::hash::Hash;
use std::marker::Model;

/// How many pairs are kept without hashes.
const FEW: usize = 8;

/// A map in the order of insertion. Contracts see the list of its pairs, and for how many more it
/// has room. Up to eight pairs lie in one list, so that a small map costs one allocation; from the
/// ninth on all of them lie in a table of hashes.
#[derive(Drop)]
pub struct SmallMap<K: Copy + Eq + Hash, V: Copy> {
    few: Vec<(K, V)>,
    many: Option<Box<IndexMap<K, V>>>,
}

impl<K: Copy + Eq + Hash, V: Copy> Model for SmallMap<K, V> {
    ghost use Rattle.std.specs.Prelude.{◌≤◌, ◌++◌, length, vec_capacity};
    ghost use Rattle.small_map.specs.Pairs.{Pairs, entries_of, room_of};

    ghost Value = { Pairs K V };

    ghost view = { λ m. record {
      entries = m.few.items
          ++ entries_of m.many;
      room = room_of (length m.few.items) (vec_capacity m.few) m.many;
    } };

    ghost invariant = { λ m. length m.few.items ≤ 8 };
}

impl<K: Copy + Eq + Hash, V: Copy> SmallMap<K, V> {
    /// A map without pairs, which takes no memory.
    pub fn new(alloc: Global) -> SmallMap<K, V>
        ensures { result.entries ≡ [] }
    {
        SmallMap {
            few: Vec::new(alloc),
            many: None,
        }
    }

    /// The allocator.
    pub fn allocator(&self) -> Global {
        *self.few.allocator()
    }

    /// How many pairs there are.
    #[inline]
    pub fn len(&self) -> usize
        ensures len { result ≡ length self.now.entries }
        ensures small { result < 2 ^ 63 + 9 }
    {
        match &self.many {
            None => self.few.len(),
            Some(map) => self.few.len() + map.len(),
        }
    }

    #[inline]
    pub fn is_empty(&self) -> bool
        ensures { IsTrue result ↔ (length self.now.entries ≡ 0) }
    {
        self.len() == 0
    }

    /// The value of a key.
    #[inline]
    pub fn get(&self, key: K) -> Option<V>
        ensures { result ≡ lookup (K.eq key) self.now.entries }
    {
        if let Some(i) = place_in(&self.few, key) {
            return Some(self.few[i].1);
        }
        match &self.many {
            None => None,
            Some(map) => map.get(&key).copied(),
        }
    }

    /// The place of a key's pair in the list.
    #[inline]
    pub fn place_of(&self, key: K) -> Option<usize>
        ensures { result ≡ position (K.eq key) (keys_of self.now.entries) }
    {
        if let Some(i) = place_in(&self.few, key) {
            return Some(i);
        }
        match &self.many {
            None => None,
            Some(map) => {
                let _len = map.len();
                match map.get_index_of(&key) {
                    Some(i) => Some(self.few.len() + i),
                    None => None,
                }
            }
        }
    }

    /// The pair at a place of the list.
    #[inline]
    pub fn pair(&self, i: usize) -> Option<(K, V)>
        ensures { result ≡ slice_get self.now.entries i }
    {
        if i < self.few.len() {
            return Some(self.few[i]);
        }
        match &self.many {
            None => None,
            Some(map) => {
                let (key, value) = map.get_index(i - self.few.len())?;
                Some((*key, *value))
            }
        }
    }

    /// Writes the value of a key that has a pair, and answers the value before.
    #[inline]
    pub fn replace(&mut self, key: K, value: V) -> Option<V>
        ensures old { result ≡ lookup (K.eq key) self.old.entries }
        ensures present { OnSome result (self.new.entries
            ≡ set_value (K.eq key) self.old.entries value) }
        ensures absent { IfNone result (self.new.entries ≡ self.old.entries) }
        ensures room { self.new.room ≡ self.old.room }
    {
        if let Some(i) = place_in(&self.few, key) {
            let old = self.few[i].1;
            self.few[i].1 = value;
            return Some(old);
        }
        let Some(map) = &mut self.many else {
            return None;
        };
        replace_in(map, key, value)
    }

    /// Adds the pair of a key that has none as the last one.
    #[inline]
    pub fn add(&mut self, key: K, value: V) -> Result<(), AllocError>
        requires absent { lookup (K.eq key) self.old.entries ≡ None }
        requires distinct { IsDistinct K.eq (keys_of self.old.entries) }
        ensures entries { OnOk result (self.new.entries ≡ self.old.entries ++ (key, value) ∷ []) }
        ensures err { OnErr result (self.new.entries ≡ self.old.entries) }
        ensures succeeds { 0 < self.old.room → IsOk result }
        ensures room { self.old.room ≤ self.new.room + 1 }
    {
        if let Some(map) = &mut self.many {
            map.insert(key, value)?;
            return Ok(());
        }
        if self.few.len() < FEW {
            self.few.push((key, value))?;
            return Ok(());
        }
        let alloc = *self.few.allocator();
        let map = map_with(alloc, &self.few, key, value)?;
        self.few = Vec::new(alloc);
        self.many = Some(map);
        Ok(())
    }

    /// Makes room for `n` more pairs.
    pub fn reserve(&mut self, n: usize) -> Result<(), AllocError>
        requires distinct { IsDistinct K.eq (keys_of self.old.entries) }
        ensures entries { self.new.entries ≡ self.old.entries }
        ensures ok { OnOk result (n ≤ self.new.room) }
    {
        if let Some(map) = &mut self.many {
            return map.reserve(n);
        }
        if n <= FEW - self.few.len() {
            return self.few.reserve_exact(n);
        }
        let alloc = *self.few.allocator();
        let map = boxed_map(alloc, &self.few, n)?;
        self.few = Vec::new(alloc);
        self.many = Some(map);
        Ok(())
    }
}

/// Writes the value of a key of a map, and answers the value before.
fn replace_in<K: Copy + Eq + Hash, V: Copy>(map: &mut IndexMap<K, V>, key: K, value: V) -> Option<V>
    ensures old { result ≡ lookup (K.eq key) map.old.entries }
    ensures present { OnSome result (map.new.entries ≡ set_value (K.eq key) map.old.entries value) }
    ensures absent { IfNone result (map.new.entries ≡ map.old.entries) }
    ensures room { spare map.new ≡ spare map.old }
{
    match map.get_mut(&key) {
        Some(place) => {
            let old = *place;
            *place = value;
            Some(old)
        }
        None => None,
    }
}
