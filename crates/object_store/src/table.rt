//! Tables.
ghost use Rattle.std.specs.Prelude.{◌≡◌, ◌≢◌, ◌↔◌, ◌+◌, ◌<◌, ◌≤◌, length, slice_get, if◌then◌else◌, true, IsOk, pos, [], None, Some, IfOk, IsErr, OnErr, OnOk};
ghost use Rattle.object_store.specs.Value.{value_eq};
ghost use Rattle.object_store.specs.Pairs.{get_pair, set_pair, has_pair, next_pair, IsBorderAt, dead_count, live_count, IsTable};
ghost use Rattle.object_store.specs.Table.{contents_of};

use crate::border::{lowered, raised};
use crate::change::{MOST_PAIRS, clear, store};
use crate::pairs::{live_from, pair_at, place_of, value_of};
use crate::value::{TableId, Value};
use lanes_arena::Memory;
use small_map::SmallMap;
use std::alloc::Global;
use std::marker::Model;

/// Why a value could not be set.
#[derive(Clone, Copy, Debug, PartialEq, Eq)]
pub enum SetFault {
    /// The key is `Nil`.
    NilKey,
    /// Want of memory.
    Memory,
}

/// A key that has no pair, live or dead, was given as the one to go on from.
#[derive(Clone, Copy, Debug, PartialEq, Eq)]
pub struct DeadKey;

/// A table. Contracts see the list of its pairs of a key and a value, in the order in which the
/// keys were first set, and its metatable. A pair whose value is `Nil` is dead and keeps its place
/// until it is revived or purged.
#[derive(Drop)]
pub struct Table {
    run: Vec<Value>,
    rest: SmallMap<Value, Value>,
    dead: usize,
    border: u64,
    meta: Option<TableId>,
}

impl Model for Table {
    ghost use Rattle.std.specs.Prelude.{length};
    ghost use Rattle.object_store.specs.Run.{joined};
    ghost use Rattle.object_store.specs.Table.{TableShown, table_room, IsKept};

    ghost Value = { TableShown };

    ghost view = { λ t. record {
      pairs = joined t.run.items t.rest.entries;
      meta = t.meta;
      room = table_room
          t.dead (length (joined t.run.items t.rest.entries)) t.rest.room;
    } };

    ghost invariant = { λ t. IsKept (joined t.run.items t.rest.entries) t.dead t.border };
}

impl Table {
    /// A table without pairs and without a metatable, which takes no memory.
    pub fn new(alloc: Global) -> Table
        ensures pairs { result.pairs ≡ [] }
        ensures meta { result.meta ≡ None }
    {
        Table {
            run: Vec::new(alloc),
            rest: SmallMap::new(alloc),
            dead: 0,
            border: 0,
            meta: None,
        }
    }

    /// The value of a key, `Nil` where it has none.
    #[inline]
    pub fn get(&self, key: Value) -> Value
        ensures value { result ≡ get_pair self.now.pairs key }
        ensures table { IsTable self.now.pairs }
    {
        let _border = self.border;
        value_of(&self.run, &self.rest, key)
    }

    /// Sets the value of a key; `Nil` makes its pair dead. A new key goes last, once the dead pairs
    /// are purged where they outnumber the live ones.
    pub fn set(&mut self, key: Value, value: Value) -> Result<(), SetFault>
        ensures pairs { OnOk result (self.new.pairs ≡ set_pair self.old.pairs key value) }
        ensures reads { OnOk result ((q : Value) → get_pair self.new.pairs q
            ≡ (if value_eq key q then value else get_pair self.old.pairs q)) }
        ensures meta { self.new.meta ≡ self.old.meta }
        ensures nil_key { (result ≡ Err SetFault.NilKey) ↔ (key ≡ Value.Nil) }
        ensures err { OnErr result (contents_of self.new ≡ contents_of self.old) }

        // Only a new key can want memory, and none does under room. Room is used up one by one, and
        // lost only by `Nil`.
        ensures succeeds { 0 < self.old.room → key ≢ Value.Nil → IsOk result }
        ensures room { OnOk result (value ≢ Value.Nil → self.old.room ≤ self.new.room + 1) }
        ensures present { key ≢ Value.Nil → has_pair self.old.pairs key ≡ true → IsOk result }
        ensures cleared { value ≡ Value.Nil → key ≢ Value.Nil → IsOk result }
    {
        if key.is_nil() {
            return Err(SetFault::NilKey);
        }
        if value.is_nil() {
            self.dead = clear(&mut self.run, &mut self.rest, self.dead, key);
            self.border = lowered(self.border, key);
            return Ok(());
        }
        match store(&mut self.run, &mut self.rest, self.dead, key, value) {
            Ok(dead) => {
                self.dead = dead;
                self.border = raised(&self.run, &self.rest, self.border, key);
                Ok(())
            }
            Err(_) => Err(SetFault::Memory),
        }
    }

    /// Makes room for `n` new keys: as many calls of `set` with further keys and values that are
    /// not `Nil` can't be refused for memory. Where the dead pairs outnumber the live ones, the
    /// next new key takes memory all the same.
    pub fn reserve(&mut self, n: usize) -> Result<(), Memory>
        ensures contents { contents_of self.new ≡ contents_of self.old }
        ensures ok { OnOk result (dead_count self.old.pairs ≤ live_count self.old.pairs
            → n ≤ self.new.room) }
    {
        let all = self.run.len() + self.rest.len();
        let _dead = self.dead;
        if n > MOST_PAIRS - all {
            return Err(Memory);
        }
        self.rest.reserve(n)
    }

    /// How many pairs there are, live or dead.
    #[inline]
    pub fn len(&self) -> usize
        ensures { result ≡ length self.now.pairs }
    {
        self.run.len() + self.rest.len()
    }

    /// The pair at a place of the list, counted from 0, live or dead. It takes no look-up of a key.
    #[inline]
    pub fn pair(&self, i: usize) -> Option<(Value, Value)>
        ensures { result ≡ slice_get self.now.pairs i }
    {
        if i < self.len() {
            Some(pair_at(&self.run, &self.rest, i))
        } else {
            None
        }
    }

    /// The first live pair after the key's, or the first of all for `Nil`. A key without a pair is
    /// refused.
    pub fn next(&self, key: Value) -> Result<Option<(Value, Value)>, DeadKey>
        ensures pair { IfOk result (λ pair. next_pair self.now.pairs key ≡ Some pair) }
        ensures dead_key { IsErr result ↔ (next_pair self.now.pairs key ≡ None) }
    {
        if key.is_nil() {
            return Ok(live_from(&self.run, &self.rest, 0));
        }
        match place_of(&self.run, &self.rest, key) {
            Some(i) => Ok(live_from(&self.run, &self.rest, i + 1)),
            None => Err(DeadKey),
        }
    }

    /// The least number, 0 or more, such that the integer after it has no value. It is kept, and
    /// not searched.
    #[inline]
    pub fn border(&self) -> i64
        ensures { IsBorderAt self.now.pairs result }
    {
        self.border as i64
    }

    /// The metatable.
    #[inline]
    pub fn meta(&self) -> Option<TableId>
        ensures { result ≡ self.now.meta }
    {
        self.meta
    }

    /// Sets the metatable, or takes it away.
    pub fn set_meta(&mut self, meta: Option<TableId>)
        ensures meta { self.new.meta ≡ meta }
        ensures pairs { self.new.pairs ≡ self.old.pairs }
    {
        self.meta = meta;
    }
}
