//! The marks of one state.
ghost use Rattle.std.specs.Prelude.{◌≡◌, ◌≢◌, ◌<◌, ◌≤◌, ◌+◌, ◌-◌, ◌^◌, [], length, None, IfNone, OnOk, OnErr, IsOk, if◌then◌else◌, is_some, take};
ghost use Rattle.std.specs.Option.{option_map, unwrap_or};

use indexmap::IndexMap;
use lanes_arena::{Mark, Memory};
use object_store::TableId;
use std::alloc::Global;
use std::marker::Model;

/// The marks of one state, each with its table. Contracts see the registry of pairs, and for how
/// many more there is room. Look-ups take constant time either way.
#[derive(Drop)]
pub struct Marks {
    state: u64,
    by_mark: IndexMap<Mark, TableId>,
    by_table: IndexMap<u64, Mark>,
}

impl Model for Marks {
    ghost use Rattle.metatable_ids.specs.Registry.{Shown};
    ghost use Rattle.metatable_ids.specs.Kept.{registry_of, IsKept};
    ghost use Rattle.indexmap.specs.IndexMap.{spare};
    ghost use Rattle.std.specs.Prelude.{min};

    ghost Value = { Shown };

    ghost view = { λ m. record {
      registry = registry_of m.state m.by_mark.entries;
      room = min (spare m.by_mark) (spare m.by_table);
    } };

    ghost invariant = { λ m. IsKept m.state m.by_mark.entries m.by_table.entries };
}

impl Marks {
    ghost use Rattle.metatable_ids.specs.Registry.{Registry, table_of, mark_of, own_mark, with_mark, with_pair, first_pairs, IsRegistry};

    /// No marks yet, of the state of this number. It takes no memory.
    pub fn new(alloc: Global, state: u64) -> Marks
        ensures { result.registry ≡ record { state = state; pairs = [] } }
    {
        Marks {
            state,
            by_mark: IndexMap::new(alloc),
            by_table: IndexMap::new(alloc),
        }
    }

    /// The number of the state that the marks were made for.
    pub fn state(&self) -> u64
        ensures state { result ≡ self.now.registry.state }
        ensures registry { IsRegistry self.now.registry }
    {
        let _marks = self.by_mark.len();
        let _tables = self.by_table.len();
        self.state
    }

    /// The mark of a table, where it has one.
    #[inline]
    pub fn mark_of(&self, table: TableId) -> Option<Mark>
        ensures { result ≡ mark_of self.now.registry table.number }
    {
        self.by_table.get(&table.number()).copied()
    }

    /// The table that a mark stands for, where it is known.
    #[inline]
    pub fn table_of(&self, mark: Mark) -> Option<TableId>
        ensures { option_map (λ table. table.number) result ≡ table_of self.now.registry mark }
    {
        self.by_mark.get(&mark).copied()
    }

    /// How many marks there are.
    pub fn count(&self) -> usize
        ensures { result ≡ length self.now.registry.pairs }
    {
        self.by_mark.len()
    }

    /// Makes room for `n` more marks. The only refusal is want of memory.
    pub fn reserve(&mut self, n: usize) -> Result<(), Memory>
        ensures registry { self.new.registry ≡ self.old.registry }
        ensures ok { OnOk result (n ≤ self.new.room) }
        ensures room { self.old.room ≤ self.new.room }
    {
        self.by_mark.reserve(n)?;
        self.by_table.reserve(n)
    }

    /// The mark of a table, which gets this state's own where it has none.
    pub fn mark(&mut self, table: TableId) -> Mark
        requires not_globals { 0 < table.number }
        requires small { table.number < 2 ^ 32 }
        requires room { mark_of self.old.registry table.number ≡ None → 0 < self.old.room }
        ensures mark { result ≡ unwrap_or (mark_of self.old.registry table.number)
            (own_mark self.old.registry table.number) }
        ensures registry { self.new.registry ≡ with_mark self.old.registry table.number }
        ensures room { self.old.room ≤ self.new.room + 1 }
    {
        if let Some(mark) = self.mark_of(table) {
            return mark;
        }
        let mark = Mark {
            state: self.state,
            table: table.number() as u32,
        };
        self.add(mark, table);
        mark
    }

    /// Makes a table stand for the mark that another state made.
    pub fn bind(&mut self, mark: Mark, table: TableId)
        requires not_globals { 0 < table.number }
        requires of_another_state { mark.state ≢ self.old.registry.state }
        requires new_mark { table_of self.old.registry mark ≡ None }
        requires new_table { mark_of self.old.registry table.number ≡ None }
        requires room { 0 < self.old.room }
        ensures registry { self.new.registry ≡ with_pair self.old.registry mark table.number }
        ensures room { self.old.room ≤ self.new.room + 1 }
    {
        self.add(mark, table);
    }

    /// Adds a pair of which neither part is held.
    fn add(&mut self, mark: Mark, table: TableId)
        requires not_globals { 0 < table.number }
        requires own { mark.state ≡ self.old.registry.state → mark.table ≡ table.number }
        requires new_mark { table_of self.old.registry mark ≡ None }
        requires new_table { mark_of self.old.registry table.number ≡ None }
        requires room { 0 < self.old.room }
        ensures registry { self.new.registry ≡ with_pair self.old.registry mark table.number }
        ensures room { self.old.room ≤ self.new.room + 1 }
    {
        self.by_mark.insert(mark, table).unwrap();
        self.by_table.insert(table.number(), mark).unwrap();
    }

    /// Keeps the first `n` marks, in time of those that go.
    pub fn forget(&mut self, n: usize)
        requires { n ≤ length self.old.registry.pairs }
        ensures registry { self.new.registry ≡ first_pairs self.old.registry n }
        ensures room { self.old.room ≤ self.new.room }
    {
        self.by_mark.truncate(n);
        self.by_table.truncate(n);
    }
}
