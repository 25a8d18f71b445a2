//! The memory of one lane.
ghost use Rattle.std.specs.Prelude.{◌≡◌, ◌⊎◌, ◌↔◌, ◌+◌, ◌-◌, ◌<◌, ◌^◌, ◌++◌, ◌∷◌, [], length, slice_get, Some, IsTrue, IsFalse, ◌≤◌, IfOk, IfSome, OnOk, OnErr};
ghost use Rattle.std.specs.Option.{option_copied, option_copied_mut, option_map};
ghost use Rattle.std.specs.Borrow.{sem};
ghost use Rattle.std.specs.List.{IsDistinct};
ghost use Rattle.std.specs.Str.{bytes_eq};
ghost use Rattle.lanes_arena.specs.Names.{named, number_of};
ghost use Rattle.object_store.specs.Event.{event_names, BeginsWithEvents};
ghost use Rattle.object_store.specs.Table.{contents_of};

use crate::event::Event;
use crate::table::Table;
use crate::value::{CellId, Cells, FuncId, Functions, StrId, TableId, Tables, Value};
use lanes_arena::{Arena, ArenaFault, Code, Memory, Names, Row};
use std::alloc::Global;
use std::marker::Model;

/// A function of a script: what it runs, and the variables that it shares with outer functions.
#[derive(Drop)]
pub struct Function {
    pub code: Code,
    pub cells: Row<CellId>,
}

/// A variable that functions share.
#[derive(Clone, Copy, PartialEq, Eq)]
pub struct Cell {
    pub content: Value,
}

/// The memory of one lane: its tables, functions and cells by number, its texts, and the tables
/// that have a name of their own. Contracts see the heap of these objects, the texts, and the room
/// that is reserved for further objects.
#[derive(Drop)]
pub struct State {
    number: u64,
    tables: Arena<Table, Tables>,
    functions: Arena<Function, Functions>,
    cells: Arena<Cell, Cells>,
    names: Names,
    globals: TableId,
    string_meta: Option<TableId>,
    lanes_table: Option<TableId>,
}

impl Model for State {
    ghost use Rattle.std.specs.Prelude.{map};
    ghost use Rattle.object_store.specs.Heap.{Shown, IsKept};
    ghost use Rattle.object_store.specs.Table.{contents_of};

    ghost Value = { Shown };

    ghost view = { λ s. record {
      heap = record {
        number = s.number;
        tables = map contents_of s.tables.items;
        functions = s.functions.items;
        cells = s.cells.items;
        string_meta = s.string_meta;
        lanes_table = s.lanes_table;
      };
      texts = s.names;
      room = record {
        tables = s.tables.spare;
        functions = s.functions.spare;
        cells = s.cells.spare;
      };
    } };

    ghost invariant = { λ s. IsKept s.globals.number s.tables.items s.names };
}

/// Whether `n` more objects have numbers left, where there are `len`.
fn has_numbers(len: u32, n: usize) -> bool
    ensures { IsTrue result ↔ (len + n ≤ 2 ^ 32 - 1) }
{
    n <= (u32::MAX - len) as usize
}

/// The names of all events, in their order.
fn event_texts(alloc: Global) -> Result<Names, Memory>
    ensures { IfOk result (λ names. names ≡ event_names) }
{
    let mut names = Names::new(alloc);
    for event in Event::ALL {
        names.name(event.name())?;
    }
    Ok(names)
}

impl State {
    ghost use Rattle.object_store.specs.Heap.{opening_heap, raised_room, with_cell, found_string, KeepsRoom};
    ghost use Rattle.object_store.specs.Closed.{Belongs, BelongsTable, BelongsFunction, BelongsCell, IsClosed};
    ghost use Rattle.object_store.specs.LendsObject.{LendsTable, LendsTableIf, LendsCell};

    /// A state with this number and one empty table, its globals.
    pub fn new(alloc: Global, number: u64) -> Result<State, Memory>
        ensures heap { IfOk result (λ state. state.heap ≡ opening_heap number) }
        ensures texts { IfOk result (λ state. state.texts ≡ event_names) }
        ensures closed { IfOk result IsClosed }
    {
        let names = event_texts(alloc)?;
        let mut tables = Arena::new(alloc);
        if tables.reserve(1).is_err() {
            return Err(Memory);
        }
        let globals = tables.push(Table::new(alloc));
        Ok(State {
            number,
            tables,
            functions: Arena::new(alloc),
            cells: Arena::new(alloc),
            names,
            globals,
            string_meta: None,
            lanes_table: None,
        })
    }

    /// The number of the state.
    pub fn number(&self) -> u64
        ensures number { result ≡ self.now.heap.number }
        ensures events { BeginsWithEvents self.now.texts }
    {
        self.number
    }

    /// The table of the globals, number 0.
    #[inline]
    pub fn globals(&self) -> TableId
        ensures number { result.number ≡ 0 }
        ensures belongs { 0 < length self.now.heap.tables }
    {
        self.globals
    }

    /// The metatable of all strings.
    pub fn string_meta(&self) -> Option<TableId>
        ensures { result ≡ self.now.heap.string_meta }
    {
        self.string_meta
    }

    /// Makes a table the metatable of all strings.
    pub fn set_string_meta(&mut self, meta: TableId)
        requires { meta.number < length self.old.heap.tables }
        ensures state { self.new ≡ record self.old {
          heap = record (self.old.heap) {
            string_meta =
                Some meta;
          };
        } }
        ensures closed { IsClosed self.old → IsClosed self.new }
    {
        self.string_meta = Some(meta);
    }

    /// The table that `require "lanes"` gives, once there is one.
    pub fn lanes_table(&self) -> Option<TableId>
        ensures { result ≡ self.now.heap.lanes_table }
    {
        self.lanes_table
    }

    /// Makes a table the one that `require "lanes"` gives.
    pub fn set_lanes_table(&mut self, table: TableId)
        requires { table.number < length self.old.heap.tables }
        ensures state { self.new ≡ record self.old {
          heap = record (self.old.heap) { lanes_table = Some table };
        } }
        ensures closed { IsClosed self.old → IsClosed self.new }
    {
        self.lanes_table = Some(table);
    }

    /// The string of these bytes. Equal bytes give equal values; each text is stored once.
    pub fn intern(&mut self, text: &[u8]) -> Result<Value, Memory>
        ensures value { IfOk result (λ value. value
            ≡ Value.Str (record { number = number_of self.old.texts text.now })) }
        ensures texts { OnOk result (self.new.texts ≡ named self.old.texts text.now) }
        ensures heap { self.new.heap ≡ self.old.heap }
        ensures room { self.new.room ≡ self.old.room }
        ensures belongs { IfOk result (Belongs self.new) }
        ensures closed { IsClosed self.old → IsClosed self.new }
        ensures err { OnErr result (self.new ≡ self.old) }
    {
        let id = self.names.name(text)?;
        Ok(Value::Str(id))
    }

    /// The string of these bytes, where the state holds it. Nothing is interned.
    pub fn find(&self, text: &[u8]) -> Option<Value>
        ensures value { result ≡ found_string self.now.texts text.now }
        ensures belongs { IfSome result (Belongs self.now) }
        ensures events { BeginsWithEvents self.now.texts }
    {
        match self.names.find(text) {
            Some(id) => Some(Value::Str(id)),
            None => None,
        }
    }

    /// The bytes of a string.
    #[inline]
    pub fn text(&self, id: StrId) -> &[u8]
        requires { id.number < length self.now.texts }
        ensures text { slice_get self.now.texts id.number ≡ Some result.now }
        ensures distinct { IsDistinct bytes_eq self.now.texts }
    {
        self.names.text(id)
    }

    /// The bytes of a string, where it belongs to the state.
    #[inline]
    pub fn text_of(&self, id: StrId) -> Option<&[u8]>
        ensures { option_copied result ≡ slice_get self.now.texts id.number }
    {
        self.names.text_of(id)
    }

    /// Makes room for so many more tables, functions and cells. `Full` comes first, and where one
    /// kind has too few numbers left.
    pub fn reserve(
        &mut self,
        tables: usize,
        functions: usize,
        cells: usize,
    ) -> Result<(), ArenaFault>
        ensures heap { self.new.heap ≡ self.old.heap }
        ensures texts { self.new.texts ≡ self.old.texts }
        ensures ok { OnOk result (self.new.room
            ≡ raised_room self.old.room tables functions cells) }
        ensures full { (result ≡ Err ArenaFault.Full)
            ↔ ((2 ^ 32 - 1 < length self.old.heap.tables + tables)
            ⊎ (2 ^ 32 - 1 < length self.old.heap.functions + functions)
            ⊎ (2 ^ 32 - 1 < length self.old.heap.cells + cells)) }
        ensures err { OnErr result (KeepsRoom self.old.room self.new.room) }
        ensures closed { IsClosed self.old → IsClosed self.new }
    {
        if !has_numbers(self.tables.len(), tables)
            || !has_numbers(self.functions.len(), functions)
            || !has_numbers(self.cells.len(), cells)
        {
            return Err(ArenaFault::Full);
        }
        self.tables.reserve(tables)?;
        self.functions.reserve(functions)?;
        self.cells.reserve(cells)?;
        Ok(())
    }

    /// The number of the table that is added once `n` more were added, so that objects can name one
    /// another before they are added.
    #[inline]
    pub fn table_ahead(&self, n: u32) -> TableId
        ensures { result.number ≡ length self.now.heap.tables + n }
    {
        self.tables.id_ahead(n)
    }

    /// Adds a table for which room was made. Its number is how many there were.
    pub fn add_table(&mut self, table: Table) -> TableId
        requires { 0 < self.old.room.tables }
        ensures number { result.number ≡ length self.old.heap.tables }
        ensures heap { self.new.heap ≡ record (self.old.heap) {
          tables = self.old.heap.tables
              ++ contents_of table ∷ [];
        } }
        ensures room { self.new.room
            ≡ record (self.old.room) { tables = self.old.room.tables - 1 } }
        ensures texts { self.new.texts ≡ self.old.texts }
        ensures closed { IsClosed self.old → BelongsTable self.old (contents_of table)
            → IsClosed self.new }
    {
        self.tables.push(table)
    }

    /// The number of the function that is added once `n` more were added, so that objects can name
    /// one another before they are added.
    #[inline]
    pub fn function_ahead(&self, n: u32) -> FuncId
        ensures { result.number ≡ length self.now.heap.functions + n }
    {
        self.functions.id_ahead(n)
    }

    /// Adds a function for which room was made. Its number is how many there were.
    pub fn add_function(&mut self, function: Function) -> FuncId
        requires { 0 < self.old.room.functions }
        ensures number { result.number ≡ length self.old.heap.functions }
        ensures heap { self.new.heap ≡ record (self.old.heap) {
          functions = self.old.heap.functions
              ++ function ∷ [];
        } }
        ensures room { self.new.room
            ≡ record (self.old.room) { functions = self.old.room.functions - 1 } }
        ensures texts { self.new.texts ≡ self.old.texts }
        ensures closed { IsClosed self.old → BelongsFunction self.old function → IsClosed self.new }
    {
        self.functions.push(function)
    }

    /// The number of the cell that is added once `n` more were added, so that objects can name one
    /// another before they are added.
    #[inline]
    pub fn cell_ahead(&self, n: u32) -> CellId
        ensures { result.number ≡ length self.now.heap.cells + n }
    {
        self.cells.id_ahead(n)
    }

    /// Adds a cell for which room was made. Its number is how many there were.
    pub fn add_cell(&mut self, cell: Cell) -> CellId
        requires { 0 < self.old.room.cells }
        ensures number { result.number ≡ length self.old.heap.cells }
        ensures heap { self.new.heap ≡ record (self.old.heap) {
          cells = self.old.heap.cells
              ++ cell ∷ [];
        } }
        ensures room { self.new.room ≡ record (self.old.room) { cells = self.old.room.cells - 1 } }
        ensures texts { self.new.texts ≡ self.old.texts }
        ensures closed { IsClosed self.old → BelongsCell self.old cell → IsClosed self.new }
    {
        let Cell { content } = cell;
        self.cells.push(Cell { content })
    }

    /// The table of this number.
    #[inline]
    pub fn table(&self, id: TableId) -> &Table
        requires { id.number < length self.now.heap.tables }
        ensures table { slice_get self.now.heap.tables id.number ≡ Some (contents_of result.now) }
        ensures belongs { IsClosed self.now → BelongsTable self.now (contents_of result.now) }
    {
        self.tables.get(id)
    }

    /// The table of this number, where it belongs to the state.
    #[inline]
    pub fn table_of(&self, id: TableId) -> Option<&Table>
        ensures table { option_map contents_of (option_copied result)
            ≡ slice_get self.now.heap.tables id.number }
        ensures belongs { IsClosed self.now
            → IfSome (option_copied result) (λ table. BelongsTable self.now
            (contents_of table)) }
    {
        self.tables.find(id)
    }

    /// The table of this number, for writing. Who writes puts only ids of this state there.
    #[inline]
    pub fn table_mut(&mut self, id: TableId) -> &mut Table
        requires { id.number < length self.old.heap.tables }
        ensures* writes_back { sem 𝓛 (LendsTable self.entry id.number result) }
        ensures table { slice_get self.old.heap.tables id.number ≡ Some (contents_of result.now) }
    {
        self.tables.get_mut(id)
    }

    /// The table of this number, where it belongs to the state, for writing. Who writes puts only
    /// ids of this state there.
    #[inline]
    pub fn table_of_mut(&mut self, id: TableId) -> Option<&mut Table>
        ensures* writes_back { sem 𝓛 (LendsTableIf self.entry id.number result) }
        ensures table { option_map contents_of (option_copied_mut result)
            ≡ slice_get self.old.heap.tables id.number }
    {
        if id.number() < self.tables.len() as u64 {
            Some(self.table_mut(id))
        } else {
            None
        }
    }

    /// The function of this number.
    #[inline]
    pub fn function(&self, id: FuncId) -> &Function
        requires { id.number < length self.now.heap.functions }
        ensures function { slice_get self.now.heap.functions id.number ≡ Some result.now }
        ensures belongs { IsClosed self.now → BelongsFunction self.now result.now }
    {
        self.functions.get(id)
    }

    /// The function of this number, where it belongs to the state.
    #[inline]
    pub fn function_of(&self, id: FuncId) -> Option<&Function>
        ensures function { option_copied result ≡ slice_get self.now.heap.functions id.number }
        ensures belongs { IsClosed self.now
            → IfSome (option_copied result) (BelongsFunction self.now) }
    {
        self.functions.find(id)
    }

    /// The cell of this number.
    #[inline]
    pub fn cell(&self, id: CellId) -> &Cell
        requires { id.number < length self.now.heap.cells }
        ensures cell { slice_get self.now.heap.cells id.number ≡ Some result.now }
        ensures belongs { IsClosed self.now → BelongsCell self.now result.now }
    {
        self.cells.get(id)
    }

    /// The cell of this number, where it belongs to the state.
    #[inline]
    pub fn cell_of(&self, id: CellId) -> Option<&Cell>
        ensures cell { option_copied result ≡ slice_get self.now.heap.cells id.number }
        ensures belongs { IsClosed self.now → IfSome (option_copied result) (BelongsCell self.now) }
    {
        self.cells.find(id)
    }

    /// Sets the content of a cell, and answers whether the cell belongs to the state.
    #[inline]
    pub fn set_cell(&mut self, id: CellId, content: Value) -> bool
        ensures there { IsTrue result ↔ (id.number < length self.old.heap.cells) }
        ensures set { IsTrue result → self.new
            ≡ with_cell self.old id.number (record { content = content }) }
        ensures absent { IsFalse result → self.new ≡ self.old }
        ensures closed { IsClosed self.old → Belongs self.old content → IsClosed self.new }
    {
        match self.cells.find_mut(id) {
            Some(cell) => {
                cell.content = content;
                true
            }
            None => false,
        }
    }

    /// The cell of this number, for writing. Who writes puts only ids of this state there.
    #[inline]
    pub fn cell_mut(&mut self, id: CellId) -> &mut Cell
        requires { id.number < length self.old.heap.cells }
        ensures* writes_back { sem 𝓛 (LendsCell self.entry id.number result) }
        ensures cell { slice_get self.old.heap.cells id.number ≡ Some result.now }
    {
        self.cells.get_mut(id)
    }
}
