//! Locals, upvalues and their cells.
ghost use Rattle.std.specs.Prelude.{◌≡◌, ◌≤◌, length, drop, slice_get};
ghost use Rattle.std.specs.Option.{option_map};
ghost use Rattle.object_store.specs.declared.fault.LuaFault.TheVariants as lua;

use crate::host::Host;
use crate::loaded::Loaded;
use crate::machine::{Done, Machine, Window};
use lanes_arena::ArenaFault;
use lua_program::Ref;
use object_store::{Cell, CellId, LuaFault};

impl<H: Host> Machine<H> {
    ghost use Rattle.lua_meaning.specs.Names.{local_value, read_cell, up_cell, local_cell, set_cell, enclosed, put_slot};
    ghost use Rattle.lua_meaning.specs.Faults.{fault_at};
    ghost use Rattle.lua_meaning.specs.Statements.{declare, in_cell, assign};
    ghost use Rattle.lua_machine.specs.Does.{Fits, Kept, frame, locals, one, world, UnitOf};
    ghost use Rattle.lua_machine.specs.Moved.{LocalsOf, CellOf};

    /// The value of a local or an upvalue.
    #[inline(always)]
    pub fn read(&mut self, f: &Window, r: &Ref) -> Done
        requires { Fits f.now self.old.stack }
        ensures value { one result self.new ≡ local_value self.old.state.heap (frame f.now
            self.old.stack) r.now }
        ensures kept { Kept self.old self.new }
    {
        match r {
            Ref::Slot(i) => self.read_slot(f, *i),
            Ref::CellSlot(i) => {
                let cell = self.stack.cell(f.cells, *i as usize);
                self.read_cell(cell)
            }
            Ref::Up(j) => {
                let cell = self.up_cell(f, *j);
                self.read_cell(cell)
            }
            Ref::Global(_) => {
                self.broken();
                Done::Failed
            }
        }
    }

    /// The value of a slot.
    #[inline(always)]
    pub fn read_slot(&mut self, f: &Window, i: u16) -> Done
        requires { Fits f.now self.old.stack }
        ensures value { one result self.new ≡ local_value self.old.state.heap (frame f.now
            self.old.stack) (Ref.Slot i) }
        ensures kept { Kept self.old self.new }
    {
        let i = i as usize;
        if i < f.size {
            self.value = self.stack.at(f.base, i);
            return Done::Well;
        }
        self.broken();
        Done::Failed
    }

    /// The content of a cell.
    #[inline(always)]
    pub fn read_cell(&mut self, cell: Option<CellId>) -> Done
        ensures value { one result self.new ≡ read_cell self.old.state.heap cell }
        ensures kept { Kept self.old self.new }
    {
        if let Some(id) = cell
            && let Some(cell) = self.state.cell_of(id)
        {
            self.value = cell.content;
            return Done::Well;
        }
        self.broken();
        Done::Failed
    }

    /// The cell of an upvalue of the window's function.
    #[inline(always)]
    pub fn up_cell(&self, f: &Window, j: u16) -> Option<CellId>
        ensures { result ≡ up_cell self.now.state.heap (frame f.now self.now.stack) j }
    {
        let function = self.state.function_of(f.me)?;
        function.cells.as_slice().get(j as usize).copied()
    }

    /// A new cell with the value. Where there may be no more cells it is a fault of this line.
    #[inline(never)]
    pub fn enclose(&mut self, p: &Loaded, line: u32) -> Option<CellId>
        ensures { CellOf H.asked (enclosed (fault_at p.now line lua.Full) self.old.value (world
            self.old)) self.old result self.new }
    {
        match self.state.reserve(0, 0, 1) {
            Ok(()) => Some(
                self.state.add_cell(Cell {
                    content: self.value,
                }),
            ),
            Err(ArenaFault::Full) => {
                self.fault_at(p, line, LuaFault::Full);
                None
            }
            Err(ArenaFault::Memory) => {
                self.lose();
                None
            }
        }
    }

    /// The value becomes that of a slot.
    #[inline(always)]
    pub fn put(&mut self, f: &Window, i: u16) -> Done
        requires { Fits f.now self.old.stack }
        ensures { LocalsOf H.asked (λ k. k (put_slot i self.old.value (locals f.now self.old.stack))
            (world self.old)) self.old f.now result self.new }
    {
        let i = i as usize;
        if i < f.size {
            self.stack.put(f.base, i, self.value);
            return Done::Well;
        }
        self.broken();
        Done::Failed
    }

    /// The value becomes that of a captured local, in a new cell.
    #[inline(never)]
    pub fn put_in_cell(&mut self, p: &Loaded, line: u32, f: &Window, i: u16) -> Done
        requires { Fits f.now self.old.stack }
        ensures { LocalsOf H.asked (in_cell (fault_at p.now line lua.Full) i self.old.value (frame
            f.now self.old.stack) (world self.old)) self.old f.now result self.new }
    {
        let Some(cell) = self.enclose(p, line) else {
            return Done::Failed;
        };
        match self.stack.put_cell(f.cells, i as usize, cell) {
            Ok(()) => Done::Well,
            Err(_) => {
                self.lose();
                Done::Failed
            }
        }
    }

    /// A local is declared with the value.
    #[inline(always)]
    pub fn declare(&mut self, p: &Loaded, f: &Window, r: &Ref) -> Done
        requires { Fits f.now self.old.stack }
        ensures { LocalsOf H.asked (declare p.now (frame f.now self.old.stack) r.now self.old.value
            (world self.old)) self.old f.now result self.new }
    {
        match r {
            Ref::Slot(i) => self.put(f, *i),
            Ref::CellSlot(i) => self.put_in_cell(p, 0, f, *i),
            Ref::Up(_) => {
                self.broken();
                Done::Failed
            }
            Ref::Global(_) => {
                self.broken();
                Done::Failed
            }
        }
    }

    /// The value becomes the content of a cell.
    #[inline(always)]
    pub fn set_cell(&mut self, cell: Option<CellId>) -> Done
        ensures { UnitOf H.asked (set_cell cell self.old.value (world self.old)) self.old result
            self.new }
    {
        let Some(id) = cell else {
            self.broken();
            return Done::Failed;
        };
        if self.state.set_cell(id, self.value) {
            return Done::Well;
        }
        self.broken();
        Done::Failed
    }

    /// The value becomes that of a local or an upvalue.
    #[inline(always)]
    pub fn assign(&mut self, f: &Window, r: &Ref) -> Done
        requires { Fits f.now self.old.stack }
        ensures { LocalsOf H.asked (assign (frame f.now self.old.stack) r.now self.old.value (world
            self.old)) self.old f.now result self.new }
    {
        match r {
            Ref::Slot(i) => self.put(f, *i),
            Ref::CellSlot(i) => {
                let cell = self.stack.cell(f.cells, *i as usize);
                self.set_cell(cell)
            }
            Ref::Up(j) => {
                let cell = self.up_cell(f, *j);
                self.set_cell(cell)
            }
            Ref::Global(_) => {
                self.broken();
                Done::Failed
            }
        }
    }
}
