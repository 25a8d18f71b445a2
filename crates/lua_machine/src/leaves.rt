//! Expressions that are read in place: integers, texts, locals and upvalues.
ghost use Rattle.std.specs.Prelude.{◌≡◌, IsTrue, IsFalse, Ok, Some, slice_get};
ghost use Rattle.lua_program.specs.declared.expr.RExprKind.{out-RExprKind};

use crate::host::Host;
use crate::loaded::Loaded;
use crate::machine::{Machine, Window};
use lua_program::{RExprKind, Ref};
use object_store::{CellId, Value};

impl<H: Host> Machine<H> {
    ghost use Rattle.lua_meaning.specs.Names.{local_value, read_cell};
    ghost use Rattle.lua_machine.specs.Does.{Fits, frame};
    ghost use Rattle.lua_machine.specs.Leaves.{leaf_value};

    /// Takes the value of a leaf, and answers whether there is one.
    #[inline(always)]
    pub fn take_leaf(&mut self, p: &Loaded, f: &Window, what: &RExprKind) -> bool
        requires { Fits f.now self.old.stack }
        ensures taken { IsTrue result → leaf_value p.now self.old.state.heap (frame f.now
            self.old.stack) (out-RExprKind what.now) ≡ Some self.new.value }
        ensures rest { self.new ≡ record self.old { value = self.new.value } }
        ensures refused { IsFalse result → self.new ≡ self.old }
    {
        match what {
            RExprKind::Int(n) => {
                self.value = Value::Int(*n);
                true
            }
            RExprKind::Text(_, place) => self.take_text(p, *place),
            RExprKind::Name(r, _) => self.take_local(f, r),
            _ => false,
        }
    }

    /// Takes the string of a text.
    #[inline(always)]
    fn take_text(&mut self, p: &Loaded, place: u32) -> bool
        ensures taken { IsTrue result → slice_get p.now.keys place ≡ Some self.new.value }
        ensures rest { self.new ≡ record self.old { value = self.new.value } }
        ensures refused { IsFalse result → self.new ≡ self.old }
    {
        match p.key(place) {
            Some(value) => {
                self.value = value;
                true
            }
            None => false,
        }
    }

    /// Takes the value of a local or an upvalue.
    #[inline(always)]
    fn take_local(&mut self, f: &Window, r: &Ref) -> bool
        requires { Fits f.now self.old.stack }
        ensures taken { IsTrue result → local_value self.old.state.heap (frame f.now
            self.old.stack) r.now ≡ Ok self.new.value }
        ensures rest { self.new ≡ record self.old { value = self.new.value } }
        ensures refused { IsFalse result → self.new ≡ self.old }
    {
        match r {
            Ref::Slot(i) => self.take_slot(f, *i),
            _ => self.take_content(f, r),
        }
    }

    /// Takes the value of a slot.
    #[inline(always)]
    fn take_slot(&mut self, f: &Window, i: u16) -> bool
        requires { Fits f.now self.old.stack }
        ensures taken { IsTrue result → local_value self.old.state.heap (frame f.now
            self.old.stack) (Ref.Slot i) ≡ Ok self.new.value }
        ensures rest { self.new ≡ record self.old { value = self.new.value } }
        ensures refused { IsFalse result → self.new ≡ self.old }
    {
        let i = i as usize;
        if i < f.size {
            self.value = self.stack.at(f.base, i);
            return true;
        }
        false
    }

    /// Takes the content of a captured local's or an upvalue's cell.
    #[inline(never)]
    fn take_content(&mut self, f: &Window, r: &Ref) -> bool
        requires { Fits f.now self.old.stack }
        ensures taken { IsTrue result → local_value self.old.state.heap (frame f.now
            self.old.stack) r.now ≡ Ok self.new.value }
        ensures rest { self.new ≡ record self.old { value = self.new.value } }
        ensures refused { IsFalse result → self.new ≡ self.old }
    {
        match r {
            Ref::CellSlot(i) => {
                let cell = self.stack.cell(f.cells, *i as usize);
                self.take_cell(cell)
            }
            Ref::Up(j) => {
                let cell = self.up_cell(f, *j);
                self.take_cell(cell)
            }
            _ => false,
        }
    }

    /// Takes the content of a cell.
    #[inline(always)]
    fn take_cell(&mut self, cell: Option<CellId>) -> bool
        ensures taken { IsTrue result → read_cell self.old.state.heap cell ≡ Ok self.new.value }
        ensures rest { self.new ≡ record self.old { value = self.new.value } }
        ensures refused { IsFalse result → self.new ≡ self.old }
    {
        if let Some(id) = cell
            && let Some(cell) = self.state.cell_of(id)
        {
            self.value = cell.content;
            return true;
        }
        false
    }
}
