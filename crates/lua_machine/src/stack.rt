//! A stack that all frames share.
ghost use Rattle.lua_meaning.specs.Names.{filled};
ghost use Rattle.lua_machine.specs.Piled.{cells_with};
ghost use Rattle.std.specs.Prelude.{◌≡◌, ◌+◌, ◌<◌, ◌≤◌, ◌-◌, ◌++◌, ◌∷◌, [], length, take, drop, replicate, slice_get, slice_set, Some, OnOk, OnErr, IfOk, slice_range};

use object_store::{CellId, Value};
use std::alloc::{AllocError, Global};
use std::marker::Model;

/// A stack of values, and one of the cells of captured locals. Contracts see the two lists.
#[derive(Drop)]
pub struct Stack {
    values: Vec<Value>,
    cells: Vec<CellId>,
}

impl Model for Stack {
    ghost use Rattle.lua_machine.specs.Piled.{Piled};

    ghost Value = { Piled };

    ghost view = { λ s. record { values = s.values.items; cells = s.cells.items } };
}

impl Stack {
    ghost use Rattle.lua_machine.specs.Piled.{cut, with_values, with_cells};

    /// An empty stack, which takes no memory.
    pub fn new(alloc: Global) -> Stack
        ensures { result ≡ record { values = []; cells = [] } }
    {
        Stack {
            values: Vec::new(alloc),
            cells: Vec::new(alloc),
        }
    }

    /// How many values there are.
    #[inline(always)]
    pub fn len(&self) -> usize
        ensures { result ≡ length self.now.values }
    {
        self.values.len()
    }

    /// How many cells there are.
    #[inline(always)]
    pub fn cell_count(&self) -> usize
        ensures { result ≡ length self.now.cells }
    {
        self.cells.len()
    }

    /// The value at a place past another.
    #[inline(always)]
    pub fn at(&self, base: usize, i: usize) -> Value
        requires { base + i < length self.now.values }
        ensures { slice_get self.now.values (base + i) ≡ Some result }
    {
        let _len = self.values.len();
        self.values[base + i]
    }

    /// Changes the value at a place past another.
    #[inline(always)]
    pub fn put(&mut self, base: usize, i: usize, value: Value)
        requires { base + i < length self.old.values }
        ensures { self.new ≡ with_values self.old (slice_set self.old.values (base + i) value) }
    {
        let _len = self.values.len();
        self.values[base + i] = value;
    }

    /// Adds a value.
    #[inline(always)]
    pub fn push(&mut self, value: Value) -> Result<(), AllocError>
        ensures ok { OnOk result (self.new ≡ with_values self.old (self.old.values ++ value ∷ [])) }
        ensures err { OnErr result (self.new ≡ self.old) }
    {
        self.values.push(value)?;
        Ok(())
    }

    /// Drops the values past the first `n`.
    #[inline(always)]
    pub fn cut(&mut self, n: usize)
        ensures { self.new ≡ cut n self.old }
    {
        self.values.truncate(n);
    }

    /// The cell at a place past another.
    #[inline(always)]
    pub fn cell(&self, base: usize, i: usize) -> Option<CellId>
        requires { base ≤ length self.now.cells }
        ensures { result ≡ slice_get (drop base self.now.cells) i }
    {
        if i < self.cells.len() - base {
            return Some(self.cells[base + i]);
        }
        None
    }

    /// Makes a cell that of a place past another, and the last.
    pub fn put_cell(&mut self, base: usize, i: usize, cell: CellId) -> Result<(), AllocError>
        requires { base ≤ length self.old.cells }
        ensures ok { OnOk result (self.new ≡ with_cells self.old (take base self.old.cells ++
            cells_with i cell (drop base self.old.cells))) }
        ensures err { OnErr result (self.new.values ≡ self.old.values) }
    {
        put_in(&mut self.cells, base, i, cell)
    }

    /// Drops the cells past the first `n`.
    #[inline(always)]
    pub fn cut_cells(&mut self, n: usize)
        ensures { self.new ≡ with_cells self.old (take n self.old.cells) }
    {
        self.cells.truncate(n);
    }

    /// Makes a window of the values from `at` on: of the first of them, and nil for further ones.
    #[inline(always)]
    pub fn open(&mut self, at: usize, params: usize, slots: usize) -> Result<(), AllocError>
        requires within { at ≤ length self.old.values }
        requires fewer { params ≤ slots }
        ensures ok { OnOk result (self.new ≡ with_values self.old (take at self.old.values ++ filled
            slots (take params (drop at self.old.values)))) }
        ensures cells { self.new.cells ≡ self.old.cells }
    {
        let Some(last) = at.checked_add(slots) else {
            return Err(AllocError);
        };
        let first = at + params;
        self.values.truncate(first);
        self.values.resize(last, Value::Nil)?;
        Ok(())
    }

    /// Adds again the values from one place to another.
    pub fn again(&mut self, from: usize, to: usize) -> Result<(), AllocError>
        requires { (from ≤ to) × (to ≤ length self.old.values) }
        ensures ok { OnOk result (self.new ≡ with_values self.old (self.old.values ++ slice_range
            self.old.values from to)) }
        ensures err { OnErr result (self.new ≡ self.old) }
    {
        self.values.extend_from_within(from..to)?;
        Ok(())
    }

    /// Makes a window above all values, of the first of those from `at` on, and tells where the
    /// further ones begin.
    pub fn open_above(
        &mut self,
        at: usize,
        params: usize,
        slots: usize,
    ) -> Result<usize, AllocError>
        requires within { at ≤ length self.old.values }
        requires fewer { params ≤ slots }
        ensures ok { OnOk result (self.new ≡ with_values self.old (self.old.values ++ filled slots
            (take params (drop at self.old.values)))) }
        ensures dots { IfOk result (λ dots. (dots ≤ length self.old.values) × (drop dots
            self.old.values ≡ drop params (drop at self.old.values))) }
        ensures cells { self.new.cells ≡ self.old.cells }
    {
        let base = self.values.len();
        let dots = at + params.min(base - at);
        self.again(at, dots)?;
        self.open(base, params, slots)?;
        Ok(dots)
    }

    /// The values from this place on, without the first `skip`, as a stack of their own.
    pub fn beyond(&self, alloc: Global, at: usize, skip: usize) -> Result<Stack, AllocError>
        ensures { IfOk result (λ s. s ≡ record {
          values = drop skip (drop at self.now.values);
          cells
              = [];
        }) }
    {
        let from = at.saturating_add(skip);
        if from < self.values.len() {
            let values = Vec::from_slice(alloc, &self.values[from..])?;
            return Ok(Stack {
                values,
                cells: Vec::new(alloc),
            });
        }
        Ok(Stack::new(alloc))
    }

    /// Moves the values of another stack to the end.
    pub fn append(&mut self, more: Stack) -> Result<(), AllocError>
        ensures ok { OnOk result
            (self.new ≡ with_values self.old (self.old.values ++ more.values)) }
        ensures err { OnErr result (self.new ≡ self.old) }
    {
        let Stack {
            mut values,
            cells: _,
        } = more;
        self.values.append(&mut values)
    }

    /// The values from a place on.
    #[inline]
    pub fn from(&self, at: usize) -> &[Value]
        requires { at ≤ length self.now.values }
        ensures { result.now ≡ drop at self.now.values }
    {
        let _len = self.values.len();
        &self.values[at..]
    }

    /// Moves the values from one place on down to another.
    pub fn lower(&mut self, to: usize, from: usize)
        requires within { (to ≤ from) × (from ≤ length self.old.values) }
        ensures { self.new ≡ with_values self.old (take to self.old.values ++ drop from
            self.old.values) }
    {
        lowered(&mut self.values, to, from);
    }
}

/// Makes a cell that of a place past another, and the last.
fn put_in(cells: &mut Vec<CellId>, base: usize, i: usize, cell: CellId) -> Result<(), AllocError>
    requires { base ≤ length cells.old.items }
    ensures { OnOk result (cells.new.items ≡ take base cells.old.items ++ cells_with i cell (drop
        base cells.old.items)) }
{
    let Some(place) = base.checked_add(i) else {
        return Err(AllocError);
    };
    cells.truncate(place);
    cells.resize(place, cell)?;
    cells.push(cell)?;
    Ok(())
}

/// Moves the values from one place on down to another.
fn lowered(values: &mut Vec<Value>, to: usize, from: usize)
    requires { (to ≤ from) × (from ≤ length values.old.items) }
    ensures { values.new.items ≡ take to values.old.items ++ drop from values.old.items }
{
    let n = values.len() - from;
    for i in 0..n {
        let value = values[from + i];
        values[to + i] = value;
    }
    values.truncate(to + n);
}
