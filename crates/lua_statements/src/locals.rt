//! Locals that are declared with values on the stack (Lua 5.4 manual, sections 3.3.5 and 3.3.7).
ghost use Rattle.std.specs.Prelude.{◌≡◌, ◌≤◌, ◌+◌, length, drop};
ghost use Rattle.object_store.specs.declared.fault.LuaFault.TheVariants as lua;
ghost use Rattle.lua_meaning.specs.Faults.{fault_at};
ghost use Rattle.lua_meaning.specs.Names.{first, put_slot};
ghost use Rattle.lua_meaning.specs.Statements.{declare, declare_all, in_cell};
ghost use Rattle.lua_machine.specs.Piled.{cut};
ghost use Rattle.lua_machine.specs.Does.{Fits, OnWell, frame, locals, world};
ghost use Rattle.lua_machine.specs.Moved.{LocalsOf};
ghost use Rattle.lua_statements.specs.Locals.{past};

use lua_machine::{Done, Host, Loaded, Machine, Window};
use lua_program::Ref;
use object_store::Value;

/// The value so far past a place of the stack, nil where there is none.
#[inline(always)]
pub fn value_at<H: Host>(m: &Machine<H>, at: usize, i: usize) -> Value
    requires { at ≤ length m.now.stack.values }
    ensures { result ≡ first (drop i (drop at m.now.stack.values)) }
{
    if i < m.stack.len() - at {
        return m.stack.at(at, i);
    }
    Value::Nil
}

/// The value becomes that of a slot, and the values past the window stay.
#[inline(always)]
fn put<H: Host>(m: &mut Machine<H>, f: &Window, i: u16) -> Done
    requires { Fits f.now m.old.stack }
    ensures locals { LocalsOf H.asked (λ k. k (put_slot i m.old.value (locals f.now m.old.stack))
        (world m.old)) m.old f.now result m.new }
    ensures past { OnWell result (past f.now m.new.stack ≡ past f.now m.old.stack) }
{
    let i = i as usize;
    if i < f.size {
        m.stack.put(f.base, i, m.value);
        return Done::Well;
    }
    m.broken();
    Done::Failed
}

/// The value becomes that of a captured local, in a new cell, and the values past the window stay.
fn put_in_cell<H: Host>(m: &mut Machine<H>, p: &Loaded, f: &Window, i: u16) -> Done
    requires { Fits f.now m.old.stack }
    ensures locals { LocalsOf H.asked (in_cell (fault_at p.now 0 lua.Full) i m.old.value (frame
        f.now m.old.stack) (world m.old)) m.old f.now result m.new }
    ensures past { OnWell result (past f.now m.new.stack ≡ past f.now m.old.stack) }
{
    let Some(cell) = m.enclose(p, 0) else {
        return Done::Failed;
    };
    match m.stack.put_cell(f.cells, i as usize, cell) {
        Ok(()) => Done::Well,
        Err(_) => {
            m.lose();
            Done::Failed
        }
    }
}

/// A local is declared with the value, and the values past the window stay.
#[inline(always)]
fn declare<H: Host>(m: &mut Machine<H>, p: &Loaded, f: &Window, r: &Ref) -> Done
    requires { Fits f.now m.old.stack }
    ensures locals { LocalsOf H.asked (declare p.now (frame f.now m.old.stack) r.now m.old.value
        (world m.old)) m.old f.now result m.new }
    ensures past { OnWell result (past f.now m.new.stack ≡ past f.now m.old.stack) }
{
    match r {
        Ref::Slot(i) => put(m, f, *i),
        Ref::CellSlot(i) => put_in_cell(m, p, f, *i),
        Ref::Up(_) => {
            m.broken();
            Done::Failed
        }
        Ref::Global(_) => {
            m.broken();
            Done::Failed
        }
    }
}

/// Locals are declared with the values from a place of the stack on, which are dropped; nil stands
/// for those that there are none of.
pub fn declare_all<H: Host>(
    m: &mut Machine<H>,
    p: &Loaded,
    f: &Window,
    rs: &[Ref],
    at: usize,
) -> Done
    requires fits { Fits f.now m.old.stack }
    requires above { f.now.base + f.now.size ≤ at }
    requires within { at ≤ length m.old.stack.values }
    ensures { LocalsOf H.asked (declare_all p.now rs.now (drop at m.old.stack.values)
        (frame f.now m.old.stack) (world m.old)) (record m.old {
          stack =
              cut at m.old.stack;
        }) f.now result m.new }
{
    for (i, r) in rs.iter().enumerate() {
        m.value = value_at(m, at, i);
        match declare(m, p, f, r) {
            Done::Well => {}
            Done::Failed => return Done::Failed,
        }
    }
    m.stack.cut(at);
    Done::Well
}
