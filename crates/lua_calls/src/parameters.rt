//! The cells of parameters that inner functions name (Lua 5.4 manual, section 3.5).
ghost use Rattle.std.specs.Prelude.{◌≡◌, ◌≤◌, ◌+◌, slice_get};
ghost use Rattle.lua_meaning.specs.Level.{or_broken};
ghost use Rattle.lua_meaning.specs.Calls.{param_cell, param_cells};
ghost use Rattle.lua_machine.specs.Does.{Fits, frame, world};
ghost use Rattle.lua_machine.specs.Moved.{LocalsOf};

use lua_machine::{Done, Host, Loaded, Machine, Window};

/// The value of a slot comes into a new cell, which is that of the slot.
#[inline(never)]
fn param_cell<H: Host>(m: &mut Machine<H>, p: &Loaded, line: u32, f: &Window, i: usize) -> Done
    requires { Fits f.now m.old.stack }
    ensures { LocalsOf H.asked (param_cell p.now line i (or_broken (slice_get (frame f.now
        m.old.stack).locals.slots i)) (frame f.now m.old.stack) (world m.old)) m.old f.now result
        m.new }
{
    if i >= f.size {
        m.broken();
        return Done::Failed;
    }
    m.value = m.stack.at(f.base, i);
    let Some(cell) = m.enclose(p, line) else {
        return Done::Failed;
    };
    match m.stack.put_cell(f.cells, i, cell) {
        Ok(()) => Done::Well,
        Err(_) => {
            m.lose();
            Done::Failed
        }
    }
}

/// Each parameter that is marked gets a cell with its value. Where there may be no more cells it is
/// a fault of this line.
#[inline]
pub fn param_cells<H: Host>(
    m: &mut Machine<H>,
    p: &Loaded,
    line: u32,
    f: &Window,
    cells: &[bool],
) -> Done
    requires { Fits f.now m.old.stack }
    ensures { LocalsOf H.asked (param_cells p.now line 0 cells.now (frame f.now m.old.stack) (world
        m.old)) m.old f.now result m.new }
{
    for (i, has_cell) in cells.iter().enumerate() {
        if *has_cell {
            match param_cell(m, p, line, f, i) {
                Done::Well => {}
                Done::Failed => return Done::Failed,
            }
        }
    }
    Done::Well
}
