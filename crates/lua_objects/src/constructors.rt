//! Table constructors (Lua 5.4 manual, section 3.4.9).
ghost use Rattle.std.specs.Prelude.{◌≡◌, ◌+◌, ◌<◌, pos};
ghost use Rattle.lua_meaning.specs.Level.{Level, Frame};
ghost use Rattle.lua_meaning.specs.Levels.{level};
ghost use Rattle.lua_meaning.specs.Expressions as spec;
ghost use Rattle.lua_machine.specs.Does.{Fits, Stands, OneOf, UnitOf, frame, world};
ghost use Rattle.lua_objects.specs.Found.{FoundOf};

use crate::fields::{last_field, set_field};
use lanes_arena::ArenaFault;
use lua_machine::{Below, Done, FlowTag, Got, Host, Loaded, Machine, Window};
use lua_meaning::Site;
use lua_program::{RExpr, RField, RStat};
use object_store::{LuaFault, Table, TableId, Value};

/// A new empty table. Where there may be no more tables it is a fault of this line.
fn new_table<H: Host>(m: &mut Machine<H>, p: &Loaded, line: u32) -> Option<TableId>
    ensures { (l : Level) (f : Frame) → FoundOf H.asked
        (spec.new_table p.now l f line (world m.old))
        m.old result m.new }
{
    match m.state.reserve(1, 0, 0) {
        Ok(()) => {
            let table = Table::new(m.alloc);
            Some(m.state.add_table(table))
        }
        Err(ArenaFault::Full) => {
            m.fault_at(p, line, LuaFault::Full);
            None
        }
        Err(ArenaFault::Memory) => {
            m.lose();
            None
        }
    }
}

/// The fields of a table, in order. The first item has the key 1.
fn set_fields<H, E, M, C, S>(
    b: &Below<H, E, M, C, S>,
    m: &mut Machine<H>,
    p: &Loaded,
    f: &Window,
    line: u32,
    id: TableId,
    fields: &[RField],
) -> Done
where
    H: Host,
    E: Fn(&mut Machine<H>, &Loaded, &Window, &RExpr, u32) -> Done + Copy,
    M: Fn(&mut Machine<H>, &Loaded, &Window, &RExpr, u32) -> Got + Copy,
    C: Fn(&mut Machine<H>, &Loaded, Site, usize, u32) -> Got + Copy,
    S: Fn(&mut Machine<H>, &Loaded, &Window, &RStat, u32) -> FlowTag + Copy,
    requires stands { Stands H.asked p.now b.now.level (E.pre b.now.expr) (E.post b.now.expr)
        (M.pre b.now.multi) (M.post b.now.multi) (C.pre b.now.call) (C.post b.now.call)
        (S.pre b.now.stmt) (S.post b.now.stmt) }
    requires fits { Fits f.now m.old.stack }
    ensures { UnitOf H.asked (spec.fields p.now (level p.now b.now.level)
        (frame f.now m.old.stack) line
        id (pos 1) fields.now (world m.old)) m.old result m.new }
{
    let n = fields.len();
    if n == 0 {
        return Done::Well;
    }
    let mut key = 1;
    for i in 0..n - 1 {
        match set_field(b, m, p, f, line, id, key, &fields[i]) {
            Some(next) => key = next,
            None => return Done::Failed,
        }
    }
    last_field(b, m, p, f, line, id, key, &fields[n - 1])
}

/// A new table with these fields. The last one, where it is an item, gives all its values.
#[inline(never)]
pub fn constructed<H, E, M, C, S>(
    b: &Below<H, E, M, C, S>,
    m: &mut Machine<H>,
    p: &Loaded,
    f: &Window,
    line: u32,
    fields: &[RField],
) -> Done
where
    H: Host,
    E: Fn(&mut Machine<H>, &Loaded, &Window, &RExpr, u32) -> Done + Copy,
    M: Fn(&mut Machine<H>, &Loaded, &Window, &RExpr, u32) -> Got + Copy,
    C: Fn(&mut Machine<H>, &Loaded, Site, usize, u32) -> Got + Copy,
    S: Fn(&mut Machine<H>, &Loaded, &Window, &RStat, u32) -> FlowTag + Copy,
    requires stands { Stands H.asked p.now b.now.level (E.pre b.now.expr) (E.post b.now.expr)
        (M.pre b.now.multi) (M.post b.now.multi) (C.pre b.now.call) (C.post b.now.call)
        (S.pre b.now.stmt) (S.post b.now.stmt) }
    requires fits { Fits f.now m.old.stack }
    ensures { OneOf H.asked (spec.constructed p.now (level p.now b.now.level)
        (frame f.now m.old.stack)
        line fields.now (world m.old)) m.old result m.new }
{
    let Some(id) = new_table(m, p, line) else {
        return Done::Failed;
    };
    match set_fields(b, m, p, f, line, id, fields) {
        Done::Well => {
            m.value = Value::Table(id);
            Done::Well
        }
        Done::Failed => Done::Failed,
    }
}
