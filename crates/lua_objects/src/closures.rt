//! Functions that a script makes (Lua 5.4 manual, sections 3.4.11 and 3.5).
ghost use Rattle.std.specs.Prelude.{◌≡◌, Some};
ghost use Rattle.lua_meaning.specs.Level.{Level, Frame, or_broken};
ghost use Rattle.lua_meaning.specs.Levels.{level};
ghost use Rattle.lua_meaning.specs.Names.{captured, captures};
ghost use Rattle.lua_meaning.specs.Expressions.{new_function, function};
ghost use Rattle.lua_machine.specs.Does.{Fits, Stands, OneOf, frame, world};
ghost use Rattle.lua_objects.specs.Found.{FoundOf};

use lanes_arena::{ArenaFault, Code, Row};
use lua_machine::{Below, Done, FlowTag, Got, Host, Loaded, Machine, Window};
use lua_meaning::Site;
use lua_program::{RExpr, RStat, UpFrom};
use object_store::{CellId, Function, LuaFault, Value};

/// The cell that a new function captures, where there is one.
#[inline]
fn captured<H: Host>(m: &Machine<H>, f: &Window, up: UpFrom) -> Option<CellId>
    requires { Fits f.now m.now.stack }
    ensures { result ≡ captured m.now.state.heap (frame f.now m.now.stack) up }
{
    match up {
        UpFrom::ParentCell(i) => m.stack.cell(f.cells, i as usize),
        UpFrom::ParentUp(j) => m.up_cell(f, j),
    }
}

/// The cells that a new function captures, in order.
fn captures<H: Host>(m: &mut Machine<H>, f: &Window, ups: &[UpFrom]) -> Option<Row<CellId>>
    requires { Fits f.now m.old.stack }
    ensures { FoundOf H.asked (λ k. k (or_broken (captures m.old.state.heap (frame f.now
        m.old.stack) ups.now)) (world m.old)) m.old result m.new }
{
    let Ok(mut cells) = Vec::with_capacity(m.alloc, ups.len()) else {
        m.lose();
        return None;
    };
    for up in ups {
        let Some(cell) = captured(m, f, *up) else {
            m.broken();
            return None;
        };
        if cells.push(cell).is_err() {
            m.lose();
            return None;
        }
    }
    Some(Row::of(cells))
}

/// A new function of the program, with these cells. Where there may be no more functions it is a
/// fault of this line.
fn new_function<H: Host>(
    m: &mut Machine<H>,
    p: &Loaded,
    line: u32,
    n: u32,
    cells: Row<CellId>,
) -> Done
    ensures { (l : Level) (f : Frame) → OneOf H.asked (new_function p.now l f line n (Some cells)
        (world m.old)) m.old result m.new }
{
    match m.state.reserve(0, 1, 0) {
        Ok(()) => {
            let made = Function {
                code: Code::Script(n),
                cells,
            };
            m.value = Value::Func(m.state.add_function(made));
            Done::Well
        }
        Err(ArenaFault::Full) => {
            m.fault_at(p, line, LuaFault::Full);
            Done::Failed
        }
        Err(ArenaFault::Memory) => {
            m.lose();
            Done::Failed
        }
    }
}

/// The function of the body of this number, which captures cells of the window's function. Where
/// there may be no more functions it is a fault of this line.
// The level below has no part in it but that the meaning is stated over it.
#[inline(never)]
pub fn function<H, E, M, C, S>(
    b: &Below<H, E, M, C, S>,
    m: &mut Machine<H>,
    p: &Loaded,
    f: &Window,
    line: u32,
    n: u32,
) -> Done
where
    H: Host,
    E: Fn(&mut Machine<H>, &Loaded, &Window, &RExpr, u32) -> Done + Copy,
    M: Fn(&mut Machine<H>, &Loaded, &Window, &RExpr, u32) -> Got + Copy,
    C: Fn(&mut Machine<H>, &Loaded, Site, usize, u32) -> Got + Copy,
    S: Fn(&mut Machine<H>, &Loaded, &Window, &RStat, u32) -> FlowTag + Copy,
    requires stands { Stands H.asked p.now b.now.level (E.pre b.now.expr) (E.post b.now.expr)
        (M.pre b.now.multi) (M.post b.now.multi) (C.pre b.now.call) (C.post b.now.call)
        (S.pre b.now.stmt) (S.post b.now.stmt) }
    requires fits { Fits f.now m.old.stack }
    ensures { OneOf H.asked (function p.now (level p.now b.now.level) (frame f.now m.old.stack) line
        n (world m.old)) m.old result m.new }
{
    let Some(proto) = p.proto(n) else {
        m.broken();
        return Done::Failed;
    };
    match captures(m, f, proto.ups.as_slice()) {
        Some(cells) => new_function(m, p, line, n, cells),
        None => Done::Failed,
    }
}
