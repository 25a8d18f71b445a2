//! Calls of functions of the program (Lua 5.4 manual, sections 3.4.10 and 3.4.11).
ghost use Rattle.std.specs.Prelude.{◌≡◌, ◌≤◌, ◌+◌, [], length, take, drop, slice_get, IsTrue, IfSome};
ghost use Rattle.std.specs.Option.{option_copied};
ghost use Rattle.lua_meaning.specs.Levels.{level};
ghost use Rattle.lua_meaning.specs.Statements.{block};
ghost use Rattle.lua_meaning.specs.Calls.{is_sound, body_of, returned, frame_of, function_call};
ghost use Rattle.lua_machine.specs.Does.{Fits, Stands, ManyOf, frame, world};
ghost use Rattle.lua_calls.specs.Bodies.{frame_with, run_in, without_cells};

use crate::parameters::param_cells;
use lanes_arena::Code;
use lua_machine::{Below, Done, FlowTag, Got, Host, Loaded, Machine, Window};
use lua_meaning::Site;
use lua_program::{Proto, RExpr, RStat};
use lua_statements::block;
use object_store::{FuncId, Function, Kind, LuaFault, Value};

/// Whether a function has as many cells as the body has captures, and each parameter a slot.
#[inline]
fn is_sound(function: &Function, proto: &Proto) -> bool
    ensures sound { result ≡ is_sound function.now proto.now }
    ensures fewer { IsTrue result → proto.now.params ≤ proto.now.slots }
{
    function.cells.as_slice().len() == proto.ups.as_slice().len() && proto.params <= proto.slots
}

/// The body of a function, where it is one of the program.
#[inline]
fn body_of<'p, H: Host>(m: &Machine<H>, p: &'p Loaded, id: FuncId) -> Option<&'p Proto>
    ensures body { option_copied result ≡ body_of p.now (slice_get m.now.state.heap.functions
        id.number) }
    ensures fewer { IfSome (option_copied result) (λ proto. proto.params ≤ proto.slots) }
{
    let function = m.state.function_of(id)?;
    let Code::Script(n) = function.code else {
        return None;
    };
    let proto = p.proto(n)?;
    if is_sound(function, proto) {
        Some(proto)
    } else {
        None
    }
}

/// The statements of a body, in a window from `at` on or above. What they return stands from `at`
/// on, and the cells of the window are gone.
#[inline]
fn run_block<H, E, M, C, S>(
    b: &Below<H, E, M, C, S>,
    m: &mut Machine<H>,
    p: &Loaded,
    f: &Window,
    body: &[RStat],
    at: usize,
) -> Got
where
    H: Host,
    E: Fn(&mut Machine<H>, &Loaded, &Window, &RExpr, u32) -> Done + Copy,
    M: Fn(&mut Machine<H>, &Loaded, &Window, &RExpr, u32) -> Got + Copy,
    C: Fn(&mut Machine<H>, &Loaded, Site, usize, u32) -> Got + Copy,
    S: Fn(&mut Machine<H>, &Loaded, &Window, &RStat, u32) -> FlowTag + Copy,
    requires stands { Stands H.asked p.now b.now.level (E.pre b.now.expr) (E.post b.now.expr)
        (M.pre b.now.multi) (M.post b.now.multi) (C.pre b.now.call) (C.post b.now.call)
        (S.pre b.now.stmt) (S.post b.now.stmt) }
    requires fits { Fits f.now m.old.stack }
    requires below { at ≤ f.now.base }
    ensures { ManyOf H.asked (λ k. block (level p.now b.now.level) body.now (frame f.now
        m.old.stack) (world m.old) (returned k)) (record m.old {
          stack =
              without_cells f.now m.old.stack;
        }) at result m.new }
{
    let top = m.stack.len();
    match block(b, m, p, f, body) {
        FlowTag::Goes => {
            m.stack.cut(at);
            m.stack.cut_cells(f.cells);
            Got::Many
        }
        FlowTag::ReturnsOne => {
            m.stack.cut(at);
            m.stack.cut_cells(f.cells);
            Got::One
        }
        FlowTag::ReturnsMany => {
            m.stack.lower(at, top);
            m.stack.cut_cells(f.cells);
            Got::Many
        }
        FlowTag::Breaks => {
            m.broken();
            Got::Failed
        }
        FlowTag::Jumps => {
            m.broken();
            Got::Failed
        }
        FlowTag::Fails => Got::Failed,
    }
}

/// A body in its window, which has no cells yet.
#[inline]
fn run_in<H, E, M, C, S>(
    b: &Below<H, E, M, C, S>,
    m: &mut Machine<H>,
    p: &Loaded,
    line: u32,
    proto: &Proto,
    f: &Window,
    at: usize,
) -> Got
where
    H: Host,
    E: Fn(&mut Machine<H>, &Loaded, &Window, &RExpr, u32) -> Done + Copy,
    M: Fn(&mut Machine<H>, &Loaded, &Window, &RExpr, u32) -> Got + Copy,
    C: Fn(&mut Machine<H>, &Loaded, Site, usize, u32) -> Got + Copy,
    S: Fn(&mut Machine<H>, &Loaded, &Window, &RStat, u32) -> FlowTag + Copy,
    requires stands { Stands H.asked p.now b.now.level (E.pre b.now.expr) (E.post b.now.expr)
        (M.pre b.now.multi) (M.post b.now.multi) (C.pre b.now.call) (C.post b.now.call)
        (S.pre b.now.stmt) (S.post b.now.stmt) }
    requires fits { Fits f.now m.old.stack }
    requires below { at ≤ f.now.base }
    requires fresh { f.now.cells ≡ length m.old.stack.cells }
    ensures { ManyOf H.asked (run_in p.now (level p.now b.now.level) line proto.now (frame f.now
        m.old.stack) (world m.old)) m.old at result m.new }
{
    match param_cells(m, p, line, f, proto.cells.as_slice()) {
        Done::Well => run_block(b, m, p, f, proto.body.as_slice(), at),
        Done::Failed => Got::Failed,
    }
}

/// A call of a body without `...`, whose window begins with its arguments.
#[inline]
fn run_fixed<H, E, M, C, S>(
    b: &Below<H, E, M, C, S>,
    m: &mut Machine<H>,
    p: &Loaded,
    line: u32,
    id: FuncId,
    proto: &Proto,
    at: usize,
) -> Got
where
    H: Host,
    E: Fn(&mut Machine<H>, &Loaded, &Window, &RExpr, u32) -> Done + Copy,
    M: Fn(&mut Machine<H>, &Loaded, &Window, &RExpr, u32) -> Got + Copy,
    C: Fn(&mut Machine<H>, &Loaded, Site, usize, u32) -> Got + Copy,
    S: Fn(&mut Machine<H>, &Loaded, &Window, &RStat, u32) -> FlowTag + Copy,
    requires stands { Stands H.asked p.now b.now.level (E.pre b.now.expr) (E.post b.now.expr)
        (M.pre b.now.multi) (M.post b.now.multi) (C.pre b.now.call) (C.post b.now.call)
        (S.pre b.now.stmt) (S.post b.now.stmt) }
    requires within { at ≤ length m.old.stack.values }
    requires fewer { proto.now.params ≤ proto.now.slots }
    ensures { ManyOf H.asked (run_in p.now (level p.now b.now.level) line proto.now (frame_with
        proto.now id.number line [] (drop at m.old.stack.values)) (world m.old)) m.old at result
        m.new }
{
    let slots = proto.slots as usize;
    let Ok(()) = m.stack.open(at, proto.params as usize, slots) else {
        m.lose();
        return Got::Failed;
    };
    let f = Window {
        dots: at,
        base: at,
        size: slots,
        cells: m.stack.cell_count(),
        me: id,
        from: line,
    };
    run_in(b, m, p, line, proto, &f, at)
}

/// A call of a body with `...`, whose window lies above its arguments.
#[inline(never)]
fn run_vararg<H, E, M, C, S>(
    b: &Below<H, E, M, C, S>,
    m: &mut Machine<H>,
    p: &Loaded,
    line: u32,
    id: FuncId,
    proto: &Proto,
    at: usize,
) -> Got
where
    H: Host,
    E: Fn(&mut Machine<H>, &Loaded, &Window, &RExpr, u32) -> Done + Copy,
    M: Fn(&mut Machine<H>, &Loaded, &Window, &RExpr, u32) -> Got + Copy,
    C: Fn(&mut Machine<H>, &Loaded, Site, usize, u32) -> Got + Copy,
    S: Fn(&mut Machine<H>, &Loaded, &Window, &RStat, u32) -> FlowTag + Copy,
    requires stands { Stands H.asked p.now b.now.level (E.pre b.now.expr) (E.post b.now.expr)
        (M.pre b.now.multi) (M.post b.now.multi) (C.pre b.now.call) (C.post b.now.call)
        (S.pre b.now.stmt) (S.post b.now.stmt) }
    requires within { at ≤ length m.old.stack.values }
    requires fewer { proto.now.params ≤ proto.now.slots }
    ensures { ManyOf H.asked (run_in p.now (level p.now b.now.level) line proto.now (frame_with
        proto.now id.number line (drop proto.now.params (drop at m.old.stack.values)) (drop at
        m.old.stack.values)) (world m.old)) m.old at result m.new }
{
    let base = m.stack.len();
    let slots = proto.slots as usize;
    let Ok(dots) = m.stack.open_above(at, proto.params as usize, slots) else {
        m.lose();
        return Got::Failed;
    };
    let f = Window {
        dots,
        base,
        size: slots,
        cells: m.stack.cell_count(),
        me: id,
        from: line,
    };
    run_in(b, m, p, line, proto, &f, at)
}

/// A call of a body.
#[inline]
fn run_body<H, E, M, C, S>(
    b: &Below<H, E, M, C, S>,
    m: &mut Machine<H>,
    p: &Loaded,
    line: u32,
    id: FuncId,
    proto: &Proto,
    at: usize,
) -> Got
where
    H: Host,
    E: Fn(&mut Machine<H>, &Loaded, &Window, &RExpr, u32) -> Done + Copy,
    M: Fn(&mut Machine<H>, &Loaded, &Window, &RExpr, u32) -> Got + Copy,
    C: Fn(&mut Machine<H>, &Loaded, Site, usize, u32) -> Got + Copy,
    S: Fn(&mut Machine<H>, &Loaded, &Window, &RStat, u32) -> FlowTag + Copy,
    requires stands { Stands H.asked p.now b.now.level (E.pre b.now.expr) (E.post b.now.expr)
        (M.pre b.now.multi) (M.post b.now.multi) (C.pre b.now.call) (C.post b.now.call)
        (S.pre b.now.stmt) (S.post b.now.stmt) }
    requires within { at ≤ length m.old.stack.values }
    requires fewer { proto.now.params ≤ proto.now.slots }
    ensures { ManyOf H.asked (run_in p.now (level p.now b.now.level) line proto.now (frame_of
        proto.now id.number line (drop at m.old.stack.values)) (world m.old)) m.old at result
        m.new }
{
    if proto.vararg {
        run_vararg(b, m, p, line, id, proto, at)
    } else {
        run_fixed(b, m, p, line, id, proto, at)
    }
}

/// A call of a function of the state, with the arguments from a place of the stack on. One that
/// runs no body of the program can't be called, which is a fault of the site's line.
#[inline]
pub fn run_function<H, E, M, C, S>(
    b: &Below<H, E, M, C, S>,
    m: &mut Machine<H>,
    p: &Loaded,
    site: Site,
    id: FuncId,
    at: usize,
) -> Got
where
    H: Host,
    E: Fn(&mut Machine<H>, &Loaded, &Window, &RExpr, u32) -> Done + Copy,
    M: Fn(&mut Machine<H>, &Loaded, &Window, &RExpr, u32) -> Got + Copy,
    C: Fn(&mut Machine<H>, &Loaded, Site, usize, u32) -> Got + Copy,
    S: Fn(&mut Machine<H>, &Loaded, &Window, &RStat, u32) -> FlowTag + Copy,
    requires stands { Stands H.asked p.now b.now.level (E.pre b.now.expr) (E.post b.now.expr)
        (M.pre b.now.multi) (M.post b.now.multi) (C.pre b.now.call) (C.post b.now.call)
        (S.pre b.now.stmt) (S.post b.now.stmt) }
    requires within { at ≤ length m.old.stack.values }
    ensures { ManyOf H.asked (function_call p.now (level p.now b.now.level) site (Value.Func id)
        (drop at m.old.stack.values) (world m.old)) m.old at result m.new }
{
    match body_of(m, p, id) {
        Some(proto) => run_body(b, m, p, site.line, id, proto, at),
        None => {
            m.fault_at(p, site.line, LuaFault::NotCallable(Kind::Function));
            Got::Failed
        }
    }
}
