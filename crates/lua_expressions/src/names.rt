//! Names (Lua 5.4 manual, section 3.2): a global is a field of the table of globals.
ghost use Rattle.lua_meaning.specs.Levels.{level};
ghost use Rattle.lua_meaning.specs.Expressions as spec;
ghost use Rattle.lua_machine.specs.Does.{Fits, OneOf, Stands, frame, world};

use lua_machine::{Below, Done, FlowTag, Got, Host, Loaded, Machine, Window};
use lua_meaning::Site;
use lua_operands::index;
use lua_program::{RExpr, RStat, Ref};
use object_store::Value;

/// The string of the text of this place.
#[inline]
pub fn text<H: Host>(m: &mut Machine<H>, p: &Loaded, place: u32) -> Done
    ensures { OneOf H.asked (λ k. k (spec.key_at p.now place) (world m.old)) m.old result m.new }
{
    match p.key(place) {
        Some(value) => {
            m.value = value;
            Done::Well
        }
        None => {
            m.broken();
            Done::Failed
        }
    }
}

/// `object[key]` by the place of the text of the key.
#[inline]
pub fn field<H, E, M, C, S>(
    b: &Below<H, E, M, C, S>,
    m: &mut Machine<H>,
    p: &Loaded,
    f: &Window,
    line: u32,
    object: Value,
    place: u32,
) -> Done
where
    H: Host,
    E: Fn(&mut Machine<H>, &Loaded, &Window, &RExpr, u32) -> Done + Copy,
    M: Fn(&mut Machine<H>, &Loaded, &Window, &RExpr, u32) -> Got + Copy,
    C: Fn(&mut Machine<H>, &Loaded, Site, usize, u32) -> Got + Copy,
    S: Fn(&mut Machine<H>, &Loaded, &Window, &RStat, u32) -> FlowTag + Copy,
    requires stands { Stands H.asked p.now b.now.level (E.pre b.now.expr) (E.post b.now.expr)
        (M.pre b.now.multi) (M.post b.now.multi) (C.pre b.now.call) (C.post b.now.call)
        (S.pre b.now.stmt) (S.post b.now.stmt) }
    requires fits { Fits f.now m.old.stack }
    ensures { OneOf H.asked (spec.field p.now (level p.now b.now.level) (frame f.now m.old.stack)
        line object (spec.key_at p.now place) (world m.old)) m.old result m.new }
{
    well!(text(m, p, place));
    let site = Site {
        line: 0,
        outer: f.from,
    };
    index(b, m, p, line, site, object)
}

/// A global name.
#[inline]
fn global<H, E, M, C, S>(
    b: &Below<H, E, M, C, S>,
    m: &mut Machine<H>,
    p: &Loaded,
    f: &Window,
    line: u32,
    place: u32,
) -> Done
where
    H: Host,
    E: Fn(&mut Machine<H>, &Loaded, &Window, &RExpr, u32) -> Done + Copy,
    M: Fn(&mut Machine<H>, &Loaded, &Window, &RExpr, u32) -> Got + Copy,
    C: Fn(&mut Machine<H>, &Loaded, Site, usize, u32) -> Got + Copy,
    S: Fn(&mut Machine<H>, &Loaded, &Window, &RStat, u32) -> FlowTag + Copy,
    requires stands { Stands H.asked p.now b.now.level (E.pre b.now.expr) (E.post b.now.expr)
        (M.pre b.now.multi) (M.post b.now.multi) (C.pre b.now.call) (C.post b.now.call)
        (S.pre b.now.stmt) (S.post b.now.stmt) }
    requires fits { Fits f.now m.old.stack }
    ensures { OneOf H.asked (spec.field p.now (level p.now b.now.level) (frame f.now m.old.stack)
        line spec.globals (spec.key_at p.now place) (world m.old)) m.old result m.new }
{
    let globals = Value::Table(m.state.globals());
    field(b, m, p, f, line, globals, place)
}

/// The value of a name.
#[inline]
pub fn name<H, E, M, C, S>(
    b: &Below<H, E, M, C, S>,
    m: &mut Machine<H>,
    p: &Loaded,
    f: &Window,
    line: u32,
    r: &Ref,
) -> Done
where
    H: Host,
    E: Fn(&mut Machine<H>, &Loaded, &Window, &RExpr, u32) -> Done + Copy,
    M: Fn(&mut Machine<H>, &Loaded, &Window, &RExpr, u32) -> Got + Copy,
    C: Fn(&mut Machine<H>, &Loaded, Site, usize, u32) -> Got + Copy,
    S: Fn(&mut Machine<H>, &Loaded, &Window, &RStat, u32) -> FlowTag + Copy,
    requires stands { Stands H.asked p.now b.now.level (E.pre b.now.expr) (E.post b.now.expr)
        (M.pre b.now.multi) (M.post b.now.multi) (C.pre b.now.call) (C.post b.now.call)
        (S.pre b.now.stmt) (S.post b.now.stmt) }
    requires fits { Fits f.now m.old.stack }
    ensures { OneOf H.asked (spec.name p.now (level p.now b.now.level) (frame f.now m.old.stack)
        line r.now (world m.old)) m.old result m.new }
{
    match r {
        Ref::Global(text) => global(b, m, p, f, line, text.get().place),
        _ => m.read(f, r),
    }
}
