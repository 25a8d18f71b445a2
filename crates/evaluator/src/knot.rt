//! What stands on each level: four functions that are the level below of one another.
ghost use Rattle.std.specs.Prelude.{◌≡◌, ◌≤◌, length};
ghost use Rattle.lua_meaning.specs.Levels.{level as level_of};
ghost use Rattle.lua_machine.specs.Does.{Fits, GivesOne, GivesMany, Calls, Runs};

use lua_calls::call_on;
use lua_commands::stmt_on;
use lua_expressions::{expr_on, multi_on};
use lua_machine::{Below, Done, FlowTag, Got, Host, Loaded, Machine, Window};
use lua_meaning::Site;
use lua_program::{RExpr, RStat};
use std::marker::PhantomData;

/// The value of an expression.
#[cycle(levels)]
pub fn expr_at<H: Host>(m: &mut Machine<H>, p: &Loaded, f: &Window, e: &RExpr, level: u32) -> Done
    requires { Fits f.now m.old.stack }
    ensures { GivesOne H.asked (level_of p.now level) m.old f.now e.now result m.new }
{
    if level == 0 {
        m.overflow();
        return Done::Failed;
    }
    let below = Below {
        expr: expr_at::<H>,
        multi: multi_at::<H>,
        call: call_at::<H>,
        stmt: stmt_at::<H>,
        level: level - 1,
        host: PhantomData,
    };
    match m.tick() {
        Done::Well => expr_on(&below, m, p, f, e),
        Done::Failed => Done::Failed,
    }
}

/// All values of an expression.
#[cycle(levels)]
pub fn multi_at<H: Host>(m: &mut Machine<H>, p: &Loaded, f: &Window, e: &RExpr, level: u32) -> Got
    requires { Fits f.now m.old.stack }
    ensures { GivesMany H.asked (level_of p.now level) m.old f.now e.now result m.new }
{
    if level == 0 {
        m.overflow();
        return Got::Failed;
    }
    let below = Below {
        expr: expr_at::<H>,
        multi: multi_at::<H>,
        call: call_at::<H>,
        stmt: stmt_at::<H>,
        level: level - 1,
        host: PhantomData,
    };
    match m.tick() {
        Done::Well => multi_on(&below, m, p, f, e),
        Done::Failed => Got::Failed,
    }
}

/// A call of the function in `value` with the arguments from a place of the stack on.
#[cycle(levels)]
pub fn call_at<H: Host>(m: &mut Machine<H>, p: &Loaded, site: Site, at: usize, level: u32) -> Got
    requires { at ≤ length m.old.stack.values }
    ensures { Calls H.asked (level_of p.now level) m.old site at result m.new }
{
    if level == 0 {
        m.overflow();
        return Got::Failed;
    }
    let below = Below {
        expr: expr_at::<H>,
        multi: multi_at::<H>,
        call: call_at::<H>,
        stmt: stmt_at::<H>,
        level: level - 1,
        host: PhantomData,
    };
    call_on(&below, m, p, site, at)
}

/// A statement.
#[cycle(levels)]
pub fn stmt_at<H: Host>(
    m: &mut Machine<H>,
    p: &Loaded,
    f: &Window,
    s: &RStat,
    level: u32,
) -> FlowTag
    requires { Fits f.now m.old.stack }
    ensures { Runs H.asked (level_of p.now level) m.old f.now s.now result m.new }
{
    if level == 0 {
        m.overflow();
        return FlowTag::Fails;
    }
    let below = Below {
        expr: expr_at::<H>,
        multi: multi_at::<H>,
        call: call_at::<H>,
        stmt: stmt_at::<H>,
        level: level - 1,
        host: PhantomData,
    };
    match m.tick() {
        Done::Well => stmt_on(&below, m, p, f, s),
        Done::Failed => FlowTag::Fails,
    }
}
