//! The functions of the level below.
ghost use Rattle.std.specs.Prelude.{◌≡◌, ◌≤◌, ◌-◌, length, IsTrue, IsFalse, Ok, [], ◌∷◌};
ghost use Rattle.lua_meaning.specs.Run.{and_then};
ghost use Rattle.lua_meaning.specs.Levels.{level};
ghost use Rattle.lua_machine.specs.Does.{Fits, GivesOne, GivesMany, Calls, ManyOf, Runs, Stands, frame, world};

use crate::host::Host;
use crate::loaded::Loaded;
use crate::machine::{Done, FlowTag, Got, Machine, Window};
use lua_meaning::Site;
use lua_program::{RExpr, RExprKind, RStat};
use std::marker::PhantomData;

/// The functions of the level below, and how many levels there are from there on.
#[derive(Drop)]
pub struct Below<H, E, M, C, S> {
    pub expr: E,
    pub multi: M,
    pub call: C,
    pub stmt: S,
    pub level: u32,
    pub host: PhantomData<H>,
}

impl<H, E, M, C, S> Below<H, E, M, C, S>
where
    H: Host,
    E: Fn(&mut Machine<H>, &Loaded, &Window, &RExpr, u32) -> Done + Copy,
    M: Fn(&mut Machine<H>, &Loaded, &Window, &RExpr, u32) -> Got + Copy,
    C: Fn(&mut Machine<H>, &Loaded, Site, usize, u32) -> Got + Copy,
    S: Fn(&mut Machine<H>, &Loaded, &Window, &RStat, u32) -> FlowTag + Copy,
{
    /// Those of one level further down.
    #[inline(always)]
    pub fn lower(&self) -> Below<H, E, M, C, S>
        ensures level { result.level ≡ self.now.level - 1 }
        ensures expr { result.expr ≡ self.now.expr }
        ensures multi { result.multi ≡ self.now.multi }
        ensures call { result.call ≡ self.now.call }
        ensures stmt { result.stmt ≡ self.now.stmt }
    {
        Below {
            expr: self.expr,
            multi: self.multi,
            call: self.call,
            stmt: self.stmt,
            level: self.level.saturating_sub(1),
            host: PhantomData,
        }
    }

    /// Reads a leaf of the level below in place, where a level and a step are left, and answers
    /// whether it did.
    #[inline(always)]
    fn leaf(&self, m: &mut Machine<H>, p: &Loaded, f: &Window, e: &RExpr) -> bool
        requires fits { Fits f.now m.old.stack }
        ensures read { IsTrue result → GivesOne H.asked (level p.now self.now.level) m.old f.now
            e.now Done.Well m.new }
        ensures refused { IsFalse result → m.new ≡ m.old }
    {
        if self.level > 0 && m.left >= 2 && m.take_leaf(p, f, &e.what) {
            m.left -= 1;
            return true;
        }
        false
    }

    /// An expression of the level below.
    #[inline(always)]
    pub fn one(&self, m: &mut Machine<H>, p: &Loaded, f: &Window, e: &RExpr) -> Done
        requires stands { Stands H.asked p.now self.now.level (E.pre self.now.expr)
            (E.post self.now.expr) (M.pre self.now.multi) (M.post self.now.multi)
            (C.pre self.now.call) (C.post self.now.call) (S.pre self.now.stmt)
            (S.post self.now.stmt) }
        requires fits { Fits f.now m.old.stack }
        ensures { GivesOne H.asked (level p.now self.now.level) m.old f.now e.now result m.new }
    {
        if self.leaf(m, p, f, e) {
            return Done::Well;
        }
        (self.expr)(m, p, f, e, self.level)
    }

    /// The one value of an expression of the level below.
    #[inline(always)]
    fn alone(&self, m: &mut Machine<H>, p: &Loaded, f: &Window, e: &RExpr) -> Got
        requires stands { Stands H.asked p.now self.now.level (E.pre self.now.expr)
            (E.post self.now.expr) (M.pre self.now.multi) (M.post self.now.multi)
            (C.pre self.now.call) (C.post self.now.call) (S.pre self.now.stmt)
            (S.post self.now.stmt) }
        requires fits { Fits f.now m.old.stack }
        ensures { ManyOf H.asked (λ k. (level p.now self.now.level).expr e.now (frame f.now
            m.old.stack) (world m.old) (and_then k (λ v w. k (Ok (v ∷ [])) w))) m.old (length
            m.old.stack.values) result m.new }
    {
        match self.one(m, p, f, e) {
            Done::Well => Got::One,
            Done::Failed => Got::Failed,
        }
    }

    /// All values of an expression of the level below.
    #[inline(always)]
    pub fn many(&self, m: &mut Machine<H>, p: &Loaded, f: &Window, e: &RExpr) -> Got
        requires stands { Stands H.asked p.now self.now.level (E.pre self.now.expr)
            (E.post self.now.expr) (M.pre self.now.multi) (M.post self.now.multi)
            (C.pre self.now.call) (C.post self.now.call) (S.pre self.now.stmt)
            (S.post self.now.stmt) }
        requires fits { Fits f.now m.old.stack }
        ensures { GivesMany H.asked (level p.now self.now.level) m.old f.now e.now result m.new }
    {
        match &e.what {
            RExprKind::Dots(_) => (self.multi)(m, p, f, e, self.level),
            RExprKind::Call(_, _) => (self.multi)(m, p, f, e, self.level),
            RExprKind::Method(_, _, _) => (self.multi)(m, p, f, e, self.level),
            _ => self.alone(m, p, f, e),
        }
    }

    /// A call of the function in `value`, with the arguments from a place of the stack on.
    #[inline(always)]
    pub fn invoke(&self, m: &mut Machine<H>, p: &Loaded, site: Site, at: usize) -> Got
        requires stands { Stands H.asked p.now self.now.level (E.pre self.now.expr)
            (E.post self.now.expr) (M.pre self.now.multi) (M.post self.now.multi)
            (C.pre self.now.call) (C.post self.now.call) (S.pre self.now.stmt)
            (S.post self.now.stmt) }
        requires within { at ≤ length m.old.stack.values }
        ensures { Calls H.asked (level p.now self.now.level) m.old site at result m.new }
    {
        (self.call)(m, p, site, at, self.level)
    }

    /// A statement of the level below.
    #[inline(always)]
    pub fn step(&self, m: &mut Machine<H>, p: &Loaded, f: &Window, s: &RStat) -> FlowTag
        requires stands { Stands H.asked p.now self.now.level (E.pre self.now.expr)
            (E.post self.now.expr) (M.pre self.now.multi) (M.post self.now.multi)
            (C.pre self.now.call) (C.post self.now.call) (S.pre self.now.stmt)
            (S.post self.now.stmt) }
        requires fits { Fits f.now m.old.stack }
        ensures { Runs H.asked (level p.now self.now.level) m.old f.now s.now result m.new }
    {
        (self.stmt)(m, p, f, s, self.level)
    }
}
