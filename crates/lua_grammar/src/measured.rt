//! Parts of a tree beside their depth.
ghost use Rattle.std.specs.Prelude.{◌≡◌};
ghost use Rattle.lua_grammar.specs.Expressions.{measured};

use lanes_arena::Row;
use lua_tokens::Place;
use lua_tree::Expr;

/// A part of a tree beside its depth. That of a list is the greatest of its parts, or 0.
pub struct Measured<T> {
    pub what: T,
    pub depth: usize,
}

/// One call wherever a part is dropped, whose cases a derived Drop would write out at each such
/// place.
impl<T: Drop> Drop for Measured<T> {
    fn drop(self) {
        let Measured { what: _, depth: _ } = self;
    }
}

impl<T> Measured<T> {
    /// This part beside its depth, in nodes from it down to its furthest leaf.
    pub fn new(what: T, depth: usize) -> Measured<T>
        ensures { result ≡ measured what depth }
    {
        Measured { what, depth }
    }

    /// The part alone.
    pub fn into_what(self) -> T
        ensures { result ≡ self.what }
    {
        let Measured { what, depth: _ } = self;
        what
    }

    /// The part and its depth.
    pub fn into_parts(self) -> (T, usize)
        ensures { result ≡ (self.what, self.depth) }
    {
        let Measured { what, depth } = self;
        (what, depth)
    }
}

/// What an expression is that a name or a parenthesis begins (manual, sections 3.3.3 and 3.3.6).
#[derive(Clone, Copy, Debug, PartialEq, Eq)]
pub enum Ends {
    /// A name or an index, which can be assigned to.
    Variable,
    /// A call, which can be a statement.
    Call,
    /// An expression in parentheses, which can be neither.
    Group,
}

/// An expression that a name or a parenthesis begins.
#[derive(Drop)]
pub struct Prefix {
    pub expr: Measured<Expr>,
    pub ends: Ends,
}

/// The arguments of a call, and where they begin.
#[derive(Drop)]
pub struct Arguments {
    pub exprs: Measured<Row<Expr>>,
    pub place: Place,
}
