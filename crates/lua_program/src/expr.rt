//! Expressions.
ghost use Rattle.std.specs.Prelude.{◌≡◌};
ghost use Rattle.lua_program.specs.Refs.{is_cell};

use lanes_arena::{Bytes, Row};
use lua_tokens::Place;
use lua_tree::{Binary, Unary};
use sqlite_items::Boxed;

/// A text of a program: its bytes, and its place in the texts of the program.
#[derive(Debug, Drop)]
pub struct PlacedText {
    pub bytes: Bytes,
    pub place: u32,
}

/// What a name refers to. A slot is the place of a local among those of its function that are
/// visible where it is declared.
#[derive(Debug, Drop)]
pub enum Ref {
    /// A local that no inner function names.
    Slot(u16),
    /// A local that an inner function names.
    CellSlot(u16),
    /// An upvalue: the place of a local of an outer function among the captures of this one.
    Up(u16),
    /// A global name.
    Global(Boxed<PlacedText>),
}

impl Ref {
    /// Whether it is a local of this function that an inner function names.
    pub fn is_cell(&self) -> bool
        ensures { result ≡ is_cell self.now }
    {
        matches!(self, Ref::CellSlot(_))
    }
}

/// An expression, with its line, which is that of the tree's.
#[cycle(expr)]
#[derive(Drop)]
pub struct RExpr {
    pub what: RExprKind,
    pub line: u32,
}

/// What an expression is. The number after a text is its place in the texts of the program. What is
/// rare lies in boxes of its own, so that an expression has 40 bytes, as that of a tree.
#[cycle(expr)]
#[derive(Drop)]
pub enum RExprKind {
    Nil,
    True,
    False,
    Int(i64),
    Text(Bytes, u32),
    /// `...`
    Dots(Place),
    Name(Ref, Place),
    /// The object and the key.
    Index(Boxed<RPair>),
    /// The function and its arguments.
    Call(Boxed<RExpr>, Boxed<Row<RExpr>>),
    /// The object, the method's name and its arguments.
    Method(Boxed<RExpr>, Boxed<PlacedText>, Boxed<Row<RExpr>>),
    /// The number of the function's body.
    Function(u32),
    Binary(Binary, Boxed<RPair>),
    Unary(Unary, Boxed<RExpr>),
    And(Boxed<RPair>),
    Or(Boxed<RPair>),
    /// An expression in parentheses, which gives one value.
    Paren(Boxed<RExpr>),
    Table(Row<RField>),
}

/// The two parts of an expression, which share a box.
#[cycle(expr)]
#[derive(Drop)]
pub struct RPair {
    pub left: RExpr,
    pub right: RExpr,
}

/// A field of a table constructor (manual, section 3.4.9). The number after a name is its place in
/// the texts of the program.
#[cycle(expr)]
#[derive(Drop)]
pub enum RField {
    Item(RExpr),
    /// `name = value`
    Named(Bytes, u32, RExpr),
    /// `[key] = value`
    Keyed(RExpr, RExpr),
}
