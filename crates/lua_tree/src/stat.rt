//! Statements and blocks.

use crate::expr::Expr;
use lanes_arena::{Bytes, Row};
use lua_tokens::Place;
use sqlite_items::Boxed;

/// A script: its main block (manual, section 3.3.2).
#[derive(Drop)]
pub struct Tree {
    pub block: Block,
}

/// A list of statements (manual, section 3.3.1). An empty statement is left out.
#[cycle(tree)]
#[derive(Drop)]
pub struct Block {
    pub stats: Row<Stat>,
}

/// A condition of an `if` statement and the block that it guards (manual, section 3.3.4).
#[cycle(tree)]
#[derive(Drop)]
pub struct Branch {
    pub condition: Expr,
    pub block: Block,
}

/// What a function does (manual, section 3.4.11): its parameters, its block, whether `...` is the
/// last parameter, and the line of its word `function`. A function that is declared with a `:` has
/// a first parameter `self`, at the place of the method's name.
#[cycle(tree)]
#[derive(Drop)]
pub struct Body {
    pub params: Row<(Bytes, Place)>,
    pub block: Block,
    pub vararg: bool,
    pub line: u32,
}

/// A statement (manual, sections 3.3 and 3.4.11). The place beside a name is that of the name's
/// token.
#[cycle(tree)]
#[derive(Drop)]
pub enum Stat {
    /// The names, each with whether it is `<const>`, and their values.
    Local(Row<(Bytes, bool, Place)>, Row<Expr>),
    /// The targets and their values. A `function` statement is one too.
    Assign(Row<Expr>, Row<Expr>),
    Call(Expr),
    Do(Block),
    While(Expr, Block),
    Repeat(Block, Expr),
    /// A branch for `if` and for each `elseif`, and the block of `else`.
    If(Row<Branch>, Option<Block>),
    /// The variable, the start, the limit, the step and the block.
    ForNum(Bytes, Place, Boxed<Expr>, Boxed<Expr>, Option<Boxed<Expr>>, Block),
    /// The variables, the values that give the iterator, and the block.
    ForIn(Row<(Bytes, Place)>, Row<Expr>, Block),
    LocalFunction(Bytes, Place, Body),
    Return(Row<Expr>),
    Break(Place),
    /// The label's name.
    Goto(Bytes, Place),
    Label(Bytes, Place),
}
