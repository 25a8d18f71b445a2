//! Expressions.

use crate::operator::{Binary, Unary};
use crate::stat::Body;
use lanes_arena::{Bytes, Row};
use lua_tokens::Place;
use sqlite_items::Boxed;

/// An expression (manual, section 3.4). The line is that of its operator, which of an index is its
/// `.` or `[`; of a call that of the parenthesis, brace or text with which its arguments begin; of
/// a function that of its word `function`; of any other that of its first token. An index written
/// with `:` in a `function` statement has the line of that `:`.
#[cycle(tree)]
#[derive(Drop)]
pub struct Expr {
    pub what: ExprKind,
    pub line: u32,
}

/// What an expression is. A name after a dot, and one that stands for a key of a table, is a
/// `Text`.
#[cycle(tree)]
#[derive(Drop)]
pub enum ExprKind {
    Nil,
    True,
    False,
    Int(i64),
    Text(Bytes),
    /// `...`
    Dots(Place),
    Name(Bytes, Place),
    /// The object and the key.
    Index(Boxed<Pair>),
    /// The function and its arguments.
    Call(Boxed<Expr>, Boxed<Row<Expr>>),
    /// The object, the method's name and its arguments.
    Method(Boxed<Expr>, Boxed<Bytes>, Boxed<Row<Expr>>),
    Function(Boxed<Body>),
    Binary(Binary, Boxed<Pair>),
    Unary(Unary, Boxed<Expr>),
    And(Boxed<Pair>),
    Or(Boxed<Pair>),
    /// An expression in parentheses, which gives one value.
    Paren(Boxed<Expr>),
    Table(Row<Field>),
}

/// The two parts of an expression, which share a box. What is rare lies in boxes of its own, so
/// that an expression has 40 bytes.
#[cycle(tree)]
#[derive(Drop)]
pub struct Pair {
    pub left: Expr,
    pub right: Expr,
}

/// A field of a table constructor (manual, section 3.4.9).
#[cycle(tree)]
#[derive(Drop)]
pub enum Field {
    Item(Expr),
    /// `name = value`
    Named(Bytes, Expr),
    /// `[key] = value`
    Keyed(Expr, Expr),
}
