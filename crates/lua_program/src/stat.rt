//! Statements.

use crate::expr::{RExpr, Ref};
use lanes_arena::{Bytes, Row};
use lua_tokens::Place;
use sqlite_items::Boxed;

/// A condition of an `if` statement and the statements that it guards.
#[cycle(stat)]
#[derive(Drop)]
pub struct RBranch {
    pub condition: RExpr,
    pub block: Row<RStat>,
}

/// A statement. It is that of the tree, with names bound, a block being its list of statements and
/// a function body its number.
#[cycle(stat)]
#[derive(Drop)]
pub enum RStat {
    /// The locals, each with whether it is `<const>`, and their values.
    Local(Row<(Ref, bool)>, Row<RExpr>),
    /// The targets and their values.
    Assign(Row<RExpr>, Row<RExpr>),
    Call(RExpr),
    Do(Row<RStat>),
    While(RExpr, Row<RStat>),
    Repeat(Row<RStat>, RExpr),
    /// A branch for `if` and for each `elseif`, and the statements of `else`.
    If(Row<RBranch>, Option<Row<RStat>>),
    /// The variable, the start, the limit, the step and the body.
    ForNum(Ref, Boxed<RExpr>, Boxed<RExpr>, Option<Boxed<RExpr>>, Row<RStat>),
    /// The variables, the values that give the iterator, and the body.
    ForIn(Row<Ref>, Row<RExpr>, Row<RStat>),
    /// The local and the number of its body.
    LocalFunction(Ref, u32),
    Return(Row<RExpr>),
    Break(Place),
    Goto(Boxed<Jump>),
    Label(Boxed<Spot>),
}

/// A `goto` (manual, section 3.3.4): the label's name, the place of the word `goto`, how many
/// blocks it leaves, 0 where the label stands in its own block, and the number of the label among
/// the statements of the block that it comes to, from 0. Execution goes on with the statement after
/// it.
#[derive(Debug, Drop)]
pub struct Jump {
    pub name: Bytes,
    pub place: Place,
    pub leaves: u32,
    pub statement: u32,
}

/// A label (manual, section 3.3.4): its name and the place of its first `::`.
#[derive(Debug, Drop)]
pub struct Spot {
    pub name: Bytes,
    pub place: Place,
}
