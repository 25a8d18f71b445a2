//! What an operator answers.
use object_store::{TableId, Value};

/// What an operator gives.
#[derive(Clone, Copy, Debug, PartialEq, Eq)]
pub enum Step {
    /// The value itself.
    Raw(Value),
    /// The first value of a call of the handler with two arguments.
    Handler {
        function: Value,
        first: Value,
        second: Value,
    },
    /// A field of a linda or a lane, which has no metatable.
    Handle(Value),
}

/// Where `object[key] = value` leads.
#[derive(Clone, Copy, Debug, PartialEq, Eq)]
pub enum Target {
    /// The table whose key is set.
    Table(TableId),
    /// A call of the handler with the object, the key and the value.
    Handler { function: Value, object: Value },
}

/// What became of `object[key] = value`.
#[derive(Clone, Copy, Debug, PartialEq, Eq)]
pub enum SetStep {
    /// The key is set.
    Done,
    /// Nothing is set yet: the handler is called with the object, the key and the value.
    Handler { function: Value, object: Value },
}

/// The operators of arithmetic and bits (Lua 5.4 manual, sections 3.4.1 and 3.4.2).
#[derive(Clone, Copy, Debug, PartialEq, Eq)]
pub enum ArithOp {
    Add,
    Sub,
    Mul,
    FloorDiv,
    Mod,
    Neg,
    BitAnd,
    BitOr,
    BitXor,
    BitNot,
    ShiftLeft,
    ShiftRight,
}

/// The operators of comparison (section 3.4.4).
#[derive(Clone, Copy, Debug, PartialEq, Eq)]
pub enum CompareOp {
    Eq,
    Ne,
    Lt,
    Le,
    Gt,
    Ge,
}
