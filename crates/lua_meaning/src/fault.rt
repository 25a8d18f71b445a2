//! Why a run ends without values, and from where a call is made.

use object_store::Value;

/// Why a part of a run has no value. All but `Raised` end the run.
#[derive(Clone, Copy, Debug, PartialEq, Eq)]
pub enum Fault {
    /// An error, which `pcall` catches.
    Raised(Value),
    /// The budget of steps is spent.
    Spent,
    /// The host cancelled the run.
    Cancelled,
    /// The host could not write what was printed.
    WriteFault,
    /// A place or a number that the program or the state doesn't have.
    Broken,
    /// Want of memory.
    Memory,
}

/// From where a call is made: the line of its call expression, 0 where it is none, and that of the
/// call expression which called the function that makes this call, 0 where it was none.
#[derive(Clone, Copy, Debug, PartialEq, Eq)]
pub struct Site {
    pub line: u32,
    pub outer: u32,
}
