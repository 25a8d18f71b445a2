//! How a run ends.

use lanes_arena::Row;
use object_store::{State, Value};

/// How a run ends.
#[derive(Debug, Drop)]
pub enum End {
    /// With the values that the function gave.
    Returned(Row<Value>),
    /// With an error that nothing caught.
    Raised(Value),
    /// The host cancelled it.
    Cancelled,
    /// It made as many steps as it had.
    BudgetSpent(u64),
    /// For want of memory.
    Memory,
    /// The host could not write what was printed.
    WriteFault,
}

/// What is left of a run: its end, how many steps it made, and the state and the host that it had.
#[derive(Drop)]
pub struct Outcome<R> {
    pub end: End,
    pub steps: u64,
    pub state: State,
    pub host: R,
}
