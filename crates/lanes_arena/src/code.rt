//! What a function runs, and the mark of a metatable.

/// What a function of a script runs.
#[derive(Clone, Copy, Debug, PartialEq, Eq, Hash)]
pub enum Code {
    /// The body of this number of the program.
    Script(u32),
    /// A function that `lanes.gen` made, which opens the libraries of these bits in each lane that
    /// it starts.
    Maker(u8),
    /// An iterator that `string.gmatch` made.
    Walker,
}

/// The mark by which two states know one metatable: the number of the state that marked it first,
/// and its number there.
#[derive(Clone, Copy, Debug, PartialEq, Eq, Hash)]
pub struct Mark {
    pub state: u64,
    pub table: u32,
}
