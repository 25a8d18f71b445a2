//! A place in a script.

/// A place in a script: the offset of a byte, from 0, and its line, from 1.
#[derive(Clone, Copy, Debug, PartialEq, Eq)]
pub struct Place {
    pub at: u32,
    pub line: u32,
}
