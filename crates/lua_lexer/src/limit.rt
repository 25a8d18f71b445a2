//! The limit of a script.

/// The greatest length of a script, in bytes.
pub const LONGEST: usize = 1_048_576;
