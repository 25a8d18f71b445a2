//! Patterns.

use crate::Item;
use lanes_arena::Row;

/// A pattern that was read.
#[derive(Drop)]
pub struct Pattern {
    /// Whether it is tried at one place alone.
    pub(crate) anchored: bool,
    /// How many captures it has.
    pub(crate) captures: usize,
    pub(crate) items: Row<Item>,
}
