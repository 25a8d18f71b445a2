//! What contracts see of lindas. No value of these types is made.

use crate::call::Side;
use crate::item::Item;
use crate::key::Key;
use lanes_arena::Row;

/// What a known key has: its queue, first in first out, and its limit where it has one.
pub struct Known {
    pub queue: Row<Item>,
    pub limit: Option<u64>,
}

/// A linda: its gate, and the known keys in the order in which they became known.
pub struct Content {
    pub gate: Side,
    pub keys: Row<(Key, Known)>,
}

/// A bank: the lindas on which a call was served, by number, in the order of their first such
/// calls.
pub type BankContent = Row<(u64, Content)>;
