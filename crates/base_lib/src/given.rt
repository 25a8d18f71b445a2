//! What a function of the library gives.

use object_store::Value;

/// The values that a call gives. Most calls give a few values, and none of these takes memory.
#[derive(Clone, Copy, Debug, PartialEq, Eq)]
pub enum Given {
    /// No value.
    Nothing,
    One(Value),
    Two(Value, Value),
    Three(Value, Value, Value),
    /// The arguments of the call from this place on, counted from 0.
    From(usize),
}
