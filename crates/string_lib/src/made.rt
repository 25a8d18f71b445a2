//! What a function makes.

use object_store::Value;

/// A value, or a text that is interned then.
#[derive(Drop)]
pub enum Made {
    Value(Value),
    Text(Vec<u8>),
}
