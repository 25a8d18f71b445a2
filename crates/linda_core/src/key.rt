//! The keys of a linda.
ghost use Rattle.std.specs.Prelude.{◌≡◌, IfOk};

use lanes_arena::{Bytes, Memory};

/// A key of a linda. Keys of another kind are refused before they become one.
#[derive(Debug, Drop, PartialEq, Eq, Hash)]
pub enum Key {
    Int(i64),
    Text(Bytes),
    Bool(bool),
}

impl Key {
    /// A second key that shows the same, and shares its text with this one.
    pub fn copy(&self) -> Result<Key, Memory>
        ensures { IfOk result (λ key. key ≡ self.now) }
    {
        match self {
            Key::Int(number) => Ok(Key::Int(*number)),
            Key::Text(text) => Ok(Key::Text(text.copy()?)),
            Key::Bool(truth) => Ok(Key::Bool(*truth)),
        }
    }
}
