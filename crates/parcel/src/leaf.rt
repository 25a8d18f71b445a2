//! A value as it stands in a parcel.
ghost use Rattle.std.specs.Prelude.{◌≡◌, IfOk};

use lanes_arena::{Bytes, Memory};

/// A value as it stands in a parcel: itself where it has no parts, else the number of its node.
#[derive(Drop, PartialEq, Eq, Hash)]
pub enum Leaf {
    Nil,
    Bool(bool),
    Int(i64),
    Text(Bytes),
    /// A table or a function: the node of this number, counted from 0.
    Node(u32),
    /// The library function of this number, which every state has.
    Lib(u64),
    /// The handle of the linda of this number.
    Linda(u64),
    /// The light value of this number.
    Light(u64),
    /// The globals table of whichever state the parcel is placed in.
    Globals,
}

impl Leaf {
    /// A second leaf that shows the same, and shares its text with this one. The only refusal is of
    /// more than 2^63 shares.
    pub fn copy(&self) -> Result<Leaf, Memory>
        ensures { IfOk result (λ leaf. leaf ≡ self.now) }
    {
        match self {
            Leaf::Nil => Ok(Leaf::Nil),
            Leaf::Bool(yes) => Ok(Leaf::Bool(*yes)),
            Leaf::Int(number) => Ok(Leaf::Int(*number)),
            Leaf::Text(text) => Ok(Leaf::Text(text.copy()?)),
            Leaf::Node(number) => Ok(Leaf::Node(*number)),
            Leaf::Lib(number) => Ok(Leaf::Lib(*number)),
            Leaf::Linda(number) => Ok(Leaf::Linda(*number)),
            Leaf::Light(number) => Ok(Leaf::Light(*number)),
            Leaf::Globals => Ok(Leaf::Globals),
        }
    }
}
