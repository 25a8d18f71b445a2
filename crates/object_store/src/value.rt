//! The values of a script.
ghost use Rattle.std.specs.Prelude.{◌≡◌};

use lanes_arena::{Id, NameId};

/// The kind of the ids that name tables.
pub struct Tables;

/// The kind of the ids that name functions.
pub struct Functions;

/// The kind of the ids that name cells.
pub struct Cells;

/// The number of an interned text of a state.
pub type StrId = NameId;

/// The number of a table of a state.
pub type TableId = Id<Tables>;

/// The number of a function of a state.
pub type FuncId = Id<Functions>;

/// The number of a cell of a state.
pub type CellId = Id<Cells>;

/// The number of a function of the libraries.
#[derive(Clone, Copy, Debug, PartialEq, Eq, Hash)]
pub struct LibId {
    pub number: u64,
}

/// The number of a light value, which is equal to itself alone, in any lane.
#[derive(Clone, Copy, Debug, PartialEq, Eq, Hash)]
pub struct LightId {
    pub number: u64,
}

impl LightId {
    /// `lanes.cancel_error`.
    pub const CANCEL_ERROR: LightId = LightId { number: 0 };

    /// `linda.batched`.
    pub const BATCHED: LightId = LightId { number: 1 };
}

/// A value of a script. Each payload has 64 bits, so that a value is written and copied in whole
/// words; a boolean is two variants.
#[derive(Clone, Copy, Debug, PartialEq, Eq, Hash)]
pub enum Value {
    Nil,
    False,
    True,
    Int(i64),
    Str(StrId),
    Table(TableId),
    Func(FuncId),
    Lib(LibId),
    Linda(u64),
    Lane(u64),
    Light(LightId),
}

impl Value {
    ghost use Rattle.object_store.specs.Value.{is_nil, is_truthy, value_of_bool};

    /// The boolean.
    #[inline]
    pub fn from_bool(yes: bool) -> Value
        ensures { result ≡ value_of_bool yes }
    {
        if yes { Value::True } else { Value::False }
    }

    /// Whether this is no value.
    #[inline]
    pub fn is_nil(&self) -> bool
        ensures { result ≡ is_nil self.now }
    {
        matches!(self, Value::Nil)
    }

    /// Whether the value counts as true in a condition (Lua 5.4 manual, section 3.3.4): all but
    /// `Nil` and `False`.
    #[inline]
    pub fn is_truthy(&self) -> bool
        ensures { result ≡ is_truthy self.now }
    {
        !matches!(self, Value::Nil | Value::False)
    }
}
