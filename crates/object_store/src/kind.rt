//! The types of values, by which a script asks for them.
ghost use Rattle.std.specs.Prelude.{◌≡◌};
ghost use Rattle.object_store.specs.Kind.{kind_of, name_of_kind};

use crate::Value;
use std::fmt;

/// The type of a value (Lua 5.4 manual, section 2.1).
#[derive(Clone, Copy, Debug, PartialEq, Eq)]
pub enum Kind {
    Nil,
    Boolean,
    Number,
    Text,
    Table,
    Function,
    Userdata,
}

impl Kind {
    /// The type's name, as `type` gives it (section 6.1).
    pub fn name(self) -> &'static str
        ensures { result.now ≡ name_of_kind self }
    {
        match self {
            Kind::Nil => "nil",
            Kind::Boolean => "boolean",
            Kind::Number => "number",
            Kind::Text => "string",
            Kind::Table => "table",
            Kind::Function => "function",
            Kind::Userdata => "userdata",
        }
    }
}

impl fmt::Display for Kind {
    fn fmt<W: fmt::Write>(&self, f: &mut fmt::Formatter<W>) -> fmt::Result {
        f.write_str(self.name())
    }
}

impl Value {
    /// The value's type. Linda handles, lane handles and light values are userdata.
    #[inline]
    pub fn kind(&self) -> Kind
        ensures { result ≡ kind_of self.now }
    {
        match self {
            Value::Nil => Kind::Nil,
            Value::False | Value::True => Kind::Boolean,
            Value::Int(_) => Kind::Number,
            Value::Str(_) => Kind::Text,
            Value::Table(_) => Kind::Table,
            Value::Func(_) | Value::Lib(_) => Kind::Function,
            Value::Linda(_) | Value::Lane(_) | Value::Light(_) => Kind::Userdata,
        }
    }
}
