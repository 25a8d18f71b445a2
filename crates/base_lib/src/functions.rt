//! The functions of the base library and of math that call nothing back.
ghost use Rattle.std.specs.Prelude.{◌≡◌};

/// A function of the base library or of math that calls nothing back (Lua 5.4 manual, sections 6.1
/// and 6.7).
#[derive(Clone, Copy, Debug, PartialEq, Eq)]
pub enum BaseFn {
    GetMetatable,
    Ipairs,
    Next,
    RawEqual,
    RawGet,
    RawLen,
    RawSet,
    Select,
    SetMetatable,
    ToNumber,
    Type,
    Abs,
    Floor,
    Max,
    Min,
    ToInteger,
    MathType,
    Ult,
}

impl BaseFn {
    ghost use Rattle.base_lib.specs.Functions.{name_of};

    /// The name by which a fault names the function.
    pub fn name(self) -> &'static str
        ensures { result.now ≡ name_of self }
    {
        match self {
            BaseFn::GetMetatable => "getmetatable",
            BaseFn::Ipairs => "ipairs",
            BaseFn::Next => "next",
            BaseFn::RawEqual => "rawequal",
            BaseFn::RawGet => "rawget",
            BaseFn::RawLen => "rawlen",
            BaseFn::RawSet => "rawset",
            BaseFn::Select => "select",
            BaseFn::SetMetatable => "setmetatable",
            BaseFn::ToNumber => "tonumber",
            BaseFn::Type => "type",
            BaseFn::Abs => "abs",
            BaseFn::Floor => "floor",
            BaseFn::Max => "max",
            BaseFn::Min => "min",
            BaseFn::ToInteger => "tointeger",
            BaseFn::MathType => "type",
            BaseFn::Ult => "ult",
        }
    }
}
