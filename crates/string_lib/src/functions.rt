//! The functions of the string library that give one value.
ghost use Rattle.std.specs.Prelude.{◌≡◌};

/// A function of the string library that gives one value and calls nothing back (Lua 5.4 manual,
/// section 6.4).
#[derive(Clone, Copy, Debug, PartialEq, Eq)]
pub enum StringFn {
    Char,
    Len,
    Lower,
    Rep,
    Reverse,
    Sub,
    Upper,
}

impl StringFn {
    ghost use Rattle.string_lib.specs.String.{name_of};

    /// The name by which a fault names the function.
    pub fn name(self) -> &'static str
        ensures { result.now ≡ name_of self }
    {
        match self {
            StringFn::Char => "char",
            StringFn::Len => "len",
            StringFn::Lower => "lower",
            StringFn::Rep => "rep",
            StringFn::Reverse => "reverse",
            StringFn::Sub => "sub",
            StringFn::Upper => "upper",
        }
    }
}
