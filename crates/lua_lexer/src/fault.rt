//! Why a script has no list of tokens.
ghost use Rattle.std.specs.Prelude.{◌≡◌};
ghost use Rattle.lua_lexer.specs.Faults.{fault_line, fault_text};

use lua_tokens::Place;
use std::fmt;

/// Why a script has no list of tokens. The place is where the token or comment begins that doesn't
/// stand there, or the backslash of a bad escape.
#[derive(Clone, Copy, PartialEq, Eq)]
pub enum LexFault {
    BadByte(Place),
    BadNumeral(Place),
    FloatNumeral(Place),
    BadEscape(Place),
    OpenString(Place),
    OpenComment(Place),
    /// The script has more than `LONGEST` bytes.
    TooLong,
    Memory,
}

impl LexFault {
    /// The line of the place, from 1 on. A fault without a place has line 0.
    pub fn line(self) -> u32
        ensures { result ≡ fault_line self }
    {
        match self {
            LexFault::BadByte(place)
            | LexFault::BadNumeral(place)
            | LexFault::FloatNumeral(place)
            | LexFault::BadEscape(place)
            | LexFault::OpenString(place)
            | LexFault::OpenComment(place) => place.line,
            LexFault::TooLong | LexFault::Memory => 0,
        }
    }

    /// What the fault says.
    pub fn text(self) -> &'static [u8]
        ensures { result.now ≡ fault_text self }
    {
        match self {
            LexFault::BadByte(_) => b"unexpected byte",
            LexFault::BadNumeral(_) => b"malformed numeral",
            LexFault::FloatNumeral(_) => b"float numeral",
            LexFault::BadEscape(_) => b"invalid escape",
            LexFault::OpenString(_) => b"unfinished string",
            LexFault::OpenComment(_) => b"unfinished comment",
            LexFault::TooLong => b"script too long",
            LexFault::Memory => b"not enough memory",
        }
    }
}

impl fmt::Debug for LexFault {
    fn fmt<W: fmt::Write>(&self, f: &mut fmt::Formatter<W>) -> fmt::Result {
        let name = match self {
            LexFault::BadByte(_) => "BadByte",
            LexFault::BadNumeral(_) => "BadNumeral",
            LexFault::FloatNumeral(_) => "FloatNumeral",
            LexFault::BadEscape(_) => "BadEscape",
            LexFault::OpenString(_) => "OpenString",
            LexFault::OpenComment(_) => "OpenComment",
            LexFault::TooLong => "TooLong",
            LexFault::Memory => "Memory",
        };
        f.write_str(name)
    }
}
