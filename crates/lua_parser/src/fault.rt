//! Why tokens are no script.
ghost use Rattle.std.specs.Prelude.{◌≡◌, ◌++◌, codes, OnOk};
ghost use Rattle.lua_grammar.specs.Input.{bad};
ghost use Rattle.lua_parser.specs.Answers.{fault_of, place_of};
ghost use Rattle.lua_parser.specs.Faults.{fault_line, fault_text, unexpected_text};

use lanes_arena::{Bytes, Memory};
use lua_tokens::{Lexeme, Place, Sign, Token};
use std::fmt;

/// Why tokens are no script of a depth of at most `DEEPEST`. The place is that of the first token
/// with which those up to it begin no such script (manual, sections 3.3, 3.4 and 9). Of the kinds
/// the first that fits comes, in the order `TooDeep`, `FloatOperator`, `BadAttribute`,
/// `Unexpected`.
#[derive(Clone, Copy, PartialEq, Eq)]
pub enum ParseFault {
    /// No script goes on with the token, which is `End` where the script ends too early.
    Unexpected(Place),
    /// The token is `/` or `^`.
    FloatOperator(Place),
    /// Only deeper scripts go on with the token.
    TooDeep(Place),
    /// The token is a name in the place of the attribute `const` (manual, section 3.3.7).
    BadAttribute(Place),
    Memory,
}

impl ParseFault {
    /// The place of the token that is refused. Want of memory has none.
    pub fn place(self) -> Option<Place>
        ensures { result ≡ place_of self }
    {
        match self {
            ParseFault::Unexpected(place)
            | ParseFault::FloatOperator(place)
            | ParseFault::TooDeep(place)
            | ParseFault::BadAttribute(place) => Some(place),
            ParseFault::Memory => None,
        }
    }

    /// The line of that token, from 1 on. Want of memory has line 0.
    pub fn line(self) -> u32
        ensures { result ≡ fault_line self }
    {
        match self.place() {
            Some(place) => place.line,
            None => 0,
        }
    }

    /// Puts what the fault says after this text, where the refused token has these bytes, or is the
    /// end of the script. At an `Err` the text may have grown by a part of it.
    pub fn push_text(self, text: &mut Vec<u8>, token: &Option<Bytes>) -> Result<(), Memory>
        ensures { OnOk result (text.new.items ≡ text.old.items ++ fault_text self token.now) }
    {
        match self {
            ParseFault::Unexpected(_) => push_unexpected(text, token),
            ParseFault::FloatOperator(_) => text.extend_from_slice(b"float operator"),
            ParseFault::TooDeep(_) => text.extend_from_slice(b"nesting too deep"),
            ParseFault::BadAttribute(_) => text.extend_from_slice(b"unknown attribute"),
            ParseFault::Memory => text.extend_from_slice(b"not enough memory"),
        }
    }
}

impl fmt::Debug for ParseFault {
    fn fmt<W: fmt::Write>(&self, f: &mut fmt::Formatter<W>) -> fmt::Result {
        let name = match self {
            ParseFault::Unexpected(_) => "Unexpected",
            ParseFault::FloatOperator(_) => "FloatOperator",
            ParseFault::TooDeep(_) => "TooDeep",
            ParseFault::BadAttribute(_) => "BadAttribute",
            ParseFault::Memory => "Memory",
        };
        f.write_str(name)
    }
}

/// Puts what is said of a token that no script goes on with after this text.
fn push_unexpected(text: &mut Vec<u8>, token: &Option<Bytes>) -> Result<(), Memory>
    ensures { OnOk result (text.new.items ≡ text.old.items ++ unexpected_text token.now) }
{
    match token {
        None => text.extend_from_slice(b"unexpected end"),
        Some(bytes) => push_quoted(text, b"unexpected ", bytes.as_slice()),
    }
}

/// Puts these bytes after this text, and then others in quotes.
fn push_quoted(text: &mut Vec<u8>, before: &[u8], bytes: &[u8]) -> Result<(), Memory>
    ensures { OnOk result (text.new.items ≡ text.old.items
        ++ (before.now ++ (codes "'" ++ (bytes.now ++ codes "'")))) }
{
    text.extend_from_slice(before)?;
    text.extend_from_slice(b"'")?;
    text.extend_from_slice(bytes)?;
    text.extend_from_slice(b"'")
}

/// The fault at a token that no script of any depth goes on with.
pub fn fault_at(refused: &Token) -> ParseFault
    ensures { result ≡ fault_of bad refused.now }
{
    let place = refused.place;
    match &refused.what {
        Lexeme::Sign(Sign::Slash | Sign::Caret) => ParseFault::FloatOperator(place),
        _ => ParseFault::Unexpected(place),
    }
}
