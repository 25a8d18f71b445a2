//! What a token is, and where it stands.
ghost use Rattle.std.specs.Prelude.{◌≡◌, ◌↔◌, IsTrue};

use crate::place::Place;
use crate::sign::Sign;
use crate::word::Word;
use lanes_arena::Bytes;

/// What a token is. A text has its escapes and its line ends already turned into bytes, and `End`
/// stands after the last byte of a script.
#[derive(Drop, PartialEq, Eq)]
pub enum Lexeme {
    Name(Bytes),
    Int(i64),
    Text(Bytes),
    Word(Word),
    Sign(Sign),
    End,
}

impl Lexeme {
    /// Whether this stands after the last byte of a script.
    pub fn is_end(&self) -> bool
        ensures { IsTrue result ↔ (self.now ≡ Lexeme.End) }
    {
        matches!(self, Lexeme::End)
    }
}

/// A token, with the place of its first byte.
#[derive(Drop, PartialEq, Eq)]
pub struct Token {
    pub what: Lexeme,
    pub place: Place,
}
