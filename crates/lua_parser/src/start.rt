//! What a statement begins with.

ghost use Rattle.std.specs.Prelude.{◌≡◌};
ghost use Rattle.lua_parser.specs.Starts.{room_of, start_of};

use lua_tokens::{Lexeme, Sign, Word};

/// A statement by the token that begins it, which is neither a name, `;` nor `return`.
#[derive(Clone, Copy)]
pub enum Kind {
    Break,
    Goto,
    Label,
    /// An assignment or a call that a parenthesis begins.
    Paren,
    Local,
    If,
    For,
    Function,
    While,
    Repeat,
    Do,
}

impl Kind {
    /// The least depth of the parts of a block that can have such a statement.
    pub fn room(self) -> usize
        ensures { result ≡ room_of self }
    {
        match self {
            Kind::Break | Kind::Goto | Kind::Label | Kind::Local => 0,
            Kind::If | Kind::For | Kind::While | Kind::Repeat | Kind::Do => 1,
            Kind::Function => 2,
            Kind::Paren => 3,
        }
    }
}

/// What goes on with a block.
#[derive(Clone, Copy)]
pub enum Start {
    Semicolon,
    Return,
    /// An assignment or a call that a name begins.
    Name,
    Stat(Kind),
    /// Nothing.
    End,
}

/// What goes on with a block where this comes next.
pub fn start_of(what: &Lexeme) -> Start
    ensures { result ≡ start_of what.now }
{
    match what {
        Lexeme::Name(_) => Start::Name,
        Lexeme::Sign(Sign::OpenParen) => Start::Stat(Kind::Paren),
        Lexeme::Sign(Sign::ColonColon) => Start::Stat(Kind::Label),
        Lexeme::Sign(Sign::Semicolon) => Start::Semicolon,
        Lexeme::Word(Word::Break) => Start::Stat(Kind::Break),
        Lexeme::Word(Word::Do) => Start::Stat(Kind::Do),
        Lexeme::Word(Word::For) => Start::Stat(Kind::For),
        Lexeme::Word(Word::Function) => Start::Stat(Kind::Function),
        Lexeme::Word(Word::Goto) => Start::Stat(Kind::Goto),
        Lexeme::Word(Word::If) => Start::Stat(Kind::If),
        Lexeme::Word(Word::Local) => Start::Stat(Kind::Local),
        Lexeme::Word(Word::Repeat) => Start::Stat(Kind::Repeat),
        Lexeme::Word(Word::Return) => Start::Return,
        Lexeme::Word(Word::While) => Start::Stat(Kind::While),
        _ => Start::End,
    }
}
