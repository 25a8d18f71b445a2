//! The tokens of scripts whose tokens have blanks between them.

ghost use Rattle.std.specs.Prelude.{IfOk};
ghost use Rattle.lua_parser.specs.Answers.{EndsWithEnd};

use lanes_arena::Bytes;
use lua_tokens::{Lexeme, Place, Sign, Token, TokenList, Word};
use std::alloc::{AllocError, Global};

const WORDS: [(&[u8], Word); 22] = [
    (b"and", Word::And),
    (b"break", Word::Break),
    (b"do", Word::Do),
    (b"else", Word::Else),
    (b"elseif", Word::Elseif),
    (b"end", Word::End),
    (b"false", Word::False),
    (b"for", Word::For),
    (b"function", Word::Function),
    (b"goto", Word::Goto),
    (b"if", Word::If),
    (b"in", Word::In),
    (b"local", Word::Local),
    (b"nil", Word::Nil),
    (b"not", Word::Not),
    (b"or", Word::Or),
    (b"repeat", Word::Repeat),
    (b"return", Word::Return),
    (b"then", Word::Then),
    (b"true", Word::True),
    (b"until", Word::Until),
    (b"while", Word::While),
];

const SIGNS: [(&[u8], Sign); 33] = [
    (b"+", Sign::Plus),
    (b"-", Sign::Minus),
    (b"*", Sign::Star),
    (b"/", Sign::Slash),
    (b"%", Sign::Percent),
    (b"^", Sign::Caret),
    (b"#", Sign::Hash),
    (b"&", Sign::Amp),
    (b"~", Sign::Tilde),
    (b"|", Sign::Pipe),
    (b"<<", Sign::ShiftLeft),
    (b">>", Sign::ShiftRight),
    (b"//", Sign::SlashSlash),
    (b"==", Sign::EqualEqual),
    (b"~=", Sign::NotEqual),
    (b"<=", Sign::LessEqual),
    (b">=", Sign::GreaterEqual),
    (b"<", Sign::Less),
    (b">", Sign::Greater),
    (b"=", Sign::Equal),
    (b"(", Sign::OpenParen),
    (b")", Sign::CloseParen),
    (b"{", Sign::OpenBrace),
    (b"}", Sign::CloseBrace),
    (b"[", Sign::OpenBracket),
    (b"]", Sign::CloseBracket),
    (b"::", Sign::ColonColon),
    (b";", Sign::Semicolon),
    (b":", Sign::Colon),
    (b",", Sign::Comma),
    (b".", Sign::Dot),
    (b"..", Sign::DotDot),
    (b"...", Sign::DotDotDot),
];

/// The token that a word is: a quote begins a text.
fn lexeme(alloc: Global, text: &[u8]) -> Result<Lexeme, AllocError> {
    for (spelling, word) in WORDS {
        if text == spelling {
            return Ok(Lexeme::Word(word));
        }
    }
    for (spelling, sign) in SIGNS {
        if text == spelling {
            return Ok(Lexeme::Sign(sign));
        }
    }
    match text {
        [b'\'', rest @ ..] => Ok(Lexeme::Text(Bytes::of(alloc, rest)?)),
        [digit @ b'0'..=b'9', ..] => Ok(Lexeme::Int((*digit - b'0') as i64)),
        name => Ok(Lexeme::Name(Bytes::of(alloc, name)?)),
    }
}

/// The tokens of a script with a blank or a line feed after each of them. The place of a token is
/// its number.
pub fn tokens_of(alloc: Global, script: &[u8]) -> Result<TokenList, AllocError>
    ensures { IfOk result (λ found. EndsWithEnd found) }
{
    let mut found = TokenList::new(alloc);
    let mut word = Vec::new(alloc);
    let mut place = Place { at: 0, line: 1 };
    for byte in script {
        if *byte == b' ' || *byte == b'\n' {
            if !word.is_empty() {
                let what = lexeme(alloc, &word)?;
                found.push(Token { what, place })?;
                place.at = place.at.saturating_add(1);
                word.clear();
            }
            if *byte == b'\n' {
                place.line = place.line.saturating_add(1);
            }
        } else {
            word.push(*byte)?;
        }
    }
    found.push(Token {
        what: Lexeme::End,
        place,
    })?;
    Ok(found)
}
