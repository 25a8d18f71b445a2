//! Signs.

ghost use Rattle.std.specs.Prelude.{◌≡◌};
ghost use Rattle.lua_lexer.specs.Reading as spec;
ghost use Rattle.lua_lexer.specs.View.{seen_sign};

use lua_tokens::Sign;

/// The sign of one byte, where no longer one begins with it.
#[tactic(auto, unfolding(crate::specs::Reading::single))]
fn single(byte: u8) -> Option<Sign>
    ensures { result ≡ spec.single byte }
{
    match byte {
        b'(' => Some(Sign::OpenParen),
        b')' => Some(Sign::CloseParen),
        b',' => Some(Sign::Comma),
        b'+' => Some(Sign::Plus),
        b'-' => Some(Sign::Minus),
        b'*' => Some(Sign::Star),
        b'%' => Some(Sign::Percent),
        b'^' => Some(Sign::Caret),
        b'#' => Some(Sign::Hash),
        b'&' => Some(Sign::Amp),
        b'|' => Some(Sign::Pipe),
        b'{' => Some(Sign::OpenBrace),
        b'}' => Some(Sign::CloseBrace),
        b'[' => Some(Sign::OpenBracket),
        b']' => Some(Sign::CloseBracket),
        b';' => Some(Sign::Semicolon),
        _ => None,
    }
}

/// The sign that begins with this byte, the longest that the bytes after it allow.
#[tactic(auto, unfolding(crate::specs::Reading::sign_at))]
pub fn sign_at(first: u8, rest: &[u8]) -> Option<(Sign, &[u8])>
    ensures { seen_sign result ≡ spec.sign_at first rest.now }
{
    match first {
        b'.' => match rest {
            [b'.', b'.', behind @ ..] => Some((Sign::DotDotDot, behind)),
            [b'.', behind @ ..] => Some((Sign::DotDot, behind)),
            _ => Some((Sign::Dot, rest)),
        },
        b'=' => match rest {
            [b'=', behind @ ..] => Some((Sign::EqualEqual, behind)),
            _ => Some((Sign::Equal, rest)),
        },
        b'<' => match rest {
            [b'<', behind @ ..] => Some((Sign::ShiftLeft, behind)),
            [b'=', behind @ ..] => Some((Sign::LessEqual, behind)),
            _ => Some((Sign::Less, rest)),
        },
        b'>' => match rest {
            [b'>', behind @ ..] => Some((Sign::ShiftRight, behind)),
            [b'=', behind @ ..] => Some((Sign::GreaterEqual, behind)),
            _ => Some((Sign::Greater, rest)),
        },
        b'~' => match rest {
            [b'=', behind @ ..] => Some((Sign::NotEqual, behind)),
            _ => Some((Sign::Tilde, rest)),
        },
        b'/' => match rest {
            [b'/', behind @ ..] => Some((Sign::SlashSlash, behind)),
            _ => Some((Sign::Slash, rest)),
        },
        b':' => match rest {
            [b':', behind @ ..] => Some((Sign::ColonColon, behind)),
            _ => Some((Sign::Colon, rest)),
        },
        _ => match single(first) {
            Some(sign) => Some((sign, rest)),
            None => None,
        },
    }
}
