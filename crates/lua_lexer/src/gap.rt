//! Long brackets, blanks and comments.

ghost use Rattle.std.specs.Prelude.{◌≡◌, ◌+◌, ◌≤◌, length, IfSome};
ghost use Rattle.lua_lexer.specs.Spellings as spec;
ghost use Rattle.lua_lexer.specs.Tokens.{Gap};
ghost use Rattle.lua_lexer.specs.View.{seen, seen_bytes, seen_pair};

use crate::bytes::{equals, next, past_blanks, past_line};

/// Behind a `]`: whether equals signs of this number and a `]` follow.
fn closes(level: usize, bytes: &[u8]) -> bool
    ensures { result ≡ spec.rest_closes level bytes.now }
{
    let mut left = bytes;
    let mut more = level;
    while more > 0 {
        let [b'=', rest @ ..] = left else {
            return false;
        };
        left = rest;
        more -= 1;
    }
    match left {
        [b']', ..] => true,
        _ => false,
    }
}

/// The place of the first closing bracket of this level.
#[tactic(auto, using(crate::proofs::Closes::close_rules))]
fn close_at(level: usize, bytes: &[u8]) -> Option<usize>
    ensures place { result ≡ spec.close_at level bytes.now }
    ensures within { IfSome result (λ k. k + level + 2 ≤ length bytes.now) }
{
    let mut left = bytes;
    let mut at = 0;
    while let Some((first, rest)) = next(left) {
        if first == b']' && closes(level, rest) {
            return Some(at);
        }
        at += 1;
        left = rest;
    }
    None
}

/// The bytes up to the first closing bracket of this level, and those after it.
pub fn up_to_close(level: usize, bytes: &[u8]) -> Option<(&[u8], &[u8])>
    ensures { seen_pair result ≡ spec.up_to_close level bytes.now }
{
    let at = close_at(level, bytes)?;
    let (content, closing) = bytes.split_at(at);
    let (_, behind) = closing.split_at(level + 2);
    Some((content, behind))
}

/// Behind a `[`: the level and the bytes after the opening bracket, if it is one.
fn opening(bytes: &[u8]) -> Option<(usize, &[u8])>
    ensures { seen result ≡ spec.opening bytes.now }
{
    let (level, rest) = equals(bytes);
    match rest {
        [b'[', inside @ ..] => Some((level, inside)),
        _ => None,
    }
}

/// The level of the opening long bracket that stands here, and the bytes after it.
pub fn opens(bytes: &[u8]) -> Option<(usize, &[u8])>
    ensures { seen result ≡ spec.opens bytes.now }
{
    match bytes {
        [b'[', rest @ ..] => opening(rest),
        _ => None,
    }
}

/// The bytes after `--`, where it stands here.
pub fn dashes(bytes: &[u8]) -> Option<&[u8]>
    ensures { seen_bytes result ≡ spec.dashes bytes.now }
{
    match bytes {
        [b'-', b'-', inside @ ..] => Some(inside),
        _ => None,
    }
}

/// What stands after the comment of which these bytes stand after its `--`; none where its long
/// bracket isn't closed. A call of its own keeps the loop over blanks short.
#[inline(never)]
fn comment(bytes: &[u8]) -> Option<&[u8]>
    ensures { seen_bytes result ≡ spec.comment bytes.now }
{
    let Some((level, inside)) = opens(bytes) else {
        return Some(past_line(bytes));
    };
    match up_to_close(level, inside) {
        Some((_, behind)) => Some(behind),
        None => None,
    }
}

/// What stands after the blanks and comments that come next.
#[tactic(auto, using(crate::proofs::Gaps::gap_rules))]
pub fn gap(bytes: &[u8]) -> &[u8]
    ensures { Gap bytes.now result.now }
{
    let mut left = bytes;
    loop {
        let at = past_blanks(left);
        let Some(inside) = dashes(at) else {
            return at;
        };
        let Some(behind) = comment(inside) else {
            return at;
        };
        left = behind;
    }
}
