//! Kinds of bytes, and runs of them.

ghost use Rattle.std.specs.Prelude.{◌≡◌, ◌≤◌, length, IsTrue, ◌↔◌};
ghost use Rattle.lua_lexer.specs.Bytes as spec;
ghost use Rattle.lua_lexer.specs.View.{joined};

pub fn is_digit(b: u8) -> bool
    ensures { result ≡ spec.is_digit b }
{
    b'0' <= b && b <= b'9'
}

pub fn is_letter(b: u8) -> bool
    ensures { result ≡ spec.is_letter b }
{
    let small = b'a' <= b && b <= b'z';
    let capital = b'A' <= b && b <= b'Z';
    small || capital || b == b'_'
}

/// Which bytes may stand in a word, by number.
static WORD_BYTES: [bool; 256] = [
    false, false, false, false, false, false, false, false, false, false, false, false, false,
    false, false, false, false, false, false, false, false, false, false, false, false, false,
    false, false, false, false, false, false, false, false, false, false, false, false, false,
    false, false, false, false, false, false, false, false, false, true, true, true, true, true,
    true, true, true, true, true, false, false, false, false, false, false, false, true, true,
    true, true, true, true, true, true, true, true, true, true, true, true, true, true, true, true,
    true, true, true, true, true, true, true, true, false, false, false, false, true, false, true,
    true, true, true, true, true, true, true, true, true, true, true, true, true, true, true, true,
    true, true, true, true, true, true, true, true, true, false, false, false, false, false, false,
    false, false, false, false, false, false, false, false, false, false, false, false, false,
    false, false, false, false, false, false, false, false, false, false, false, false, false,
    false, false, false, false, false, false, false, false, false, false, false, false, false,
    false, false, false, false, false, false, false, false, false, false, false, false, false,
    false, false, false, false, false, false, false, false, false, false, false, false, false,
    false, false, false, false, false, false, false, false, false, false, false, false, false,
    false, false, false, false, false, false, false, false, false, false, false, false, false,
    false, false, false, false, false, false, false, false, false, false, false, false, false,
    false, false, false, false, false, false, false, false, false, false, false, false, false,
    false, false, false, false, false, false, false, false, false, false,
];

#[tactic(auto, using(crate::proofs::Table::word_byte))]
pub fn is_word(b: u8) -> bool
    ensures { result ≡ spec.is_word b }
{
    WORD_BYTES[b as usize]
}

pub fn is_hex_digit(b: u8) -> bool
    ensures { result ≡ spec.is_hex_digit b }
{
    is_digit(b) || (b'a' <= b && b <= b'f') || (b'A' <= b && b <= b'F')
}

pub fn is_quote(b: u8) -> bool
    ensures { result ≡ spec.is_quote b }
{
    b == b'"' || b == b'\''
}

pub fn is_line_end(b: u8) -> bool
    ensures { result ≡ spec.is_line_end b }
{
    b == b'\n' || b == b'\r'
}

/// Which bytes up to the space are blanks, by number.
static BLANK_BYTES: [bool; 33] = [
    false, false, false, false, false, false, false, false, false, true, true, true, true, true,
    false, false, false, false, false, false, false, false, false, false, false, false, false,
    false, false, false, false, false, true,
];

#[tactic(auto, using(crate::proofs::Table::blank_rules))]
pub fn is_blank(b: u8) -> bool
    ensures { result ≡ spec.is_blank b }
{
    b <= b' ' && BLANK_BYTES[b as usize]
}

/// Whether the two are one line end.
pub fn is_pair(b: u8, c: u8) -> bool
    ensures { result ≡ spec.is_pair b c }
{
    (b == b'\n' && c == b'\r') || (b == b'\r' && c == b'\n')
}

/// The first byte and the others.
pub fn next(bytes: &[u8]) -> Option<(u8, &[u8])>
    ensures { bytes.now ≡ joined result }
{
    match bytes {
        [] => None,
        [first, rest @ ..] => Some((*first, rest)),
    }
}

pub fn past_blanks(bytes: &[u8]) -> &[u8]
    ensures { result.now ≡ spec.past spec.is_blank bytes.now }
{
    let mut left = bytes;
    while let [first, rest @ ..] = left {
        if !is_blank(*first) {
            break;
        }
        left = rest;
    }
    left
}

pub fn past_word(bytes: &[u8]) -> &[u8]
    ensures { result.now ≡ spec.past spec.is_word bytes.now }
{
    let mut left = bytes;
    while let [first, rest @ ..] = left {
        if !is_word(*first) {
            break;
        }
        left = rest;
    }
    left
}

/// What stands from the line's end on.
pub fn past_line(bytes: &[u8]) -> &[u8]
    ensures { result.now ≡ spec.past spec.is_inline bytes.now }
{
    let mut left = bytes;
    while let [first, rest @ ..] = left {
        if is_line_end(*first) {
            break;
        }
        left = rest;
    }
    left
}

/// How many equals signs there are at the front, and what stands after them.
pub fn equals(bytes: &[u8]) -> (usize, &[u8])
    ensures count { result.0 ≡ length (spec.run spec.is_equals bytes.now) }
    ensures rest { result.1.now ≡ spec.past spec.is_equals bytes.now }
{
    let mut left = bytes;
    let mut count = 0;
    while let [b'=', rest @ ..] = left {
        count += 1;
        left = rest;
    }
    (count, left)
}

/// What stands after the line end at the front, if there is one.
pub fn past_line_end(bytes: &[u8]) -> &[u8]
    ensures { result.now ≡ spec.past_line_end bytes.now }
{
    let Some((first, rest)) = next(bytes) else {
        return bytes;
    };
    let Some((second, behind)) = next(rest) else {
        return if is_line_end(first) { rest } else { bytes };
    };
    if is_pair(first, second) {
        behind
    } else if is_line_end(first) {
        rest
    } else {
        bytes
    }
}

/// How many line ends there are.
pub fn line_ends(bytes: &[u8]) -> usize
    ensures count { result ≡ spec.line_ends bytes.now }
    ensures few { result ≤ length bytes.now }
{
    let mut left = past_line(bytes);
    let mut count = 0;
    while !left.is_empty() {
        count += 1;
        left = past_line(past_line_end(left));
    }
    count
}
