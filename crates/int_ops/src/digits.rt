//! Digits, blanks and signs of a text.

ghost use Rattle.std.specs.Prelude.{◌≡◌, ◌≤◌, ◌<◌, ◌%◌, ◌^◌, length, option_map, ◌*◌, ◌+◌};
ghost use Rattle.int_ops.specs.Reading as spec;
ghost use Rattle.int_ops.specs.View.{joined, seen_bytes, small};

/// The first byte and the others.
fn next(bytes: &[u8]) -> Option<(u8, &[u8])>
    ensures { bytes.now ≡ joined result }
{
    match bytes {
        [] => None,
        [first, rest @ ..] => Some((*first, rest)),
    }
}

fn is_blank(b: u8) -> bool
    ensures { result ≡ spec.is_blank b }
{
    b == b' ' || (b'\t' <= b && b <= b'\r')
}

/// The value of a digit or a letter, or 36 for another byte.
fn digit_of(b: u8) -> u32
    ensures value { result ≡ spec.digit_of b }
    ensures small { result ≤ 36 }
{
    match b {
        b'0'..=b'9' => u32::from(b - b'0'),
        b'a'..=b'z' => u32::from(b - b'a') + 10,
        b'A'..=b'Z' => u32::from(b - b'A') + 10,
        _ => 36,
    }
}

/// The text without the blanks at its front.
fn past_blanks(text: &[u8]) -> &[u8]
    ensures { result.now ≡ spec.past_blanks text.now }
{
    let mut left = text;
    while let Some((first, rest)) = next(left) {
        if !is_blank(first) {
            break;
        }
        left = rest;
    }
    left
}

/// How many bytes there are up to the last one that is no blank.
#[tactic(auto, using(crate::proofs::Trims::trim_rules))]
fn solid_length(text: &[u8]) -> usize
    ensures bound { result ≤ length text.now }
    ensures value { result ≡ length (spec.up_to_blanks text.now) }
{
    let mut left = text;
    let mut at = 0;
    let mut solid = 0;
    while let Some((first, rest)) = next(left) {
        at += 1;
        if !is_blank(first) {
            solid = at;
        }
        left = rest;
    }
    solid
}

/// The text without the blanks at its front and at its end.
#[tactic(auto, using(crate::proofs::Trims::cut_rules))]
pub fn trimmed(text: &[u8]) -> &[u8]
    ensures { result.now ≡ spec.trimmed text.now }
{
    let begun = past_blanks(text);
    let (core, _) = begun.split_at(solid_length(begun));
    core
}

/// Whether the text begins with `-`, and what stands after its sign.
pub fn split_sign(text: &[u8]) -> (bool, &[u8])
    ensures minus { result.0 ≡ spec.is_minus text.now }
    ensures rest { result.1.now ≡ spec.past_sign text.now }
{
    let Some((first, rest)) = next(text) else {
        return (false, text);
    };
    if first == b'-' {
        (true, rest)
    } else if first == b'+' {
        (false, rest)
    } else {
        (false, text)
    }
}

/// The digits after `0x` or `0X`, if the text begins so.
pub fn past_hex(text: &[u8]) -> Option<&[u8]>
    ensures { seen_bytes result ≡ spec.past_hex text.now }
{
    match text {
        [b'0', b'x', digits @ ..] => Some(digits),
        [b'0', b'X', digits @ ..] => Some(digits),
        _ => None,
    }
}

/// The number that the digits write in a base, modulo 2^64.
#[tactic(auto, using(crate::proofs::Numbers::number_rules))]
pub fn number_in(base: u32, digits: &[u8]) -> Option<u64>
    requires { base ≤ 36 }
    ensures { result ≡ option_map (λ n. n % 2 ^ 64) (spec.number_in base digits.now) }
{
    let mut left = digits;
    let mut number = 0u64;
    if left.is_empty() {
        return None;
    }
    while let Some((first, rest)) = next(left) {
        let digit = digit_of(first);
        if digit >= base {
            return None;
        }
        number = number
            .wrapping_mul(u64::from(base))
            .wrapping_add(u64::from(digit));
        left = rest;
    }
    Some(number)
}

/// The number that decimal digits write, if it is at most 2^63.
#[tactic(auto, using(crate::proofs::Numbers::small_rules))]
pub fn small_number(digits: &[u8]) -> Option<u64>
    ensures { result ≡ small (spec.number_in 10 digits.now) }
{
    let mut left = digits;
    let mut number = 0u64;
    if left.is_empty() {
        return None;
    }
    while let Some((first, rest)) = next(left) {
        let digit = digit_of(first);
        if digit >= 10 {
            return None;
        }
        if number < 1 << 60 {
            number = number * 10 + u64::from(digit);
        } else {
            number = u64::MAX;
        }
        left = rest;
    }
    if number <= 1 << 63 {
        Some(number)
    } else {
        None
    }
}
