//! Classes of bytes.
ghost use Rattle.std.specs.Prelude.{◌≡◌};
ghost use Rattle.lua_pattern.specs.Classes as spec;

/// A class of ASCII bytes. No byte above 127 is in one.
#[derive(Clone, Copy)]
pub enum Class {
    /// `%a`
    Letter,
    /// `%c`
    Control,
    /// `%d`
    Digit,
    /// `%g`: every printed byte but the space
    Printed,
    /// `%l`
    Lower,
    /// `%p`
    Punctuation,
    /// `%s`
    Space,
    /// `%u`
    Upper,
    /// `%w`
    Alphanumeric,
    /// `%x`
    HexDigit,
}

fn is_lower(b: u8) -> bool
    ensures { result ≡ spec.is_lower b }
{
    b'a' <= b && b <= b'z'
}

pub fn is_upper(b: u8) -> bool
    ensures { result ≡ spec.is_upper b }
{
    b'A' <= b && b <= b'Z'
}

pub fn is_digit(b: u8) -> bool
    ensures { result ≡ spec.is_digit b }
{
    b'0' <= b && b <= b'9'
}

fn is_letter(b: u8) -> bool
    ensures { result ≡ spec.is_letter b }
{
    is_lower(b) || is_upper(b)
}

pub fn is_alphanumeric(b: u8) -> bool
    ensures { result ≡ spec.is_alphanumeric b }
{
    is_letter(b) || is_digit(b)
}

fn is_printed(b: u8) -> bool
    ensures { result ≡ spec.is_printed b }
{
    b'!' <= b && b <= b'~'
}

fn is_hex_digit(b: u8) -> bool
    ensures { result ≡ spec.is_hex_digit b }
{
    is_digit(b) || (b'a' <= b && b <= b'f') || (b'A' <= b && b <= b'F')
}

impl Class {
    /// Whether the byte is in the class.
    #[inline]
    pub fn has(self, b: u8) -> bool
        ensures { result ≡ spec.in_class self b }
    {
        match self {
            Class::Letter => is_letter(b),
            Class::Control => b < b' ' || b == 127,
            Class::Digit => is_digit(b),
            Class::Printed => is_printed(b),
            Class::Lower => is_lower(b),
            Class::Punctuation => is_printed(b) && !is_alphanumeric(b),
            Class::Space => b == b' ' || (b'\t' <= b && b <= b'\r'),
            Class::Upper => is_upper(b),
            Class::Alphanumeric => is_alphanumeric(b),
            Class::HexDigit => is_hex_digit(b),
        }
    }
}
