//! The front of some bytes.
ghost use Rattle.std.specs.Prelude.{◌≡◌};
ghost use Rattle.lua_pattern.specs.View.{joined, seen_bytes};
ghost use Rattle.lua_pattern.specs.Reading as spec;

/// The first byte and those behind it.
pub fn next(bytes: &[u8]) -> Option<(u8, &[u8])>
    ensures { bytes.now ≡ joined result }
{
    match bytes {
        [] => None,
        [first, rest @ ..] => Some((*first, rest)),
    }
}

/// What stands behind the `]` at the front, if one stands there.
pub fn past_bracket(bytes: &[u8]) -> Option<&[u8]>
    ensures { seen_bytes result ≡ spec.past_bracket bytes.now }
{
    match bytes {
        [b']', rest @ ..] => Some(rest),
        _ => None,
    }
}

/// What stands behind the `)` at the front, if one stands there.
pub fn past_close(bytes: &[u8]) -> Option<&[u8]>
    ensures { seen_bytes result ≡ spec.past_close bytes.now }
{
    match bytes {
        [b')', rest @ ..] => Some(rest),
        _ => None,
    }
}
