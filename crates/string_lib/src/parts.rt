//! Places in a text as a script counts them: from 1, and from the end below 0.
ghost use Rattle.std.specs.Prelude.{◌≡◌, ◌≤◌, length};
ghost use Rattle.string_lib.specs.Texts as spec;

/// How many bytes stand before the place, which may be past the end. Place 0 counts as the first.
pub fn start_place(place: i64, len: usize) -> usize
    ensures { result ≡ spec.start_place place len }
{
    if place > 0 {
        place as usize - 1
    } else if place == 0 {
        0
    } else {
        (len as u64).saturating_sub(place.unsigned_abs()) as usize
    }
}

/// How many bytes there are up to the place, with its own. A place past the end counts as the last.
pub fn end_place(place: i64, len: usize) -> usize
    ensures value { result ≡ spec.end_place place len }
    ensures bound { result ≤ len }
{
    if place >= 0 {
        (place as u64).min(len as u64) as usize
    } else {
        (len as u64).saturating_sub(place.unsigned_abs() - 1) as usize
    }
}

/// The bytes from one place up to another, as far as they are there.
pub fn part(text: &[u8], first: i64, last: i64) -> &[u8]
    ensures { result.now ≡ spec.part text.now first last }
{
    let start = start_place(first, text.len());
    let end = end_place(last, text.len());
    if start < end { &text[start..end] } else { &[] }
}
