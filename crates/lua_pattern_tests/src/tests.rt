//! Each row's search.
use crate::faults::{FAULTS, MORE_FAULTS};
use crate::rows::{FIFTH_ROWS, FIRST_ROWS, FOURTH_ROWS, Row, SECOND_ROWS, SIXTH_ROWS, THIRD_ROWS};
use crate::wanted::{Shown, Wanted};
use lua_pattern::{
    Capture, Match, Pattern, PatternFault, compile, compile_unanchored, find, matches_at,
};
use std::alloc::Global;

/// Whether the capture shows this in the subject.
fn shows(subject: &[u8], capture: Capture, wanted: Shown) -> bool {
    match (capture, wanted) {
        (Capture::Position(at), Shown::Place(place)) => at == place,
        (Capture::Span(start, end), Shown::Text(text)) => {
            subject.get(start..end) == Some(text.as_bytes())
        }
        _ => false,
    }
}

/// Whether this was found.
fn is_wanted(subject: &[u8], found: Option<Match>, wanted: Wanted) -> bool {
    match (found, wanted) {
        (None, Wanted::Nothing) => true,
        (Some(found), Wanted::Found(start, end, captures)) => {
            let shown = found.captures.as_slice();
            found.start == start
                && found.end == end
                && shown.len() == captures.len()
                && shown
                    .iter()
                    .zip(captures)
                    .all(|(a, b)| shows(subject, *a, *b))
        }
        _ => false,
    }
}

/// Whether the row holds.
fn holds(alloc: Global, row: Row) -> Result<bool, PatternFault> {
    let subject = row.1.as_bytes();
    if row.2 > subject.len() {
        return Ok(false);
    }
    let pattern = compile(alloc, row.0.as_bytes())?;
    let found = find(alloc, &pattern, subject, row.2)?;
    Ok(is_wanted(subject, found, row.3))
}

/// The pattern of the first row that does not hold.
fn first_wrong(alloc: Global, rows: &[Row]) -> Option<&'static str> {
    for row in rows {
        if holds(alloc, *row) != Ok(true) {
            return Some(row.0);
        }
    }
    None
}

#[test]
fn rows(rt: HostRuntime) {
    assert_eq!(rt; first_wrong(rt.alloc(), FIRST_ROWS), None);
    assert_eq!(rt; first_wrong(rt.alloc(), SECOND_ROWS), None);
    assert_eq!(rt; first_wrong(rt.alloc(), THIRD_ROWS), None);
    assert_eq!(rt; first_wrong(rt.alloc(), FOURTH_ROWS), None);
    assert_eq!(rt; first_wrong(rt.alloc(), FIFTH_ROWS), None);
    assert_eq!(rt; first_wrong(rt.alloc(), SIXTH_ROWS), None);
}

/// Why the pattern is refused, if it is.
fn fault(alloc: Global, bytes: &[u8]) -> Option<PatternFault> {
    match compile(alloc, bytes) {
        Ok(_) => None,
        Err(fault) => Some(fault),
    }
}

#[test]
fn faults(rt: HostRuntime) {
    for (pattern, wanted) in FAULTS {
        assert!(rt; fault(rt.alloc(), pattern.as_bytes()) == Some(*wanted));
    }
    for (pattern, wanted) in MORE_FAULTS {
        assert!(rt; fault(rt.alloc(), pattern.as_bytes()) == Some(*wanted));
    }
}

/// So many items of the byte `a`, and the bytes behind them.
fn long(alloc: Global, count: usize, behind: &[u8]) -> Result<Vec<u8>, PatternFault> {
    let mut bytes = vec![in alloc; b'a'; count]?;
    bytes.extend_from_slice(behind)?;
    Ok(bytes)
}

/// Why a pattern of so many items and the bytes behind them is refused.
fn long_fault(alloc: Global, count: usize, behind: &[u8]) -> Option<PatternFault> {
    match long(alloc, count, behind) {
        Ok(bytes) => fault(alloc, &bytes),
        Err(fault) => Some(fault),
    }
}

#[test]
fn two_hundred_items(rt: HostRuntime) {
    let alloc = rt.alloc();
    assert!(rt; long_fault(alloc, 200, b"") == None);
    assert!(rt; long_fault(alloc, 200, b"$") == None);
    assert!(rt; long_fault(alloc, 201, b"") == Some(PatternFault::TooManyItems));
    assert!(rt; long_fault(alloc, 201, b"[") == Some(PatternFault::TooManyItems));
    assert!(rt; long_fault(alloc, 200, b"[") == Some(PatternFault::OpenSet));
    assert!(rt; long_fault(alloc, 200, b"()") == Some(PatternFault::TooManyItems));
}

/// Where the pattern's match at this place ends.
fn end_at(alloc: Global, pattern: &Pattern, subject: &[u8], at: usize) -> Option<usize> {
    if at > subject.len() {
        return None;
    }
    match matches_at(alloc, pattern, subject, at) {
        Ok(Some(found)) => Some(found.end),
        _ => None,
    }
}

/// Where a match at this place ends, if the pattern is read with or without its anchor.
fn ends(alloc: Global, at: usize) -> Result<(Option<usize>, Option<usize>), PatternFault> {
    let subject = b"a^ab".as_slice();
    let anchored = compile(alloc, b"^a+")?;
    let plain = compile_unanchored(alloc, b"^a+")?;
    Ok((
        end_at(alloc, &anchored, subject, at),
        end_at(alloc, &plain, subject, at),
    ))
}

#[test]
fn a_place_alone(rt: HostRuntime) {
    let alloc = rt.alloc();
    assert!(rt; ends(alloc, 0) == Ok((Some(1), None)));
    assert!(rt; ends(alloc, 1) == Ok((None, Some(3))));
    assert!(rt; ends(alloc, 2) == Ok((Some(3), None)));
    assert!(rt; ends(alloc, 4) == Ok((None, None)));
}

/// Whether a subject of a million bytes is matched whole, one byte after the other.
fn is_long_match(alloc: Global, bytes: &[u8]) -> Result<bool, PatternFault> {
    let subject = vec![in alloc; b'a'; 1_000_000]?;
    let pattern = compile(alloc, bytes)?;
    match find(alloc, &pattern, &subject, 0)? {
        Some(found) => Ok(found.start == 0 && found.end == 1_000_000),
        None => Ok(false),
    }
}

#[test]
fn a_long_subject(rt: HostRuntime) {
    for bytes in ["a*", "a-$", "(a+)a?$", "%w+", "[ab]*a*"] {
        assert!(rt; is_long_match(rt.alloc(), bytes.as_bytes()) == Ok(true));
    }
}
