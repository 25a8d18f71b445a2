//! Finding a pattern in a subject.
ghost use Rattle.std.specs.Prelude.{◌≡◌, ◌≤◌, length, IfOk, IfSome};
ghost use Rattle.std.specs.Bool.{OnTrue};
ghost use Rattle.lua_pattern.specs.Matches.{best};
ghost use Rattle.lua_pattern.specs.View.{Finds};
ghost use Rattle.lua_pattern.specs.Found as spec;

use crate::matching::best;
use crate::{Capture, Item, Pattern};
use lanes_arena::{Memory, Row};
use std::alloc::Global;

/// A match: where it starts and ends in the subject, in bytes from 0, and its captures in order.
#[derive(Debug, Drop)]
pub struct Match {
    pub start: usize,
    pub end: usize,
    pub captures: Row<Capture>,
}

/// The captures before any bracket was met.
fn blank(alloc: Global, count: usize) -> Result<Vec<Capture>, Memory>
    ensures { IfOk result (λ captures. captures.items ≡ spec.blank count) }
{
    vec![in alloc; Capture::Span(0, 0); count]
}

/// Whether the items match at the place, and where the match that is preferred ends.
fn best_in(
    items: &[Item],
    subject: &[u8],
    at: usize,
    captures: &mut Vec<Capture>,
    end: &mut usize,
) -> bool
    requires { at ≤ length subject.now }
    ensures value { Finds (best items.now subject.now at captures.old.items)
        result captures.old.items captures.new.items end.new }
    ensures bound { OnTrue result ((at ≤ end.new) × (end.new ≤ length subject.now)) }
{
    best(items, subject, at, captures.as_mut_slice(), end)
}

/// The first match at the place in order of preference, if there is one.
pub fn matches_at(
    alloc: Global,
    pattern: &Pattern,
    subject: &[u8],
    at: usize,
) -> Result<Option<Match>, Memory>
    requires { at ≤ length subject.now }
    ensures value { IfOk result (λ match. match ≡ spec.match_at pattern.now subject.now at) }
    ensures within { IfOk result (λ match. IfSome match (λ m.
        (at ≤ m.end) × (m.end ≤ length subject.now))) }
{
    let mut captures = blank(alloc, pattern.captures)?;
    let mut end = at;
    if best_in(
        pattern.items.as_slice(),
        subject,
        at,
        &mut captures,
        &mut end,
    ) {
        Ok(Some(Match {
            start: at,
            end,
            captures: Row::of(captures),
        }))
    } else {
        Ok(None)
    }
}

/// The match of the least place from `from` on that has one. An anchored pattern is tried at `from`
/// alone.
pub fn find(
    alloc: Global,
    pattern: &Pattern,
    subject: &[u8],
    from: usize,
) -> Result<Option<Match>, Memory>
    requires { from ≤ length subject.now }
    ensures value { IfOk result (λ match. match ≡ spec.found pattern.now subject.now from) }
    ensures within { IfOk result (λ match. IfSome match (λ m.
        (from ≤ m.start) × (m.start ≤ m.end) × (m.end ≤ length subject.now))) }
{
    let mut captures = blank(alloc, pattern.captures)?;
    let items = pattern.items.as_slice();
    let mut end = from;
    let mut start = from;
    'places: loop {
        if best_in(items, subject, start, &mut captures, &mut end) {
            return Ok(Some(Match {
                start,
                end,
                captures: Row::of(captures),
            }));
        }
        if pattern.anchored {
            return Ok(None);
        }
        if start == subject.len() {
            return Ok(None);
        }
        start += 1;
    }
}
