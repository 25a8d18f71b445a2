//! The match that is preferred at a place, by going back from one way of an item to the next.
ghost use Rattle.std.specs.Prelude.{◌≡◌, ◌≤◌, ◌+◌, ℕ, length, map, slice_get, slice_set};
ghost use Rattle.std.specs.Bool.{OnTrue};
ghost use Rattle.lua_pattern.specs.Matches as spec;
ghost use Rattle.lua_pattern.specs.View.{Finds};
ghost use Rattle.lua_pattern.specs.declared.item.Item.TheVariants as item;

use crate::{Bracket, Capture, Item, Repeat, Single};

/// The capture of this number, where there is one.
fn get(captures: &[Capture], number: usize) -> Option<Capture>
    ensures { result ≡ slice_get captures.now number }
{
    captures.get(number).copied()
}

/// Sets the capture of this number, where there is one.
fn put(captures: &mut [Capture], number: usize, capture: Capture)
    ensures { captures.new ≡ slice_set captures.old number capture }
{
    if number < captures.len() {
        captures[number] = capture;
    }
}

/// What is noted of a capture at its bracket, beside what was noted before.
fn noted(bracket: Bracket, before: Option<Capture>, at: usize) -> Capture
    ensures { result ≡ spec.noted bracket before at }
{
    match bracket {
        Bracket::Open => Capture::Span(at, at),
        Bracket::Close => match before {
            Some(Capture::Span(start, _)) => Capture::Span(start, at),
            Some(Capture::Position(start)) => Capture::Span(start, at),
            None => Capture::Span(0, at),
        },
        Bracket::Position => Capture::Position(at),
    }
}

/// Whether the items match at the place, and where the match that is preferred ends. Without one
/// the captures are as before. It calls itself once for each repeated item and each bracket.
#[cycle(matching)]
pub fn best(
    items: &[Item],
    subject: &[u8],
    at: usize,
    captures: &mut [Capture],
    end: &mut usize,
) -> bool
    requires { at ≤ length subject.now }
    ensures value { Finds (spec.best items.now subject.now at captures.old)
        result captures.old captures.new end.new }
    ensures bound { OnTrue result ((at ≤ end.new) × (end.new ≤ length subject.now)) }
{
    let mut left = items;
    let mut place = at;
    while let Some((item, rest)) = left.split_first() {
        match item {
            Item::Step(step) => match step.end(subject, place, captures) {
                Some(after) => place = after,
                None => return false,
            },
            Item::Repeated(single, repeat) => {
                return repeated(single, *repeat, rest, subject, place, captures, end);
            }
            Item::Mark(bracket, number) => {
                return marked(*bracket, *number, rest, subject, place, captures, end);
            }
        }
        left = rest;
    }
    *end = place;
    true
}

/// The same for the items behind a repeated one.
#[cycle(matching)]
fn repeated(
    single: &Single,
    repeat: Repeat,
    rest: &[Item],
    subject: &[u8],
    at: usize,
    captures: &mut [Capture],
    end: &mut usize,
) -> bool
    requires { at ≤ length subject.now }
    ensures value { Finds (spec.best_of rest.now subject.now
        (spec.ways (item.Repeated single.now repeat) subject.now at captures.old))
        result captures.old captures.new end.new }
    ensures bound { OnTrue result ((at ≤ end.new) × (end.new ≤ length subject.now)) }
{
    match repeat {
        Repeat::Longest => {
            let run = single.run(&subject[at..]);
            longest(rest, subject, at, run + 1, captures, end)
        }
        Repeat::OnceOrMore => {
            let run = single.run(&subject[at..]);
            longest(rest, subject, at + 1, run, captures, end)
        }
        Repeat::Shortest => shortest(single, rest, subject, at, captures, end),
        Repeat::Optional => {
            let count = if at < subject.len() && single.admits(subject[at]) {
                2
            } else {
                1
            };
            longest(rest, subject, at, count, captures, end)
        }
    }
}

/// The same for items at so many places from `least` on, of which the last is preferred.
#[cycle(matching)]
fn longest(
    rest: &[Item],
    subject: &[u8],
    least: usize,
    count: usize,
    captures: &mut [Capture],
    end: &mut usize,
) -> bool
    requires { least + count ≤ length subject.now + 1 }
    ensures value { Finds (spec.best_of rest.now subject.now
        (map (spec.ending captures.old) (spec.descending least count)))
        result captures.old captures.new end.new }
    ensures bound { OnTrue result ((least ≤ end.new) × (end.new ≤ length subject.now)) }
{
    let mut untried = count;
    while untried > 0 {
        untried -= 1;
        if best(rest, subject, least + untried, captures, end) {
            return true;
        }
    }
    false
}

/// The same for items behind as few bytes as possible that the single item matches.
#[cycle(matching)]
fn shortest(
    single: &Single,
    rest: &[Item],
    subject: &[u8],
    at: usize,
    captures: &mut [Capture],
    end: &mut usize,
) -> bool
    requires { at ≤ length subject.now }
    ensures value { Finds (spec.best_of rest.now subject.now
        (spec.ways (item.Repeated single.now Repeat.Shortest) subject.now at captures.old))
        result captures.old captures.new end.new }
    ensures bound { OnTrue result ((at ≤ end.new) × (end.new ≤ length subject.now)) }
{
    let mut place = at;
    'places: loop {
        if best(rest, subject, place, captures, end) {
            return true;
        }
        if place == subject.len() {
            return false;
        }
        if !single.admits(subject[place]) {
            return false;
        }
        place += 1;
    }
}

/// The same for items behind a bracket of a capture.
#[cycle(matching)]
fn marked(
    bracket: Bracket,
    number: usize,
    rest: &[Item],
    subject: &[u8],
    at: usize,
    captures: &mut [Capture],
    end: &mut usize,
) -> bool
    requires { at ≤ length subject.now }
    ensures value { Finds (spec.best_of rest.now subject.now
        (spec.ways (item.Mark bracket number) subject.now at captures.old))
        result captures.old captures.new end.new }
    ensures bound { OnTrue result ((at ≤ end.new) × (end.new ≤ length subject.now)) }
{
    let before = get(captures, number);
    put(captures, number, noted(bracket, before, at));
    if best(rest, subject, at, captures, end) {
        return true;
    }
    if let Some(capture) = before {
        put(captures, number, capture);
    }
    false
}
