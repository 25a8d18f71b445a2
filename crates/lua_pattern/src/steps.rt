//! Items that match in one way at most.
ghost use Rattle.std.specs.Prelude.{◌≡◌, ◌≤◌, ◌<◌, ◌+◌, ◌++◌, ◌∷◌, length, drop, slice_get, slice_set, option_map, IfSome};
ghost use Rattle.lua_pattern.specs.Matches as spec;

use crate::{Capture, Single, Step};

/// The bytes of the subject from one place up to another, as far as they are there.
pub fn between(subject: &[u8], start: usize, end: usize) -> &[u8]
    ensures { result.now ≡ spec.between subject.now start end }
{
    let end = end.min(subject.len());
    if start < end {
        &subject[start..end]
    } else {
        &[]
    }
}

/// How many bytes there are up to the one that closes an open bracket.
#[tactic(auto, using(crate::proofs::ClosingLemmas::closing_rules))]
fn closing(opener: u8, closer: u8, bytes: &[u8]) -> Option<usize>
    ensures value { result ≡ spec.closing opener closer 1 bytes.now }
    ensures bound { IfSome result (λ n. n ≤ length bytes.now) }
{
    let mut depth: usize = 1;
    for (i, b) in bytes.iter().enumerate() {
        if *b == closer {
            if depth == 1 {
                return Some(i + 1);
            }
            depth -= 1;
        } else if *b == opener {
            depth += 1;
        }
    }
    None
}

/// How many bytes there are from an opening bracket at the front up to the one that closes it.
fn balanced(opener: u8, closer: u8, bytes: &[u8]) -> Option<usize>
    ensures value { result ≡ spec.balanced opener closer bytes.now }
    ensures bound { IfSome result (λ n. n ≤ length bytes.now) }
{
    let [first, rest @ ..] = bytes else {
        return None;
    };
    if *first != opener {
        return None;
    }
    match closing(opener, closer, rest) {
        Some(n) => Some(n + 1),
        None => None,
    }
}

/// The byte before the place, and 0 before the first.
#[tactic(auto, using(crate::proofs::Parts::byte_rules))]
fn byte_before(subject: &[u8], at: usize) -> u8
    requires { at ≤ length subject.now }
    ensures { result ≡ spec.byte_before subject.now at }
{
    if at == 0 { 0 } else { subject[at - 1] }
}

/// The byte at the place, and 0 at the end.
#[tactic(auto, using(crate::proofs::Parts::byte_rules))]
fn byte_at(subject: &[u8], at: usize) -> u8
    ensures { result ≡ spec.byte_from (drop at subject.now) }
{
    if at < subject.len() { subject[at] } else { 0 }
}

/// Whether a byte that isn't in the set stands before the place, and one that is after it. Both
/// ends of the subject count as a byte 0.
fn is_border(set: &Single, subject: &[u8], at: usize) -> bool
    requires { at ≤ length subject.now }
    ensures { result ≡ spec.is_border set.now subject.now at }
{
    !set.admits(byte_before(subject, at)) && set.admits(byte_at(subject, at))
}

/// Where the text of the capture ends that stands at the place again.
fn again(subject: &[u8], at: usize, capture: Option<Capture>) -> Option<usize>
    requires { at ≤ length subject.now }
    ensures value { result ≡ spec.again subject.now at capture }
    ensures bound { IfSome result (λ end. (at ≤ end) × (end ≤ length subject.now)) }
{
    match capture {
        Some(Capture::Span(start, end)) => {
            let text = between(subject, start, end);
            if subject[at..].starts_with(text) {
                Some(at + text.len())
            } else {
                None
            }
        }
        _ => None,
    }
}

impl Step {
    /// Where it ends, if it matches at the place.
    #[inline]
    pub fn end(&self, subject: &[u8], at: usize, captures: &[Capture]) -> Option<usize>
        requires { at ≤ length subject.now }
        ensures value { result ≡ spec.step_end self.now subject.now at captures.now }
        ensures bound { IfSome result (λ end. (at ≤ end) × (end ≤ length subject.now)) }
    {
        match self {
            Step::Once(single) => {
                if at < subject.len() && single.admits(subject[at]) {
                    Some(at + 1)
                } else {
                    None
                }
            }
            Step::Back(number) => again(subject, at, captures.get(*number).copied()),
            Step::Balanced(opener, closer) => match balanced(*opener, *closer, &subject[at..]) {
                Some(n) => Some(at + n),
                None => None,
            },
            Step::Border(set) => {
                if is_border(set, subject, at) {
                    Some(at)
                } else {
                    None
                }
            }
            Step::End => { if at == subject.len() { Some(at) } else { None } }
        }
    }
}
