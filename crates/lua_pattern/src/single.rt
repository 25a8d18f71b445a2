//! Single items: those that match one byte.
ghost use Rattle.std.specs.Prelude.{◌≡◌, ◌≤◌, length};
ghost use Rattle.lua_pattern.specs.Singles as spec;

use crate::Class;
use lanes_arena::Row;

/// What a set is made of.
#[derive(Clone, Copy)]
pub enum Part {
    Byte(u8),
    /// The bytes from the first to the second, both among them.
    Range(u8, u8),
    In(Class),
    NotIn(Class),
}

/// A single item.
#[derive(Drop)]
pub enum Single {
    /// `.`
    Any,
    /// A byte or a class.
    Of(Part),
    /// `[...]`
    Set(Row<Part>),
    /// `[^...]`
    NotSet(Row<Part>),
}

impl Part {
    #[inline]
    fn has(self, b: u8) -> bool
        ensures { result ≡ spec.has self b }
    {
        match self {
            Part::Byte(own) => own == b,
            Part::Range(first, last) => first <= b && b <= last,
            Part::In(class) => class.has(b),
            Part::NotIn(class) => !class.has(b),
        }
    }
}

fn any_has(parts: &[Part], b: u8) -> bool
    ensures { result ≡ spec.any_has parts.now b }
{
    parts.iter().any(|part| part.has(b))
}

impl Single {
    /// Whether it matches the byte.
    #[inline]
    pub fn admits(&self, b: u8) -> bool
        ensures { result ≡ spec.admits self.now b }
    {
        match self {
            Single::Any => true,
            Single::Of(part) => part.has(b),
            Single::Set(parts) => any_has(parts.as_slice(), b),
            Single::NotSet(parts) => !any_has(parts.as_slice(), b),
        }
    }

    /// How many bytes at the front it matches, one after the other.
    #[tactic(auto, using(crate::proofs::Runs::run_rules))]
    #[inline]
    pub fn run(&self, bytes: &[u8]) -> usize
        ensures run { result ≡ spec.run_length (spec.admits self.now) bytes.now }
        ensures bound { result ≤ length bytes.now }
    {
        match self {
            Single::Any => bytes.len(),
            Single::Of(part) => part_run(*part, bytes),
            _ => set_run(self, bytes),
        }
    }
}

/// How many bytes at the front the part has, one after the other.
#[tactic(auto, using(crate::proofs::Runs::run_rules))]
fn part_run(part: Part, bytes: &[u8]) -> usize
    ensures run { result ≡ spec.run_length (spec.has part) bytes.now }
    ensures bound { result ≤ length bytes.now }
{
    for (i, b) in bytes.iter().enumerate() {
        if !part.has(*b) {
            return i;
        }
    }
    bytes.len()
}

/// How many bytes at the front the set has, one after the other.
#[tactic(auto, using(crate::proofs::Runs::run_rules))]
fn set_run(set: &Single, bytes: &[u8]) -> usize
    ensures run { result ≡ spec.run_length (spec.admits set.now) bytes.now }
    ensures bound { result ≤ length bytes.now }
{
    for (i, b) in bytes.iter().enumerate() {
        if !set.admits(*b) {
            return i;
        }
    }
    bytes.len()
}
