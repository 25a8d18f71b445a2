//! The items of a pattern.
use crate::Single;

/// How often a repeated item is matched, and what is tried first.
#[derive(Clone, Copy)]
pub enum Repeat {
    /// `*`: any number of times, as often as possible first.
    Longest,
    /// `+`: once or more, as often as possible first.
    OnceOrMore,
    /// `-`: any number of times, as seldom as possible first.
    Shortest,
    /// `?`: once or never, once first.
    Optional,
}

/// What is noted of a capture.
#[derive(Clone, Copy)]
pub enum Bracket {
    /// `(`
    Open,
    /// `)`
    Close,
    /// `()`
    Position,
}

/// An item that matches in one way at most, and notes nothing.
#[derive(Drop)]
pub enum Step {
    /// One byte.
    Once(Single),
    /// `%1` to `%9`: the text of a capture again, which is numbered from 0.
    Back(usize),
    /// `%bxy`: from the first byte to the second that balances it.
    Balanced(u8, u8),
    /// `%f[set]`: a place after a byte that isn't in the set and before one that is.
    Border(Single),
    /// `$`: the end of the subject.
    End,
}

/// An item of a pattern.
#[derive(Drop)]
pub enum Item {
    Step(Step),
    Repeated(Single, Repeat),
    /// A bracket of the capture of this number, from 0.
    Mark(Bracket, usize),
}
