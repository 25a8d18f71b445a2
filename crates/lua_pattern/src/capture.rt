//! Captures.

/// What a capture holds: the text from one place of the subject up to another, or a place. Places
/// are counted in bytes from 0.
#[derive(Clone, Copy, Debug, PartialEq, Eq)]
pub enum Capture {
    Span(usize, usize),
    Position(usize),
}
