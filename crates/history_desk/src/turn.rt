//! What the calls of a desk answer.
use desk_object::Object;
use thiserror::Error;

/// What came of a call.
#[derive(Drop)]
pub enum Turn<S: Object> {
    /// It is in the history, with this reply.
    Made(S::Reply),
    /// It was not ready, and is handed back.
    NotYet(S::Call),
}

/// Why a desk refuses.
#[derive(Clone, Copy, Debug, Drop, Error, PartialEq, Eq)]
pub enum DeskFault {
    /// The desk was closed.
    #[error("the desk was closed")]
    Closed,
    /// The history has so many entries, or so many numbers were given, and there can be no more.
    #[error("the desk can't go beyond {0}")]
    Spent(u64),
    /// Want of memory.
    #[error("not enough memory")]
    Memory,
}

/// The desk was closed before.
#[derive(Clone, Copy, Debug, Drop, Error, PartialEq, Eq)]
#[error("the desk was closed")]
pub struct Closed;
