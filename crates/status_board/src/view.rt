//! What a seat shows. These are plain data for contracts, and no value of them is made.
use crate::status::Status;
use std::collections::LinkedList;

/// What a seat shows of its looks at its own cancel word, for one kind of cancellation.
pub struct CancelReads {
    /// How many looks gave the bit unset.
    pub unset: u64,
    /// Whether the last look gave it set.
    pub read: bool,
}

/// What a seat shows of its asks to cancel a lane, for one kind of cancellation.
pub struct CancelAsks {
    pub asked: bool,
    /// How many looks at the cancel word the first ask found, modulo 2^56.
    pub found: u64,
}

/// What a seat shows of a lane that it has: its own, or that of a seat that it took in.
pub struct LaneFacts {
    pub lane: u64,
    pub status: Status,
    /// The statuses before it, the last one first.
    pub before: LinkedList<Status>,
    /// How many looks at the status word the end found, modulo 2^56.
    pub end_found: u64,
    pub soft: CancelReads,
    pub hard: CancelReads,
    /// The number that the lane drew when no lane was left, or 0.
    pub over: u64,
}

/// What a seat shows of a number that it drew.
pub struct DrawnFacts {
    pub number: u64,
    /// How many looks at the lane's status gave no end.
    pub looks: u64,
    /// The status that the last look gave, Pending before the first.
    pub read: Status,
    pub soft: CancelAsks,
    pub hard: CancelAsks,
    /// Whether a seat was made for the lane.
    pub seated: bool,
}

/// What a seat shows: its own lane, the lanes that it has, and the numbers that it drew or that a
/// seat drew which it took in.
pub struct View {
    pub own: u64,
    pub lanes: LinkedList<LaneFacts>,
    pub drawn: LinkedList<DrawnFacts>,
}
