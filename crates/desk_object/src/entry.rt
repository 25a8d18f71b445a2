//! The entries of a history.
use crate::ending::Ending;

/// An entry of a history, in the plain data of a call and of a reply. A history exists in contracts
/// alone: no value of this type is made.
pub enum Entry<C, R> {
    /// A call that its caller made, how it ended and what was replied.
    Made {
        caller: u64,
        call: C,
        ending: Ending,
        reply: R,
    },
    /// The end of the history, and the caller that made it.
    Close {
        caller: u64,
    },
}
