//! What passes know, and what lies in a desk's slot. No value of these types is made but a `Place`.
use desk_object::{Ending, Entry};
use std::collections::LinkedList;

/// What a pass knows.
pub struct Known<C, R> {
    /// The number with which its holder makes calls.
    pub number: u64,
    /// That number, and the numbers of the passes that it took in.
    pub carried: LinkedList<u64>,
    /// The numbers that were enrolled from numbers that it carries.
    pub enrolled: LinkedList<u64>,
    /// How many numbers, at least, the desk has given.
    pub given: u64,
    /// How often its holder saw the history as it was at that moment.
    pub looks: u64,
    /// The history as it was when the holder last saw it.
    pub seen: LinkedList<Entry<C, R>>,
}

/// What the desk's rule says of a pass.
pub struct View<C, R> {
    pub known: Known<C, R>,
    /// What two passes knew that were put together, until they are compared.
    pub met: LinkedList<Known<C, R>>,
    /// Whether it has the desk's lock.
    pub busy: bool,
}

/// What lies in the desk's slot: an object of type `T`, and calls of `Q` with replies of `W`.
#[derive(Drop)]
pub enum Place<T, Q, W> {
    /// The object.
    Here(T),
    /// The object after a call, before the entry of that call.
    Turned(T, Q, Ending, W),
    /// Nothing.
    Out,
}
