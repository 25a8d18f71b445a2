//! Byte texts and rows of values, which contracts see as plain lists; values and texts by number.
#![tactic(auto)]

mod arena;
mod bytes;
mod code;
mod id;
mod names;
mod row;

pub use arena::{Arena, ArenaFault};
pub use bytes::Bytes;
pub use code::{Code, Mark};
pub use id::Id;
pub use names::{NameId, Names};
pub use row::Row;

/// Want of memory, under the name that every crate of this project uses.
pub use std::alloc::AllocError as Memory;
