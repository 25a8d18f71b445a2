//! Copying object graphs between states: values and all that they reach are packed into a parcel of
//! plain data, and placed in another state as a graph of the same shape.
#![tactic(auto)]

mod marking;
mod nodes;
mod object;
mod packing;
mod walk;

pub use object::{Object, Target};
pub use packing::{CopyFault, pack};
