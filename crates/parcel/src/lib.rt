//! A parcel: values with everything that they reach, packed as plain data that threads share.
#![tactic(auto)]

mod leaf;
mod node;
mod parcel;

pub use leaf::Leaf;
pub use node::Node;
pub use parcel::Parcel;
