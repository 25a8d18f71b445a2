//! What an evaluator works on: the state, one stack of values for all frames, a value and a fault,
//! the steps that are left, and the host. Its parts are proved by themselves over the functions of
//! the level below.
#![tactic(auto)]

mod below;
mod faults;
mod host;
mod leaves;
mod loaded;
mod machine;
mod names;
mod stack;
mod steps;
mod values;

pub use below::Below;
pub use faults::with_position;
pub use host::{Host, Hosted, Ready};
pub use loaded::Loaded;
pub use machine::{Done, FlowTag, Got, Machine, Test, Window};
pub use stack::Stack;
