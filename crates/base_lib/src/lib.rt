//! The base library and math.
#![tactic(auto)]

mod arguments;
mod changes;
mod dispatch;
mod functions;
mod given;
mod metatables;
mod numbers;
mod open;
mod refusal;
mod select;
mod shown;
mod tables;

pub use dispatch::call;
pub use functions::BaseFn;
pub use given::Given;
pub use open::{BASE, MATH, open_libs};
pub use shown::{library_name, push_shown};
