//! Operators and fields, over the functions of the level below.
#![tactic(auto)]

/// Goes on where a part did its work.
macro_rules! well {
    ($part:expr) => {
        match $part {
            Done::Well => {}
            Done::Failed => return Done::Failed,
        }
    };
}

mod fields;
mod handlers;
mod integers;
mod joining;
mod operators;
mod signs;

pub use fields::{index, put, set, set_raw};
pub use handlers::{finish, finish_step, handled};
pub use integers::plain;
pub use joining::concat;
pub use operators::{arith, compare};
pub use signs::{binary, unary};
