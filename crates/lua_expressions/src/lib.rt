//! Expressions by their form, over the functions of the level below (Lua 5.4 manual, section 3.4).
#![tactic(auto)]

/// Goes on where a part did its work.
macro_rules! well {
    ($part:expr) => {
        match $part {
            Done::Well => {}
            Done::Failed => return Done::Failed,
        }
    };
}

/// Goes on where a part of a call did its work.
macro_rules! goes {
    ($part:expr) => {
        match $part {
            Done::Well => {}
            Done::Failed => return Got::Failed,
        }
    };
}

mod calls;
mod forms;
mod names;
mod operations;

pub use calls::{called, method};
pub use forms::{expr_on, multi_on};
