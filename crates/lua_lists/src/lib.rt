//! Lists of expressions, over the functions of the level below (Lua 5.4 manual, section 3.4.12).
#![tactic(auto)]

/// Goes on where a part did its work.
macro_rules! well {
    ($part:expr) => {
        match $part {
            Done::Well => {}
            Done::Failed => return Done::Failed,
        }
    };
}

mod counted;
mod lists;

pub use counted::{VALUE_LIMIT, exactly, limited};
pub use lists::{all_values, list};
