//! Statements other than blocks, loops and branches, and statements by their form, over the
//! functions of the level below (Lua 5.4 manual, section 3.3).
#![tactic(auto)]

/// Goes on where a part did its work.
macro_rules! well {
    ($part:expr) => {
        match $part {
            Done::Well => {}
            Done::Failed => return Done::Failed,
        }
    };
}

mod assignments;
mod declarations;
mod iterators;
mod returns;
mod statements;
mod stores;
mod targets;

pub use assignments::assign;
pub use declarations::{local, local_function};
pub use iterators::generic_for;
pub use returns::give_back;
pub use statements::stmt_on;
