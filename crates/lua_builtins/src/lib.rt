//! The library functions as the evaluator carries them out (Lua 5.4 manual, section 6.1), over the
//! functions of the level below.
#![tactic(auto)]

/// Goes on where a part did its work.
macro_rules! well {
    ($part:expr) => {
        match $part {
            Done::Well => {}
            Done::Failed => return Got::Failed,
        }
    };
}

mod answers;
mod apart;
mod arguments;
mod asking;
mod dispatch;
mod errors;
mod given;
mod lanes_table;
mod plain;
mod printing;
mod protected;
mod table;
mod texts;
mod walks;

pub use dispatch::library_call;
pub use table::function_of;
