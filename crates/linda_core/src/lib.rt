//! The sequential linda: keyed queues of values, the operations on them, and what each replies.
#![tactic(auto)]

mod bank;
mod call;
mod check;
mod content;
mod copies;
mod counts;
mod history;
mod item;
mod key;
mod linda;
mod prepared;
mod queue;
mod queues;
mod room;

pub use bank::{Bank, BankRoom};
pub use call::{BankCall, LindaOp, LindaReply, Side};
pub use check::{OpFault, check_op};
pub use content::{BankContent, Content, Known};
pub use history::{fifo_law, legal_law};
pub use item::Item;
pub use key::Key;
pub use linda::Linda;
pub use room::Room;

/// How an operation ended, under the name that desks give it.
pub use desk_object::Ending;
