//! The string library (Lua 5.4 manual, section 6.4).
#![tactic(auto)]

mod copies;
mod dispatch;
mod functions;
mod letters;
mod made;
mod one;
mod parts;
mod piece;
mod refusal;
mod several;

pub use copies::TEXT_LIMIT;
pub use dispatch::call;
pub use functions::StringFn;
pub use several::byte;
