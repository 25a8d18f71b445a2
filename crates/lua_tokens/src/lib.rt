//! The tokens of a Lua script, with the places where they stand.
#![tactic(auto)]

mod list;
mod place;
mod sign;
mod token;
mod word;

pub use list::TokenList;
pub use place::Place;
pub use sign::Sign;
pub use token::{Lexeme, Token};
pub use word::Word;
