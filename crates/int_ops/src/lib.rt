//! Whole numbers of 64 bits: arithmetic that wraps, quotients that are floors, shifts and bits, and
//! the texts that numbers are read from and written as (Lua manual, sections 3.4.1 to 3.4.3).
#![tactic(auto)]

mod arithmetic;
mod bits;
mod digits;
mod division;
mod reading;
mod shifts;
mod text;

pub use arithmetic::{add, mul, neg, sub};
pub use bits::{bit_and, bit_not, bit_or, bit_xor};
pub use division::{ZeroDivisor, floor_div, floor_law, floor_mod};
pub use reading::{read_in_base, read_integer};
pub use shifts::{shift_left, shift_right};
pub use text::text_of;
