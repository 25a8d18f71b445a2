//! The marks of one state: by them states know one another's metatables.
#![tactic(auto)]

mod marks;

pub use marks::Marks;
