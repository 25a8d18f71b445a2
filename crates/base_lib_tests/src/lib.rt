//! Tests of the base library and of math: each function's answers, row by row, each fault, the
//! texts of values, and what the globals have once the libraries are open.
#![tactic(auto)]

#[cfg(test)]
mod calls;
#[cfg(test)]
mod fixture;
#[cfg(test)]
mod number_rows;
#[cfg(test)]
mod opening;
#[cfg(test)]
mod rows;
#[cfg(test)]
mod table_rows;
#[cfg(test)]
mod texts;
