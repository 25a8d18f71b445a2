//! The library functions by number.

use base_lib::BaseFn;
use lanes_lib::LanesFn;

/// The library functions that call functions back, end a call with an error, or ask the host.
#[derive(Clone, Copy, Debug, PartialEq, Eq)]
pub enum Builtin {
    Assert,
    Error,
    IpairsStep,
    Pairs,
    Pcall,
    Print,
    Require,
    ToString,
    Xpcall,
}

/// A library function.
#[derive(Clone, Copy, Debug, PartialEq, Eq)]
pub enum Library {
    /// One that calls nothing back.
    Plain(BaseFn),
    /// One that the evaluator itself carries out.
    Builtin(Builtin),
    /// One of the Lanes face.
    Lanes(LanesFn),
}
