//! What a run holds.

use crate::stack::Stack;
use lua_meaning::Fault;
use object_store::{FuncId, State, Value};
use std::alloc::Global;

/// What a run holds: the state, one stack for all frames, the value and the fault that an answer
/// speaks of, where a goto leads (how many blocks it leaves, and the place of its label), how many
/// steps are left, the host.
#[derive(Drop)]
pub struct Machine<H> {
    pub alloc: Global,
    pub state: State,
    pub stack: Stack,
    pub value: Value,
    pub fault: Fault,
    pub leaves: u32,
    pub statement: u32,
    pub left: u64,
    pub host: H,
}

/// Where a call has its values on the stack: those of `...` from `dots` to `base`, its slots from
/// `base`, the cells of its captured locals from `cells` on; the number of its function, and the
/// line of the call expression that called it, 0 where it was none.
#[derive(Clone, Copy)]
pub struct Window {
    pub dots: usize,
    pub base: usize,
    pub size: usize,
    pub cells: usize,
    pub me: FuncId,
    pub from: u32,
}

/// Whether a part did its work, or failed.
#[derive(Clone, Copy)]
pub enum Done {
    Well,
    Failed,
}

/// What a call gave: one value, which is in `value`, or values on the stack, or a fault.
#[derive(Clone, Copy)]
pub enum Got {
    One,
    Many,
    Failed,
}

/// How a condition came out.
#[derive(Clone, Copy)]
pub enum Test {
    Yes,
    No,
    Failed,
}

/// How a statement ended: with the next one, by `break`, by a goto, with one value, with the values
/// above the window, or with a fault.
#[derive(Clone, Copy)]
pub enum FlowTag {
    Goes,
    Breaks,
    Jumps,
    ReturnsOne,
    ReturnsMany,
    Fails,
}
