//! Function bodies and whole programs.

use crate::stat::RStat;
use lanes_arena::{Bytes, Row};
use sqlite_items::Items;

/// Where a new function finds a local that it captures, in the function that makes it.
#[derive(Clone, Copy, Debug, PartialEq, Eq)]
pub enum UpFrom {
    /// A local of that function, by its slot.
    ParentCell(u16),
    /// A capture of that function, by its place.
    ParentUp(u16),
}

/// A function body: how many parameters it has, which of them inner functions name, whether it
/// takes `...`, how many slots it needs, its captures in the order in which they are first named,
/// its statements, and the line of its word `function`, which of the main body is 1.
#[derive(Drop)]
pub struct Proto {
    pub params: u16,
    pub cells: Row<bool>,
    pub vararg: bool,
    pub slots: u16,
    pub ups: Row<UpFrom>,
    pub body: Row<RStat>,
    pub line: u32,
}

/// A script whose names are bound: its name, each text of its function bodies, once, in the order
/// of the first places, and its function bodies in the order of their first tokens, with the main
/// body first. A text is a string constant, a global name, the name of a method or of a field of a
/// table constructor. The texts are dropped before the bodies: a long list that was dropped after
/// many small ones would have the allocator join those at once.
#[derive(Drop)]
pub struct Program {
    pub name: Bytes,
    pub texts: Row<Bytes>,
    pub protos: Items<Proto>,
}
