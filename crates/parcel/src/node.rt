//! An object as it stands in a parcel.

use crate::leaf::Leaf;
use lanes_arena::{Code, Mark, Row};

/// A table, a function or a cell as it stands in a parcel. Objects name one another by the numbers
/// of their nodes.
#[derive(Drop)]
pub enum Node {
    /// The live pairs in their order, the node of the metatable, and the mark by which states know
    /// this table, where it has been a metatable.
    Table {
        pairs: Row<(Leaf, Leaf)>,
        meta: Option<u32>,
        mark: Option<Mark>,
    },
    /// What the function runs, and the nodes of its cells.
    Function {
        code: Code,
        cells: Row<u32>,
    },
    /// A variable that functions share.
    Cell {
        content: Leaf,
    },
}
