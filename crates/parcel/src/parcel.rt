//! Values with everything that they reach.
ghost use Rattle.std.specs.Prelude.{◌≡◌, [], ◌∷◌, IfOk};
ghost use Rattle.std.specs.Option.{option_copied};
ghost use Rattle.parcel.specs.Roots.{only_root};

use crate::leaf::Leaf;
use crate::node::Node;
use lanes_arena::{Memory, Row};
use std::alloc::Global;
use std::fmt;
use std::fmt::{Debug, Formatter, Write};

/// Values, the roots, with everything that they reach: the objects are nodes, numbered from 0. A
/// parcel belongs to no state. It is never changed, so an `Arc` of it is read in any threads.
#[derive(Drop)]
pub struct Parcel {
    pub nodes: Row<Node>,
    pub roots: Row<Leaf>,
}

impl Parcel {
    /// The parcel of one value that has no parts: the one root, and no nodes.
    pub fn of_leaf(alloc: Global, leaf: Leaf) -> Result<Parcel, Memory>
        ensures { IfOk result (λ parcel. parcel
            ≡ record { nodes = []; roots = leaf ∷ [] }) }
    {
        let mut roots = Row::new(alloc);
        roots.push(leaf)?;
        Ok(Parcel {
            nodes: Row::new(alloc),
            roots,
        })
    }

    /// The root, where there is exactly one.
    #[inline]
    pub fn only_root(&self) -> Option<&Leaf>
        ensures { option_copied result ≡ only_root self.now }
    {
        match self.roots.as_slice() {
            [root] => Some(root),
            _ => None,
        }
    }
}

impl Debug for Parcel {
    fn fmt<W: Write>(&self, f: &mut Formatter<W>) -> fmt::Result {
        f.write_str("Parcel")
    }
}
