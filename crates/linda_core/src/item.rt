//! The values that lindas carry.
ghost use Rattle.std.specs.Prelude.{◌≡◌, IfOk};
ghost use Rattle.std.specs.Option.{option_copied};
ghost use Rattle.parcel.specs.Roots.{only_root};
ghost use Rattle.linda_core.specs.Items.{leaf_item};

use lanes_arena::Memory;
use parcel::{Leaf, Parcel};
use std::alloc::Global;
use std::marker::Model;
use std::sync::Arc;

/// A value on its way through a linda: a parcel, which is shared and never changed. Contracts see
/// the parcel.
#[derive(Drop)]
pub struct Item {
    parcel: Arc<Parcel>,
}

impl Model for Item {
    ghost use Rattle.parcel.specs.declared.parcel.Parcel.{Parcel};
    ghost use Rattle.std.specs.Arc.{arc_value};

    ghost Value = { Parcel };

    ghost view = { λ item. arc_value item.parcel };
}

impl Item {
    /// The item of this parcel. The only refusal is want of memory.
    pub fn of(alloc: Global, parcel: Parcel) -> Result<Item, Memory>
        ensures { IfOk result (λ item. item ≡ parcel) }
    {
        match Arc::new(alloc, parcel) {
            Ok(parcel) => Ok(Item { parcel }),
            Err(_) => Err(Memory),
        }
    }

    /// The item of one value that has no parts. The only refusal is want of memory.
    pub fn of_leaf(alloc: Global, leaf: Leaf) -> Result<Item, Memory>
        ensures { IfOk result (λ item. item ≡ leaf_item leaf) }
    {
        let parcel = Parcel::of_leaf(alloc, leaf)?;
        Item::of(alloc, parcel)
    }

    /// The parcel.
    pub fn parcel(&self) -> &Parcel
        ensures { result.now ≡ self.now }
    {
        &self.parcel
    }

    /// The root of the parcel, where there is exactly one. An item of one value without parts has
    /// that value as its root.
    pub fn only_root(&self) -> Option<&Leaf>
        ensures { option_copied result ≡ only_root self.now }
    {
        self.parcel().only_root()
    }

    /// A second item of the same parcel, which it shares with this one. It takes no memory; the
    /// only refusal is of more than 2^63 shares.
    pub fn copy(&self) -> Result<Item, Memory>
        ensures { IfOk result (λ item. item ≡ self.now) }
    {
        Ok(Item {
            parcel: Arc::try_clone(&self.parcel)?,
        })
    }
}
