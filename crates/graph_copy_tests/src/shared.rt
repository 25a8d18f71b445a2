//! A parcel that two threads read.
ghost use Rattle.std.specs.Prelude.{◌≡◌, IfOk, length};
ghost use Rattle.std.specs.Arc.{arc_value};

use lanes_arena::Memory;
use parcel::Parcel;
use std::alloc::Global;
use std::sync::Arc;
use std::thread::{Threads, join};

/// How many nodes and how many roots there are.
fn sizes(parcel: &Arc<Parcel>) -> (usize, usize)
    ensures { result
        ≡ (length (arc_value parcel.now).nodes, length (arc_value parcel.now).roots) }
{
    (parcel.nodes.as_slice().len(), parcel.roots.as_slice().len())
}

/// What two threads read of one parcel.
pub fn read_twice(
    rt: &impl Threads,
    alloc: Global,
    parcel: Parcel,
) -> Result<((usize, usize), (usize, usize)), Memory>
    ensures { IfOk result (λ r. r
        ≡ (
          (length parcel.nodes, length parcel.roots),
          (length parcel.nodes, length parcel.roots),
        )) }
{
    let mine = Arc::new(alloc, parcel)?;
    let theirs = mine.clone()?;
    Ok(join(rt, move || sizes(&theirs), || sizes(&mine)))
}
