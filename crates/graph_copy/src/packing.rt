//! Packing a graph.
ghost use Rattle.std.specs.Prelude.{◌≡◌, [], ◌≤◌, ◌^◌, IfOk, OnErr, IsErr, Err};
ghost use Rattle.object_store.specs.Closed.{IsClosed};
ghost use Rattle.graph_copy.specs.Graph.{graph_of};
ghost use Rattle.graph_copy.specs.Numbering.{HasMore, HasLane};
ghost use Rattle.graph_copy.specs.Packing.{Packs};
ghost use Rattle.graph_copy.specs.Isomorphic.{Isomorphic, heap_shape, parcel_shape};

use crate::marking::mark_metas;
use crate::nodes::parcel_of;
use crate::walk::{MOST_NODES, walk_from};
use lanes_arena::{Bytes, Memory};
use metatable_ids::Marks;
use object_store::{State, Value};
use parcel::Parcel;
use std::alloc::Global;

/// Why values could not be packed.
#[derive(Drop)]
pub enum CopyFault {
    /// A lane handle is reachable, and handles of lanes can't be copied.
    LaneHandle,
    /// More than 1,048,576 objects are reachable.
    TooLarge,
    /// Want of memory.
    Memory,
}

impl From<Memory> for CopyFault {
    ghost use Rattle.std.specs.Prelude.{◌≡◌};
    ghost use Rattle.graph_copy.specs.declared.packing.CopyFault.TheVariants as CopyFault;

    ghost from_gives = { λ _ fault. fault ≡ CopyFault.Memory };

    fn from(_: Memory) -> CopyFault {
        CopyFault::Memory
    }
}

/// Packs the roots with all that they reach. A metatable that had no mark gets this state's own.
pub fn pack(
    alloc: Global,
    state: &State,
    marks: &mut Marks,
    roots: &[Value],
) -> Result<Parcel, CopyFault>
    requires closed { IsClosed state.now }
    ensures ok { IfOk result (Packs state.now.heap state.now.texts roots.now 1048576
        marks.old.registry marks.new.registry) }
    ensures isomorphic { IfOk result (λ parcel. Isomorphic
        (heap_shape state.now.heap state.now.texts roots.now) (parcel_shape parcel) []) }
    ensures too_large { result ≡ Err CopyFault.TooLarge
        → HasMore (graph_of state.now.heap state.now.texts roots.now) 1048576 }
    ensures lane_handle { result ≡ Err CopyFault.LaneHandle
        → HasLane (graph_of state.now.heap state.now.texts roots.now) 1048576 }
    ensures err { OnErr result (marks.new.registry ≡ marks.old.registry) }
{
    let walk = walk_from(alloc, state, roots)?;
    let count = walk.found.len();
    if count > MOST_NODES {
        return Err(CopyFault::TooLarge);
    }
    if walk.lane.is_some() {
        return Err(CopyFault::LaneHandle);
    }
    if state.table_ahead(0).number() > u32::MAX as u64 {
        return Err(CopyFault::Memory);
    }
    marks.reserve(count)?;
    let before = marks.count();
    mark_metas(state, marks, walk.found.as_slice());
    match parcel_of(alloc, state, marks, &walk.found, roots) {
        Ok(parcel) => Ok(parcel),
        Err(_) => {
            marks.forget(before);
            Err(CopyFault::Memory)
        }
    }
}
