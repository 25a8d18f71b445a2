//! The walk through a graph that numbers its objects.
ghost use Rattle.std.specs.Prelude.{◌≡◌, ◌<◌, ◌≤◌, ◌+◌, ◌^◌, ◌++◌, ◌∷◌, [], None, OnOk, OnErr, IfOk, length, filter, map};
ghost use Rattle.graph_copy.specs.Graph.{graph_of};
ghost use Rattle.graph_copy.specs.Walked.{IsWalked};
ghost use Rattle.graph_copy.specs.Search.{seen_of};

use crate::object::{Object, Target, target_of};
use indexmap::IndexSet;
use lanes_arena::Memory;
use object_store::{Function, State, Table, TableId, Value};
use std::alloc::Global;

/// The most objects of one parcel.
pub const MOST_NODES: usize = 1_048_576;

/// More pairs than this no table has.
const MOST_PAIRS: usize = 1 << 62;

/// Through which edge an object was met first: the place of the edge, and what the edge goes out
/// of, 0 for the roots and else one more than the number of an object.
#[derive(Clone, Copy)]
pub struct Origin {
    pub source: usize,
    pub place: usize,
}

/// What a walk has met so far: the objects in order, through which edge each was met first, and the
/// first edge to a lane handle.
#[derive(Drop)]
pub struct Walk {
    pub found: IndexSet<Object>,
    pub origins: Vec<Origin>,
    pub lane: Option<Origin>,
}

impl Walk {
    ghost use Rattle.object_store.specs.Pairs.{is_live};
    ghost use Rattle.graph_copy.specs.Graph.{target_of as target};
    ghost use Rattle.graph_copy.specs.Search.{met_below, met_all, pair_targets, cell_targets, meta_targets, table_targets, object_targets};
    ghost use Rattle.object_store.specs.Table.{contents_of};

    /// Takes in what an edge leads to. Once there are too many objects nothing is taken in.
    #[inline]
    fn visit(&mut self, source: usize, place: usize, target: Target) -> Result<(), Memory>
        ensures { OnOk result (seen_of self.new
            ≡ met_below MOST_NODES (seen_of self.old)
            (record { source = source; place = place }) target) }
    {
        if self.found.len() > MOST_NODES {
            return Ok(());
        }
        let origin = Origin { source, place };
        match target {
            Target::Plain => {}
            Target::Lane => {
                if self.lane.is_none() {
                    self.lane = Some(origin);
                }
            }
            Target::Object(object) => {
                let (_, is_new) = self.found.insert_full(object)?;
                if is_new {
                    self.origins.push(origin)?;
                }
            }
        }
        Ok(())
    }

    /// Takes in the roots.
    fn visit_roots(&mut self, roots: &[Value]) -> Result<(), Memory>
        ensures { OnOk result (seen_of self.new
            ≡ met_all MOST_NODES (seen_of self.old) 0 0 (map target roots.now)) }
    {
        for (place, root) in roots.iter().enumerate() {
            self.visit(0, place, target_of(*root))?;
        }
        Ok(())
    }

    /// Takes in the cells of a function.
    fn visit_function(&mut self, source: usize, function: &Function) -> Result<(), Memory>
        ensures { OnOk result (seen_of self.new
            ≡ met_all MOST_NODES (seen_of self.old) source 0 (cell_targets function.now.cells)) }
    {
        for (place, cell) in function.cells.as_slice().iter().enumerate() {
            self.visit(source, place, Target::Object(Object::Cell(*cell)))?;
        }
        Ok(())
    }

    /// Takes in the key and the value of a pair, where it is live, and answers the next place.
    fn visit_pair(
        &mut self,
        source: usize,
        place: usize,
        key: Value,
        value: Value,
    ) -> Result<usize, Memory>
        requires { place + 2 < 2 ^ 64 }
        ensures seen { OnOk result (seen_of self.new
            ≡ met_all MOST_NODES (seen_of self.old) source place
            (pair_targets (filter is_live ((key, value) ∷ [])))) }
        ensures place { IfOk result (λ next. next
            ≡ place + length (pair_targets (filter is_live ((key, value) ∷ [])))) }
    {
        if value.is_nil() {
            return Ok(place);
        }
        self.visit(source, place, target_of(key))?;
        self.visit(source, place + 1, target_of(value))?;
        Ok(place + 2)
    }

    /// Takes in a metatable that is not the globals table.
    fn visit_meta(
        &mut self,
        source: usize,
        place: usize,
        meta: Option<TableId>,
    ) -> Result<(), Memory>
        ensures { OnOk result (seen_of self.new
            ≡ met_all MOST_NODES (seen_of self.old) source place (meta_targets meta)) }
    {
        match meta {
            Some(id) => {
                if id.number() == 0 {
                    return Ok(());
                }
                self.visit(source, place, Target::Object(Object::Table(id)))
            }
            None => Ok(()),
        }
    }

    /// Takes in the pairs of a table and its metatable.
    fn visit_table(&mut self, source: usize, table: &Table) -> Result<(), Memory>
        ensures { OnOk result (seen_of self.new
            ≡ met_all MOST_NODES (seen_of self.old) source 0
            (table_targets (contents_of table.now))) }
    {
        let len = table.len();
        if len > MOST_PAIRS {
            return Err(Memory);
        }
        let mut place = 0;
        for i in 0..len {
            let (key, value) = table.pair(i).unwrap();
            place = self.visit_pair(source, place, key, value)?;
        }
        self.visit_meta(source, place, table.meta())
    }

    /// Takes in what the edges of an object lead to. An object that isn't there has none.
    fn expand(&mut self, state: &State, source: usize, object: Object) -> Result<(), Memory>
        ensures { OnOk result (seen_of self.new
            ≡ met_all MOST_NODES (seen_of self.old) source 0
            (object_targets state.now.heap object)) }
    {
        match object {
            Object::Table(id) => match state.table_of(id) {
                Some(table) => self.visit_table(source, table),
                None => Ok(()),
            },
            Object::Function(id) => match state.function_of(id) {
                Some(function) => self.visit_function(source, function),
                None => Ok(()),
            },
            Object::Cell(id) => match state.cell_of(id) {
                Some(cell) => self.visit(source, 0, target_of(cell.content)),
                None => Ok(()),
            },
        }
    }
}

/// Walks through all that the roots reach, and gives up once it found more objects than a parcel
/// may have.
pub fn walk_from(alloc: Global, state: &State, roots: &[Value]) -> Result<Walk, Memory>
    ensures { IfOk result (λ walk. IsWalked (graph_of state.now.heap state.now.texts roots.now)
        MOST_NODES (seen_of walk)) }
{
    let mut walk = Walk {
        found: IndexSet::new(alloc),
        origins: Vec::new(alloc),
        lane: None,
    };
    walk.visit_roots(roots)?;
    let mut next = 0;
    while next < walk.found.len() && walk.found.len() <= MOST_NODES {
        let object = *walk.found.get_index(next).unwrap();
        next += 1;
        walk.expand(state, next, object)?;
    }
    Ok(walk)
}
