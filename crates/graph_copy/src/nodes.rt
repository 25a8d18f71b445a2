//! The nodes of a parcel.
ghost use Rattle.std.specs.Prelude.{◌≡◌, ◌<◌, ◌≤◌, ◌^◌, ◌++◌, ◌∷◌, [], None, slice_index_or, map, filter, length, OnOk, IfOk};
ghost use Rattle.object_store.specs.Pairs.{is_live};
ghost use Rattle.object_store.specs.Table.{contents_of};
ghost use Rattle.graph_copy.specs.Packing.{number_in as place_in, leaf_of as leaf, leaves_of, cell_number as cell_place, table_node as packed_table, function_node as packed_function, node_of as packed_node, parcel_of as whole};

use crate::marking::carried_meta;
use crate::object::Object;
use indexmap::IndexSet;
use lanes_arena::{Bytes, Memory, Row};
use metatable_ids::Marks;
use object_store::{CellId, Function, State, StrId, Table, TableId, Value};
use parcel::{Leaf, Node, Parcel};
use std::alloc::Global;

/// The number of an object among the nodes.
#[inline]
fn number_in(nodes: &IndexSet<Object>, object: Object) -> u32
    requires { length nodes.now.keys ≤ 2 ^ 20 }
    ensures { result ≡ place_in nodes.now.keys object }
{
    let len = nodes.len();
    match nodes.get_index_of(&object) {
        Some(number) => number as u32,
        None => len as u32,
    }
}

/// The number of a cell among the nodes.
#[inline]
fn cell_number(nodes: &IndexSet<Object>, id: CellId) -> u32
    requires { length nodes.now.keys ≤ 2 ^ 20 }
    ensures { result ≡ cell_place nodes.now.keys id }
{
    number_in(nodes, Object::Cell(id))
}

/// The bytes of a string of the state, or none where it isn't there.
fn text_of(alloc: Global, state: &State, id: StrId) -> Result<Bytes, Memory>
    ensures { IfOk result (λ text. text ≡ slice_index_or state.now.texts id.number []) }
{
    match state.text_of(id) {
        Some(text) => Bytes::of(alloc, text),
        None => Bytes::from_vec(Vec::new(alloc)),
    }
}

/// A value as it stands in the parcel.
fn leaf_of(
    alloc: Global,
    state: &State,
    nodes: &IndexSet<Object>,
    value: Value,
) -> Result<Leaf, Memory>
    requires { length nodes.now.keys ≤ 2 ^ 20 }
    ensures { IfOk result (λ made. made ≡ leaf state.now.texts nodes.now.keys value) }
{
    match value {
        Value::Nil => Ok(Leaf::Nil),
        Value::False => Ok(Leaf::Bool(false)),
        Value::True => Ok(Leaf::Bool(true)),
        Value::Int(number) => Ok(Leaf::Int(number)),
        Value::Str(id) => Ok(Leaf::Text(text_of(alloc, state, id)?)),
        Value::Table(id) => {
            if id.number() == 0 {
                Ok(Leaf::Globals)
            } else {
                Ok(Leaf::Node(number_in(nodes, Object::Table(id))))
            }
        }
        Value::Func(id) => Ok(Leaf::Node(number_in(nodes, Object::Function(id)))),
        Value::Lib(id) => Ok(Leaf::Lib(id.number)),
        Value::Linda(number) => Ok(Leaf::Linda(number)),
        Value::Lane(_) => Ok(Leaf::Nil),
        Value::Light(id) => Ok(Leaf::Light(id.number)),
    }
}

/// Puts a pair at the end, where it is live.
fn push_pair(
    alloc: Global,
    state: &State,
    nodes: &IndexSet<Object>,
    pairs: &mut Vec<(Leaf, Leaf)>,
    pair: (Value, Value),
) -> Result<(), Memory>
    requires { length nodes.now.keys ≤ 2 ^ 20 }
    ensures { OnOk result (pairs.new.items ≡ pairs.old.items
        ++ map (leaves_of state.now.texts nodes.now.keys) (filter is_live (pair ∷ []))) }
{
    let (key, value) = pair;
    if value.is_nil() {
        return Ok(());
    }
    let key = leaf_of(alloc, state, nodes, key)?;
    let value = leaf_of(alloc, state, nodes, value)?;
    pairs.push((key, value))?;
    Ok(())
}

/// The live pairs of a table.
fn pairs_of(
    alloc: Global,
    state: &State,
    nodes: &IndexSet<Object>,
    table: &Table,
) -> Result<Vec<(Leaf, Leaf)>, Memory>
    requires { length nodes.now.keys ≤ 2 ^ 20 }
    ensures { IfOk result (λ pairs. pairs.items
        ≡ map (leaves_of state.now.texts nodes.now.keys) (filter is_live table.now.pairs)) }
{
    let len = table.len();
    let mut pairs = Vec::with_capacity(alloc, len)?;
    for i in 0..len {
        push_pair(alloc, state, nodes, &mut pairs, table.pair(i).unwrap())?;
    }
    Ok(pairs)
}

/// A table as a node.
fn table_node(
    alloc: Global,
    state: &State,
    marks: &Marks,
    nodes: &IndexSet<Object>,
    id: TableId,
    table: &Table,
) -> Result<Node, Memory>
    requires { length nodes.now.keys ≤ 2 ^ 20 }
    ensures { IfOk result (λ node. node
        ≡ packed_table state.now.texts marks.now.registry nodes.now.keys id
        (contents_of table.now)) }
{
    let pairs = pairs_of(alloc, state, nodes, table)?;
    let meta = match carried_meta(table.meta()) {
        Some(meta) => Some(number_in(nodes, Object::Table(meta))),
        None => None,
    };
    Ok(Node::Table {
        pairs: Row::of(pairs),
        meta,
        mark: marks.mark_of(id),
    })
}

/// A function as a node.
fn function_node(
    alloc: Global,
    nodes: &IndexSet<Object>,
    function: &Function,
) -> Result<Node, Memory>
    requires { length nodes.now.keys ≤ 2 ^ 20 }
    ensures { IfOk result (λ node. node ≡ packed_function nodes.now.keys function.now) }
{
    let ids = function.cells.as_slice();
    let mut cells = Vec::with_capacity(alloc, ids.len())?;
    for id in ids {
        cells.push(cell_number(nodes, *id))?;
    }
    Ok(Node::Function {
        code: function.code,
        cells: Row::of(cells),
    })
}

/// A node for an object that isn't there.
fn empty_node(alloc: Global) -> Node
    ensures { result ≡ Node.Table [] None None }
{
    Node::Table {
        pairs: Row::new(alloc),
        meta: None,
        mark: None,
    }
}

/// An object as a node.
fn node_of(
    alloc: Global,
    state: &State,
    marks: &Marks,
    nodes: &IndexSet<Object>,
    object: Object,
) -> Result<Node, Memory>
    requires { length nodes.now.keys ≤ 2 ^ 20 }
    ensures { IfOk result (λ node. node
        ≡ packed_node state.now.heap state.now.texts marks.now.registry nodes.now.keys object) }
{
    match object {
        Object::Table(id) => match state.table_of(id) {
            Some(table) => table_node(alloc, state, marks, nodes, id, table),
            None => Ok(empty_node(alloc)),
        },
        Object::Function(id) => match state.function_of(id) {
            Some(function) => function_node(alloc, nodes, function),
            None => Ok(empty_node(alloc)),
        },
        Object::Cell(id) => match state.cell_of(id) {
            Some(cell) => Ok(Node::Cell {
                content: leaf_of(alloc, state, nodes, cell.content)?,
            }),
            None => Ok(empty_node(alloc)),
        },
    }
}

/// The nodes in their order.
#[tactic(auto, using(crate::proofs::PackingLemmas::map_next))]
fn nodes_of(
    alloc: Global,
    state: &State,
    marks: &Marks,
    nodes: &IndexSet<Object>,
) -> Result<Vec<Node>, Memory>
    requires { length nodes.now.keys ≤ 2 ^ 20 }
    ensures { IfOk result (λ made. made.items
        ≡ map (packed_node state.now.heap state.now.texts marks.now.registry nodes.now.keys)
        nodes.now.keys) }
{
    let objects = nodes.as_slice();
    let mut made = Vec::with_capacity(alloc, objects.len())?;
    for object in objects {
        made.push(node_of(alloc, state, marks, nodes, *object)?)?;
    }
    Ok(made)
}

/// The roots.
fn roots_of(
    alloc: Global,
    state: &State,
    nodes: &IndexSet<Object>,
    roots: &[Value],
) -> Result<Vec<Leaf>, Memory>
    requires { length nodes.now.keys ≤ 2 ^ 20 }
    ensures { IfOk result (λ made. made.items
        ≡ map (leaf state.now.texts nodes.now.keys) roots.now) }
{
    let mut made = Vec::with_capacity(alloc, roots.len())?;
    for root in roots {
        made.push(leaf_of(alloc, state, nodes, *root)?)?;
    }
    Ok(made)
}

/// The parcel of these nodes, each with the mark that its table has.
pub fn parcel_of(
    alloc: Global,
    state: &State,
    marks: &Marks,
    nodes: &IndexSet<Object>,
    roots: &[Value],
) -> Result<Parcel, Memory>
    requires { length nodes.now.keys ≤ 2 ^ 20 }
    ensures { IfOk result (λ parcel. parcel
        ≡ whole state.now.heap state.now.texts marks.now.registry nodes.now.keys roots.now) }
{
    let roots = roots_of(alloc, state, nodes, roots)?;
    let nodes = nodes_of(alloc, state, marks, nodes)?;
    Ok(Parcel {
        nodes: Row::of(nodes),
        roots: Row::of(roots),
    })
}
