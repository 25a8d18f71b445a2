//! Marks for the metatables of a graph.
ghost use Rattle.std.specs.Prelude.{◌≡◌, ◌<◌, ◌≤◌, ◌^◌, ◌+◌, ◌-◌, length, IfSome};
ghost use Rattle.object_store.specs.Closed.{IsClosed};
ghost use Rattle.graph_copy.specs.Packing.{carried_meta as carried, meta_of as meta_in, with_meta, marked};

use crate::object::Object;
use metatable_ids::Marks;
use object_store::{State, TableId};

/// The metatable that is carried: none where it is the globals table.
pub fn carried_meta(meta: Option<TableId>) -> Option<TableId>
    ensures meta { result ≡ carried meta }
    ensures not_globals { IfSome result (λ id. 0 < id.number) }
{
    match meta {
        Some(id) => { if id.number() == 0 { None } else { Some(id) } }
        None => None,
    }
}

/// The metatable of an object that is a table.
fn meta_of(state: &State, object: Object) -> Option<TableId>
    requires { IsClosed state.now }
    ensures meta { result ≡ meta_in state.now.heap object }
    ensures not_globals { IfSome result (λ id. 0 < id.number) }
    ensures belongs { IfSome result (λ id. id.number < length state.now.heap.tables) }
{
    let Object::Table(id) = object else {
        return None;
    };
    match state.table_of(id) {
        Some(table) => carried_meta(table.meta()),
        None => None,
    }
}

/// Gives a metatable a mark, where there is one.
fn mark_meta(marks: &mut Marks, meta: Option<TableId>)
    requires not_globals { IfSome meta (λ id. 0 < id.number) }
    requires small { IfSome meta (λ id. id.number < 2 ^ 32) }
    requires room { 0 < marks.old.room }
    ensures registry { marks.new.registry ≡ with_meta marks.old.registry meta }
    ensures room { marks.old.room ≤ marks.new.room + 1 }
{
    if let Some(meta) = meta {
        marks.mark(meta);
    }
}

/// Gives each metatable of these objects a mark, in the order of the objects.
pub fn mark_metas(state: &State, marks: &mut Marks, objects: &[Object])
    requires closed { IsClosed state.now }
    requires small { length state.now.heap.tables ≤ 2 ^ 32 - 1 }
    requires room { length objects.now ≤ marks.old.room }
    ensures { marks.new.registry ≡ marked state.now.heap objects.now marks.old.registry }
{
    for object in objects {
        mark_meta(marks, meta_of(state, *object));
    }
}
