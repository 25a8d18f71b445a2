//! The objects that a parcel carries.
ghost use Rattle.std.specs.Prelude.{◌≡◌};
ghost use Rattle.graph_copy.specs.Graph.{target_of as target};

use object_store::{CellId, FuncId, TableId, Value};

/// An object of a state: what a parcel carries as a node.
#[derive(Clone, Copy, PartialEq, Eq, Hash)]
pub enum Object {
    Table(TableId),
    Function(FuncId),
    Cell(CellId),
}

/// What an edge leads to. The globals table has no parts here: it stands for the globals table of
/// whichever state the copy is placed in.
#[derive(Clone, Copy)]
pub enum Target {
    /// An object that is copied.
    Object(Object),
    /// A lane handle, which can't be copied.
    Lane,
    /// A value without parts.
    Plain,
}

/// What an edge to a value leads to.
#[inline]
pub fn target_of(value: Value) -> Target
    ensures { result ≡ target value }
{
    match value {
        Value::Table(id) => {
            if id.number() == 0 {
                Target::Plain
            } else {
                Target::Object(Object::Table(id))
            }
        }
        Value::Func(id) => Target::Object(Object::Function(id)),
        Value::Lane(_) => Target::Lane,
        _ => Target::Plain,
    }
}
