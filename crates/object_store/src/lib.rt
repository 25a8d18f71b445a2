//! The values of a script, and the memory of one lane: its tables, functions, cells and texts.
#![tactic(auto)]

mod border;
mod change;
mod event;
mod fault;
mod fault_text;
mod kind;
mod pairs;
mod purge;
mod state;
mod table;
mod value;

pub use event::Event;
pub use fault::LuaFault;
pub use kind::Kind;
pub use state::{Cell, Function, State};
pub use table::{DeadKey, SetFault, Table};
pub use value::{CellId, Cells, FuncId, Functions, LibId, LightId, StrId, TableId, Tables, Value};
