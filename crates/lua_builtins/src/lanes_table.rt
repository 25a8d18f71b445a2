//! `require`, which knows the Lanes face alone (Lua 5.4 manual, section 6.3).
ghost use Rattle.std.specs.Prelude.{◌≡◌, ◌≤◌, ◌<◌, [], length, drop, codes, None, IfOk};
ghost use Rattle.std.specs.Option.{option_map};
ghost use Rattle.std.specs.Str.{bytes_eq};
ghost use Rattle.base_lib.specs.Base as base;
ghost use Rattle.lua_ops.specs.Metamethods as ops;
ghost use Rattle.lua_meaning.specs.Level.{Level, Loaded as Script};
ghost use Rattle.lua_meaning.specs.Library as spec;
ghost use Rattle.lua_machine.specs.Does.{ManyOf, world};
ghost use Rattle.lua_builtins.specs.Parts.{table_ahead};

use crate::arguments::{argument_or_nil, bad_argument};
use crate::given::give_one;
use itoa::Buffer;
use lanes_arena::{ArenaFault, Memory};
use lua_machine::{Got, Host, Loaded, Machine};
use lua_meaning::Site;
use lua_ops::piece;
use object_store::{LibId, LuaFault, Table, Value};
use std::alloc::Global;

/// The function `linda`.
const LINDA: Value = Value::Lib(LibId { number: 49 });

/// Whether the first argument names the Lanes face; none where it names nothing.
fn names_lanes<H: Host>(m: &Machine<H>, at: usize) -> Option<bool>
    requires { at ≤ length m.now.stack.values }
    ensures { result ≡ option_map (λ name. bytes_eq name (codes "lanes")) (ops.piece
        m.now.state.texts (base.argument 1 (drop at m.now.stack.values))) }
{
    let mut buffer = Buffer::new();
    match piece(&m.state, &mut buffer, argument_or_nil(m, at, 0)) {
        Some(name) => Some(name == b"lanes".as_slice()),
        None => None,
    }
}

/// An empty table with room for a pair.
fn table_of_one(alloc: Global) -> Result<Table, Memory>
    ensures { IfOk result (λ table. (table.pairs ≡ []) × (table.meta ≡ None) × (0 < table.room)) }
{
    let mut table = Table::new(alloc);
    table.reserve(1)?;
    Ok(table)
}

/// Makes the table of the Lanes face.
#[cold]
fn fill_table<H: Host>(m: &mut Machine<H>, at: usize, mut table: Table) -> Got
    requires within { at ≤ length m.old.stack.values }
    requires room { 0 < m.old.state.room.tables }
    requires one { 0 < table.room }
    requires empty { table.pairs ≡ [] }
    requires meta { table.meta ≡ None }
    ensures { (p : Script) (l : Level) (s : Site) → ManyOf H.asked (spec.lanes_made p l s
        (table_ahead (world m.old)) (world m.old)) m.old at result m.new }
{
    match m.state.intern(b"linda") {
        Ok(name) => {
            if table.set(name, LINDA).is_err() {
                m.lose();
                return Got::Failed;
            }
            let id = m.state.add_table(table);
            m.state.set_lanes_table(id);
            give_one(m, at, Value::Table(id))
        }
        Err(_) => {
            m.lose();
            Got::Failed
        }
    }
}

/// Makes the table of the Lanes face, for which there is room.
#[cold]
fn make_table<H: Host>(m: &mut Machine<H>, at: usize) -> Got
    requires within { at ≤ length m.old.stack.values }
    requires room { 0 < m.old.state.room.tables }
    ensures { (p : Script) (l : Level) (s : Site) → ManyOf H.asked (spec.lanes_made p l s
        (table_ahead (world m.old)) (world m.old)) m.old at result m.new }
{
    match table_of_one(m.alloc) {
        Ok(table) => fill_table(m, at, table),
        Err(_) => {
            m.lose();
            Got::Failed
        }
    }
}

/// The table of the Lanes face, which is made where there is none.
fn lanes_table<H: Host>(m: &mut Machine<H>, p: &Loaded, site: Site, at: usize) -> Got
    requires { at ≤ length m.old.stack.values }
    ensures { (l : Level) → ManyOf H.asked (spec.lanes_table p.now l site
        m.old.state.heap.lanes_table (world m.old)) m.old at result m.new }
{
    if let Some(id) = m.state.lanes_table() {
        return give_one(m, at, Value::Table(id));
    }
    match m.state.reserve(1, 0, 0) {
        Ok(()) => make_table(m, at),
        Err(ArenaFault::Full) => {
            m.fault_at(p, site.line, LuaFault::Full);
            Got::Failed
        }
        Err(ArenaFault::Memory) => {
            m.lose();
            Got::Failed
        }
    }
}

/// `require`.
pub fn require<H: Host>(m: &mut Machine<H>, p: &Loaded, site: Site, at: usize) -> Got
    requires { at ≤ length m.old.stack.values }
    ensures { (l : Level) → ManyOf H.asked (spec.require p.now l site (drop at m.old.stack.values)
        (world m.old)) m.old at result m.new }
{
    let Some(known) = names_lanes(m, at) else {
        bad_argument(m, p, site.line, 1, "require");
        return Got::Failed;
    };
    if known {
        return lanes_table(m, p, site, at);
    }
    m.fault_at(p, site.line, LuaFault::NoModule);
    Got::Failed
}
