//! The opening of the libraries: what the globals have before a script begins.
ghost use Rattle.std.specs.Prelude.{◌≡◌, ◌↔◌, ◌⊎◌, map, OnOk, IfErr, Err};
ghost use Rattle.object_store.specs.Closed.{IsClosed, Belongs};
ghost use Rattle.base_lib.specs.Open.{with_field, with_fields, function_field, math_fields, opened_base, opened_math, opened_each, opened_libs, with_base, with_cancel_test, with_math, opens, tables_of, IsFull, HasNoNumbers};

use crate::changes::set_pair;
use crate::shown::library_name;
use lanes_arena::{ArenaFault, Memory};
use object_store::{LibId, LuaFault, State, Table, TableId, Value};
use std::alloc::Global;

/// The bit of the base library.
pub const BASE: u8 = 1;

/// The bit of math.
pub const MATH: u8 = 8;

/// The base functions by number, in the order in which the globals have them: the first 20 but the
/// step function of `ipairs`.
const BASE_FUNCTIONS: [u64; 19] = [
    0, 1, 2, 3, 5, 6, 7, 8, 9, 10, 11, 12, 13, 14, 15, 16, 17, 18, 19,
];

/// The number of `cancel_test`.
const CANCEL_TEST: u64 = 52;

/// Sets a field of a table.
fn set_field(state: &mut State, id: TableId, name: &str, value: Value) -> Result<(), Memory>
    ensures ok { OnOk result (state.new ≡ with_field id.number state.old name.now value) }
    ensures closed { IsClosed state.old → Belongs state.old value → IsClosed state.new }
{
    let key = state.intern(name.as_bytes())?;
    set_pair(state, id, key, value)
}

/// Sets a library function in a table under its own name.
fn set_function(state: &mut State, id: TableId, number: u64) -> Result<(), Memory>
    ensures ok { OnOk result (
        let field = function_field number in
        state.new ≡ with_field id.number state.old field.0 field.1) }
    ensures closed { IsClosed state.old → IsClosed state.new }
{
    let function = LibId { number };
    set_field(state, id, library_name(function), Value::Lib(function))
}

/// Sets library functions in a table under their own names.
fn set_functions(state: &mut State, id: TableId, numbers: &[u64]) -> Result<(), Memory>
    ensures ok { OnOk result (
        state.new ≡ with_fields id.number state.old (map function_field numbers.now)) }
    ensures closed { IsClosed state.old → IsClosed state.new }
{
    for number in numbers {
        set_function(state, id, *number)?;
    }
    Ok(())
}

/// Sets the fields of math that are numbers, and its functions.
fn set_math(state: &mut State, id: TableId) -> Result<(), Memory>
    ensures ok { OnOk result (state.new ≡ with_fields id.number state.old math_fields) }
    ensures closed { IsClosed state.old → IsClosed state.new }
{
    set_functions(state, id, &[20, 21, 22])?;
    set_field(state, id, "maxinteger", Value::Int(i64::MAX))?;
    set_function(state, id, 23)?;
    set_field(state, id, "mininteger", Value::Int(i64::MIN))?;
    set_functions(state, id, &[24, 25, 26])
}

/// Opens the base library: the globals have `_G`, `_VERSION` and the functions afterwards. The only
/// refusal is want of memory, and the globals may then have some of these.
fn open_base(state: &mut State) -> Result<(), LuaFault>
    ensures ok { OnOk result (state.new ≡ opened_base state.old) }
    ensures closed { IsClosed state.old → IsClosed state.new }
    ensures err { IfErr result (λ fault. fault ≡ LuaFault.Memory) }
{
    let globals = state.globals();
    set_field(state, globals, "_G", Value::Table(globals))?;
    let version = state.intern(b"Lua 5.4")?;
    set_field(state, globals, "_VERSION", version)?;
    set_functions(state, globals, &BASE_FUNCTIONS)?;
    Ok(())
}

/// Opens math: a new table, which the globals have under that name afterwards. It is
/// `Full` where no table has a number left; else the only refusal is want of memory, and the table
/// may then have some of its fields.
fn open_math(alloc: Global, state: &mut State) -> Result<(), LuaFault>
    ensures ok { OnOk result (state.new ≡ opened_math state.old) }
    ensures closed { IsClosed state.old → IsClosed state.new }
    ensures full { (result ≡ Err LuaFault.Full) ↔ IsFull state.old }
    ensures err { IfErr result (λ fault. (fault ≡ LuaFault.Full) ⊎ (fault ≡ LuaFault.Memory)) }
{
    state.reserve(1, 0, 0)?;
    let math = state.add_table(Table::new(alloc));
    set_math(state, math)?;
    let globals = state.globals();
    set_field(state, globals, "math", Value::Table(math))?;
    Ok(())
}

/// Opens base, where its bit is among these.
fn open_base_in(state: &mut State, libs: u8) -> Result<(), LuaFault>
    ensures ok { OnOk result (state.new ≡ with_base libs state.old) }
    ensures closed { IsClosed state.old → IsClosed state.new }
{
    if !is_opened(libs, BASE) {
        return Ok(());
    }
    open_base(state)?;
    Ok(())
}

/// Opens math, where its bit is among these.
fn open_math_in(alloc: Global, state: &mut State, libs: u8) -> Result<(), LuaFault>
    ensures ok { OnOk result (state.new ≡ with_math libs state.old) }
    ensures closed { IsClosed state.old → IsClosed state.new }
{
    if !is_opened(libs, MATH) {
        return Ok(());
    }
    open_math(alloc, state)?;
    Ok(())
}

/// The globals have `cancel_test` afterwards.
#[tactic(auto, unfolding(crate::specs::Open::with_cancel_test))]
fn set_cancel_test(state: &mut State) -> Result<(), Memory>
    ensures ok { OnOk result (state.new ≡ with_cancel_test state.old) }
    ensures closed { IsClosed state.old → IsClosed state.new }
{
    let globals = state.globals();
    set_function(state, globals, CANCEL_TEST)?;
    Ok(())
}

/// Whether a library is to be opened.
fn is_opened(libs: u8, library: u8) -> bool
    ensures { result ≡ opens libs library }
{
    libs & library != 0
}

/// How many tables the libraries need.
fn tables_needed(libs: u8) -> usize
    ensures { result ≡ tables_of libs }
{
    if is_opened(libs, MATH) { 1 } else { 0 }
}

/// Opens the libraries of these bits.
fn open_each(alloc: Global, state: &mut State, libs: u8) -> Result<(), LuaFault>
    ensures ok { OnOk result (state.new ≡ opened_each libs state.old) }
    ensures closed { IsClosed state.old → IsClosed state.new }
{
    open_base_in(state, libs)?;
    set_cancel_test(state)?;
    open_math_in(alloc, state, libs)?;
    Ok(())
}

/// Opens the libraries of these bits, `BASE` and then `MATH` (Lua 5.4 manual, sections 6.1 and
/// 6.7). The globals have `cancel_test` afterwards, whatever the bits are; a bit of no library
/// opens nothing. It is `Full` where no table has a number left for a library, and nothing is
/// opened then; else the only refusal is want of memory, and the globals may then have some of the
/// fields.
pub fn open_libs(alloc: Global, state: &mut State, libs: u8) -> Result<(), ArenaFault>
    ensures ok { OnOk result (state.new ≡ opened_libs libs state.old) }
    ensures closed { IsClosed state.old → IsClosed state.new }
    ensures full { (result ≡ Err ArenaFault.Full) ↔ HasNoNumbers (tables_of libs) state.old }
{
    state.reserve(tables_needed(libs), 0, 0)?;
    match open_each(alloc, state, libs) {
        Ok(()) => Ok(()),
        Err(_) => Err(ArenaFault::Memory),
    }
}
