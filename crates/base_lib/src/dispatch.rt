//! All functions by their names.
ghost use Rattle.std.specs.Prelude.{◌≡◌, IsTrue, Err};
ghost use Rattle.base_lib.specs.Given.{step_of, takes_memory, Does, IsDone};

use crate::changes::{number_type, raw_set, set_metatable, type_name};
use crate::functions::BaseFn;
use crate::given::Given;
use crate::metatables::get_metatable;
use crate::numbers::{Best, abs, best_number, floor, to_integer, to_number, ult};
use crate::refusal::{Refusal, fault};
use crate::select::select;
use crate::tables::{ipairs, next, raw_equal, raw_get, raw_len};
use object_store::{LuaFault, State, Value};
use std::alloc::Global;

/// What the function gives, or why it refuses.
fn answer(state: &mut State, function: BaseFn, args: &[Value]) -> Result<Given, Refusal>
    ensures done { Does state.old function args.now result state.new }
    ensures memory { result ≡ Err Refusal.Memory →
        IsTrue (takes_memory state.old function args.now) }
{
    match function {
        BaseFn::GetMetatable => get_metatable(state, args),
        BaseFn::Ipairs => ipairs(state, args),
        BaseFn::Next => next(state, args),
        BaseFn::RawEqual => raw_equal(state, args),
        BaseFn::RawGet => raw_get(state, args),
        BaseFn::RawLen => raw_len(state, args),
        BaseFn::RawSet => raw_set(state, args),
        BaseFn::Select => select(state, args),
        BaseFn::SetMetatable => set_metatable(state, args),
        BaseFn::ToNumber => to_number(state, args),
        BaseFn::Type => type_name(state, args),
        BaseFn::Abs => abs(state, args),
        BaseFn::Floor => floor(state, args),
        BaseFn::Max => best_number(state, Best::Greatest, args),
        BaseFn::Min => best_number(state, Best::Least, args),
        BaseFn::ToInteger => to_integer(state, args),
        BaseFn::MathType => number_type(state, args),
        BaseFn::Ult => ult(state, args),
    }
}

/// Calls a function of the base library or of math with these arguments (Lua 5.4 manual, sections
/// 6.1 and 6.7). A missing argument or one of another kind is `BadArgument` with its number from 1
/// and the function's name; the first bad one is named. Only a call that makes a string, adds a
/// pair or names a bad argument takes memory.
pub fn call(
    alloc: Global,
    state: &mut State,
    function: BaseFn,
    args: &[Value],
) -> Result<Given, LuaFault>
    ensures done { IsDone state.old args.now
        (step_of state.old function args.now) result state.new }
    ensures memory { result ≡ Err LuaFault.Memory →
        IsTrue (takes_memory state.old function args.now) }
{
    match answer(state, function, args) {
        Ok(given) => Ok(given),
        Err(why) => Err(fault(alloc, why, function.name())),
    }
}
