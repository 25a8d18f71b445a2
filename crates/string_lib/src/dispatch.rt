//! All functions by their names.
ghost use Rattle.std.specs.Prelude.{◌≡◌};
ghost use Rattle.object_store.specs.Closed.{IsClosed};
ghost use Rattle.string_lib.specs.Given.{Makes, IsDone};
ghost use Rattle.string_lib.specs.String.{string_step, name_of};

use crate::functions::StringFn;
use crate::made::Made;
use crate::one::{char, len, lower, rep, reverse, sub, upper};
use crate::refusal::{Refusal, fault};
use object_store::{LuaFault, State, Value};
use std::alloc::Global;

/// What the function makes, or why it refuses.
fn made(alloc: Global, state: &State, function: StringFn, args: &[Value]) -> Result<Made, Refusal>
    ensures { Makes (name_of function) (string_step state.now.texts function args.now) result }
{
    match function {
        StringFn::Char => char(alloc, state, args),
        StringFn::Len => len(state, args),
        StringFn::Lower => lower(alloc, state, args),
        StringFn::Rep => rep(alloc, state, args),
        StringFn::Reverse => reverse(alloc, state, args),
        StringFn::Sub => sub(alloc, state, args),
        StringFn::Upper => upper(alloc, state, args),
    }
}

/// Calls a function of the string library that gives one value. A missing argument or one of
/// another kind is `BadArgument` with its number from 1 and the function's name; the first bad one
/// is named. `TextTooLong` comes before anything is built, and want of memory last.
pub fn call(
    alloc: Global,
    state: &mut State,
    function: StringFn,
    args: &[Value],
) -> Result<Value, LuaFault>
    ensures done { IsDone state.old (string_step state.old.texts function args.now)
        result state.new }
    ensures closed { IsClosed state.old → IsClosed state.new }
{
    match made(alloc, state, function, args) {
        Ok(Made::Value(value)) => Ok(value),
        Ok(Made::Text(text)) => match state.intern(text.as_slice()) {
            Ok(value) => Ok(value),
            Err(_) => Err(LuaFault::Memory),
        },
        Err(why) => Err(fault(alloc, why, function.name())),
    }
}
