//! `select`.
ghost use Rattle.std.specs.Prelude.{◌≡◌, codes, drop, length, pos};
ghost use Rattle.base_lib.specs.Base.{is_text, selected};
ghost use Rattle.base_lib.specs.Functions.{name_of};
ghost use Rattle.base_lib.specs.Given.{answered, Reads};

use crate::arguments::at_or_nil;
use crate::functions::BaseFn;
use crate::given::Given;
use crate::refusal::Refusal;
use lua_ops::{operand, text_at};
use object_store::{State, Value};

/// Whether the value is the string `#`.
fn is_hash(state: &State, value: Value) -> bool
    ensures { result ≡ is_text (codes "#") state.now.texts value }
{
    match value {
        Value::Str(id) => b"#".as_slice() == text_at(state, id),
        _ => false,
    }
}

/// The arguments after the first from the n-th on, from the end for a negative n.
fn selected_from(n: i64, args: &[Value]) -> Result<Given, Refusal>
    ensures { selected n (drop 1 args.now) ≡ answered (name_of BaseFn.Select) args.now result }
{
    if n > 0 {
        return Ok(Given::From(n as usize));
    }
    let back = n.unsigned_abs();
    if back > 0 && back < args.len() as u64 {
        Ok(Given::From(args.len() - back as usize))
    } else {
        Err(Refusal::BadArgument(1))
    }
}

/// How many arguments there are after the first.
fn count(args: &[Value]) -> i64
    ensures { result ≡ pos (length (drop 1 args.now)) }
{
    match args {
        [] => 0,
        [_, rest @ ..] => rest.len() as i64,
    }
}

/// `select`: the number of the other arguments for `#`, else those from the n-th on.
pub fn select(state: &State, args: &[Value]) -> Result<Given, Refusal>
    ensures { Reads state.now BaseFn.Select args.now result }
{
    let first = at_or_nil(args, 0);
    if is_hash(state, first) {
        return Ok(Given::One(Value::Int(count(args))));
    }
    match operand(state, false, first) {
        Some(n) => selected_from(n, args),
        None => Err(Refusal::BadArgument(1)),
    }
}
