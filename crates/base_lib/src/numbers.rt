//! Numbers: `tonumber` and math.
ghost use Rattle.std.specs.Prelude.{◌≡◌};
ghost use Rattle.base_lib.specs.Base.{best_of, integer_or_nil, size, small_base};
ghost use Rattle.base_lib.specs.Given.{answered, Reads};
ghost use Rattle.base_lib.specs.Functions.{better_of, name_of_best};

use crate::arguments::{at, at_or_nil, string};
use crate::functions::BaseFn;
use crate::given::Given;
use crate::refusal::Refusal;
use int_ops::{neg, read_in_base};
use lua_ops::operand;
use object_store::{State, Value};

/// The integer as a value, or `Nil` where there is none.
fn number_or_nil(n: Option<i64>) -> Value
    ensures { result ≡ integer_or_nil n }
{
    match n {
        Some(n) => Value::Int(n),
        None => Value::Nil,
    }
}

/// The base, where it is 2 to 36.
fn base_in_range(n: i64) -> Option<u32>
    ensures { result ≡ small_base n }
{
    if 2 <= n && n <= 36 {
        Some(n as u32)
    } else {
        None
    }
}

/// `tonumber`.
pub fn to_number(state: &State, args: &[Value]) -> Result<Given, Refusal>
    ensures { Reads state.now BaseFn.ToNumber args.now result }
{
    let base = at_or_nil(args, 1);
    if base.is_nil() {
        let Some(value) = at(args, 0) else {
            return Err(Refusal::BadArgument(1));
        };
        return Ok(Given::One(number_or_nil(operand(state, false, value))));
    }
    let Some(text) = string(state, at_or_nil(args, 0)) else {
        return Err(Refusal::BadArgument(1));
    };
    let Some(base) = operand(state, false, base) else {
        return Err(Refusal::BadArgument(2));
    };
    let Some(base) = base_in_range(base) else {
        return Err(Refusal::BadArgument(2));
    };
    Ok(Given::One(number_or_nil(read_in_base(text, base))))
}

/// `math.abs`.
pub fn abs(state: &State, args: &[Value]) -> Result<Given, Refusal>
    ensures { Reads state.now BaseFn.Abs args.now result }
{
    match operand(state, false, at_or_nil(args, 0)) {
        Some(n) => Ok(Given::One(Value::Int(size_of(n)))),
        None => Err(Refusal::BadArgument(1)),
    }
}

/// The size of a number, that of -2^63 being itself.
fn size_of(n: i64) -> i64
    ensures { result ≡ size n }
{
    if n < 0 { neg(n) } else { n }
}

/// `math.floor`: the integer itself.
pub fn floor(state: &State, args: &[Value]) -> Result<Given, Refusal>
    ensures { Reads state.now BaseFn.Floor args.now result }
{
    match operand(state, false, at_or_nil(args, 0)) {
        Some(n) => Ok(Given::One(Value::Int(n))),
        None => Err(Refusal::BadArgument(1)),
    }
}

/// Which of some numbers is looked for.
#[derive(Clone, Copy, Debug, PartialEq, Eq)]
pub enum Best {
    Greatest,
    Least,
}

/// The better one of two numbers, the first where they are equal.
#[inline]
fn better(best: Best, a: i64, b: i64) -> i64
    ensures { result ≡ better_of best a b }
{
    match best {
        Best::Greatest => { if a < b { b } else { a } }
        Best::Least => { if b < a { b } else { a } }
    }
}

/// `math.max` and `math.min`.
pub fn best_number(state: &State, best: Best, args: &[Value]) -> Result<Given, Refusal>
    ensures { best_of state.now.texts (name_of_best best) (better_of best) args.now
        ≡ answered (name_of_best best) args.now result }
{
    let Some(first) = operand(state, false, at_or_nil(args, 0)) else {
        return Err(Refusal::BadArgument(1));
    };
    let mut found = first;
    for (i, value) in args[1..].iter().enumerate() {
        let Some(n) = operand(state, false, *value) else {
            return Err(Refusal::BadArgument(i as u64 + 2));
        };
        found = better(best, found, n);
    }
    Ok(Given::One(Value::Int(found)))
}

/// `math.tointeger`: an integer itself, else `Nil`.
pub fn to_integer(state: &State, args: &[Value]) -> Result<Given, Refusal>
    ensures { Reads state.now BaseFn.ToInteger args.now result }
{
    let _state = state;
    match at(args, 0) {
        Some(Value::Int(n)) => Ok(Given::One(Value::Int(n))),
        Some(_) => Ok(Given::One(Value::Nil)),
        None => Err(Refusal::BadArgument(1)),
    }
}

/// `math.ult`: whether the bits of the first number are less than those of the second.
pub fn ult(state: &State, args: &[Value]) -> Result<Given, Refusal>
    ensures { Reads state.now BaseFn.Ult args.now result }
{
    let Some(a) = operand(state, false, at_or_nil(args, 0)) else {
        return Err(Refusal::BadArgument(1));
    };
    let Some(b) = operand(state, false, at_or_nil(args, 1)) else {
        return Err(Refusal::BadArgument(2));
    };
    Ok(Given::One(Value::from_bool(a.cast_unsigned() < b.cast_unsigned())))
}
