//! The pairs of a table: a run of the values of the keys 1 to n, which stand first, and a map of
//! the pairs after them.
ghost use Rattle.std.specs.Prelude.{◌≡◌, ◌≢◌, ◌+◌, ◌<◌, ◌≤◌, true, false, pos, ℕ, drop, length, slice_get, slice_set, MatchOption, None, Some, IfSome, OnSome, IfNone, IsOk, IfOk, OnErr, OnOk, ◌++◌, ◌∷◌, []};
ghost use Rattle.std.specs.Map.{lookup, set_value, keys_of};
ghost use Rattle.std.specs.Option.{option_map};
ghost use Rattle.std.specs.List.{IsDistinct};
ghost use Rattle.object_store.specs.Pairs.{get_pair, first_live, rest_after};
ghost use Rattle.object_store.specs.Run.{joined};
ghost use Rattle.object_store.specs.Value.{value_eq};

use crate::Value;
use small_map::SmallMap;
use std::alloc::AllocError;

/// The place of a key in a run of this length.
#[inline(always)]
fn place(key: Value, len: usize) -> Option<usize>
    ensures { MatchOption result ((k : ℕ) → k < len → key ≢ Value.Int (pos (k + 1))) (λ i. (i < len)
        × (key ≡ Value.Int (pos (i + 1)))) }
{
    match key {
        Value::Int(n) => {
            if n >= 1 && n as u64 <= len as u64 {
                Some((n as u64 - 1) as usize)
            } else {
                None
            }
        }
        _ => None,
    }
}

/// Whether a run of this length goes on with the key.
#[inline(always)]
fn goes_on(key: Value, len: usize) -> bool
    ensures { result ≡ true → key ≡ Value.Int (pos (len + 1)) }
{
    match key {
        Value::Int(n) => n >= 1 && n as u64 - 1 == len as u64,
        _ => false,
    }
}

/// Puts the value at the end of the run, where the run goes on with the key and there is memory.
#[inline(always)]
fn push_next(run: &mut Vec<Value>, key: Value, value: Value) -> bool
    ensures next { result ≡ true → key ≡ Value.Int (pos (length run.old.items + 1)) }
    ensures pushed { result ≡ true → run.new.items ≡ run.old.items ++ value ∷ [] }
    ensures kept { result ≡ false → run.new.items ≡ run.old.items }
{
    if !goes_on(key, run.len()) {
        return false;
    }
    run.push(value).is_ok()
}

/// The value of a key of the map.
#[inline]
fn value_in(rest: &SmallMap<Value, Value>, key: Value) -> Value
    ensures { result ≡ get_pair rest.now.entries key }
{
    rest.get(key).unwrap_or(Value::Nil)
}

/// The value of a key.
#[inline]
pub fn value_of(run: &[Value], rest: &SmallMap<Value, Value>, key: Value) -> Value
    ensures { result ≡ get_pair (joined run.now rest.now.entries) key }
{
    match place(key, run.len()) {
        Some(i) => run[i],
        None => value_in(rest, key),
    }
}

/// The pair at a place of the list.
#[inline]
pub fn pair_at(run: &[Value], rest: &SmallMap<Value, Value>, i: usize) -> (Value, Value)
    requires { i < length run.now + length rest.now.entries }
    ensures { slice_get (joined run.now rest.now.entries) i ≡ Some result }
{
    let _len = rest.len();
    if i < run.len() {
        return (Value::Int((i as u64 + 1) as i64), run[i]);
    }
    rest.pair(i - run.len()).unwrap()
}

/// The place of a key's pair in the list.
#[inline]
pub fn place_of(run: &[Value], rest: &SmallMap<Value, Value>, key: Value) -> Option<usize>
    ensures rest_after { rest_after key (joined run.now rest.now.entries)
        ≡ option_map (λ i. drop (i + 1) (joined run.now rest.now.entries)) result }
    ensures within { IfSome result (λ i. i < length run.now + length rest.now.entries) }
{
    if let Some(i) = place(key, run.len()) {
        return Some(i);
    }
    let _len = rest.len();
    match rest.place_of(key) {
        Some(i) => Some(run.len() + i),
        None => None,
    }
}

/// The first live pair from a place on.
#[inline]
pub fn live_from(
    run: &[Value],
    rest: &SmallMap<Value, Value>,
    start: usize,
) -> Option<(Value, Value)>
    requires { start ≤ length run.now + length rest.now.entries }
    ensures { result ≡ first_live (drop start (joined run.now rest.now.entries)) }
{
    let _len = rest.len();
    for i in start..run.len() + rest.len() {
        let (key, value) = pair_at(run, rest, i);
        if !value.is_nil() {
            return Some((key, value));
        }
    }
    None
}

/// Writes a value in the pair that the key has, and answers the value before.
#[inline]
pub fn replace(
    run: &mut Vec<Value>,
    rest: &mut SmallMap<Value, Value>,
    key: Value,
    value: Value,
) -> Option<Value>
    ensures old { result ≡ lookup (value_eq key) (joined run.old.items rest.old.entries) }
    ensures present { OnSome result (joined run.new.items rest.new.entries
        ≡ set_value (value_eq key) (joined run.old.items rest.old.entries) value) }
    ensures absent_run { IfNone result (run.new.items ≡ run.old.items) }
    ensures absent_rest { IfNone result (rest.new.entries ≡ rest.old.entries) }
    ensures room { rest.new.room ≡ rest.old.room }
{
    if let Some(i) = place(key, run.len()) {
        let old = run[i];
        run[i] = value;
        return Some(old);
    }
    rest.replace(key, value)
}

/// Adds the pair of a key that has none as the last one. Where the run finds no memory to go on,
/// the pair goes into the map.
#[inline]
pub fn add(
    run: &mut Vec<Value>,
    rest: &mut SmallMap<Value, Value>,
    key: Value,
    value: Value,
) -> Result<(), AllocError>
    requires absent { lookup (value_eq key) (joined run.old.items rest.old.entries) ≡ None }
    requires distinct { IsDistinct value_eq (keys_of (joined run.old.items rest.old.entries)) }
    ensures pairs { OnOk result (joined run.new.items rest.new.entries
        ≡ joined run.old.items rest.old.entries ++ (key, value) ∷ []) }
    ensures err_run { OnErr result (run.new.items ≡ run.old.items) }
    ensures err_rest { OnErr result (rest.new.entries ≡ rest.old.entries) }
    ensures succeeds { 0 < rest.old.room → IsOk result }
    ensures room { rest.old.room ≤ rest.new.room + 1 }
{
    if !rest.is_empty() {
        return rest.add(key, value);
    }
    if push_next(run, key, value) {
        return Ok(());
    }
    rest.add(key, value)
}
