//! The changes of a table's pairs, with the count of its dead pairs.
ghost use Rattle.std.specs.Prelude.{◌≡◌, ◌+◌, ◌^◌, ◌<◌, ◌≤◌, true, false, length, if◌then◌else◌, None, IsOk, IfOk, OnErr, OnOk, MatchResult};
ghost use Rattle.std.specs.List.{IsDistinct};
ghost use Rattle.std.specs.Map.{keys_of};
ghost use Rattle.object_store.specs.Pairs.{set_pair, has_pair, dead_count};
ghost use Rattle.object_store.specs.Run.{joined};
ghost use Rattle.object_store.specs.Table.{table_room};
ghost use Rattle.object_store.specs.Value.{value_eq, is_nil};

use crate::Value;
use crate::pairs::{add, replace};
use crate::purge::purge_and_add;
use small_map::SmallMap;
use std::alloc::AllocError;

/// The most pairs that a table may have, more than any memory holds.
pub const MOST_PAIRS: usize = 1 << 62;

/// The count of dead pairs, from the count before, once a value stands in the place of another.
#[inline]
fn recounted(dead: usize, old: Value, value: Value) -> usize
    requires there { is_nil old ≡ true → 0 < dead }
    requires small { dead ≤ 2 ^ 62 }
    ensures { result + (if is_nil old then 1 else 0) ≡ dead + (if is_nil value then 1 else 0) }
{
    match (old.is_nil(), value.is_nil()) {
        (false, true) => dead + 1,
        (true, false) => dead - 1,
        _ => dead,
    }
}

/// Sets a key to `Nil`, and answers the new count of dead pairs.
#[inline]
pub fn clear(
    run: &mut Vec<Value>,
    rest: &mut SmallMap<Value, Value>,
    dead: usize,
    key: Value,
) -> usize
    requires counted { dead ≡ dead_count (joined run.old.items rest.old.entries) }
    requires few { length (joined run.old.items rest.old.entries) ≤ 2 ^ 62 }
    ensures pairs { joined run.new.items rest.new.entries
        ≡ set_pair (joined run.old.items rest.old.entries) key
        Value.Nil }
    ensures dead { result ≡ dead_count (joined run.new.items rest.new.entries) }
    ensures few { length (joined run.new.items rest.new.entries) ≤ 2 ^ 62 }
{
    match replace(run, rest, key, Value::Nil) {
        Some(old) => recounted(dead, old, Value::Nil),
        None => dead,
    }
}

/// Sets a value that is not `Nil`, and answers the new count of dead pairs.
#[inline]
pub fn store(
    run: &mut Vec<Value>,
    rest: &mut SmallMap<Value, Value>,
    dead: usize,
    key: Value,
    value: Value,
) -> Result<usize, AllocError>
    requires live { is_nil value ≡ false }
    requires counted { dead ≡ dead_count (joined run.old.items rest.old.entries) }
    requires few { length (joined run.old.items rest.old.entries) ≤ 2 ^ 62 }
    requires distinct { IsDistinct value_eq (keys_of (joined run.old.items rest.old.entries)) }
    ensures pairs { OnOk result (joined run.new.items rest.new.entries
        ≡ set_pair (joined run.old.items rest.old.entries) key value) }
    ensures dead { IfOk result (λ n. n ≡ dead_count (joined run.new.items rest.new.entries)) }
    ensures few { OnOk result (length (joined run.new.items rest.new.entries) ≤ 2 ^ 62) }
    ensures err_run { OnErr result (run.new.items ≡ run.old.items) }
    ensures err_rest { OnErr result (rest.new.entries ≡ rest.old.entries) }
    ensures succeeds { 0 < table_room dead (length (joined run.old.items rest.old.entries))
        rest.old.room
        → IsOk result }
    ensures room { IfOk result (λ n. table_room dead (length (joined run.old.items
        rest.old.entries))
        rest.old.room ≤ table_room n (length (joined run.new.items rest.new.entries))
        rest.new.room + 1) }
    ensures absent { OnErr result (has_pair (joined run.old.items rest.old.entries) key ≡ false) }
{
    if let Some(old) = replace(run, rest, key, value) {
        return Ok(recounted(dead, old, value));
    }
    let all = run.len() + rest.len();
    if all >= MOST_PAIRS {
        return Err(AllocError);
    }
    if all - dead < dead {
        purge_and_add(run, rest, key, value)?;
        return Ok(0);
    }
    add(run, rest, key, value)?;
    Ok(dead)
}
