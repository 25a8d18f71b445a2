//! The purge of a table's dead pairs.
ghost use Rattle.std.specs.Prelude.{◌≡◌, ◌+◌, ◌≤◌, drop, filter, length, position, None, IfOk, OnOk, OnErr, ◌++◌, ◌∷◌, []};
ghost use Rattle.std.specs.List.{IsDistinct, position_or_len};
ghost use Rattle.std.specs.Map.{keys_of, lookup};
ghost use Rattle.object_store.specs.Pairs.{is_live};
ghost use Rattle.object_store.specs.Run.{joined};
ghost use Rattle.object_store.specs.Value.{value_eq, is_nil};

use crate::Value;
use crate::pairs::pair_at;
use small_map::SmallMap;
use std::alloc::{AllocError, Global};

/// The place of the first dead value.
fn first_dead(run: &[Value]) -> Option<usize>
    ensures { result ≡ position is_nil run.now }
{
    run.iter().position(|value| value.is_nil())
}

/// How many values stand before the first dead one.
fn live_prefix(run: &[Value]) -> usize
    ensures { result ≡ position_or_len is_nil run.now }
{
    first_dead(run).unwrap_or(run.len())
}

/// The live pairs from a place on, as a map of their own.
fn live_pairs(
    alloc: Global,
    run: &[Value],
    rest: &SmallMap<Value, Value>,
    from: usize,
) -> Result<SmallMap<Value, Value>, AllocError>
    requires within { from ≤ length run.now + length rest.now.entries }
    requires distinct { IsDistinct value_eq (keys_of (joined run.now rest.now.entries)) }
    ensures { IfOk result (λ live. live.entries
        ≡ filter is_live (drop from (joined run.now rest.now.entries))) }
{
    let mut live = SmallMap::new(alloc);
    let _len = rest.len();
    for i in from..run.len() + rest.len() {
        let (key, value) = pair_at(run, rest, i);
        if !value.is_nil() {
            live.add(key, value)?;
        }
    }
    Ok(live)
}

/// Removes the dead pairs, and adds the pair of a key that has none as the last one. The run keeps
/// its values up to the first dead one. All memory is taken before anything changes.
#[cold]
pub fn purge_and_add(
    run: &mut Vec<Value>,
    rest: &mut SmallMap<Value, Value>,
    key: Value,
    value: Value,
) -> Result<(), AllocError>
    requires distinct { IsDistinct value_eq (keys_of (joined run.old.items rest.old.entries)) }
    requires absent { lookup (value_eq key) (joined run.old.items rest.old.entries) ≡ None }
    ensures pairs { OnOk result (joined run.new.items rest.new.entries
        ≡ filter is_live (joined run.old.items rest.old.entries) ++ (key, value) ∷ []) }
    ensures err_run { OnErr result (run.new.items ≡ run.old.items) }
    ensures err_rest { OnErr result (rest.new.entries ≡ rest.old.entries) }
{
    let kept = live_prefix(run);
    let alloc = rest.allocator();
    let mut live = live_pairs(alloc, run, rest, kept)?;
    live.add(key, value)?;
    run.truncate(kept);
    *rest = live;
    Ok(())
}
