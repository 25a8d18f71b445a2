//! The border of a table, kept up to date.
ghost use Rattle.std.specs.Prelude.{◌≡◌, ◌≢◌, ◌⊎◌, ◌+◌, ◌^◌, ◌<◌, ◌≤◌, pos, ℕ, length};
ghost use Rattle.object_store.specs.Pairs.{get_pair, IsFullTo, IsBorder};
ghost use Rattle.object_store.specs.Run.{joined};

use crate::Value;
use crate::pairs::value_of;
use small_map::SmallMap;

/// The border once a live value was set, from the border before.
#[inline]
pub fn raised(run: &[Value], rest: &SmallMap<Value, Value>, border: u64, key: Value) -> u64
    requires few { length run.now + length rest.now.entries ≤ 2 ^ 62 }
    requires within { border ≤ length run.now + length rest.now.entries }
    requires full { IsFullTo (joined run.now rest.now.entries) border }
    requires ends { key ≢ Value.Int (pos (border + 1))
        → get_pair (joined run.now rest.now.entries) (Value.Int (pos (border + 1))) ≡ Value.Nil }
    ensures { IsBorder (joined run.now rest.now.entries) result }
{
    if key != Value::Int((border + 1) as i64) {
        return border;
    }
    let most = (run.len() + rest.len()) as u64;
    let mut n = border;
    while n < most {
        if value_of(run, rest, Value::Int((n + 1) as i64)).is_nil() {
            return n;
        }
        n += 1;
    }
    n
}

/// The border once a key was set to `Nil`, from the border before.
#[inline]
pub fn lowered(border: u64, key: Value) -> u64
    ensures { ((result < border) × (key ≡ Value.Int (pos (result + 1)))) ⊎ ((result ≡ border)
        × ((k : ℕ)
        → k < border → key ≢ Value.Int (pos (k + 1)))) }
{
    match key {
        Value::Int(n) => {
            if n >= 1 && n as u64 <= border {
                n as u64 - 1
            } else {
                border
            }
        }
        _ => border,
    }
}
