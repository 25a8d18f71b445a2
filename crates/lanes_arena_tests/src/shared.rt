//! Texts and rows that two threads read.
ghost use Rattle.std.specs.Prelude.{◌≡◌, IfOk, length};
ghost use Rattle.std.specs.Arc.{arc_value};

use lanes_arena::{Bytes, Memory, Row};
use std::alloc::Global;
use std::sync::Arc;
use std::thread::{Threads, join};

/// A named list, as a program holds them.
#[derive(Drop)]
pub struct Named {
    pub name: Bytes,
    pub values: Row<u64>,
}

/// How many bytes the name has, and how many values there are.
fn sizes(named: &Arc<Named>) -> (usize, usize)
    ensures { result ≡ (length (arc_value named.now).name, length (arc_value named.now).values) }
{
    (named.name.as_slice().len(), named.values.as_slice().len())
}

/// What two threads read of one value.
pub fn read_twice(
    rt: &impl Threads,
    alloc: Global,
    named: Named,
) -> Result<((usize, usize), (usize, usize)), Memory>
    ensures { IfOk result (λ r. r
        ≡ ((length named.name, length named.values), (length named.name, length named.values))) }
{
    let mine = Arc::new(alloc, named)?;
    let theirs = mine.clone()?;
    Ok(join(rt, move || sizes(&theirs), || sizes(&mine)))
}
