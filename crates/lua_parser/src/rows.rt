//! Rows.

ghost use Rattle.std.specs.Prelude.{◌≡◌, IfOk, [], ◌∷◌};

use lanes_arena::Row;
use std::alloc::{AllocError, Global};

/// The row of this alone.
pub fn single<T: Drop>(alloc: Global, one: T) -> Result<Row<T>, AllocError>
    ensures { IfOk result (λ row. row ≡ one ∷ []) }
{
    let mut items = Vec::with_capacity(alloc, 1)?;
    items.push_reserved(one);
    Ok(Row::of(items))
}
