//! Letters in another case, and bytes in another order.
ghost use Rattle.std.specs.Prelude.{◌≡◌, map, reverse, IfOk};
ghost use Rattle.string_lib.specs.Texts as spec;

use lanes_arena::Memory;
use std::alloc::Global;

fn lower(b: u8) -> u8
    ensures { result ≡ spec.lower b }
{
    if b'A' <= b && b <= b'Z' { b + 32 } else { b }
}

fn upper(b: u8) -> u8
    ensures { result ≡ spec.upper b }
{
    if b'a' <= b && b <= b'z' { b - 32 } else { b }
}

/// The text with its ASCII letters in lower case.
pub fn lowered(alloc: Global, text: &[u8]) -> Result<Vec<u8>, Memory>
    ensures { IfOk result (λ made. made.items ≡ map spec.lower text.now) }
{
    let mut made = Vec::with_capacity(alloc, text.len())?;
    for b in text {
        made.push(lower(*b))?;
    }
    Ok(made)
}

/// The text with its ASCII letters in upper case.
pub fn raised(alloc: Global, text: &[u8]) -> Result<Vec<u8>, Memory>
    ensures { IfOk result (λ made. made.items ≡ map spec.upper text.now) }
{
    let mut made = Vec::with_capacity(alloc, text.len())?;
    for b in text {
        made.push(upper(*b))?;
    }
    Ok(made)
}

/// The bytes of the text from the last to the first.
pub fn reversed(alloc: Global, text: &[u8]) -> Result<Vec<u8>, Memory>
    ensures { IfOk result (λ made. made.items ≡ reverse text.now) }
{
    let mut made = text.to_vec(alloc)?;
    made.reverse();
    Ok(made)
}
