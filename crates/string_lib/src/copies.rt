//! Copies of a text, one after the other.
ghost use Rattle.std.specs.Prelude.{◌≡◌, false, length, IfOk};
ghost use Rattle.string_lib.specs.Texts as spec;

use lanes_arena::Memory;
use std::alloc::Global;

/// The most bytes of a string.
pub const TEXT_LIMIT: usize = 67_108_864;

/// Whether so many copies of a text of this length, with a separator of this length between, have
/// more than `TEXT_LIMIT` bytes.
pub fn is_too_long(len: usize, count: u64, separator: usize) -> bool
    ensures { result ≡ spec.is_too_long len count separator }
{
    if count == 0 {
        return false;
    }
    let own = len as u128 * count as u128;
    let between = separator as u128 * (count as u128 - 1);
    let limit = TEXT_LIMIT as u128;
    own > limit || between > limit - own
}

/// So many copies of the text with the separator between them.
#[tactic(auto, using(crate::proofs::CopyLemmas::copy_rules))]
pub fn repeated(alloc: Global, text: &[u8], count: u64, separator: &[u8]) -> Result<Vec<u8>, Memory>
    requires { spec.is_too_long (length text.now) count (length separator.now) ≡ false }
    ensures { IfOk result (λ made. made.items ≡ spec.copies text.now count separator.now) }
{
    if count == 0 {
        return Ok(Vec::new(alloc));
    }
    let mut made = Vec::from_slice(alloc, text)?;
    if text.is_empty() && separator.is_empty() {
        return Ok(made);
    }
    for copy in 1..count {
        made.extend_from_slice(separator)?;
        made.extend_from_slice(text)?;
    }
    Ok(made)
}
