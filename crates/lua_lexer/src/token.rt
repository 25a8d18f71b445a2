//! The bytes of one token.

ghost use Rattle.std.specs.Prelude.{drop, IfOk};
ghost use Rattle.lua_lexer.specs.Tokens.{SpelledAt};

use crate::spelling::spelling;
use crate::stop::Stop;
use lanes_arena::{Bytes, Memory};
use std::alloc::Global;

/// The bytes of the token that stands at this offset of a script, or none where no token does, as
/// at its end and past it. They are shared with the script. The only refusal is want of memory.
#[tactic(auto, using(crate::proofs::Shown::shown_rules))]
pub fn token_bytes(alloc: Global, script: &Bytes, at: usize) -> Result<Option<Bytes>, Memory>
    ensures { IfOk result (λ text. SpelledAt (drop at script.now) text) }
{
    let all = script.as_slice();
    if all.len() < at {
        return Ok(None);
    }
    let (_, here) = all.split_at(at);
    let (what, rest) = match spelling(alloc, script, here) {
        Ok((what, rest)) => (what, rest),
        Err(Stop::Memory) => return Err(Memory),
        Err(Stop::At(_, _)) => return Ok(None),
    };
    if what.is_end() {
        return Ok(None);
    }
    Ok(Some(script.part(at, all.len() - rest.len())?))
}
