//! The words of the command line.
ghost use Rattle.std.specs.Prelude.{◌≡◌, ◌∷◌, [], length, map, string_bytes, IfOk, MatchOption, ◌≢◌};

use lanes_arena::Memory;
use std::alloc::Global;

/// The word that names the script, where the words are accepted: exactly one word, which stands for
/// a file, or for standard input where it is `-`. The only refusal is want of memory.
pub fn script_word(alloc: Global, words: &[String]) -> Result<Option<String>, Memory>
    ensures { IfOk result (λ word. MatchOption word (length words.now ≢ 1)
        (λ name. map string_bytes words.now ≡ string_bytes name ∷ [])) }
{
    match words {
        [word] => Ok(Some(String::from_str(alloc, word)?)),
        _ => Ok(None),
    }
}
