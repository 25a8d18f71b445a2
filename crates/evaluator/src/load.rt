//! The strings of a program's texts.
ghost use Rattle.std.specs.Prelude.{◌≡◌, map, IfOk, OnOk};
ghost use Rattle.lua_meaning.specs.Run.{Run, Leads};
ghost use Rattle.lua_meaning.specs.Whole.{interning, with_texts, key_of};
ghost use Rattle.lua_machine.specs.Does.{point, store_of};
ghost use Rattle.evaluator.specs.Runs.{goes_on};

use lanes_arena::Bytes;
use lua_machine::{Host, Machine};
use object_store::Value;
use std::alloc::AllocError;

/// Interns texts in order, and gives their strings by place.
pub fn load<H: Host>(m: &mut Machine<H>, texts: &[Bytes]) -> Result<Vec<Value>, AllocError>
    ensures leads { (next : Run) → Leads H.asked (point m.old) (interning texts.now (store_of
        m.old.state) next) (point m.new) (goes_on result next) }
    ensures store { OnOk result
        (store_of m.new.state ≡ with_texts (store_of m.old.state) texts.now) }
    ensures keys { IfOk result
        (λ keys. keys.items ≡ map (key_of m.new.state.texts) texts.now) }
    ensures rest { m.new ≡ record m.old { state = m.new.state } }
{
    let mut keys = Vec::new(m.alloc);
    for text in texts {
        let Ok(key) = m.state.intern(text.as_slice()) else {
            return Err(AllocError);
        };
        match keys.push(key) {
            Ok(()) => {}
            Err(_) => return Err(AllocError),
        }
    }
    Ok(keys)
}
