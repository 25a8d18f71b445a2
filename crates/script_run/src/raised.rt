//! The line that tells of an error that nothing caught.
ghost use Rattle.std.specs.Prelude.{◌≡◌, ◌++◌, codes, IfOk};
ghost use Rattle.base_lib.specs.Shown.{shown};
ghost use Rattle.script_run.specs.Running.{raised_line};

use base_lib::push_shown;
use object_store::{State, Value};
use std::alloc::{AllocError, Global};

/// The line for a value that was raised: it has the text of a string or an integer, and of another
/// value its type.
pub fn raised_line(alloc: Global, state: &State, value: Value) -> Result<Vec<u8>, AllocError>
    ensures { IfOk result (λ line. line.items ≡ raised_line state.now.texts value) }
{
    match value {
        Value::Int(_) | Value::Str(_) => text_line(alloc, state, value),
        _ => type_line(alloc, value.kind().name()),
    }
}

fn text_line(alloc: Global, state: &State, value: Value) -> Result<Vec<u8>, AllocError>
    ensures { IfOk result (λ line. line.items
        ≡ codes "lanes: " ++ shown state.now.texts value ++ codes "\n") }
{
    let mut line = b"lanes: ".to_vec(alloc)?;
    push_shown(state, value, &mut line)?;
    line.extend_from_slice(b"\n")?;
    Ok(line)
}

fn type_line(alloc: Global, name: &str) -> Result<Vec<u8>, AllocError>
    ensures { IfOk result (λ line. line.items
        ≡ codes "lanes: error object is a " ++ name.now ++ codes " value\n") }
{
    let mut line = b"lanes: error object is a ".to_vec(alloc)?;
    line.extend_from_slice(name.as_bytes())?;
    line.extend_from_slice(b" value\n")?;
    Ok(line)
}
