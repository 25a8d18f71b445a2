//! The state in which a script begins.
ghost use Rattle.std.specs.Prelude.{◌≡◌, length, IfOk, OnOk};
ghost use Rattle.lua_machine.specs.Does.{store_of};
ghost use Rattle.script_run.specs.Opening.{IsOpening, main_function, with_function, with_libraries};

use base_lib::{BASE, MATH, open_libs};
use lanes_arena::{Code, Row};
use object_store::{FuncId, Function, State};
use std::alloc::{AllocError, Global};

/// A new state with the libraries and the function of the main body. The only refusal is want of
/// memory.
pub fn opened(alloc: Global) -> Result<(State, FuncId), AllocError>
    ensures { IfOk result (λ r. IsOpening (store_of r.0) r.1.number) }
{
    let mut state = State::new(alloc, 0)?;
    open_libraries(alloc, &mut state)?;
    let main = add_main(alloc, &mut state)?;
    Ok((state, main))
}

fn open_libraries(alloc: Global, state: &mut State) -> Result<(), AllocError>
    ensures { OnOk result (state.new ≡ with_libraries state.old) }
{
    match open_libs(alloc, state, BASE + MATH) {
        Ok(()) => Ok(()),
        Err(_) => Err(AllocError),
    }
}

fn add_main(alloc: Global, state: &mut State) -> Result<FuncId, AllocError>
    ensures number { IfOk result (λ main. main.number ≡ length state.old.heap.functions) }
    ensures store { OnOk result (store_of state.new ≡ record {
      heap = with_function state.old.heap main_function;
      texts = state.old.texts;
    }) }
{
    match state.reserve(0, 1, 0) {
        Ok(()) => {}
        Err(_) => return Err(AllocError),
    }
    Ok(state.add_function(Function {
        code: Code::Script(0),
        cells: Row::new(alloc),
    }))
}
