//! The run of a script's program.
ghost use Rattle.std.specs.Prelude.{◌≡◌, ◌⊎◌, List, Result, false};
ghost use Rattle.std.specs.Arc.{arc_value};
ghost use Rattle.object_store.specs.declared.value.Value.{Value as Val};
ghost use Rattle.lua_meaning.specs.declared.fault.Fault.{Fault};
ghost use Rattle.lua_machine.specs.Does.{store_of};
ghost use Rattle.evaluator.specs.Runs.{end_of};
ghost use Rattle.plain_host.specs.Writing.{TellsFaults};
ghost use Rattle.script_run.specs.Opening.{IsOpening};
ghost use Rattle.script_run.specs.Running.{RunsProgram, ends, steps};

use crate::opening::opened;
use crate::raised::raised_line;
use evaluator::{End, Outcome, run};
use lanes_arena::Row;
use lua_program::Program;
use object_store::{FuncId, State, Value};
use outside::Sink;
use plain_host::Plain;
use std::alloc::Global;
use std::sync::Arc;

/// How many steps a lane has.
const STEPS: u64 = 9_223_372_036_854_775_807;

/// How the run of a program ended.
#[derive(Debug, Drop)]
pub enum ProgramEnd {
    /// Its main body returned.
    Returned,
    /// It raised an error that nothing caught. This is the line that says so, with its end.
    Raised(Row<u8>),
    /// Memory ran out.
    Memory,
    /// The output did not take what was printed.
    WriteFault,
    /// It made all the steps that a lane has.
    Spent,
}

/// How the run of a program ended, and its output.
#[derive(Drop)]
pub struct RanProgram<O> {
    pub end: ProgramEnd,
    pub output: O,
}

/// Runs a program as one lane alone, which writes what it prints to the output.
pub fn run_program<O: Sink>(alloc: Global, program: Program, output: O) -> RanProgram<O>
    ensures ran { RunsProgram program (O.taken output) (O.taken result.output) (O.faults output)
        (O.faults result.output) result.end
        ⊎ ((result.end ≡ ProgramEnd.Memory) × (result.output ≡ output)) }
    ensures write { TellsFaults (O.faults output) (O.faults result.output) (result.end
        ≡ ProgramEnd.WriteFault) }
{
    let Ok((state, main)) = opened(alloc) else {
        return RanProgram {
            end: ProgramEnd::Memory,
            output,
        };
    };
    match Arc::new(alloc, program) {
        Ok(program) => call_main(alloc, program, state, main, output),
        Err(_) => RanProgram {
            end: ProgramEnd::Memory,
            output,
        },
    }
}

/// Calls the function of the main body.
fn call_main<O: Sink>(
    alloc: Global,
    program: Arc<Program>,
    state: State,
    main: FuncId,
    output: O,
) -> RanProgram<O>
    requires { IsOpening (store_of state) main.number }
    ensures ran { RunsProgram (arc_value program) (O.taken output) (O.taken result.output)
        (O.faults output) (O.faults result.output) result.end }
    ensures write { TellsFaults (O.faults output) (O.faults result.output) (result.end
        ≡ ProgramEnd.WriteFault) }
{
    let host = Plain::of(alloc, output);
    let function = Value::Func(main);
    let Outcome {
        end,
        state,
        host,
        ..
    } = run(alloc, program, state, function, &[], host, STEPS);
    let Plain { output, failed, .. } = host;
    let end = ending(alloc, failed, &state, end);
    RanProgram { end, output }
}

/// How a program ends whose main body ended so.
fn ending(alloc: Global, failed: bool, state: &State, end: End) -> ProgramEnd
    ensures { (o : Result (List Val) Fault) → end ≡ end_of steps o
        → (result ≡ ends failed state.now.texts o)
        ⊎ ((failed ≡ false) × (result ≡ ProgramEnd.Memory)) }
{
    if failed {
        return ProgramEnd::WriteFault;
    }
    match end {
        End::Returned(_) => ProgramEnd::Returned,
        End::Raised(value) => match raised_line(alloc, state, value) {
            Ok(line) => ProgramEnd::Raised(Row::of(line)),
            Err(_) => ProgramEnd::Memory,
        },
        End::BudgetSpent(_) => ProgramEnd::Spent,
        End::Cancelled => ProgramEnd::Memory,
        End::Memory => ProgramEnd::Memory,
        End::WriteFault => ProgramEnd::Memory,
    }
}
