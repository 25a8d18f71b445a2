//! A whole run.
ghost use Rattle.std.specs.Prelude.{◌≡◌, ◌⊎◌, ◌++◌, [], List, Ok, Err, OnOk};
ghost use Rattle.std.specs.Arc.{arc_value};
ghost use Rattle.lua_meaning.specs.Run.{Leads, Ended, reaches};
ghost use Rattle.lua_meaning.specs.Whole.{meant};
ghost use Rattle.lua_machine.specs.Piled.{with_values};
ghost use Rattle.lua_machine.specs.Does.{many, point, store_of, world};
ghost use Rattle.evaluator.specs.Runs.{RunOf, end_of};

use crate::knot::call_at;
use crate::load::load;
use crate::outcome::{End, Outcome};
use lanes_arena::Row;
use lua_machine::{Got, Host, Hosted, Loaded, Machine, Ready, Stack};
use lua_meaning::{Fault, Site};
use lua_program::Program;
use object_store::{State, Value};
use std::alloc::{AllocError, Global};
use std::sync::Arc;

/// How many levels there are for parts within parts and calls within calls.
const LEVELS: u32 = 1000;

/// Puts values onto a stack.
fn fill(stack: &mut Stack, values: &[Value]) -> Result<(), AllocError>
    ensures { OnOk result (stack.new ≡ with_values stack.old (stack.old.values ++ values.now)) }
{
    for value in values {
        stack.push(*value)?;
    }
    Ok(())
}

/// The end of a run, by what its call gave; want of memory where the values find no room.
fn end_of<H: Host>(m: &Machine<H>, got: Got, budget: u64) -> End
    ensures { (result ≡ end_of budget (many got 0 m.now))
        ⊎ ((result ≡ End.Memory) × (vs : List Value) × (many got 0 m.now ≡ Ok vs)) }
{
    match got {
        Got::One => returned(m, &[m.value]),
        Got::Many => returned(m, m.stack.from(0)),
        Got::Failed => failed(m.fault, budget),
    }
}

/// The end of a run with these values; want of memory where they find no room.
fn returned<H: Host>(m: &Machine<H>, values: &[Value]) -> End
    ensures { (result ≡ End.Returned values.now) ⊎ (result ≡ End.Memory) }
{
    match Vec::from_slice(m.alloc, values) {
        Ok(values) => End::Returned(Row::of(values)),
        Err(_) => End::Memory,
    }
}

/// The end of a run with this fault.
fn failed(fault: Fault, budget: u64) -> End
    ensures { result ≡ end_of budget (Err fault) }
{
    match fault {
        Fault::Raised(value) => End::Raised(value),
        Fault::Spent => End::BudgetSpent(budget),
        Fault::Cancelled => End::Cancelled,
        Fault::WriteFault => End::WriteFault,
        Fault::Broken | Fault::Memory => End::Memory,
    }
}

/// Calls the function in `value`, with these arguments, in a state that gains the strings of the
/// program's texts.
fn begin<H: Host>(m: &mut Machine<H>, program: Arc<Program>, arguments: &[Value]) -> Got
    requires { m.old.stack ≡ record { values = []; cells = [] } }
    ensures { Leads H.asked (point m.old) (meant (arc_value program) (store_of m.old.state)
        m.old.value arguments.now m.old.left) (point m.new) (reaches (many result 0 m.new) Ended
        (world m.new)) }
{
    let code: &Program = &program;
    let keys = match load(m, code.texts.as_slice()) {
        Ok(keys) => keys,
        Err(_) => {
            m.lose();
            return Got::Failed;
        }
    };
    match fill(&mut m.stack, arguments) {
        Ok(()) => {}
        Err(_) => {
            m.lose();
            return Got::Failed;
        }
    }
    let loaded = Loaded::of(program, keys);
    let site = Site { line: 0, outer: 0 };
    call_at(m, &loaded, site, 0, LEVELS)
}

/// Calls a function with these arguments in a state. What the call asks, the host answers, which
/// has to be ready and is then. The call makes fewer steps than its budget. Where it ends for want
/// of memory, the state may have gained a part of what it would have.
pub fn run<R: Ready>(
    alloc: Global,
    program: Arc<Program>,
    state: State,
    function: Value,
    arguments: &[Value],
    host: R,
    budget: u64,
) -> Outcome<R>
    requires { R.ready host }
    ensures ran { RunOf R.asked (arc_value program) (store_of state) function arguments.now host
        budget result }
    ensures ready { R.ready result.host }
{
    let mut m = Machine {
        alloc,
        state,
        stack: Stack::new(alloc),
        value: function,
        fault: Fault::Memory,
        leaves: 0,
        statement: 0,
        left: budget,
        host: Hosted::of(host),
    };
    let got = begin(&mut m, program, arguments);
    let end = end_of(&m, got, budget);
    let Machine {
        state,
        left,
        host,
        ..
    } = m;
    Outcome {
        end,
        steps: budget.saturating_sub(left),
        state,
        host: host.into_inner(),
    }
}
