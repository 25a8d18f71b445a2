//! The top call: its status, its output and its line on the errors.
ghost use Rattle.std.specs.Prelude.{◌≡◌, ◌≢◌, ◌⊎◌, ◌↔◌, length, string_bytes, IfSome, IsNone};
ghost use Rattle.script_run.specs.declared.script.ProgramEnd.TheVariants as program;
ghost use Rattle.plain_host.specs.Writing.{TellsFaults, Told};
ghost use Rattle.lanes_program.specs.Finish.{Finishes, RunsScript};
ghost use Rattle.lanes_program.specs.Refusals.{IsRefused, refusal_line, script_name};
ghost use Rattle.lanes_program.specs.Status.{name_of, program_line, program_status, status_line, status_of, IsOwnStatus, IsStatus};

use crate::refusal::{Refusal, refusal_line, script_name};
use crate::run::{End, run_script};
use outside::{Sink, Source};
use plain_host::tell;
use script_run::ProgramEnd;
use std::alloc::Global;

/// How a run ended: its exit status, and the output that was handed in.
#[derive(Drop)]
pub struct Finished<O> {
    pub status: u8,
    pub output: Option<O>,
}

/// Runs the program on its words: reads the script that `input` gives, runs it, writes what it
/// prints to `output` and the status's line to `errors`.
///
/// Status 0: the script ran. 1: it raised an error that nothing caught. 2: there is not exactly one
/// word. 3: the script is refused. 4: want of memory. 5: a read failed. 6: a write to the output
/// failed. 7: the script made all the steps that a lane has.
pub fn run_lanes<I: Source, O: Sink, E: Sink>(
    alloc: Global,
    words: &[String],
    input: &mut I,
    output: O,
    errors: &mut E,
) -> Finished<O>
    ensures known { IsStatus result.status }
    ensures there { IsNone result.output → result.status ≡ 4 }

    // Each of these statuses comes exactly where its cause holds.
    ensures words { (result.status ≡ 2) ↔ (length words.now ≢ 1) }
    ensures read { TellsFaults (I.faults input.old) (I.faults input.new) (result.status ≡ 5) }
    ensures write { IfSome result.output
        (λ o. TellsFaults (O.faults output) (O.faults o) (result.status ≡ 6)) }
    ensures refused { result.status ≡ 3 → (refusal : Refusal)
        × IsRefused (I.left input.old) (I.left input.new) refusal
        × Told (E.faults errors.old) (E.faults errors.new) (E.taken errors.old) (E.taken errors.new)
        (refusal_line (name_of string_bytes words.now) refusal) }

    // The script's program ran: what it asked, was answered and ended with is what it means.
    ensures ran { IsOwnStatus result.status → IfSome result.output
        (λ o. Finishes (I.left input.old) (I.left input.new) (name_of string_bytes words.now)
        (O.taken output) (O.taken o) (O.faults output) (O.faults o) (E.taken errors.old)
        (E.taken errors.new) (E.faults errors.old) (E.faults errors.new) result.status) }
    ensures early { result.status ≡ 4 → IfSome result.output (λ o. (o ≡ output)
        ⊎ RunsScript (I.left input.old) (I.left input.new) (name_of string_bytes words.now)
        (O.taken output) (O.taken o) (O.faults output) (O.faults o) program.Memory) }
    ensures kept { (result.status ≡ 2) ⊎ (result.status ≡ 3) ⊎ (result.status ≡ 5)
        → IfSome result.output (λ o. o ≡ output) }

    // With status 2 nothing is read.
    ensures untouched { result.status ≡ 2 → input.new ≡ input.old }

    // The line on the errors.
    ensures told { (result.status ≡ 2) ⊎ (result.status ≡ 4) ⊎ (result.status ≡ 5)
        → Told (E.faults errors.old) (E.faults errors.new) (E.taken errors.old) (E.taken errors.new)
        (status_line result.status) }
{
    match words {
        [word] => {
            let ended = run_script(alloc, input, script_name(word), output);
            let status = report(alloc, ended.end, word, errors);
            Finished {
                status,
                output: Some(ended.output),
            }
        }
        _ => {
            tell(b"lanes: bad arguments\n", errors);
            Finished {
                status: 2,
                output: Some(output),
            }
        }
    }
}

// Writes the line of an end, and answers its status. A refusal whose line finds no memory is want
// of memory.
fn report<E: Sink>(alloc: Global, end: End, word: &str, errors: &mut E) -> u8
    ensures status { (result ≡ status_of end) ⊎ ((status_of end ≡ 3) × (result ≡ 4)) }
    ensures refused { result ≡ 3 → (refusal : Refusal) × (end ≡ End.Refused refusal)
        × Told (E.faults errors.old) (E.faults errors.new) (E.taken errors.old) (E.taken errors.new)
        (refusal_line (script_name word.now) refusal) }
    ensures ran { (own : ProgramEnd) → end ≡ End.Ran own
        → Told (E.faults errors.old) (E.faults errors.new) (E.taken errors.old) (E.taken errors.new)
        (program_line own) }
    ensures told { (result ≡ 4) ⊎ (result ≡ 5)
        → Told (E.faults errors.old) (E.faults errors.new) (E.taken errors.old) (E.taken errors.new)
        (status_line result) }
{
    match end {
        End::Ran(end) => report_program(end, errors),
        End::Refused(refusal) => match refusal_line(alloc, &refusal, word) {
            Ok(line) => {
                tell(&line, errors);
                3
            }
            Err(_) => {
                tell(b"lanes: not enough memory\n", errors);
                4
            }
        },
        End::Memory => {
            tell(b"lanes: not enough memory\n", errors);
            4
        }
        End::ReadFault => {
            tell(b"lanes: read fault\n", errors);
            5
        }
    }
}

// Writes the line of a program's end, and answers its status.
fn report_program<E: Sink>(end: ProgramEnd, errors: &mut E) -> u8
    ensures status { result ≡ program_status end }
    ensures told { Told (E.faults errors.old) (E.faults errors.new) (E.taken errors.old)
        (E.taken errors.new) (program_line end) }
{
    match end {
        ProgramEnd::Returned => {
            tell(b"", errors);
            0
        }
        ProgramEnd::Raised(line) => {
            tell(line.as_slice(), errors);
            1
        }
        ProgramEnd::Memory => {
            tell(b"lanes: not enough memory\n", errors);
            4
        }
        ProgramEnd::WriteFault => {
            tell(b"lanes: write fault\n", errors);
            6
        }
        ProgramEnd::Spent => {
            tell(b"lanes: step budget spent\n", errors);
            7
        }
    }
}
