//! Runs a script, and what a run ends with.
ghost use Rattle.std.specs.Prelude.{◌≡◌, ◌⊎◌, ◌≤◌, length, Some, Err, IfOk, IfErr};
ghost use Rattle.lua_lexer.specs.Tokens.{Lexes};
ghost use Rattle.lua_lexer.specs.View.{marks};
ghost use Rattle.lua_scope.specs.Rules.{broken};
ghost use Rattle.lua_scope.specs.Stands.{IsSpelled, Stands};
ghost use Rattle.plain_host.specs.Writing.{TellsFaults};
ghost use Rattle.script_run.specs.Running.{RunsProgram};
ghost use Rattle.lanes_program.specs.Finish.{IsProgramOf, RunsScript};
ghost use Rattle.lanes_program.specs.Refusals.{IsRefused, IsUnparsed, Refuses};
ghost use Rattle.lanes_program.specs.Status.{IsEarlyEnd, IsRan};

use crate::reading::{ReadEnd, read_script};
use crate::refusal::Refusal;
use lanes_arena::Bytes;
use lua_lexer::{LONGEST, LexFault, TokenList, token_bytes, tokens};
use lua_parser::{ParseFault, parse};
use lua_program::Program;
use lua_scope::{ScopeFault, resolve};
use lua_tree::Tree;
use outside::{Sink, Source};
use script_run::{ProgramEnd, RanProgram, run_program};
use std::alloc::Global;

/// How a run ended.
#[derive(Debug, Drop)]
pub enum End {
    /// The program ran, and ended so.
    Ran(ProgramEnd),
    Refused(Refusal),
    Memory,
    ReadFault,
}

/// How a run ended, and its output.
#[derive(Drop)]
pub struct Ended<O> {
    pub end: End,
    pub output: O,
}

/// Reads the script of this name, and runs it.
pub fn run_script<I: Source, O: Sink>(
    alloc: Global,
    input: &mut I,
    name: &[u8],
    output: O,
) -> Ended<O>
    ensures read { TellsFaults (I.faults input.old) (I.faults input.new) (result.end
        ≡ End.ReadFault) }
    ensures write { TellsFaults (O.faults output) (O.faults result.output) (result.end
        ≡ End.Ran ProgramEnd.WriteFault) }
    ensures ran { (end : ProgramEnd) → result.end ≡ End.Ran end
        → RunsScript (I.left input.old) (I.left input.new) name.now (O.taken output)
        (O.taken result.output) (O.faults output) (O.faults result.output) end
        ⊎ ((end ≡ ProgramEnd.Memory) × (result.output ≡ output)) }
    ensures refused { (refusal : Refusal) → result.end ≡ End.Refused refusal
        → IsRefused (I.left input.old) (I.left input.new) refusal }
    ensures kept { (IsRan result.end → ⊥) → result.output ≡ output }
{
    match read_script(alloc, input) {
        Ok(script) => match Bytes::from_vec(script) {
            Ok(script) => run_text(alloc, &script, name, output),
            Err(_) => Ended {
                end: End::Memory,
                output,
            },
        },
        Err(ReadEnd::Fault) => Ended {
            end: End::ReadFault,
            output,
        },
        Err(ReadEnd::TooLong) => Ended {
            end: End::Refused(Refusal::TooLong),
            output,
        },
        Err(ReadEnd::Memory) => Ended {
            end: End::Memory,
            output,
        },
    }
}

// Runs a script of lawful length.
fn run_text<O: Sink>(alloc: Global, script: &Bytes, name: &[u8], output: O) -> Ended<O>
    requires { length script.now ≤ LONGEST }
    ensures write { TellsFaults (O.faults output) (O.faults result.output) (result.end
        ≡ End.Ran ProgramEnd.WriteFault) }
    ensures ran { (end : ProgramEnd) → result.end ≡ End.Ran end
        → ((program : Program) × IsProgramOf script.now name.now program
        × RunsProgram program (O.taken output) (O.taken result.output) (O.faults output)
        (O.faults result.output) end) ⊎ ((end ≡ ProgramEnd.Memory) × (result.output ≡ output)) }
    ensures refused { (refusal : Refusal) → result.end ≡ End.Refused refusal
        → Refuses script.now refusal }
    ensures no_read { result.end ≡ End.ReadFault → ⊥ }
    ensures kept { (IsRan result.end → ⊥) → result.output ≡ output }
{
    match program_of(alloc, script, name) {
        Ok(program) => {
            let RanProgram { end, output } = run_program(alloc, program, output);
            Ended {
                end: End::Ran(end),
                output,
            }
        }
        Err(end) => Ended { end, output },
    }
}

// The program of a script, or how its run ends at once: refused, or for want of memory.
fn program_of(alloc: Global, script: &Bytes, name: &[u8]) -> Result<Program, End>
    requires { length script.now ≤ LONGEST }
    ensures program { IfOk result (λ program. IsProgramOf script.now name.now program) }
    ensures refused { (refusal : Refusal) → result ≡ Err (End.Refused refusal)
        → Refuses script.now refusal }
    ensures others { IfErr result IsEarlyEnd }
{
    match tokens(alloc, script) {
        Ok(found) => program_of_tokens(alloc, script, found, name),
        Err(LexFault::TooLong | LexFault::Memory) => Err(End::Memory),
        Err(fault) => Err(End::Refused(Refusal::Lexical(fault))),
    }
}

// The same for a script with these tokens.
fn program_of_tokens(
    alloc: Global,
    script: &Bytes,
    tokens: TokenList,
    name: &[u8],
) -> Result<Program, End>
    requires { Lexes script.now (marks tokens) }
    ensures program { IfOk result (λ program. IsProgramOf script.now name.now program) }
    ensures refused { (refusal : Refusal) → result ≡ Err (End.Refused refusal)
        → Refuses script.now refusal }
    ensures others { IfErr result IsEarlyEnd }
{
    match parse(alloc, tokens) {
        Ok(tree) => program_of_tree(alloc, tree, name),
        Err(ParseFault::Memory) => Err(End::Memory),
        Err(fault) => Err(unparsed(alloc, script, fault)),
    }
}

// The same for a script with this tree.
#[tactic(auto, using(crate::proofs::RefusalLemmas::told))]
fn program_of_tree(alloc: Global, tree: Tree, name: &[u8]) -> Result<Program, End>
    ensures program { IfOk result (λ program. IsSpelled tree → Stands program name.now tree) }
    ensures refused { (refusal : Refusal) → result ≡ Err (End.Refused refusal)
        → (fault : ScopeFault) × (refusal ≡ Refusal.Scoped fault) × (broken tree ≡ Some fault) }
    ensures others { IfErr result IsEarlyEnd }
{
    let Ok(name) = Bytes::of(alloc, name) else {
        return Err(End::Memory);
    };
    match resolve(alloc, tree, name) {
        Ok(program) => Ok(program),
        Err(ScopeFault::Memory) => Err(End::Memory),
        Err(fault) => Err(End::Refused(Refusal::Scoped(fault))),
    }
}

// How the run of a script with this fault ends: refused, or for want of memory.
fn unparsed(alloc: Global, script: &Bytes, fault: ParseFault) -> End
    requires { IsUnparsed script.now fault }
    ensures refused { (refusal : Refusal) → result ≡ End.Refused refusal
        → Refuses script.now refusal }
    ensures early { IsEarlyEnd result }
{
    let Some(place) = fault.place() else {
        return End::Memory;
    };
    match token_bytes(alloc, script, place.at as usize) {
        Ok(token) => End::Refused(Refusal::Grammatical(fault, token)),
        Err(_) => End::Memory,
    }
}
