//! Reads a script to its end.
ghost use Rattle.std.specs.Prelude.{◌≡◌, ◌≤◌, ◌<◌, ℕ, List, length, IfOk, IsErrOf, OnErr};
ghost use Rattle.std.specs.Io.KnownBytes.{Consumes};
ghost use Rattle.plain_host.specs.Writing.{TellsFaults};
ghost use Rattle.lanes_program.specs.Reading.{GaveScript, GaveTooMuch};

use lua_lexer::LONGEST;
use outside::{ReadFault, Source};
use std::alloc::Global;

/// Why a script was not read to its end.
#[derive(Clone, Copy, Debug, PartialEq, Eq)]
pub enum ReadEnd {
    Fault,
    TooLong,
    Memory,
}

/// All the bytes that the input has left, where these are a script of lawful length.
pub fn read_script<I: Source>(alloc: Global, input: &mut I) -> Result<Vec<u8>, ReadEnd>
    ensures gave { IfOk result (λ script. GaveScript (I.left input.old) (I.left input.new)
        script.items) }
    ensures too_long { IsErrOf result ReadEnd.TooLong
        → (read : List ℕ) × GaveTooMuch (I.left input.old) (I.left input.new) read }
    ensures cause { TellsFaults (I.faults input.old) (I.faults input.new)
        (IsErrOf result ReadEnd.Fault) }
{
    let mut script = Vec::new(alloc);
    let mut piece = [0u8; 32768];
    while script.len() <= LONGEST {
        match input.read(&mut piece) {
            Ok(0) => return Ok(script),
            Ok(count) => {
                if script.extend_from_slice(&piece[..count]).is_err() {
                    return Err(ReadEnd::Memory);
                }
            }
            Err(ReadFault) => return Err(ReadEnd::Fault),
        }
    }
    Err(ReadEnd::TooLong)
}
