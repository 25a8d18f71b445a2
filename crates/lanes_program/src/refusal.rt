//! Why a script is refused, and the line that says so.
ghost use Rattle.std.specs.Prelude.{◌≡◌, ◌++◌, codes, IfOk, OnOk};
ghost use Rattle.std.specs.Fmt.{decimal};
ghost use Rattle.lanes_program.specs.Refusals.{refusal_line, refusal_text, script_name};

use lanes_arena::{Bytes, Memory};
use lua_lexer::LexFault;
use lua_parser::ParseFault;
use lua_scope::ScopeFault;
use std::alloc::Global;

/// Why a script is refused.
#[derive(Debug, Drop, PartialEq, Eq)]
pub enum Refusal {
    /// It has more than 1,048,576 bytes.
    TooLong,
    /// It has no list of tokens.
    Lexical(LexFault),
    /// Its tokens have no tree. The bytes are those of the token that is refused, none at the end.
    Grammatical(ParseFault, Option<Bytes>),
    /// Its tree breaks a rule of scope.
    Scoped(ScopeFault),
}

/// The line on the errors that says why the script which a word names is refused. The only refusal
/// is want of memory.
pub fn refusal_line(alloc: Global, refusal: &Refusal, word: &str) -> Result<Vec<u8>, Memory>
    ensures { IfOk result (λ line. line.items ≡ refusal_line (script_name word.now) refusal.now) }
{
    let mut line = b"lanes: ".to_vec(alloc)?;
    line.extend_from_slice(script_name(word))?;
    push_reason(alloc, &mut line, refusal)?;
    line.extend_from_slice(b"\n")?;
    Ok(line)
}

fn push_reason(alloc: Global, line: &mut Vec<u8>, refusal: &Refusal) -> Result<(), Memory>
    ensures { OnOk result (line.new.items ≡ line.old.items ++ refusal_text refusal.now) }
{
    match refusal {
        Refusal::TooLong => line.extend_from_slice(b": script too long"),
        Refusal::Lexical(fault) => push_fault(alloc, line, *fault),
        Refusal::Grammatical(fault, token) => push_parse_fault(alloc, line, *fault, token),
        Refusal::Scoped(fault) => push_scope_fault(alloc, line, fault),
    }
}

fn push_line_number(alloc: Global, line: &mut Vec<u8>, number: u32) -> Result<(), Memory>
    ensures { OnOk result (line.new.items
        ≡ line.old.items ++ (codes ":" ++ (decimal number ++ codes ": "))) }
{
    let digits = number.to_string(alloc)?;
    line.extend_from_slice(b":")?;
    line.extend_from_slice(digits.as_bytes())?;
    line.extend_from_slice(b": ")
}

fn push_fault(alloc: Global, line: &mut Vec<u8>, fault: LexFault) -> Result<(), Memory>
    ensures { OnOk result (line.new.items
        ≡ line.old.items ++ refusal_text (Refusal.Lexical fault)) }
{
    push_line_number(alloc, line, fault.line())?;
    line.extend_from_slice(fault.text())
}

fn push_parse_fault(
    alloc: Global,
    line: &mut Vec<u8>,
    fault: ParseFault,
    token: &Option<Bytes>,
) -> Result<(), Memory>
    ensures { OnOk result (line.new.items
        ≡ line.old.items ++ refusal_text (Refusal.Grammatical fault token.now)) }
{
    push_line_number(alloc, line, fault.line())?;
    fault.push_text(line, token)
}

fn push_scope_fault(alloc: Global, line: &mut Vec<u8>, fault: &ScopeFault) -> Result<(), Memory>
    ensures { OnOk result (line.new.items
        ≡ line.old.items ++ refusal_text (Refusal.Scoped fault.now)) }
{
    push_line_number(alloc, line, fault.line())?;
    fault.push_text(line)
}

/// The name that lines give the script which a word names.
pub fn script_name(word: &str) -> &[u8]
    ensures { result.now ≡ script_name word.now }
{
    match word.as_bytes() {
        [b'-'] => b"stdin",
        other => other,
    }
}
