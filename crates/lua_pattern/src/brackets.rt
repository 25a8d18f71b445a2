//! The captures of a pattern as it is read.
ghost use Rattle.std.specs.Prelude.{◌≡◌, ◌≤◌};
ghost use Rattle.lua_pattern.specs.View.{ReadsItem, begun_of};
ghost use Rattle.lua_pattern.specs.Reading as spec;

use crate::bytes::past_close;
use crate::{Bracket, Item, PatternFault, Step};

/// The most captures of a pattern.
const MOST_CAPTURES: usize = 32;

/// How many captures began, and the numbers of those that are open, the innermost last.
#[derive(Drop)]
pub struct Brackets {
    pub count: usize,
    pub unclosed: Vec<usize>,
}

/// `()` or `(`.
pub fn opened<'a>(brackets: &mut Brackets, rest: &'a [u8]) -> Result<(Item, &'a [u8]), PatternFault>
    ensures { ReadsItem (spec.opened (begun_of brackets.old) rest.now) brackets.new result }
{
    if brackets.count >= MOST_CAPTURES {
        return Err(PatternFault::BadCapture);
    }
    let number = brackets.count;
    brackets.count += 1;
    match past_close(rest) {
        Some(behind) => Ok((Item::Mark(Bracket::Position, number), behind)),
        None => {
            brackets.unclosed.push(number)?;
            Ok((Item::Mark(Bracket::Open, number), rest))
        }
    }
}

/// `)`, which closes the innermost capture that is open.
pub fn closed<'a>(brackets: &mut Brackets, rest: &'a [u8]) -> Result<(Item, &'a [u8]), PatternFault>
    ensures { ReadsItem (spec.closed (begun_of brackets.old) rest.now) brackets.new result }
{
    let Some(number) = brackets.unclosed.last().copied() else {
        return Err(PatternFault::BadCapture);
    };
    brackets.unclosed.truncate(brackets.unclosed.len() - 1);
    Ok((Item::Mark(Bracket::Close, number), rest))
}

/// Whether the capture of this number, from 0, began and is closed.
fn is_closed(brackets: &Brackets, number: usize) -> bool
    ensures { result ≡ spec.is_closed (begun_of brackets.now) number }
{
    number < brackets.count && !brackets.unclosed.as_slice().contains(&number)
}

/// A digit after `%`.
pub fn back<'a>(
    brackets: &mut Brackets,
    digit: u8,
    rest: &'a [u8],
) -> Result<(Item, &'a [u8]), PatternFault>
    requires { 48 ≤ digit }
    ensures { ReadsItem (spec.back (begun_of brackets.old) digit rest.now) brackets.new result }
{
    if digit == b'0' {
        return Err(PatternFault::BadItem);
    }
    let number = (digit - b'1') as usize;
    if is_closed(brackets, number) {
        Ok((Item::Step(Step::Back(number)), rest))
    } else {
        Err(PatternFault::BadCapture)
    }
}
