//! Reading patterns.
ghost use Rattle.std.specs.Prelude.{◌≡◌, length};
ghost use Rattle.lua_pattern.specs.View.{Adds, Reads, ReadsItem, Gives, begun_of};
ghost use Rattle.lua_pattern.specs.Reading as spec;

use crate::brackets::{Brackets, back, closed, opened};
use crate::bytes::next;
use crate::class::is_digit;
use crate::sets::{escaped_single, plain_single, set_single};
use crate::{Item, Pattern, PatternFault, Repeat, Single, Step};
use lanes_arena::Row;
use std::alloc::Global;

/// The most items of a pattern.
const MOST_ITEMS: usize = 200;

fn repeat_of(b: u8) -> Option<Repeat>
    ensures { result ≡ spec.repeat_of b }
{
    match b {
        b'*' => Some(Repeat::Longest),
        b'+' => Some(Repeat::OnceOrMore),
        b'-' => Some(Repeat::Shortest),
        b'?' => Some(Repeat::Optional),
        _ => None,
    }
}

/// The single item with how often it is matched, and what stands behind.
fn with_repeat(single: Single, rest: &[u8]) -> (Item, &[u8])
    ensures item { result.0 ≡ (spec.with_repeat single rest.now).0 }
    ensures rest { result.1.now ≡ (spec.with_repeat single rest.now).1 }
{
    if let Some((first, behind)) = next(rest) {
        if let Some(repeat) = repeat_of(first) {
            return (Item::Repeated(single, repeat), behind);
        }
    }
    (Item::Step(Step::Once(single)), rest)
}

/// The two bytes after `%b`.
fn balance(bytes: &[u8]) -> Result<(Item, &[u8]), PatternFault>
    ensures { Reads (spec.balance bytes.now) result }
{
    match bytes {
        [opener, closer, rest @ ..] => Ok((Item::Step(Step::Balanced(*opener, *closer)), rest)),
        _ => Err(PatternFault::BadItem),
    }
}

/// The set after `%f`.
fn border(alloc: Global, bytes: &[u8]) -> Result<(Item, &[u8]), PatternFault>
    ensures { Reads (spec.border bytes.now) result }
{
    match next(bytes) {
        Some((b'[', rest)) => match set_single(alloc, rest) {
            Ok((set, behind)) => Ok((Item::Step(Step::Border(set)), behind)),
            Err(fault) => Err(fault),
        },
        _ => Err(PatternFault::BadItem),
    }
}

/// A class or a byte, from the byte after its `%` on.
fn escaped_once(b: u8, rest: &[u8]) -> Result<(Item, &[u8]), PatternFault>
    ensures { Reads (spec.repeated (spec.escaped_single b rest.now)) result }
{
    match escaped_single(b, rest) {
        Ok((single, behind)) => Ok(with_repeat(single, behind)),
        Err(fault) => Err(fault),
    }
}

/// A single item that begins with this byte.
fn plain_once(alloc: Global, b: u8, rest: &[u8]) -> Result<(Item, &[u8]), PatternFault>
    ensures { Reads (spec.repeated (spec.plain_single b rest.now)) result }
{
    match plain_single(alloc, b, rest) {
        Ok((single, behind)) => Ok(with_repeat(single, behind)),
        Err(fault) => Err(fault),
    }
}

/// An item, from the byte after its `%` on.
fn escaped_item<'a>(
    alloc: Global,
    brackets: &mut Brackets,
    bytes: &'a [u8],
) -> Result<(Item, &'a [u8]), PatternFault>
    ensures { ReadsItem (spec.escaped_item (begun_of brackets.old) bytes.now) brackets.new result }
{
    let Some((first, rest)) = next(bytes) else {
        return Err(PatternFault::EndsWithPercent);
    };
    if first == b'b' {
        return balance(rest);
    }
    if first == b'f' {
        return border(alloc, rest);
    }
    if is_digit(first) {
        return back(brackets, first, rest);
    }
    escaped_once(first, rest)
}

/// The item that begins with this byte.
fn item_at<'a>(
    alloc: Global,
    brackets: &mut Brackets,
    first: u8,
    rest: &'a [u8],
) -> Result<(Item, &'a [u8]), PatternFault>
    ensures { ReadsItem (spec.item_at (begun_of brackets.old) first rest.now) brackets.new result }
{
    if first == b'(' {
        return opened(brackets, rest);
    }
    if first == b')' {
        return closed(brackets, rest);
    }
    if first == b'%' {
        return escaped_item(alloc, brackets, rest);
    }
    if first == b'$' && rest.is_empty() {
        return Ok((Item::Step(Step::End), rest));
    }
    plain_once(alloc, first, rest)
}

fn is_end(item: &Item) -> bool
    ensures { result ≡ spec.is_end item.now }
{
    matches!(item, Item::Step(Step::End))
}

/// Whether the item is one too many behind the others.
fn too_many(items: &[Item], item: &Item) -> bool
    ensures { result ≡ spec.too_many (length items.now) item.now }
{
    items.len() >= MOST_ITEMS && !is_end(item)
}

/// Adds an item behind the others.
fn add(items: &mut Vec<Item>, item: Item) -> Result<(), PatternFault>
    ensures { Adds items.old.items item items.new.items result }
{
    if too_many(items, &item) {
        return Err(PatternFault::TooManyItems);
    }
    items.push(item)?;
    Ok(())
}

/// The pattern of these items, if no capture is open at its end.
fn finished(anchored: bool, items: Vec<Item>, brackets: Brackets) -> Result<Pattern, PatternFault>
    ensures { Gives (spec.as_pattern anchored
        (spec.finished items.items brackets.count brackets.unclosed.items)) result }
{
    if brackets.unclosed.is_empty() {
        Ok(Pattern {
            anchored,
            captures: brackets.count,
            items: Row::of(items),
        })
    } else {
        Err(PatternFault::BadCapture)
    }
}

/// The pattern that these bytes write. Each item takes a byte at least.
fn pattern(alloc: Global, anchored: bool, bytes: &[u8]) -> Result<Pattern, PatternFault>
    ensures { Gives (spec.as_pattern anchored (spec.items_of bytes.now)) result }
{
    let mut items = Vec::new(alloc);
    let mut brackets = Brackets {
        count: 0,
        unclosed: Vec::new(alloc),
    };
    let mut left = bytes;
    for _turn in 0..bytes.len() {
        let Some((first, rest)) = next(left) else {
            return finished(anchored, items, brackets);
        };
        match item_at(alloc, &mut brackets, first, rest) {
            Ok((item, behind)) => {
                if let Err(fault) = add(&mut items, item) {
                    return Err(fault);
                }
                left = behind;
            }
            Err(fault) => return Err(fault),
        }
    }
    finished(anchored, items, brackets)
}

/// Reads a pattern. A fault is the first that is met from the left; an open `(` is met at the end.
#[tactic(auto, unfolding(crate::specs::Reading::compiled))]
pub fn compile(alloc: Global, bytes: &[u8]) -> Result<Pattern, PatternFault>
    ensures { Gives (spec.compiled bytes.now) result }
{
    match next(bytes) {
        Some((b'^', rest)) => pattern(alloc, true, rest),
        _ => pattern(alloc, false, bytes),
    }
}

/// Reads a pattern in which a `^` at the front is an ordinary byte, as `string.gmatch` does.
#[tactic(auto, unfolding(crate::specs::Reading::unanchored))]
pub fn compile_unanchored(alloc: Global, bytes: &[u8]) -> Result<Pattern, PatternFault>
    ensures { Gives (spec.unanchored bytes.now) result }
{
    pattern(alloc, false, bytes)
}
