//! The text of each fault.
ghost use Rattle.std.specs.Prelude.{◌≡◌, ◌++◌, IfOk};
ghost use Rattle.object_store.specs.FaultText.{fault_text, lead_of};

use crate::fault::LuaFault;
use itoa::Buffer;
use lanes_arena::{Bytes, Memory};
use std::alloc::Global;

/// Three texts, one after the other.
fn joined(alloc: Global, first: &[u8], middle: &[u8], last: &[u8]) -> Result<Vec<u8>, Memory>
    ensures { IfOk result (λ text. text.items ≡ first.now ++ (middle.now ++ last.now)) }
{
    let mut text = first.to_vec(alloc)?;
    text.extend_from_slice(middle)?;
    text.extend_from_slice(last)?;
    Ok(text)
}

impl LuaFault {
    /// The text up to its first argument.
    fn lead(&self) -> &'static [u8]
        ensures { result.now ≡ lead_of self.now }
    {
        match self {
            LuaFault::Full => b"too many objects",
            LuaFault::ZeroDivisor => b"division by zero",
            LuaFault::NotInteger => b"not an integer",
            LuaFault::ZeroStep => b"'for' step is zero",
            LuaFault::NilKey => b"index is nil",
            LuaFault::DeadKey => b"invalid key to 'next'",
            LuaFault::NotCallable(_) => b"attempt to call a ",
            LuaFault::NotIndexable(_) => b"attempt to index a ",
            LuaFault::NotArith(_) => b"attempt to perform arithmetic on a ",
            LuaFault::NotBits(_) => b"attempt to perform bitwise operation on a ",
            LuaFault::NotConcat(_) => b"attempt to concatenate a ",
            LuaFault::NotLength(_) => b"attempt to get length of a ",
            LuaFault::NotOrdered(_, _) => b"attempt to compare ",
            LuaFault::LongChain => b"metatable chain too long",
            LuaFault::BadItem => b"malformed pattern item",
            LuaFault::OpenSet => b"malformed pattern (missing ']')",
            LuaFault::BadCapture => b"malformed pattern (capture)",
            LuaFault::EndsWithPercent => b"malformed pattern (ends with '%')",
            LuaFault::TooManyItems => b"pattern too long",
            LuaFault::BadArgument { .. } => b"bad argument #",
            LuaFault::BadPosition => b"position out of bounds",
            LuaFault::TextTooLong => b"string too long",
            LuaFault::NoModule => b"module not found",
            LuaFault::BadFormat => b"invalid format",
            LuaFault::BadKey => b"bad linda key",
            LuaFault::NoData => b"no data to send",
            LuaFault::BadCount => b"bad count",
            LuaFault::BadOption => b"unknown option",
            LuaFault::TooManyValues => b"too many values",
            LuaFault::BadToString => b"'__tostring' must return a string",
            LuaFault::Protected => b"cannot change a protected metatable",
            LuaFault::Memory => b"out of memory",
        }
    }

    /// The message that a script sees. The only refusal is want of memory.
    pub fn text(&self, alloc: Global) -> Result<Bytes, Memory>
        ensures { IfOk result (λ text. text ≡ fault_text self.now) }
    {
        match self {
            LuaFault::NotCallable(kind)
            | LuaFault::NotIndexable(kind)
            | LuaFault::NotArith(kind)
            | LuaFault::NotBits(kind)
            | LuaFault::NotConcat(kind)
            | LuaFault::NotLength(kind) => {
                let text = joined(alloc, self.lead(), kind.name().as_bytes(), b" value")?;
                Bytes::from_vec(text)
            }
            LuaFault::NotOrdered(left, right) => {
                let text = joined(alloc, self.lead(), left.name().as_bytes(), b" with ")?;
                Bytes::from_vec(joined(alloc, &text, right.name().as_bytes(), b"")?)
            }
            LuaFault::BadArgument { at, function } => {
                let mut buffer = Buffer::new();
                let digits = buffer.format(*at).as_bytes();
                let text = joined(alloc, self.lead(), digits, b" to '")?;
                Bytes::from_vec(joined(alloc, &text, function.as_slice(), b"'")?)
            }
            _ => Bytes::of(alloc, self.lead()),
        }
    }
}
