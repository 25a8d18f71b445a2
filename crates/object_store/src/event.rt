//! The names of metamethods, and of the fields of a metatable that the libraries read.
ghost use Rattle.std.specs.Prelude.{◌≡◌};
ghost use Rattle.object_store.specs.Event.{event_name, event_number, event_key};

use crate::Value;
use lanes_arena::NameId;

/// A field of a metatable that the runtime reads (Lua 5.4 manual, sections 2.4 and 6.1). Each state
/// interns their names first, in this order, so the string of each is the same constant in every
/// state.
#[derive(Clone, Copy, PartialEq, Eq)]
pub enum Event {
    Index,
    NewIndex,
    Call,
    Add,
    Sub,
    Mul,
    IDiv,
    Mod,
    Unm,
    BAnd,
    BOr,
    BXor,
    Shl,
    Shr,
    BNot,
    Concat,
    Len,
    Eq,
    Lt,
    Le,
    ToString,
    Metatable,
    Pairs,
}

impl Event {
    /// All events, in the order of their names in a state.
    pub const ALL: [Event; 23] = [
        Event::Index,
        Event::NewIndex,
        Event::Call,
        Event::Add,
        Event::Sub,
        Event::Mul,
        Event::IDiv,
        Event::Mod,
        Event::Unm,
        Event::BAnd,
        Event::BOr,
        Event::BXor,
        Event::Shl,
        Event::Shr,
        Event::BNot,
        Event::Concat,
        Event::Len,
        Event::Eq,
        Event::Lt,
        Event::Le,
        Event::ToString,
        Event::Metatable,
        Event::Pairs,
    ];

    /// The name of the field.
    pub fn name(self) -> &'static [u8]
        ensures { result.now ≡ event_name self }
    {
        match self {
            Event::Index => b"__index",
            Event::NewIndex => b"__newindex",
            Event::Call => b"__call",
            Event::Add => b"__add",
            Event::Sub => b"__sub",
            Event::Mul => b"__mul",
            Event::IDiv => b"__idiv",
            Event::Mod => b"__mod",
            Event::Unm => b"__unm",
            Event::BAnd => b"__band",
            Event::BOr => b"__bor",
            Event::BXor => b"__bxor",
            Event::Shl => b"__shl",
            Event::Shr => b"__shr",
            Event::BNot => b"__bnot",
            Event::Concat => b"__concat",
            Event::Len => b"__len",
            Event::Eq => b"__eq",
            Event::Lt => b"__lt",
            Event::Le => b"__le",
            Event::ToString => b"__tostring",
            Event::Metatable => b"__metatable",
            Event::Pairs => b"__pairs",
        }
    }

    /// The place of the name among those of all events.
    #[inline]
    fn number(self) -> u64
        ensures { result ≡ event_number self }
    {
        match self {
            Event::Index => 0,
            Event::NewIndex => 1,
            Event::Call => 2,
            Event::Add => 3,
            Event::Sub => 4,
            Event::Mul => 5,
            Event::IDiv => 6,
            Event::Mod => 7,
            Event::Unm => 8,
            Event::BAnd => 9,
            Event::BOr => 10,
            Event::BXor => 11,
            Event::Shl => 12,
            Event::Shr => 13,
            Event::BNot => 14,
            Event::Concat => 15,
            Event::Len => 16,
            Event::Eq => 17,
            Event::Lt => 18,
            Event::Le => 19,
            Event::ToString => 20,
            Event::Metatable => 21,
            Event::Pairs => 22,
        }
    }

    /// The name as a string, in every state. It takes no look-up.
    #[inline]
    pub fn key(self) -> Value
        ensures { result ≡ event_key self }
    {
        Value::Str(NameId::at(self.number()))
    }
}
