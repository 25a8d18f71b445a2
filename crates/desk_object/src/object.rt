//! Objects that a desk can hold.
ghost use Rattle.std.specs.Prelude.{◌≡◌, Bool, IfOk};
ghost use Rattle.desk_object.specs.Endings.{MayEnd};
ghost use Rattle.desk_object.specs.Meaning.{Meaning, IsDetermined};

use crate::ending::Ending;
use lanes_arena::Memory;
use std::alloc::Global;

/// An object whose calls are made one at a time: `ready`, then `reserve`, then `apply`. `Content`,
/// `CallData` and `ReplyData` are what contracts see of the object, of a call and of a reply; no
/// value of them is made.
pub trait Object: Sized + Drop {
    type Call: Drop;

    type Reply: Drop;
    /// The memory that was taken for one call.
    type Room: Drop;

    type Content;

    type CallData;

    type ReplyData;

    /// What the object is at first, and what its calls mean.
    ghost means: { Meaning Self.Content Self.CallData Self.ReplyData };

    ghost content: { Self → Self.Content };

    ghost call_data: { Self.Call → Self.CallData };

    ghost reply_data: { Self.Reply → Self.ReplyData };
    /// The room was reserved in this object for this call.
    ghost is_room_for: { Self → Self.Room → Self.Call → Type 0 };

    /// Whether the call fits now.
    fn ready(&self, call: &Self::Call) -> bool
        requires { means.lawful (call_data call.now) }
        ensures { result ≡ means.fits (content self.now) (call_data call.now) };

    /// Takes the memory that the call needs, whatever its ending. The only refusal is want of
    /// memory.
    fn reserve(&mut self, alloc: Global, call: &Self::Call) -> Result<Self::Room, Memory>
        requires { means.lawful (call_data call.now) }
        ensures content { content self.new ≡ content self.old }
        ensures room { IfOk result (λ room. is_room_for self.new room call.now) };

    /// Ends the call, in the room that was reserved for it.
    fn apply(&mut self, call: &Self::Call, ending: Ending, room: Self::Room) -> Self::Reply
        requires lawful { means.lawful (call_data call.now) }
        requires room { is_room_for self.old room call.now }
        requires ending { MayEnd ending (means.fits (content self.old) (call_data call.now)) }
        ensures { means.steps (content self.old) (call_data call.now) ending (reply_data result)
            (content self.new) };

    /// A content, a call and an ending have one reply and one new content.
    ghost determined: { IsDetermined means };
}
