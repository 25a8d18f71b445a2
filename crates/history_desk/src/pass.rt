//! Passes.
ghost use Rattle.std.specs.Prelude.{◌≡◌, length};
ghost use Rattle.history_desk.specs.Passes.{IsSound};

use crate::law::Chair;
use desk_object::Object;
use std::marker::Model;

/// What a caller of a desk holds. Contracts see which desk it is of, and what it knows. It may go
/// to another thread.
#[derive(Drop)]
pub struct Pass<S: Object> {
    pub(crate) number: u64,
    pub(crate) count: u64,
    pub(crate) seat: Chair<S>,
}

impl<S: Object> Model for Pass<S> {
    ghost use Rattle.std.specs.Prelude.{◌≡◌, length};
    ghost use Rattle.history_desk.specs.Passes.{Held, IsSound};
    ghost use Rattle.history_desk.specs.Steps.{IsIdle};

    ghost Value = { Held S.CallData S.ReplyData };

    ghost view = { λ p. record { desk = p.seat.table_id; known = p.seat.me.0.known } };

    ghost invariant = { λ p. (p.number ≡ p.seat.me.0.known.number)
        × (p.count ≡ length p.seat.me.0.known.seen)
        × IsIdle p.seat.me × IsSound S.means p.seat.me.0.known };
}

impl<S: Object> Pass<S> {
    /// The number with which it makes calls.
    pub fn number(&self) -> u64
        ensures number { result ≡ self.now.known.number }
        ensures sound { IsSound S.means self.now.known }
    {
        self.number
    }

    /// The length of the history that it has seen. After a call that was made, that is the place
    /// of its entry, from 1 on.
    pub fn length(&self) -> u64
        ensures length { result ≡ length self.now.known.seen }
        ensures sound { IsSound S.means self.now.known }
    {
        self.count
    }
}
