//! The lock of a desk, and the slot behind it.
ghost use Rattle.std.specs.Prelude.{◌≡◌, ◌∷◌, [], ◌≤◌, ◌^◌, length, true, false};
ghost use Rattle.desk_object.specs.History.{is_closed};
ghost use Rattle.history_desk.specs.Passes.{carries};
ghost use Rattle.history_desk.specs.Rule.{IsDesk, Rests, holding, idle};
ghost use Rattle.history_desk.specs.Steps.{IsHolding, IsIdle, Taken};
ghost use Rattle.history_desk.specs.declared.known.Place.{Place};

use crate::known::Place;
use crate::law::{Chair, Face, Free, Measure, Spot, Take};
use desk_object::Object;
use std::sync::Wait;
use std::thread;

/// Takes the lock, with what lies in the slot, and sees the history. Answers its length.
pub fn take_lock<S: Object, R: Wait>(rt: &R, face: &Face<S>, seat: &mut Chair<S>) -> u64
    requires desk { (seat.old.table_id ≡ face.now.table_id) × IsDesk face.now.table_id }
    requires idle { IsIdle seat.old.me }
    requires own { carries seat.old.me.0.known seat.old.me.0.known.number ≡ true }
    ensures desk { seat.new.table_id ≡ seat.old.table_id }
    ensures taken { Taken S.means S.content seat.old.me.0.known seat.new.me }
    ensures count { result ≡ length seat.new.me.0.known.seen }
    ensures most { is_closed seat.new.me.0.known.seen ≡ false → result ≤ 2 ^ 62 }
{
    for _ in rt.forever() {
        if face.swap::<Take<S>>(seat, 1, 1) == 0 {
            return face.load::<Measure>(seat, 0);
        }
        thread::yield_now();
    }
    unreachable!()
}

/// Gives the slot and the lock back.
pub fn give_lock<S: Object>(face: &Face<S>, seat: &mut Chair<S>)
    requires desk { (seat.old.table_id ≡ face.now.table_id) × IsDesk face.now.table_id }
    requires holding { (p : Place S S.Call S.Reply) × IsHolding seat.old.me p
        × Rests S.means S.content seat.old.me.0.known.seen p }
    ensures desk { seat.new.table_id ≡ seat.old.table_id }
    ensures idle { seat.new.me ≡ (idle seat.old.me.0.known, []) }
{
    face.store::<Free>(seat, 1, 0);
}

/// Puts a value into the slot, and gives what lay there.
pub fn put<S: Object>(face: &Face<S>, seat: &mut Chair<S>, new: Spot<S>) -> Spot<S>
    requires desk { seat.old.table_id ≡ face.now.table_id }
    requires holding { (p : Place S S.Call S.Reply) × IsHolding seat.old.me p }
    ensures desk { seat.new.table_id ≡ seat.old.table_id }
    ensures was { IsHolding seat.old.me result }
    ensures is { seat.new.me ≡ (holding seat.old.me.0.known, (0, new) ∷ []) }
{
    face.exchange(seat, 0, new)
}

/// Puts a value into the slot that belongs there, and gives the lock back.
pub fn put_back<S: Object>(face: &Face<S>, seat: &mut Chair<S>, new: Spot<S>)
    requires desk { (seat.old.table_id ≡ face.now.table_id) × IsDesk face.now.table_id }
    requires holding { (p : Place S S.Call S.Reply) × IsHolding seat.old.me p }
    requires rests { Rests S.means S.content seat.old.me.0.known.seen new }
    ensures desk { seat.new.table_id ≡ seat.old.table_id }
    ensures idle { seat.new.me ≡ (idle seat.old.me.0.known, []) }
{
    put(face, seat, new);
    give_lock(face, seat);
}
