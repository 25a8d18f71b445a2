//! Calls on the object behind the lock, and its end.
ghost use Rattle.std.specs.Prelude.{◌≡◌, ◌∷◌, [], ◌<◌, ◌≤◌, ◌^◌, length, true, false};
ghost use Rattle.desk_object.specs.Meaning.{Turns};
ghost use Rattle.desk_object.specs.History.{is_closed, IsLegal, Reaches};
ghost use Rattle.desk_object.specs.declared.entry.Entry.TheVariants.{Made};
ghost use Rattle.history_desk.specs.Passes.{carries, IsSound, IsWhole};
ghost use Rattle.history_desk.specs.Rule.{IsDesk, idle};
ghost use Rattle.history_desk.specs.Steps.{IsHolding, IsIdle, with_entry};
ghost use Rattle.history_desk.specs.Outcomes.{Answers, Closes, EndsAs};
ghost use Rattle.history_desk.specs.declared.known.Place.{Place};

use crate::known::Place;
use crate::law::{Add, Chair, Face};
use crate::slot::{give_lock, put, put_back, take_lock};
use crate::turn::{Closed, DeskFault, Turn};
use desk_object::{Ending, Mode, Object};
use std::alloc::Global;
use std::sync::Wait;

/// The most entries, Close apart, of a history.
const LIMIT: u64 = 1 << 62;

/// Appends the entry of a call that turned the object, and gives everything back.
fn append<S: Object>(
    face: &Face<S>,
    seat: &mut Chair<S>,
    object: S,
    call: S::Call,
    ending: Ending,
    reply: S::Reply,
) -> S::Reply
    requires desk { (seat.old.table_id ≡ face.now.table_id) × IsDesk face.now.table_id }
    requires holding { (p : Place S S.Call S.Reply) × IsHolding seat.old.me p }
    requires own { carries seat.old.me.0.known seat.old.me.0.known.number ≡ true }
    requires unclosed { is_closed seat.old.me.0.known.seen ≡ false }
    requires room { length seat.old.me.0.known.seen < 2 ^ 62 }
    requires turned { (before : S.Content) × Reaches S.means seat.old.me.0.known.seen before
        × Turns S.means before (S.call_data call) ending (S.reply_data reply) (S.content object) }
    ensures desk { seat.new.table_id ≡ seat.old.table_id }
    ensures appended { seat.new.me ≡ (
      idle (with_entry seat.old.me.0.known
          (Made seat.old.me.0.known.number (S.call_data call) ending (S.reply_data reply))),
      [],
    ) }
    ensures legal { IsLegal S.means seat.new.me.0.known.seen }
    ensures reply { result ≡ reply }
{
    put(face, seat, Place::Turned(object, call, ending, reply));
    face.fetch_add::<Add<S>>(seat, 0, 1);
    match put(face, seat, Place::Out) {
        Place::Turned(object, _, _, reply) => {
            put_back(face, seat, Place::Here(object));
            reply
        }
        _ => unreachable!(),
    }
}

/// Makes a call on the object, which was taken out of the slot. The second answer is the length of
/// what is then seen.
fn turn<S: Object>(
    face: &Face<S>,
    alloc: Global,
    seat: &mut Chair<S>,
    count: u64,
    mut object: S,
    call: S::Call,
    mode: Mode,
) -> (Result<Turn<S>, DeskFault>, u64)
    requires desk { (seat.old.table_id ≡ face.now.table_id) × IsDesk face.now.table_id }
    requires holding { (p : Place S S.Call S.Reply) × IsHolding seat.old.me p }
    requires own { carries seat.old.me.0.known seat.old.me.0.known.number ≡ true }
    requires count { (count ≡ length seat.old.me.0.known.seen) × (count ≤ 2 ^ 62) }
    requires unclosed { is_closed seat.old.me.0.known.seen ≡ false }
    requires reached { Reaches S.means seat.old.me.0.known.seen (S.content object) }
    requires lawful { S.means.lawful (S.call_data call) }
    ensures desk { seat.new.table_id ≡ seat.old.table_id }
    ensures idle { IsIdle seat.new.me }
    ensures ends { EndsAs S.means S.call_data S.reply_data seat.old.me.0.known call mode result.0
        seat.new.me.0.known }
    ensures count { result.1 ≡ length seat.new.me.0.known.seen }
{
    if count >= LIMIT {
        put_back(face, seat, Place::Here(object));
        return (Err(DeskFault::Spent(count)), count);
    }
    let Some(ending) = mode.ending(object.ready(&call)) else {
        put_back(face, seat, Place::Here(object));
        return (Ok(Turn::NotYet(call)), count);
    };
    let Ok(room) = object.reserve(alloc, &call) else {
        put_back(face, seat, Place::Here(object));
        return (Err(DeskFault::Memory), count);
    };
    let reply = object.apply(&call, ending, room);
    let reply = append(face, seat, object, call, ending, reply);
    (Ok(Turn::Made(reply)), count + 1)
}

/// Makes a call. The second answer is the length of what is then seen.
pub fn call<S: Object, R: Wait>(
    rt: &R,
    face: &Face<S>,
    alloc: Global,
    seat: &mut Chair<S>,
    call: S::Call,
    mode: Mode,
) -> (Result<Turn<S>, DeskFault>, u64)
    requires desk { (seat.old.table_id ≡ face.now.table_id) × IsDesk face.now.table_id }
    requires idle { IsIdle seat.old.me }
    requires own { carries seat.old.me.0.known seat.old.me.0.known.number ≡ true }
    requires lawful { S.means.lawful (S.call_data call) }
    ensures desk { seat.new.table_id ≡ seat.old.table_id }
    ensures idle { IsIdle seat.new.me }
    ensures answer { Answers S.means S.call_data S.reply_data seat.old.me.0.known call mode result.0
        seat.new.me.0.known }
    ensures sound { IsSound S.means seat.new.me.0.known }
    ensures count { result.1 ≡ length seat.new.me.0.known.seen }
{
    let count = take_lock(rt, face, seat);
    match put(face, seat, Place::Out) {
        Place::Here(object) => turn(face, alloc, seat, count, object, call, mode),
        Place::Out => {
            give_lock(face, seat);
            (Err(DeskFault::Closed), count)
        }
        Place::Turned(..) => unreachable!(),
    }
}

/// Ends the history, and hands the object out. The second answer is the length of what is then
/// seen.
pub fn close<S: Object, R: Wait>(
    rt: &R,
    face: &Face<S>,
    seat: &mut Chair<S>,
) -> (Result<S, Closed>, u64)
    requires desk { (seat.old.table_id ≡ face.now.table_id) × IsDesk face.now.table_id }
    requires idle { IsIdle seat.old.me }
    requires own { carries seat.old.me.0.known seat.old.me.0.known.number ≡ true }
    requires whole { IsWhole seat.old.me.0.known × (carries seat.old.me.0.known 0 ≡ true) }
    ensures desk { seat.new.table_id ≡ seat.old.table_id }
    ensures idle { IsIdle seat.new.me }
    ensures closes { Closes S.means S.content seat.old.me.0.known result.0 seat.new.me.0.known }
    ensures sound { IsSound S.means seat.new.me.0.known }
    ensures count { result.1 ≡ length seat.new.me.0.known.seen }
{
    let count = take_lock(rt, face, seat);
    match put(face, seat, Place::Out) {
        Place::Here(object) => {
            face.fetch_add::<Add<S>>(seat, 0, 1);
            give_lock(face, seat);
            (Ok(object), count + 1)
        }
        Place::Out => {
            give_lock(face, seat);
            (Err(Closed), count)
        }
        Place::Turned(..) => unreachable!(),
    }
}
