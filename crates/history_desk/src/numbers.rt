//! Numbers for new passes, passes that are put together, and looks without the lock.
ghost use Rattle.std.specs.Prelude.{◌≡◌, ◌∷◌, [], ◌^◌, length, true, IfErr, IfOk};
ghost use Rattle.history_desk.specs.Passes.{carries, newcomer, Looked, IsSound};
ghost use Rattle.history_desk.specs.Rule.{IsDesk, holding, idle};
ghost use Rattle.history_desk.specs.Steps.{IsHolding, IsIdle, enroller};
ghost use Rattle.history_desk.specs.Outcomes.{IsEnrolled, IsMet, IsNotEnrolled};
ghost use Rattle.history_desk.specs.declared.known.Place.{Place};

use crate::known::Place;
use crate::law::{Ask, Chair, Cut, Draw, Face, Glue, Look, Settle};
use crate::slot::{give_lock, put, put_back, take_lock};
use crate::turn::DeskFault;
use desk_object::Object;
use std::sync::Wait;

/// The most numbers that a desk gives.
const LIMIT: u64 = 1 << 62;

/// Sees the history as it is, and answers its length.
pub fn look<S: Object>(face: &Face<S>, seat: &mut Chair<S>) -> u64
    requires desk { (seat.old.table_id ≡ face.now.table_id) × IsDesk face.now.table_id }
    requires idle { IsIdle seat.old.me }
    requires own { carries seat.old.me.0.known seat.old.me.0.known.number ≡ true }
    ensures desk { seat.new.table_id ≡ seat.old.table_id }
    ensures idle { IsIdle seat.new.me }
    ensures looked { Looked seat.old.me.0.known seat.new.me.0.known }
    ensures sound { IsSound S.means seat.new.me.0.known }
    ensures count { result ≡ length seat.new.me.0.known.seen }
{
    face.load::<Look<S>>(seat, 0)
}

/// The next number, and a pass for it. An error is the number that is too many.
fn number<S: Object>(face: &Face<S>, seat: &mut Chair<S>) -> Result<(u64, Chair<S>), u64>
    requires desk { (seat.old.table_id ≡ face.now.table_id) × IsDesk face.now.table_id }
    requires holding { (p : Place S S.Call S.Reply) × IsHolding seat.old.me p }
    requires own { carries seat.old.me.0.known seat.old.me.0.known.number ≡ true }
    ensures desk { seat.new.table_id ≡ seat.old.table_id }
    ensures new { IfOk result (λ r. (r.1.table_id ≡ seat.old.table_id)
        × (r.0 ≡ seat.old.me.0.known.given)
        × (r.1.me ≡ (idle (newcomer seat.old.me.0.known.given seat.old.me.0.known.seen), []))) }
    ensures given { IfOk result (λ r.
        seat.new.me ≡ (holding (enroller seat.old.me.0.known), seat.old.me.1)) }
    ensures err { IfErr result (λ n. (n ≡ 2 ^ 62) × (n ≡ seat.old.me.0.known.given)
        × (seat.new.me ≡ seat.old.me)) }
{
    let next = face.load::<Ask>(seat, 2);
    if next >= LIMIT {
        return Err(next);
    }
    face.fetch_add::<Draw>(seat, 2, 1);
    let other = face.split_seat::<Cut>(seat);
    Ok((next, other))
}

/// A pass with a number of its own. The second answer is the length of what is then seen.
pub fn enrol<S: Object, R: Wait>(
    rt: &R,
    face: &Face<S>,
    seat: &mut Chair<S>,
) -> (Result<(u64, Chair<S>), DeskFault>, u64)
    requires desk { (seat.old.table_id ≡ face.now.table_id) × IsDesk face.now.table_id }
    requires idle { IsIdle seat.old.me }
    requires own { carries seat.old.me.0.known seat.old.me.0.known.number ≡ true }
    ensures desk { seat.new.table_id ≡ seat.old.table_id }
    ensures idle { IsIdle seat.new.me }
    ensures new { IfOk result.0 (λ r. (r.1.table_id ≡ seat.old.table_id) × IsIdle r.1.me
        × (r.0 ≡ r.1.me.0.known.number) × IsSound S.means r.1.me.0.known) }
    ensures enrolled { IfOk result.0 (λ r.
        IsEnrolled seat.old.me.0.known r.1.me.0.known seat.new.me.0.known) }
    ensures err { IfErr result.0 (λ fault.
        IsNotEnrolled seat.old.me.0.known fault seat.new.me.0.known) }
    ensures sound { IsSound S.means seat.new.me.0.known }
    ensures count { result.1 ≡ length seat.new.me.0.known.seen }
{
    let count = take_lock(rt, face, seat);
    match put(face, seat, Place::Out) {
        Place::Here(object) => {
            let drawn = number(face, seat);
            put_back(face, seat, Place::Here(object));
            match drawn {
                Ok(new) => (Ok(new), count),
                Err(next) => (Err(DeskFault::Spent(next)), count),
            }
        }
        Place::Out => {
            give_lock(face, seat);
            (Err(DeskFault::Closed), count)
        }
        Place::Turned(..) => unreachable!(),
    }
}

/// Takes in another pass.
pub fn meet<S: Object>(face: &Face<S>, seat: &mut Chair<S>, other: Chair<S>)
    requires desk { (seat.old.table_id ≡ face.now.table_id) × (other.table_id ≡ face.now.table_id)
        × IsDesk face.now.table_id }
    requires idle { IsIdle seat.old.me × IsIdle other.me }
    requires sound { IsSound S.means seat.old.me.0.known × IsSound S.means other.me.0.known }
    ensures desk { seat.new.table_id ≡ seat.old.table_id }
    ensures idle { IsIdle seat.new.me }
    ensures met { IsMet seat.old.me.0.known other.me.0.known seat.new.me.0.known }
    ensures sound { IsSound S.means seat.new.me.0.known }
{
    face.join_seat::<Glue>(seat, other);
    face.load::<Settle>(seat, 0);
}
