//! The desk.
ghost use Rattle.std.specs.Prelude.{◌≡◌, ◌∷◌, [], length, true, IfErr, IfOk};
ghost use Rattle.atomic_table.specs.Seated.{TableId};
ghost use Rattle.history_desk.specs.declared.known.Place.TheVariants.{Here};
ghost use Rattle.history_desk.specs.Passes.{carries, newcomer, Looked, IsSound, IsWhole};
ghost use Rattle.history_desk.specs.Outcomes.{Answers, Closes, IsEnrolled, IsMet, IsNotEnrolled};

use crate::known::Place;
use crate::law::{Board, Spot};
use crate::pass::Pass;
use crate::turn::{Closed, DeskFault, Turn};
use crate::{numbers, turning};
use atomic_table::{Refused, Table};
use desk_object::{Mode, Object};
use std::alloc::Global;
use std::marker::Model;
use std::sync::{Condvar, Mutex, Wait};
use std::time::{Clock, Duration};

/// The longest that a pause takes, in milliseconds.
const PAUSE: u64 = 50;

/// An object behind a lock, with the history of its calls. Contracts see which desk it is: all that
/// is known of the history is what passes know.
#[derive(Drop)]
pub struct Desk<S: Object> {
    gate: Mutex<()>,
    grown: Condvar,
    board: Board<S>,
}

impl<S: Object> Model for Desk<S> {
    ghost use Rattle.atomic_table.specs.Seated.{TableId};
    ghost use Rattle.history_desk.specs.Rule.{IsDesk};

    ghost Value = { TableId };

    ghost view = { λ d. d.board.shared.table_id };

    ghost invariant = { λ d. IsDesk d.board.shared.table_id };
}

/// The object in the one slot of a table that was refused.
fn given_back<S: Object>(mut slots: Vec<Spot<S>>) -> S
    requires { (object : S) × (slots.items ≡ Here object ∷ []) }
    ensures { slots.items ≡ Here result ∷ [] }
{
    match slots.pop() {
        Some(Place::Here(object)) => object,
        _ => unreachable!(),
    }
}

impl<S: Object> Desk<S> {
    /// A desk with an empty history, and its first pass, which has number 0. The only refusal is
    /// want of memory, and hands the object back.
    pub fn make(alloc: Global, object: S) -> Result<(Desk<S>, Pass<S>), S>
        requires { S.content object ≡ S.means.opening }
        ensures desk { IfOk result (λ r. r.1.desk ≡ r.0) }
        ensures pass { IfOk result (λ r. r.1.known ≡ newcomer 0 []) }
        ensures err { IfErr result (λ back. back ≡ object) }
    {
        let mut slots = Vec::new(alloc);
        if slots.reserve(1).is_err() {
            return Err(object);
        }
        slots.push_reserved(Place::Here(object));
        match Table::new(alloc, &[0, 0, 1], slots, &()) {
            Ok((board, seat)) => Ok((
                Desk {
                    gate: Mutex::new(()),
                    grown: Condvar::new(),
                    board,
                },
                Pass {
                    number: 0,
                    count: 0,
                    seat,
                },
            )),
            Err(Refused { slots }) => Err(given_back(slots)),
        }
    }

    /// Makes a call, with the pass's number as its caller. It may wait for the lock. Refusals come
    /// in this order: `Closed` where the pass had seen a Close before, `Spent` where the history
    /// has 2^62 entries, `NotYet` in mode `Try` where the call does not fit, and want of memory.
    pub fn call<R: Wait>(
        &self,
        rt: &R,
        alloc: Global,
        pass: &mut Pass<S>,
        call: S::Call,
        mode: Mode,
    ) -> Result<Turn<S>, DeskFault>
        requires desk { pass.old.desk ≡ self.now }
        requires lawful { S.means.lawful (S.call_data call) }
        ensures desk { pass.new.desk ≡ self.now }
        ensures answer { Answers S.means S.call_data S.reply_data pass.old.known call mode result
            pass.new.known }
        ensures sound { IsSound S.means pass.new.known }
    {
        let _guard = self.gate.lock(rt);
        let (answer, count) = turning::call(
            rt,
            &self.board.shared,
            alloc,
            &mut pass.seat,
            call,
            mode,
        );
        pass.count = count;
        if matches!(&answer, Ok(Turn::Made(_))) {
            self.grown.notify_all();
        }
        answer
    }

    /// Sees the history as it is, and answers its length. It waits for nobody.
    pub fn look(&self, pass: &mut Pass<S>) -> u64
        requires { pass.old.desk ≡ self.now }
        ensures desk { pass.new.desk ≡ self.now }
        ensures looked { Looked pass.old.known pass.new.known }
        ensures sound { IsSound S.means pass.new.known }
        ensures length { result ≡ length pass.new.known.seen }
    {
        pass.count = numbers::look(&self.board.shared, &mut pass.seat);
        pass.count
    }

    /// A pass with the next number, which has seen what this one then has. It may wait for the
    /// lock, and takes no memory. It is refused with `Closed` where the pass had seen a Close
    /// before, and with `Spent` where 2^62 numbers were given.
    pub fn enrol<R: Wait>(&self, rt: &R, pass: &mut Pass<S>) -> Result<Pass<S>, DeskFault>
        requires { pass.old.desk ≡ self.now }
        ensures desk { pass.new.desk ≡ self.now }
        ensures new { IfOk result (λ new. (new.desk ≡ self.now) × IsSound S.means new.known) }
        ensures enrolled { IfOk result (λ new. IsEnrolled pass.old.known new.known pass.new.known) }
        ensures err { IfErr result (λ fault. IsNotEnrolled pass.old.known fault pass.new.known) }
        ensures sound { IsSound S.means pass.new.known }
    {
        let _guard = self.gate.lock(rt);
        let (answer, count) = numbers::enrol(rt, &self.board.shared, &mut pass.seat);
        pass.count = count;
        match answer {
            Ok((number, seat)) => Ok(Pass {
                number,
                count,
                seat,
            }),
            Err(fault) => Err(fault),
        }
    }

    /// Takes in another pass of this desk. It waits for nobody, and takes no memory.
    pub fn meet(&self, pass: &mut Pass<S>, other: Pass<S>)
        requires { (pass.old.desk ≡ self.now) × (other.desk ≡ self.now) }
        ensures desk { pass.new.desk ≡ self.now }
        ensures met { IsMet pass.old.known other.known pass.new.known }
        ensures sound { IsSound S.means pass.new.known }
    {
        let Pass {
            number: _,
            count,
            seat,
        } = other;
        numbers::meet(&self.board.shared, &mut pass.seat, seat);
        pass.count = pass.count.max(count);
    }

    /// Waits until an entry is appended, for at most 50 milliseconds, and not at all where the
    /// history is longer than what the pass has seen. It tells nothing.
    pub fn pause<R: Wait + Clock>(&self, rt: &R, pass: &Pass<S>) {
        let guard = self.gate.lock(rt);
        if self.board.shared.peek(0) == pass.count {
            let _ended = self
                .grown
                .wait_timeout(rt, guard, Duration::from_millis(PAUSE));
        }
    }

    /// Ends the history, and hands the object out. It may wait for the lock, and takes no memory.
    /// It is refused only where the pass had seen a Close before.
    pub fn close<R: Wait>(&self, rt: &R, pass: &mut Pass<S>) -> Result<S, Closed>
        requires desk { pass.old.desk ≡ self.now }
        requires whole { IsWhole pass.old.known × (carries pass.old.known 0 ≡ true) }
        ensures desk { pass.new.desk ≡ self.now }
        ensures closes { Closes S.means S.content pass.old.known result pass.new.known }
        ensures sound { IsSound S.means pass.new.known }
    {
        let _guard = self.gate.lock(rt);
        let (answer, count) = turning::close(rt, &self.board.shared, &mut pass.seat);
        pass.count = count;
        self.grown.notify_all();
        answer
    }
}
