//! The calls of the board.
ghost use Rattle.std.specs.Prelude.{◌≡◌, ℕ, ◌+◌, ◌<◌, ◌≤◌, true, false, IfOk, IsErr, IfErr, IsOkAnd};
ghost use Rattle.status_board.specs.StatusLife.{rank, is_end, may_follow};
ghost use Rattle.status_board.specs.Views.{has_lane, has_drawn, lane_of, drawn_of, own_status, own_over, founder, newcomer, Drew, IsNewNumber, KeepsNumbers, HasAllNumbers};
ghost use Rattle.status_board.specs.Changes.{with_draw, with_status, with_look, with_ask, with_seat, met, IsHeard};
ghost use Rattle.status_board.specs.Agreement.{Agrees};
ghost use Rattle.status_board.specs.Seats.{view, IsSeatOf};

use crate::board::{Board, BoardSeat, TooManyLanes};
use crate::status::{CancelKind, Status};
use crate::steps::{ask, cut, draw, hear, join, look, set};
use atomic_table::Table;
use std::alloc::{AllocError, Global};

/// How many lanes have words.
const LANES: u64 = 1024;

/// The words of the board: the next lane number, and a status word and a cancel word for each lane.
const WORDS: usize = 2049;

impl Board {
    /// A board, and the seat of lane 0, which is Running. The next number is 1.
    pub fn make(alloc: Global) -> Result<(Board, BoardSeat), AllocError>
        ensures { IfOk result (λ r. IsSeatOf r.0 r.1 × (view r.1 ≡ founder)) }
    {
        let mut words = [0; WORDS];
        words[0] = 1;
        words[1] = Status::Running.code();
        let (table, token) = Table::of_words(alloc, &words, &())?;
        let seat = BoardSeat {
            lane: 0,
            status: Status::Running,
            over: 0,
            token,
        };
        Ok((Board { table }, seat))
    }

    /// The next number, which no other draw gives: a lane, or too great for one. The seat keeps a
    /// number that is too great, and answers it again at each later draw, without a step.
    pub fn draw(&self, seat: &mut BoardSeat) -> Result<u64, TooManyLanes>
        requires board { IsSeatOf self.now seat.old }
        ensures board { IsSeatOf self.now seat.new }
        ensures lane { IfOk result (λ n. (n < 1024) × IsNewNumber (view seat.old) n
            × (view seat.new ≡ with_draw (view seat.old) n)) }
        ensures too_many { IfErr result (λ e. (1024 ≤ e.number)
            × (own_over (view seat.new) ≡ e.number)) }
        ensures first { own_over (view seat.old) ≡ 0
            → IfErr result (λ e. IsNewNumber (view seat.old) e.number
            × (view seat.new ≡ with_draw (view seat.old) e.number)) }
        ensures again { 0 < own_over (view seat.old)
            → IsErr result × (view seat.new ≡ view seat.old) }
        ensures whole { HasAllNumbers (view seat.new) }
        ensures status { own_status (view seat.new) ≡ own_status (view seat.old) }
        ensures numbers { KeepsNumbers (view seat.old) (view seat.new) }
    {
        if seat.over != 0 {
            return Err(TooManyLanes { number: seat.over });
        }
        let number = draw(&self.table.shared, &mut seat.token);
        if number >= LANES {
            seat.over = number;
            return Err(TooManyLanes { number });
        }
        Ok(number)
    }

    /// The seat of a lane that this seat drew and made no seat for. It takes no memory, so it is
    /// never refused.
    pub fn seat_for(&self, seat: &mut BoardSeat, lane: u64) -> Result<BoardSeat, AllocError>
        requires board { IsSeatOf self.now seat.old }
        requires lane { Drew (view seat.old) lane }
        requires once { (drawn_of (view seat.old) lane).seated ≡ false }
        ensures board { IsSeatOf self.now seat.new }
        ensures made { IsOkAnd result (λ r. IsSeatOf self.now r × (view r ≡ newcomer lane)) }
        ensures seated { view seat.new ≡ with_seat (view seat.old) lane }
        ensures status { own_status (view seat.new) ≡ own_status (view seat.old) }
        ensures numbers { KeepsNumbers (view seat.old) (view seat.new) }
    {
        let token = cut(&self.table.shared, &mut seat.token, lane as usize);
        Ok(BoardSeat {
            lane,
            status: Status::Pending,
            over: 0,
            token,
        })
    }

    /// Sets the status of the seat's own lane, by one exclusive or on its word.
    pub fn set_status(&self, seat: &mut BoardSeat, to: Status)
        requires board { IsSeatOf self.now seat.old }
        requires may { may_follow (own_status (view seat.old)) to ≡ true }
        ensures board { IsSeatOf self.now seat.new }
        ensures set { (found : ℕ) × (view seat.new ≡ with_status (view seat.old) to found) }
        ensures status { own_status (view seat.new) ≡ to }
        ensures numbers { KeepsNumbers (view seat.old) (view seat.new) }
    {
        let lane = seat.lane as usize;
        set(&self.table.shared, &mut seat.token, lane, seat.status, to);
        seat.status = to;
    }

    /// One look at the status of a lane that this seat drew.
    pub fn status(&self, seat: &mut BoardSeat, lane: u64) -> Status
        requires board { IsSeatOf self.now seat.old }
        requires lane { Drew (view seat.old) lane }
        ensures board { IsSeatOf self.now seat.new }
        ensures looked { view seat.new ≡ with_look (view seat.old) lane result }
        ensures ranked { rank (drawn_of (view seat.old) lane).read ≤ rank result }
        ensures ended { is_end (drawn_of (view seat.old) lane).read ≡ true
            → (drawn_of (view seat.old) lane).read ≡ result }
        ensures status { own_status (view seat.new) ≡ own_status (view seat.old) }
        ensures numbers { KeepsNumbers (view seat.old) (view seat.new) }
    {
        Status::of_code(look(&self.table.shared, &mut seat.token, lane as usize))
    }

    /// Asks a lane that this seat drew to end, by one or on its cancel word.
    pub fn ask_cancel(&self, seat: &mut BoardSeat, lane: u64, kind: CancelKind)
        requires board { IsSeatOf self.now seat.old }
        requires lane { Drew (view seat.old) lane }
        ensures board { IsSeatOf self.now seat.new }
        ensures asked { (found : ℕ) × (view seat.new ≡ with_ask (view seat.old) lane kind found) }
        ensures status { own_status (view seat.new) ≡ own_status (view seat.old) }
        ensures numbers { KeepsNumbers (view seat.old) (view seat.new) }
    {
        ask(&self.table.shared, &mut seat.token, lane as usize, kind);
    }

    /// One look at the cancel word of the seat's own lane: the stronger kind that was asked.
    pub fn cancel_asked(&self, seat: &mut BoardSeat) -> Option<CancelKind>
        requires board { IsSeatOf self.now seat.old }
        ensures board { IsSeatOf self.now seat.new }
        ensures heard { IsHeard (view seat.old) (view seat.new) result }
        ensures status { own_status (view seat.new) ≡ own_status (view seat.old) }
        ensures numbers { KeepsNumbers (view seat.old) (view seat.new) }
    {
        let lane = seat.lane as usize;
        CancelKind::in_bits(hear(&self.table.shared, &mut seat.token, lane))
    }

    /// Takes in another seat, with all that it shows.
    pub fn meet(&self, seat: &mut BoardSeat, other: BoardSeat)
        requires board { IsSeatOf self.now seat.old × IsSeatOf self.now other }
        ensures board { IsSeatOf self.now seat.new }
        ensures met { view seat.new ≡ met (view seat.old) (view other) }
        ensures lanes { (lane : ℕ) → has_lane (view other) lane ≡ true
            → (has_lane (view seat.old) lane ≡ false)
            × (lane_of (view seat.new) lane ≡ lane_of (view other) lane) }
        ensures drawn { (number : ℕ) → has_drawn (view other) number ≡ true
            → (has_drawn (view seat.old) number ≡ false)
            × (drawn_of (view seat.new) number ≡ drawn_of (view other) number) }
        ensures agrees { Agrees (view seat.new) }
        ensures whole { HasAllNumbers (view seat.new) }
        ensures status { own_status (view seat.new) ≡ own_status (view seat.old) }
        ensures numbers { KeepsNumbers (view seat.old) (view seat.new) }
    {
        let BoardSeat {
            lane: _,
            status: _,
            over: _,
            token,
        } = other;
        join(&self.table.shared, &mut seat.token, token);
    }
}
