//! The looks.
ghost use Rattle.std.specs.Prelude.{◌≡◌};
ghost use Rattle.status_board.specs.Views.{Drew};
ghost use Rattle.status_board.specs.Seats.{view, IsSeatOf};

use status_board::{Board, BoardSeat, Status};
use std::alloc::Global;

fn statuses(board: &Board, seat: &mut BoardSeat, lane: u64, count: u32) -> u32
    requires board { IsSeatOf board.now seat.old }
    requires lane { Drew (view seat.old) lane }
    ensures { IsSeatOf board.now seat.new }
{
    let mut pending = 0;
    for _ in 0..count {
        if board.status(seat, lane) == Status::Pending {
            pending += 1;
        }
    }
    pending
}

fn cancels(board: &Board, seat: &mut BoardSeat, count: u32) -> u32
    requires { IsSeatOf board.now seat.old }
    ensures { IsSeatOf board.now seat.new }
{
    let mut unasked = 0;
    for _ in 0..count {
        if board.cancel_asked(seat).is_none() {
            unasked += 1;
        }
    }
    unasked
}

/// So many looks with the call of this name: how many of them gave Pending, or no ask.
pub fn run_looks(alloc: Global, call: &str, looks: u32) -> u32 {
    let Ok((board, mut seat)) = Board::make(alloc) else {
        return 0;
    };
    let Ok(lane) = board.draw(&mut seat) else {
        return 0;
    };
    if call == "status" {
        statuses(&board, &mut seat, lane, looks)
    } else if call == "cancel_asked" {
        cancels(&board, &mut seat, looks)
    } else {
        0
    }
}
