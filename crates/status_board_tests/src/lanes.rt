//! What the tests of the board share.
ghost use Rattle.std.specs.Prelude.{◌≡◌, IfSome};
ghost use Rattle.status_board.specs.declared.status.Status.TheVariants.{Pending};
ghost use Rattle.status_board.specs.Views.{own_status, Drew, KeepsNumbers};
ghost use Rattle.status_board.specs.Seats.{view, IsSeatOf};

use status_board::{Board, BoardSeat, Status};

/// A lane that the seat draws, and the seat of that lane.
pub fn start(board: &Board, seat: &mut BoardSeat) -> Option<(u64, BoardSeat)>
    requires { IsSeatOf board.now seat.old }
    ensures board { IsSeatOf board.now seat.new }
    ensures lane { IfSome result (λ r. Drew (view seat.new) r.0) }
    ensures new { IfSome result (λ r. IsSeatOf board.now r.1 × (own_status (view r.1) ≡ Pending)) }
    ensures numbers { KeepsNumbers (view seat.old) (view seat.new) }
{
    let Ok(lane) = board.draw(seat) else {
        return None;
    };
    let Ok(new) = board.seat_for(seat, lane) else {
        return None;
    };
    Some((lane, new))
}

/// How far in its life a lane with this status is.
pub fn rank(status: Status) -> u8 {
    match status {
        Status::Pending => 0,
        Status::Running | Status::Waiting => 1,
        Status::Done | Status::Error | Status::Cancelled => 2,
    }
}
