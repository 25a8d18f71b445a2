//! Statuses.
ghost use Rattle.std.specs.Prelude.{◌≡◌, true};
ghost use Rattle.status_board.specs.declared.status.Status.TheVariants.{Pending};
ghost use Rattle.status_board.specs.StatusLife.{is_end};
ghost use Rattle.status_board.specs.Views.{own_status, Drew};
ghost use Rattle.status_board.specs.Seats.{view, IsSeatOf};

use crate::lanes::{rank, start};
use status_board::{Board, BoardSeat, Status};
use std::test::Fail;
use std::thread::{Threads, join};

/// A lane that runs and waits by turns, and ends.
fn live(board: &Board, mut seat: BoardSeat, turns: usize, end: Status) -> BoardSeat
    requires board { IsSeatOf board.now seat }
    requires pending { own_status (view seat) ≡ Pending }
    requires end { is_end end ≡ true }
    ensures { IsSeatOf board.now result }
{
    board.set_status(&mut seat, Status::Running);
    for _ in 0..turns {
        board.set_status(&mut seat, Status::Waiting);
        board.set_status(&mut seat, Status::Running);
    }
    board.set_status(&mut seat, end);
    seat
}

/// Looks at a lane: the seat, and whether a status was of lower rank than one before, or an end
/// changed.
fn watch(board: &Board, mut seat: BoardSeat, lane: u64, looks: usize) -> (BoardSeat, bool)
    requires board { IsSeatOf board.now seat }
    requires lane { Drew (view seat) lane }
    ensures board { IsSeatOf board.now result.0 }
    ensures lane { Drew (view result.0) lane }
{
    let mut last = Status::Pending;
    let mut fell = false;
    for _ in 0..looks {
        let now = board.status(&mut seat, lane);
        fell = fell || rank(now) < rank(last) || rank(last) == 2 && now != last;
        last = now;
    }
    (seat, fell)
}

/// A lane and one that it starts, each in a thread: the seat, and whether all looks were in order
/// and the last was the end.
fn pair<R: Threads + Sync>(
    rt: &R,
    board: &Board,
    mut seat: BoardSeat,
    end: Status,
) -> (BoardSeat, bool)
    requires board { IsSeatOf board.now seat }
    requires end { is_end end ≡ true }
    ensures { IsSeatOf board.now result.0 }
{
    let Some((lane, new)) = start(board, &mut seat) else {
        return (seat, false);
    };
    let (new, (mut seat, fell)) = join(
        rt,
        || -> BoardSeat
            requires { IsSeatOf board.now new × (own_status (view new) ≡ Pending)
                × (is_end end ≡ true) }
            ensures { IsSeatOf board.entry.now result }
        { live(board, new, 20_000, end) },
        || -> (BoardSeat, bool)
            requires { IsSeatOf board.now seat × Drew (view seat) lane }
            ensures { IsSeatOf board.entry.now result.0 × Drew (view result.0) lane }
        { watch(board, seat, lane, 20_000) },
    );
    let ended = board.status(&mut seat, lane);
    board.meet(&mut seat, new);
    (seat, !fell && ended == end)
}

/// Two lanes, each with one that it starts.
fn four<R: Threads + Sync>(
    rt: &R,
    board: &Board,
    one: BoardSeat,
    two: BoardSeat,
) -> (BoardSeat, BoardSeat, bool)
    requires { IsSeatOf board.now one × IsSeatOf board.now two }
    ensures { IsSeatOf board.now result.0 × IsSeatOf board.now result.1 }
{
    let ((one, first), (two, second)) = join(
        rt,
        || -> (BoardSeat, bool)
            requires { IsSeatOf board.now one }
            ensures { IsSeatOf board.entry.now result.0 }
        { pair(rt, board, one, Status::Done) },
        || -> (BoardSeat, bool)
            requires { IsSeatOf board.now two }
            ensures { IsSeatOf board.entry.now result.0 }
        { pair(rt, board, two, Status::Error) },
    );
    (one, two, first && second)
}

/// Four lanes, each with one that it starts: eight threads. Whether all looks were in order.
fn eight<R: Threads + Sync>(rt: &R, board: &Board, mut seat: BoardSeat) -> Option<bool>
    requires { IsSeatOf board.now seat }
{
    let (_, one) = start(board, &mut seat)?;
    let (_, two) = start(board, &mut seat)?;
    let (_, three) = start(board, &mut seat)?;
    let (_, last) = start(board, &mut seat)?;
    let ((one, two, first), (three, last, second)) = join(
        rt,
        || -> (BoardSeat, BoardSeat, bool)
            requires { IsSeatOf board.now one × IsSeatOf board.now two }
            ensures { IsSeatOf board.entry.now result.0 × IsSeatOf board.entry.now result.1 }
        { four(rt, board, one, two) },
        || -> (BoardSeat, BoardSeat, bool)
            requires { IsSeatOf board.now three × IsSeatOf board.now last }
            ensures { IsSeatOf board.entry.now result.0 × IsSeatOf board.entry.now result.1 }
        { four(rt, board, three, last) },
    );
    board.meet(&mut seat, one);
    board.meet(&mut seat, two);
    board.meet(&mut seat, three);
    board.meet(&mut seat, last);
    Some(first && second)
}

#[test]
fn statuses_never_fall(rt: HostRuntime) -> Result<(), Fail> {
    let (board, seat) = Board::make(rt.alloc())?;
    assert_eq!(rt; eight(&rt, &board, seat), Some(true));
    Ok(())
}
