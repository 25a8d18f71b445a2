//! Numbers.
ghost use Rattle.std.specs.Prelude.{◌≡◌};
ghost use Rattle.status_board.specs.declared.status.Status.TheVariants.{Pending};
ghost use Rattle.status_board.specs.Views.{own_status, Drew};
ghost use Rattle.status_board.specs.Seats.{view, IsSeatOf};

use crate::lanes::{rank, start};
use status_board::{Board, BoardSeat, Status, TooManyLanes};
use std::alloc::Global;
use std::test::Fail;
use std::thread::{Threads, join};

/// A lane that draws numbers between Running and Done: its seat and the numbers.
fn draw_some(
    alloc: Global,
    board: &Board,
    mut seat: BoardSeat,
    count: usize,
) -> (BoardSeat, Vec<u64>)
    requires board { IsSeatOf board.now seat }
    requires pending { own_status (view seat) ≡ Pending }
    ensures { IsSeatOf board.now result.0 }
{
    let mut numbers = Vec::new(alloc);
    board.set_status(&mut seat, Status::Running);
    for _ in 0..count {
        if let Ok(number) = board.draw(&mut seat) {
            if numbers.push(number).is_err() {
                break;
            }
        }
    }
    board.set_status(&mut seat, Status::Done);
    (seat, numbers)
}

/// Looks at two lanes by turns: the seat, and whether a status was ever of lower rank than one
/// before.
fn watch_two(
    board: &Board,
    mut seat: BoardSeat,
    one: u64,
    two: u64,
    count: usize,
) -> (BoardSeat, bool)
    requires board { IsSeatOf board.now seat }
    requires one { Drew (view seat) one }
    requires two { Drew (view seat) two }
    ensures board { IsSeatOf board.now result.0 }
    ensures one { Drew (view result.0) one }
    ensures two { Drew (view result.0) two }
{
    let mut ranks = (0, 0);
    let mut fell = false;
    for _ in 0..count {
        let now = (
            rank(board.status(&mut seat, one)),
            rank(board.status(&mut seat, two)),
        );
        fell = fell || now.0 < ranks.0 || now.1 < ranks.1;
        ranks = now;
    }
    (seat, fell)
}

/// What came of two lanes that drew while a third looked at them.
#[derive(Drop)]
struct Seen {
    fell: bool,
    numbers: Vec<u64>,
    one: Status,
    two: Status,
}

/// Two lanes draw 100 numbers each, while the seat that drew them looks at both.
fn two_lanes<R: Threads + Sync>(
    rt: &R,
    alloc: Global,
    board: &Board,
    mut seat: BoardSeat,
) -> Option<Seen>
    requires { IsSeatOf board.now seat }
{
    let (one, first) = start(board, &mut seat)?;
    let (two, second) = start(board, &mut seat)?;
    let (((first, numbers), (second, more)), (mut seat, fell)) = join(
        rt,
        || -> ((BoardSeat, Vec<u64>), (BoardSeat, Vec<u64>))
            requires { IsSeatOf board.now first × (own_status (view first) ≡ Pending)
                × IsSeatOf board.now second × (own_status (view second) ≡ Pending) }
            ensures { IsSeatOf board.entry.now result.0.0 × IsSeatOf board.entry.now result.1.0 }
        {
            join(
                rt,
                || -> (BoardSeat, Vec<u64>)
                    requires { IsSeatOf board.now first × (own_status (view first) ≡ Pending) }
                    ensures { IsSeatOf board.entry.now result.0 }
                { draw_some(alloc, board, first, 100) },
                || -> (BoardSeat, Vec<u64>)
                    requires { IsSeatOf board.now second × (own_status (view second) ≡ Pending) }
                    ensures { IsSeatOf board.entry.now result.0 }
                { draw_some(alloc, board, second, 100) },
            )
        },
        || -> (BoardSeat, bool)
            requires { IsSeatOf board.now seat × Drew (view seat) one × Drew (view seat) two }
            ensures { IsSeatOf board.entry.now result.0 × Drew (view result.0) one
                × Drew (view result.0) two }
        { watch_two(board, seat, one, two, 1000) },
    );
    board.meet(&mut seat, first);
    board.meet(&mut seat, second);
    let mut all = numbers;
    for &number in &more {
        if all.push(number).is_err() {
            return None;
        }
    }
    Some(Seen {
        fell,
        numbers: all,
        one: board.status(&mut seat, one),
        two: board.status(&mut seat, two),
    })
}

#[test]
fn numbers_of_two_threads(rt: HostRuntime) -> Result<(), Fail> {
    let (board, seat) = Board::make(rt.alloc())?;
    let Some(seen) = two_lanes(&rt, rt.alloc(), &board, seat) else {
        panic!(&rt; "no lanes");
    };
    assert!(rt; !seen.fell);
    assert_eq!(rt; (seen.one, seen.two), (Status::Done, Status::Done));
    assert_eq!(rt; seen.numbers.len(), 200);
    for wanted in 3..203 {
        assert!(rt; seen.numbers.contains(&wanted), "{wanted}");
    }
    Ok(())
}

#[test]
fn too_many_lanes(rt: HostRuntime) -> Result<(), Fail> {
    let (board, mut seat) = Board::make(rt.alloc())?;
    for wanted in 1..1024 {
        assert_eq!(rt; board.draw(&mut seat), Ok(wanted));
    }
    for _ in 0..3 {
        assert_eq!(rt; board.draw(&mut seat), Err(TooManyLanes { number: 1024 }));
    }
    Ok(())
}

#[test]
fn text_of_the_refusal(rt: HostRuntime) -> Result<(), Fail> {
    let text = format!(in rt.alloc(); "{}", TooManyLanes { number: 1024 })?;
    assert_eq!(rt; text.as_str(), "too many lanes");
    Ok(())
}
