//! Asks to cancel, in each order.
use crate::lanes::start;
use status_board::{Board, CancelKind};
use std::alloc::Global;

type Answer = Option<CancelKind>;

/// What a lane's seat answers before it was asked, twice after the first ask, and after the second.
fn answers(
    alloc: Global,
    first: CancelKind,
    second: CancelKind,
) -> Option<(Answer, Answer, Answer, Answer)> {
    let (board, mut seat) = Board::make(alloc).ok()?;
    let (lane, mut own) = start(&board, &mut seat)?;
    let before = board.cancel_asked(&mut own);
    board.ask_cancel(&mut seat, lane, first);
    let once = board.cancel_asked(&mut own);
    let again = board.cancel_asked(&mut own);
    board.ask_cancel(&mut seat, lane, second);
    let twice = board.cancel_asked(&mut own);
    board.meet(&mut seat, own);
    Some((before, once, again, twice))
}

#[test]
fn asks_in_each_order(rt: HostRuntime) {
    use CancelKind::{Hard, Soft};
    for (first, second, once, twice) in [
        (Soft, Hard, Some(Soft), Some(Hard)),
        (Hard, Soft, Some(Hard), Some(Hard)),
        (Soft, Soft, Some(Soft), Some(Soft)),
        (Hard, Hard, Some(Hard), Some(Hard)),
    ] {
        let wanted = Some((None, once, once, twice));
        assert!(rt; answers(rt.alloc(), first, second) == wanted);
    }
}
