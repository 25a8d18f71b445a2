//! The calls of a desk, one after the other.
ghost use Rattle.std.specs.Prelude.{◌≡◌, [], true};
ghost use Rattle.history_desk.specs.Passes.{carries, newcomer, IsWhole};
ghost use Rattle.history_desk.proofs.Callers.{IsGrown, Keeps};

use desk_queue::{Op, Queue, Reply};
use history_desk::{Desk, DeskFault, Mode, Pass, Turn};
use std::alloc::Global;
use std::process::Abort;
use std::sync::Wait;

/// A desk with an empty queue.
fn opened<R: Abort>(rt: &R, alloc: Global) -> (Desk<Queue>, Pass<Queue>)
    ensures desk { result.1.desk ≡ result.0 }
    ensures pass { result.1.known ≡ newcomer 0 [] }
{
    match Desk::make(alloc, Queue::new(alloc)) {
        Ok(made) => made,
        Err(_) => panic!(rt; "there is memory"),
    }
}

/// Whether the call is replied to so.
fn replies<R: Wait>(
    rt: &R,
    alloc: Global,
    desk: &Desk<Queue>,
    pass: &mut Pass<Queue>,
    op: Op,
    mode: Mode,
    reply: Reply,
) -> bool
    requires { pass.old.desk ≡ desk.now }
    ensures desk { pass.new.desk ≡ desk.now }
    ensures keeps { Keeps pass.old.known pass.new.known }
{
    match desk.call(rt, alloc, pass, op, mode) {
        Ok(Turn::Made(found)) => found == reply,
        _ => false,
    }
}

/// Whether a second pass is replied to as its place in the history says: it receives the one
/// number, tries again, gives up, and withdraws.
fn receives<R: Wait>(rt: &R, alloc: Global, desk: &Desk<Queue>, second: &mut Pass<Queue>) -> bool
    requires { second.old.desk ≡ desk.now }
    ensures desk { second.new.desk ≡ desk.now }
    ensures keeps { Keeps second.old.known second.new.known }
{
    let got = replies(
        rt,
        alloc,
        desk,
        second,
        Op::Receive,
        Mode::Try,
        Reply::Got(1),
    );
    let got = got & (second.length() == 2);
    let none = waits(rt, alloc, desk, second) & (second.length() == 2);
    let short = replies(
        rt,
        alloc,
        desk,
        second,
        Op::Receive,
        Mode::GiveUp,
        Reply::Short,
    );
    let short = short & (second.length() == 3);
    let back = replies(
        rt,
        alloc,
        desk,
        second,
        Op::Receive,
        Mode::Withdraw,
        Reply::TakenBack,
    );
    got & none & short & back & (second.length() == 4)
}

/// Whether a Receive is not ready.
fn waits<R: Wait>(rt: &R, alloc: Global, desk: &Desk<Queue>, pass: &mut Pass<Queue>) -> bool
    requires { pass.old.desk ≡ desk.now }
    ensures desk { pass.new.desk ≡ desk.now }
    ensures keeps { Keeps pass.old.known pass.new.known }
{
    matches!(
        desk.call(rt, alloc, pass, Op::Receive, Mode::Try),
        Ok(Turn::NotYet(Op::Receive)),
    )
}

/// Whether the first pass and a second that it enrols are replied to so, and the first has then
/// seen all that the second saw.
fn by_two<R: Wait>(rt: &R, alloc: Global, desk: &Desk<Queue>, first: &mut Pass<Queue>) -> bool
    requires { first.old.desk ≡ desk.now }
    ensures desk { first.new.desk ≡ desk.now }
    ensures grown { IsGrown first.old.known first.new.known }
{
    let sent = replies(rt, alloc, desk, first, Op::Send(1), Mode::Try, Reply::Sent);
    let Ok(mut second) = desk.enrol(rt, first) else {
        return false;
    };
    let new = (second.number() == 1) & (second.length() == 1);
    let received = receives(rt, alloc, desk, &mut second);
    let before = first.length() == 1;
    desk.meet(first, second);
    sent & new & received & before & (first.length() == 4)
}

/// Whether the desk is closed once, and each call after that is refused for it.
fn ends<R: Wait>(rt: &R, alloc: Global, desk: &Desk<Queue>, first: &mut Pass<Queue>) -> bool
    requires desk { first.old.desk ≡ desk.now }
    requires whole { IsWhole first.old.known × (carries first.old.known 0 ≡ true) }
{
    let Ok(queue) = desk.close(rt, first) else {
        return false;
    };
    let closed = (queue.len() == 0) & (first.length() == 5);
    let called = matches!(
        desk.call(rt, alloc, first, Op::Send(1), Mode::Try),
        Err(DeskFault::Closed),
    );
    let enrolled = matches!(desk.enrol(rt, first), Err(DeskFault::Closed));
    closed & called & enrolled & (first.length() == 5) & (desk.look(first) == 5)
}

#[test]
fn a_desk_by_its_calls(rt: HostRuntime) {
    let alloc = rt.alloc();
    let (desk, mut first) = opened(&rt, alloc);
    let called = by_two(&rt, alloc, &desk, &mut first);
    assert!(&rt; called);
    let ended = ends(&rt, alloc, &desk, &mut first);
    assert!(&rt; ended);
}
