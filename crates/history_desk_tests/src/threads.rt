//! Threads that share a desk.
ghost use Rattle.std.specs.Prelude.{◌≡◌, [], IfSome};
ghost use Rattle.std.specs.Thread.{IsSync};
ghost use Rattle.history_desk.specs.Passes.{newcomer};
ghost use Rattle.history_desk.proofs.Callers.{IsGrown, Keeps};

use crate::noted::{Asked, Note, Noted};
use desk_queue::{Op, Queue, Reply};
use history_desk::{Desk, Ending, Mode, Pass, Turn};
use std::alloc::Global;
use std::collections::VecDeque;
use std::sync::Wait;
use std::thread::{Threads, join};
use std::time::Clock;

/// Which calls threads make.
#[derive(Clone, Copy)]
enum Kind {
    Sends,
    Any,
}

/// The calls that were made with one pass, with their replies, in order.
#[derive(Drop)]
struct Row {
    from: u64,
    made: Vec<(Op, Reply)>,
}

/// Makes calls. Those of any kind are chosen by numbers that follow from the pass's.
fn work<R: Wait>(
    rt: &R,
    alloc: Global,
    desk: &Desk<Noted>,
    mut pass: Pass<Noted>,
    kind: Kind,
    calls: u64,
) -> Option<(Pass<Noted>, Row)>
    requires { pass.desk ≡ desk.now }
    ensures desk { IfSome result (λ r. r.0.desk ≡ desk.now) }
    ensures keeps { IfSome result (λ r. Keeps pass.known r.0.known) }
{
    let from = pass.number();
    let mut made = Vec::new(alloc);
    let mut chance = from;
    for call in 0..calls {
        chance = chance
            .wrapping_mul(6364136223846793005)
            .wrapping_add(1442695040888963407);
        let (op, mode) = match kind {
            Kind::Sends => (Op::Send(call), Mode::Try),
            Kind::Any => (
                if (chance >> 33) & 1 == 0 {
                    Op::Send(call)
                } else {
                    Op::Receive
                },
                match (chance >> 35) & 3 {
                    0 => Mode::Withdraw,
                    1 => Mode::GiveUp,
                    _ => Mode::Try,
                },
            ),
        };
        match desk.call(rt, alloc, &mut pass, Asked { from, op }, mode) {
            Ok(Turn::Made(reply)) => made.push((op, reply)).ok()?,
            Ok(Turn::NotYet(_)) => {}
            Err(_) => return None,
        }
    }
    Some((pass, Row { from, made }))
}

/// Makes calls in this thread.
fn alone<R: Wait>(
    rt: &R,
    alloc: Global,
    desk: &Desk<Noted>,
    pass: Pass<Noted>,
    kind: Kind,
    calls: u64,
) -> Option<(Pass<Noted>, Vec<Row>)>
    requires { pass.desk ≡ desk.now }
    ensures desk { IfSome result (λ r. r.0.desk ≡ desk.now) }
    ensures keeps { IfSome result (λ r. Keeps pass.known r.0.known) }
{
    let (pass, row) = work(rt, alloc, desk, pass, kind, calls)?;
    let mut rows = Vec::new(alloc);
    rows.push(row).ok()?;
    Some((pass, rows))
}

fn put_together(mut rows: Vec<Row>, others: Vec<Row>) -> Option<Vec<Row>> {
    for row in others {
        rows.push(row).ok()?;
    }
    Some(rows)
}

/// Makes calls in as many threads as 2 has this power, each with a pass of its own, and takes the
/// passes in again.
fn fork<R: Threads + Wait + Sync>(
    rt: &R,
    alloc: Global,
    desk: &Desk<Noted>,
    pass: Pass<Noted>,
    kind: Kind,
    calls: u64,
    power: u64,
) -> Option<(Pass<Noted>, Vec<Row>)>
    requires { pass.desk ≡ desk.now }
    ensures desk { IfSome result (λ r. r.0.desk ≡ desk.now) }
    ensures grown { IfSome result (λ r. IsGrown pass.known r.0.known) }
{
    if power == 0 {
        return alone(rt, alloc, desk, pass, kind, calls);
    }
    let left = power - 1;
    let mut one = pass;
    let Ok(other) = desk.enrol(rt, &mut one) else {
        return None;
    };
    let (mine, theirs) = join(
        rt,
        || -> Option<(Pass<Noted>, Vec<Row>)>
            requires { IsSync R.row × (one.desk ≡ desk.now) }
            ensures { IfSome result (λ r.
                (r.0.desk ≡ desk.entry.now) × IsGrown one.known r.0.known) }
        { fork(rt, alloc, desk, one, kind, calls, left) },
        || -> Option<(Pass<Noted>, Vec<Row>)>
            requires { IsSync R.row × (other.desk ≡ desk.now) }
            ensures { IfSome result (λ r.
                (r.0.desk ≡ desk.entry.now) × IsGrown other.known r.0.known) }
        { fork(rt, alloc, desk, other, kind, calls, left) },
    );
    let (mut pass, rows) = mine?;
    let (other, others) = theirs?;
    desk.meet(&mut pass, other);
    Some((pass, put_together(rows, others)?))
}

/// Whether a queue that is called in this order, with these endings, replies so.
fn replays(alloc: Global, notes: &[Note]) -> bool {
    let mut queue = VecDeque::new(alloc);
    for note in notes {
        let reply = match (note.ending, note.op) {
            (Ending::Served, Op::Send(number)) => match queue.push_back(number) {
                Ok(()) => Reply::Sent,
                Err(_) => return false,
            },
            (Ending::Served, Op::Receive) => match queue.pop_front() {
                Some(number) => Reply::Got(number),
                None => return false,
            },
            (Ending::GaveUp, Op::Receive) if queue.is_empty() => Reply::Short,
            (Ending::GaveUp, _) => return false,
            (Ending::Withdrawn, _) => Reply::TakenBack,
        };
        if reply != note.reply {
            return false;
        }
    }
    true
}

/// Whether the calls of a row stand in the history once each, in their order, and no others of its
/// number.
fn stands(row: &Row, notes: &[Note]) -> bool {
    let mut made = row.made.as_slice().iter();
    for note in notes {
        if note.from == row.from {
            match made.next() {
                Some((op, reply)) if *op == note.op && *reply == note.reply => {}
                _ => return false,
            }
        }
    }
    made.next().is_none()
}

/// What came of threads that share a desk: the length of its history, and whether that is what the
/// threads made.
fn shared<R: Threads + Wait + Sync>(
    rt: &R,
    alloc: Global,
    kind: Kind,
    calls: u64,
    power: u64,
) -> Option<(u64, bool)> {
    let (desk, pass) = Desk::make(alloc, Noted::new(alloc)).ok()?;
    let (mut pass, rows) = fork(rt, alloc, &desk, pass, kind, calls, power)?;
    let length = desk.look(&mut pass);
    let noted = desk.close(rt, &mut pass).ok()?;
    let notes = noted.notes.as_slice();
    let mut fits = notes.len() as u64 == length && replays(alloc, notes);
    for row in &rows {
        fits = fits && stands(row, notes);
    }
    Some((length, fits))
}

#[test]
fn two_threads_of_sends(rt: HostRuntime) {
    let made = shared(&rt, rt.alloc(), Kind::Sends, 1000, 1);
    assert!(&rt; matches!(made, Some((2000, true))));
}

#[test]
fn eight_threads_of_all_calls(rt: HostRuntime) {
    let made = shared(&rt, rt.alloc(), Kind::Any, 500, 3);
    assert!(&rt; matches!(made, Some((length, true)) if length > 2000));
}

/// Receives so many numbers, and waits for those that are not yet there. Their sum.
fn receives<R: Wait + Clock>(
    rt: &R,
    alloc: Global,
    desk: &Desk<Queue>,
    mut pass: Pass<Queue>,
    count: u64,
) -> u64
    requires { pass.desk ≡ desk.now }
{
    let mut sum: u64 = 0;
    let mut left = count;
    for _ in rt.forever() {
        if left == 0 {
            return sum;
        }
        match desk.call(rt, alloc, &mut pass, Op::Receive, Mode::Try) {
            Ok(Turn::Made(Reply::Got(number))) => {
                sum = sum.wrapping_add(number);
                left -= 1;
            }
            Ok(Turn::NotYet(_)) => desk.pause(rt, &pass),
            _ => return 0,
        }
    }
    unreachable!()
}

/// Sends the numbers below this one.
fn sends<R: Wait>(
    rt: &R,
    alloc: Global,
    desk: &Desk<Queue>,
    mut pass: Pass<Queue>,
    count: u64,
) -> bool
    requires { pass.desk ≡ desk.now }
{
    for number in 0..count {
        match desk.call(rt, alloc, &mut pass, Op::Send(number), Mode::Try) {
            Ok(Turn::Made(_)) => {}
            _ => return false,
        }
    }
    true
}

/// The sum of the numbers that one thread sends and another waits for.
fn handed_over<R: Threads + Wait + Clock + Sync>(
    rt: &R,
    alloc: Global,
    count: u64,
) -> Option<(u64, u64)> {
    let (desk, mut pass) = Desk::make(alloc, Queue::new(alloc)).ok()?;
    let one = desk.enrol(rt, &mut pass).ok()?;
    let other = desk.enrol(rt, &mut pass).ok()?;
    let shared = &desk;
    let (sum, _sent) = join(
        rt,
        || -> u64
            requires { one.desk ≡ shared.now }
        { receives(rt, alloc, shared, one, count) },
        || -> bool
            requires { other.desk ≡ shared.now }
        { sends(rt, alloc, shared, other, count) },
    );
    Some((sum, desk.look(&mut pass)))
}

#[test]
fn a_thread_waits_for_another(rt: HostRuntime) {
    let made = handed_over(&rt, rt.alloc(), 1000);
    assert!(&rt; matches!(made, Some((499500, 2000))));
}
