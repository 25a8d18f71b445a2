//! Makes calls on desks in threads, and prints how many were made. With a third word it prints on
//! standard error how long they took.
//!
//! The first word is how many threads there are, 2 where there is none; the second how many calls
//! each makes, 1000 where there is none. The calls are Sends and Receives by turns, first on one
//! desk and then on a desk for each thread.
#![tactic(auto)]

ghost use Rattle.std.specs.Prelude.{◌≡◌, All, IfSome};

use desk_queue::{Op, Queue};
use history_desk::{Desk, Mode, Pass, Turn};
use std::alloc::Global;
use std::sync::Wait;
use std::thread::{Threads, map_indices, map_vec};
use std::time::{Clock, Instant};
use std::{env, io};

/// The number that a word spells, or another one where it spells none.
fn number(word: Option<String>, other: u64) -> u64 {
    match word {
        Some(word) => word.as_str().parse().unwrap_or(other),
        None => other,
    }
}

/// Makes calls, and counts those that were made.
fn work<R: Wait>(
    rt: &R,
    alloc: Global,
    desk: &Desk<Queue>,
    mut pass: Pass<Queue>,
    calls: u64,
) -> u64
    requires { pass.desk ≡ desk.now }
{
    let mut made = 0;
    for call in 0..calls {
        let op = if call % 2 == 0 {
            Op::Send(call)
        } else {
            Op::Receive
        };
        if let Ok(Turn::Made(_)) = desk.call(rt, alloc, &mut pass, op, Mode::Try) {
            made += 1;
        }
    }
    made
}

/// A pass for each thread.
fn passes<R: Wait>(
    rt: &R,
    alloc: Global,
    desk: &Desk<Queue>,
    mut pass: Pass<Queue>,
    threads: u64,
) -> Option<Vec<Pass<Queue>>>
    requires { pass.desk ≡ desk.now }
    ensures { IfSome result (λ passes. All (λ pass. pass.desk ≡ desk.now) passes.items) }
{
    let mut all = Vec::new(alloc);
    for _ in 0..threads {
        let new = desk.enrol(rt, &mut pass).ok()?;
        all.push(new).ok()?;
    }
    Some(all)
}

fn sum(made: Vec<u64>) -> u64 {
    let mut all: u64 = 0;
    for some in made {
        all = all.wrapping_add(some);
    }
    all
}

/// The calls that threads make on one desk.
fn shared<R: Threads + Wait + Sync>(
    rt: &R,
    alloc: Global,
    threads: u64,
    calls: u64,
) -> Option<u64> {
    let (desk, pass) = Desk::make(alloc, Queue::new(alloc)).ok()?;
    let passes = passes(rt, alloc, &desk, pass, threads)?;
    let desk = &desk;
    let made = map_vec(
        rt,
        passes,
        &|pass: Pass<Queue>| -> u64
            requires { pass.desk ≡ desk.now }
        { work(rt, alloc, desk, pass, calls) },
    );
    made.ok().map(sum)
}

/// The calls that threads make, each on a desk of its own.
fn apart<R: Threads + Wait + Sync>(rt: &R, alloc: Global, threads: u64, calls: u64) -> Option<u64> {
    let made = map_indices(
        rt,
        alloc,
        threads as usize,
        &|_| match Desk::make(alloc, Queue::new(alloc)) {
            Ok((desk, pass)) => work(rt, alloc, &desk, pass, calls),
            Err(_) => 0,
        },
    );
    made.ok().map(sum)
}

/// How many calls were made, and the nanoseconds that they took.
#[derive(Clone, Copy)]
struct Timing {
    made: u64,
    took: u128,
}

fn shared_timing<R: Threads + Wait + Sync + Clock>(
    rt: &R,
    alloc: Global,
    threads: u64,
    calls: u64,
) -> io::Result<Timing> {
    let start = Instant::now(rt)?;
    let made = shared(rt, alloc, threads, calls).unwrap_or(0);
    let took = start.elapsed(rt)?.as_nanos();
    Ok(Timing { made, took })
}

fn apart_timing<R: Threads + Wait + Sync + Clock>(
    rt: &R,
    alloc: Global,
    threads: u64,
    calls: u64,
) -> io::Result<Timing> {
    let start = Instant::now(rt)?;
    let made = apart(rt, alloc, threads, calls).unwrap_or(0);
    let took = start.elapsed(rt)?.as_nanos();
    Ok(Timing { made, took })
}

fn main(rt: HostRuntime) -> io::Result<()> {
    let mut words = env::args(&rt)?;
    let _name = words.next();
    let threads = number(words.next(), 2);
    let calls = number(words.next(), 1000);
    let timed = words.next().is_some();
    let alloc = rt.alloc();
    let one = shared_timing(&rt, alloc, threads, calls)?;
    let each = apart_timing(&rt, alloc, threads, calls)?;
    println!(rt;
        "one desk: {} calls\na desk each: {} calls",
        one.made, each.made
    )?;
    if timed {
        eprintln!(rt; "{} {}", one.took, each.took)?;
    }
    Ok(())
}
