//! Does the calls of a table that a script does most: appends, reads by index, a walk, removals
//! from the end, and reads by one text key, and small tables with two names or two items, and
//! prints what came of them.
//!
//! The first word is the number of each, 1000 where there is none; the second is how many of the
//! seven loops are done. The time of a loop is the difference of two runs.
#![tactic(auto)]

mod loops;

use loops::{Counts, run_loops};
use std::{env, io};

/// The number that a word spells, or another one where it spells none.
fn number(word: Option<String>, other: u32) -> u32 {
    match word {
        Some(word) => word.as_str().parse().unwrap_or(other),
        None => other,
    }
}

fn main(rt: HostRuntime) -> io::Result<()> {
    let mut words = env::args(&rt)?;
    let _name = words.next();
    let n = number(words.next(), 1000);
    let loops = number(words.next(), 7);
    let Counts {
        appended,
        sum,
        met,
        removed,
        found,
        named,
        listed,
    } = run_loops(rt.alloc(), n as i64, loops);
    println!(rt; "appended {appended}, sum {sum}, met {met}, removed {removed}, found {found}")?;
    println!(rt; "named {named}, listed {listed}")?;
    Ok(())
}
