//! Looks at a word of the board many times, and prints how many looks found nothing new.
//!
//! The first word is the call, `status` or `cancel_asked`, and any other for none; the second is
//! how many looks. Their time is the difference to a run with none.
#![tactic(auto)]

mod looks;

use looks::run_looks;
use std::{env, io};

fn main(rt: HostRuntime) -> io::Result<()> {
    let mut words = env::args(&rt)?;
    let _name = words.next();
    let call = match words.next() {
        Some(word) => word,
        None => return Ok(()),
    };
    let looks = match words.next() {
        Some(word) => word.as_str().parse().unwrap_or(0),
        None => 0,
    };
    let same = run_looks(rt.alloc(), call.as_str(), looks);
    println!(rt; "{same} of {looks} looks at {call}")?;
    Ok(())
}
