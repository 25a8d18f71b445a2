//! The program `lanes`: it hands the words, the script and the standard streams to the top call,
//! and ends with its status.
#![tactic(auto)]

use lanes_program::{run_lanes, script_word};
use outside::{BytesIn, FileIn, FileOut, Source};
use std::alloc::Global;
use std::fs::File;
use std::io::{Error, ErrorKind, Read};
use std::process::ExitCode;
use std::{env, io};

// A file that could not be opened: each read fails.
#[derive(Drop)]
struct Unopened;

impl Read for Unopened {
    fn read(&mut self, _buf: &mut [u8]) -> io::Result<usize> {
        Err(Error::from(ErrorKind::NotFound))
    }
}

fn main(rt: HostRuntime) -> ExitCode {
    let alloc = rt.alloc();
    let words = match words_of(&rt, alloc) {
        Ok(words) => words,
        Err(error) if error.kind() == ErrorKind::OutOfMemory => return no_memory(&rt),
        // A word that is no UTF-8 is a faulty command line.
        Err(_) => Vec::new(alloc),
    };
    match script_word(alloc, &words) {
        Ok(Some(name)) if name.as_str() == "-" => run(&rt, &words, &mut FileIn::new(rt.stdin())),
        Ok(Some(name)) => match File::open(&rt, &name) {
            Ok(file) => run(&rt, &words, &mut FileIn::new(file)),
            Err(_) => run(&rt, &words, &mut FileIn::new(Unopened)),
        },
        Ok(None) => run(
            &rt,
            &words,
            &mut BytesIn::new(Vec::new(alloc), Vec::new(alloc)),
        ),
        Err(_) => no_memory(&rt),
    }
}

// The words of the command line, without the program's name.
fn words_of(rt: &HostRuntime, alloc: Global) -> io::Result<Vec<String>> {
    let mut words = Vec::new(alloc);
    for word in env::args(rt)?.skip(1) {
        words.push(word)?;
    }
    Ok(words)
}

fn run<I: Source>(rt: &HostRuntime, words: &[String], input: &mut I) -> ExitCode {
    let output = FileOut::new(rt.stdout());
    let mut errors = FileOut::new(rt.stderr());
    let finished = run_lanes(rt.alloc(), words, input, output, &mut errors);
    ExitCode::from(finished.status)
}

fn no_memory(rt: &HostRuntime) -> ExitCode {
    let _ = eprintln!(rt; "lanes: not enough memory");
    ExitCode::from(4)
}
