//! Measures automata, and tries them on texts. Standard input says line by line what is done:
//!
//! - `line W`, `block W V`, `word W` and `token E` add a line comment, a block comment, a word, and
//!   a token with an expression in reverse Polish notation (`polish`).
//! - `make` makes the automaton of what was added, and writes how many states it has, or that they
//!   are too many.
//! - `text T` writes the longest match at the beginning of T: its length and its kind, or none.
//!
//! The status is 1 where a line is none of these, and 6 where memory runs out in `make`.
#![tactic(auto)]

mod bench;
mod matching;
mod parts;
mod polish;

use bench::{Bench, Outcome, run_line};
use std::io::{self, BufRead, BufReader};
use std::process::ExitCode;

fn main(rt: HostRuntime) -> io::Result<ExitCode> {
    let alloc = rt.alloc();
    let mut bench = Bench::new(alloc);
    for line in BufReader::new(alloc, rt.reader())?.lines(alloc) {
        let line = line?;
        match run_line(&rt, alloc, &mut bench, &line)? {
            Outcome::Done => {}
            Outcome::Unknown => return Ok(ExitCode::from(1)),
            Outcome::Memory => return Ok(ExitCode::from(6)),
        }
    }
    Ok(ExitCode::from(0))
}
