//! What a line of standard input does.
use crate::matching::longest;
use crate::parts::Parts;
use lbnf_regex::{Automaton, Kind, LexFault, automaton};
use std::alloc::Global;
use std::io;

/// The most kinds of an automaton.
const MOST_KINDS: usize = 65_535;

/// What was added since an automaton was made, and the automaton that was made last.
#[derive(Drop)]
pub struct Bench {
    parts: Parts,
    automaton: Option<Automaton>,
}

impl Bench {
    /// Nothing was added or made. It takes no memory.
    pub fn new(alloc: Global) -> Bench {
        Bench {
            parts: Parts::new(alloc),
            automaton: None,
        }
    }
}

/// How a line ended.
#[derive(Clone, Copy, Debug)]
pub enum Outcome {
    /// It was done.
    Done,
    /// It is no line of the notation.
    Unknown,
    /// Memory ran out.
    Memory,
}

/// Makes the automaton of what was added, and writes how many states it has.
fn make(rt: &impl Print, alloc: Global, bench: &mut Bench) -> io::Result<Outcome> {
    let parts = &bench.parts;
    let kinds = parts.kinds.as_slice();
    if kinds.len() > MOST_KINDS {
        return Ok(Outcome::Unknown);
    }
    match automaton(
        alloc,
        parts.lines.as_slice(),
        parts.blocks.as_slice(),
        kinds,
    ) {
        Ok(made) => {
            println!(rt; "states {}", made.state_count())?;
            bench.automaton = Some(made);
        }
        Err(LexFault::TooManyStates) => println!(rt; "too many states")?,
        Err(LexFault::Memory) => return Ok(Outcome::Memory),
    }
    bench.parts = Parts::new(alloc);
    Ok(Outcome::Done)
}

/// Writes the longest match at the beginning of the text.
fn write_match(rt: &impl Print, automaton: &Automaton, text: &str) -> io::Result<()> {
    match longest(automaton, text.as_bytes()) {
        None => println!(rt; "none"),
        Some((len, Kind::White)) => println!(rt; "{len} white"),
        Some((len, Kind::Comment)) => println!(rt; "{len} comment"),
        Some((len, Kind::Symbol(number))) => println!(rt; "{len} {number}"),
        Some((len, Kind::Stray)) => println!(rt; "{len} stray"),
    }
}

/// Does what the line says.
pub fn run_line(
    rt: &impl Print,
    alloc: Global,
    bench: &mut Bench,
    line: &str,
) -> io::Result<Outcome> {
    if line == "make" {
        return make(rt, alloc, bench);
    }
    if let Some(text) = line.strip_prefix("text ") {
        let Some(automaton) = &bench.automaton else {
            return Ok(Outcome::Unknown);
        };
        write_match(rt, automaton, text)?;
        return Ok(Outcome::Done);
    }
    match bench.parts.add(alloc, line) {
        Some(()) => Ok(Outcome::Done),
        None => Ok(Outcome::Unknown),
    }
}
