//! Measures how texts of JSON are cut into tokens. Each line of standard input is a text: the program
//! opens it, and writes how many bytes and tokens it has and a sum over the tokens. With a number as
//! its word it opens each text so many times more, and writes the least nanoseconds too.
//!
//! The status is 1 where the word is no number or a line is no text, and 6 where memory runs out.
#![tactic(auto)]

mod kinds;
mod lexer;
mod opening;

ghost use Rattle.spec_lexing.specs.Lexicon.{Lexicon};
ghost use Rattle.text_store.specs.TextStore.{Lexes};

use lbnf_regex::Automaton;
use lexer::json_lexer;
use opening::{least_time, opened};
use std::alloc::Global;
use std::env;
use std::io::{self, BufRead, BufReader};
use std::process::ExitCode;
use std::time::Clock;
use text_store::EditFault;

/// Writes what is told of the text, and of so many times the least. The answer is the status where
/// there is no text.
fn run_line<R: Print + Clock>(
    rt: &R,
    alloc: Global,
    lexer: &Automaton,
    line: &str,
    times: u32,
) -> io::Result<u8>
    requires lexed { (lexicon : Lexicon) × Lexes lexicon lexer.now }
{
    match opened(alloc, lexer, line.as_bytes()) {
        Ok(text) => {
            println!(rt;
                "bytes {} tokens {} sum {}",
                text.bytes, text.tokens, text.sum
            )?;
            if times > 0 {
                let least = least_time(rt, alloc, lexer, line.as_bytes(), times)?;
                println!(rt; "nanoseconds {least}")?;
            }
            Ok(0)
        }
        Err(EditFault::Memory) => Ok(6),
        Err(_) => Ok(1),
    }
}

/// How many times a text is opened, as the word says; none where there is no word.
fn times_of(words: &[String]) -> Option<u32> {
    match words.first() {
        Some(word) => word.as_str().parse::<u32>().ok(),
        None => Some(0),
    }
}

fn main(rt: HostRuntime) -> io::Result<ExitCode> {
    let alloc = rt.alloc();
    let mut words = Vec::new(alloc);
    for word in env::args(&rt)?.skip(1) {
        words.push(word)?;
    }
    let Some(times) = times_of(words.as_slice()) else {
        return Ok(ExitCode::from(1));
    };
    let Ok(lexer) = json_lexer(alloc) else {
        return Ok(ExitCode::from(6));
    };
    for line in BufReader::new(alloc, rt.reader())?.lines(alloc) {
        let line = line?;
        let status = run_line(&rt, alloc, &lexer, &line, times)?;
        if status != 0 {
            return Ok(ExitCode::from(status));
        }
    }
    Ok(ExitCode::from(0))
}
