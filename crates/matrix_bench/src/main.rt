//! Tries and measures matrices of cells. `matrix_bench random SEED ROUNDS` compares random matrices,
//! their unions and products, parts and the matrices of these parts with dense ones, entry by
//! entry, and writes in how many rounds all were equal. `matrix_bench time TIMES` reads a sample
//! from standard input and writes, for each call, the least nanoseconds of so many and a sum over
//! what it made.
//!
//! The status is 1 where the words or the input are none of these, 3 where an entry differs, and 6
//! where memory runs out.
#![tactic(auto)]

mod checked;
mod dense;
mod draw;
mod grammars;
mod input;
mod rounds;
mod timing;

use draw::Draw;
use grammars::small_form;
use rounds::round;
use std::alloc::Global;
use std::process::ExitCode;
use std::time::Clock;
use std::{env, io};
use timing::{Call, Sample, least_time, read_sample};

/// Compares so many rounds.
fn run_rounds(rt: &impl Print, alloc: Global, seed: u64, rounds: u32) -> io::Result<ExitCode> {
    let Some(form) = small_form(alloc) else {
        return Ok(ExitCode::from(6));
    };
    let mut draw = Draw::of(seed);
    for number in 0..rounds {
        match round(alloc, &form, &mut draw) {
            None => return Ok(ExitCode::from(6)),
            Some(false) => {
                println!(rt; "seed {seed}: round {number} differs")?;
                return Ok(ExitCode::from(3));
            }
            Some(true) => {}
        }
    }
    println!(rt; "seed {seed}: {rounds} rounds equal")?;
    Ok(ExitCode::from(0))
}

/// Writes the times of the calls on the sample.
fn run_times<R: Print + Clock>(
    rt: &R,
    alloc: Global,
    sample: &Sample,
    times: u32,
) -> io::Result<ExitCode> {
    for (name, call) in [
        ("union", Call::Union),
        ("cut", Call::Cut),
        ("gather", Call::Gather),
        ("product", Call::Product),
    ] {
        let Some(least) = least_time(rt, alloc, call, sample, times)? else {
            return Ok(ExitCode::from(6));
        };
        println!(rt; "{name} {} {}", least.nanoseconds, least.sum)?;
    }
    Ok(ExitCode::from(0))
}

/// What the words of the program ask for.
#[derive(Clone, Copy)]
enum Task {
    Random { seed: u64, rounds: u32 },
    Time { times: u32 },
}

fn task_of(words: &[String]) -> Option<Task> {
    let number = words.get(1)?.as_str();
    match words.first()?.as_str() {
        "random" => Some(Task::Random {
            seed: number.parse::<u64>().ok()?,
            rounds: words.get(2)?.as_str().parse::<u32>().ok()?,
        }),
        "time" => Some(Task::Time {
            times: number.parse::<u32>().ok()?,
        }),
        _ => None,
    }
}

fn main(rt: HostRuntime) -> io::Result<ExitCode> {
    let alloc = rt.alloc();
    let mut words = Vec::new(alloc);
    for word in env::args(&rt)?.skip(1) {
        words.push(word)?;
    }
    match task_of(words.as_slice()) {
        Some(Task::Random { seed, rounds }) => run_rounds(&rt, alloc, seed, rounds),
        Some(Task::Time { times }) => {
            let text = io::read_to_string(alloc, rt.reader())?;
            match read_sample(alloc, text.as_str()) {
                Some(sample) => run_times(&rt, alloc, &sample, times),
                None => Ok(ExitCode::from(1)),
            }
        }
        None => Ok(ExitCode::from(1)),
    }
}
