//! The program: reads a script from standard input and writes its session to standard output.
#![tactic(auto)]

ghost use Rattle.std.specs.Prelude.{◌≡◌, ◌<◌};
ghost use Rattle.chart_service.specs.Serving.{IsStatus, WritesSession};
ghost use Rattle.lbnfchart.specs.TopCall.{IsServe, WritesUsage};

mod defaults;
#[cfg(test)]
mod tests;
mod top_call;
mod words;

use cyk_io::{Sink, Source, StdSink, StdSource};
use std::alloc::Global;
use std::marker::Brand;
use std::process::ExitCode;
use std::sync::ledger::{Blank, Ledger};
use std::{env, io};
use step_count::Steps;
pub use top_call::lbnf_main;

/// Runs the top call, and lets its count of joins go.
fn run<S: Source, K: Sink, L: Ledger>(
    alloc: Global,
    words: &[String],
    source: &mut S,
    sink: &mut K,
    blank: Blank,
) -> u8
    requires name { blank.name ≡ L.name }
    requires parts { blank.parts ≡ L.parts }
    requires some { 0 < L.parts }
    ensures usage { (IsServe words.now → ⊥)
        → WritesUsage (K.written sink.old) (K.written sink.new) result }
    ensures ok { IsServe words.now
        → WritesSession (S.left source.old) (K.written sink.old) (K.written sink.new) result }
    ensures status { IsServe words.now → IsStatus result }
{
    let mut joins = Steps::<L>::of(blank);
    lbnf_main(alloc, words, source, sink, &mut joins)
}

fn main(rt: HostRuntime) -> ExitCode {
    let alloc = rt.alloc();
    let words = match env::args(&rt) {
        Ok(words) => words,
        // A word that is not UTF-8 gets the usage line, as no word does.
        Err(error) if error.kind() == io::ErrorKind::InvalidData => Vec::new(alloc).into_iter(),
        Err(_) => return ExitCode::from(6),
    };
    let Ok(words) = words.skip(1).collect::<Vec<String>>(alloc) else {
        return ExitCode::from(6);
    };
    let mut source = StdSource::new(rt.reader());
    let mut sink = StdSink::new(io::writer(&rt));
    let blank = Blank::new(1);
    let status = run::<_, _, Brand>(alloc, &words, &mut source, &mut sink, blank);
    ExitCode::from(status)
}
