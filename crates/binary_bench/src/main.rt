//! Measures the binary form: makes it for one of two grammars, by the word `imperative` or `chain`,
//! and writes how many symbols it has and how many symbols their closures have together. It then
//! waits for a line or the end of standard input, so that its memory can be looked at.
#![tactic(auto)]

mod grammars;

use binary_form::{Binary, binary};
use cell_sets::ListCell;
use grammars::{chain, imperative};
use numbered_grammar::Grammar;
use std::alloc::Global;
use std::process::ExitCode;
use std::{env, io};

/// How many rules the chain has.
const CHAIN: u16 = 1_000;

/// The grammar of this name.
fn grammar_of(alloc: Global, name: &str) -> Option<Grammar> {
    match name {
        "imperative" => imperative(alloc),
        "chain" => chain(alloc, CHAIN),
        _ => None,
    }
}

/// How many symbols the closures of all symbols have together.
fn member_count(form: &Binary<ListCell>) -> usize {
    let mut count: usize = 0;
    for symbol in 0..form.symbol_count() as u16 {
        count = count.saturating_add(form.up(symbol).as_slice().len());
    }
    count
}

fn main(rt: HostRuntime) -> io::Result<ExitCode> {
    let alloc = rt.alloc();
    let Some(name) = env::args(&rt)?.nth(1) else {
        return Ok(ExitCode::from(1));
    };
    let Some(grammar) = grammar_of(alloc, name.as_str()) else {
        return Ok(ExitCode::from(1));
    };
    let Ok(form) = binary::<ListCell>(alloc, &grammar) else {
        return Ok(ExitCode::from(6));
    };
    let symbols = form.symbol_count();
    let members = member_count(&form);
    println!(rt; "symbols {symbols} members {members}")?;
    let _line = rt.lines(alloc).next();
    Ok(ExitCode::from(0))
}
