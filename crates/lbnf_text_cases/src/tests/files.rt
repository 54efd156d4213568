//! What a whole file gives, as tests compare it.
use lbnf_text::{TextFault, read_defs};
use std::alloc::{AllocError, Global};
use std::process::Abort;
use std::test::*;

/// The number of the definitions, or the fault, in words.
pub fn answer_to(alloc: Global, bytes: &[u8]) -> Result<String, AllocError> {
    match read_defs(alloc, bytes) {
        Ok(defs) => format!(in alloc; "defs {}", defs.as_slice().len()),
        Err(TextFault::Memory) => format!(in alloc; "memory"),
        Err(TextFault::TooLarge { count }) => format!(in alloc; "large {count}"),
        Err(TextFault::NotUtf8 { at }) => format!(in alloc; "utf8 {at}"),
        Err(TextFault::Syntax { at }) => format!(in alloc; "syntax {at}"),
        Err(TextFault::Unsupported { word, at }) => {
            format!(in alloc; "unsupported {} {at}", word.as_str())
        }
        Err(TextFault::BadDifference { at }) => format!(in alloc; "difference {at}"),
    }
}

/// Compares what is told of each file with the answer beside it.
pub fn tells(rt: &impl Abort, alloc: Global, cases: &[(&str, &str)]) -> Result<(), Fail> {
    for (text, want) in cases {
        let answer = answer_to(alloc, text.as_bytes())?;
        assert_eq!(rt; answer.as_str(), *want, "at {text:?}");
    }
    Ok(())
}
