//! The usage line answers all words but `serve`, a failing sink gets a prefix of it, and a session
//! is served.
ghost use Rattle.std.specs.Prelude.{◌≤◌};

use crate::run;
use cyk_io::{ByteSink, ByteSource};
use std::alloc::{AllocError, Global};
use std::marker::Brand;
use std::sync::ledger::Blank;
use std::test::Fail;

const LINE: &[u8] = b"usage: lbnfchart serve|watch|check|gen [--workers N] [--readers M] \
    [--rounds R] [--grain G] [--seed S] [--tokens N]\n";

const NOT_SERVED: [&[&str]; 7] = [
    &[],
    &[""],
    &["check"],
    &["Serve"],
    &["serve "],
    &["serve", "serve"],
    &["serve", "--workers", "2"],
];

const SCRIPT: &[u8] = b"script 1
grammar 33
Cat. S ::= S S ; One. S ::= \"a\" ;
open 3
a a
has S 0 2
has S 1 1
end
";

const SESSION: &[u8] = b"grammar rules 2 categories 1 kinds 1
version 0 tokens 2
yes
no
end
";

/// The status, and the sink behind it, whose writes fail from the first that is listed.
fn run_words(
    alloc: Global,
    words: &[&str],
    script: &[u8],
    piece: usize,
    fail_at: &[u64],
) -> Result<(u8, ByteSink), AllocError>
    requires { 1 ≤ piece }
{
    let mut owned = Vec::new(alloc);
    for word in words {
        owned.push(String::from_str(alloc, word)?)?;
    }
    let mut source = ByteSource::new(Vec::from_slice(alloc, script)?, piece, Vec::new(alloc));
    let mut sink = ByteSink::new(alloc, piece, Vec::from_slice(alloc, fail_at)?);
    let blank = Blank::new(1);
    let status = run::<_, _, Brand>(alloc, &owned, &mut source, &mut sink, blank);
    Ok((status, sink))
}

#[test]
fn all_words_but_serve_get_the_usage_line(rt: HostRuntime) -> Result<(), Fail> {
    for words in NOT_SERVED {
        let (status, sink) = run_words(rt.alloc(), words, SCRIPT, 8, &[])?;
        assert_eq!(rt; status, 1, "{words:?}");
        assert_eq!(rt; sink.as_bytes(), LINE, "{words:?}");
    }
    Ok(())
}

#[test]
fn a_write_fault_cuts_the_usage_line(rt: HostRuntime) -> Result<(), Fail> {
    // The line has 116 bytes: 116 writes of one byte, or 15 of at most 8.
    let cases = [
        (1, 1, 5, 0),
        (1, 2, 5, 1),
        (1, 116, 5, 115),
        (1, 117, 1, 116),
        (8, 1, 5, 0),
        (8, 2, 5, 8),
        (8, 15, 5, 112),
        (8, 16, 1, 116),
    ];
    for (piece, fail_at, status, written) in cases {
        let (found, sink) = run_words(rt.alloc(), &["gen"], SCRIPT, piece, &[fail_at])?;
        assert_eq!(rt; found, status, "pieces of {piece}, write {fail_at} fails");
        assert_eq!(rt;
            sink.as_bytes().len(),
            written,
            "pieces of {piece}, write {fail_at} fails"
        );
        assert!(rt;
            LINE.starts_with(sink.as_bytes()),
            "pieces of {piece}, write {fail_at} fails"
        );
    }
    Ok(())
}

#[test]
fn the_word_serve_gets_the_session(rt: HostRuntime) -> Result<(), Fail> {
    for piece in [1, 8] {
        let (status, sink) = run_words(rt.alloc(), &["serve"], SCRIPT, piece, &[])?;
        assert_eq!(rt; status, 0, "pieces of {piece}");
        assert_eq!(rt; sink.as_bytes(), SESSION, "pieces of {piece}");
    }
    Ok(())
}
