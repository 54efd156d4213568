//! Names, categories and files at their limits, with answers by hand.
use super::files::answer_to;
use std::alloc::{AllocError, Global};
use std::process::Abort;
use std::test::*;

/// A text, so many of a byte behind it, and a text behind these; and what is told of such a file.
type Repeated = (&'static str, u8, usize, &'static str, &'static str);

/// The texts with so many of one byte between them.
fn with_many(
    alloc: Global,
    front: &str,
    byte: u8,
    count: usize,
    back: &str,
) -> Result<Vec<u8>, AllocError> {
    let mut text = Vec::from_slice(alloc, front.as_bytes())?;
    let many = vec![in alloc; byte; count]?;
    text.extend_from_slice(many.as_slice())?;
    text.extend_from_slice(back.as_bytes())?;
    Ok(text)
}

/// Compares what is told of each file with the answer beside it.
fn tells_repeated(rt: &impl Abort, alloc: Global, cases: &[Repeated]) -> Result<(), Fail> {
    for (front, byte, count, back, want) in cases {
        let text = with_many(alloc, front, *byte, *count, back)?;
        let answer = answer_to(alloc, text.as_slice())?;
        assert_eq!(rt;
            answer.as_str(),
            *want,
            "{count} of {byte} between {front:?} and {back:?}"
        );
    }
    Ok(())
}

/// Files with long identifiers.
const IDENTIFIERS: &[Repeated] = &[
    ("", b'A', 64, ". E ::= ;", "defs 1"),
    ("", b'A', 65, ". E ::= ;", "syntax 0"),
    ("", b'a', 65, " ;", "syntax 0"),
    ("internal ", b'A', 65, ". E ::= ;", "syntax 9"),
    ("internal ", b'a', 65, ". E ::= ;", "syntax 9"),
    ("L. ", b'A', 64, " ::= ;", "defs 1"),
    ("L. ", b'A', 65, " ::= ;", "syntax 3"),
    ("L. E ::= ", b'A', 64, "", "defs 1"),
    ("L. E ::= ", b'A', 65, "", "syntax 9"),
    ("L. E ::= E [", b'A', 65, "]", "syntax 12"),
    ("L. E ::= E ", b'a', 65, "", "syntax 11"),
    ("coercions ", b'A', 65, " 1", "syntax 10"),
    ("terminator ", b'n', 65, " E \"a\"", "syntax 11"),
    ("entrypoints E, ", b'A', 65, "", "syntax 15"),
    ("L. E ::= \"", b'A', 65, "\"", "defs 1"),
];

#[test]
fn identifiers_of_more_than_sixty_four_bytes(rt: HostRuntime) -> Result<(), Fail> {
    tells_repeated(&rt, rt.alloc(), IDENTIFIERS)
}

/// A category of so many brackets and of a name of so many bytes, between other bytes.
fn with_category(
    alloc: Global,
    front: &str,
    depth: usize,
    letters: usize,
    back: &str,
) -> Result<Vec<u8>, AllocError> {
    let mut text = with_many(alloc, front, b'[', depth, "")?;
    let name = vec![in alloc; b'E'; letters]?;
    text.extend_from_slice(name.as_slice())?;
    let closing = vec![in alloc; b']'; depth]?;
    text.extend_from_slice(closing.as_slice())?;
    text.extend_from_slice(back.as_bytes())?;
    Ok(text)
}

/// A text, so many brackets, so many letters in them, and a text behind; and what is told of it.
type InBrackets = (&'static str, usize, usize, &'static str, &'static str);

const CATEGORIES: &[InBrackets] = &[
    ("L. ", 32, 64, " ::= ;", "defs 1"),
    ("L. ", 33, 62, " ::= ;", "defs 1"),
    ("L. ", 33, 63, " ::= ;", "syntax 3"),
    ("L. ", 63, 2, " ::= ;", "defs 1"),
    ("L. ", 63, 3, " ::= ;", "syntax 3"),
    ("L. ", 64, 1, " ::= ;", "syntax 3"),
    ("L. ", 300, 1, " ::= ;", "syntax 3"),
    ("L. ", 30_000, 1, "", "syntax 3"),
    // it is found as soon as its last token is read
    ("L. ", 64, 1, " )", "syntax 3"),
    ("L. ", 64, 1, " {-", "syntax 3"),
    ("L. E ::= A ", 64, 1, "", "syntax 11"),
    ("L. E ::= A ", 63, 2, "", "defs 1"),
    ("terminator ", 64, 1, " \"a\"", "syntax 11"),
    ("terminator ", 63, 2, " \"a\"", "defs 1"),
    ("separator nonempty ", 64, 1, " \"a\"", "syntax 19"),
    ("entrypoints ", 64, 1, "", "syntax 12"),
    ("entrypoints E, ", 64, 1, ", e", "syntax 15"),
    ("internal L. ", 64, 1, " ::= ;", "syntax 12"),
    ("A. E ::= ; L. ", 64, 1, " ::= ;", "syntax 14"),
    // a fault that stands before it is told, and one that stands behind it is not
    ("L E. ", 64, 1, " ::= ;", "syntax 2"),
    ("coercions ", 64, 1, " 1", "syntax 10"),
    ("[", 64, 1, ". E ::= ;", "syntax 1"),
];

#[test]
fn categories_of_more_than_128_bytes(rt: HostRuntime) -> Result<(), Fail> {
    for (front, depth, letters, back, want) in CATEGORIES {
        let text = with_category(rt.alloc(), front, *depth, *letters, back)?;
        let answer = answer_to(rt.alloc(), text.as_slice())?;
        assert_eq!(rt; answer.as_str(), *want, "{depth} brackets behind {front:?}");
    }
    Ok(())
}

/// Files with many brackets of a category that is not finished.
const UNFINISHED: &[Repeated] = &[
    ("L. ", b'[', 60_000, "", "syntax 60003"),
    ("L. ", b'[', 300, "E ::= ;", "syntax 305"),
    ("L. ", b'[', 300, "E] ::= ;", "syntax 306"),
    ("L. ", b'[', 300, "] ::= ;", "syntax 303"),
    ("L. ", b'[', 300, "e", "syntax 303"),
    ("L. E ::= ", b'[', 100, "E]]] ;", "syntax 114"),
];

#[test]
fn long_categories_that_are_not_finished(rt: HostRuntime) -> Result<(), Fail> {
    tells_repeated(&rt, rt.alloc(), UNFINISHED)
}

/// Large files, and near ones.
const FILES: &[Repeated] = &[
    ("", b' ', 65_536, "", "defs 0"),
    ("", b' ', 65_537, "", "large 65537"),
    ("", b';', 65_536, "", "defs 0"),
    ("", b';', 65_537, "", "large 65537"),
    ("", b')', 65_536, "", "syntax 0"),
    ("", 0xff, 65_536, "", "utf8 0"),
    ("", 0xff, 65_537, "", "large 65537"),
    ("layout ", b')', 70_000, "", "large 70007"),
    ("S. S ::= A ", b'e', 64, "", "syntax 11"),
    ("S. S ::= \"", b'"', 65_525, "", "defs 1"),
    ("S. S ::= \"", b'"', 65_526, "", "syntax 65535"),
    ("S. S ::= \"", b'a', 65_526, "", "syntax 9"),
    ("S. S ::= A --", b'a', 65_523, "", "defs 1"),
    ("S. S ::= A {-", b'-', 65_523, "", "syntax 11"),
];

#[test]
fn files_of_more_than_65536_bytes(rt: HostRuntime) -> Result<(), Fail> {
    tells_repeated(&rt, rt.alloc(), FILES)
}

/// So many definitions, and a text behind them.
fn definitions(alloc: Global, count: usize, back: &str) -> Result<Vec<u8>, AllocError> {
    let mut text = Vec::new(alloc);
    for _ in 0..count {
        text.extend_from_slice(b"A. E ::= ;".as_slice())?;
    }
    text.extend_from_slice(back.as_bytes())?;
    Ok(text)
}

#[test]
fn a_file_has_any_number_of_definitions(rt: HostRuntime) -> Result<(), Fail> {
    for (back, want) in [("", "defs 1025"), ("; token T 'a' ;", "defs 1026")] {
        let text = definitions(rt.alloc(), 1_025, back)?;
        let answer = answer_to(rt.alloc(), text.as_slice())?;
        assert_eq!(rt; answer.as_str(), want, "at {back:?}");
    }
    Ok(())
}
