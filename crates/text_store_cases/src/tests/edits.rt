//! Edits of texts, and what each refusal tells.
use super::{lexer, opened};
use std::alloc::Global;
use std::test::Fail;
use text_store::{EditFault, MAX_BYTES, Text, TokenEdit};

/// A text of so many bytes: scalars of one byte, of two, of three and of four.
const SCALARS: &str = "aé€😀";

/// The edit of this text, where the kinds are these words.
fn edit(
    alloc: Global,
    texts: &[&str],
    text: &str,
    place: (u64, u64),
    ins: &[u8],
) -> Result<Result<(Text, TokenEdit), EditFault>, Fail> {
    let automaton = lexer(alloc, texts)?;
    let text = opened(alloc, texts, text)?;
    Ok(text.edit(alloc, &automaton, place.0, place.1, ins))
}

/// A fault by its name and its number.
fn told(fault: &EditFault) -> (&'static str, u64) {
    match fault {
        EditFault::Memory => ("memory", 0),
        EditFault::Range { len } => ("range", u64::from(*len)),
        EditFault::FullText { count } => ("full", *count),
        EditFault::NotUtf8 { at } => ("utf8", *at),
        EditFault::FullTokens => ("tokens", 0),
    }
}

/// What refuses an edit, where the one kind is the word `a`.
fn refusal(
    alloc: Global,
    text: &str,
    place: (u64, u64),
    ins: &[u8],
) -> Result<(&'static str, u64), Fail> {
    match edit(alloc, &["a"], text, place, ins)? {
        Ok(_) => Ok(("none", 0)),
        Err(fault) => Ok(told(&fault)),
    }
}

#[test]
fn an_edit_tells_what_it_does_to_the_kinds(rt: HostRuntime) -> Result<(), Fail> {
    let texts = ["a", "b", "ab"];
    let cases: [(&str, (u64, u64), &str, &str, (u32, u32), &[Option<u16>]); 14] = [
        ("aa", (2, 0), "a", "aaa", (2, 0), &[Some(0)]),
        ("aa", (0, 0), "a", "aaa", (2, 0), &[Some(0)]),
        ("aaa", (1, 1), "", "aa", (2, 1), &[]),
        (
            "a b a b",
            (3, 0),
            " a b",
            "a b a b a b",
            (4, 0),
            &[Some(0), Some(1)],
        ),
        ("ab", (0, 0), "", "ab", (1, 0), &[]),
        ("ab", (2, 0), "", "ab", (1, 0), &[]),
        ("ab a", (0, 4), "", "", (0, 2), &[]),
        ("", (0, 0), "a b", "a b", (0, 0), &[Some(0), Some(1)]),
        ("a b a", (2, 1), "?", "a ? a", (1, 1), &[None]),
        ("a b", (1, 1), "", "ab", (0, 2), &[Some(2)]),
        ("a a", (1, 1), "\n", "a\na", (2, 0), &[]),
        ("a {- b", (6, 0), "-}", "a {- b-}", (1, 3), &[]),
        ("a-- b\nb", (1, 2), "", "a b\nb", (2, 0), &[Some(1)]),
        ("éa", (0, 2), "b ", "b a", (0, 1), &[Some(1)]),
    ];
    for (text, place, ins, after, (first, deleted), inserted) in cases {
        match edit(rt.alloc(), &texts, text, place, ins.as_bytes())? {
            Ok((edited, told)) => {
                let expected = opened(rt.alloc(), &texts, after)?;
                assert_eq!(rt; edited.bytes(), after.as_bytes(), "bytes at {text}");
                assert_eq!(rt; edited.tokens(), expected.tokens(), "tokens at {text}");
                assert_eq!(rt; told.first, first, "first at {text}");
                assert_eq!(rt; told.deleted, deleted, "deleted at {text}");
                assert_eq!(rt; told.inserted.as_slice(), inserted, "inserted at {text}");
            }
            Err(_) => return Err("an edit that is made".into()),
        }
    }
    Ok(())
}

#[test]
fn what_is_deleted_lies_in_the_text(rt: HostRuntime) -> Result<(), Fail> {
    for (place, expected) in [
        ((10, 0), ("none", 0)),
        ((0, 10), ("none", 0)),
        ((11, 0), ("range", 10)),
        ((10, 1), ("range", 10)),
        ((0, 11), ("range", 10)),
        ((999_999_999, 999_999_999), ("range", 10)),
        ((0, 1_999_999_998), ("range", 10)),
        ((u64::MAX, u64::MAX), ("range", 10)),
        ((10, u64::MAX), ("range", 10)),
    ] {
        let (at, del) = place;
        let answer = refusal(rt.alloc(), SCALARS, place, b"")?;
        assert_eq!(rt; answer, expected, "at {at} {del}");
    }
    Ok(())
}

#[test]
fn a_scalar_that_is_cut_is_told_by_its_place(rt: HostRuntime) -> Result<(), Fail> {
    for (place, expected) in [
        ((2, 0), 2),
        ((4, 0), 4),
        ((5, 0), 5),
        ((7, 0), 7),
        ((8, 0), 8),
        ((9, 0), 9),
        ((1, 1), 2),
        ((0, 4), 4),
        ((0, 5), 5),
        ((6, 1), 7),
        ((6, 2), 8),
        ((0, 9), 9),
        ((2, 2), 2),
        ((4, 5), 4),
        ((9, 1), 9),
    ] {
        let (at, del) = place;
        let answer = refusal(rt.alloc(), SCALARS, place, b"")?;
        assert_eq!(rt; answer, ("utf8", expected), "at {at} {del}");
    }
    Ok(())
}

#[test]
fn inserted_bytes_that_are_no_text_are_told_by_their_place(rt: HostRuntime) -> Result<(), Fail> {
    let cases: [(u64, &[u8], u64); 10] = [
        (0, b"\xff", 0),
        (1, b"b\xff", 2),
        (1, b"\xc3", 1),
        (3, b"\xc3\xa9\xe2\x82", 5),
        (10, b"aa\xa9", 12),
        (0, b"\xed\xa0\x80", 0),
        (1, b"\xc0\x80", 1),
        (1, b"\xe0\x80\x80", 1),
        (1, b"\xf4\x90\x80\x80", 1),
        (1, b"a\xf5\x80\x80\x80", 2),
    ];
    for (at, ins, expected) in cases {
        let answer = refusal(rt.alloc(), SCALARS, (at, 0), ins)?;
        assert_eq!(rt; answer, ("utf8", expected), "at {expected}");
    }
    Ok(())
}

#[test]
fn an_edited_text_has_no_more_than_so_many_bytes(rt: HostRuntime) -> Result<(), Fail> {
    let alloc = rt.alloc();
    let automaton = lexer(alloc, &["a"])?;
    let most = vec![in alloc; b' '; MAX_BYTES]?;
    let more = vec![in alloc; b' '; MAX_BYTES + 1]?;
    let empty = opened(alloc, &["a"], "")?;
    match empty.edit(alloc, &automaton, 0, 0, more.as_slice()) {
        Ok(_) => return Err("one byte too many".into()),
        Err(fault) => assert_eq!(rt; told(&fault), ("full", 1_048_577)),
    }
    let (full, _told) = match empty.edit(alloc, &automaton, 0, 0, most.as_slice()) {
        Ok(edited) => edited,
        Err(_) => return Err("as many as fit".into()),
    };
    assert_eq!(rt; full.byte_len(), 1_048_576);
    assert!(rt;
        full.edit(alloc, &automaton, 0, 1, b"a").is_ok(),
        "as many again"
    );
    match full.edit(alloc, &automaton, 0, 1, b"aa") {
        Ok(_) => return Err("one byte too many in the place of one".into()),
        Err(fault) => assert_eq!(rt; told(&fault), ("full", 1_048_577)),
    }
    Ok(())
}

#[test]
fn an_edited_text_has_no_more_than_so_many_tokens(rt: HostRuntime) -> Result<(), Fail> {
    let alloc = rt.alloc();
    let automaton = lexer(alloc, &["a"])?;
    let most = vec![in alloc; b'a'; 16_384]?;
    let full = match Text::open(alloc, &automaton, most.as_slice()) {
        Ok(text) => text,
        Err(_) => return Err("as many tokens as fit".into()),
    };
    let cases: [((u64, u64), &[u8], (&str, u64)); 5] = [
        ((0, 0), b"a", ("tokens", 0)),
        ((16_384, 0), b"?", ("tokens", 0)),
        ((0, 1), b"?", ("none", 0)),
        ((7, 0), b" ", ("none", 0)),
        ((0, 1), b"", ("none", 0)),
    ];
    for (place, ins, expected) in cases {
        let answer = match full.edit(alloc, &automaton, place.0, place.1, ins) {
            Ok(_) => ("none", 0),
            Err(fault) => told(&fault),
        };
        assert_eq!(rt; answer, expected, "at {}", place.0);
    }
    Ok(())
}

#[test]
fn of_two_refusals_the_first_is_told(rt: HostRuntime) -> Result<(), Fail> {
    let alloc = rt.alloc();
    let many_bytes = vec![in alloc; b'a'; MAX_BYTES + 1]?;
    let many_tokens = vec![in alloc; b'a'; 16_385]?;
    let mut many_wrong = vec![in alloc; b'a'; 16_385]?;
    many_wrong.push(0xFF)?;
    let cases: [((u64, u64), &[u8], (&str, u64)); 8] = [
        ((11, 0), many_bytes.as_slice(), ("range", 10)),
        ((9, 2), b"a", ("range", 10)),
        ((11, 0), b"\xff", ("range", 10)),
        ((11, 0), many_tokens.as_slice(), ("range", 10)),
        ((2, 0), many_bytes.as_slice(), ("full", 1_048_587)),
        ((0, 0), many_bytes.as_slice(), ("full", 1_048_587)),
        ((2, 0), many_tokens.as_slice(), ("utf8", 2)),
        ((1, 0), many_wrong.as_slice(), ("utf8", 16_386)),
    ];
    for (place, ins, expected) in cases {
        let answer = refusal(alloc, SCALARS, place, ins)?;
        assert_eq!(rt; answer, expected, "at {} {}", place.0, place.1);
    }
    Ok(())
}

#[test]
fn what_fits_is_told_by_numbers_alone(rt: HostRuntime) -> Result<(), Fail> {
    let text = opened(rt.alloc(), &["a"], SCALARS)?;
    for (place, count, expected) in [
        ((0, 0), 0, ("none", 0)),
        ((2, 2), 0, ("none", 0)),
        ((0, 10), 1_048_576, ("none", 0)),
        ((0, 10), 1_048_577, ("full", 1_048_577)),
        ((0, 0), 1_048_567, ("full", 1_048_577)),
        (
            (0, 0),
            9_223_372_036_854_775_807,
            ("full", 9_223_372_036_854_775_817),
        ),
        ((10, 1), 1_048_577, ("range", 10)),
    ] {
        if count > 9_223_372_036_854_775_807 {
            return Err("a count below 2^63".into());
        }
        let answer = match text.fits(place.0, place.1, count) {
            None => ("none", 0),
            Some(fault) => told(&fault),
        };
        assert_eq!(rt; answer, expected, "at {} {} {count}", place.0, place.1);
    }
    Ok(())
}
