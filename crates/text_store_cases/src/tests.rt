//! What texts keep: tokens worked out by hand, and what each call says of them.
mod edits;

ghost use Rattle.std.specs.Prelude.{◌≡◌, All, IsUtf8, IfOk};
ghost use Rattle.spec_lexing.specs.Classes.{IsSoundDef};
ghost use Rattle.spec_lexing.specs.Lexicon.{Lexicon};
ghost use Rattle.text_store.specs.TextStore.{Lexes};

use lbnf_regex::{Automaton, LexFault, automaton};
use spec_lexing::{KindDef, Token};
use spec_text::Name;
use std::alloc::{AllocError, Global};
use std::test::Fail;
use text_store::{EditFault, MAX_BYTES, Text};

fn token(kind: u16, first: u32, end: u32) -> Token {
    Token {
        kind: Some(kind),
        first,
        end,
    }
}

fn stray(first: u32, end: u32) -> Token {
    Token {
        kind: None,
        first,
        end,
    }
}

fn name(alloc: Global, text: &str) -> Result<Name, AllocError>
    ensures { IfOk result IsUtf8 }
{
    let bytes = Vec::from_slice(alloc, text.as_bytes())?;
    Ok(Name::of(bytes))
}

fn words(alloc: Global, texts: &[&str]) -> Result<Vec<KindDef>, AllocError>
    ensures { IfOk result (λ kinds. All IsSoundDef kinds.items) }
{
    let mut kinds = Vec::new(alloc);
    for text in texts {
        kinds.push(KindDef::Word(name(alloc, text)?))?;
    }
    Ok(kinds)
}

/// The automaton of these words, of line comments behind `--`, and of block comments between `{-`
/// and `-}`.
pub fn lexer(alloc: Global, texts: &[&str]) -> Result<Automaton, Fail>
    ensures { IfOk result (λ a. (lexicon : Lexicon) × Lexes lexicon a) }
{
    let lines = [name(alloc, "--")?];
    let blocks = [(name(alloc, "{-")?, name(alloc, "-}")?)];
    let kinds = words(alloc, texts)?;
    if kinds.len() > 65535 {
        return Err("a list of few words".into());
    }
    match automaton(alloc, &lines, &blocks, kinds.as_slice()) {
        Ok(automaton) => Ok(automaton),
        Err(LexFault::Memory) => Err("memory".into()),
        Err(LexFault::TooManyStates) => Err("a lexicon of few states".into()),
    }
}

/// The text of these bytes, where the kinds are these words.
fn open(alloc: Global, texts: &[&str], bytes: &[u8]) -> Result<Result<Text, EditFault>, Fail> {
    let automaton = lexer(alloc, texts)?;
    Ok(Text::open(alloc, &automaton, bytes))
}

/// The same, where there is one.
pub fn opened(alloc: Global, texts: &[&str], text: &str) -> Result<Text, Fail> {
    match open(alloc, texts, text.as_bytes())? {
        Ok(text) => Ok(text),
        Err(_) => Err("a text that is opened".into()),
    }
}

#[test]
fn the_longest_match_wins_and_then_the_least_kind(rt: HostRuntime) -> Result<(), Fail> {
    let cases: [(&[&str], &str, &[Token]); 5] = [
        (&["a", "b"], "ab", &[token(0, 0, 1), token(1, 1, 2)]),
        (&["a", "ab"], "ab", &[token(1, 0, 2)]),
        (&["ab", "a"], "aab", &[token(1, 0, 1), token(0, 1, 3)]),
        (&["b", "a", "a"], "a", &[token(1, 0, 1)]),
        (
            &["ab", "ababx"],
            "ababab",
            &[token(0, 0, 2), token(0, 2, 4), token(0, 4, 6)],
        ),
    ];
    for (texts, text, expected) in cases {
        let opened = opened(rt.alloc(), texts, text)?;
        assert_eq!(rt; opened.tokens(), expected, "at {text}");
    }
    Ok(())
}

#[test]
fn white_bytes_and_comments_are_no_tokens(rt: HostRuntime) -> Result<(), Fail> {
    let cases: [(&str, &[Token]); 6] = [
        ("", &[]),
        (" \t\r\n\x0b\x0c", &[]),
        ("a a", &[token(0, 0, 1), token(0, 2, 3)]),
        ("a--a\na", &[token(0, 0, 1), token(0, 5, 6)]),
        ("a--é", &[token(0, 0, 1)]),
        ("a{-a--}-}", &[token(0, 0, 1), stray(7, 8), stray(8, 9)]),
    ];
    for (text, expected) in cases {
        let opened = opened(rt.alloc(), &["a"], text)?;
        assert_eq!(rt; opened.tokens(), expected, "at {text}");
    }
    Ok(())
}

#[test]
fn a_scalar_where_nothing_matches_is_a_stray_token(rt: HostRuntime) -> Result<(), Fail> {
    let cases: [(&str, &[Token]); 4] = [
        ("?a", &[stray(0, 1), token(0, 1, 2)]),
        (
            "é€😀a",
            &[stray(0, 2), stray(2, 5), stray(5, 9), token(0, 9, 10)],
        ),
        ("{-", &[stray(0, 1), stray(1, 2)]),
        ("€ü", &[stray(0, 3), token(1, 3, 5)]),
    ];
    for (text, expected) in cases {
        let opened = opened(rt.alloc(), &["a", "ü"], text)?;
        assert_eq!(rt; opened.tokens(), expected, "at {text}");
    }
    Ok(())
}

#[test]
fn bytes_that_are_no_text_are_refused(rt: HostRuntime) -> Result<(), Fail> {
    let alloc = rt.alloc();
    for (bytes, place) in [
        (b"\xff".as_slice(), 0),
        (b"a\xc3".as_slice(), 1),
        (b"a\xe2\x82a".as_slice(), 1),
        (b"\xc3\xa9\xa9".as_slice(), 2),
    ] {
        match open(alloc, &["a"], bytes)? {
            Err(EditFault::NotUtf8 { at }) => assert_eq!(rt; at, place),
            _ => return Err("bytes that are no text".into()),
        }
    }
    let many = vec![in alloc; b' '; MAX_BYTES + 1]?;
    match open(alloc, &["a"], many.as_slice())? {
        Err(EditFault::FullText { count }) => assert_eq!(rt; count, 1_048_577),
        _ => return Err("too many bytes".into()),
    }
    let most = vec![in alloc; b' '; MAX_BYTES]?;
    assert!(rt;
        open(alloc, &["a"], most.as_slice())?.is_ok(),
        "as many as fit"
    );
    Ok(())
}

#[test]
fn a_text_has_no_more_than_so_many_tokens(rt: HostRuntime) -> Result<(), Fail> {
    let alloc = rt.alloc();
    let most = vec![in alloc; b'a'; 16_384]?;
    match open(alloc, &["a"], most.as_slice())? {
        Ok(text) => assert_eq!(rt; text.token_count(), 16_384),
        Err(_) => return Err("as many tokens as fit".into()),
    }
    let many = vec![in alloc; b'a'; 16_385]?;
    let refused = open(alloc, &["a"], many.as_slice())?;
    assert!(rt;
        matches!(refused, Err(EditFault::FullTokens)),
        "one too many"
    );
    Ok(())
}

#[test]
fn a_text_tells_the_kind_the_span_and_the_bytes_of_each_token(rt: HostRuntime) -> Result<(), Fail> {
    let alloc = rt.alloc();
    let text = opened(alloc, &["a", "ab"], " ab€a ")?.share(alloc)?;
    let expected = [
        (Some(1), (1, 3), "ab"),
        (None, (3, 6), "€"),
        (Some(0), (6, 7), "a"),
    ];
    assert_eq!(rt; text.token_count(), 3);
    for i in 0..text.token_count() {
        let (kind, span, bytes) = expected[i as usize];
        assert_eq!(rt; text.token_kind(i), kind, "at {i}");
        assert_eq!(rt; text.token_span(i), span, "at {i}");
        assert_eq!(rt; text.token_text(alloc, i)?.as_str(), bytes, "at {i}");
    }
    assert_eq!(rt; text.byte_len(), 8);
    let kinds = text.kinds(alloc)?;
    assert_eq!(rt; kinds.as_slice(), [Some(1), None, Some(0)].as_slice());
    Ok(())
}
