//! Automata of small lexicons, made by hand.
use super::*;
use spec_lexing::KindDef;
use spec_text::Name;
use std::alloc::{AllocError, Global};
use std::test::*;

fn name(alloc: Global, text: &str) -> Result<Name, AllocError> {
    Ok(Name::of(Vec::from_slice(alloc, text.as_bytes())?))
}

fn word(alloc: Global, text: &str) -> Result<KindDef, AllocError> {
    Ok(KindDef::Word(name(alloc, text)?))
}

/// The word of so many letters a.
fn long_word(alloc: Global, len: usize) -> Result<Vec<KindDef>, AllocError> {
    let letters = vec![in alloc; b'a'; len]?;
    let Ok(text) = str::from_utf8(letters.as_slice()) else {
        return Err(AllocError);
    };
    let kind = word(alloc, text)?;
    Ok(vec![in alloc; kind]?)
}

fn made(
    alloc: Global,
    lines: &[Name],
    blocks: &[(Name, Name)],
    kinds: &[KindDef],
) -> Result<Automaton, &'static str> {
    if kinds.len() >= 65_536 {
        return Err("too many kinds");
    }
    match automaton(alloc, lines, blocks, kinds) {
        Ok(made) => Ok(made),
        Err(LexFault::Memory) => Err("memory"),
        Err(LexFault::TooManyStates) => Err("too many states"),
    }
}

fn next(automaton: &Automaton, state: Option<u16>, byte: u8) -> Option<u16> {
    let state = state?;
    if state < automaton.state_count() {
        automaton.step(state, byte)
    } else {
        None
    }
}

/// The least kind that matches the text. None where no kind does.
fn kind_of(automaton: &Automaton, text: &[u8]) -> Option<Kind> {
    let mut state = Some(automaton.start());
    for byte in text {
        state = next(automaton, state, *byte);
    }
    let state = state?;
    if state < automaton.state_count() {
        automaton.accepts(state)
    } else {
        None
    }
}

#[test]
fn two_words_share_the_state_of_their_front(rt: HostRuntime) -> Result<(), Fail> {
    let alloc = rt.alloc();
    let kinds = vec![in alloc; word(alloc, "a")?, word(alloc, "ab")?]?;
    let automaton = made(alloc, &[], &[], kinds.as_slice())?;
    assert_eq!(rt; automaton.state_count(), 4);
    let cases = [
        ("", None),
        (" ", Some(Kind::White)),
        ("a", Some(Kind::Symbol(0))),
        ("ab", Some(Kind::Symbol(1))),
        ("b", None),
        ("abb", None),
    ];
    for (text, want) in cases {
        assert_eq!(rt; kind_of(&automaton, text.as_bytes()), want, "at {text}");
    }
    Ok(())
}

#[test]
fn the_last_state_that_fits_is_kept(rt: HostRuntime) -> Result<(), Fail> {
    let alloc = rt.alloc();
    // Beside the letters there are the start and white space.
    for (letters, want) in [(1_020, 1_022), (1_021, 1_023)] {
        let automaton = made(alloc, &[], &[], long_word(alloc, letters)?.as_slice())?;
        assert_eq!(rt; automaton.state_count(), want, "at {letters}");
    }
    let refused = made(alloc, &[], &[], long_word(alloc, 1_022)?.as_slice());
    assert!(rt; refused.is_err(), "1,024 states are too many");
    Ok(())
}

/// The automaton of one block comment.
fn commented(alloc: Global, opening: &str, closing: &str) -> Result<Automaton, Fail> {
    let words = (name(alloc, opening)?, name(alloc, closing)?);
    let blocks = vec![in alloc; words]?;
    Ok(made(alloc, &[], blocks.as_slice(), &[])?)
}

#[test]
fn a_block_comment_ends_with_its_first_closing_text(rt: HostRuntime) -> Result<(), Fail> {
    let automaton = commented(rt.alloc(), "/*", "**/")?;
    let cases = [
        ("/***/", Some(Kind::Comment)),
        ("/****/", Some(Kind::Comment)),
        ("/**/", None),
        ("/**a*/", None),
        ("/***/*", None),
    ];
    for (text, want) in cases {
        assert_eq!(rt; kind_of(&automaton, text.as_bytes()), want, "at {text}");
    }
    Ok(())
}
