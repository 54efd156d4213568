//! Texts that are opened, and the times that it takes.
ghost use Rattle.spec_lexing.specs.Lexicon.{Lexicon};
ghost use Rattle.text_store.specs.TextStore.{Lexes};

use lbnf_regex::Automaton;
use spec_lexing::Token;
use std::alloc::Global;
use std::io;
use std::time::{Clock, Instant};
use text_store::{EditFault, Text};

/// What is told of a text: its bytes and its tokens, and a sum over these.
#[derive(Clone, Copy)]
pub struct Summary {
    pub bytes: u32,
    pub tokens: u32,
    pub sum: u64,
}

/// The sum with the token too: its kind's number from 1, or 0, and where it stands.
fn with_token(sum: u64, token: &Token) -> u64 {
    let kind = match token.kind {
        Some(number) => u64::from(number) + 1,
        None => 0,
    };
    let sum = sum.wrapping_mul(31).wrapping_add(kind);
    let sum = sum.wrapping_mul(31).wrapping_add(u64::from(token.first));
    sum.wrapping_mul(31).wrapping_add(u64::from(token.end))
}

/// What is told of the text.
fn summary_of(text: &Text) -> Summary {
    let mut sum: u64 = 0;
    for token in text.tokens() {
        sum = with_token(sum, token);
    }
    Summary {
        bytes: text.byte_len(),
        tokens: text.token_count(),
        sum,
    }
}

/// What is told of the text of these bytes.
pub fn opened(alloc: Global, lexer: &Automaton, bytes: &[u8]) -> Result<Summary, EditFault>
    requires lexed { (lexicon : Lexicon) × Lexes lexicon lexer.now }
{
    Ok(summary_of(&Text::open(alloc, lexer, bytes)?))
}

/// The least nanoseconds in which the text is opened, of so many times. A text is dropped outside
/// its time.
pub fn least_time<R: Clock>(
    rt: &R,
    alloc: Global,
    lexer: &Automaton,
    bytes: &[u8],
    times: u32,
) -> io::Result<u128>
    requires lexed { (lexicon : Lexicon) × Lexes lexicon lexer.now }
{
    let mut least = u128::MAX;
    for _time in 0..times {
        let start = Instant::now(rt)?;
        let text = Text::open(alloc, lexer, bytes);
        least = least.min(start.elapsed(rt)?.as_nanos());
        drop(text);
    }
    Ok(least)
}
