//! The text of the run: statements, each of ten bytes and eight tokens.
ghost use Rattle.std.specs.Prelude.{◌≡◌, IfOk};
ghost use Rattle.generator.specs.Generated.{letter_of, digit_of, sign_of, statement_of, text_of};
ghost use Rattle.generator.specs.Generated.{statement_count};

use crate::drawing::drawn;
use std::alloc::{AllocError, Global};

const STATEMENT_LEN: usize = 10;

const SIGNS: [u8; 3] = *b"+-*";

/// How many statements so many tokens make; those that are left over make none.
pub fn statement_count(tokens: u32) -> u32
    ensures { result ≡ statement_count tokens }
{
    tokens / 8
}

fn letter_of(number: u64) -> u8
    ensures { result ≡ letter_of number }
{
    b'a' + (number % 26) as u8
}

fn digit_of(number: u64) -> u8
    ensures { result ≡ digit_of number }
{
    b'0' + (number % 10) as u8
}

fn sign_of(number: u64) -> u8
    ensures { result ≡ sign_of number }
{
    SIGNS[(number % 3) as usize]
}

fn statement_of(seed: u64, number: u32) -> [u8; STATEMENT_LEN]
    ensures { result ≡ statement_of seed number }
{
    let draw = 4 * u64::from(number);
    let letter = letter_of(drawn(seed, draw));
    let left = digit_of(drawn(seed, draw + 1));
    let sign = sign_of(drawn(seed, draw + 2));
    let right = digit_of(drawn(seed, draw + 3));
    [
        b'v', letter, b'=', b'(', left, sign, right, b')', b';', b'\n',
    ]
}

/// The text of so many statements of the seed, ten bytes for each.
pub fn text_of(alloc: Global, seed: u64, statements: u32) -> Result<Vec<u8>, AllocError>
    ensures { IfOk result (λ text. text.items ≡ text_of seed statements) }
{
    let mut text = Vec::with_capacity(alloc, STATEMENT_LEN * statements as usize)?;
    for number in 0..statements {
        text.extend_from_slice(&statement_of(seed, number))?;
    }
    Ok(text)
}
