//! The edits of the run. They come in pairs: one puts a semicolon in the place of a statement's
//! sign, so that the statement is none, and the next puts a plus there.
ghost use Rattle.std.specs.Prelude.{◌≡◌, ◌≤◌, ◌<◌};
ghost use Rattle.generator.specs.Generated.{edited_statement, edit_of, edit_byte, span_of};
ghost use Rattle.generator.specs.Generated.{statement_behind};

use crate::drawing::drawn;

/// The most statements of a text that is edited.
pub const MAX_STATEMENTS: u32 = 2_048;

/// How many edits a run makes.
pub const EDITS: u32 = 100;

const BYTES: [u8; 2] = *b";+";

/// An edit: one byte of the text goes, and another comes in its place.
#[derive(Clone, Copy, Debug, PartialEq, Eq)]
pub struct Edit {
    /// The number of the statement whose sign goes.
    pub statement: u32,
    /// The offset of the byte that goes.
    pub at: u32,
    /// The byte that comes.
    pub byte: u8,
}

/// The tokens from one place up to another.
#[derive(Clone, Copy, Debug, PartialEq, Eq)]
pub struct Span {
    /// The place of the first token.
    pub first: u32,
    /// The place behind the last token.
    pub end: u32,
}

fn edited_statement(seed: u64, statements: u32, pair: u32) -> u32
    requires { 0 < statements }
    ensures { result ≡ edited_statement seed statements pair }
{
    let draw = 4 * u64::from(statements) + u64::from(pair);
    (drawn(seed, draw) % u64::from(statements)) as u32
}

fn edit_byte(number: u32) -> u8
    ensures { result ≡ edit_byte number }
{
    BYTES[(number % 2) as usize]
}

/// The edit of this number, from 0, of the text of so many statements of the seed.
pub fn edit_of(seed: u64, statements: u32, number: u32) -> Edit
    requires some { 0 < statements }
    requires few { statements ≤ MAX_STATEMENTS }
    ensures { result ≡ edit_of seed statements number }
{
    let statement = edited_statement(seed, statements, number / 2);
    Edit {
        statement,
        at: 10 * statement + 5,
        byte: edit_byte(number),
    }
}

/// The tokens of a statement, without its semicolon.
pub fn span_of(statement: u32) -> Span
    requires { statement ≤ MAX_STATEMENTS }
    ensures { result ≡ span_of statement }
{
    Span {
        first: 8 * statement,
        end: 8 * statement + 7,
    }
}

/// The number of the statement behind this one, of so many; behind the last one comes the first.
pub fn statement_behind(statement: u32, statements: u32) -> u32
    requires { statement < statements }
    ensures { result ≡ statement_behind statement statements }
{
    (statement + 1) % statements
}
