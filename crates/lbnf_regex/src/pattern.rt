//! Patterns: expressions over bytes, with lists of parts, so that a pattern is no deeper than the
//! brackets and signs of what it stands for.
use sqlite_items::{Boxed, Items};

/// An expression over bytes. `specs/Patterns.antt` says what each form stands for.
#[derive(Debug, Drop)]
pub(crate) enum Pattern {
    /// The empty text.
    Empty,
    /// One of these bytes.
    Bytes(Items<u8>),
    /// These bytes in turn.
    Literal(Items<u8>),
    /// The parts in turn.
    Seq(Items<Pattern>),
    /// One of the parts.
    Alt(Items<Pattern>),
    /// None or more in turn.
    Star(Boxed<Pattern>),
    /// One or more in turn.
    Plus(Boxed<Pattern>),
    /// Any bytes up to the end of the first of these closing texts.
    Until(Items<u8>),
}
