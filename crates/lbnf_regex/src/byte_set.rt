//! Sets of bytes.
ghost use Rattle.std.specs.Prelude.{◌≡◌, ◌&&◌, ◌++◌, ◌∷◌, [], cond, nat_eq, not, IfOk, OnOk};
ghost use Rattle.std.specs.Set.{is_member};
ghost use Rattle.spec_automata.specs.Encoding.{bytes_that, is_ascii};
ghost use Rattle.spec_lexing.specs.Matching.{is_of_class};
ghost use Rattle.lbnf_regex.specs.ByteSets.{flag_at, kept_of, passes as byte_passes};

use spec_lexing::Class;
use sqlite_items::Items;
use std::alloc::{AllocError, Global};

/// A test that a byte passes or not.
#[derive(Clone, Copy, Debug)]
pub(crate) enum ByteTest {
    /// An ASCII character of the class.
    OfClass(Class),
    /// From the least to the greatest.
    Between { least: u8, greatest: u8 },
    /// White space.
    White,
    /// Any byte but LF.
    OnLine,
}

/// Whether the ASCII character is of the class.
pub(crate) fn is_in_class(class: Class, byte: u8) -> bool
    ensures { result ≡ is_of_class class byte }
{
    match class {
        Class::Digit => byte.is_ascii_digit(),
        Class::Letter => byte.is_ascii_alphabetic(),
        Class::Upper => byte.is_ascii_uppercase(),
        Class::Lower => byte.is_ascii_lowercase(),
        Class::AnyChar => true,
    }
}

fn passes(test: ByteTest, byte: u8) -> bool
    ensures { result ≡ byte_passes test byte }
{
    match test {
        ByteTest::OfClass(class) => is_in_class(class, byte),
        ByteTest::Between { least, greatest } => least <= byte && byte <= greatest,
        ByteTest::White => spec_text::is_white(byte),
        ByteTest::OnLine => byte != b'\n',
    }
}

/// Whether the character is flagged as removed. No flags remove none.
pub(crate) fn is_flagged(removed: &[bool], byte: u8) -> bool
    ensures { result ≡ flag_at removed.now byte }
{
    match removed.get(byte as usize) {
        Some(flag) => *flag,
        None => false,
    }
}

fn is_removed(removed: &[bool], byte: u8) -> bool
    ensures { result ≡ (is_ascii byte && flag_at removed.now byte) }
{
    byte <= 127 && is_flagged(removed, byte)
}

fn is_kept(test: ByteTest, byte: u8, removed: &[bool]) -> bool
    ensures { result ≡ (byte_passes test byte
        && not (is_ascii byte && flag_at removed.now byte)) }
{
    passes(test, byte) && !is_removed(removed, byte)
}

fn push_if(set: &mut Items<u8>, byte: u8, holds: bool) -> Result<(), AllocError>
    ensures { OnOk result (set.new ≡ set.old ++ cond holds (byte ∷ []) []) }
{
    if holds {
        set.push(byte)?;
    }
    Ok(())
}

/// The bytes that pass the test, without the ASCII characters that are removed.
pub(crate) fn set_of(
    alloc: Global,
    test: ByteTest,
    removed: &[bool],
) -> Result<Items<u8>, AllocError>
    ensures { IfOk result (λ set.
        set ≡ kept_of removed.now (bytes_that (byte_passes test))) }
{
    let mut set = Items::new(alloc);
    for byte in 0..256u16 {
        let holds = is_kept(test, byte as u8, removed);
        push_if(&mut set, byte as u8, holds)?;
    }
    Ok(set)
}

/// The set of this byte, or of none where it is an ASCII character that is removed.
pub(crate) fn one_byte(alloc: Global, byte: u8, removed: &[bool]) -> Result<Items<u8>, AllocError>
    ensures { IfOk result (λ set. set ≡ kept_of removed.now (byte ∷ [])) }
{
    let mut set = Items::new(alloc);
    push_if(&mut set, byte, !is_removed(removed, byte))?;
    Ok(set)
}

fn is_kept_scalar(scalars: &[char], byte: u8, removed: &[bool]) -> bool
    ensures { result ≡ ((is_ascii byte && is_member nat_eq scalars.now byte)
        && not (is_ascii byte && flag_at removed.now byte)) }
{
    let scalar = byte as char;
    byte <= 127 && scalars.contains(&scalar) && !is_removed(removed, byte)
}

/// The ASCII characters among the scalars, without those that are removed.
pub(crate) fn set_of_scalars(
    alloc: Global,
    scalars: &[char],
    removed: &[bool],
) -> Result<Items<u8>, AllocError>
    ensures { IfOk result (λ set. set ≡ kept_of removed.now
        (bytes_that (λ b. is_ascii b && is_member nat_eq scalars.now b))) }
{
    let mut set = Items::new(alloc);
    for byte in 0..256u16 {
        let holds = is_kept_scalar(scalars, byte as u8, removed);
        push_if(&mut set, byte as u8, holds)?;
    }
    Ok(set)
}
