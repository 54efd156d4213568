//! What bytes in turn expect next. Each byte is one position.
ghost use Rattle.std.specs.Prelude.{◌≡◌, ◌+◌, ◌-◌, ◌<◌, ◌≤◌, ◌^◌, ◌↔◌, ◌∷◌, ◌++◌, [], length};
ghost use Rattle.std.specs.Prelude.{slice_index_or, Contains, IfSome, IsTrue, OnOk};
ghost use Rattle.spec_automata.specs.Encoding.{literal};
ghost use Rattle.spec_automata.specs.Positions.{position_count};
ghost use Rattle.lbnf_regex.specs.Steps.{is_nullable, AddsBehind, AddsExpected, AddsIf, HasLast};
ghost use Rattle.lbnf_regex.specs.declared.next_byte.NextByte.TheVariants.{InSet};

use crate::expecting::has;
use crate::next_byte::NextByte;
use sqlite_items::Items;
use std::alloc::{AllocError, Global};

/// How many positions the bytes have. None where the number does not fit.
#[tactic(auto, using(crate::proofs::LiteralLemmas::literal_count))]
pub(crate) fn literal_size_if_fits(bytes: &[u8]) -> Option<u32>
    ensures { IfSome result (λ size. size ≡ position_count (literal bytes.now)) }
{
    u32::try_from(bytes.len()).ok()
}

/// How many positions the bytes have.
#[tactic(auto, using(crate::proofs::LiteralLemmas::literal_count))]
pub(crate) fn literal_size(bytes: &[u8]) -> u32
    requires { position_count (literal bytes.now) < 2 ^ 32 }
    ensures { result ≡ position_count (literal bytes.now) }
{
    bytes.len() as u32
}

/// Whether the bytes are the empty text.
#[tactic(auto, using(crate::proofs::LiteralLemmas::literal_nullable))]
pub(crate) fn is_nullable_literal(bytes: &[u8]) -> bool
    ensures { result ≡ is_nullable (literal bytes.now) }
{
    bytes.is_empty()
}

/// Whether the position of the last byte is marked.
pub(crate) fn ends_literal(bytes: &[u8], first: u32, marks: &[u32]) -> bool
    requires { first + length bytes.now < 2 ^ 32 }
    ensures { IsTrue result ↔ HasLast (literal bytes.now) first (Contains marks.now) }
{
    !bytes.is_empty() && has(marks, first + (bytes.len() - 1) as u32)
}

fn expect_byte(
    alloc: Global,
    byte: u8,
    position: u32,
    into: &mut Items<NextByte>,
) -> Result<(), AllocError>
    ensures { OnOk result (into.new ≡ into.old ++ InSet position (byte ∷ []) ∷ []) }
{
    let mut set = Items::new(alloc);
    set.push(byte)?;
    into.push(NextByte::InSet { position, set })?;
    Ok(())
}

fn expect_start(
    alloc: Global,
    bytes: &[u8],
    first: u32,
    entered: bool,
    into: &mut Items<NextByte>,
) -> Result<(), AllocError>
    ensures { OnOk result (AddsIf (IsTrue entered × (0 < length bytes.now))
        (InSet first (slice_index_or bytes.now 0 0 ∷ [])) into.old into.new) }
{
    if entered && !bytes.is_empty() {
        expect_byte(alloc, bytes[0], first, into)?;
    }
    Ok(())
}

fn expect_behind(
    alloc: Global,
    bytes: &[u8],
    first: u32,
    mark: u32,
    into: &mut Items<NextByte>,
) -> Result<(), AllocError>
    requires { first + length bytes.now < 2 ^ 32 }
    ensures { OnOk result (AddsIf ((first ≤ mark) × (mark - first + 1 < length bytes.now))
        (InSet (mark + 1) (slice_index_or bytes.now (mark - first + 1) 0 ∷ []))
        into.old into.new) }
{
    if first <= mark && ((mark - first) as usize) + 1 < bytes.len() {
        expect_byte(alloc, bytes[(mark - first) as usize + 1], mark + 1, into)?;
    }
    Ok(())
}

fn expect_inside(
    alloc: Global,
    bytes: &[u8],
    first: u32,
    marks: &[u32],
    into: &mut Items<NextByte>,
) -> Result<(), AllocError>
    requires { first + length bytes.now < 2 ^ 32 }
    ensures { OnOk result (AddsBehind first bytes.now (Contains marks.now) into.old into.new) }
{
    for mark in marks {
        expect_behind(alloc, bytes, first, *mark, into)?;
    }
    Ok(())
}

/// Adds each way in which the bytes in turn expect the next one.
pub(crate) fn expect_literal(
    alloc: Global,
    bytes: &[u8],
    first: u32,
    entered: bool,
    marks: &[u32],
    into: &mut Items<NextByte>,
) -> Result<(), AllocError>
    requires { first + length bytes.now < 2 ^ 32 }
    ensures { OnOk result (AddsExpected (literal bytes.now) first (IsTrue entered)
        (Contains marks.now) into.old into.new) }
{
    expect_start(alloc, bytes, first, entered, into)?;
    expect_inside(alloc, bytes, first, marks, into)
}
