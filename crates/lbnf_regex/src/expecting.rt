//! What a pattern expects next, where it is entered or has marked positions.
ghost use Rattle.std.specs.Prelude.{◌≡◌, ◌+◌, ◌-◌, ◌<◌, ◌≤◌, ◌^◌, ◌↔◌, ◌⊎◌, length, map, true};
ghost use Rattle.std.specs.Prelude.{Contains, IfOk, IfSome, IsTrue, OnOk};
ghost use Rattle.spec_automata.specs.ByteExpressions.{until};
ghost use Rattle.spec_automata.specs.Encoding.{one_of_these, these_in_turn};
ghost use Rattle.spec_automata.specs.Positions.{position_count};
ghost use Rattle.lbnf_regex.specs.Patterns.{bytes_of_pattern, sizes_of};
ghost use Rattle.lbnf_regex.specs.Steps.{is_nullable as can_be_empty, HasLast, HasWithin};
ghost use Rattle.lbnf_regex.specs.Steps.{EntersAgain, EntersBehind, AddsExpected, AddsIf};
ghost use Rattle.lbnf_regex.specs.Steps.{AddsInside};
ghost use Rattle.lbnf_regex.specs.declared.next_byte.NextByte.TheVariants.{InSet, InComment};

use crate::literal::{
    ends_literal, expect_literal, is_nullable_literal, literal_size, literal_size_if_fits,
};
use crate::next_byte::NextByte;
use crate::pattern::Pattern;
use sqlite_items::Items;
use std::alloc::{AllocError, Global};

/// How many positions the pattern has. None where the number does not fit.
pub(crate) fn size_if_fits(pattern: &Pattern) -> Option<u32>
    ensures { IfSome result (λ size. size ≡ position_count (bytes_of_pattern pattern.now)) }
{
    match pattern {
        Pattern::Empty => Some(0),
        Pattern::Bytes(_) => Some(1),
        Pattern::Literal(bytes) => literal_size_if_fits(bytes.as_slice()),
        Pattern::Seq(parts) => {
            let mut total = 0u32;
            for part in parts.as_slice() {
                total = total.checked_add(size_if_fits(part)?)?;
            }
            Some(total)
        }
        Pattern::Alt(parts) => {
            let mut total = 0u32;
            for part in parts.as_slice() {
                total = total.checked_add(size_if_fits(part)?)?;
            }
            Some(total)
        }
        Pattern::Star(part) => size_if_fits(part.get()),
        Pattern::Plus(part) => size_if_fits(part.get()),
        Pattern::Until(closing) => match u32::try_from(closing.len()) {
            Ok(len) => len.checked_add(1),
            Err(_) => None,
        },
    }
}

/// How many positions the pattern has.
pub(crate) fn size(pattern: &Pattern) -> u32
    requires { position_count (bytes_of_pattern pattern.now) < 2 ^ 32 }
    ensures { result ≡ position_count (bytes_of_pattern pattern.now) }
{
    match pattern {
        Pattern::Empty => 0,
        Pattern::Bytes(_) => 1,
        Pattern::Literal(bytes) => literal_size(bytes.as_slice()),
        Pattern::Seq(parts) => {
            let mut total = 0;
            for part in parts.as_slice() {
                total += size(part);
            }
            total
        }
        Pattern::Alt(parts) => {
            let mut total = 0;
            for part in parts.as_slice() {
                total += size(part);
            }
            total
        }
        Pattern::Star(part) => size(part.get()),
        Pattern::Plus(part) => size(part.get()),
        Pattern::Until(closing) => closing.len() as u32 + 1,
    }
}

/// How many positions each of the patterns has.
pub(crate) fn sizes(alloc: Global, patterns: &[Pattern]) -> Result<Items<u32>, AllocError>
    requires { position_count (one_of_these (map bytes_of_pattern patterns.now)) < 2 ^ 32 }
    ensures { IfOk result (λ sizes. sizes ≡ sizes_of patterns.now) }
{
    let mut sizes = Items::new(alloc);
    for pattern in patterns {
        sizes.push(size(pattern))?;
    }
    Ok(sizes)
}

/// Whether the pattern matches the empty text.
pub(crate) fn is_nullable(pattern: &Pattern) -> bool
    ensures { result ≡ can_be_empty (bytes_of_pattern pattern.now) }
{
    match pattern {
        Pattern::Empty => true,
        Pattern::Bytes(_) => false,
        Pattern::Literal(bytes) => is_nullable_literal(bytes.as_slice()),
        Pattern::Seq(parts) => {
            for part in parts.as_slice() {
                if !is_nullable(part) {
                    return false;
                }
            }
            true
        }
        Pattern::Alt(parts) => {
            for part in parts.as_slice() {
                if is_nullable(part) {
                    return true;
                }
            }
            false
        }
        Pattern::Star(_) => true,
        Pattern::Plus(part) => is_nullable(part.get()),
        Pattern::Until(closing) => closing.is_empty(),
    }
}

pub(crate) fn has(marks: &[u32], position: u32) -> bool
    ensures { IsTrue result ↔ Contains marks.now position }
{
    marks.contains(&position)
}

fn is_within(position: u32, first: u32, count: u32) -> bool
    requires { first + count < 2 ^ 32 }
    ensures { IsTrue result ↔ ((first ≤ position) × (position < first + count)) }
{
    first <= position && position < first + count
}

/// Whether one of so many positions, from the first on, is marked.
fn has_within(marks: &[u32], first: u32, count: u32) -> bool
    requires { first + count < 2 ^ 32 }
    ensures { IsTrue result ↔ HasWithin first count (Contains marks.now) }
{
    for mark in marks {
        if is_within(*mark, first, count) {
            return true;
        }
    }
    false
}

/// Whether a match that could end here still can, behind a part that may be empty.
fn ends_behind(own: bool, before: bool, nullable: bool) -> bool
    ensures { IsTrue result ↔ (IsTrue own ⊎ ((nullable ≡ true) × IsTrue before)) }
{
    own || (nullable && before)
}

/// Whether a match can end at a marked position. The pattern's positions are numbered from the
/// first on.
fn can_end(pattern: &Pattern, first: u32, marks: &[u32]) -> bool
    requires { first + position_count (bytes_of_pattern pattern.now) < 2 ^ 32 }
    ensures { IsTrue result ↔ HasLast (bytes_of_pattern pattern.now) first (Contains marks.now) }
{
    match pattern {
        Pattern::Empty => false,
        Pattern::Bytes(_) => has(marks, first),
        Pattern::Literal(bytes) => ends_literal(bytes.as_slice(), first, marks),
        Pattern::Seq(parts) => {
            let mut start = first;
            let mut ends = false;
            for part in parts.as_slice() {
                let own = can_end(part, start, marks);
                ends = ends_behind(own, ends, is_nullable(part));
                start += size(part);
            }
            ends
        }
        Pattern::Alt(parts) => {
            let mut start = first;
            for part in parts.as_slice() {
                if can_end(part, start, marks) {
                    return true;
                }
                start += size(part);
            }
            false
        }
        Pattern::Star(part) => can_end(part.get(), first, marks),
        Pattern::Plus(part) => can_end(part.get(), first, marks),
        Pattern::Until(closing) => has(marks, first + closing.len() as u32),
    }
}

/// Whether a match can end at a marked position, as `can_end` tells. A pattern without marks, of
/// this many positions, is passed over.
pub(crate) fn can_end_within(pattern: &Pattern, first: u32, count: u32, marks: &[u32]) -> bool
    requires room { first + position_count (bytes_of_pattern pattern.now) < 2 ^ 32 }
    requires count { count ≡ position_count (bytes_of_pattern pattern.now) }
    ensures { IsTrue result ↔ HasLast (bytes_of_pattern pattern.now) first (Contains marks.now) }
{
    has_within(marks, first, count) && can_end(pattern, first, marks)
}

/// Whether what stands behind the pattern is entered.
fn enters_behind(pattern: &Pattern, first: u32, entered: bool, marks: &[u32]) -> bool
    requires { first + position_count (bytes_of_pattern pattern.now) < 2 ^ 32 }
    ensures { IsTrue result ↔
        EntersBehind (bytes_of_pattern pattern.now) first (IsTrue entered) (Contains marks.now) }
{
    (entered && is_nullable(pattern)) || can_end(pattern, first, marks)
}

/// Whether a repeated pattern is entered, from before or again.
fn enters_again(pattern: &Pattern, first: u32, entered: bool, marks: &[u32]) -> bool
    requires { first + position_count (bytes_of_pattern pattern.now) < 2 ^ 32 }
    ensures { IsTrue result ↔
        EntersAgain (bytes_of_pattern pattern.now) first (IsTrue entered) (Contains marks.now) }
{
    entered || can_end(pattern, first, marks)
}

fn expect_set(
    alloc: Global,
    set: &[u8],
    position: u32,
    entered: bool,
    into: &mut Items<NextByte>,
) -> Result<(), AllocError>
    ensures { OnOk result (AddsIf (IsTrue entered) (InSet position set.now) into.old into.new) }
{
    if entered {
        let set = Items::from_slice(alloc, set)?;
        into.push(NextByte::InSet { position, set })?;
    }
    Ok(())
}

fn expect_first(
    alloc: Global,
    closing: &[u8],
    first: u32,
    entered: bool,
    into: &mut Items<NextByte>,
) -> Result<(), AllocError>
    ensures { OnOk result (AddsIf (IsTrue entered × (0 < length closing.now))
        (InComment first closing.now 0) into.old into.new) }
{
    if entered && !closing.is_empty() {
        let closing = Items::from_slice(alloc, closing)?;
        into.push(NextByte::InComment {
            first,
            closing,
            size: 0,
        })?;
    }
    Ok(())
}

fn expect_at(
    alloc: Global,
    closing: &[u8],
    first: u32,
    mark: u32,
    into: &mut Items<NextByte>,
) -> Result<(), AllocError>
    ensures { OnOk result (AddsIf ((first ≤ mark) × (mark - first < length closing.now))
        (InComment first closing.now (mark - first)) into.old into.new) }
{
    if first <= mark && ((mark - first) as usize) < closing.len() {
        let closing = Items::from_slice(alloc, closing)?;
        into.push(NextByte::InComment {
            first,
            closing,
            size: (mark - first) as usize,
        })?;
    }
    Ok(())
}

fn expect_inside(
    alloc: Global,
    closing: &[u8],
    first: u32,
    marks: &[u32],
    into: &mut Items<NextByte>,
) -> Result<(), AllocError>
    ensures { OnOk result
        (AddsInside first closing.now (Contains marks.now) into.old into.new) }
{
    for mark in marks {
        expect_at(alloc, closing, first, *mark, into)?;
    }
    Ok(())
}

fn expect_closing(
    alloc: Global,
    closing: &[u8],
    first: u32,
    entered: bool,
    marks: &[u32],
    into: &mut Items<NextByte>,
) -> Result<(), AllocError>
    ensures { OnOk result (AddsExpected (until closing.now) first (IsTrue entered)
        (Contains marks.now) into.old into.new) }
{
    expect_first(alloc, closing, first, entered, into)?;
    expect_inside(alloc, closing, first, marks, into)
}

/// Adds each way in which the parts in turn expect the next byte.
#[cycle(expect)]
fn expect_in_turn(
    alloc: Global,
    parts: &[Pattern],
    first: u32,
    entered: bool,
    marks: &[u32],
    into: &mut Items<NextByte>,
) -> Result<(), AllocError>
    requires { first + position_count (these_in_turn (map bytes_of_pattern parts.now)) < 2 ^ 32 }
    ensures { OnOk result (AddsExpected (these_in_turn (map bytes_of_pattern parts.now)) first
        (IsTrue entered) (Contains marks.now) into.old into.new) }
{
    let mut start = first;
    let mut enters = entered;
    for part in parts {
        expect(alloc, part, start, enters, marks, into)?;
        enters = enters_behind(part, start, enters, marks);
        start += size(part);
    }
    Ok(())
}

/// Whether a part of so many positions, from the first on, is entered or has marked positions.
fn is_alive(first: u32, count: u32, entered: bool, marks: &[u32]) -> bool
    requires { first + count < 2 ^ 32 }
    ensures { IsTrue result ↔ (IsTrue entered ⊎ HasWithin first count (Contains marks.now)) }
{
    entered || has_within(marks, first, count)
}

/// Adds each way in which one of the parts expects the next byte.
#[cycle(expect)]
pub(crate) fn expect_one_of(
    alloc: Global,
    parts: &[Pattern],
    first: u32,
    entered: bool,
    marks: &[u32],
    into: &mut Items<NextByte>,
) -> Result<(), AllocError>
    requires { first + position_count (one_of_these (map bytes_of_pattern parts.now)) < 2 ^ 32 }
    ensures { OnOk result (AddsExpected (one_of_these (map bytes_of_pattern parts.now)) first
        (IsTrue entered) (Contains marks.now) into.old into.new) }
{
    let mut start = first;
    for part in parts {
        let count = size(part);
        if is_alive(start, count, entered, marks) {
            expect(alloc, part, start, entered, marks, into)?;
        }
        start += count;
    }
    Ok(())
}

/// Adds each way in which the pattern expects the next byte.
#[cycle(expect)]
pub(crate) fn expect(
    alloc: Global,
    pattern: &Pattern,
    first: u32,
    entered: bool,
    marks: &[u32],
    into: &mut Items<NextByte>,
) -> Result<(), AllocError>
    requires { first + position_count (bytes_of_pattern pattern.now) < 2 ^ 32 }
    ensures { OnOk result (AddsExpected (bytes_of_pattern pattern.now) first (IsTrue entered)
        (Contains marks.now) into.old into.new) }
{
    match pattern {
        Pattern::Empty => Ok(()),
        Pattern::Bytes(set) => expect_set(alloc, set.as_slice(), first, entered, into),
        Pattern::Literal(bytes) => {
            expect_literal(alloc, bytes.as_slice(), first, entered, marks, into)
        }
        Pattern::Seq(parts) => {
            expect_in_turn(alloc, parts.as_slice(), first, entered, marks, into)
        }
        Pattern::Alt(parts) => expect_one_of(alloc, parts.as_slice(), first, entered, marks, into),
        Pattern::Star(part) => {
            let inner = part.get();
            let enters = enters_again(inner, first, entered, marks);
            expect(alloc, inner, first, enters, marks, into)
        }
        Pattern::Plus(part) => {
            let inner = part.get();
            let enters = enters_again(inner, first, entered, marks);
            expect(alloc, inner, first, enters, marks, into)
        }
        Pattern::Until(closing) => {
            expect_closing(alloc, closing.as_slice(), first, entered, marks, into)
        }
    }
}
