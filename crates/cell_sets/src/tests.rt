//! Each call succeeds where there is memory. The cells are called through the trait alone.
ghost use Rattle.std.specs.Prelude.{◌≡◌};

use crate::{Bits, Cell, ListCell, union_into};
use std::alloc::{AllocError, Global};
use std::test::Fail;

fn room_of<C: Cell>() -> u32
    ensures { result ≡ C.ROOM }
{
    C::ROOM
}

/// A cell with those of these symbols that it has room for, and whether each was new.
fn filled<C: Cell>(alloc: Global, symbols: &[u16]) -> Result<(C, Vec<bool>), AllocError> {
    let mut cell = C::empty();
    let mut answers = Vec::new(alloc);
    for symbol in symbols {
        if (*symbol as u32) < C::ROOM {
            answers.push(cell.insert(alloc, *symbol)?)?;
        }
    }
    Ok((cell, answers))
}

/// The next symbol behind this one.
fn next_behind<C: Cell>(cell: &C, symbol: u16) -> Option<u16> {
    cell.next_from(symbol.checked_add(1)?)
}

/// The first eight symbols, one after another.
fn members_of<C: Cell>(alloc: Global, cell: &C) -> Result<Vec<u16>, AllocError> {
    let mut members = Vec::new(alloc);
    let mut next = cell.next_from(0);
    for _ in 0..8 {
        if let Some(symbol) = next {
            members.push(symbol)?;
            next = next_behind(cell, symbol);
        }
    }
    Ok(members)
}

/// Whether the cell has room for the symbol, and has it.
fn has_in_room<C: Cell>(cell: &C, symbol: u16) -> bool {
    (symbol as u32) < C::ROOM && cell.has(symbol)
}

/// Which of the asked symbols a cell has that holds the inserted ones.
fn membership<C: Cell>(
    alloc: Global,
    inserted: &[u16],
    asked: &[u16],
) -> Result<Vec<bool>, AllocError> {
    let (cell, _) = filled::<C>(alloc, inserted)?;
    let mut answers = Vec::new(alloc);
    for symbol in asked {
        answers.push(has_in_room(&cell, *symbol))?;
    }
    Ok(answers)
}

/// The members of the union of two cells, made as a new cell and in the place of the first.
fn united<C: Cell>(
    alloc: Global,
    left: &[u16],
    right: &[u16],
) -> Result<(Vec<u16>, Vec<u16>), AllocError> {
    let (mut left, _) = filled::<C>(alloc, left)?;
    let (right, _) = filled::<C>(alloc, right)?;
    let both = left.union(alloc, &right)?;
    union_into(alloc, &mut left, &right)?;
    Ok((members_of(alloc, &both)?, members_of(alloc, &left)?))
}

/// Whether a cell without symbols is empty and has none, and whether it is empty with one.
fn emptiness<C: Cell>(alloc: Global) -> Result<(bool, bool, bool), AllocError> {
    let empty = C::empty();
    let (one, _) = filled::<C>(alloc, &[0])?;
    Ok((empty.is_empty(), has_in_room(&empty, 0), one.is_empty()))
}

#[test]
fn a_list_cell_has_room_for_each_number_of_16_bits(rt: HostRuntime) {
    assert_eq!(rt; room_of::<ListCell>(), 65536);
}

#[test]
fn a_new_cell_is_empty(rt: HostRuntime) -> Result<(), Fail> {
    assert_eq!(rt; emptiness::<ListCell>(rt.alloc())?, (true, false, false));
    Ok(())
}

#[test]
fn a_symbol_is_new_once(rt: HostRuntime) -> Result<(), Fail> {
    let cases = [
        (&[][..], &[][..], &[][..]),
        (&[1, 2, 3], &[true, true, true], &[1, 2, 3]),
        (&[3, 2, 1], &[true, true, true], &[1, 2, 3]),
        (
            &[5, 9, 2, 5, 7],
            &[true, true, true, false, true],
            &[2, 5, 7, 9],
        ),
        (
            &[0, 65535, 0, 65535],
            &[true, true, false, false],
            &[0, 65535],
        ),
    ];
    for (inserted, new, members) in cases {
        let (cell, answers) = filled::<ListCell>(rt.alloc(), inserted)?;
        assert_eq!(rt; answers.as_slice(), new, "at {inserted:?}");
        assert_eq!(rt;
            members_of(rt.alloc(), &cell)?.as_slice(),
            members,
            "at {inserted:?}"
        );
        assert_eq!(rt; cell.as_slice(), members, "at {inserted:?}");
    }
    Ok(())
}

#[test]
fn a_cell_has_just_what_was_inserted(rt: HostRuntime) -> Result<(), Fail> {
    let cases = [
        (&[][..], &[0, 1, 65535][..], &[false, false, false][..]),
        (&[5], &[4, 5, 6], &[false, true, false]),
        (
            &[7, 0, 3],
            &[0, 1, 3, 4, 7, 8],
            &[true, false, true, false, true, false],
        ),
        (
            &[65535, 2],
            &[0, 2, 65534, 65535],
            &[false, true, false, true],
        ),
    ];
    for (inserted, asked, has) in cases {
        let answers = membership::<ListCell>(rt.alloc(), inserted, asked)?;
        assert_eq!(rt; answers.as_slice(), has, "at {inserted:?}");
    }
    Ok(())
}

#[test]
fn the_next_symbol_is_the_least_that_is_not_below(rt: HostRuntime) -> Result<(), Fail> {
    let cases = [
        (&[][..], 0, None),
        (&[3, 7], 0, Some(3)),
        (&[3, 7], 3, Some(3)),
        (&[3, 7], 4, Some(7)),
        (&[3, 7], 7, Some(7)),
        (&[3, 7], 8, None),
        (&[3, 7], 65535, None),
        (&[0, 65535], 0, Some(0)),
        (&[0, 65535], 1, Some(65535)),
        (&[0, 65535], 65535, Some(65535)),
    ];
    for (symbols, from, next) in cases {
        let (cell, _) = filled::<ListCell>(rt.alloc(), symbols)?;
        assert_eq!(rt; cell.next_from(from), next, "at {from} in {symbols:?}");
    }
    Ok(())
}

#[test]
fn a_union_has_the_symbols_of_both(rt: HostRuntime) -> Result<(), Fail> {
    let cases = [
        (&[][..], &[][..], &[][..]),
        (&[1, 2], &[], &[1, 2]),
        (&[], &[1, 2], &[1, 2]),
        (&[1, 2], &[7, 9], &[1, 2, 7, 9]),
        (&[7, 9], &[1, 2], &[1, 2, 7, 9]),
        (&[4, 5, 6], &[4, 5, 6], &[4, 5, 6]),
        (&[1, 4, 6, 10], &[2, 4, 7], &[1, 2, 4, 6, 7, 10]),
        (&[0], &[65535], &[0, 65535]),
        (&[3, 65535], &[0, 65535], &[0, 3, 65535]),
    ];
    for (left, right, members) in cases {
        let (both, into) = united::<ListCell>(rt.alloc(), left, right)?;
        assert_eq!(rt; both.as_slice(), members, "at {left:?} and {right:?}");
        assert_eq!(rt; into.as_slice(), members, "at {left:?} and {right:?}");
    }
    Ok(())
}

/// What two cells with these symbols have in common: whether they meet, the common symbols, and
/// whether they are the same.
fn compared<C: Cell>(
    alloc: Global,
    left: &[u16],
    right: &[u16],
) -> Result<(bool, Vec<u16>, bool), AllocError> {
    let (left, _) = filled::<C>(alloc, left)?;
    let (right, _) = filled::<C>(alloc, right)?;
    let common = left.common(alloc, &right)?;
    Ok((
        left.meets(&right),
        members_of(alloc, &common)?,
        left.same(&right),
    ))
}

#[test]
fn cells_meet_where_they_have_a_common_symbol(rt: HostRuntime) -> Result<(), Fail> {
    let cases = [
        (&[][..], &[][..], &[][..], true),
        (&[1, 2], &[], &[], false),
        (&[], &[1, 2], &[], false),
        (&[1, 3], &[2, 4], &[], false),
        (&[4, 5, 6], &[6, 5, 4], &[4, 5, 6], true),
        (&[4, 5], &[4, 5, 6], &[4, 5], false),
        (&[4, 5, 6], &[5, 6], &[5, 6], false),
        (&[1, 4, 7, 10], &[2, 4, 7], &[4, 7], false),
        (&[0, 65535], &[65535], &[65535], false),
        (&[0, 65535], &[65535, 0], &[0, 65535], true),
    ];
    for (left, right, members, same) in cases {
        let (meet, common, are_same) = compared::<ListCell>(rt.alloc(), left, right)?;
        assert_eq!(rt; meet, !members.is_empty(), "at {left:?} and {right:?}");
        assert_eq!(rt; common.as_slice(), members, "at {left:?} and {right:?}");
        assert_eq!(rt; are_same, same, "at {left:?} and {right:?}");
    }
    Ok(())
}

/// The members of the union of two cells with these symbols, and of what they have in common.
fn united_and_common<C: Cell>(
    alloc: Global,
    left: &[u16],
    right: &[u16],
) -> Result<(Vec<u16>, Vec<u16>), AllocError> {
    let (both, _) = united::<C>(alloc, left, right)?;
    let (_, common, _) = compared::<C>(alloc, left, right)?;
    Ok((both, common))
}

/// The same of rows of so many words.
fn united_and_common_in(
    alloc: Global,
    words: u32,
    left: &[u16],
    right: &[u16],
) -> Result<(Vec<u16>, Vec<u16>), AllocError> {
    match words {
        1 => united_and_common::<Bits<1>>(alloc, left, right),
        2 => united_and_common::<Bits<2>>(alloc, left, right),
        4 => united_and_common::<Bits<4>>(alloc, left, right),
        8 => united_and_common::<Bits<8>>(alloc, left, right),
        16 => united_and_common::<Bits<16>>(alloc, left, right),
        _ => united_and_common::<Bits<32>>(alloc, left, right),
    }
}

#[test]
fn rows_of_bits_give_their_symbols_in_rising_order(rt: HostRuntime) -> Result<(), Fail> {
    let cases = [
        (1, &[63, 0][..], &[63][..], &[0, 63][..], &[63][..]),
        (2, &[127, 0, 64], &[64, 63], &[0, 63, 64, 127], &[64]),
        (4, &[255, 0, 64], &[64, 63], &[0, 63, 64, 255], &[64]),
        (8, &[511, 63, 0], &[511, 64], &[0, 63, 64, 511], &[511]),
        (16, &[1023, 64, 0], &[0, 63], &[0, 63, 64, 1023], &[0]),
        (32, &[2047, 64, 63], &[63, 0], &[0, 63, 64, 2047], &[63]),
    ];
    for (words, left, right, both, common) in cases {
        let (all, shared) = united_and_common_in(rt.alloc(), words, left, right)?;
        assert_eq!(rt; all.as_slice(), both, "of {words} words");
        assert_eq!(rt; shared.as_slice(), common, "of {words} words");
    }
    Ok(())
}

/// Whether each of these symbols was new when it was inserted, and then whether the cell has the
/// asked one, whether it is empty, and whether it meets the cell of the asked one and is the same.
fn told<C: Cell>(alloc: Global, inserted: &[u16], asked: u16) -> Result<Vec<bool>, AllocError> {
    let (cell, mut answers) = filled::<C>(alloc, inserted)?;
    let (other, _) = filled::<C>(alloc, &[asked])?;
    answers.push(has_in_room(&cell, asked))?;
    answers.push(cell.is_empty())?;
    answers.push(cell.meets(&other))?;
    answers.push(cell.same(&other))?;
    Ok(answers)
}

/// The same of a row of so many words.
fn told_in(
    alloc: Global,
    words: u32,
    inserted: &[u16],
    asked: u16,
) -> Result<Vec<bool>, AllocError> {
    match words {
        1 => told::<Bits<1>>(alloc, inserted, asked),
        2 => told::<Bits<2>>(alloc, inserted, asked),
        4 => told::<Bits<4>>(alloc, inserted, asked),
        8 => told::<Bits<8>>(alloc, inserted, asked),
        16 => told::<Bits<16>>(alloc, inserted, asked),
        _ => told::<Bits<32>>(alloc, inserted, asked),
    }
}

#[test]
fn rows_of_bits_tell_what_they_have(rt: HostRuntime) -> Result<(), Fail> {
    let cases = [
        (1, &[][..], 63, &[false, true, false, false][..]),
        (2, &[], 64, &[false, true, false, false]),
        (4, &[], 64, &[false, true, false, false]),
        (8, &[], 64, &[false, true, false, false]),
        (16, &[], 64, &[false, true, false, false]),
        (32, &[], 64, &[false, true, false, false]),
        (1, &[63, 64], 64, &[true, false, false, false, false]),
        (2, &[127, 128], 128, &[true, false, false, false, false]),
        (4, &[255, 256], 256, &[true, false, false, false, false]),
        (8, &[511, 512], 512, &[true, false, false, false, false]),
        (16, &[1023, 1024], 1024, &[true, false, false, false, false]),
        (32, &[2047, 2048], 2048, &[true, false, false, false, false]),
        (1, &[63, 63], 63, &[true, false, true, false, true, true]),
        (2, &[127, 63], 64, &[true, true, false, false, false, false]),
        (4, &[255, 64], 255, &[true, true, true, false, true, false]),
        (8, &[511, 511], 511, &[true, false, true, false, true, true]),
        (
            16,
            &[1023, 0],
            64,
            &[true, true, false, false, false, false],
        ),
        (
            32,
            &[2047, 0],
            2047,
            &[true, true, true, false, true, false],
        ),
    ];
    for (words, inserted, asked, answers) in cases {
        let told = told_in(rt.alloc(), words, inserted, asked)?;
        assert_eq!(rt; told.as_slice(), answers, "of {words} words");
    }
    Ok(())
}
