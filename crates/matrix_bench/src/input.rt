//! Matrices from numbers: how many rows and columns, the different rows, and for each row its
//! number.
use crate::checked::{single, stacked, united};
use cell_sets::{Bits, Cell};
use quad_mat::Mat;
use std::alloc::Global;

/// The cells of the matrices that are measured.
pub type WideCell = Bits<2>;

/// Symbols are below it.
pub const ROOM: u32 = 128;

/// Numbers, of which so many are read.
#[derive(Drop)]
pub struct Numbers {
    numbers: Vec<u32>,
    place: usize,
}

impl Numbers {
    /// The numbers of the text, with white space between them. None where a word is no number, or
    /// memory ran out.
    pub fn of(alloc: Global, text: &str) -> Option<Numbers> {
        let mut numbers = Vec::new(alloc);
        for word in text.split_whitespace() {
            numbers.push(word.parse::<u32>().ok()?).ok()?;
        }
        Some(Numbers { numbers, place: 0 })
    }

    /// The next number.
    pub fn next(&mut self) -> Option<u32> {
        let number = *self.numbers.get(self.place)?;
        self.place = self.place.wrapping_add(1);
        Some(number)
    }
}

/// A cell: how many symbols it has, and these.
fn cell(alloc: Global, numbers: &mut Numbers) -> Option<WideCell> {
    let mut cell = Bits::empty();
    for _symbol in 0..numbers.next()? {
        let symbol = numbers.next()?;
        if symbol >= ROOM {
            return None;
        }
        cell.insert(alloc, symbol as u16).ok()?;
    }
    Some(cell)
}

/// The unions of the matrices two by two.
fn united_pairs(alloc: Global, mats: &[Mat<WideCell>]) -> Option<Vec<Mat<WideCell>>> {
    let mut pairs = Vec::new(alloc);
    for pair in mats.chunks(2) {
        match pair {
            [a, b] => pairs.push(united(alloc, a, b)?).ok()?,
            [only] => pairs.push(only.share(alloc).ok()?).ok()?,
            _ => {}
        }
    }
    Some(pairs)
}

/// The matrices two by two, one above the other.
fn stacked_pairs(alloc: Global, mats: &[Mat<WideCell>]) -> Option<Vec<Mat<WideCell>>> {
    let mut pairs = Vec::new(alloc);
    for pair in mats.chunks(2) {
        match pair {
            [a, b] => pairs.push(stacked(alloc, a, b)?).ok()?,
            [only] => pairs.push(only.share(alloc).ok()?).ok()?,
            _ => {}
        }
    }
    Some(pairs)
}

/// A matrix of one row: how many entries it has, and the column and the cell of each.
fn row(alloc: Global, numbers: &mut Numbers, columns: u32) -> Option<Mat<WideCell>> {
    let mut mats = Vec::new(alloc);
    mats.push(Mat::zero(1, columns)).ok()?;
    for _entry in 0..numbers.next()? {
        let column = numbers.next()?;
        let cell = cell(alloc, numbers)?;
        mats.push(single(alloc, 1, columns, 0, column, cell)?).ok()?;
    }
    for _level in 0..32 {
        if mats.len() > 1 {
            mats = united_pairs(alloc, mats.as_slice())?;
        }
    }
    mats.first()?.share(alloc).ok()
}

/// A matrix: its rows and columns, how many different rows it has, these, and for each row its
/// place among these. Row 0 of these is empty and not told.
pub fn matrix(alloc: Global, numbers: &mut Numbers) -> Option<Mat<WideCell>> {
    let rows = numbers.next()?;
    let columns = numbers.next()?;
    let mut different = Vec::new(alloc);
    different.push(Mat::zero(1, columns)).ok()?;
    for _row in 0..numbers.next()? {
        different.push(row(alloc, numbers, columns)?).ok()?;
    }
    let mut mats = Vec::new(alloc);
    mats.push(Mat::zero(0, columns)).ok()?;
    for _row in 0..rows {
        let one = different.get(numbers.next()? as usize)?;
        mats.push(one.share(alloc).ok()?).ok()?;
    }
    for _level in 0..32 {
        if mats.len() > 1 {
            mats = stacked_pairs(alloc, mats.as_slice())?;
        }
    }
    mats.first()?.share(alloc).ok()
}
