//! Times of calls on matrices.
use crate::checked::{cut_at, entry, gathered, multiplied, united};
use crate::grammars::read_form;
use crate::input::{Numbers, WideCell, matrix};
use binary_form::Binary;
use cell_sets::Cell;
use quad_mat::{Cut, Mat};
use std::alloc::Global;
use std::io;
use std::time::{Clock, Instant};

/// What is measured: a matrix and the place of a cut, two matrices of one size, and two factors with
/// a grammar's binary form.
#[derive(Drop)]
pub struct Sample {
    whole: Mat<WideCell>,
    row: u32,
    column: u32,
    left: Mat<WideCell>,
    right: Mat<WideCell>,
    first: Mat<WideCell>,
    second: Mat<WideCell>,
    form: Binary<WideCell>,
}

/// The sample of a text of numbers: row and column of the cut, the matrices, and the grammar.
pub fn read_sample(alloc: Global, text: &str) -> Option<Sample> {
    let mut numbers = Numbers::of(alloc, text)?;
    let row = numbers.next()?;
    let column = numbers.next()?;
    Some(Sample {
        whole: matrix(alloc, &mut numbers)?,
        row,
        column,
        left: matrix(alloc, &mut numbers)?,
        right: matrix(alloc, &mut numbers)?,
        first: matrix(alloc, &mut numbers)?,
        second: matrix(alloc, &mut numbers)?,
        form: read_form(alloc, &mut numbers)?,
    })
}

/// How many symbols are looked at of an entry.
const SYMBOLS: u16 = 128;

/// In how many rows and columns, spread over all, entries are looked at.
const PLACES: u32 = 61;

/// The sum with the symbols of the cell too.
fn with_symbols(cell: &WideCell, start: u64) -> u64 {
    let mut sum = start;
    for symbol in 0..SYMBOLS {
        if cell.has(symbol) {
            sum = sum.wrapping_mul(31).wrapping_add(u64::from(symbol) + 1);
        }
    }
    sum
}

/// The n-th of the rows or columns that are looked at, of so many: the first and the last are among
/// them.
fn place(count: u32, n: u32) -> u32 {
    let last = count.saturating_sub(1);
    let place = u64::from(last) * u64::from(n) / u64::from(PLACES - 1);
    u32::try_from(place).unwrap_or(last)
}

/// A sum over the symbols of some entries: equal matrices have the same.
fn sum_of(mat: &Mat<WideCell>) -> u64 {
    let mut sum: u64 = 0;
    for a in 0..PLACES {
        for b in 0..PLACES {
            if let Some(cell) = entry(mat, place(mat.rows(), a), place(mat.cols(), b)) {
                sum = with_symbols(cell, sum);
            }
        }
    }
    sum
}

/// A call on matrices.
#[derive(Clone, Copy)]
pub enum Call {
    Union,
    Cut,
    Gather,
    Product,
}

/// What a call made.
#[derive(Drop)]
enum Made {
    One(Mat<WideCell>),
    Four(Cut<WideCell>),
}

fn run_call(alloc: Global, call: Call, sample: &Sample, parts: &Cut<WideCell>) -> Option<Made> {
    match call {
        Call::Union => Some(Made::One(united(alloc, &sample.left, &sample.right)?)),
        Call::Cut => {
            let cut = cut_at(alloc, &sample.whole, sample.row, sample.column)?;
            Some(Made::Four(cut))
        }
        Call::Gather => Some(Made::One(gathered(alloc, parts)?)),
        Call::Product => {
            let product = multiplied(alloc, &sample.form, &sample.first, &sample.second)?;
            Some(Made::One(product))
        }
    }
}

fn made_sum(made: &Made) -> u64 {
    match made {
        Made::One(mat) => sum_of(mat),
        Made::Four(cut) => sum_of(&cut.a11)
            .wrapping_add(sum_of(&cut.a12))
            .wrapping_add(sum_of(&cut.a21))
            .wrapping_add(sum_of(&cut.a22)),
    }
}

/// The least nanoseconds of a call, and the sum over what it made.
#[derive(Clone, Copy)]
pub struct Timing {
    pub nanoseconds: u128,
    pub sum: u64,
}

/// The least time of so many calls. None where memory ran out or sizes do not fit. What a call made
/// is dropped outside its time.
pub fn least_time<R: Clock>(
    rt: &R,
    alloc: Global,
    call: Call,
    sample: &Sample,
    times: u32,
) -> io::Result<Option<Timing>> {
    let mut best = Timing {
        nanoseconds: u128::MAX,
        sum: 0,
    };
    let Some(parts) = cut_at(alloc, &sample.whole, sample.row, sample.column) else {
        return Ok(None);
    };
    for _time in 0..times {
        let start = Instant::now(rt)?;
        let result = run_call(alloc, call, sample, &parts);
        let taken = start.elapsed(rt)?.as_nanos();
        let Some(made) = result else {
            return Ok(None);
        };
        best.nanoseconds = best.nanoseconds.min(taken);
        best.sum = made_sum(&made);
    }
    Ok(Some(best))
}
