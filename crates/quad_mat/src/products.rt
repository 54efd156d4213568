//! The rows of a product of matrices: each different row of the left matrix is multiplied once.
ghost use Rattle.std.specs.Prelude.{◌≡◌, ◌<◌, length, map, IfOk};
ghost use Rattle.quad_mat.specs.Rows.{IsRow, row_of};
ghost use Rattle.quad_mat.specs.Loading.{AreNumbersOf, IsBody};
ghost use Rattle.quad_mat.specs.Products.{AreRowProducts, IsMakingOf, IsRowProductOf, MakesMore};
ghost use Rattle.quad_mat.specs.Products.{ProductHas};
ghost use Rattle.quad_mat.specs.Meeting.{AreMeeting};

use crate::entries::{Entry, row_at};
use crate::images::{Factors, Making, number_of_image};
use crate::loading::{known_at, numbers_for, unknown};
use crate::meeting::meeting_cells;
use crate::room::number_of_union;
use cell_sets::Cell;
use sqlite_items::Items;
use std::alloc::{AllocError, Global};

/// The number in the room of the product of a row of the left matrix and the right matrix: the
/// union over its entries of the images of the rows that their columns name. An entry whose cell
/// makes nothing with any cell of the right matrix is passed over.
#[inline(never)]
fn row_product<C: Cell>(
    alloc: Global,
    factors: &Factors<C>,
    meeting: &[bool],
    making: &mut Making<C>,
    row: &[Entry],
) -> Result<u32, AllocError>
    requires row { IsRow (length (map C.symbols factors.now.left.now.cells.items))
        (length factors.now.right.now.numbers) row.now }
    requires right { IsBody making.old.room.columns
        (map C.symbols factors.now.right.now.cells.items)
        factors.now.right.now.rows factors.now.right.now.numbers }
    requires meeting { AreMeeting C.symbols
        factors.now.bin.now factors.now.left.now factors.now.right.now meeting.now }
    requires making { IsMakingOf C.symbols
        factors.now.bin.now factors.now.left.now factors.now.right.now making.old }
    ensures more { IfOk result (λ _. MakesMore C.symbols
        factors.now.bin.now factors.now.left.now factors.now.right.now making.old making.new) }
    ensures row { IfOk result (λ n. IsRowProductOf C.symbols
        factors.now.bin.now factors.now.left.now factors.now.right.now
        row.now (length row.now) making.new n) }
{
    let named = factors.right.numbers.as_slice();
    let mut sum: u32 = 0;
    for entry in row {
        if !meeting[entry.cell as usize] {
            continue;
        }
        let n = named[entry.column as usize];
        let image = number_of_image(alloc, factors, making, entry.cell, n)?;
        sum = number_of_union(alloc, &mut making.room, sum, image)?;
    }
    Ok(sum)
}

/// The number in the room of the product of row n of the left matrix and the right matrix. One that
/// is not known is made.
fn number_of_row_product<C: Cell>(
    alloc: Global,
    factors: &Factors<C>,
    meeting: &[bool],
    making: &mut Making<C>,
    known: &mut Items<Option<u32>>,
    n: u32,
) -> Result<u32, AllocError>
    requires within { n < length factors.now.left.now.rows }
    requires row { IsRow (length (map C.symbols factors.now.left.now.cells.items))
        (length factors.now.right.now.numbers) (row_of factors.now.left.now.rows n) }
    requires right { IsBody making.old.room.columns
        (map C.symbols factors.now.right.now.cells.items)
        factors.now.right.now.rows factors.now.right.now.numbers }
    requires meeting { AreMeeting C.symbols
        factors.now.bin.now factors.now.left.now factors.now.right.now meeting.now }
    requires making { IsMakingOf C.symbols
        factors.now.bin.now factors.now.left.now factors.now.right.now making.old }
    requires known { AreRowProducts C.symbols
        factors.now.bin.now factors.now.left.now factors.now.right.now making.old known.old }
    ensures more { IfOk result (λ _. MakesMore C.symbols
        factors.now.bin.now factors.now.left.now factors.now.right.now making.old making.new) }
    ensures known { IfOk result (λ _. AreRowProducts C.symbols
        factors.now.bin.now factors.now.left.now factors.now.right.now making.new known.new) }
    ensures row { IfOk result (λ number. IsRowProductOf C.symbols
        factors.now.bin.now factors.now.left.now factors.now.right.now
        (row_of factors.now.left.now.rows n) (length (row_of factors.now.left.now.rows n))
        making.new number) }
{
    if let Some(number) = known_at(known, n) {
        return Ok(number);
    }
    let row = row_at(factors.left.rows.as_slice(), n);
    let number = row_product(alloc, factors, meeting, making, row)?;
    known.set(n as usize, Some(number));
    Ok(number)
}

/// For each row of the left matrix the number in the room of its product and the right matrix.
pub(crate) fn product_rows<C: Cell>(
    alloc: Global,
    factors: &Factors<C>,
    making: &mut Making<C>,
) -> Result<Items<u32>, AllocError>
    requires left { IsBody (length factors.now.right.now.numbers)
        (map C.symbols factors.now.left.now.cells.items)
        factors.now.left.now.rows factors.now.left.now.numbers }
    requires right { IsBody making.old.room.columns
        (map C.symbols factors.now.right.now.cells.items)
        factors.now.right.now.rows factors.now.right.now.numbers }
    requires making { IsMakingOf C.symbols
        factors.now.bin.now factors.now.left.now factors.now.right.now making.old }
    ensures more { IfOk result (λ _. MakesMore C.symbols
        factors.now.bin.now factors.now.left.now factors.now.right.now making.old making.new) }
    ensures count { IfOk result (λ numbers.
        length numbers ≡ length factors.now.left.now.numbers) }
    ensures rows { IfOk result (λ numbers. AreNumbersOf
        (ProductHas C.symbols
        factors.now.bin.now factors.now.left.now factors.now.right.now)
        (map C.symbols making.new.room.cells.items) making.new.room.rows numbers) }
{
    let flags = meeting_cells(alloc, factors)?;
    let meeting = flags.as_slice();
    let mut known = unknown(alloc, factors.left.rows.len())?;
    let named = factors.left.numbers.as_slice();
    let mut numbers = numbers_for(alloc, named.len())?;
    for i in 0..named.len() {
        let number = number_of_row_product(alloc, factors, meeting, making, &mut known, named[i])?;
        numbers.push(number)?;
    }
    Ok(numbers)
}
