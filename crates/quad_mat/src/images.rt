//! Products of cells, and images of rows under a cell: each is made once, and remembered.
ghost use Rattle.std.specs.Prelude.{◌≡◌, ◌<◌, [], length, map, Contains, IfOk, OnOk, IfSome};
ghost use Rattle.quad_mat.specs.declared.images.CellProduct.{CellProduct};
ghost use Rattle.quad_mat.specs.declared.images.RowImage.{RowImage};
ghost use Rattle.quad_mat.specs.Rows.{cell_of, AreFull, IsRow, row_of};
ghost use Rattle.quad_mat.specs.Rooms.{IsRoom};
ghost use Rattle.quad_mat.specs.Products.{AreProducts, IsImage, IsImageUpTo, IsMakingOf};
ghost use Rattle.quad_mat.specs.Products.{MakesMore, MakesProduct, PushesProduct};

use crate::cells::{LOOK_BACK, number_unless_empty};
use crate::entries::{Entry, Row, row_at};
use crate::loading::Body;
use crate::room::{Room, empty_room, number_of_row};
use binary_form::Binary;
use cell_sets::Cell;
use sqlite_items::Items;
use std::alloc::{AllocError, Global};

/// The product of two cells, by the number of the left one in the left matrix and that of the right
/// one in the right matrix: its number in the room, None where it is empty.
#[derive(Clone, Copy)]
pub(crate) struct CellProduct {
    pub(crate) left: u32,
    pub(crate) right: u32,
    pub(crate) number: Option<u32>,
}

/// The image of a row of the right matrix under a cell of the left one, by their numbers: the
/// number in the room of the row of products.
#[derive(Clone, Copy)]
pub(crate) struct RowImage {
    pub(crate) cell: u32,
    pub(crate) row: u32,
    pub(crate) image: u32,
}

/// What a product of matrices is made of.
#[derive(Drop)]
pub(crate) struct Factors<'a, C: Cell> {
    pub(crate) bin: &'a Binary<C>,
    pub(crate) left: &'a Body<C>,
    pub(crate) right: &'a Body<C>,
}

/// Where a product of matrices is made: a room, with the products of cells and the images of rows
/// that were made.
#[derive(Drop)]
pub(crate) struct Making<C: Cell> {
    pub(crate) room: Room<C>,
    pub(crate) products: Items<CellProduct>,
    pub(crate) images: Items<RowImage>,
}

/// A room for a product with so many columns, in which nothing was made.
pub(crate) fn empty_making<C: Cell>(alloc: Global, columns: u32) -> Result<Making<C>, AllocError>
    ensures columns { IfOk result (λ making. making.room.columns ≡ columns) }
    ensures room { IfOk result (λ making. IsRoom columns
        (map C.symbols making.room.cells.items) making.room.rows making.room.unions) }
    ensures none { IfOk result (λ making. (making.products ≡ []) × (making.images ≡ [])) }
{
    let room = empty_room(alloc, columns)?;
    Ok(Making {
        room,
        products: Items::new(alloc),
        images: Items::new(alloc),
    })
}

/// The product that is remembered of two cells, if it is one of the last.
fn known_product(products: &[CellProduct], left: u32, right: u32) -> Option<Option<u32>>
    ensures { IfSome result (λ n. (m : CellProduct) × Contains products.now m
        × (m.left ≡ left) × (m.right ≡ right) × (m.number ≡ n)) }
{
    let mut place = products.len();
    let mut left_over = LOOK_BACK;
    while place > 0 && left_over > 0 {
        place -= 1;
        left_over -= 1;
        let known = products[place];
        if known.left == left && known.right == right {
            return Some(known.number);
        }
    }
    None
}

/// The image that is remembered of a row under a cell, if it is one of the last.
fn known_image(images: &[RowImage], cell: u32, row: u32) -> Option<u32>
    ensures { IfSome result (λ n. (m : RowImage) × Contains images.now m
        × (m.cell ≡ cell) × (m.row ≡ row) × (m.image ≡ n)) }
{
    let mut place = images.len();
    let mut left_over = LOOK_BACK;
    while place > 0 && left_over > 0 {
        place -= 1;
        left_over -= 1;
        let known = images[place];
        if known.cell == cell && known.row == row {
            return Some(known.image);
        }
    }
    None
}

/// The number of the product of a left cell and a right one, None where it is empty. One that is
/// not remembered is made.
fn number_of_product<C: Cell>(
    alloc: Global,
    factors: &Factors<C>,
    products: &mut Items<CellProduct>,
    cells: &mut Vec<C>,
    left: u32,
    right: u32,
) -> Result<Option<u32>, AllocError>
    requires left { left < length factors.now.left.now.cells.items }
    requires right { right < length factors.now.right.now.cells.items }
    requires full { AreFull (map C.symbols cells.old.items) }
    requires remembered { AreProducts factors.now.bin.now
        (map C.symbols factors.now.left.now.cells.items)
        (map C.symbols factors.now.right.now.cells.items)
        (map C.symbols cells.old.items) products.old }
    ensures { IfOk result (λ number. MakesProduct factors.now.bin.now
        (map C.symbols factors.now.left.now.cells.items)
        (map C.symbols factors.now.right.now.cells.items)
        (map C.symbols cells.old.items) (map C.symbols cells.new.items) products.new
        left right number) }
{
    if let Some(number) = known_product(products.as_slice(), left, right) {
        return Ok(number);
    }
    let one = &factors.left.cells[left as usize];
    let other = &factors.right.cells[right as usize];
    let cell: C = factors.bin.product(alloc, one, other)?;
    let number = number_unless_empty(cells, cell)?;
    let _ = products.push(CellProduct {
        left,
        right,
        number,
    });
    Ok(number)
}

/// Puts the product of a left cell and an entry's cell behind a row's image, if it is not empty.
fn push_product<C: Cell>(
    alloc: Global,
    factors: &Factors<C>,
    products: &mut Items<CellProduct>,
    cells: &mut Vec<C>,
    left: u32,
    entry: Entry,
    image: &mut Row,
) -> Result<(), AllocError>
    requires left { left < length factors.now.left.now.cells.items }
    requires right { entry.cell < length factors.now.right.now.cells.items }
    requires full { AreFull (map C.symbols cells.old.items) }
    requires remembered { AreProducts factors.now.bin.now
        (map C.symbols factors.now.left.now.cells.items)
        (map C.symbols factors.now.right.now.cells.items)
        (map C.symbols cells.old.items) products.old }
    ensures { OnOk result (PushesProduct factors.now.bin.now
        (map C.symbols factors.now.left.now.cells.items)
        (map C.symbols factors.now.right.now.cells.items)
        (map C.symbols cells.old.items) (map C.symbols cells.new.items) products.new
        left entry image.old image.new) }
{
    match number_of_product(alloc, factors, products, cells, left, entry.cell)? {
        Some(cell) => {
            image.push(Entry {
                column: entry.column,
                cell,
            })?;
            Ok(())
        }
        None => Ok(()),
    }
}

/// The image of a row of the right matrix under a left cell.
fn image_of<C: Cell>(
    alloc: Global,
    factors: &Factors<C>,
    products: &mut Items<CellProduct>,
    cells: &mut Vec<C>,
    left: u32,
    row: &[Entry],
    columns: u32,
) -> Result<Row, AllocError>
    requires left { left < length factors.now.left.now.cells.items }
    requires row { IsRow (length (map C.symbols factors.now.right.now.cells.items))
        columns row.now }
    requires full { AreFull (map C.symbols cells.old.items) }
    requires remembered { AreProducts factors.now.bin.now
        (map C.symbols factors.now.left.now.cells.items)
        (map C.symbols factors.now.right.now.cells.items)
        (map C.symbols cells.old.items) products.old }
    ensures { IfOk result (λ image. IsImageUpTo factors.now.bin.now columns
        (map C.symbols factors.now.left.now.cells.items)
        (map C.symbols factors.now.right.now.cells.items)
        (map C.symbols cells.old.items) (map C.symbols cells.new.items) products.new
        left row.now (length row.now) image) }
{
    let mut image = Items::new(alloc);
    for entry in row {
        push_product(alloc, factors, products, cells, left, *entry, &mut image)?;
    }
    Ok(image)
}

/// The number in the room of the image of row n of the right matrix under a left cell. One that is
/// not remembered is made.
pub(crate) fn number_of_image<C: Cell>(
    alloc: Global,
    factors: &Factors<C>,
    making: &mut Making<C>,
    left: u32,
    n: u32,
) -> Result<u32, AllocError>
    requires left { left < length factors.now.left.now.cells.items }
    requires within { n < length factors.now.right.now.rows }
    requires row { IsRow (length (map C.symbols factors.now.right.now.cells.items))
        making.old.room.columns (row_of factors.now.right.now.rows n) }
    requires making { IsMakingOf C.symbols
        factors.now.bin.now factors.now.left.now factors.now.right.now making.old }
    ensures more { IfOk result (λ _. MakesMore C.symbols
        factors.now.bin.now factors.now.left.now factors.now.right.now making.old making.new) }
    ensures image { IfOk result (λ image. IsImage factors.now.bin.now
        (cell_of (map C.symbols factors.now.left.now.cells.items) left)
        (map C.symbols factors.now.right.now.cells.items) (row_of factors.now.right.now.rows n)
        (map C.symbols making.new.room.cells.items) making.new.room.rows image) }
{
    if let Some(image) = known_image(making.images.as_slice(), left, n) {
        return Ok(image);
    }
    let row = row_at(factors.right.rows.as_slice(), n);
    let columns = making.room.columns;
    let products = &mut making.products;
    let cells = &mut making.room.cells;
    let made = image_of(alloc, factors, products, cells, left, row, columns)?;
    let image = number_of_row(&mut making.room, made)?;
    let _ = making.images.push(RowImage {
        cell: left,
        row: n,
        image,
    });
    Ok(image)
}
