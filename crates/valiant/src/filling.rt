//! Filling the rows of a chart from short spans to long ones: the last token's row first, and in
//! each row the spans in the order of their ends. Only pairs of entries side by side are looked at.
//! Rows are only appended to, so an entry is right from the moment that it stands.
ghost use Rattle.std.specs.Prelude.{◌≡◌, ◌+◌, ◌-◌, ◌<◌, ◌≤◌, [], length, slice_index_or, IfOk};
ghost use Rattle.spec_grammar.specs.Grammars.{HasOwnSymbols};
ghost use Rattle.valiant.specs.Rows.{HasRisingEnds};
ghost use Rattle.valiant.specs.Filling.{AddsCut, AddsCuts, AreEmptyCells, AreEndsBelow};
ghost use Rattle.valiant.specs.Filling.{AreFirstCells, AreLastRows, HasSame, IsNextRow};

use crate::rows::{Entry, Row};
use binary_form::Binary;
use cell_sets::Cell;
use sqlite_items::Items;
use std::alloc::{AllocError, Global};
use std::mem;

/// The cells of all ends, with what one cut gives at the end of the entry: its left part has the
/// symbols of `left`, and its right part is the entry.
fn with_cut<C: Cell>(
    alloc: Global,
    bin: &Binary<C>,
    mut cells: Vec<C>,
    left: &C,
    entry: &Entry<C>,
) -> Result<Vec<C>, AllocError>
    requires { entry.now.end < length cells.items }
    ensures { IfOk result (λ new.
        AddsCut C.symbols bin.now (C.symbols left.now) entry.now cells.items new.items) }
{
    let end = entry.end as usize;
    let cell = mem::replace(&mut cells[end], C::empty());
    let both: C = bin.add_product(alloc, cell, left, &entry.cell)?;
    cells[end] = both;
    Ok(cells)
}

/// The cells of all ends, with what the cuts give behind a part that has the symbols of `left`: one
/// for each entry of the row behind that part.
fn with_cuts<C: Cell>(
    alloc: Global,
    bin: &Binary<C>,
    mut cells: Vec<C>,
    left: &C,
    behind: &[Entry<C>],
) -> Result<Vec<C>, AllocError>
    requires rising { HasRisingEnds behind.now }
    requires below { AreEndsBelow (length cells.items) behind.now }
    ensures { IfOk result (λ new.
        AddsCuts C.symbols bin.now (C.symbols left.now) behind.now cells.items new.items) }
{
    for entry in behind {
        cells = with_cut(alloc, bin, cells, left, entry)?;
    }
    Ok(cells)
}

/// A cell with the same symbols.
fn copy_of<C: Cell>(alloc: Global, cell: &C) -> Result<C, AllocError>
    ensures { IfOk result (λ copy. HasSame (C.symbols cell.now) (C.symbols copy)) }
{
    let copy = C::empty().union(alloc, cell)?;
    Ok(copy)
}

/// A cell without symbols for each end of so many tokens.
fn empty_cells<C: Cell>(alloc: Global, tokens: usize) -> Result<Vec<C>, AllocError>
    requires { tokens ≤ 16384 }
    ensures { IfOk result (λ cells. AreEmptyCells C.symbols tokens cells.items) }
{
    let mut cells = Vec::new(alloc);
    for _ in 0..tokens + 1 {
        cells.push(C::empty())?;
    }
    Ok(cells)
}

/// A cell for each end: that of the token for the end of the token, and the others without symbols.
fn first_cells<C: Cell>(
    alloc: Global,
    bin: &Binary<C>,
    kinds: &[Option<u16>],
    token: usize,
    mut cells: Vec<C>,
) -> Result<Vec<C>, AllocError>
    requires own_symbols { HasOwnSymbols bin.now }
    requires within { token < length kinds.now }
    requires empty { AreEmptyCells C.symbols (length kinds.now) cells.items }
    ensures { IfOk result (λ cells.
        AreFirstCells C.symbols bin.now kinds.now token cells.items) }
{
    let cell = copy_of(alloc, bin.token_cell(kinds[token]))?;
    cells[token + 1] = cell;
    Ok(cells)
}

/// The row of a token behind those whose rows come next, and no entries for the end of the text.
fn row_behind<C>(rows: &[Row<C>], count: usize, token: usize) -> &[Entry<C>]
    requires { count ≤ length rows.now + token }
    ensures row { token < count → result.now ≡ slice_index_or rows.now (count - token - 1) [] }
    ensures none { count ≤ token → result.now ≡ [] }
{
    if token < count {
        rows[count - token - 1].as_slice()
    } else {
        &[]
    }
}

/// The entries of the spans that begin with the next token, which is the one before those of the
/// rows, and the cells, which are empty before and after. When an end is reached, its cell has what
/// all cuts give, and goes into its entry, with which the cells of the ends behind it get the cuts
/// there.
fn filled_row<C: Cell>(
    alloc: Global,
    bin: &Binary<C>,
    kinds: &[Option<u16>],
    rows: &[Row<C>],
    empty: Vec<C>,
) -> Result<(Row<C>, Vec<C>), AllocError>
    requires own_symbols { HasOwnSymbols bin.now }
    requires rows { AreLastRows C.symbols bin.now kinds.now rows.now }
    requires short { length rows.now < length kinds.now }
    requires few { length kinds.now ≤ 16384 }
    requires empty { AreEmptyCells C.symbols (length kinds.now) empty.items }
    ensures { IfOk result (λ next.
        IsNextRow C.symbols bin.now kinds.now rows.now next.0 next.1.items) }
{
    let first = kinds.len() - rows.len() - 1;
    let mut row = Items::new(alloc);
    let mut cells: Vec<C> = first_cells(alloc, bin, kinds, first, empty)?;
    for last in first..kinds.len() {
        if cells[last + 1].is_empty() {
            continue;
        }
        let cell: C = mem::replace(&mut cells[last + 1], C::empty());
        let behind = row_behind(rows, kinds.len(), last + 1);
        cells = with_cuts(alloc, bin, cells, &cell, behind)?;
        row.push(Entry {
            end: last as u32 + 1,
            cell,
        })?;
    }
    Ok((row, cells))
}

/// The entries of the spans that begin with the next token, and the empty cells. Where nothing
/// derives the token, nothing derives a longer span from it: no end is looked at.
fn next_row<C: Cell>(
    alloc: Global,
    bin: &Binary<C>,
    kinds: &[Option<u16>],
    rows: &[Row<C>],
    empty: Vec<C>,
) -> Result<(Row<C>, Vec<C>), AllocError>
    requires own_symbols { HasOwnSymbols bin.now }
    requires rows { AreLastRows C.symbols bin.now kinds.now rows.now }
    requires short { length rows.now < length kinds.now }
    requires few { length kinds.now ≤ 16384 }
    requires empty { AreEmptyCells C.symbols (length kinds.now) empty.items }
    ensures { IfOk result (λ next.
        IsNextRow C.symbols bin.now kinds.now rows.now next.0 next.1.items) }
{
    let token = kinds.len() - rows.len() - 1;
    if bin.token_cell(kinds[token]).is_empty() {
        return Ok((Items::new(alloc), empty));
    }
    filled_row(alloc, bin, kinds, rows, empty)
}

/// Each rule of the grammar has symbols of the grammar: a binary form keeps it so.
fn rules_have_own_symbols<C: Cell>(bin: &Binary<C>)
    ensures { HasOwnSymbols bin.now }
{
    let _ = bin.symbol_count();
}

/// The rows of all tokens, the last token's first.
pub(crate) fn rows_of<C: Cell>(
    alloc: Global,
    bin: &Binary<C>,
    kinds: &[Option<u16>],
) -> Result<Items<Row<C>>, AllocError>
    requires few { length kinds.now ≤ 16384 }
    ensures { IfOk result (λ rows.
        (length rows ≡ length kinds.now) × AreLastRows C.symbols bin.now kinds.now rows) }
{
    rules_have_own_symbols(bin);
    let mut rows = Items::new(alloc);
    let mut empty: Vec<C> = empty_cells(alloc, kinds.len())?;
    for _ in 0..kinds.len() {
        let (row, cells) = next_row(alloc, bin, kinds, rows.as_slice(), empty)?;
        rows.push(row)?;
        empty = cells;
    }
    Ok(rows)
}
