//! The entries of a row that are not empty: which cell stands at which column.
ghost use Rattle.std.specs.Prelude.{◌≡◌, ◌<◌, [], length, map, IfSome, MatchOption};
ghost use Rattle.quad_mat.specs.Rows.{found, AreCellsBelow, AreFull, HasRisingColumns};
ghost use Rattle.quad_mat.specs.Rows.{row_of, IsColumnPlace};

use cell_sets::Cell;
use sqlite_items::Items;

/// The number of a cell, which is not empty, and its column.
#[derive(Clone, Copy, PartialEq, Eq)]
pub(crate) struct Entry {
    pub(crate) column: u32,
    pub(crate) cell: u32,
}

/// The entries of one row, in the order of their columns.
pub(crate) type Row = Items<Entry>;

/// The row of this number.
pub(crate) fn row_at(rows: &[Row], n: u32) -> &[Entry]
    requires { n < length rows.now }
    ensures { result.now ≡ row_of rows.now n }
{
    rows[n as usize].as_slice()
}

/// Where the entry of this column stands, or where it would stand.
fn place_of(row: &[Entry], column: u32) -> Result<usize, usize>
    requires { HasRisingColumns row.now }
    ensures { IsColumnPlace row.now column result }
{
    row.binary_search_by_key(&column, |entry| entry.column)
}

/// The cell at this column, None where the row has no entry for it.
pub(crate) fn cell_at<'a, C: Cell>(cells: &'a [C], row: &[Entry], column: u32) -> Option<&'a C>
    requires rising { HasRisingColumns row.now }
    requires known { AreCellsBelow (length (map C.symbols cells.now)) row.now }
    requires full { AreFull (map C.symbols cells.now) }
    ensures cell { MatchOption result
        (found (map C.symbols cells.now) row.now column ≡ [])
        (λ cell. C.symbols cell.now ≡ found (map C.symbols cells.now) row.now column) }
    ensures some { IfSome result (λ cell. C.symbols cell.now ≡ [] → ⊥) }
{
    match place_of(row, column) {
        Ok(at) => Some(&cells[row[at].cell as usize]),
        Err(_) => None,
    }
}
