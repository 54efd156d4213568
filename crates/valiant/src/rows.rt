//! The entries of the spans that begin with one token.
ghost use Rattle.std.specs.Prelude.{◌≡◌, [], MatchOption};
ghost use Rattle.valiant.specs.Rows.{found, HasRisingEnds, IsEntryPlace};

use cell_sets::Cell;
use sqlite_items::Items;

/// The symbols of the span up to this end, of which there are some.
#[derive(Drop)]
pub(crate) struct Entry<C> {
    pub(crate) end: u32,
    pub(crate) cell: C,
}

/// The entries of the spans that begin with one token, in the order of their ends.
pub(crate) type Row<C> = Items<Entry<C>>;

/// Where the entry up to this end stands, or where it would stand.
fn place_of<C>(row: &[Entry<C>], end: u32) -> Result<usize, usize>
    requires { HasRisingEnds row.now }
    ensures { IsEntryPlace row.now end result }
{
    row.binary_search_by_key(&end, |entry| entry.end)
}

/// The symbols of the span up to this end, None where the row has no entry for it.
pub(crate) fn cell_at<C: Cell>(row: &[Entry<C>], end: u32) -> Option<&C>
    requires { HasRisingEnds row.now }
    ensures { MatchOption result
        (found C.symbols row.now end ≡ [])
        (λ cell. C.symbols cell.now ≡ found C.symbols row.now end) }
{
    match place_of(row, end) {
        Ok(at) => Some(&row[at].cell),
        Err(_) => None,
    }
}
