//! What the owners of a chart share: the kinds of its tokens, and the entries that are not empty.
ghost use Rattle.std.specs.Prelude.{◌≡◌, ◌<◌, ◌≤◌, ◌↔◌, [], length, slice_get, Contains};
ghost use Rattle.std.specs.Prelude.{Some, IsTrue, IfOk, MatchOption};
ghost use Rattle.cell_sets.specs.Grids.{entry};
ghost use Rattle.valiant.specs.Charts.{IsChartOf, IsSpine};

use crate::filling::rows_of;
use crate::rows::{Row, cell_at};
use binary_form::Binary;
use cell_sets::Cell;
use sqlite_items::Items;
use std::alloc::{AllocError, Global};
use std::marker::Model;

/// The kinds of a text's tokens, and for each token the row of the spans that begin with it. The
/// rows stand in the order of filling, that of the last token first.
#[derive(Drop)]
pub(crate) struct Spans<C: Cell> {
    kinds: Items<Option<u16>>,
    rows: Items<Row<C>>,
}

impl<C: Cell> Model for Spans<C> {
    ghost use Rattle.valiant.specs.Charts.{ChartValue};
    ghost use Rattle.valiant.specs.Codes.{coded_chart};
    ghost use Rattle.valiant.specs.Rows.{chart_value, AreSpanRows};

    ghost Value = { ChartValue };

    ghost coded = { coded_chart };

    ghost view = { λ s. chart_value C.symbols s.kinds s.rows };

    ghost invariant = { λ s. AreSpanRows s.kinds s.rows };
}

impl<C: Cell> Spans<C> {
    /// The kinds, with the entries of all spans.
    pub(crate) fn of_kinds(
        alloc: Global,
        bin: &Binary<C>,
        kinds: &[Option<u16>],
    ) -> Result<Spans<C>, AllocError>
        requires few { length kinds.now ≤ 16384 }
        ensures exact { IfOk result (λ spans. IsChartOf bin.now kinds.now spans) }
        ensures spine { IfOk result (λ spans. IsSpine spans) }
    {
        let rows = rows_of(alloc, bin, kinds)?;
        let kinds = Items::from_slice(alloc, kinds)?;
        Ok(Spans { kinds, rows })
    }

    /// How many tokens there are.
    pub(crate) fn len(&self) -> u32
        ensures { result ≡ length self.now.kinds }
    {
        self.kinds.len() as u32
    }

    /// The kind of a token, None for a stray one.
    pub(crate) fn kind_at(&self, i: u32) -> Option<u16>
        requires { i < length self.now.kinds }
        ensures { slice_get self.now.kinds i ≡ Some result }
    {
        self.kinds.as_slice()[i as usize]
    }

    /// Whether the symbol derives the span.
    pub(crate) fn has(&self, symbol: u16, i: u32, j: u32) -> bool
        requires room { symbol < C.ROOM }
        requires order { i < j }
        requires within { j ≤ length self.now.kinds }
        ensures { IsTrue result ↔ Contains (entry self.now.entries i j) symbol }
    {
        match self.cell(i, j) {
            Some(cell) => cell.has(symbol),
            None => false,
        }
    }

    /// The symbols of a span, None where there are none.
    fn cell(&self, i: u32, j: u32) -> Option<&C>
        requires order { i < j }
        requires within { j ≤ length self.now.kinds }
        ensures { MatchOption result
            (entry self.now.entries i j ≡ [])
            (λ cell. C.symbols cell.now ≡ entry self.now.entries i j) }
    {
        let row = &self.rows.as_slice()[self.kinds.len() - i as usize - 1];
        cell_at(row.as_slice(), j)
    }
}
