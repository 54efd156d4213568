//! The chart of a text: for each span of its tokens, the symbols that derive it.
ghost use Rattle.std.specs.Prelude.{◌≡◌, ◌<◌, ◌≤◌, ◌↔◌, [], length, slice_get, Contains};
ghost use Rattle.std.specs.Prelude.{Some, IsTrue, IfOk};
ghost use Rattle.spec_grammar.specs.Grammars.{Grammar};
ghost use Rattle.cell_sets.specs.Grids.{entry};
ghost use Rattle.valiant.specs.Charts.{IsChartOf, IsSpine, leaf_chart};

use crate::spans::Spans;
use binary_form::Binary;
use cell_sets::Cell;
use std::alloc::{AllocError, Global};
use std::marker::Model;
use std::sync::Arc;

/// For each span of a text's tokens that is not empty, the symbols that derive it, by their
/// numbers. Owners of one chart share it.
#[derive(Drop)]
pub struct Chart<C: Cell> {
    spans: Option<Arc<Spans<C>>>,
}

impl<C: Cell> Model for Chart<C> {
    ghost use Rattle.valiant.specs.Charts.{ChartValue};
    ghost use Rattle.valiant.specs.Codes.{coded_chart};
    ghost use Rattle.valiant.specs.Rows.{shared_chart};

    ghost Value = { ChartValue };

    ghost coded = { coded_chart };

    ghost view = { λ c. shared_chart c.spans };
}

impl<C: Cell> Chart<C> {
    /// The chart of no tokens, under every grammar. It takes no memory.
    pub fn leaf() -> Chart<C>
        ensures value { result ≡ leaf_chart }
        ensures exact { (g : Grammar) → IsChartOf g [] result }
    {
        Chart { spans: None }
    }

    /// The chart of tokens of these kinds, None for a stray token. It is filled from short spans to
    /// long ones, and for each span those cuts are tried that have symbols on both sides. An entry
    /// without symbols takes no memory. An error is want of memory.
    pub fn of_kinds(
        alloc: Global,
        bin: &Binary<C>,
        kinds: &[Option<u16>],
    ) -> Result<Chart<C>, AllocError>
        requires few { length kinds.now ≤ 16384 }
        ensures exact { IfOk result (λ chart. IsChartOf bin.now kinds.now chart) }
        ensures spine { IfOk result (λ chart. IsSpine chart) }
    {
        let spans = Spans::of_kinds(alloc, bin, kinds)?;
        Ok(Chart {
            spans: Some(Arc::new(alloc, spans)?),
        })
    }

    /// How many tokens the text has. It takes no memory.
    pub fn len(&self) -> u32
        ensures { result ≡ length self.now.kinds }
    {
        match &self.spans {
            Some(spans) => spans.len(),
            None => 0,
        }
    }

    /// The kind of token i, counted from 0; None exactly for a stray token. It takes no memory.
    pub fn kind_at(&self, i: u32) -> Option<u16>
        requires { i < length self.now.kinds }
        ensures { slice_get self.now.kinds i ≡ Some result }
    {
        match &self.spans {
            Some(spans) => spans.kind_at(i),
            None => None,
        }
    }

    /// Whether the entry of the span of the tokens from i up to j has this number. In a chart that
    /// stands for kinds under a grammar it has the number of a symbol exactly where the symbol
    /// derives the span, by `entries_tell_derivation`. It searches the entries that begin with
    /// token i, by halves, and takes no memory.
    pub fn has(&self, symbol: u16, i: u32, j: u32) -> bool
        requires room { symbol < C.ROOM }
        requires order { i < j }
        requires within { j ≤ length self.now.kinds }
        ensures { IsTrue result ↔ Contains (entry self.now.entries i j) symbol }
    {
        match &self.spans {
            Some(spans) => spans.has(symbol, i, j),
            None => false,
        }
    }

    /// An equal chart. Nothing is copied. An error is that there are 2^63 owners.
    pub fn share(&self, _alloc: Global) -> Result<Chart<C>, AllocError>
        ensures { IfOk result (λ chart. chart ≡ self.now) }
    {
        match &self.spans {
            Some(spans) => Ok(Chart {
                spans: Some(Arc::try_clone(spans)?),
            }),
            None => Ok(Chart::leaf()),
        }
    }
}
