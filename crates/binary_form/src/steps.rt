//! The unit steps of a grammar, and where its suffixes go on, as links between numbers.
ghost use Rattle.std.specs.Prelude.{◌↔◌, ◌≡◌, ◌<◌, ◌^◌, ◌+◌, length, IsTrue, IsFalse, IfOk, OnOk};
ghost use Rattle.spec_grammar.specs.Grammars.{symbol_count};
ghost use Rattle.number_graph.specs.Graphs.{AddsLinks, IsSet};
ghost use Rattle.binary_form.specs.LongerSuffixes.{AreLongerSuffixes};
ghost use Rattle.binary_form.specs.Rows.{AreSuffixRows, IsRowWithin};
ghost use Rattle.binary_form.specs.NullableNumbers.{AreNullableNumbers};
ghost use Rattle.binary_form.specs.RowLinks.{IsRowStep, AreUnitSteps};

use crate::nullable::is_rest_nullable;
use crate::numbering::plain_count;
use crate::rows::SuffixRow;
use number_graph::Links;
use numbered_grammar::Grammar;
use std::alloc::{AllocError, Global};

/// Whether the suffix goes on behind its item, and the item derives the empty span.
fn is_item_passed(nullable: &[bool], row: &SuffixRow) -> bool
    requires { row.now.item < length nullable.now }
    ensures { IsTrue result ↔ (IsFalse row.now.is_last × IsSet nullable.now row.now.item) }
{
    !row.is_last && nullable[row.item as usize]
}

/// Adds the unit steps of the suffix of this number.
fn add_steps(
    links: &mut Links,
    nullable: &[bool],
    row: &SuffixRow,
    suffix: u16,
) -> Result<(), AllocError>
    requires few { length nullable.now < 2 ^ 16 }
    requires links { length links.old ≡ length nullable.now }
    requires row { IsRowWithin row.now suffix (length nullable.now) }
    ensures { OnOk result (AddsLinks (IsRowStep nullable.now row.now suffix) links.old links.new) }
{
    let passed = is_item_passed(nullable, row);
    let empty = is_rest_nullable(nullable, row, suffix);
    links.add_if(row.is_first, suffix, row.category)?;
    links.add_if(empty, row.item, suffix)?;
    links.add_if(passed, suffix + 1, suffix)?;
    Ok(())
}

/// The unit steps between the symbols: each suffix gives three at most.
pub fn unit_steps(
    alloc: Global,
    grammar: &Grammar,
    rows: &[SuffixRow],
    nullable: &[bool],
) -> Result<Links, AllocError>
    requires few { symbol_count grammar.now < 2 ^ 16 }
    requires rows { AreSuffixRows grammar.now rows.now }
    requires nullable { AreNullableNumbers grammar.now nullable.now }
    ensures { IfOk result (AreUnitSteps grammar.now) }
{
    let first = plain_count(grammar);
    let mut links = Links::new(alloc, nullable.len())?;
    for (number, row) in rows.iter().enumerate() {
        add_steps(&mut links, nullable, row, first + number as u16)?;
    }
    Ok(links)
}

/// Where suffixes go on behind their items: the number of such an item is linked to that of the
/// suffix which it begins.
pub fn longer_suffixes_of(
    alloc: Global,
    grammar: &Grammar,
    rows: &[SuffixRow],
) -> Result<Links, AllocError>
    requires few { symbol_count grammar.now < 2 ^ 16 }
    requires rows { AreSuffixRows grammar.now rows.now }
    ensures { IfOk result (AreLongerSuffixes grammar.now) }
{
    let first = plain_count(grammar);
    let mut links = Links::new(alloc, first as usize + rows.len())?;
    for (number, row) in rows.iter().enumerate() {
        links.add_if(!row.is_last, row.item, first + number as u16)?;
    }
    Ok(links)
}
