//! One row for each suffix, in the order of their numbers: what the rules say, without the rules.
ghost use Rattle.std.specs.Prelude.{◌≡◌, ◌+◌, ◌<◌, ◌^◌, length, take, slice_get, Some, IfOk, OnOk};
ghost use Rattle.spec_grammar.specs.declared.rule.Rule.{Rule};
ghost use Rattle.spec_grammar.specs.Grammars.{item_count, symbol_count};
ghost use Rattle.binary_form.specs.Rows.{IsRow, AreRowsUpTo, AreSuffixRows};

use crate::numbering::number;
use numbered_grammar::Grammar;
use std::alloc::{AllocError, Global};

/// What a suffix of a rule is, told by numbers.
#[derive(Clone, Copy, Debug)]
pub struct SuffixRow {
    /// The number of the item that begins it.
    pub item: u16,
    /// The number of the rule's category.
    pub category: u16,
    /// Whether it is the whole right side.
    pub is_first: bool,
    /// Whether its item is the last.
    pub is_last: bool,
}

fn row(grammar: &Grammar, r: u16, p: usize) -> SuffixRow
    requires few { symbol_count grammar.now < 2 ^ 16 }
    requires rule { r < length grammar.now.rules }
    requires item { (rule : Rule) → slice_get grammar.now.rules r ≡ Some rule
        → p < length rule.items }
    ensures { IsRow grammar.now r p result }
{
    let rule = &grammar.rules()[r as usize];
    let items = rule.items.as_slice();
    SuffixRow {
        item: number(grammar, items[p]),
        category: rule.category,
        is_first: p == 0,
        is_last: p + 1 == items.len(),
    }
}

fn add_rule(grammar: &Grammar, r: u16, rows: &mut Vec<SuffixRow>) -> Result<(), AllocError>
    requires few { symbol_count grammar.now < 2 ^ 16 }
    requires rule { r < length grammar.now.rules }
    requires rows { AreRowsUpTo grammar.now
        (item_count (take r grammar.now.rules)) rows.old.items }
    ensures { OnOk result
        (AreRowsUpTo grammar.now (item_count (take (r + 1) grammar.now.rules)) rows.new.items) }
{
    for p in 0..grammar.rule(r).items.len() {
        rows.push(row(grammar, r, p))?;
    }
    Ok(())
}

/// The rows of all suffixes. It looks at each item of the rules once.
pub fn rows_of(alloc: Global, grammar: &Grammar) -> Result<Vec<SuffixRow>, AllocError>
    requires { symbol_count grammar.now < 2 ^ 16 }
    ensures { IfOk result (λ rows. AreSuffixRows grammar.now rows.items) }
{
    let mut rows = Vec::new(alloc);
    for r in 0..grammar.rule_count() {
        add_rule(grammar, r, &mut rows)?;
    }
    Ok(rows)
}
