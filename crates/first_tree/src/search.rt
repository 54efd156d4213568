//! The search for a first tree, node by node in preorder.
ghost use Rattle.std.specs.Prelude.{◌≡◌, ◌<◌, ◌≤◌, ℕ, List, Option, Some, IfOk, length, slice_get};
ghost use Rattle.spec_grammar.specs.declared.rule.Rule.{Rule};
ghost use Rattle.spec_grammar.specs.declared.rule.Symbol.{Symbol};
ghost use Rattle.spec_grammar.specs.Derivation.{Derives};
ghost use Rattle.spec_grammar.specs.Grammars.{IsSymbolOf};
ghost use Rattle.valiant.specs.Charts.{IsChartOf};
ghost use Rattle.tree_nodes.specs.declared.node.TreeNode.{TreeNode};
ghost use Rattle.first_tree.specs.Answers.{TellsFirst};
ghost use Rattle.first_tree.specs.Searching.{AreNodesOfAll, Enters, GivesNode, HasFirst};

use crate::answer::First;
use crate::choosing::{least_cut, least_rule};
use crate::derivation::derives;
use crate::rest::{Part, Rest, keep, next_item, rest_behind};
use binary_form::Binary;
use cell_sets::Cell;
use numbered_grammar::{Grammar, Symbol};
use spec_text::MAX_NODES;
use std::alloc::{AllocError, Global};
use tree_nodes::{Tree, TreeNode};
use valiant::Chart;

/// How many items the rule of this number has.
fn item_count<C: Cell>(bin: &Binary<C>, grammar: &Grammar, number: u16) -> u16
    requires same { grammar.now ≡ bin.now }
    requires rule { number < length bin.now.rules }
    ensures { (rule : Rule) → slice_get bin.now.rules number ≡ Some rule
        → result ≡ length rule.items }
{
    // A rule has fewer items than there are symbols.
    let _ = bin.symbol_count();
    grammar.rule(number).items.len() as u16
}

/// The node at the root of the first tree of the part. What is below it is kept.
fn enter<C: Cell>(
    chart: &Chart<C>,
    bin: &Binary<C>,
    grammar: &Grammar,
    kept: &mut Vec<Rest>,
    part: Part,
) -> Result<TreeNode, AllocError>
    requires chart { IsChartOf bin.now chart.now.kinds chart.now }
    requires same { grammar.now ≡ bin.now }
    requires derives { Derives bin.now.rules chart.now.kinds part.symbol part.first part.end }
    ensures { IfOk result
        (Enters bin.now.rules chart.now.kinds part kept.old.items kept.new.items) }
{
    match part.symbol {
        Symbol::Kind(kind) => Ok(TreeNode {
            rule: None,
            kind,
            first: part.first,
            end: part.end,
            children: 0,
        }),
        Symbol::Category(category) => {
            let rule = least_rule(chart, bin, grammar, category, part.first, part.end);
            let whole = Rest {
                rule,
                place: 0,
                first: part.first,
                end: part.end,
            };
            keep(kept, grammar, whole)?;
            Ok(TreeNode {
                rule: Some(rule),
                kind: 0,
                first: part.first,
                end: part.end,
                children: item_count(bin, grammar, rule),
            })
        }
    }
}

/// The first node of what is kept, which is kept no more. None exactly where nothing is kept.
fn next_node<C: Cell>(
    chart: &Chart<C>,
    bin: &Binary<C>,
    grammar: &Grammar,
    kept: &mut Vec<Rest>,
) -> Result<Option<TreeNode>, AllocError>
    requires chart { IsChartOf bin.now chart.now.kinds chart.now }
    requires same { grammar.now ≡ bin.now }
    requires kept { (nodes : List TreeNode)
        × AreNodesOfAll bin.now.rules chart.now.kinds kept.old.items nodes }
    ensures { IfOk result
        (GivesNode bin.now.rules chart.now.kinds kept.old.items kept.new.items) }
{
    let Some(rest) = kept.pop() else {
        return Ok(None);
    };
    let rule = grammar.rule(rest.rule);
    let symbol = next_item(bin, rule, rest);
    let place = least_cut(chart, bin, rule, rest);
    // The later items are kept first, so that no rule is kept of which nothing is left.
    keep(kept, grammar, rest_behind(bin, rule, rest, place))?;
    let part = Part {
        symbol,
        first: rest.first,
        end: place,
    };
    let node = enter(chart, bin, grammar, kept, part)?;
    Ok(Some(node))
}

/// No category of a grammar reaches itself, so a span that is derived has a first tree.
fn derived_has_first(grammar: &Grammar)
    ensures { (kinds : List (Option ℕ)) (s : Symbol) (i j : ℕ)
        → Derives grammar.now.rules kinds s i j → HasFirst grammar.now.rules kinds s i j }
{
    let _ = grammar.rules();
}

/// The first tree of the symbol over the span of the tokens from i up to j: by the least rule that
/// derives the span, with the least ends of its items from the left, and so on below. It goes
/// through the tree in preorder, and keeps of each rule above the current node the items that are
/// left, so it takes memory for the nodes and for the tree's height. For a node it looks at the
/// rules before its own, and for an item at the places before its end. An error is want of memory.
pub fn first<C: Cell>(
    alloc: Global,
    chart: &Chart<C>,
    bin: &Binary<C>,
    grammar: &Grammar,
    symbol: Symbol,
    i: u32,
    j: u32,
) -> Result<First, AllocError>
    requires chart { IsChartOf bin.now chart.now.kinds chart.now }
    requires same { grammar.now ≡ bin.now }
    requires own { IsSymbolOf grammar.now symbol }
    requires order { i ≤ j }
    requires within { j ≤ length chart.now.kinds }
    ensures { IfOk result (TellsFirst grammar.now.rules chart.now.kinds symbol i j) }
{
    if !derives(chart, bin, symbol, i, j) {
        return Ok(First::Nothing);
    }
    derived_has_first(grammar);
    let part = Part {
        symbol,
        first: i,
        end: j,
    };
    let mut kept = Vec::new(alloc);
    let mut nodes = Vec::new(alloc);
    let root = enter(chart, bin, grammar, &mut kept, part)?;
    nodes.push(root)?;
    while let Some(node) = next_node(chart, bin, grammar, &mut kept)? {
        if nodes.len() == MAX_NODES as usize {
            return Ok(First::Large);
        }
        nodes.push(node)?;
    }
    Ok(First::Tree(Tree::of(nodes)))
}
