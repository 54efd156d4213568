//! Laws of first trees. Each body is empty: the contract is the law, and calling the function
//! cites it.
ghost use Rattle.spec_trees.specs.Laws.{DerivedOrNot, DerivedSpansHaveFirstTrees};
ghost use Rattle.spec_trees.specs.Laws.{FirstTreesAreLeast, FirstTreesAreParseTrees};
ghost use Rattle.spec_trees.specs.Laws.{LeastTreesAreFirst, OneFirstTree};
ghost use Rattle.spec_trees.specs.OrderLaws.{EndsAreLeastInTurn, LeftTellsApart, NoEndsBeforeNone};
ghost use Rattle.spec_trees.specs.OrderLaws.{NumbersAreOrdered};

/// A first tree is a parse tree, whatever the order of ends is.
pub fn a_first_tree_is_a_parse_tree()
    ensures { FirstTreesAreParseTrees }
{}

/// A symbol has one first tree over a span at most, in any grammar and any order that tells lists
/// of ends apart. Each order from the left does so, be the lesser end the first or the greater.
pub fn one_first_tree()
    ensures any { OneFirstTree }
    ensures left { LeftTellsApart }
    ensures numbers { NumbersAreOrdered }
{}

/// In an order from the left the ends of a node's items are the least in turn: that of the first
/// item, and behind it those of the others. So a search may settle one cut at a time.
pub fn ends_are_least_in_turn()
    ensures none { NoEndsBeforeNone }
    ensures some { EndsAreLeastInTurn }
{}

/// In a grammar whose categories don't reach themselves a symbol has a first tree over each span
/// that it derives. In another grammar it may have none: its least rule may lead back to it over
/// the same span.
pub fn a_derived_span_has_a_first_tree()
    ensures { DerivedSpansHaveFirstTrees }
{}

/// The first tree is the parse tree before which no other comes: none comes before a first tree,
/// and in a grammar whose categories don't reach themselves each tree before which none comes is a
/// first tree.
pub fn first_trees_are_least()
    ensures first { FirstTreesAreLeast }
    ensures least { LeastTreesAreFirst }
{}

/// In any grammar it can be found out of each symbol and span whether the one derives the other.
/// So no law of first trees has to ask for it.
pub fn derived_or_not()
    ensures { DerivedOrNot }
{}
