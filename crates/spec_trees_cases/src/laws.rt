//! First trees and their printed texts, worked out. Each body is empty: the contract is the law.
ghost use Rattle.spec_trees_cases.specs.FirstTreeCases.{SmallFirstTrees};
ghost use Rattle.spec_trees_cases.specs.TextCases.{SmallTreeTexts};

/// The first trees of four small texts, and trees of them that are not first.
pub fn small_first_trees()
    ensures { SmallFirstTrees }
{}

/// What is printed of these trees, and of lists in each form.
pub fn small_tree_texts()
    ensures { SmallTreeTexts }
{}
