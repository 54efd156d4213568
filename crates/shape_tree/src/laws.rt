//! Laws of the definitions that the contracts cite, each on a function that does nothing.
ghost use Rattle.shape_tree.specs.Heights.{NodesOfLowTreesAreLow};
ghost use Rattle.shape_tree.specs.Digits.{DigitsAreLeast};

/// A number is below two to the power of its digits, and of no fewer digits, but it has one.
pub fn digits_are_least()
    ensures { DigitsAreLeast }
{}

/// A node of two low trees whose heights are near is low. So a kept tree can keep that it is low
/// from its nodes up.
pub fn nodes_of_low_trees_are_low()
    ensures { NodesOfLowTreesAreLow }
{}
