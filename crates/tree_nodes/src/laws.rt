//! A law of nodes in preorder. The body is empty: the contract is the law.
ghost use Rattle.tree_nodes.specs.Laws.{NodesAreOfOneTree};

/// Trees of the same nodes are the same.
pub fn nodes_are_of_one_tree()
    ensures { NodesAreOfOneTree }
{}
