//! Trees of nodes.
ghost use Rattle.std.specs.Prelude.{◌≡◌};
ghost use Rattle.tree_nodes.specs.TreeNodes.{preorder, AreNodesOfTree};

use crate::node::TreeNode;
use std::marker::Model;

/// A tree, kept as its nodes in preorder, each with the number of its children.
#[derive(Drop)]
pub struct Tree {
    nodes: Vec<TreeNode>,
}

impl Model for Tree {
    ghost use Rattle.std.specs.Prelude.{◌≡◌};
    ghost use Rattle.spec_grammar.specs.Trees.{Tree as ParseTree};
    ghost use Rattle.tree_nodes.specs.TreeNodes.{preorder};
    ghost use Rattle.tree_nodes.specs.Codes.{coded_tree, tree_of};

    ghost Value = { ParseTree };

    ghost coded = { coded_tree };

    ghost view = { λ t. tree_of t.nodes.items };

    ghost invariant = { λ t. preorder (tree_of t.nodes.items) ≡ t.nodes.items };
}

impl Tree {
    /// The tree of these nodes, which `nodes_are_of_one_tree` says is one. It takes no memory.
    pub fn of(nodes: Vec<TreeNode>) -> Tree
        requires { AreNodesOfTree nodes.items }
        ensures { preorder result ≡ nodes.items }
    {
        Tree { nodes }
    }

    /// The nodes in preorder: each before those below it, and these from left to right. It takes no
    /// memory.
    pub fn nodes(&self) -> &[TreeNode]
        ensures { result.now ≡ preorder self.now }
    {
        self.nodes.as_slice()
    }
}
